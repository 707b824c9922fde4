// report — writing a report: number fields, lines of four numbers, the head line, the X line.
#![tactic(auto)]

mod field;
#[cfg(test)]
mod tests;
mod writer;

pub use writer::{write_head, write_line, write_number, write_refusal};
