// trace — reading a trace: its lines, its head, its events, and what a whole file holds.
#![tactic(auto)]

mod damage;
mod events;
mod field;
mod inspection;
mod lines;
mod reader;
mod rule;
mod summary;
#[cfg(test)]
mod tests;

pub use damage::Damage;
pub use events::Event;
pub use field::number;
pub use inspection::inspect;
pub use lines::cut;
pub use reader::{event, head};
pub use rule::Rule;
pub use summary::Summary;
