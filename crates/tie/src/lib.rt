// tie — tie rules: which of the longest queues loses a cell when the memory is full.
#![tactic(auto)]

mod candidate;
mod laws;
mod lowest_port;
mod oldest_head;
mod rotating;
mod sheltering;
mod shelters;
#[cfg(test)]
mod tests;
mod tie_rule;

pub use candidate::{Candidate, MAX_PORTS, NO_PORT, that_count};
pub use laws::{pile_is_lawful, plain_rules_agree_on_one};
pub use lowest_port::LowestPort;
pub use oldest_head::OldestHead;
pub use rotating::Rotating;
pub use sheltering::Sheltering;
pub use tie_rule::TieRule;
