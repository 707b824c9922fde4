// lowest_port.rt — the rule by which the lowest marked port loses.
ghost use Rattle.std.specs.Prelude.{◌≡◌};
ghost use Rattle.tie.specs.Rules.{least_marked, Chosen, lowest};
ghost use Rattle.tie.specs.Picking.{lowest_lawful};

use crate::candidate::{Candidate, NO_PORT, that_count};
use crate::tie_rule::TieRule;

// The rule with the letter L. It has no state, and what it is told moves nothing.
#[derive(Clone, Copy, PartialEq, Eq, Debug)]
pub struct LowestPort;

impl TieRule for LowestPort {
    const LETTER: u8 = b'L';

    ghost LETTER = { 76 };

    ghost picks = { lowest };

    ghost after = { λ rule _. rule };

    ghost lawful = { lowest_lawful };

    #[tactic(auto, using(crate::proofs::Searching::chosen_by))]
    fn pick(&self, candidates: &[Candidate]) -> usize
        ensures value { result ≡ lowest self.now candidates.now }
        ensures law { Chosen (λ p. p) candidates.now result }
    {
        lowest_marked(candidates).unwrap_or(NO_PORT)
    }

    fn told(&mut self, _port: usize) {}
}

// The lowest of the marked candidates that count.
fn lowest_marked(candidates: &[Candidate]) -> Option<usize>
    ensures { result ≡ least_marked (λ p. p) candidates.now }
{
    that_count(candidates).iter().position(Candidate::is_marked)
}
