// oldest_head.rt — the rule by which the marked port with the oldest head cell loses.
ghost use Rattle.std.specs.Prelude.{◌≡◌};
ghost use Rattle.tie.specs.Candidates.{stamp_of};
ghost use Rattle.tie.specs.Rules.{least_marked, Chosen, oldest};
ghost use Rattle.tie.specs.Picking.{oldest_lawful};

use crate::candidate::{Candidate, NO_PORT, that_count};
use crate::tie_rule::TieRule;

// The rule with the letter O: the smallest stamp, the lower port among equals. It has no state, and what it is told moves
// nothing.
#[derive(Clone, Copy, PartialEq, Eq, Debug)]
pub struct OldestHead;

impl TieRule for OldestHead {
    const LETTER: u8 = b'O';

    ghost LETTER = { 79 };

    ghost picks = { oldest };

    ghost after = { λ rule _. rule };

    ghost lawful = { oldest_lawful };

    #[tactic(auto, using(crate::proofs::Searching::chosen_by))]
    fn pick(&self, candidates: &[Candidate]) -> usize
        ensures value { result ≡ oldest self.now candidates.now }
        ensures law { Chosen (stamp_of candidates.now) candidates.now result }
    {
        oldest_marked(candidates).unwrap_or(NO_PORT)
    }

    fn told(&mut self, _port: usize) {}
}

// The first of the marked candidates that count with the smallest stamp.
fn oldest_marked(candidates: &[Candidate]) -> Option<usize>
    ensures { result ≡ least_marked (stamp_of candidates.now) candidates.now }
{
    let mut best: Option<(usize, u32)> = None;
    for (port, candidate) in that_count(candidates).iter().enumerate() {
        if !candidate.is_marked() {
            continue;
        }
        let stamp = candidate.stamp();
        if best.is_none_or(|(_, oldest)| stamp < oldest) {
            best = Some((port, stamp));
        }
    }
    best.map(|(port, _)| port)
}
