// rotating.rt — the rule by which the next marked port loses, going round from the port after the last loss.
ghost use Rattle.std.specs.Prelude.{◌≡◌, length};
ghost use Rattle.tie.specs.Candidates.{that_count};
ghost use Rattle.tie.specs.Rules.{least_marked, Chosen, distance, GoesRound, nearest, turned};
ghost use Rattle.tie.specs.Picking.{nearest_lawful};

use crate::candidate::{Candidate, MAX_PORTS, NO_PORT, that_count};
use crate::tie_rule::TieRule;

// The rule with the letter R. Told of a port up to 255, it starts at the port after; so the start is at most 256.
#[derive(PartialEq, Eq, Debug, Drop)]
pub struct Rotating {
    start: usize,
}

impl Rotating {
    // A rule that starts at port 0.
    pub fn new() -> Self
        ensures value { result ≡ record { start = 0 } }
    {
        Rotating { start: 0 }
    }

    // The first of the marked candidates that count, going round from the start.
    fn next_marked(&self, candidates: &[Candidate]) -> Option<usize>
        ensures { result ≡ least_marked (distance (length (that_count candidates.now)) self.now.start) candidates.now }
    {
        let candidates = that_count(candidates);
        let n = candidates.len();
        // taken once, and not at each step; there is no remainder where no candidate counts
        let start = self.start.checked_rem(n).unwrap_or(0);
        (0..n)
            .map(|step| (start + step) % n)
            .find(|port| candidates[*port].is_marked())
    }
}

impl TieRule for Rotating {
    const LETTER: u8 = b'R';

    ghost LETTER = { 82 };

    ghost picks = { nearest };

    ghost after = { turned };

    ghost lawful = { nearest_lawful };

    #[tactic(auto, using(crate::proofs::Searching::chosen_by, crate::proofs::Turning::goes_round))]
    fn pick(&self, candidates: &[Candidate]) -> usize
        ensures value { result ≡ nearest self.now candidates.now }
        ensures law { Chosen (distance (length (that_count candidates.now)) self.now.start) candidates.now result }
        ensures round { GoesRound (length (that_count candidates.now)) self.now.start }
    {
        self.next_marked(candidates).unwrap_or(NO_PORT)
    }

    fn told(&mut self, port: usize) {
        if port < MAX_PORTS {
            self.start = port + 1;
        }
    }
}
