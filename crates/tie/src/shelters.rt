// shelters.rt — a yes or no for each port, and what it makes of the candidates for the rule below.
ghost use Rattle.std.specs.Prelude.{◌≡◌, ◌<◌, false, length, take, replicate, slice_set};
ghost use Rattle.tie.specs.Candidates.{that_count};
ghost use Rattle.tie.specs.Sheltered.{exposes, handed_down};

use crate::candidate::Candidate;

#[derive(PartialEq, Eq, Debug, Drop)]
pub(crate) struct Shelters {
    sheltered: [bool; 256],
}

impl Shelters {
    // No port is sheltered.
    pub(crate) fn new() -> Self
        ensures { result.sheltered ≡ replicate 256 false }
    {
        Shelters {
            sheltered: [false; 256],
        }
    }

    // Shelters the port, or no longer.
    pub(crate) fn set(&mut self, port: usize, yes: bool)
        requires { port < 256 }
        ensures { self.new.sheltered ≡ slice_set self.old.sheltered port yes }
    {
        self.sheltered[port] = yes;
    }

    // Writes the candidates that count as they go to the rule below, at the start of a table of 256: a rule takes no
    // memory, and a list of that length needs some. The table is lent, since one that is answered is copied once more.
    // Written by index, since a proof knows nothing of what was written through an iterator.
    pub(crate) fn hand_down(&self, candidates: &[Candidate], below: &mut [Candidate; 256])
        ensures len { length below.new ≡ 256 }
        ensures value { take (length (that_count candidates.now)) below.new ≡ handed_down self.now.sheltered candidates.now }
    {
        let exposes = self.exposes(candidates);
        for (port, (candidate, sheltered)) in candidates.iter().zip(&self.sheltered).enumerate() {
            below[port] = if exposes && *sheltered {
                candidate.unmarked()
            } else {
                *candidate
            };
        }
    }

    // Whether a marked candidate that counts is not sheltered.
    fn exposes(&self, candidates: &[Candidate]) -> bool
        ensures { result ≡ exposes self.now.sheltered candidates.now }
    {
        let mut ports = candidates.iter().zip(&self.sheltered);
        ports.any(|(candidate, sheltered)| candidate.is_marked() && !*sheltered)
    }
}
