// candidate.rt — what a tie rule is told of one port.
ghost use Rattle.std.specs.Prelude.{◌≡◌, false};
ghost use Rattle.tie.specs.Candidates.{that_count};

// The most ports that a switch has, and so the most candidates that count.
pub const MAX_PORTS: usize = 256;

// The pick where no port is marked. What a rule means is defined over numbers, 256 for none, and a pick answers that.
pub const NO_PORT: usize = 256;

// A port as a tie rule sees it: marked or not, and the stamp of the cell at the head of its queue, which is there in
// either case.
#[derive(Clone, Copy, PartialEq, Eq, Debug)]
pub struct Candidate {
    marked: bool,
    stamp: u32,
}

impl Candidate {
    // A candidate that is marked or not, with this stamp.
    pub fn new(marked: bool, stamp: u32) -> Self
        ensures value { result ≡ record { marked = marked; stamp = stamp } }
    {
        Candidate { marked, stamp }
    }

    // Whether the port may be picked.
    pub fn is_marked(&self) -> bool
        ensures value { result ≡ self.now.marked }
    {
        self.marked
    }

    // The stamp of the port's head cell: the smaller, the older.
    pub fn stamp(&self) -> u32
        ensures value { result ≡ self.now.stamp }
    {
        self.stamp
    }

    // The same candidate, not marked.
    pub(crate) fn unmarked(&self) -> Self
        ensures { result ≡ record { marked = false; stamp = self.now.stamp } }
    {
        Candidate {
            marked: false,
            ..*self
        }
    }
}

// The candidates that count: the first 256.
#[tactic(auto, using(crate::proofs::Searching::counted_front))]
pub fn that_count(candidates: &[Candidate]) -> &[Candidate]
    ensures value { result.now ≡ that_count candidates.now }
{
    &candidates[..candidates.len().min(MAX_PORTS)]
}
