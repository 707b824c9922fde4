// damage.rt — what is wrong with a trace.
ghost use Rattle.std.specs.Prelude.{◌≡◌};

use refusal::Refusal;
use thiserror::Error;

// The first line of a trace that is refused. Its fields are answered by a method each, so that nobody else can make one.
#[derive(Clone, Copy, PartialEq, Eq, Debug, Error)]
#[error("line {line}: {refusal}")]
pub struct Damage {
    pub(crate) line: usize,
    pub(crate) refusal: Refusal,
}

impl Damage {
    // The number of the line, counted from 1.
    pub fn line(&self) -> usize
        ensures { result ≡ self.now.line }
    {
        self.line
    }

    pub fn refusal(&self) -> Refusal
        ensures { result ≡ self.now.refusal }
    {
        self.refusal
    }
}
