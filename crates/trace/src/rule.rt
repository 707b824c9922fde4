// rule.rt — the tie rules that a trace can ask for.
ghost use Rattle.std.specs.Prelude.{◌≡◌};
ghost use Rattle.trace.specs.Rule.{letter_of};

use std::fmt;

#[derive(Clone, Copy, PartialEq, Eq, Debug)]
pub enum Rule {
    LowestPort,
    Rotating,
    OldestHead,
}

impl Rule {
    // The letter that opens a trace for this rule.
    pub fn letter(&self) -> u8
        ensures { result ≡ letter_of self.now }
    {
        match self {
            Rule::LowestPort => b'L',
            Rule::Rotating => b'R',
            Rule::OldestHead => b'O',
        }
    }
}

// The rule in words, for a person.
impl fmt::Display for Rule {
    fn fmt<W: fmt::Write>(&self, f: &mut fmt::Formatter<W>) -> fmt::Result {
        f.write_str(match self {
            Rule::LowestPort => "lowest port",
            Rule::Rotating => "rotating",
            Rule::OldestHead => "oldest head",
        })
    }
}
