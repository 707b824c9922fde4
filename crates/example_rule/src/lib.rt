// example_rule — a tie rule written outside the crate `tie`, as docs/TIE-RULES.md shows: the highest marked port loses.
#![tactic(auto)]

ghost use Rattle.std.specs.Prelude.{◌≡◌};
ghost use Rattle.example_rule.specs.Highest.{highest, from_the_top};
ghost use Rattle.tie.specs.Rules.{least_marked};
ghost use Rattle.tie.specs.Picking.{picked_lawful};

use tie::{Candidate, NO_PORT, TieRule, that_count};

#[cfg(test)]
mod tests;

// The rule with the letter H. It has no state.
#[derive(Clone, Copy, PartialEq, Eq, Debug)]
pub struct HighestPort;

impl TieRule for HighestPort {
    const LETTER: u8 = b'H';

    ghost LETTER = { 72 };

    ghost picks = { highest };

    ghost after = { λ rule _. rule };

    ghost lawful = { picked_lawful (λ rule cs. from_the_top) };

    fn pick(&self, candidates: &[Candidate]) -> usize {
        highest_marked(candidates).unwrap_or(NO_PORT)
    }

    fn told(&mut self, _port: usize) {}
}

// The highest of the marked candidates that count.
fn highest_marked(candidates: &[Candidate]) -> Option<usize>
    ensures { result ≡ least_marked from_the_top candidates.now }
{
    that_count(candidates)
        .iter()
        .rposition(Candidate::is_marked)
}
