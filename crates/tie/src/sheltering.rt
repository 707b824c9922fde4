// sheltering.rt — a layer over any tie rule: a sheltered port is picked only where every marked port is sheltered.
ghost use Rattle.std.specs.Prelude.{◌≡◌, false, replicate};
ghost use Rattle.tie.specs.Sheltered.{layered, Spares, told_below, shelter_answer, shelter_after};
ghost use Rattle.tie.specs.Layers.{layered_lawful};

use crate::candidate::{Candidate, MAX_PORTS, that_count};
use crate::shelters::Shelters;
use crate::tie_rule::TieRule;
use refusal::Refusal;

// A yes or no for each port, over a rule below. It is a rule again, with the letter of the rule below, so that layers can
// be piled.
#[derive(PartialEq, Eq, Debug, Drop)]
pub struct Sheltering<R> {
    shelters: Shelters,
    rule: R,
}

impl<R> Sheltering<R> {
    // A layer over this rule; no port is sheltered yet.
    pub fn new(rule: R) -> Self
        ensures value { result ≡ record { shelters = record { sheltered = replicate 256 false }; rule = rule } }
    {
        Sheltering {
            shelters: Shelters::new(),
            rule,
        }
    }

    // Shelters the port, or no longer. A port above 255 is refused.
    pub fn shelter(&mut self, port: usize, yes: bool) -> Result<(), Refusal>
        ensures answer { result ≡ shelter_answer port }
        ensures after { self.new ≡ shelter_after self.old port yes }
    {
        if port >= MAX_PORTS {
            return Err(Refusal::ShelterPort);
        }
        self.shelters.set(port, yes);
        Ok(())
    }
}

impl<R: TieRule> TieRule for Sheltering<R> {
    const LETTER: u8 = R::LETTER;

    ghost LETTER = { R.TieRule.LETTER };

    ghost picks = { layered R.TieRule.picks };

    ghost after = { told_below R.TieRule.after };

    ghost lawful = { layered_lawful R.TieRule.picks R.TieRule.lawful };

    // Put in line where it is called: as a function of its own it would clear its table on entry, before it is filled.
    #[inline]
    fn pick(&self, candidates: &[Candidate]) -> usize
        ensures value { result ≡ layered R.TieRule.picks self.now candidates.now }
        ensures law { Spares self.now.shelters.sheltered candidates.now result }
    {
        let mut below = [Candidate::new(false, 0); MAX_PORTS];
        self.shelters.hand_down(candidates, &mut below);
        self.rule.pick(&below[..that_count(candidates).len()])
    }

    fn told(&mut self, port: usize) {
        self.rule.told(port);
    }
}
