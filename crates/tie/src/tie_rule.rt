// tie_rule.rt — what a tie rule is: the four facts that every rule shows.
ghost use Rattle.std.specs.Prelude.{◌≡◌, ℕ, List};
ghost use Rattle.tie.specs.declared.candidate.Candidate.{Candidate};
ghost use Rattle.tie.specs.Rules.{Lawful};

use crate::candidate::Candidate;

// Which of the marked ports loses a cell. The rule's state is its value, and any value is a state.
// Four facts: `pick` answers what `picks` says, which keeps the law (a marked port if one of the first 256 candidates is
// marked, and 256 otherwise); `pick` alters nothing, since it is only lent the rule; `told` makes of the state what
// `after` says; and the rule has one letter. No call refuses, whatever it is handed.
pub trait TieRule {
    // The letter that stands for the rule in a report, as the octet that is written.
    const LETTER: u8;

    // The same letter, where a clause can name it.
    ghost LETTER: { ℕ };

    // The port that is picked in a state from these candidates.
    ghost picks: { Self → List Candidate → ℕ };

    // The state after the rule is told of a port.
    ghost after: { Self → ℕ → Self };

    // Picks the port that loses its tail cell; 256 where none is marked.
    fn pick(&self, candidates: &[Candidate]) -> usize
        ensures value { result ≡ picks self.now candidates.now };

    // Tells the rule which port has lost a cell. It has no body here: whether a rule moves is for the rule to say.
    fn told(&mut self, port: usize)
        ensures after { self.new ≡ after self.old port };

    // Answers the letter, for a caller that has a contract to meet about it.
    final fn report_letter() -> u8
        ensures value { result ≡ LETTER }
    {
        Self::LETTER
    }

    // A marked port if one is marked, and 256 otherwise: in every state, from every list.
    ghost lawful: { Lawful picks };
}
