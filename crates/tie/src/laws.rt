// laws.rt — what holds of rules together: the contract of each function is the law that it is named after.
ghost use Rattle.tie.specs.Rules.{Lawful, AgreeOnOne};
ghost use Rattle.tie.specs.Sheltered.{layered};

use crate::tie_rule::TieRule;

// A pile of two layers of sheltering over any rule keeps the law of picks.
pub fn pile_is_lawful<R: TieRule>(_rule: &R)
    ensures { Lawful (layered (layered R.TieRule.picks)) }
{}

// Where just one port is marked, the three plain rules pick it, whatever their state.
pub fn plain_rules_agree_on_one()
    ensures { AgreeOnOne }
{}
