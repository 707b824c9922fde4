// examples.rt — runs that were worked out by hand, as one claim over the definitions.
ghost use Rattle.lqd.specs.WorkedRuns.{WorkedRuns};

use tie::{LowestPort, OldestHead, Rotating, Sheltering, TieRule};

// Small runs under each tie rule lose, hold and send what was worked out by hand.
pub fn worked_runs()
    ensures { WorkedRuns ⟦<LowestPort as TieRule>⟧ ⟦<Rotating as TieRule>⟧ ⟦<OldestHead as TieRule>⟧ ⟦<Sheltering<LowestPort> as TieRule>⟧ }
{}
