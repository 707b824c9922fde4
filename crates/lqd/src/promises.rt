// promises.rt — what is promised of every switch with Longest Queue Drop, under any tie rule in any state: the contract of
// each function is the promise that it is named after.
ghost use Rattle.lqd.specs.Promises.{NeverHalfAsGood, NeverHalfAsGoodWithHeld, HeldCountsOnce, BestWhenArrivalsComeFirst, NotAlwaysBest, LosesOnlyWhenFull, IsItselfAdmissible, CountsAddUp, TakesEveryList, PlacesStayApart, OnlyPlacesAreFree};

use tie::TieRule;

// At every point of every list of events, no admissible schedule in the same memory has sent more than twice what the
// switch has sent.
pub fn never_half_as_good<R: TieRule>(_rule: &R)
    ensures { NeverHalfAsGood R.TieRule }
{}

// Nor is what it has sent and still holds more than twice what the switch has sent and still holds; in fact no more than
// twice what the switch has sent, and once what it holds.
pub fn never_half_as_good_with_held<R: TieRule>(_rule: &R)
    ensures twice { NeverHalfAsGoodWithHeld R.TieRule }
    ensures once { HeldCountsOnce R.TieRule }
{}

// As long as no arrival comes after the first tick, it has sent no more than the switch.
pub fn best_when_arrivals_come_first<R: TieRule>(_rule: &R)
    ensures { BestWhenArrivalsComeFirst R.TieRule }
{}

// Once arrivals come after ticks, the switch need not be best: under every tie rule, some admissible schedule of some
// events sends more.
pub fn not_always_best<R: TieRule>(_rule: &R)
    ensures { NotAlwaysBest R.TieRule }
{}

// A cell is lost only in an arrival that finds every cell of the memory held; after it the losing queue holds at least
// the whole quotient of cells by ports, no queue is more than one cell longer, and it still holds the front of what it
// held.
pub fn loses_only_when_full<R: TieRule>(_rule: &R)
    ensures { LosesOnlyWhenFull R.TieRule }
{}

// What the switch does with its counts is itself an admissible schedule, in its own memory and in any larger one.
pub fn is_itself_admissible<R: TieRule>(_rule: &R)
    ensures { IsItselfAdmissible R.TieRule }
{}

// For each port, offered is the number of its arrivals, lost that of its losses, and offered = sent + lost + held. The
// period is the number of ticks.
pub fn counts_add_up<R: TieRule>(_rule: &R)
    ensures { CountsAddUp R.TieRule }
{}

// Every list of events for the switch's ports is taken: a cell that is kept always finds a place.
pub fn takes_every_list<R: TieRule>(_rule: &R)
    ensures { TakesEveryList R.TieRule }
{}

// Every held cell has a place of its own among those of the memory.
pub fn places_stay_apart<R: TieRule>(_rule: &R)
    ensures { PlacesStayApart R.TieRule }
{}

// The events decide everything but the places: two runs through the same events come to the same switch but for them,
// and have lost the same cells.
pub fn only_places_are_free<R: TieRule>(_rule: &R)
    ensures { OnlyPlacesAreFree R.TieRule }
{}
