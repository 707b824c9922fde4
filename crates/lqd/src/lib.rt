// lqd — what Longest Queue Drop is, what any schedule may do, and the laws between them.
#![tactic(auto)]

mod examples;
mod promises;

pub use examples::worked_runs;
pub use promises::{
    best_when_arrivals_come_first, counts_add_up, is_itself_admissible, loses_only_when_full,
    never_half_as_good, never_half_as_good_with_held, not_always_best, only_places_are_free,
    places_stay_apart, takes_every_list,
};
