//! How many covers a problem has, and how many each of its options is in, found without making each.
#![tactic(auto)]

mod backward;
mod beside;
mod branches;
mod by_option;
mod by_states;
mod counted;
mod counting;
mod errors;
mod finding;
mod forward;
mod holders;
mod holding;
mod kept;
mod keys;
mod layer;
mod left;
mod lone;
mod marks;
mod members;
mod metered;
mod narrow;
mod occurring;
mod options;
mod order;
mod passing;
mod plan;
mod planning;
mod ranking;
mod rival;
mod states;
mod sweeping;
mod taken;
mod times;
mod worth;

pub use counting::{Counting, count, count_by_turns, one_number_of_covers};
pub use finding::{Finding, nth, nth_by_turns};
pub use lone::LoneSearch;
pub use occurring::{count_each, each_by_search, each_by_turns, occurrences};
