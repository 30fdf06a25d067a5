//! The search for all covers of a problem, over any dance: Algorithms X, C and M of The Art of
//! Computer Programming, Volume 4B, section 7.2.2.1.
//!
//! ```text
//! let links = Links::for_search(alloc, &problem)?;
//! let mut search = Search::begin(alloc, links, &problem)?;
//! while let Some(choices) = search.next_solution() {
//!     let options = choices.iter().filter_map(|c| c.option);
//! }
//! let links = search.close();
//! ```
#![tactic(auto)]

mod begin;
mod branch_item;
mod choice;
mod counts;
mod few;
pub mod laws;
mod level;
mod levels;
mod marks;
mod next_solution;
mod once;
mod position;
mod ran;
mod rows;
mod search;
mod span;
mod spanning;
mod stack;
mod unmoved;
mod visiting;
mod walk;
mod went;

pub use begin::NoSearch;
pub use branch_item::{branches, choose};
pub use choice::Choice;
pub use marks::{AtMember, Mark, Marks};
pub use once::is_once;
pub use search::{Search, Step};
pub use span::{RowNumber, Span};
pub use walk::{Solution, Walk};
pub use went::{Halt, Went};

// For callers alone: no library here imports by these paths (`scripts/imports`).
pub use xc_moves::most_moves;
