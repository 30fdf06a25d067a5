//! Listings of exact cover problems judged: whether each listed solution is a cover, by the problem alone.
//!
//! ```text
//! for verdict in check(alloc, &problem, listing)? {
//!     let right = verdict.cover;
//! }
//! ```
#![tactic(auto)]

mod checker;
mod cover_test;
mod judged_line;
pub mod laws;
mod verdict;

pub use checker::{branch_number, check};
pub use cover_test::is_cover;
pub use verdict::{ListingFault, Verdict};
