//! Exact covers of at most 64 items by at most 64 options, and sets of options that hold items within bounds, counted
//! by words of bits.
//!
//! ```text
//! let mut budget = 2000;
//! let covers = count_left(&words, 0b111, 0b11, u64::MAX, &mut budget);
//! ```
#![tactic(auto)]

mod bounded;
mod counting;
mod words;

pub use bounded::{BoundedWords, count_bounded};
pub use counting::count_left;
pub use words::{MOST, Words};
