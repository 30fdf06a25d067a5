//! Signed whole numbers as a text: one for each of some things in order, such as the weights of items or the costs of
//! options.
//!
//! ```text
//! let mut source = SliceSource::new(b"| of items\n1 -1\n0\n");
//! let weights = read_numbers(alloc, &mut source)?;
//! ```
#![tactic(auto)]

mod fault;
mod read;
mod words;

pub use fault::NumbersError;
pub use read::read_numbers;
