//! How many covers a problem has, the one of a number, and how many covers each option is in, found without making
//! each. Numbers are `Natural`, of any size. The last argument is how many bytes the states of a count may take at
//! most; where they would take more, a search counts alone.
//!
//! These two functions are in `examples.rt` of `upper_tests` too, where they are run. How many covers there are, in
//! decimal:
//!
//! ```text
//! fn how_many(alloc: Global, problem: &Problem) -> Result<Vec<u8>> {
//!     let covers = count(alloc, problem, 512_000_000)?;
//!     Ok(covers.to_decimal(alloc)?)
//! }
//! ```
//!
//! The last cover, as numbers of options:
//!
//! ```text
//! fn last_cover(alloc: Global, problem: &Problem) -> Result<Option<Vec<u32>>> {
//!     let covers = count(alloc, problem, 512_000_000)?;
//!     let Some(choices) = nth(alloc, problem, &covers, 512_000_000)? else {
//!         return Ok(None);
//!     };
//!     Ok(Some(choices.iter().filter_map(|c| c.option).collect(alloc)?))
//! }
//! ```

pub use natural::Natural;
pub use xc_count::{count, count_each, nth, occurrences};
