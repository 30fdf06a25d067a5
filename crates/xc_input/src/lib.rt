//! Exact cover problems as text.
//!
//! A problem is read from a source, or line by line by a `Reader`:
//!
//! ```text
//! let mut source = SliceSource::new(b"a b | x\na x\nb x\n");
//! let read = read_problem(alloc, Kind::Plain, &mut source)?;
//! let problem = &read.problem;
//! for option in problem.all_options() {
//!     for u in option {
//!         let item = u.item;
//!     }
//! }
//! ```
#![tactic(auto)]

mod at_fault;
mod builder;
mod colours;
mod fault;
mod faulty;
mod guess;
mod item_line;
mod kind;
pub mod laws;
mod limits;
mod line_error;
mod names;
mod option_line;
mod options;
mod outcome;
mod problem;
mod read;
mod reader;
mod stage;
mod tables;
mod tokens;
mod use_places;
pub mod worked;
mod written;

pub use at_fault::FaultyToken;
pub use fault::{FaultKind, InputError};
pub use faulty::faulty_token;
pub use kind::Kind;
pub use options::Options;
pub use outcome::Read;
pub use problem::{Bounds, Item, Problem, Use};
pub use read::{read_problem, read_problem_by};
pub use reader::Reader;
pub use use_places::place_in;

// For callers alone: no library here imports by these paths (`scripts/imports`).
pub use xc_text::{Feed, Given, LineReader, ReadFailed, Seed, SliceSource, Source, Unread};
