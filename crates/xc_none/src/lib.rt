//! Problems without a solution, judged: clauses that each cover of a problem makes true, and whether a proof refutes
//! them; and whether weights of items do.
//!
//! ```text
//! let formula = clauses(alloc, &problem)?;
//! write_cnf(&mut sink, &problem, &formula)?;
//! // a SAT engine that finds no values for the variables writes a proof, which is judged here
//! if has_no_cover(alloc, &problem, &mut proof)? == Answer::Refuted {
//!     // the problem has no cover
//! }
//! if is_refuted(&problem, weights.as_slice()) {
//!     // nor has this one
//! }
//! ```
#![tactic(auto)]

mod chain;
mod claim;
mod cnf;
mod coloured;
mod errors;
mod formula;
mod holders;
mod item_clauses;
mod meaning;
mod no_cover;
mod table;
mod weights;

pub use cnf::write_cnf;
pub use errors::{ClausesError, NoneError};
pub use formula::{Formula, clauses};
pub use meaning::Meaning;
pub use no_cover::has_no_cover;
pub use weights::is_refuted;
