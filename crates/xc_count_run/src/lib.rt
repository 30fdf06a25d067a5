//! A whole run that counts the covers of a problem.
//!
//! ```text
//! let mut input = Incoming::new(Some(rt.stdin()));
//! let mut out = Outgoing::new(rt.alloc(), rt.stdout())?;
//! let mut err = Direct::new(rt.stderr());
//! let seed = random_seed(&rt);
//! let status = count_covers_by(rt.alloc(), seed, &words(&rt)?, &mut input, &mut out, &mut err);
//! ```
#![tactic(auto)]

mod messages;
mod occurring;
mod running;
mod solution;

pub use running::{count_covers, count_covers_by};
