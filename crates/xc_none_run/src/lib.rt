//! A whole run that judges what shows that a problem has no cover.
//!
//! ```text
//! let mut problem = named_file(&rt, &words[1..]);
//! let mut file = named_file(&rt, &words[2..]);
//! let mut out = Outgoing::new(rt.alloc(), rt.stdout())?;
//! let mut err = Direct::new(rt.stderr());
//! let seed = random_seed(&rt);
//! let status = show_none(rt.alloc(), seed, &words, &mut problem, &mut file, &mut out, &mut err);
//! ```
#![tactic(auto)]

mod asked;
mod proving;
mod running;
mod telling;
mod weighing;

pub use asked::are_right;
pub use running::show_none;
