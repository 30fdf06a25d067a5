//! Moves on the lists of options, and what a keeper of the lists is asked for. `xc_dance` has two keepers.
//!
//! ```text
//! fn cover<D: Dance>(dance: &mut D, i: u32) {
//!     let cover = Move::Cover(i);
//!     if dance.can(&cover) {
//!         dance.apply(cover).unwrap();
//!         let options = dance.len(i);
//!         dance.undo();
//!     }
//! }
//! ```
#![tactic(auto)]

mod dance;
pub mod laws;
mod listed;
mod places;
mod room;

pub use dance::{Count, Dance, Full, Move};
pub use listed::{Listed, list_of};
pub use room::most_moves;
