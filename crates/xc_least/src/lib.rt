//! The cover of a problem that costs least, where each option has a cost, and that no cover costs less.
//!
//! Knuth's Algorithms X$ and C$ (The Art of Computer Programming, volume 4B, 7.2.2.1) answer this too. Here an answer
//! doesn't rest on how the search goes: what it cuts is proved to cost too much, by prices of items.
#![tactic(auto)]

mod choice;
mod costing;
mod decided;
mod errors;
mod floor;
mod least_cover;
mod lists;
mod lost;
mod priced;
mod prices;
mod search;
mod steps;

pub use errors::NotLeast;
pub use floor::{do_all_cost, is_least};
pub use least_cover::{Better, least};
