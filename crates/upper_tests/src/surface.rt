//! The public surface that callers were promised: a source, a sink and a keeper of a caller's own by the promised methods
//! alone, and each promised call by its signature. What stops compiling here stops callers, so this module changes only
//! if the promise does (`CONTRIBUTING.md`).
mod dances;
mod listings;
mod own;
mod reading;
mod runs;
mod searching;
