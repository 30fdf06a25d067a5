//! For which problems what is left is counted by words, without a move.
use crate::few::{Few, are_colours_few};
use std::alloc::{AllocError, Global};
use xc_input::Problem;
use xc_moves::Dance;

/// A place where what is left is counted by words, where that may be: not where items have so many colours that the
/// words for them would take much memory.
pub fn place_for_few<D: Dance>(
    alloc: Global,
    dance: &D,
    problem: &Problem,
) -> Result<Vec<Few>, AllocError> {
    let mut few = Vec::with_capacity(alloc, 1)?;
    if dance.counts_unmoved() && are_colours_few(problem) {
        few.push_reserved(Few::new(alloc, problem)?);
    }
    Ok(few)
}
