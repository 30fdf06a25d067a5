//! What was read.

use crate::problem::Problem;

/// A problem, and the numbers of the lines that were ignored.
#[derive(Debug, Drop)]
pub struct Read {
    pub problem: Problem,
    pub ignored: Vec<u64>,
}
