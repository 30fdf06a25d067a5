//! The layers that a sweep keeps, and the covers below their states.

use crate::counted::CountLayer;
use crate::plan::Step;
use natural::Natural;

/// A layer, and the step from it to the next.
#[derive(Drop)]
pub struct Kept {
    pub layer: CountLayer,
    pub step: Step,
}

/// The layers of a sweep but the last, and the last, in which each item of the order is held.
#[derive(Drop)]
pub struct Swept {
    pub kept: Vec<Kept>,
    pub last: CountLayer,
    pub from: usize,
}

/// The layer that a step leads to, the first rank of which its keys have marks, and the covers below each of its
/// states.
#[derive(Drop)]
pub struct Ahead {
    pub layer: CountLayer,
    pub from: usize,
    pub below: Vec<Natural>,
}
