//! What is logged of a removal.

/// A number that was taken out of a list, and the place where it was.
#[derive(Clone, Copy)]
pub(super) struct Removed {
    pub(super) place: usize,
    pub(super) list: u32,
    pub(super) number: u32,
}
