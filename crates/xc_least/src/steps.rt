//! One decision of a search, and the mark of an item.

/// A decision: an option was taken, or left out. `spent` is the surplus of the options taken up to this one, or less.
#[derive(Clone, Copy)]
pub struct Step {
    pub option: u32,
    pub taken: bool,
    pub spent: u64,
}

/// An option that was taken at a step and holds an item. It says something while that step stands.
#[derive(Clone, Copy)]
pub struct Mark {
    pub option: u32,
    pub step: usize,
}
