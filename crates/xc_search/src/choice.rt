//! A choice of a solution.

/// A level of a solution: branch `k` of the `n` branches of its item.
#[derive(Clone, Copy, Debug, PartialEq, Eq, Hash)]
pub struct Choice {
    /// The branch item, a primary item.
    pub item: u32,
    /// The option that is taken, which holds the item; none in the branch of none.
    pub option: Option<u32>,
    /// From 1 to `n`.
    pub k: u32,
    /// At least 1.
    pub n: u32,
}
