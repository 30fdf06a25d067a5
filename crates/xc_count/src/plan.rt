//! What a sweep goes by: an order of the primary items, ranks of all items, and which options hold each.

/// The rank of each item, from 0, and the item of each rank.
#[derive(Drop)]
pub struct Ranking {
    pub ranks: Vec<u32>,
    pub items: Vec<u32>,
}

/// What a sweep goes by.
#[derive(Drop)]
pub struct Plan {
    /// The primary items in the order in which the sweep holds them.
    pub order: Vec<u32>,
    /// The place of each item in the order.
    pub places: Vec<u32>,
    /// The options that hold each item.
    pub holders: Vec<Vec<u32>>,
    pub ranking: Ranking,
    /// For each place of the order, the rank from which on keys have marks once the item there is held.
    pub windows: Vec<usize>,
    /// How many bytes it counts for.
    pub bytes: usize,
}

/// One step of a sweep: the place in the order of the item that it holds, and from which ranks on the keys before and
/// after it have marks.
#[derive(Clone, Copy)]
pub struct Step {
    pub place: usize,
    pub from: usize,
    pub next: usize,
}
