//! A run over a span, as it is asked for.

/// What a run over a span is to do. A row is the numbers of a member's branches, from the first level down, or any
/// other numbers; a row that begins another comes before it.
#[derive(Drop)]
pub struct SpanWords {
    /// Solutions are listed, and else counted alone.
    pub listed: bool,
    /// So many steps are taken at most, each a branch that is begun; 0 for no bound.
    pub steps: u64,
    /// The row at which the span begins.
    pub from: Vec<u32>,
    /// The row before which it ends; the empty row for the listing's end.
    pub until: Vec<u32>,
}
