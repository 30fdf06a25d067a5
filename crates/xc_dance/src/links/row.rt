//! One node before it is in the table.

/// What is in the cells of a node.
#[derive(Clone, Copy, Drop)]
pub(crate) struct Row {
    pub(crate) top: u32,
    pub(crate) ulink: u32,
    pub(crate) dlink: u32,
    pub(crate) color: u32,
}
