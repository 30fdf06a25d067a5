//! What a cell has instead of a colour or an item.

/// The colour of a marked node.
pub(crate) const MARK: u32 = 0xffff_ffff;

/// The least TOP of a spacer: this and its number. TOP of every other node is below it.
pub(crate) const SPACER: u32 = 0x8000_0000;
