//! What the lines of a problem write: items, tokens, uses.

use crate::names::NameSet;
use crate::problem::Item;

/// The items of a line, and how many are before its bar.
#[derive(Drop)]
pub struct ItemLine {
    pub names: NameSet,
    pub items: Vec<Item>,
    pub bar: Option<u32>,
}

/// A token of an option line, cut at its first colon: its name, the place of the name if it has one,
/// and the colour after the colon if there is one.
#[derive(Clone, Copy)]
pub struct Token<'a> {
    pub name: &'a [u8],
    pub place: Option<usize>,
    pub colour: Option<&'a [u8]>,
}

/// A use as the line writes it: its item, and its colour, empty for none.
#[derive(Clone, Copy)]
pub struct WrittenUse<'a> {
    pub item: u32,
    pub colour: &'a [u8],
}
