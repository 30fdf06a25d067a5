//! A problem while it is read.

use crate::names::NameSet;
use crate::problem::{Item, Use};

/// The state after the lines so far.
#[derive(Drop)]
pub struct ProblemBuilder {
    pub started: bool,
    pub items: Vec<Item>,
    pub tables: Tables,
    pub starts: Vec<u32>,
    pub ignored: Vec<u64>,
}

/// What option lines are read by, and the uses so far. A mark for each item says whether the line has it yet.
#[derive(Drop)]
pub struct Tables {
    pub names: NameSet,
    pub guesses: Guesses,
    pub primary: u32,
    pub marks: Vec<bool>,
    pub colours: NameSet,
    pub colour_guesses: ColourGuesses,
    pub uses: Vec<Use>,
}

/// A place of a name for each number of a table, and the number of each short name.
#[derive(Drop)]
pub struct Guesses {
    pub places: Vec<u32>,
    pub words: Vec<u64>,
}

/// A place of a colour for each number of a table.
#[derive(Drop)]
pub struct ColourGuesses {
    pub places: Vec<u32>,
}
