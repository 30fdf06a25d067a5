//! Where things are on a page.

use xc_search::Mark;

/// How many bytes a page has.
pub const ROOM: usize = 4096;

/// Where lines start, after the header.
pub const LINES: usize = 22;

/// How many bytes a short text is copied by, and how many there are after the laid out texts, so that it can be.
pub const PADDING: usize = 16;

/// A line on a page.
#[derive(Clone, Copy)]
pub struct Line {
    /// The mark of its choice.
    pub mark: Mark,
    /// Where it ends.
    pub end: usize,
}

/// Where the text on a page starts, and where it ends.
#[derive(Clone, Copy)]
pub struct Held {
    pub from: usize,
    pub to: usize,
}
