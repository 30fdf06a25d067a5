//! From which place a line came.

use xc_text::{Feed, SliceSource, Source};

/// A line of a file.
#[derive(Clone, Copy)]
pub struct Place {
    /// The file's number, from 0, among those that are named.
    pub file: usize,
    /// The line in it, from 1.
    pub line: u64,
}

/// A source that knows from which place a line came.
pub trait Located: Source {
    /// The place of the line with this number, from 1, among all lines that were read, or of the end of the
    /// file that has the line `begun`, where that is another file.
    fn place(&self, begun: u64, line: u64) -> Place;

    /// The number, from 0, of the file that is read, or that could not be opened.
    fn reading(&self) -> usize;
}

/// A text in memory is one place.
impl<'a> Located for Feed<'a> {
    fn place(&self, _begun: u64, line: u64) -> Place {
        Place { file: 0, line }
    }

    fn reading(&self) -> usize {
        0
    }
}

/// A text in memory is one place.
impl<'a> Located for SliceSource<'a> {
    fn place(&self, _begun: u64, line: u64) -> Place {
        Place { file: 0, line }
    }

    fn reading(&self) -> usize {
        0
    }
}
