//! A line of a listing, as the checker reads and notes it.

/// What a line is: a header with its number, a choice line with its body, or neither.
#[derive(Clone, Copy)]
pub enum ListingLine<'a> {
    Header(u64),
    Body(&'a [u8]),
    Other,
}

/// A choice line, and the class that its body stands for; none in a place that is free.
#[derive(Drop)]
pub struct SeenLine {
    pub line: Vec<u8>,
    pub class: Option<usize>,
}
