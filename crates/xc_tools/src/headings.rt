//! What a heading and a record tell.

/// What the words of a heading mean.
#[derive(Clone, Copy)]
pub(crate) struct Heading<'a> {
    pub row: &'a [u8],
    pub digest: &'a [u8],
}

/// How many solutions a record tells, and of which problem.
#[derive(Clone, Copy)]
pub(crate) struct Counts<'a> {
    pub solutions: u64,
    pub digest: &'a [u8],
}

/// What the words of a record mean.
#[derive(Clone, Copy)]
pub(crate) struct Record<'a> {
    pub from: &'a [u8],
    pub until: &'a [u8],
    pub solutions: u64,
    pub digest: &'a [u8],
}
