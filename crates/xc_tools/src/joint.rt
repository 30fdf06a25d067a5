//! What a run that joins spans knows behind some lines.

use xc_list::TextDigest;
use xc_text::Given;

/// The row of an open solution beside the one before it.
#[derive(Drop)]
pub(crate) struct Rising {
    /// The row before, as long as the open one may be the same; and then the open one.
    pub row: Vec<u64>,
    /// How many numbers were read that are the same; none where the open row is past the one before it.
    pub tied: Option<usize>,
}

/// How far the texts of spans were read.
#[derive(Drop)]
pub(crate) struct Joint {
    /// The texts are listings.
    pub listed: bool,
    /// The digest of the problem, once a text has begun.
    pub digest: Vec<u8>,
    /// The digest of the bytes of the open text up to now.
    pub text: TextDigest,
    /// The row where the last text ended.
    pub met: Vec<u8>,
    /// It ended at the listing's end.
    pub finished: bool,
    /// How many solutions the open text has up to now, if one is open.
    pub found: Option<u64>,
    /// The row of the last of them, or where the text begins.
    pub rising: Rising,
    /// How many solutions there are in all, up to 2^64 - 1.
    pub total: u64,
    /// There are more, which aren't listed.
    pub full: bool,
    /// Where the text after a gap begins.
    pub next: Vec<u8>,
    /// Where a text ends, as numbers.
    pub until: Vec<u64>,
}

/// The lines up to now, and what was made of them.
#[derive(Drop)]
pub(crate) struct Lines {
    pub joint: Joint,
    pub given: Given,
    /// How many there were.
    pub taken: u64,
    /// The one in which the open text begins, or else the last one.
    pub begun: u64,
}
