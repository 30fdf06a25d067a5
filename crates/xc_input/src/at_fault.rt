//! A token that is at fault.

use crate::FaultKind;

/// A token that is at fault. Its line is `before`, `token` and `behind`, one after another: the token alone would not
/// show its place, since the same bytes may be in a line twice.
#[derive(Clone, Copy, Debug, PartialEq, Eq)]
pub struct FaultyToken<'a> {
    /// What is before the token, so that the token's place in the line is this length.
    pub before: &'a [u8],
    /// The token: an item with its bounds, a bar, or a use with its colour.
    pub token: &'a [u8],
    /// What is after it.
    pub behind: &'a [u8],
    /// What is wrong with it.
    pub kind: FaultKind,
}
