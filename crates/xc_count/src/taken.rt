//! A branch of the listing that is taken.

use xc_search::Choice;

/// A branch that is taken: its choice, and the key of what it leaves.
#[derive(Drop)]
pub struct Taken {
    pub choice: Choice,
    pub key: Vec<u32>,
}
