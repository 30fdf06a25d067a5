//! Items and options as bits of words.
ghost use Rattle.std.specs.Prelude.{◌≡◌, replicate};

/// How many items, and how many options, words have bits for.
pub const MOST: usize = 64;

/// Up to 64 items and 64 options, each with a number from 0 to 63, which is its bit as well.
#[derive(Drop)]
pub struct Words {
    /// By item, the options that hold it.
    pub holders: [u64; 64],
    /// By option, its items.
    pub alone: [u64; 64],
    /// By option, those that can't be taken beside it, itself among them.
    pub apart: [u64; 64],
}

impl Words {
    /// Those of no items and no options: each word is 0.
    pub fn new() -> Words
        ensures { result ≡ record { holders = replicate 64 0; alone = replicate 64 0; apart = replicate 64 0 } }
    {
        Words {
            holders: [0; 64],
            alone: [0; 64],
            apart: [0; 64],
        }
    }
}
