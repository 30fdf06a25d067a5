//! What option lines are read by.

ghost use Rattle.std.specs.Prelude.{◌≡◌, ◌≤◌, [], false, IfOk, length};
ghost use Rattle.xc_input.specs.Limits.{most_items};
ghost use Rattle.xc_input.specs.inner.Builders.{AreNames, AreMarks, AreTables};
ghost use Rattle.xc_input.specs.inner.Stored.{key_names};
ghost use Rattle.indexmap.specs.IndexSet.{hasher_of};

use crate::names::{NameSet, no_names};
use crate::stage::{ColourGuesses, Guesses, Tables};
use std::alloc::{AllocError, Global};
use xc_text::Seed;

/// Room for so many uses is taken at once, 128 KB: from that size on the C library lets the system move what grows, by
/// pages, so that no use is copied. What isn't touched of it takes no memory.
const FIRST_USES: usize = 16384;

impl Tables {
    /// Those of no items.
    pub fn none(alloc: Global, seed: Seed) -> Tables
        ensures sound { AreTables result }
        ensures names { result.names.keys ≡ [] }
        ensures seed { hasher_of result.names ≡ seed }
        ensures primary { result.primary ≡ 0 }
        ensures colours { result.colours.keys ≡ [] }
        ensures colour_seed { hasher_of result.colours ≡ seed }
        ensures uses { result.uses.items ≡ [] }
    {
        Tables {
            names: no_names(alloc, seed),
            guesses: Guesses::none(alloc),
            primary: 0,
            marks: Vec::new(alloc),
            colours: no_names(alloc, seed),
            colour_guesses: ColourGuesses::none(alloc),
            uses: Vec::new(alloc),
        }
    }

    /// Those of these items before any option.
    pub fn new(alloc: Global, names: NameSet, primary: u32) -> Result<Tables, AllocError>
        requires few { length names.keys ≤ most_items }
        requires named { AreNames (key_names names.keys) }
        ensures sound { IfOk result (λ t. AreTables t) }
        ensures names { IfOk result (λ t. t.names ≡ names) }
        ensures primary { IfOk result (λ t. t.primary ≡ primary) }
        ensures colours { IfOk result (λ t. t.colours.keys ≡ []) }
        ensures colour_seed { IfOk result (λ t. hasher_of t.colours ≡ hasher_of names) }
        ensures uses { IfOk result (λ t. t.uses.items ≡ []) }
    {
        let guesses = Guesses::new(alloc, &names)?;
        let colour_guesses = ColourGuesses::new(alloc)?;
        let marks = no_marks(alloc, names.len())?;
        let colours = no_names(alloc, *names.hasher());
        let uses = Vec::with_capacity(alloc, FIRST_USES)?;
        Ok(Tables {
            names,
            guesses,
            primary,
            marks,
            colours,
            colour_guesses,
            uses,
        })
    }
}

/// So many items, none of them marked.
pub fn no_marks(alloc: Global, count: usize) -> Result<Vec<bool>, AllocError>
    ensures count { IfOk result (λ v. length v.items ≡ count) }
    ensures unmarked { IfOk result (λ v. AreMarks v.items []) }
{
    vec![in alloc; false; count]
}
