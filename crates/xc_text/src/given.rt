ghost use Rattle.std.specs.Prelude.{◌≡◌, ◌++◌, [], ◌∷◌};

use crate::noted::Noted;
use std::fmt;
use std::marker::Model;

/// A type whose values contracts see as lists of texts. The program has no value of it.
struct Texts;

impl Model for Texts {
    ghost use Rattle.std.specs.Prelude.{List, ℕ, []};

    ghost Value = { List (List ℕ) };

    ghost view = { λ _. [] };
}

/// The lines, or other pieces of text, so far. The list has no bytes at run time.
/// A source keeps it, so that what is proved of its text also holds where its bytes aren't known before.
/// A clause reads the list as `lines`.
#[derive(Drop)]
pub struct Given {
    noted: Noted<Texts>,
}

impl Model for Given {
    ghost use Rattle.xc_text.specs.Sources.{GivenLines};

    ghost Value = { GivenLines };

    ghost view = { λ a. record { lines = a.noted.value } };
}

impl Given {
    /// None yet.
    pub fn new() -> Given
        ensures { result.lines ≡ [] }
    {
        Given {
            noted: Noted::of(&()),
        }
    }

    /// These and one more.
    #[inline(always)]
    pub fn after(before: &Given, line: &[u8]) -> Given
        ensures { result.lines ≡ before.now.lines ++ line.now ∷ [] }
    {
        Given {
            noted: Noted::of(&(before, line)),
        }
    }
}

impl fmt::Debug for Given {
    fn fmt<W: fmt::Write>(&self, f: &mut fmt::Formatter<W>) -> fmt::Result {
        f.write_str("Given")
    }
}
