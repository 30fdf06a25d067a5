//! A cell that counts its own writes. Its fields are seen in this file alone, so no other code of the crate can write
//! one without counting it.
ghost use Rattle.std.specs.Prelude.{◌≡◌, ◌+◌, ◌==◌};
ghost use Rattle.std.proofs.Common.{rules};
ghost use Rattle.std.specs.Cmp.Rules.{comparing};

use xc_text::Tally;

/// One cell of a table. Only `write` changes it, and nothing copies it.
#[derive(Drop)]
pub(super) struct Cell {
    value: u32,
    written: Tally,
}

/// Cells are equal where their numbers are.
impl PartialEq for Cell {
    ghost eq = { λ a b. a.value == b.value };

    ghost laws = { Prim.search (comparing, rules) };

    fn eq(&self, other: &Cell) -> bool {
        self.value == other.value
    }
}

impl Cell {
    /// A new cell. At which count it begins is in no contract on purpose: nothing can be proved of the count of tables
    /// that are put in the place of others.
    #[inline(always)]
    pub(super) fn new(value: u32) -> Cell
        ensures { result.value ≡ value }
    {
        Cell {
            value,
            written: Tally::new(),
        }
    }

    /// What is in the cell.
    #[inline(always)]
    pub(super) fn get(&self) -> u32
        ensures { result ≡ self.now.value }
    {
        self.value
    }

    /// Writes the cell and counts the write.
    #[inline(always)]
    pub(super) fn write(&mut self, value: u32)
        ensures value { self.new.value ≡ value }
        ensures counted { self.new.written.count ≡ self.old.written.count + 1 }
    {
        self.value = value;
        self.written = Tally::one_more(&self.written);
    }
}
