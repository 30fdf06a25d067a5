//! What a state of a sweep is worth.
ghost use Rattle.std.specs.Prelude.{ℕ, ◌≡◌, IfOk, OnOk, OnErr};

use crate::errors::CountError;

/// What a state is worth: in a count how many ways there are to it, in a search for the least cost the least of them.
pub trait Worth: Drop {
    /// What a state is worth that has come up twice, by what it was worth each time.
    ghost joined: { Self → Self → Self };

    /// How many limbs of eight bytes each a worth takes memory for, beside itself.
    ghost limbs_of: { Self → ℕ };

    /// Joins what the state was worth another time to this. Without memory for it, nothing changes.
    fn join(&mut self, other: &Self) -> Result<(), CountError>
        ensures joined { OnOk result (self.new ≡ joined self.old other.now) }
        ensures unchanged { OnErr result (self.new ≡ self.old) };

    /// The same once more.
    fn copy_worth(&self) -> Result<Self, CountError>
        ensures { IfOk result (λ worth. worth ≡ self.now) };

    /// How many limbs of eight bytes each it takes memory for, beside itself.
    fn limbs(&self) -> usize
        ensures { result ≡ limbs_of self.now };
}
