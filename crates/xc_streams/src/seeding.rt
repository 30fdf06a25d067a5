//! The seed of a run: random bytes of the system, so that names can't be chosen to collide; without them the fixed
//! seed, with no message. No contract depends on it.
ghost use Rattle.std.specs.Int.{w128, from_le_bytes};
ghost use Rattle.std.specs.Prelude.{◌≡◌, ◌/◌, ◌%◌, ◌^◌, ℕ, List, Option, None, Some, IfSome, MatchResult, bit_or};

use std::io;
use std::random::RandomSource;
use xc_text::Seed;

/// A source of sixteen random bytes.
// In place of `RandomSource`, whose contract doesn't say which bytes a call gives.
pub trait RandomBytes {
    /// What it gives, where that is reported: sixteen bytes or none.
    ghost given: { Self → Option (Option (List ℕ)) };

    /// Fills a buffer with the bytes, and fails if there are none.
    fn fill(&self, bytes: &mut [u8; 16]) -> io::Result<()>
        ensures { IfSome (given self.now) (λ given.
            MatchResult result (λ _. given ≡ Some bytes.new) (λ _. given ≡ None)) };
}

/// The system's, whose bytes contracts don't know.
impl<R: RandomSource> RandomBytes for R {
    ghost given = { λ _. None };

    fn fill(&self, bytes: &mut [u8; 16]) -> io::Result<()> {
        self.fill_bytes(bytes)
    }
}

/// A seed of random bytes. If there are none it is the fixed one, with no message: the seed decides only how
/// long it takes to read names that were chosen to collide.
pub fn random_seed<R: RandomBytes>(rt: &R) -> Seed
    ensures state { (bytes : List ℕ) → R.given rt.now ≡ Some (Some bytes)
        → result.state ≡ from_le_bytes w128 bytes / 2 ^ 64 }
    ensures multiplier { (bytes : List ℕ) → R.given rt.now ≡ Some (Some bytes)
        → result.multiplier ≡ bit_or (from_le_bytes w128 bytes % 2 ^ 64) 1 }
    ensures fixed { R.given rt.now ≡ Some None → result ≡ Seed.FIXED }
{
    let mut bytes = [0; 16];
    match rt.fill(&mut bytes) {
        Ok(()) => Seed::new(u128::from_le_bytes(bytes)),
        Err(_) => Seed::FIXED,
    }
}
