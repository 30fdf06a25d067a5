//! The seed of the tables of names, and how it hashes.
//!
//! While the hash was one that everyone knows, the names of an input could be chosen to collide: a megabyte of them
//! took half a minute to read. So a run draws its own seed, as the tables of Rust's std do for the same reason. The
//! hash folds a product of 128 bits onto 64, as wyhash and ahash do. The fixed keys are digits of pi and of the golden
//! ratio. Contracts say by which seed a problem's tables hash, and all else that they say of it holds by each: the seed
//! decides only how long reading takes.

ghost use Rattle.std.specs.Prelude.{◌≡◌, ◌%◌, ◌/◌, ◌^◌, bit_or};
ghost use Rattle.xc_text.specs.Hashing.{folded, taken, hashed};

use std::hash::{BuildHasher, Hasher};

/// The keys of a hash. The names of an input can be chosen to have one hash, so that each look-up
/// goes through all of them, by a writer who knows the keys of the run.
#[derive(Clone, Copy, PartialEq, Eq)]
pub struct Seed {
    state: u64,
    multiplier: u64,
}

impl Seed {
    /// Keys that everyone knows, for inputs that nobody chose to be slow.
    pub const FIXED: Seed = Seed {
        state: 0x243f_6a88_85a3_08d3,
        multiplier: 0x9e37_79b9_7f4a_7c15,
    };

    /// The keys of these bits, which are to be random.
    pub fn new(bits: u128) -> Seed
        ensures state { result.state ≡ bits / 2 ^ 64 }
        ensures multiplier { result.multiplier ≡ bit_or (bits % 2 ^ 64) 1 }
    {
        Seed {
            state: (bits >> 64) as u64,
            multiplier: (bits & 0xffff_ffff_ffff_ffff) as u64 | 1,
        }
    }
}

// In place of std's `RandomState`, which can't have fixed keys.
impl BuildHasher for Seed {
    type Hasher = FoldingHasher;

    ghost build_hasher = { λ seed. record { state = seed.state; multiplier = seed.multiplier } };

    #[inline(always)]
    fn build_hasher(&self) -> FoldingHasher {
        FoldingHasher {
            state: self.state,
            multiplier: self.multiplier,
        }
    }
}

/// Hashes by folded multiplication with a key, as foldhash and wyhash do: what is written is joined
/// to the state by xor, and both halves of the product with the key make the next state: one product
/// for a number of four or eight bytes, as the parts of a use are, else one for each byte.
#[derive(Clone, Copy)]
pub struct FoldingHasher {
    state: u64,
    multiplier: u64,
}

impl FoldingHasher {
    #[inline(always)]
    fn take(&mut self, number: u64)
        ensures { self.new ≡ record self.old { state = taken self.old.multiplier self.old.state number } }
    {
        self.state = folded(self.multiplier, self.state ^ number);
    }
}

impl Hasher for FoldingHasher {
    ghost write = { λ h bytes. record h { state = hashed h.multiplier h.state bytes } };

    ghost finish = { λ h. folded h.multiplier h.state };

    #[inline(always)]
    fn finish(&self) -> u64 {
        folded(self.multiplier, self.state)
    }

    #[inline(always)]
    fn write(&mut self, bytes: &[u8]) {
        match bytes.len() {
            4 => self.take(u64::from(u32::from_le_bytes([bytes[0], bytes[1], bytes[2], bytes[3]]))),
            8 => self.take(u64::from_le_bytes([
                bytes[0], bytes[1], bytes[2], bytes[3], bytes[4], bytes[5], bytes[6], bytes[7],
            ])),
            _ => {
                for byte in bytes {
                    self.take(u64::from(*byte));
                }
            }
        }
    }
}

/// Both halves of a product, joined.
#[inline(always)]
pub fn folded(multiplier: u64, state: u64) -> u64
    ensures { result ≡ folded multiplier state }
{
    let product = u128::from(state) * u128::from(multiplier);
    (product & 0xffff_ffff_ffff_ffff) as u64 ^ (product >> 64) as u64
}
