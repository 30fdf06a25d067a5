//! The seed by which a call hashes names and colours.
ghost use Rattle.std.specs.Prelude.{◌≡◌, ◌≢◌, ◌*◌, ◌%◌, ◌^◌, ◌/◌, bit_or};

use xc_text::Seed;

/// An odd number of mixed bits in each half.
const MIXED: u128 = 0x9e37_79b9_7f4a_7c15_d1b5_4a32_d192_ed03;

/// The keys of a number, mixed so that small numbers are as good as others; the fixed seed for 0.
// A number, since an export can't draw one: to ask the system for random bytes takes a handle.
pub(crate) fn seed_by_number(number: u64) -> Seed
    ensures fixed { number ≡ 0 → result ≡ Seed.FIXED }
    ensures other { number ≢ 0 → result.state ≡ number * MIXED % 2 ^ 128 / 2 ^ 64 }
    ensures multiplier { number ≢ 0 → result.multiplier ≡ bit_or (number * MIXED % 2 ^ 64) 1 }
{
    if number == 0 {
        return Seed::FIXED;
    }
    Seed::new(u128::from(number).wrapping_mul(MIXED))
}
