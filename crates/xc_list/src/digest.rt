//! The digest of a problem, by which the text of a span names it.
ghost use Rattle.std.specs.Prelude.{◌≡◌};
ghost use Rattle.std.specs.Int.{w64, to_be_bytes};
ghost use Rattle.hex.specs.Hex.{encode_lower};
ghost use Rattle.xc_text.specs.Hashing.{taken};
ghost use Rattle.xc_input.specs.ItemBounds.{bounds_of};
ghost use Rattle.xc_input.specs.Named.{IsSound};
ghost use Rattle.xc_list.specs.Digests.{problem_numbers, length_first, digest_after, digest_of};
ghost use Rattle.xc_list.specs.inner.Writing.{bounds_numbers, bytes_numbers, use_number, uses_numbers};
ghost use Rattle.xc_list.specs.inner.Writing.{digest_multiplier, digest_start};

use hex::encode_to_slice;
use xc_input::{Item, Problem, Use};
use xc_text::folded;

/// 2^64 over the golden ratio, as an odd number (Knuth, The Art of Computer Programming 3, section 6.4).
const MULTIPLIER: u64 = 0x9e37_79b9_7f4a_7c15;

/// The first 64 bits of the fraction of pi.
pub const START: u64 = 0x243f_6a88_85a3_08d3;

/// The state after one more number.
#[inline(always)]
pub fn taken(state: u64, number: u64) -> u64
    ensures { result ≡ taken digest_multiplier state number }
{
    folded(MULTIPLIER, state ^ number)
}

/// The state after a name or a colour.
fn after_bytes(state: u64, bytes: &[u8]) -> u64
    ensures { result ≡ digest_after state (bytes_numbers bytes.now) }
{
    let mut reached = taken(state, bytes.len() as u64);
    for byte in bytes {
        reached = taken(reached, u64::from(*byte));
    }
    reached
}

/// The state after the bounds of items.
fn after_bounds(state: u64, items: &[Item]) -> u64
    ensures { result ≡ digest_after state (length_first (λ x. bounds_numbers (bounds_of x)) items.now) }
{
    let mut reached = taken(state, items.len() as u64);
    for item in items {
        reached = taken(taken(reached, u64::from(item.low)), u64::from(item.high));
    }
    reached
}

/// The state after the names of items.
fn after_names(state: u64, items: &[Item]) -> u64
    ensures { result ≡ digest_after state (length_first (λ x. bytes_numbers x.name.items) items.now) }
{
    let mut reached = taken(state, items.len() as u64);
    for item in items {
        reached = after_bytes(reached, &item.name);
    }
    reached
}

/// The state after the colours of a problem.
fn after_colours(state: u64, problem: &Problem) -> u64
    ensures { result ≡ digest_after state (length_first bytes_numbers problem.now.colours) }
{
    let mut reached = taken(state, u64::from(problem.colours()));
    for c in 0..problem.colours() {
        reached = after_bytes(reached, problem.colour(c + 1));
    }
    reached
}

/// A use as one number.
#[inline(always)]
fn use_number(u: Use) -> u64
    ensures { result ≡ use_number u }
{
    u64::from(u.item) + (u64::from(u.colour) << 32)
}

/// The state after an option.
fn after_uses(state: u64, uses: &[Use]) -> u64
    ensures { result ≡ digest_after state (uses_numbers uses.now) }
{
    let mut reached = taken(state, uses.len() as u64);
    for u in uses {
        reached = taken(reached, use_number(*u));
    }
    reached
}

/// The state after the options of a problem.
fn after_options(state: u64, problem: &Problem) -> u64
    ensures { result ≡ digest_after state (length_first uses_numbers problem.now.puzzle.options) }
{
    let mut reached = taken(state, u64::from(problem.options()));
    for o in 0..problem.options() {
        reached = after_uses(reached, problem.option(o + 1));
    }
    reached
}

/// The state after the numbers of a whole problem.
#[tactic(auto, using(crate::proofs::ProblemTexts::after_parts))]
fn after_problem(problem: &Problem) -> u64
    ensures state { result ≡ digest_after digest_start (problem_numbers problem.now) }
    ensures whole { IsSound problem.now }
{
    let items = problem.all_items();
    let (primary, _) = items.split_at(problem.primary() as usize);
    let reached = after_names(after_bounds(START, primary), items);
    after_options(after_colours(reached, problem), problem)
}

/// A number as 16 hexadecimal digits in lower case.
pub fn hexadecimal(n: u64) -> [u8; 16]
    ensures { result ≡ encode_lower (to_be_bytes w64 n) }
{
    let mut digits = [0; 16];
    encode_to_slice(&n.to_be_bytes(), &mut digits).unwrap();
    digits
}

/// The digest by which the text of a span names its problem: a hash of all that was read, as 16 hexadecimal digits in
/// lower case. The numbers of the problem are hashed by folded multiplication, as in wyhash, by fixed keys. So it tells
/// a mistake from the problem that was meant, and no more: whoever wants two problems of one digest can make them.
pub fn problem_digest(problem: &Problem) -> [u8; 16]
    ensures value { result ≡ digest_of problem.now }
    ensures whole { IsSound problem.now }
{
    hexadecimal(after_problem(problem))
}
