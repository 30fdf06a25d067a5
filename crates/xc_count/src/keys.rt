//! Keys: for each item a mark, 0 where it is free, and else one more than the colour for which it is held.
//!
//! A key has the marks of the items by rank, from a rank on that it does not tell. The items before were given up, and
//! those after its end are free. Its last mark is not 0, so that equal states have equal keys.
ghost use Rattle.std.specs.Prelude.{ℕ, ◌≡◌, ◌≢◌, ◌+◌, ◌-◌, ◌<◌, ◌≤◌, length, drop, slice_get, All, OnOk, Some, true};
ghost use Rattle.xc_moves.specs.Moves.{agrees};
ghost use Rattle.xc_count.specs.inner.Held.{agree, holding_uses};
ghost use Rattle.xc_count.specs.inner.Keys.{held_in, mark_says, rank_of};
ghost use Rattle.xc_input.specs.Limits.{most_uses};

use crate::errors::CountError;
use xc_input::Use;

/// The mark of an item that is held for a colour.
fn mark_for(colour: u32) -> u32
    requires { colour ≤ most_uses }
    ensures { result ≡ colour + 1 }
{
    colour + 1
}

/// The mark of an item.
pub fn mark_of(ranks: &[u32], from: usize, key: &[u32], item: u32) -> u32
    requires { (1 ≤ item) × (item ≤ length ranks.now) }
    ensures { mark_says (Some result) ≡ held_in ranks.now from key.now item }
{
    let rank = ranks[item as usize - 1] as usize;
    if rank < from {
        return 1;
    }
    match key.get(rank - from) {
        Some(mark) => *mark,
        None => 0,
    }
}

/// Whether an item of this mark may be held for a colour.
fn does_agree(mark: u32, colour: u32) -> bool
    ensures { result ≡ agrees colour (mark_says (Some mark)) }
{
    mark == 0 || (colour > 0 && mark - 1 == colour)
}

/// Whether all uses agree. Adds to `read` how many are read that do.
pub fn agree_counting(ranks: &[u32], from: usize, key: &[u32], uses: &[Use], read: &mut u64) -> bool
    requires { All (λ u. (1 ≤ u.item) × (u.item ≤ length ranks.now)) uses.now }
    ensures { result ≡ agree (held_in ranks.now from key.now) uses.now }
{
    for u in uses {
        if !does_agree(mark_of(ranks, from, key, u.item), u.colour) {
            return false;
        }
        *read = read.wrapping_add(1);
    }
    true
}

/// Whether all uses agree.
#[inline]
pub fn do_agree(ranks: &[u32], from: usize, key: &[u32], uses: &[Use]) -> bool
    requires { All (λ u. (1 ≤ u.item) × (u.item ≤ length ranks.now)) uses.now }
    ensures { result ≡ agree (held_in ranks.now from key.now) uses.now }
{
    agree_counting(ranks, from, key, uses, &mut 0)
}

/// Sets a mark, after zeros where the key ends before.
fn set_mark(key: &mut Vec<u32>, place: usize, mark: u32) -> Result<(), CountError>
    ensures here { OnOk result (slice_get key.new.items place ≡ Some mark) }
    ensures there { OnOk result ((k : ℕ) → k ≢ place
        → mark_says (slice_get key.new.items k) ≡ mark_says (slice_get key.old.items k)) }
{
    while key.len() <= place {
        key.push(0)?;
    }
    key[place] = mark;
    Ok(())
}

/// Marks the items of these uses, none of which was given up.
pub fn mark_uses(
    ranks: &[u32],
    from: usize,
    key: &mut Vec<u32>,
    uses: &[Use],
) -> Result<(), CountError>
    requires uses { All (λ u. (1 ≤ u.item) × (u.item ≤ length ranks.now) × (from ≤ rank_of ranks.now u.item)) uses.now }
    requires colours { All (λ u. u.colour ≤ most_uses) uses.now }
    requires apart { (i j : ℕ) → 1 ≤ i → i ≤ length ranks.now → 1 ≤ j → j ≤ length ranks.now → i ≢ j
        → rank_of ranks.now i ≢ rank_of ranks.now j }
    ensures held { OnOk result ((i : ℕ) → 1 ≤ i → i ≤ length ranks.now
        → held_in ranks.now from key.new.items i ≡ holding_uses uses.now (held_in ranks.now from key.old.items) i) }
{
    let mut place = uses.len();
    while place > 0 {
        place -= 1;
        let u = uses[place];
        let rank = ranks[u.item as usize - 1] as usize;
        set_mark(key, rank - from, mark_for(u.colour))?;
    }
    Ok(())
}

/// A key without its first marks.
pub fn without_first(key: &[u32], many: usize) -> &[u32]
    ensures { result.now ≡ drop many key.now }
{
    if many <= key.len() { &key[many..] } else { &[] }
}
