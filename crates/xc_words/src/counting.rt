//! The number of covers, by a search that branches on an item with the fewest options and makes no move.
ghost use Rattle.std.specs.Prelude.{◌≡◌, ◌<◌, ◌≤◌, ℕ, Bool, true, IfSome, slice_index};
ghost use Rattle.std.specs.Int.{bit_at};
ghost use Rattle.std.specs.Int.Bits.{bit_and};
ghost use Rattle.xc_words.specs.Words.{CountsBranches, HasOwn};

use crate::words::Words;

/// Of the options that are left, those of an item with the fewest, or of one with at most one. Which open item it is
/// decides how long a search takes, and not what it counts. So no clause says it, and a tie that goes to another item,
/// or a wrong number of bits, is refused by no proof.
#[inline(always)]
fn fewest(words: &Words, left: u64, items: u64) -> u64
    requires some { 0 < items }
    ensures { (i : ℕ) × (i < 64) × (bit_at items i ≡ 1) × (result ≡ bit_and (slice_index words.now.holders i) left) }
{
    let item = items.trailing_zeros() as usize;
    let mut of = words.holders[item] & left;
    let mut least = of.count_ones();
    let mut rest = items & (items - 1);
    while rest != 0 && least > 1 {
        let next = words.holders[rest.trailing_zeros() as usize] & left;
        rest &= rest - 1;
        let n = next.count_ones();
        if n < least {
            least = n;
            of = next;
        }
    }
    of
}

/// How many exact covers of these items there are by the options that are left, both by their bits. None if there are
/// more than `most`, which is 1 or more, or if the budget runs out. The budget is in nodes, each of which has an item
/// open, and is lowered by those that were visited. Each option that is taken closes an item, so at most 64 calls are
/// below this one at a time, whatever the budget.
pub fn count_left(words: &Words, left: u64, items: u64, most: u64, budget: &mut u64) -> Option<u64>
    requires some { 0 < most }
    requires own { HasOwn words.now.holders words.now.alone left items }
    ensures counted { IfSome result (λ n. (good : ℕ → ℕ → Bool) → (count : ℕ → ℕ → ℕ)
        → CountsBranches words.now.holders words.now.alone words.now.apart good count → good left items ≡ true
        → n ≡ count left items) }
    ensures within { IfSome result (λ n. n ≤ most) }
    ensures spent { budget.new ≤ budget.old }
{
    let mut left = left;
    let mut items = items;
    loop {
        if items == 0 {
            return Some(1);
        }
        if *budget == 0 {
            return None;
        }
        *budget -= 1;
        let mut of = fewest(words, left, items);
        if of == 0 {
            return Some(0);
        }
        let x = of.trailing_zeros() as usize;
        if of & (of - 1) == 0 {
            left &= !words.apart[x];
            items &= !words.alone[x];
            continue;
        }
        let mut sum = 0u64;
        while of != 0 {
            let x = of.trailing_zeros() as usize;
            of &= of - 1;
            let found = count_left(
                words,
                left & !words.apart[x],
                items & !words.alone[x],
                most,
                budget,
            )?;
            if found > most - sum {
                return None;
            }
            sum += found;
        }
        return Some(sum);
    }
}
