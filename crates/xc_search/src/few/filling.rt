//! The words of items and options.
ghost use Rattle.std.specs.Prelude.{◌≡◌, ◌<◌, ◌≤◌, ◌==◌, ◌&&◌, ◌||◌, ◌^◌, ◌⊎◌, ℕ, length, slice_index, All, true};
ghost use Rattle.std.specs.Int.{bit_at};
ghost use Rattle.xc_input.specs.Problem.{IsItem, IsOption, item_count, uses_of};
ghost use Rattle.xc_search.specs.inner.Few.{AreUseWords};
ghost use Rattle.xc_search.specs.inner.Filled.{held_at, TellsHolders, gives, TellsColour, colour_place, HasColourRoom};
ghost use Rattle.xc_search.specs.inner.Filled.{differs_at, shares_at};

use xc_input::{Problem, Use};
use xc_words::Words;

/// Fills the words of these items and options. `holders` is by item, `coloured` by item and colour.
pub fn fill(
    problem: &Problem,
    items: &[u32],
    options: &[u32],
    holders: &mut [u64],
    coloured: &mut [u64],
    words: &mut Words,
)
    requires items { All (IsItem problem.now.puzzle) items.now }
    requires options { All (IsOption problem.now.puzzle) options.now }
    requires few_items { length items.now ≤ 64 }
    requires few_options { length options.now ≤ 64 }
    requires room { item_count problem.now.puzzle < length holders.old }
    requires colour_room { HasColourRoom problem.now (length coloured.old) }
    ensures { AreUseWords problem.now.puzzle items.now options.now words.new }
{
    note_holders(problem, items, options, holders);
    note_colours(problem, options, coloured);
    let colours = problem.colours();
    for x in 0..options.len() {
        words.apart[x] = all_apart(problem.option(options[x]), holders, coloured, colours);
        words.alone[x] = 0;
    }
    for i in 0..items.len() {
        let of = holders[items[i] as usize];
        words.holders[i] = of;
        note_in_each(&mut words.alone, of, i);
    }
    know_words(&words.alone);
    know_words(&words.apart);
}

/// Notes an item in the words of those options that hold it.
#[inline(always)]
pub fn note_in_each(words: &mut [u64; 64], of: u64, i: usize)
    requires { i < 64 }
    ensures size { length words.new ≡ 64 }
    ensures noted { (x k : ℕ) → x < 64 → (bit_at (slice_index words.new x) k == 1)
        ≡ ((bit_at (slice_index words.old x) k == 1) || (k == i && bit_at of x == 1)) }
{
    let mut rest = of;
    while rest != 0 {
        words[rest.trailing_zeros() as usize] |= 1u64 << i;
        rest &= rest - 1;
    }
}

/// Does nothing. Of a struct's arrays it isn't known that each element fits, of a slice it is.
#[inline(always)]
pub fn know_words(words: &[u64])
    ensures { (x : ℕ) → slice_index words.now x < 2 ^ 64 }
{}

/// Notes for each of these items, and each that these options hold, which of the options hold it.
pub fn note_holders(problem: &Problem, items: &[u32], options: &[u32], holders: &mut [u64])
    requires items { All (IsItem problem.now.puzzle) items.now }
    requires options { All (IsOption problem.now.puzzle) options.now }
    requires few_options { length options.now ≤ 64 }
    requires room { item_count problem.now.puzzle < length holders.old }
    ensures items { All (λ j. TellsHolders problem.now.puzzle options.now j (slice_index holders.new j)) items.now }
    ensures held { (x j : ℕ) → held_at problem.now.puzzle options.now j x ≡ true
        → TellsHolders problem.now.puzzle options.now j (slice_index holders.new j) }
{
    for i in items {
        holders[*i as usize] = 0;
    }
    for o in options {
        for u in problem.option(*o) {
            holders[u.item as usize] = 0;
        }
    }
    for x in 0..options.len() {
        for u in problem.option(options[x]) {
            holders[u.item as usize] |= 1u64 << x;
        }
    }
}

/// Notes for each item with a colour that these options give it, which of the options do.
pub fn note_colours(problem: &Problem, options: &[u32], coloured: &mut [u64])
    requires options { All (IsOption problem.now.puzzle) options.now }
    requires few_options { length options.now ≤ 64 }
    requires room { HasColourRoom problem.now (length coloured.old) }
    ensures { let n = length problem.now.colours in (x j c : ℕ) → 0 < c → c ≤ n
        → gives (uses_of problem.now.puzzle (slice_index options.now x)) j c ≡ true
        → TellsColour problem.now.puzzle options.now j c (slice_index coloured.new (colour_place n j c)) }
{
    let colours = problem.colours();
    if colours == 0 {
        return;
    }
    for o in options {
        for u in problem.option(*o) {
            if u.colour != 0 {
                coloured[place_by_colour(*u, colours)] = 0;
            }
        }
    }
    for x in 0..options.len() {
        for u in problem.option(options[x]) {
            if u.colour != 0 {
                coloured[place_by_colour(*u, colours)] |= 1u64 << x;
            }
        }
    }
}

/// Where the word of the use's item and colour is, of so many colours.
#[inline(always)]
fn place_by_colour(u: Use, colours: u32) -> usize
    requires { colour_place colours u.item u.colour < 2 ^ 64 }
    ensures { result ≡ colour_place colours u.item u.colour }
{
    u.item as usize * (colours as usize + 1) + u.colour as usize
}

/// The options that share with these uses an item on which they don't agree, of so many colours.
fn all_apart(uses: &[Use], holders: &[u64], coloured: &[u64], colours: u32) -> u64
    requires items { All (λ u. u.item < length holders.now) uses.now }
    requires colours { All (λ u. u.colour ≤ colours) uses.now }
    requires room { All (λ u. (u.colour ≡ 0) ⊎ (colour_place colours u.item u.colour < length coloured.now)) uses.now }
    ensures { (y : ℕ) → (bit_at result y == 1) ≡ shares_at colours holders.now coloured.now uses.now y }
{
    let mut apart = 0u64;
    // Without colours each item is shared by all that hold it. A loop of its own, since it takes half as long.
    if colours == 0 {
        for u in uses {
            apart |= holders[u.item as usize];
        }
        return apart;
    }
    for u in uses {
        apart |= differing(*u, holders, coloured, colours);
    }
    apart
}

/// The options that hold the use's item and don't agree on it.
#[inline(always)]
pub fn differing(u: Use, holders: &[u64], coloured: &[u64], colours: u32) -> u64
    requires item { u.item < length holders.now }
    requires colour { (u.colour ≡ 0) ⊎ (colour_place colours u.item u.colour < length coloured.now) }
    ensures { (y : ℕ) → (bit_at result y == 1) ≡ differs_at colours holders.now coloured.now u y }
{
    let of = holders[u.item as usize];
    if u.colour == 0 {
        return of;
    }
    of & !coloured[place_by_colour(u, colours)]
}
