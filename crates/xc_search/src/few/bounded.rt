//! The words of items that may be held within bounds.
ghost use Rattle.std.specs.Prelude.{◌≡◌, ◌==◌, ◌<◌, ◌≤◌, ◌&&◌, ◌||◌, ◌⊎◌, ℕ, length, min, nat_lt, not};
ghost use Rattle.std.specs.Prelude.{All};
ghost use Rattle.std.specs.Int.{bit_at};
ghost use Rattle.xc_input.specs.Problem.{IsOption, item_count, primary_count};
ghost use Rattle.xc_moves.specs.Moves.{IsOpenPrimary};
ghost use Rattle.xc_search.specs.inner.Filled.{colour_place, HasColourRoom};
ghost use Rattle.xc_search.specs.inner.FewBounded.{AreBoundedUseWords, clashes_at, high_left};

use crate::few::filling::{differing, note_colours, note_holders, note_in_each};
use crate::few::wanted::bounds_left;
use xc_input::{Problem, Use};
use xc_moves::Dance;
use xc_words::{BoundedWords, MOST};

/// Fills the words of these items and options. `holders` is by item, `coloured` by item and colour. An item that may be
/// held only once more keeps its options apart, any other is among the items of its options.
pub fn fill_bounded<D: Dance>(
    dance: &D,
    problem: &Problem,
    items: &[u32],
    options: &[u32],
    holders: &mut [u64],
    coloured: &mut [u64],
    words: &mut BoundedWords,
)
    requires same { (D.state dance.now).puzzle ≡ problem.now.puzzle }
    requires items { All (IsOpenPrimary problem.now.puzzle (D.state dance.now).trail) items.now }
    requires options { All (IsOption problem.now.puzzle) options.now }
    requires few_items { length items.now ≤ 64 }
    requires few_options { length options.now ≤ 64 }
    requires room { item_count problem.now.puzzle < length holders.old }
    requires colour_room { HasColourRoom problem.now (length coloured.old) }
    ensures { AreBoundedUseWords problem.now.puzzle (D.state dance.now).trail items.now options.now words.new }
{
    note_holders(problem, items, options, holders);
    note_colours(problem, options, coloured);
    let colours = problem.colours();
    for x in 0..options.len() {
        words.apart[x] = all_clashing(
            dance,
            problem,
            problem.option(options[x]),
            holders,
            coloured,
            colours,
        );
        words.many[x] = 0;
    }
    for i in 0..items.len() {
        let of = holders[items[i] as usize];
        let bounds = bounds_left(dance, problem, items[i]);
        words.holders[i] = of;
        words.low[i] = up_to_most(bounds.low);
        words.high[i] = up_to_most(bounds.high);
        note_in_each(&mut words.many, of_several(of, bounds.high), i);
    }
}

/// The number, or how many options words have at most, if that is less.
#[inline(always)]
fn up_to_most(n: u32) -> u8
    ensures { result ≡ min n 64 }
{
    n.min(MOST as u32) as u8
}

/// Those of an item's options that may be taken beside others of it: none if it may be held only once more.
#[inline(always)]
fn of_several(of: u64, high: u32) -> u64
    ensures { (y : ℕ) → (bit_at result y == 1) ≡ (bit_at of y == 1 && not (high == 1)) }
{
    if high == 1 {
        return 0;
    }
    of
}

/// The options that can't be taken beside one with these uses, of so many colours: those that hold an item of it that
/// may be held only once more, or a secondary one on which they don't agree.
fn all_clashing<D: Dance>(
    dance: &D,
    problem: &Problem,
    uses: &[Use],
    holders: &[u64],
    coloured: &[u64],
    colours: u32,
) -> u64
    requires same { (D.state dance.now).puzzle ≡ problem.now.puzzle }
    requires some { All (λ u. 1 ≤ u.item) uses.now }
    requires items { All (λ u. u.item < length holders.now) uses.now }
    requires room { All (λ u. (u.colour ≡ 0) ⊎ (colour_place colours u.item u.colour < length coloured.now)) uses.now }
    ensures { (y : ℕ) → (bit_at result y == 1) ≡ clashes_at problem.now.puzzle (D.state dance.now).trail colours
        holders.now coloured.now uses.now y }
{
    let primary = problem.primary();
    let mut apart = 0u64;
    for u in uses {
        if is_binding(dance, primary, u.item) {
            apart |= differing(*u, holders, coloured, colours);
        }
    }
    apart
}

/// Whether options are kept apart by the item, of a problem with so many primary items: it may be held only once more,
/// or is secondary.
#[inline(always)]
fn is_binding<D: Dance>(dance: &D, primary: u32, i: u32) -> bool
    requires some { 1 ≤ i }
    requires primary { primary ≡ primary_count (D.state dance.now).puzzle }
    ensures { result ≡ (nat_lt (primary_count (D.state dance.now).puzzle) i
        || high_left (D.state dance.now).puzzle (D.state dance.now).trail i == 1) }
{
    i > primary || dance.bound(i) == 1
}
