//! The branch item: the open primary item with the fewest branches, a rule of Golomb and Baumert (1965) that Knuth's
//! programs follow; and the item that the search's loop goes on at.
//!
//! That loop looks for less (`choose_early`): it takes the first item with at most one branch, unless one of the next
//! six has none. A look at all open items at each level takes 5 % more instructions, and a hundred times as long where
//! 40,000 items have one option each; the cost is that a dead end is left some levels later. Looking at 12 more items
//! takes 1 % more instructions, at 32 more 4 %, at 3 more as many. Tried and not faster: an index for the item that the
//! loop is at, and a look from both ends of the ring.
//!
//! If each primary item is in exactly one option of a cover, lengths alone are compared (12 % of a search's
//! instructions).
ghost use Rattle.std.specs.Prelude.{◌≡◌, ◌-◌, ◌<◌, ◌≤◌, ◌^◌, true, length, Some, None, IfSome, IsNone};
ghost use Rattle.xc_input.specs.Problem.{low_at};
ghost use Rattle.xc_moves.specs.Moves.{IsOpenPrimary, open_items, spends};
ghost use Rattle.xc_search.specs.Residuals.{branches_after, wanted_at, wanted_after, choice_after};
ghost use Rattle.xc_search.specs.Once.{IsOnce};
ghost use Rattle.xc_search.specs.inner.Levels.{AreAllWanted, IsEarlyChoice};

use xc_input::Problem;
use xc_moves::Dance;

/// The number of branches of item `i`, an open primary item of the dance's problem: one for each
/// option of its list, less what the item still has to be held beyond one, and one more for the
/// branch of none where it need not be held. With both bounds 1 it is the length of the list.
#[inline(always)]
pub fn branches<D: Dance>(dance: &D, problem: &Problem, i: u32) -> u32
    requires same { (D.state dance.now).puzzle ≡ problem.now.puzzle }
    requires open { IsOpenPrimary problem.now.puzzle (D.state dance.now).trail i }
    ensures { result ≡ branches_after problem.now.puzzle (D.state dance.now).trail
        (wanted_at problem.now.puzzle (D.state dance.now).trail i) }
{
    let item = problem.item(i);
    let spent = item.high - dance.bound(i);
    let low = item.low.saturating_sub(spent);
    let len = dance.len(i);
    if low == 0 {
        len + 1
    } else {
        len.saturating_sub(low - 1)
    }
}

/// The branch item and its number of branches. Of equals it is the first in the order of the items;
/// none where no primary item is open. It looks no further than an item without branches.
pub fn choose<D: Dance>(dance: &D, problem: &Problem) -> Option<(u32, u32)>
    requires same { (D.state dance.now).puzzle ≡ problem.now.puzzle }
    ensures { result ≡ choice_after problem.now.puzzle (D.state dance.now).trail }
{
    let found = first_fewest(dance, problem, false, 0)?;
    Some((found.item, found.branches))
}

/// Does what `choose` does. `once`: each primary item is to be held exactly once, and those that are
/// open aren't held yet. Then the pass over the items reads no bounds.
// The number of branches is an index, since the compiler packs two numbers of 32 bits into one word and takes them
// apart again.
#[inline(always)]
pub fn choose_next<D: Dance>(dance: &D, problem: &Problem, once: bool) -> Option<(u32, usize)>
    requires same { (D.state dance.now).puzzle ≡ problem.now.puzzle }
    requires once { once ≡ true → IsOnce problem.now.puzzle
        × AreAllWanted (wanted_after problem.now.puzzle (D.state dance.now).trail) }
    ensures choice { result ≡ choice_after problem.now.puzzle (D.state dance.now).trail }
    ensures few { IfSome result (λ c. c.1 < 2 ^ 32) }
{
    let found = if once {
        first_fewest(dance, problem, true, 0)?
    } else {
        first_fewest(dance, problem, false, 0)?
    };
    Some((found.item, found.branches as usize))
}

/// How many more open items are searched for one without branches once one with a single branch was found: most dead
/// ends are near.
const FURTHER: u32 = 6;

/// An item to branch on, which may be another than the branch item where some item has no branches: then what is left
/// has no solution, by whichever item it is searched. It looks at the open items up to the first with one branch, and
/// at a few more for one without. `once` as for `choose_next`.
#[inline(always)]
pub fn choose_early<D: Dance>(dance: &D, problem: &Problem, once: bool) -> Option<(u32, usize)>
    requires same { (D.state dance.now).puzzle ≡ problem.now.puzzle }
    requires once { once ≡ true → IsOnce problem.now.puzzle
        × AreAllWanted (wanted_after problem.now.puzzle (D.state dance.now).trail) }
    ensures choice { IsEarlyChoice problem.now.puzzle (D.state dance.now).trail result }
    ensures few { IfSome result (λ c. c.1 < 2 ^ 32) }
{
    if once {
        choose_early_by(dance, problem, true)
    } else {
        choose_early_by(dance, problem, false)
    }
}

#[inline(always)]
fn choose_early_by<D: Dance>(dance: &D, problem: &Problem, once: bool) -> Option<(u32, usize)>
    requires same { (D.state dance.now).puzzle ≡ problem.now.puzzle }
    requires once { once ≡ true → IsOnce problem.now.puzzle
        × AreAllWanted (wanted_after problem.now.puzzle (D.state dance.now).trail) }
    ensures choice { IsEarlyChoice problem.now.puzzle (D.state dance.now).trail result }
    ensures few { IfSome result (λ c. c.1 < 2 ^ 32) }
{
    let found = first_fewest(dance, problem, once, 1)?;
    if found.branches == 1 {
        if let Some(short) = without_branches(dance, problem, found.at, once) {
            return Some((short, 0));
        }
    }
    Some((found.item, found.branches as usize))
}

/// An item without branches, of the next few open items after item `i`.
#[inline(always)]
fn without_branches<D: Dance>(dance: &D, problem: &Problem, i: u32, once: bool) -> Option<u32>
    requires same { (D.state dance.now).puzzle ≡ problem.now.puzzle }
    requires open { IsOpenPrimary problem.now.puzzle (D.state dance.now).trail i }
    requires once { once ≡ true → IsOnce problem.now.puzzle
        × AreAllWanted (wanted_after problem.now.puzzle (D.state dance.now).trail) }
    ensures open { IfSome result (IsOpenPrimary problem.now.puzzle (D.state dance.now).trail) }
    ensures without { IfSome result (λ j. branches_after problem.now.puzzle (D.state dance.now).trail
        (wanted_at problem.now.puzzle (D.state dance.now).trail j) ≡ 0) }
{
    let mut at = i;
    for _ in 0..FURTHER {
        at = dance.open_after(at)?;
        if branches_of(dance, problem, at, once) == 0 {
            return Some(at);
        }
    }
    None
}

/// What a pass over the open items found.
#[derive(Clone, Copy)]
struct Fewest {
    /// The first item with the fewest branches of those that it looked at.
    item: u32,
    branches: u32,
    /// The item that it looked at last.
    at: u32,
}

/// The number of branches of an open item; if `once`, it is to be held exactly once more.
#[inline(always)]
fn branches_of<D: Dance>(dance: &D, problem: &Problem, i: u32, once: bool) -> u32
    requires same { (D.state dance.now).puzzle ≡ problem.now.puzzle }
    requires open { IsOpenPrimary problem.now.puzzle (D.state dance.now).trail i }
    requires once { once ≡ true → low_at problem.now.puzzle i - spends i (D.state dance.now).trail ≡ 1 }
    ensures { result ≡ branches_after problem.now.puzzle (D.state dance.now).trail
        (wanted_at problem.now.puzzle (D.state dance.now).trail i) }
{
    if once {
        dance.len(i)
    } else {
        branches(dance, problem, i)
    }
}

/// The first item with the fewest branches, up to the first with at most `enough` of them: with 0 the branch item.
// Over the linked tables, where each item is held once, a turn of the loop has two loads: the next open item and its
// length. No bounds check is left. Whether the branches are few enough is tested where a new minimum is found, which is
// seldom, and not at each turn.
#[inline(always)]
fn first_fewest<D: Dance>(dance: &D, problem: &Problem, once: bool, enough: u32) -> Option<Fewest>
    requires same { (D.state dance.now).puzzle ≡ problem.now.puzzle }
    requires once { once ≡ true → IsOnce problem.now.puzzle
        × AreAllWanted (wanted_after problem.now.puzzle (D.state dance.now).trail) }
    requires enough { enough ≤ 1 }
    ensures none { IsNone result → choice_after problem.now.puzzle (D.state dance.now).trail ≡ None }
    ensures choice { IfSome result (λ f. enough ≡ 0 →
        choice_after problem.now.puzzle (D.state dance.now).trail ≡ Some (f.item, f.branches)) }
    ensures early { IfSome result (λ f. IsEarlyChoice problem.now.puzzle (D.state dance.now).trail
        (Some (f.item, f.branches))) }
    ensures open { IfSome result (λ f. IsOpenPrimary problem.now.puzzle (D.state dance.now).trail f.item
        × IsOpenPrimary problem.now.puzzle (D.state dance.now).trail f.at) }
{
    let mut item = dance.open_after(0)?;
    let mut branches = branches_of(dance, problem, item, once);
    let mut at = item;
    if branches <= enough {
        return Some(Fewest { item, branches, at });
    }
    while let Some(next) = dance.open_after(at) {
        let n = branches_of(dance, problem, next, once);
        at = next;
        if n < branches {
            item = next;
            branches = n;
            if branches <= enough {
                return Some(Fewest { item, branches, at });
            }
        }
    }
    Some(Fewest { item, branches, at })
}

/// The first open primary item, where so many are open.
#[inline(always)]
pub fn first_of_open<D: Dance>(dance: &D, many: usize) -> Option<u32>
    requires { 0 < many }
    ensures open { IfSome result (IsOpenPrimary (D.state dance.now).puzzle (D.state dance.now).trail) }
    ensures many { IfSome result (λ _.
        length (open_items (D.state dance.now).puzzle (D.state dance.now).trail) ≡ many) }
{
    let first = dance.open_after(0)?;
    let mut at = first;
    let mut seen: usize = 1;
    while seen < many {
        at = dance.open_after(at)?;
        seen += 1;
    }
    match dance.open_after(at) {
        Some(_) => None,
        None => Some(first),
    }
}
