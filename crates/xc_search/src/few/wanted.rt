//! The open items whose bounds have to be watched in a count by words.
ghost use Rattle.std.specs.Prelude.{◌≡◌, ◌-◌, ◌≤◌, ◌<◌, ℕ, true, length, take, IfSome};
ghost use Rattle.xc_input.specs.Problem.{low_at, high_at};
ghost use Rattle.xc_moves.specs.Moves.{IsOpenPrimary, listed, spends};
ghost use Rattle.xc_search.specs.inner.FewBounded.{low_left, AreWatched, LetsGo, IsCappedAt};

use crate::few::collecting::beside;
use xc_input::{Bounds, Problem};
use xc_moves::Dance;
use xc_words::MOST;

/// What is left of the bounds of an open primary item.
#[inline(always)]
pub fn bounds_left<D: Dance>(dance: &D, problem: &Problem, i: u32) -> Bounds
    requires same { (D.state dance.now).puzzle ≡ problem.now.puzzle }
    requires open { IsOpenPrimary problem.now.puzzle (D.state dance.now).trail i }
    ensures low { result.low ≡ low_at problem.now.puzzle i - spends i (D.state dance.now).trail }
    ensures high { result.high ≡ high_at problem.now.puzzle i - spends i (D.state dance.now).trail }
{
    let item = problem.item(i);
    let high = dance.bound(i);
    let spent = item.high - high;
    Bounds {
        low: item.low.saturating_sub(spent),
        high,
    }
}

/// What a look at the open items says of what is left.
#[derive(Clone, Copy)]
pub enum Survey {
    /// It may be little.
    Few,
    /// An item has fewer options than it needs.
    Dead,
    /// Too many items have to be held, by so many, up to a thousand; or their lists are too long.
    TooMany(usize),
}

/// Whether what is left may be little: few open items have to be held, and the lists of all have no more than `room`
/// options in all.
pub fn survey_items<D: Dance>(dance: &D, problem: &Problem, room: usize) -> Survey
    requires same { (D.state dance.now).puzzle ≡ problem.now.puzzle }
    ensures dead { result ≡ Survey.Dead → (i : ℕ) × IsOpenPrimary problem.now.puzzle (D.state dance.now).trail i
        × (length (listed problem.now.puzzle (D.state dance.now).trail i)
        < low_left problem.now.puzzle (D.state dance.now).trail i) }
{
    let mut needed: usize = 0;
    let mut seen: usize = 0;
    let mut total: usize = 0;
    let mut at = 0;
    while let Some(i) = dance.open_after(at) {
        let len = dance.len(i);
        let bounds = bounds_left(dance, problem, i);
        if len < bounds.low {
            return Survey::Dead;
        }
        seen += 1;
        total += len as usize;
        if bounds.low > 0 {
            needed += 1;
        }
        if needed > MOST || total > room || seen > 4 * MOST {
            return Survey::TooMany(beside(dance, i, needed));
        }
        at = i;
    }
    Survey::Few
}

/// The open items whose bounds have to be watched, if they are few, where so many options are left. An item's bounds
/// needn't be watched if it need not be held, and either has no more options than may hold it, or may be held as often
/// as options may be taken at all: as often as one that all of them hold.
pub fn collect_watched<D: Dance>(
    dance: &D,
    problem: &Problem,
    options: usize,
    into: &mut [u32; 64],
) -> Option<usize>
    requires same { (D.state dance.now).puzzle ≡ problem.now.puzzle }
    ensures few { IfSome result (λ n. n ≤ 64) }
    ensures watched { IfSome result (λ n.
        AreWatched problem.now.puzzle (D.state dance.now).trail options (take n into.new)) }
{
    let most = most_taken(dance, problem, options);
    let mut items: usize = 0;
    let mut at = 0;
    while let Some(i) = dance.open_after(at) {
        let len = dance.len(i) as usize;
        let bounds = bounds_left(dance, problem, i);
        if !is_let_go(len, bounds, options, most) {
            if items == MOST || bounds.low as usize > MOST {
                return None;
            }
            into[items] = i;
            items += 1;
        }
        at = i;
    }
    Some(items)
}

/// Whether an item with so many options, and with these bounds left, needn't be watched.
#[inline(always)]
fn is_let_go(len: usize, bounds: Bounds, options: usize, most: Option<u32>) -> bool
    ensures { result ≡ true → LetsGo len bounds.low bounds.high options most }
{
    if bounds.low != 0 {
        return false;
    }
    if len <= bounds.high as usize {
        return true;
    }
    match most {
        Some(most) => len != options && most <= bounds.high,
        None => false,
    }
}

/// How many options may be taken at most, where so many are left, by the open items that all of them hold.
fn most_taken<D: Dance>(dance: &D, problem: &Problem, options: usize) -> Option<u32>
    requires same { (D.state dance.now).puzzle ≡ problem.now.puzzle }
    ensures { IfSome result (IsCappedAt problem.now.puzzle (D.state dance.now).trail options) }
{
    let mut most = None;
    let mut least = u32::MAX;
    let mut at = 0;
    while let Some(i) = dance.open_after(at) {
        let high = dance.bound(i);
        if high < least && (high as usize) < options && dance.len(i) as usize == options {
            most = Some(high);
            least = high;
        }
        at = i;
    }
    most
}
