//! What a search branches on: the primary item that has the fewest options to spare, and its option with the smallest
//! surplus. Nothing rests on this choice but how long a search takes.
ghost use Rattle.std.specs.Prelude.{◌≡◌};
ghost use Rattle.xc_least.specs.inner.Regions.{surplus_at};
ghost use Rattle.xc_least.specs.inner.Held.{HasItsTables};

use crate::decided::{Decided, surplus_of};
use crate::lost::is_lost;
use xc_input::{Bounds, Problem};

/// What a search may do next.
#[derive(Clone, Copy)]
pub enum Choice {
    /// This primary item seems to have too few options left.
    Cut(u32),
    /// To take this option.
    Take(u32),
    /// Each primary item is held often enough.
    Held,
}

/// How often an item is held.
#[inline(always)]
fn held_at(held: &[u32], item: u32) -> u32 {
    match held.get(item as usize) {
        Some(held) => *held,
        None => 0,
    }
}

/// How many of these options, in the order of their surpluses, are left and not taken, and the first of them. It counts
/// no further than `enough`.
#[inline(always)]
fn count_left(
    decided: &Decided,
    problem: &Problem,
    bounds: &[Bounds],
    surplus: &[u64],
    gap: u64,
    options: &[u32],
    enough: u32,
) -> (u32, u32)
    requires kept { HasItsTables problem.now.puzzle (surplus_at surplus.now) decided.now }
    requires bounds { bounds.now ≡ problem.now.puzzle.bounds }
{
    let room = gap.saturating_sub(decided.spent());
    let mut count: u32 = 0;
    let mut first = 0;
    for option in options {
        if room <= surplus_of(surplus, *option) || enough <= count {
            return (count, first);
        }
        if decided.step_of(*option).is_none()
            && !is_lost(decided, problem, bounds, surplus, gap, *option)
        {
            if count == 0 {
                first = *option;
            }
            count = count.saturating_add(1);
        }
    }
    (count, first)
}

/// The choice.
pub fn choose(
    decided: &Decided,
    problem: &Problem,
    bounds: &[Bounds],
    surplus: &[u64],
    lists: &[Vec<u32>],
    gap: u64,
) -> Choice
    requires kept { HasItsTables problem.now.puzzle (surplus_at surplus.now) decided.now }
    requires bounds { bounds.now ≡ problem.now.puzzle.bounds }
{
    let mut spare = u32::MAX;
    let mut choice = Choice::Held;
    let mut item: u32 = 0;
    for list in lists {
        item = item.saturating_add(1);
        let low = match bounds.get(item.saturating_sub(1) as usize) {
            Some(bounds) => bounds.low,
            None => 0,
        };
        let held = held_at(decided.held.as_slice(), item);
        if held < low {
            let need = low - held;
            let enough = need.saturating_add(spare);
            let (count, first) = count_left(
                decided,
                problem,
                bounds,
                surplus,
                gap,
                list.as_slice(),
                enough,
            );
            if count < need {
                return Choice::Cut(item);
            }
            if count - need < spare {
                spare = count - need;
                choice = Choice::Take(first);
            }
        }
    }
    choice
}
