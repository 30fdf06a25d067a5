//! What a search does next: it branches on options that it takes or leaves out, and cuts what can't be cheap enough.
ghost use Rattle.std.specs.Prelude.{ℕ, ◌≡◌, ◌⊎◌, true, Contains};
ghost use Rattle.xc_input.specs.Problem.{IsOption};
ghost use Rattle.xc_least.specs.inner.Regions.{IsCut, IsExcluded, newest, surplus_at, taken_of};
ghost use Rattle.xc_least.specs.inner.Held.{HasItsTables};

use crate::choice::{Choice, choose};
use crate::decided::Decided;
use crate::lost::{are_too_few, first_left};
use xc_input::{Bounds, Problem};

/// What a search does next.
#[derive(Clone, Copy)]
pub enum Next {
    /// No cover as was decided has a surplus below the gap.
    Cut,
    /// It takes this option.
    Take(u32),
    /// Each cover as was decided with a surplus below the gap is what was taken.
    Leaf,
}

/// Whether no cover as was decided has a surplus below the gap, by the options of this primary item.
fn is_cut_by(
    decided: &Decided,
    problem: &Problem,
    bounds: &[Bounds],
    surplus: &[u64],
    gap: u64,
    item: u32,
) -> bool
    requires kept { HasItsTables problem.now.puzzle (surplus_at surplus.now) decided.now }
    requires bounds { bounds.now ≡ problem.now.puzzle.bounds }
    ensures { result ≡ true → IsCut problem.now.puzzle (surplus_at surplus.now) gap (newest decided.now.steps.items) }
{
    let place = item as usize;
    if place == 0 || bounds.len() < place {
        return false;
    }
    let low = bounds[place - 1].low;
    are_too_few(decided, problem, bounds, surplus, gap, item, low)
}

/// What a search does next.
pub fn look(
    decided: &Decided,
    problem: &Problem,
    bounds: &[Bounds],
    surplus: &[u64],
    lists: &[Vec<u32>],
    gap: u64,
) -> Next
    requires kept { HasItsTables problem.now.puzzle (surplus_at surplus.now) decided.now }
    requires bounds { bounds.now ≡ problem.now.puzzle.bounds }
    ensures cut { result ≡ Next.Cut
        → IsCut problem.now.puzzle (surplus_at surplus.now) gap (newest decided.now.steps.items) }
    ensures leaf { result ≡ Next.Leaf → (o : ℕ) → IsOption problem.now.puzzle o
        → Contains (taken_of (newest decided.now.steps.items)) o
        ⊎ IsExcluded problem.now.puzzle (surplus_at surplus.now) gap (newest decided.now.steps.items) o }
{
    if gap <= decided.spent() {
        return Next::Cut;
    }
    match choose(decided, problem, bounds, surplus, lists, gap) {
        Choice::Cut(item) => {
            if is_cut_by(decided, problem, bounds, surplus, gap, item) {
                return Next::Cut;
            }
        }
        Choice::Take(option) => return Next::Take(option),
        Choice::Held => {}
    }
    match first_left(decided, problem, bounds, surplus, gap) {
        Some(option) => Next::Take(option),
        None => Next::Leaf,
    }
}
