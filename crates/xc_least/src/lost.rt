//! Options and regions of a search in which no cover is left that has so small a surplus.
ghost use Rattle.std.specs.Prelude.{ℕ, ◌≡◌, ◌<◌, ◌≤◌, ◌≢◌, ◌⊎◌, ◌-◌, Some, true, false, slice_get, slice_index};
ghost use Rattle.std.specs.Prelude.{is_some, IfSome};
ghost use Rattle.std.specs.Prelude.{IfNone, Contains};
ghost use Rattle.xc_input.specs.Problem.{IsOption, IsSecondary, bounds_at, colour_in, numbered_get, uses_of};
ghost use Rattle.xc_input.specs.declared.problem.Bounds.{Bounds};
ghost use Rattle.xc_least.specs.inner.Regions.{IsBarred, IsCut, IsExcluded, newest, surplus_at, taken_of};
ghost use Rattle.xc_least.specs.inner.Held.{AreHeld, HasItsTables, ArePlaced};

use crate::decided::{Decided, stands, surplus_of, uses_at};
use xc_input::{Bounds, Problem, Use};

/// Whether a primary item is held as often as it may be.
#[inline(always)]
fn is_full(bounds: &[Bounds], held: &[u32], item: u32) -> bool
    ensures { result ≡ true → (b : Bounds) × (numbered_get bounds.now item ≡ Some b)
        × (b.high ≤ slice_index held.now item) }
{
    let place = item as usize;
    if place == 0 || bounds.len() < place || held.len() <= place {
        return false;
    }
    bounds[place - 1].high <= held[place]
}

/// The colour of an item in uses, 0 for none, if they hold it.
#[inline(always)]
pub fn colour_of(uses: &[Use], item: u32) -> Option<u32>
    ensures { result ≡ colour_in uses.now item }
{
    for u in uses {
        if u.item == item {
            return Some(u.colour);
        }
    }
    None
}

/// Whether two options with these uses hold an item for colours that don't agree.
fn do_differ(a: &[Use], b: &[Use], item: u32) -> bool
    ensures { result ≡ true → (x : ℕ) × (y : ℕ) × (colour_in a.now item ≡ Some x) × (colour_in b.now item ≡ Some y)
        × ((x ≡ y) × (0 < x) → ⊥) }
{
    let Some(first) = colour_of(a, item) else {
        return false;
    };
    let Some(second) = colour_of(b, item) else {
        return false;
    };
    first == 0 || first != second
}

/// Whether an option taken holds a secondary item for a colour that doesn't agree with that of these uses.
#[inline(always)]
fn is_met_otherwise(decided: &Decided, problem: &Problem, uses: &[Use], item: u32) -> bool
    ensures { result ≡ true → (o : ℕ) → uses.now ≡ uses_of problem.now.puzzle o → IsSecondary problem.now.puzzle item
        → IsBarred problem.now.puzzle (newest decided.now.steps.items) o }
{
    let place = item as usize;
    if decided.marks.len() <= place {
        return false;
    }
    let mark = decided.marks[place];
    stands(decided.steps.as_slice(), mark) && do_differ(uses_at(problem, mark.option), uses, item)
}

/// Whether no cover as was decided has an option with these uses that isn't taken, for this item of theirs.
#[inline(always)]
fn is_barred_by(
    decided: &Decided,
    problem: &Problem,
    bounds: &[Bounds],
    uses: &[Use],
    item: u32,
) -> bool
    requires kept { ArePlaced decided.now.place.items (newest decided.now.steps.items) }
    requires held { AreHeld problem.now.puzzle decided.now.held.items (taken_of (newest decided.now.steps.items)) }
    requires bounds { bounds.now ≡ problem.now.puzzle.bounds }
    requires item { is_some (colour_in uses.now item) ≡ true }
    ensures { result ≡ true → (o : ℕ) → uses.now ≡ uses_of problem.now.puzzle o
        → IsBarred problem.now.puzzle (newest decided.now.steps.items) o }
{
    if item as usize <= bounds.len() {
        is_full(bounds, decided.held.as_slice(), item)
    } else {
        item <= problem.items() && is_met_otherwise(decided, problem, uses, item)
    }
}

/// Whether no cover as was decided has an option that isn't taken, for one of its items.
#[inline(always)]
fn is_barred(decided: &Decided, problem: &Problem, bounds: &[Bounds], option: u32) -> bool
    requires kept { ArePlaced decided.now.place.items (newest decided.now.steps.items) }
    requires held { AreHeld problem.now.puzzle decided.now.held.items (taken_of (newest decided.now.steps.items)) }
    requires bounds { bounds.now ≡ problem.now.puzzle.bounds }
    ensures { result ≡ true → IsBarred problem.now.puzzle (newest decided.now.steps.items) option }
{
    let uses = uses_at(problem, option);
    for u in uses {
        if is_barred_by(decided, problem, bounds, uses, u.item) {
            return true;
        }
    }
    false
}

/// Whether no cover as was decided with a surplus below the gap has an option.
#[inline(always)]
pub fn is_lost(
    decided: &Decided,
    problem: &Problem,
    bounds: &[Bounds],
    surplus: &[u64],
    gap: u64,
    option: u32,
) -> bool
    requires kept { HasItsTables problem.now.puzzle (surplus_at surplus.now) decided.now }
    requires bounds { bounds.now ≡ problem.now.puzzle.bounds }
    ensures { result ≡ true → IsExcluded problem.now.puzzle (surplus_at surplus.now) gap
        (newest decided.now.steps.items) option }
{
    if let Some(step) = decided.step_of(option) {
        return !step.taken;
    }
    if gap.saturating_sub(decided.spent()) <= surplus_of(surplus, option) {
        return true;
    }
    is_barred(decided, problem, bounds, option)
}

/// Whether an option holds an item.
#[inline(always)]
fn does_hold(problem: &Problem, option: u32, item: u32) -> bool
    ensures { result ≡ is_some (colour_in (uses_of problem.now.puzzle option) item) }
{
    colour_of(uses_at(problem, option), item).is_some()
}

/// Whether no cover as was decided has a surplus below the gap, since fewer than `low` options that hold an item are
/// left.
pub fn are_too_few(
    decided: &Decided,
    problem: &Problem,
    bounds: &[Bounds],
    surplus: &[u64],
    gap: u64,
    item: u32,
    low: u32,
) -> bool
    requires kept { HasItsTables problem.now.puzzle (surplus_at surplus.now) decided.now }
    requires bounds { bounds.now ≡ problem.now.puzzle.bounds }
    ensures { result ≡ true → (b : Bounds) → bounds_at problem.now.puzzle item ≡ Some b → low ≡ b.low
        → IsCut problem.now.puzzle (surplus_at surplus.now) gap (newest decided.now.steps.items) }
{
    let mut left: u32 = 0;
    for place in 0..problem.options() {
        let option = place + 1;
        if does_hold(problem, option, item)
            && !is_lost(decided, problem, bounds, surplus, gap, option)
        {
            if low <= left {
                return false;
            }
            left += 1;
        }
    }
    left < low
}

/// Whether an option was taken or is lost.
fn is_over(
    decided: &Decided,
    problem: &Problem,
    bounds: &[Bounds],
    surplus: &[u64],
    gap: u64,
    option: u32,
) -> bool
    requires kept { HasItsTables problem.now.puzzle (surplus_at surplus.now) decided.now }
    requires bounds { bounds.now ≡ problem.now.puzzle.bounds }
    ensures { result ≡ true → Contains (taken_of (newest decided.now.steps.items)) option
        ⊎ IsExcluded problem.now.puzzle (surplus_at surplus.now) gap (newest decided.now.steps.items) option }
{
    if let Some(step) = decided.step_of(option)
        && step.taken
    {
        return true;
    }
    is_lost(decided, problem, bounds, surplus, gap, option)
}

/// The first option that was not taken and isn't lost.
pub fn first_left(
    decided: &Decided,
    problem: &Problem,
    bounds: &[Bounds],
    surplus: &[u64],
    gap: u64,
) -> Option<u32>
    requires kept { HasItsTables problem.now.puzzle (surplus_at surplus.now) decided.now }
    requires bounds { bounds.now ≡ problem.now.puzzle.bounds }
    ensures { IfNone result ((o : ℕ) → IsOption problem.now.puzzle o
        → Contains (taken_of (newest decided.now.steps.items)) o
        ⊎ IsExcluded problem.now.puzzle (surplus_at surplus.now) gap (newest decided.now.steps.items) o) }
{
    for place in 0..problem.options() {
        if !is_over(decided, problem, bounds, surplus, gap, place + 1) {
            return Some(place + 1);
        }
    }
    None
}
