//! The order of the options, and how many options from a place of it on hold each item.

ghost use Rattle.std.specs.Prelude.{ℕ, ◌≡◌, ◌≢◌, ◌+◌, ◌-◌, ◌<◌, ◌≤◌, length, is_some, All, AllPairs};
ghost use Rattle.std.specs.Prelude.{IfOk, OnOk, slice_index, if◌then◌else◌};
ghost use Rattle.xc_input.specs.Problem.{IsOption, colour_in, item_count};
ghost use Rattle.xc_count.specs.inner.ByOption.{AreOnce, AtMost, IsEachOnce};
ghost use Rattle.xc_count.specs.inner.Plans.{IsPlan};

use crate::errors::CountError;
use crate::order::{filled, push_once};
use crate::plan::Plan;
use std::alloc::Global;
use xc_input::{Problem, Use};

/// Adds options, unless they were added before.
fn push_each(order: &mut Vec<u32>, seen: &mut Vec<u32>, options: &[u32]) -> Result<(), CountError>
    requires options { All (λ o. (1 ≤ o) × (o ≤ length seen.old.items)) options.now }
    requires once { AreOnce order.old.items seen.old.items }
    ensures once { OnOk result (AreOnce order.new.items seen.new.items) }
    ensures len { length seen.new.items ≡ length seen.old.items }
{
    for o in options {
        push_once(order, seen, *o)?;
    }
    Ok(())
}

/// All options: first those of the first item of the plan's order, then those of the next.
pub fn options_in_order(
    alloc: Global,
    problem: &Problem,
    plan: &Plan,
) -> Result<Vec<u32>, CountError>
    requires { IsPlan problem.now.puzzle plan.now }
    ensures { IfOk result (λ order. IsEachOnce problem.now.puzzle order.items) }
{
    let mut order = Vec::new(alloc);
    let mut seen = filled(alloc, problem.options() as usize, 0)?;
    for item in &plan.order {
        push_each(&mut order, &mut seen, plan.options_of(*item))?;
    }
    for o in 0..problem.options() {
        push_once(&mut order, &mut seen, o + 1)?;
    }
    Ok(order)
}

/// One more for each item of these uses.
fn add_uses(left: &mut Vec<u32>, uses: &[Use]) -> Result<(), CountError>
    requires { All (λ u. u.item < length left.old.items) uses.now }
    ensures len { length left.new.items ≡ length left.old.items }
    ensures more { OnOk result ((i : ℕ) → (if is_some (colour_in uses.now i) then 1 else 0)
        + slice_index left.old.items i ≤ slice_index left.new.items i) }
{
    for u in uses {
        let item = u.item as usize;
        left[item] = left[item].checked_add(1).ok_or(CountError::OutOfBound)?;
    }
    Ok(())
}

/// One less for each item of these uses.
pub fn remove_uses(left: &mut Vec<u32>, uses: &[Use])
    requires uses { All (λ u. u.item < length left.old.items) uses.now }
    requires distinct { AllPairs (λ u v. u.item ≢ v.item) uses.now }
    ensures len { length left.new.items ≡ length left.old.items }
    ensures less { (i : ℕ) → slice_index left.new.items i
        ≡ slice_index left.old.items i - (if is_some (colour_in uses.now i) then 1 else 0) }
{
    for u in uses {
        let item = u.item as usize;
        left[item] = left[item].saturating_sub(1);
    }
}

/// How many of these options hold each item: that for item `i` is at place `i`.
pub fn holders_left(alloc: Global, problem: &Problem, order: &[u32]) -> Result<Vec<u32>, CountError>
    requires { All (IsOption problem.now.puzzle) order.now }
    ensures len { IfOk result (λ left. length left.items ≡ item_count problem.now.puzzle + 1) }
    ensures left { IfOk result (λ left. AtMost problem.now.puzzle order.now left.items) }
{
    let mut left = filled(alloc, problem.items() as usize + 1, 0)?;
    let mut place = order.len();
    while place > 0 {
        place -= 1;
        add_uses(&mut left, problem.option(order[place]))?;
    }
    Ok(left)
}
