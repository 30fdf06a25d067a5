//! Orders of the primary items.

ghost use Rattle.std.specs.Prelude.{ℕ, ◌≡◌, ◌<◌, ◌≤◌, ◌-◌, [], length, All, Contains, IfOk, OnOk};
ghost use Rattle.xc_input.specs.Problem.{IsPrimary, primary_count};
ghost use Rattle.xc_count.specs.inner.ByOption.{AreOnce};
ghost use Rattle.xc_count.specs.inner.Plans.{IsOrder};

use crate::errors::CountError;
use std::alloc::Global;
use xc_input::{Problem, Use};

/// So many times a value.
pub fn filled(alloc: Global, many: usize, value: u32) -> Result<Vec<u32>, CountError>
    ensures len { IfOk result (λ v. length v.items ≡ many) }
    ensures each { IfOk result (λ v. All (λ x. x ≡ value) v.items) }
{
    let mut values = Vec::with_capacity(alloc, many)?;
    for _ in 0..many {
        values.push(value)?;
    }
    Ok(values)
}

/// Adds an item or an option, unless it was added before.
pub fn push_once(order: &mut Vec<u32>, seen: &mut Vec<u32>, number: u32) -> Result<(), CountError>
    requires number { (1 ≤ number) × (number ≤ length seen.old.items) }
    requires once { AreOnce order.old.items seen.old.items }
    ensures once { OnOk result (AreOnce order.new.items seen.new.items) }
    ensures len { length seen.new.items ≡ length seen.old.items }
    ensures here { OnOk result (Contains order.new.items number) }
    ensures kept { OnOk result ((n : ℕ) → Contains order.old.items n → Contains order.new.items n) }
{
    let place = number as usize - 1;
    if seen[place] == 0 {
        order.push(number)?;
        seen[place] = 1;
    }
    Ok(())
}

/// An order of all primary items: first those that were found.
pub fn whole_order(alloc: Global, problem: &Problem, found: &[u32]) -> Result<Vec<u32>, CountError>
    ensures { IfOk result (λ order. IsOrder problem.now.puzzle order.items) }
{
    let mut order = Vec::new(alloc);
    let mut seen = filled(alloc, problem.primary() as usize, 0)?;
    for item in found {
        if *item > 0 && *item <= problem.primary() {
            push_once(&mut order, &mut seen, *item)?;
        }
    }
    for i in 0..problem.primary() {
        push_once(&mut order, &mut seen, i + 1)?;
    }
    Ok(order)
}

/// The place of each of so many items in an order.
pub fn places(alloc: Global, many: u32, order: &[u32]) -> Result<Vec<u32>, CountError> {
    let mut places = filled(alloc, many as usize, u32::MAX)?;
    let mut place: u32 = 0;
    for item in order {
        if let Some(found) = places.get_mut((*item as usize).wrapping_sub(1)) {
            *found = place;
        }
        place = place.saturating_add(1);
    }
    Ok(places)
}

/// The least place of the items of these uses.
fn first_place(places: &[u32], uses: &[Use]) -> u32 {
    let mut first = u32::MAX;
    for u in uses {
        if let Some(place) = places.get((u.item as usize).wrapping_sub(1)) {
            first = first.min(*place);
        }
    }
    first
}

/// Notes for each item of these uses the last of these places.
fn note_last(last: &mut Vec<u32>, uses: &[Use], place: u32) {
    for u in uses {
        if let Some(found) = last.get_mut((u.item as usize).wrapping_sub(1)) {
            *found = (*found).max(place);
        }
    }
}

/// The place for each item after which no option can hold it: its own if it is primary.
pub fn ends(alloc: Global, problem: &Problem, places: &[u32]) -> Result<Vec<u32>, CountError> {
    let mut last = filled(alloc, problem.items() as usize, 0)?;
    for o in 0..problem.options() {
        let uses = problem.option(o + 1);
        note_last(&mut last, uses, first_place(places, uses));
    }
    for i in 0..problem.primary() {
        if let Some(place) = places.get(i as usize) {
            if let Some(found) = last.get_mut(i as usize) {
                *found = *place;
            }
        }
    }
    Ok(last)
}
