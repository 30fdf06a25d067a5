//! Which items are near each other: those that share an option.

use crate::errors::CountError;
use crate::narrow::values::{list_of, set_value, value_at};
use crate::order::filled;
use std::alloc::Global;
use xc_input::{Problem, Use};

/// Adds to a list the items of these uses that were not noted for an item yet.
fn list_new(
    list: &mut Vec<u32>,
    noted: &mut Vec<u32>,
    uses: &[Use],
    item: u32,
) -> Result<(), CountError> {
    for u in uses {
        if value_at(noted.as_slice(), u.item) != item {
            set_value(noted, u.item, item);
            list.push(u.item)?;
        }
    }
    Ok(())
}

/// The uses of an option.
pub fn uses_of(problem: &Problem, option: u32) -> &[Use] {
    match problem.get_option(option) {
        Some(uses) => uses,
        None => &[],
    }
}

/// How many steps it takes to find the items that share an option with each.
pub fn near_steps(problem: &Problem) -> u64 {
    let mut steps: u64 = 0;
    for o in 0..problem.options() {
        let uses = problem.option(o + 1).len() as u64;
        steps = steps.saturating_add(uses.saturating_mul(uses));
    }
    steps
}

/// How many bytes a list takes at most, and how many each item in it: itself, room for more, and a place in the queue.
const LIST_BYTES: usize = 48;

const NEAR_BYTES: usize = 20;

/// The items that share an option with each, where these lists take no more than so many bytes.
pub fn neighbours(
    alloc: Global,
    problem: &Problem,
    holders: &[Vec<u32>],
    room: usize,
) -> Result<Vec<Vec<u32>>, CountError> {
    let mut near = Vec::new(alloc);
    let mut noted = filled(alloc, problem.items() as usize, 0)?;
    let mut left = room;
    for i in 0..problem.items() {
        let mut list = Vec::new(alloc);
        for option in list_of(holders, i + 1) {
            list_new(&mut list, &mut noted, uses_of(problem, *option), i + 1)?;
        }
        let bytes = NEAR_BYTES
            .saturating_mul(list.len())
            .saturating_add(LIST_BYTES);
        left = left.checked_sub(bytes).ok_or(CountError::OutOfBound)?;
        near.push(list)?;
    }
    Ok(near)
}
