//! A narrow order of the primary items, found from the problem alone.
//!
//! A sweep keeps a state for each way in which the items between those that are over and those that no option has come
//! to may be held. So an order is good in which these are few at each place. From some items on, it takes next the item
//! whose options reach the fewest new ones, and of several the one that was near the longest. Of the orders that come
//! so, and that of the file, it takes the one with the least sum, over its places, of 2 to the number of open items.

mod near;
mod queue;
mod reach;
mod values;

use crate::errors::CountError;
use crate::narrow::near::{near_steps, neighbours};
use crate::narrow::reach::Reach;
use std::alloc::Global;
pub use values::list_of;
use xc_input::Problem;

/// How many steps orders may take in all: about a tenth of a second.
const MOST_STEPS: u64 = 30_000_000;
/// From how many items on orders are tried.
const STARTS: u32 = 12;

/// How many steps an order takes for each near item, with those of the queue, about.
const ORDER_STEPS: u64 = 16;

/// The work of a step, in about nanoseconds.
const STEP_WORK: u64 = 3;

/// How much work it may be to find an order of a problem's items, about.
pub fn narrow_work(problem: &Problem) -> u64 {
    let near = near_steps(problem);
    if near > MOST_STEPS {
        return 0;
    }
    let primary = u64::from(problem.primary());
    let each = near.min(primary.saturating_mul(primary)) * ORDER_STEPS;
    near.saturating_add(each.saturating_mul(u64::from(STARTS) + 1))
        .min(MOST_STEPS)
        * STEP_WORK
}

/// The order of the file, as far as so many steps go.
fn file_order(
    alloc: Global,
    problem: &Problem,
    holders: &[Vec<u32>],
    near: &[Vec<u32>],
) -> Result<Reach, CountError> {
    let mut reach = Reach::new(alloc, problem, holders, near)?;
    for i in 0..problem.primary() {
        reach.take(problem, holders, near, i + 1)?;
        if reach.steps > MOST_STEPS {
            break;
        }
    }
    Ok(reach)
}

/// The order from an item on, as far as it costs less than another one and so many steps go.
fn order_from(
    alloc: Global,
    problem: &Problem,
    holders: &[Vec<u32>],
    near: &[Vec<u32>],
    start: u32,
    other: &Reach,
    most: u64,
) -> Result<Reach, CountError> {
    let mut reach = Reach::new(alloc, problem, holders, near)?;
    let mut item = start;
    for _ in 0..problem.primary() {
        reach.take(problem, holders, near, item)?;
        if reach.cost >= other.cost || reach.steps > most {
            break;
        }
        match reach.next(problem.primary())? {
            Some(next) => item = next,
            None => break,
        }
    }
    Ok(reach)
}

/// The item of this number among so many that are spread over the primary items.
fn start(primary: u32, number: u32, many: u32) -> u32 {
    let place = u64::from(number) * u64::from(primary) / u64::from(many.max(1));
    u32::try_from(place).unwrap_or(0).saturating_add(1)
}

/// Whether an order has each primary item, and costs less than another one.
fn is_better(problem: &Problem, found: &Reach, other: &Reach) -> bool {
    found.order.len() == problem.primary() as usize && found.cost < other.cost
}

/// A narrow order of the primary items; none, or a part of one, where it would take too many steps.
///
/// # Errors
/// `OutOfBound` where the lists of near items would take more than `room` bytes.
pub fn narrow_order(
    alloc: Global,
    problem: &Problem,
    holders: &[Vec<u32>],
    room: usize,
) -> Result<Vec<u32>, CountError> {
    if near_steps(problem) > MOST_STEPS {
        return Ok(Vec::new(alloc));
    }
    let near = neighbours(alloc, problem, holders, room)?;
    let near = near.as_slice();
    let mut best = file_order(alloc, problem, holders, near)?;
    let mut left = MOST_STEPS.saturating_sub(best.steps);
    let starts = STARTS.min(problem.primary());
    for number in 0..starts {
        if left == 0 {
            break;
        }
        let item = start(problem.primary(), number, starts);
        let found = order_from(alloc, problem, holders, near, item, &best, left)?;
        left = left.saturating_sub(found.steps);
        if is_better(problem, &found, &best) {
            best = found;
        }
    }
    Ok(best.order)
}
