//! Prices of items that make the surpluses of options small, by steps along a subgradient (Held and Karp, The
//! traveling-salesman problem and minimum spanning trees, part II, Mathematical Programming 1, 1971). Any prices are
//! sound: nothing rests on these but how long a search takes.
use crate::decided::uses_at;
use crate::priced::Price;
use std::alloc::{AllocError, Global};
use std::num::{nearest_i64_to_f64, saturating_f64_to_i64};
use xc_input::{Bounds, Problem, Use};

/// How many steps are made.
const STEPS: u32 = 400;

/// The number at a place, 0 past the end.
#[inline(always)]
fn at(numbers: &[f64], place: usize) -> f64 {
    if place < numbers.len() {
        numbers[place]
    } else {
        0.0
    }
}

/// Sets the number at a place, if there is one.
#[inline(always)]
fn put(numbers: &mut Vec<f64>, place: usize, number: f64) {
    if place < numbers.len() {
        numbers[place] = number;
    }
}

/// So many zeros.
fn zeros(alloc: Global, many: usize) -> Result<Vec<f64>, AllocError> {
    let mut numbers = Vec::new(alloc);
    for _ in 0..many {
        numbers.push(0.0)?;
    }
    Ok(numbers)
}

/// What an option costs beyond the prices of its items.
fn beyond(prices: &[f64], cost: f64, uses: &[Use]) -> f64 {
    let mut left = cost;
    for u in uses {
        left -= at(prices, u.item as usize);
    }
    left
}

/// How often an item is held at least, and at most.
fn limits(bounds: &[Bounds], item: u32) -> (f64, f64) {
    let place = item.saturating_sub(1) as usize;
    if place < bounds.len() {
        let b = bounds[place];
        return (f64::from(b.low), f64::from(b.high));
    }
    (0.0, 1.0)
}

/// What each cover costs at least by these prices. `used` is how often the options that have too little hold each item.
fn value(
    problem: &Problem,
    costs: &[i64],
    bounds: &[Bounds],
    prices: &[f64],
    used: &mut Vec<f64>,
) -> f64 {
    let items = problem.items();
    for item in 0..items {
        put(used, item as usize + 1, 0.0);
    }
    let mut sum = 0.0;
    let mut option: u32 = 0;
    for cost in costs {
        option = option.saturating_add(1);
        let uses = uses_at(problem, option);
        let left = beyond(prices, nearest_i64_to_f64(*cost), uses);
        if left < 0.0 {
            sum += left;
            for u in uses {
                let item = u.item as usize;
                let more = at(used.as_slice(), item) + 1.0;
                put(used, item, more);
            }
        }
    }
    for place in 0..items {
        let item = place + 1;
        let price = at(prices, item as usize);
        let (low, high) = limits(bounds, item);
        sum += if price > 0.0 {
            price * low
        } else {
            price * high
        };
    }
    sum
}

/// Which items may have prices: those that no option holds for a colour.
fn are_free(alloc: Global, problem: &Problem) -> Result<Vec<f64>, AllocError> {
    let mut free = Vec::new(alloc);
    for _ in 0..problem.items() as usize + 1 {
        free.push(1.0)?;
    }
    for place in 0..problem.options() {
        for u in uses_at(problem, place + 1) {
            if u.colour > 0 {
                put(&mut free, u.item as usize, 0.0);
            }
        }
    }
    Ok(free)
}

/// The way that the prices are to go: how often each item should be held more often. Returns the square of its length.
fn direction(
    bounds: &[Bounds],
    free: &[f64],
    prices: &[f64],
    used: &[f64],
    items: u32,
    way: &mut Vec<f64>,
) -> f64 {
    let mut length = 0.0;
    for place in 0..items {
        let item = place as usize + 1;
        let (low, high) = limits(bounds, place + 1);
        let price = at(prices, item);
        let held = at(used, item);
        let want = if price > 0.0 {
            low
        } else if price < 0.0 || high < held {
            high
        } else if held < low {
            low
        } else {
            held
        };
        let mut more = want - held;
        if at(free, item) < 0.5 || (bounds.len() < item && price >= 0.0 && more > 0.0) {
            more = 0.0;
        }
        put(way, item, more);
        length += more * more;
    }
    length
}

/// Copies numbers.
fn copy(to: &mut Vec<f64>, from: &[f64]) {
    let mut place: usize = 0;
    for number in from {
        put(to, place, *number);
        place = place.saturating_add(1);
    }
}

/// A number without its sign.
fn size(number: f64) -> f64 {
    if number < 0.0 { -number } else { number }
}

/// The prices after all steps.
fn found(
    alloc: Global,
    problem: &Problem,
    costs: &[i64],
    bounds: &[Bounds],
) -> Result<Vec<f64>, AllocError> {
    let items = problem.items();
    let many = items as usize + 1;
    let mut prices = zeros(alloc, many)?;
    let mut best = zeros(alloc, many)?;
    let mut used = zeros(alloc, many)?;
    let mut way = zeros(alloc, many)?;
    let free = are_free(alloc, problem)?;
    let mut top = -1.0e300;
    let mut step = 1.0;
    let mut stale: u32 = 0;
    for _ in 0..STEPS {
        let now = value(problem, costs, bounds, prices.as_slice(), &mut used);
        if now > top + 1.0e-9 {
            top = now;
            copy(&mut best, prices.as_slice());
            stale = 0;
        } else {
            stale = stale.saturating_add(1);
            if stale >= 15 {
                step *= 0.7;
                stale = 0;
                copy(&mut prices, best.as_slice());
            }
        }
        let length = direction(
            bounds,
            free.as_slice(),
            prices.as_slice(),
            used.as_slice(),
            items,
            &mut way,
        );
        if length <= 0.0 || step < 1.0e-4 {
            break;
        }
        let wide = if size(top) > 1.0 { size(top) } else { 1.0 };
        let target = top + wide * 0.05;
        let least = 0.02 * size(target) + 0.1;
        let ahead = if target - now > least {
            target - now
        } else {
            least
        };
        let by = step * ahead / length;
        for place in 0..items {
            let item = place as usize + 1;
            let next = at(prices.as_slice(), item) + by * at(way.as_slice(), item);
            put(&mut prices, item, next);
        }
    }
    Ok(best)
}

/// A price in two parts. A secondary item has none above 0.
fn price(parts: i64, is_primary: bool) -> Price {
    if parts < 0 {
        return Price {
            give: 0,
            take: parts.unsigned_abs(),
        };
    }
    Price {
        give: if is_primary { parts.unsigned_abs() } else { 0 },
        take: 0,
    }
}

/// A price of each item: those that were given, if there are any.
pub fn prices_of(
    alloc: Global,
    problem: &Problem,
    costs: &[i64],
    bounds: &[Bounds],
    given: &[i64],
) -> Result<Vec<Price>, AllocError> {
    let mut prices = Vec::new(alloc);
    if given.is_empty() {
        let found = found(alloc, problem, costs, bounds)?;
        for item in 0..problem.items() as usize {
            let parts = saturating_f64_to_i64(at(found.as_slice(), item + 1));
            prices.push(price(parts, item < bounds.len()))?;
        }
    } else {
        for item in 0..problem.items() as usize {
            let parts = match given.get(item) {
                Some(parts) => *parts,
                None => 0,
            };
            prices.push(price(parts, item < bounds.len()))?;
        }
    }
    Ok(prices)
}
