//! Prices of items, and what options cost beyond the prices of their items.
ghost use Rattle.std.specs.Prelude.{ℕ, ℤ, pos, ◌+ℤ◌, ◌≤ℤ◌, ◌≡◌, ◌≤◌, ◌+◌, cond, is_some, sum_by, length, IfOk, IfSome};
ghost use Rattle.std.specs.Prelude.{List};
ghost use Rattle.xc_input.specs.Problem.{item_count, option_count};
ghost use Rattle.xc_least.specs.inner.Regions.{surplus_at};
ghost use Rattle.xc_least.specs.inner.Prices.{part_above, taken_at_most, given_at_least, part_below, given_by_item};
ghost use Rattle.xc_least.specs.inner.Prices.{has_no_colour};
ghost use Rattle.xc_least.specs.inner.Prices.{bounds_or_once, over_at, over_of};
ghost use Rattle.xc_least.specs.inner.Prices.{price_of, taken_by_item, under_at, under_of, up_to};

use crate::costing::cost_at;
use crate::decided::uses_at;
use crate::errors::NotLeast;
use crate::lost::colour_of;
use std::alloc::Global;
use xc_input::{Bounds, Problem, Use};

/// What an item gives to options that hold it, and what it takes from them.
#[derive(Clone, Copy)]
pub struct Price {
    pub give: u64,
    pub take: u64,
}

/// What an option costs beyond its items' prices, and what it costs less.
#[derive(Clone, Copy)]
pub struct Sides {
    pub over: u64,
    pub under: u64,
}

/// The surplus of each option in file order, and what all options cost less than their items' prices.
#[derive(Drop)]
pub struct Surpluses {
    pub over: Vec<u64>,
    pub under: u64,
}

/// The price of an item.
fn price_at(prices: &[Price], item: u32) -> Price
    ensures { result ≡ price_of prices.now item }
{
    let place = item.saturating_sub(1) as usize;
    if place < prices.len() {
        prices[place]
    } else {
        Price { give: 0, take: 0 }
    }
}

/// The bounds of an item, or from 0 to 1 if it has none.
fn bounds_or_once(bounds: &[Bounds], item: u32) -> Bounds
    ensures { result ≡ bounds_or_once bounds.now item }
{
    let place = item.saturating_sub(1) as usize;
    if place < bounds.len() {
        bounds[place]
    } else {
        Bounds { low: 0, high: 1 }
    }
}

/// What an item gives to a use.
fn given_by(give: u64, colour: Option<u32>) -> u64
    ensures { result ≡ cond (is_some colour) give 0 }
{
    match colour {
        Some(_) => give,
        None => 0,
    }
}

/// What an item takes from a use.
fn taken_by(take: u64, colour: Option<u32>) -> u64
    ensures { result ≡ cond (has_no_colour colour) take 0 }
{
    match colour {
        Some(colour) => { if colour == 0 { take } else { 0 } }
        None => 0,
    }
}

/// A cost in two parts, of which one is 0.
fn parts_of(cost: i64) -> Sides
    ensures over { result.over ≡ part_above cost }
    ensures under { result.under ≡ part_below cost }
{
    if cost < 0 {
        Sides {
            over: 0,
            under: cost.unsigned_abs(),
        }
    } else {
        Sides {
            over: cost.unsigned_abs(),
            under: 0,
        }
    }
}

/// What an option costs beyond its items' prices, and what it costs less, if the sums are within 64 bits.
fn sides_of(prices: &[Price], items: u32, cost: i64, uses: &[Use]) -> Option<Sides>
    ensures over { IfSome result (λ x. x.over ≡ over_of prices.now items cost uses.now) }
    ensures under { IfSome result (λ x. x.under ≡ under_of prices.now items cost uses.now) }
{
    let mut give: u64 = 0;
    let mut take: u64 = 0;
    let mut item: u32 = 0;
    while item < items {
        item += 1;
        let price = price_at(prices, item);
        let colour = colour_of(uses, item);
        give = give.checked_add(given_by(price.give, colour))?;
        take = take.checked_add(taken_by(price.take, colour))?;
    }
    let parts = parts_of(cost);
    let more = parts.over.checked_add(take)?;
    let less = parts.under.checked_add(give)?;
    Some(Sides {
        over: more.saturating_sub(less),
        under: less.saturating_sub(more),
    })
}

/// What the items of a cover are given at least.
pub fn asked(prices: &[Price], bounds: &[Bounds], items: u32) -> Option<u64>
    ensures { IfSome result (λ r. r ≡ sum_by (given_at_least prices.now bounds.now) (up_to items)) }
{
    let mut sum: u64 = 0;
    let mut item: u32 = 0;
    while item < items {
        item += 1;
        let low = u64::from(bounds_or_once(bounds, item).low);
        sum = sum.checked_add(price_at(prices, item).give.checked_mul(low)?)?;
    }
    Some(sum)
}

/// What the items of a cover take at most.
pub fn allowed(prices: &[Price], bounds: &[Bounds], items: u32) -> Option<u64>
    ensures { IfSome result (λ r. r ≡ sum_by (taken_at_most prices.now bounds.now) (up_to items)) }
{
    let mut sum: u64 = 0;
    let mut item: u32 = 0;
    while item < items {
        item += 1;
        let high = u64::from(bounds_or_once(bounds, item).high);
        sum = sum.checked_add(price_at(prices, item).take.checked_mul(high)?)?;
    }
    Some(sum)
}

/// The surpluses of all options.
pub fn surpluses_of(
    alloc: Global,
    problem: &Problem,
    costs: &[i64],
    prices: &[Price],
) -> Result<Surpluses, NotLeast>
    ensures over { IfOk result (λ x. (o : ℕ) → 1 ≤ o → o ≤ option_count problem.now.puzzle
        → surplus_at x.over.items o ≡ over_at problem.now.puzzle costs.now prices.now o) }
    ensures under { IfOk result (λ x. x.under
        ≡ sum_by (under_at problem.now.puzzle costs.now prices.now) (up_to (option_count problem.now.puzzle))) }
{
    let mut over = Vec::new(alloc);
    let mut under: u64 = 0;
    let items = problem.items();
    let options = problem.options();
    let mut option: u32 = 0;
    while option < options {
        option += 1;
        let cost = cost_at(costs, option);
        let Some(sides) = sides_of(prices, items, cost, uses_at(problem, option)) else {
            return Err(NotLeast::TooLarge);
        };
        over.push(sides.over)?;
        let Some(sum) = under.checked_add(sides.under) else {
            return Err(NotLeast::TooLarge);
        };
        under = sum;
    }
    Ok(Surpluses { over, under })
}

/// A surplus that each cover below the limit stays below, if the sums are within 64 bits.
pub fn gap_of(limit: i64, asked: u64, allowed: u64, under: u64) -> Option<u64>
    ensures { IfSome result (λ gap. (limit +ℤ pos allowed +ℤ pos under) ≤ℤ (pos asked +ℤ pos gap)) }
{
    let Ok(asked) = i64::try_from(asked) else {
        return None;
    };
    let Ok(allowed) = i64::try_from(allowed) else {
        return None;
    };
    let Ok(under) = i64::try_from(under) else {
        return None;
    };
    let more = limit.checked_add(allowed)?.checked_add(under)?;
    let gap = more.checked_sub(asked)?;
    if gap < 0 {
        return Some(0);
    }
    Some(gap.unsigned_abs())
}

/// What is left of a number once two are taken off, if all are within 63 bits.
pub fn less_two(a: u64, b: u64, c: u64) -> Option<i64> {
    let Ok(a) = i64::try_from(a) else {
        return None;
    };
    let Ok(b) = i64::try_from(b) else {
        return None;
    };
    let Ok(c) = i64::try_from(c) else {
        return None;
    };
    a.checked_sub(b)?.checked_sub(c)
}
