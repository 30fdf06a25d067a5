//! The cover that costs least: whether none costs less than a limit is asked until that is so of the best found.
ghost use Rattle.std.specs.Prelude.{ℕ, ◌≡◌, ◌<ℤ◌, ◌≤ℤ◌, List, IfOk, IfSome, IfNone};
ghost use Rattle.xc_input.specs.Cover.{IsCover};
ghost use Rattle.xc_least.specs.Least.{total_cost, IsLeast};

use crate::costing::cost_of;
use crate::errors::NotLeast;
use crate::floor::{Floor, floor_at};
use crate::priced::{Price, allowed, asked, less_two, surpluses_of};
use crate::prices::prices_of;
use std::alloc::Global;
use xc_check::is_cover;
use xc_input::{Bounds, Problem};

/// Is given covers as they are found.
pub trait Better {
    /// Takes note of a cover, by the numbers of its options, that costs less than each before it. Returns whether the
    /// search is to go on.
    fn better(&mut self, cost: i64, options: &[u32]) -> bool;
}

/// The limit of a round: each is twice as far from what covers cost at least as the one before.
fn limit_of(floor: i64, round: u32) -> i64 {
    let size = floor.unsigned_abs() / 256;
    let mut gap: u64 = if size > 1_000_000_000_000 {
        1_000_000_000_000
    } else {
        size + 1
    };
    for _ in 0..round {
        gap = gap.saturating_mul(2);
    }
    let gap = if gap > 1_000_000_000_000_000_000 {
        1_000_000_000_000_000_000
    } else {
        gap as i64
    };
    floor.saturating_add(gap)
}

/// The cover that costs least, from one to begin with.
fn improved<B: Better>(
    alloc: Global,
    problem: &Problem,
    costs: &[i64],
    bounds: &[Bounds],
    prices: &[Price],
    first: Vec<u32>,
    better: &mut B,
) -> Result<Vec<u32>, NotLeast>
    requires { bounds.now ≡ problem.now.puzzle.bounds }
    ensures { IfOk result (λ v. IsLeast problem.now.puzzle costs.now v.items) }
{
    let mut best = first;
    let mut left = u64::MAX;
    while left > 0 {
        left -= 1;
        if !is_cover(problem, best.as_slice()) {
            return Err(NotLeast::Lost);
        }
        let Some(cost) = cost_of(costs, best.as_slice()) else {
            return Err(NotLeast::TooLarge);
        };
        if !better.better(cost, best.as_slice()) {
            return Err(NotLeast::Stopped);
        }
        match floor_at(alloc, problem, costs, bounds, prices, cost)? {
            Floor::All => return Ok(best),
            Floor::Stopped(next) => best = next,
        }
    }
    Err(NotLeast::Lost)
}

/// What covers cost at least by these prices, or about that.
fn base_of(
    alloc: Global,
    problem: &Problem,
    costs: &[i64],
    bounds: &[Bounds],
    prices: &[Price],
) -> Result<i64, NotLeast> {
    let items = problem.items();
    let Some(asked) = asked(prices, bounds, items) else {
        return Err(NotLeast::TooLarge);
    };
    let Some(allowed) = allowed(prices, bounds, items) else {
        return Err(NotLeast::TooLarge);
    };
    let surpluses = surpluses_of(alloc, problem, costs, prices)?;
    let Some(less) = less_two(asked, allowed, surpluses.under) else {
        return Err(NotLeast::TooLarge);
    };
    Ok(less)
}

/// The cover that costs least, if one costs less than `below`, by these prices.
fn least_below<B: Better>(
    alloc: Global,
    problem: &Problem,
    costs: &[i64],
    bounds: &[Bounds],
    prices: &[Price],
    below: i64,
    better: &mut B,
) -> Result<Option<Vec<u32>>, NotLeast>
    requires { bounds.now ≡ problem.now.puzzle.bounds }
    ensures some { IfOk result (λ r. IfSome r (λ v. IsLeast problem.now.puzzle costs.now v.items)) }
    ensures none { IfOk result (λ r. IfNone r ((s : List ℕ) → IsCover problem.now.puzzle s
        → below ≤ℤ total_cost costs.now s)) }
{
    let base = base_of(alloc, problem, costs, bounds, prices)?;
    for round in 0..50 {
        let limit = limit_of(base, round);
        if below <= limit {
            break;
        }
        match floor_at(alloc, problem, costs, bounds, prices, limit)? {
            Floor::All => {}
            Floor::Stopped(first) => {
                let best = improved(alloc, problem, costs, bounds, prices, first, better)?;
                return Ok(Some(best));
            }
        }
    }
    match floor_at(alloc, problem, costs, bounds, prices, below)? {
        Floor::All => Ok(None),
        Floor::Stopped(first) => {
            let best = improved(alloc, problem, costs, bounds, prices, first, better)?;
            Ok(Some(best))
        }
    }
}

/// The options, by their numbers from 1, of a cover that costs less than `below` and than which no cover costs less.
/// `None` if each cover costs `below` or more. `costs` and `prices` are those of `do_all_cost`. Each cover that is
/// found and costs less than those before it is given to `better`.
///
/// The error is `TooLarge` or `Memory` as in `do_all_cost`, where `below` counts as a limit, `Stopped` if `better` ends
/// the search, and `Lost` if the search finds no cover where it was to find one, which is not known to happen.
///
/// The search branches and bounds, as Knuth's Algorithms X$ and C$ do (The Art of Computer Programming, volume 4B,
/// 7.2.2.1), by a Lagrangean bound of the prices (Held and Karp, Mathematical Programming 1, 1971).
pub fn least<B: Better>(
    alloc: Global,
    problem: &Problem,
    costs: &[i64],
    below: i64,
    prices: &[i64],
    better: &mut B,
) -> Result<Option<Vec<u32>>, NotLeast>
    ensures some { IfOk result (λ r. IfSome r (λ v. IsLeast problem.now.puzzle costs.now v.items
        × (total_cost costs.now v.items <ℤ below))) }
    ensures none { IfOk result (λ r. IfNone r ((s : List ℕ) → IsCover problem.now.puzzle s
        → below ≤ℤ total_cost costs.now s)) }
{
    let bounds = problem.primary_bounds(alloc)?;
    let bounds = bounds.as_slice();
    let prices = prices_of(alloc, problem, costs, bounds, prices)?;
    let found = least_below(
        alloc,
        problem,
        costs,
        bounds,
        prices.as_slice(),
        below,
        better,
    )?;
    let Some(best) = found else {
        return Ok(None);
    };
    let Some(cost) = cost_of(costs, best.as_slice()) else {
        return Err(NotLeast::TooLarge);
    };
    if below <= cost {
        return Err(NotLeast::Lost);
    }
    Ok(Some(best))
}
