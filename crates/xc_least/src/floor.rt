//! Whether no cover has a surplus below a gap, or costs less than a limit; and what was taken where there may be one.
ghost use Rattle.std.specs.Prelude.{ℕ, ◌≡◌, ◌≤◌, ◌≤ℤ◌, ◌⊎◌, true, List, IfOk, sum_by};
ghost use Rattle.xc_least.specs.Least.{total_cost, IsLeast};
ghost use Rattle.xc_least.specs.declared.floor.Floor.TheVariants.{All};
ghost use Rattle.xc_input.specs.Cover.{IsCover};
ghost use Rattle.xc_least.specs.inner.Regions.{surplus_at};

use crate::costing::{cost_of, is_dear};
use crate::decided::Decided;
use crate::errors::NotLeast;
use crate::lists::lists_of;
use crate::priced::{Price, allowed, asked, gap_of, surpluses_of};
use crate::prices::prices_of;
use crate::search::{Next, look};
use crate::steps::Step;
use std::alloc::{AllocError, Global};
use xc_check::is_cover;
use xc_input::{Bounds, Problem};

/// What a search for cheap covers came to.
#[derive(Drop)]
pub enum Floor {
    /// There is none below the limit.
    All,
    /// These options were taken when it stopped, which may be one.
    Stopped(Vec<u32>),
}

/// The options that were taken.
fn taken_options(alloc: Global, steps: &[Step]) -> Result<Vec<u32>, AllocError> {
    let mut options = Vec::new(alloc);
    for step in steps {
        if step.taken {
            options.push(step.option)?;
        }
    }
    Ok(options)
}

/// Whether each cover has a surplus of at least the gap, or costs at least the limit. `lists` has options of each
/// primary item, in the order of their surpluses; nothing rests on these but how long it takes.
fn has_floor(
    alloc: Global,
    problem: &Problem,
    costs: &[i64],
    bounds: &[Bounds],
    surplus: &[u64],
    lists: &[Vec<u32>],
    gap: u64,
    limit: i64,
) -> Result<Floor, AllocError>
    requires { bounds.now ≡ problem.now.puzzle.bounds }
    ensures { IfOk result (λ b. b ≡ All → (s : List ℕ) → IsCover problem.now.puzzle s
        → (gap ≤ sum_by (surplus_at surplus.now) s) ⊎ (limit ≤ℤ total_cost costs.now s)) }
{
    let mut decided = Decided::new(alloc, problem)?;
    let mut left = u64::MAX;
    while left > 0 {
        left -= 1;
        match look(&decided, problem, bounds, surplus, lists, gap) {
            Next::Take(option) => decided.take(problem, surplus, option)?,
            Next::Cut => {
                if !decided.turn(problem, surplus)? {
                    return Ok(Floor::All);
                }
            }
            Next::Leaf => {
                if !is_dear(costs, decided.steps.as_slice(), limit) {
                    let options = taken_options(alloc, decided.steps.as_slice())?;
                    return Ok(Floor::Stopped(options));
                }
                if !decided.turn(problem, surplus)? {
                    return Ok(Floor::All);
                }
            }
        }
    }
    let options = taken_options(alloc, decided.steps.as_slice())?;
    Ok(Floor::Stopped(options))
}

/// Whether each cover costs at least the limit, by these prices.
pub fn floor_at(
    alloc: Global,
    problem: &Problem,
    costs: &[i64],
    bounds: &[Bounds],
    prices: &[Price],
    limit: i64,
) -> Result<Floor, NotLeast>
    requires { bounds.now ≡ problem.now.puzzle.bounds }
    ensures { IfOk result (λ b. b ≡ All → (s : List ℕ) → IsCover problem.now.puzzle s
        → limit ≤ℤ total_cost costs.now s) }
{
    let items = problem.items();
    let Some(asked) = asked(prices, bounds, items) else {
        return Err(NotLeast::TooLarge);
    };
    let Some(allowed) = allowed(prices, bounds, items) else {
        return Err(NotLeast::TooLarge);
    };
    let surpluses = surpluses_of(alloc, problem, costs, prices)?;
    let Some(gap) = gap_of(limit, asked, allowed, surpluses.under) else {
        return Err(NotLeast::TooLarge);
    };
    let surplus = surpluses.over.as_slice();
    let lists = lists_of(alloc, problem, surplus)?;
    let floor = has_floor(
        alloc,
        problem,
        costs,
        bounds,
        surplus,
        lists.as_slice(),
        gap,
        limit,
    )?;
    Ok(floor)
}

/// Whether each cover costs at least `limit`: it does if this returns `true`. `false` says nothing, since the search
/// stops where a cover may cost less.
///
/// `costs` has the cost of each option in file order, a whole number of any sign, and `prices` a price of each item in
/// the order of their numbers, in the same unit. What is missing counts as 0, and what is too many as absent. Where
/// `prices` is empty, prices are found. Any prices are sound, and good ones make the search fast.
///
/// The error is `TooLarge` if a sum of costs, prices times bounds and the limit isn't within 64 bits with a sign, and
/// `Memory` if there is too little memory.
pub fn do_all_cost(
    alloc: Global,
    problem: &Problem,
    costs: &[i64],
    limit: i64,
    prices: &[i64],
) -> Result<bool, NotLeast>
    ensures { IfOk result (λ b. b ≡ true → (s : List ℕ) → IsCover problem.now.puzzle s
        → limit ≤ℤ total_cost costs.now s) }
{
    let bounds = problem.primary_bounds(alloc)?;
    let prices = prices_of(alloc, problem, costs, bounds.as_slice(), prices)?;
    match floor_at(
        alloc,
        problem,
        costs,
        bounds.as_slice(),
        prices.as_slice(),
        limit,
    )? {
        Floor::All => Ok(true),
        Floor::Stopped(_) => Ok(false),
    }
}

/// Whether options, by their numbers from 1, are a cover than which no cover costs less: they are if this returns
/// `true`. `false` says nothing of a cover. `costs`, `prices` and errors are those of `do_all_cost`.
pub fn is_least(
    alloc: Global,
    problem: &Problem,
    costs: &[i64],
    options: &[u32],
    prices: &[i64],
) -> Result<bool, NotLeast>
    ensures { IfOk result (λ b. b ≡ true → IsLeast problem.now.puzzle costs.now options.now) }
{
    if !is_cover(problem, options) {
        return Ok(false);
    }
    let Some(cost) = cost_of(costs, options) else {
        return Err(NotLeast::TooLarge);
    };
    do_all_cost(alloc, problem, costs, cost, prices)
}
