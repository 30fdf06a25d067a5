//! How a plan is made for a problem, and the steps of one.

ghost use Rattle.std.specs.Prelude.{ℕ, ◌≡◌, ◌<◌, ◌≤◌, ◌-◌, length, take, true, All, Contains, IfOk, is_some};
ghost use Rattle.xc_input.specs.Problem.{Puzzle, IsItem, IsOption, IsPrimary, colour_in, primary_count};
ghost use Rattle.xc_count.specs.inner.Keys.{rank_of};
ghost use Rattle.xc_count.specs.inner.Plans.{AreWindows, HoldsPast, IsOver, IsPlan, IsStep, options_with};

use crate::errors::CountError;
use crate::holders::options_by_item;
use crate::narrow::{list_of, narrow_order, narrow_work};
use crate::order::{ends, places, whole_order};
use crate::plan::{Plan, Step};
use crate::ranking::rank_items;
use std::alloc::Global;
use xc_input::{Problem, Use};

/// The items in the order in which no option can hold them any more.
fn items_by_end(alloc: Global, ends: &[u32]) -> Result<Vec<u32>, CountError> {
    let mut pairs: Vec<(u32, u32)> = Vec::new(alloc);
    let mut item: u32 = 0;
    for end in ends {
        item = item.saturating_add(1);
        pairs.push((*end, item))?;
    }
    pairs.sort()?;
    let mut items = Vec::new(alloc);
    for pair in &pairs {
        items.push(pair.1)?;
    }
    Ok(items)
}

/// The work of reading a use as often as a plan does, in about nanoseconds.
const USE_WORK: u64 = 100;

/// How much work a problem's plan is, about.
pub fn planning_work(problem: &Problem) -> u64 {
    USE_WORK
        .saturating_mul(problem.uses() as u64)
        .saturating_add(narrow_work(problem))
}

/// How many bytes a plan takes at most for each item, option and use, with what it takes to find its order.
const ITEM_BYTES: usize = 240;

const OPTION_BYTES: usize = 24;

const USE_BYTES: usize = 8;

/// How many bytes a problem's plan takes at most, beside the lists of near items.
fn plan_bytes(problem: &Problem) -> usize
    ensures { 0 < result }
{
    let items = ITEM_BYTES.saturating_mul(problem.items() as usize);
    let options = OPTION_BYTES.saturating_mul(problem.options() as usize);
    let uses = USE_BYTES.saturating_mul(problem.uses());
    items.saturating_add(options).saturating_add(uses).max(1)
}

/// Whether an item is one of the first `past` of the order.
fn is_past(plan: &Plan, past: usize, item: u32) -> bool
    requires { 1 ≤ item }
    ensures { result ≡ true → Contains (take past plan.now.order.items) item }
{
    let Some(place) = plan.places.get(item as usize - 1) else {
        return false;
    };
    let place = *place as usize;
    if place >= past || place >= plan.order.len() {
        return false;
    }
    plan.order[place] == item
}

/// Whether one of these uses is of a primary item of the first `past` of the order.
fn has_past(plan: &Plan, past: usize, uses: &[Use]) -> bool
    requires { All (λ u. 1 ≤ u.item) uses.now }
    ensures { result ≡ true → (j : ℕ) × Contains (take past plan.now.order.items) j
        × (is_some (colour_in uses.now j) ≡ true) }
{
    for u in uses {
        if is_past(plan, past, u.item) {
            return true;
        }
    }
    false
}

/// Whether each option that holds an item has an item of the first `past` of the order.
fn are_past(plan: &Plan, problem: &Problem, past: usize, options: &[u32]) -> bool
    requires { All (IsOption problem.now.puzzle) options.now }
    ensures { result ≡ true → All (HoldsPast problem.now.puzzle (take past plan.now.order.items)) options.now }
{
    for o in options {
        if !has_past(plan, past, problem.option(*o)) {
            return false;
        }
    }
    true
}

/// Whether an item is secondary, or one of the first `past` of the order.
fn is_settled(plan: &Plan, problem: &Problem, past: usize, item: u32) -> bool
    requires { 1 ≤ item }
    ensures held { result ≡ true → IsPrimary problem.now.puzzle item → Contains (take past plan.now.order.items) item }
    ensures secondary { primary_count problem.now.puzzle < item → result ≡ true }
{
    item > problem.primary() || is_past(plan, past, item)
}

/// Whether the sweep needs no mark of an item any more, once it has held the first `past` of the order.
fn is_over(plan: &Plan, problem: &Problem, past: usize, item: u32) -> bool
    requires plan { IsPlan problem.now.puzzle plan.now }
    requires item { IsItem problem.now.puzzle item }
    ensures { result ≡ true → IsOver problem.now.puzzle (take past plan.now.order.items) item }
{
    if !is_settled(plan, problem, past, item) {
        return false;
    }
    are_past(plan, problem, past, plan.options_of(item))
}

/// The rank from which on keys have marks, once the sweep has held the first `past` of the order.
fn next_window(plan: &Plan, problem: &Problem, past: usize, from: usize) -> usize
    requires { IsPlan problem.now.puzzle plan.now }
    ensures rises { from ≤ result }
    ensures over { (i : ℕ) → IsItem problem.now.puzzle i → from ≤ rank_of plan.now.ranking.ranks.items i
        → rank_of plan.now.ranking.ranks.items i < result
        → IsOver problem.now.puzzle (take past plan.now.order.items) i }
{
    let mut next = from;
    while next < plan.ranking.items.len() {
        let item = plan.ranking.items[next];
        if item == 0 || item > problem.items() || !is_over(plan, problem, past, item) {
            return next;
        }
        next += 1;
    }
    next
}

/// The windows of a plan that has none.
fn find_windows(plan: &Plan, alloc: Global, problem: &Problem) -> Result<Vec<usize>, CountError>
    requires { IsPlan problem.now.puzzle plan.now }
    ensures { IfOk result (λ ws. AreWindows problem.now.puzzle plan.now.order.items
        plan.now.ranking.ranks.items ws.items) }
{
    let mut windows = Vec::new(alloc);
    let mut from = 0;
    for place in 0..plan.order.len() {
        from = next_window(plan, problem, place + 1, from);
        windows.push(from)?;
    }
    Ok(windows)
}

impl Plan {
    /// A plan for a problem, where it counts for no more than so many bytes.
    pub fn new(alloc: Global, problem: &Problem, bound: usize) -> Result<Plan, CountError>
        ensures plan { IfOk result (IsPlan problem.now.puzzle) }
        ensures bytes { IfOk result (λ p. (0 < p.bytes) × (p.bytes ≤ bound)) }
    {
        let bytes = plan_bytes(problem);
        let room = bound.checked_sub(bytes).ok_or(CountError::OutOfBound)?;
        let holders = options_by_item(alloc, problem)?;
        let found = narrow_order(alloc, problem, holders.as_slice(), room)?;
        let order = whole_order(alloc, problem, found.as_slice())?;
        let places = places(alloc, problem.items(), order.as_slice())?;
        let ends = ends(alloc, problem, places.as_slice())?;
        let items = items_by_end(alloc, ends.as_slice())?;
        let ranking = rank_items(alloc, items, problem.items())?;
        let mut plan = Plan {
            order,
            places,
            holders,
            ranking,
            windows: Vec::new(alloc),
            bytes,
        };
        plan.windows = find_windows(&plan, alloc, problem)?;
        Ok(plan)
    }

    /// What the plan leaves of so many bytes.
    pub fn leaves(&self, bound: usize) -> usize
        ensures { result ≡ bound - self.now.bytes }
    {
        bound.saturating_sub(self.bytes)
    }

    /// The options that hold an item, in order.
    pub fn options_of(&self, item: u32) -> &[u32]
        ensures { (p : Puzzle) → IsPlan p self.now → IsItem p item → result.now ≡ options_with p item }
    {
        list_of(self.holders.as_slice(), item)
    }

    /// The step that holds the item at a place of the order, where keys have marks from this rank on.
    pub fn step(&self, place: usize, from: usize) -> Step
        requires { place < length self.now.order.items }
        ensures place { result.place ≡ place }
        ensures from { result.from ≡ from }
        ensures step { (p : Puzzle) → IsPlan p self.now → IsStep p self.now result }
    {
        let next = match self.windows.get(place) {
            Some(window) if *window > from => *window,
            _ => from,
        };
        Step { place, from, next }
    }
}
