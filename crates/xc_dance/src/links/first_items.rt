//! The item table before any move.
ghost use Rattle.std.specs.Prelude.{◌≡◌, ◌≤◌, ◌+◌, [], IfOk};
ghost use Rattle.xc_input.specs.Problem.{IsValid, IsWithinLimits, IsPrimary, item_count, primary_count, high_at};
ghost use Rattle.xc_input.specs.Problem.{low_at};
ghost use Rattle.xc_dance.specs.inner.Tables.{llink_at, rlink_at, items_after, linked_to, bound_to};

use crate::links::cells::Items;
use std::alloc::{AllocError, Global};
use xc_input::Problem;

/// The item table before any move.
#[tactic(auto, using(crate::proofs::WholeTables::item_columns))]
pub(crate) fn first_items(alloc: Global, problem: &Problem) -> Result<Items, AllocError>
    requires { IsValid problem.now.puzzle }
    ensures { IfOk result (λ t. t.cells ≡ items_after problem.now.puzzle []) }
{
    let mut items = Items::new(alloc, problem.items(), problem.primary())?;
    link_rings(&mut items, problem);
    set_bounds(&mut items, problem);
    Ok(items)
}

/// Links the items with their rings' heads.
#[tactic(auto, using(crate::proofs::WholeTables::item_columns))]
fn link_rings(items: &mut Items, problem: &Problem)
    requires { items.old.cells ≡ linked_to problem.now.puzzle 0 }
    ensures { items.new.cells ≡ linked_to problem.now.puzzle (item_count problem.now.puzzle + 2) }
{
    for i in 0..problem.items() + 2 {
        items.set_links(i, first_left(problem, i), first_right(problem, i));
    }
}

/// Fills in the bounds of the primary items.
fn set_bounds(items: &mut Items, problem: &Problem)
    requires valid { IsValid problem.now.puzzle }
    requires before { items.old.cells ≡ bound_to problem.now.puzzle 1 }
    ensures { items.new.cells ≡ items_after problem.now.puzzle [] }
{
    for i in 0..problem.primary() {
        let item = problem.item(i + 1);
        items.set_bounds(i + 1, item.high, item.high - item.low);
    }
}

/// The left neighbour at a place of the item table.
#[tactic(auto, using(std::proofs::lemmas::Grind::common_steps, crate::proofs::WholeTables::left_is))]
fn first_left(problem: &Problem, i: u32) -> u32
    requires { i ≤ item_count problem.now.puzzle + 1 }
    ensures { result ≡ llink_at problem.now.puzzle [] i }
{
    if i == 0 {
        problem.primary()
    } else if i - 1 == problem.primary() {
        problem.items() + 1
    } else {
        i - 1
    }
}

/// The right neighbour at a place of the item table.
#[tactic(auto, using(std::proofs::lemmas::Grind::common_steps, crate::proofs::WholeTables::right_is))]
fn first_right(problem: &Problem, i: u32) -> u32
    requires { i ≤ item_count problem.now.puzzle + 1 }
    ensures { result ≡ rlink_at problem.now.puzzle [] i }
{
    if i == problem.primary() {
        0
    } else if i == problem.items() + 1 {
        problem.primary() + 1
    } else {
        i + 1
    }
}
