//! The node table before any move.
ghost use Rattle.std.specs.Prelude.{◌≡◌, ◌+◌, ◌≤◌, ◌<◌, [], length, IfOk};
ghost use Rattle.xc_input.specs.Problem.{IsWithinLimits, item_count, option_count};
ghost use Rattle.xc_moves.specs.Places.{layout, spacer};
ghost use Rattle.xc_dance.specs.inner.Tables.{IsFit, fixed_up, fixed_down, nodes_from, nodes_after, color_in, laid_to};
ghost use Rattle.xc_dance.specs.inner.Tables.{blanks};
ghost use Rattle.xc_moves.specs.Places.{spacer_place};

use crate::links::cells::{Nodes, SPACER};
use crate::links::node_counts::node_count;
use crate::links::row::Row;
use crate::links::rows::Rows;
use std::alloc::{AllocError, Global};
use xc_input::Problem;

/// The node table before any move.
pub(crate) fn first_nodes(alloc: Global, problem: &Problem) -> Result<Nodes, AllocError>
    requires limits { IsWithinLimits problem.now.puzzle }
    requires fit { IsFit problem.now.puzzle }
    ensures { IfOk result (λ t. t.cells ≡ nodes_after problem.now.puzzle []) }
{
    let count = node_count(problem);
    let mut rows = Rows::new(alloc, count as usize)?;
    lay_items(&mut rows, problem);
    lay_options(&mut rows, problem);
    let mut nodes = rows.nodes();
    link_uses(&mut nodes, problem, count);
    Ok(nodes)
}

/// Lays the unused node and the items' own nodes, each with an empty list.
fn lay_items(rows: &mut Rows, problem: &Problem)
    requires { rows.old ≡ laid_to problem.now.puzzle 0 }
    ensures { rows.new ≡ laid_to problem.now.puzzle (item_count problem.now.puzzle + 1) }
{
    for i in 0..problem.items() + 1 {
        let row = Row {
            top: 0,
            ulink: i,
            dlink: i,
            color: 0,
        };
        rows.lay(row);
    }
}

/// Lays the options' nodes and the spacers round them. A use's node leads to its item's own node
/// alone.
#[tactic(auto, using(crate::proofs::WholeTables::spacer_above))]
fn lay_options(rows: &mut Rows, problem: &Problem)
    requires limits { IsWithinLimits problem.now.puzzle }
    requires before { rows.old ≡ laid_to problem.now.puzzle (item_count problem.now.puzzle + 1) }
    ensures { rows.new ≡ laid_to problem.now.puzzle (length (layout problem.now.puzzle)) }
{
    let mut place = problem.items() + 1;
    let mut above = 0;
    for o in 0..problem.options() {
        lay_spacer(rows, problem, o, place, above);
        lay_uses(rows, problem, o);
        above = place + 1;
        place = above + problem.option(o + 1).len() as u32;
    }
    lay_spacer(rows, problem, problem.options(), place, above);
}

/// Lays the spacer after option `o`, whose first node is `above`.
fn lay_spacer(rows: &mut Rows, problem: &Problem, o: u32, place: u32, above: u32)
    requires limits { IsWithinLimits problem.now.puzzle }
    requires option { o ≤ option_count problem.now.puzzle }
    requires place { place ≡ spacer_place problem.now.puzzle o }
    requires above { above ≡ fixed_up problem.now.puzzle (spacer o) }
    requires before { rows.old ≡ laid_to problem.now.puzzle place }
    ensures { rows.new ≡ laid_to problem.now.puzzle (place + 1) }
{
    let below = last_node(problem, o, place);
    let row = Row {
        top: SPACER + o,
        ulink: above,
        dlink: below,
        color: 0,
    };
    rows.lay(row);
}

/// The last node of the option after the spacer after option `o`; 0 if there is none.
#[tactic(auto, using(crate::proofs::WholeTables::spacer_below))]
fn last_node(problem: &Problem, o: u32, place: u32) -> u32
    requires limits { IsWithinLimits problem.now.puzzle }
    requires option { o ≤ option_count problem.now.puzzle }
    requires place { place ≡ spacer_place problem.now.puzzle o }
    ensures { result ≡ fixed_down problem.now.puzzle (spacer o) }
{
    if o < problem.options() {
        place + problem.option(o + 1).len() as u32
    } else {
        0
    }
}

/// Lays the nodes of option `o + 1`.
fn lay_uses(rows: &mut Rows, problem: &Problem, o: u32)
    requires limits { IsWithinLimits problem.now.puzzle }
    requires option { o < option_count problem.now.puzzle }
    requires before { rows.old ≡ laid_to problem.now.puzzle (spacer_place problem.now.puzzle o + 1) }
    ensures { rows.new ≡ laid_to problem.now.puzzle (spacer_place problem.now.puzzle (o + 1)) }
{
    for u in problem.option(o + 1) {
        let row = Row {
            top: u.item,
            ulink: u.item,
            dlink: u.item,
            color: u.colour,
        };
        rows.lay(row);
    }
}

/// Enters each use's node into its item's list.
fn link_uses(nodes: &mut Nodes, problem: &Problem, count: u32)
    requires limits { IsWithinLimits problem.now.puzzle }
    requires fit { IsFit problem.now.puzzle }
    requires count { count ≡ length (layout problem.now.puzzle) }
    requires before { nodes.old.cells ≡ nodes_from problem.now.puzzle blanks (color_in problem.now.puzzle []) }
    ensures { nodes.new.cells ≡ nodes_after problem.now.puzzle [] }
{
    for q in problem.items() + 1..count {
        if nodes.top(q) < SPACER {
            nodes.enter(q);
        }
    }
}
