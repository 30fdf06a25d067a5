//! The count of what a key leaves.

ghost use Rattle.std.specs.Prelude.{◌≡◌, ◌≤◌, length, true, IfOk};
ghost use Rattle.xc_input.specs.Problem.{IsValid};
ghost use Rattle.xc_search.specs.Cover.{members};
ghost use Rattle.xc_search.specs.Once.{IsOnce};
ghost use Rattle.xc_count.specs.inner.Plans.{IsPlan};
ghost use Rattle.xc_count.specs.inner.Worth.{holds_first, key_below, worth_by};

use crate::counted::{CountLayer, layer_of};
use crate::errors::{CountError, Halted};
use crate::holding::Holding;
use crate::keys::{mark_of, without_first};
use crate::layer::pop_state;
use crate::plan::{Plan, Step};
use crate::rival::Rival;
use crate::sweeping::pass;
use natural::Natural;
use std::alloc::Global;
use xc_input::Problem;

/// The ways to all states of a layer.
fn total(alloc: Global, layer: CountLayer) -> Result<Natural, CountError>
    ensures { IfOk result (λ n. n ≡ worth_by (λ key. 1) layer.states.items) }
{
    let mut states = layer.states;
    let mut sum = Natural::zero(alloc);
    while let Some(state) = pop_state(&mut states) {
        sum.add_assign(&state.worth)?;
    }
    Ok(sum)
}

/// Where the count of what a key leaves begins: the first place of the order whose item is free, the rank from which on
/// keys have marks there, and the key's marks from it on.
#[derive(Clone, Copy)]
struct Start<'a> {
    place: usize,
    from: usize,
    key: &'a [u32],
}

/// The start of a key that has a mark for each item. The items of the places before it are held.
fn start_of<'a>(problem: &Problem, plan: &Plan, key: &'a [u32]) -> Start<'a>
    requires plan { IsPlan problem.now.puzzle plan.now }
    requires valid { IsValid problem.now.puzzle }
    ensures place { result.place ≤ length plan.now.order.items }
    ensures held { holds_first plan.now result.place result.from result.key.now ≡ true }
    ensures below { key_below problem.now.puzzle plan.now result.from result.key.now
        ≡ key_below problem.now.puzzle plan.now 0 key.now }
{
    let ranks = plan.ranking.ranks.as_slice();
    let mut from = 0;
    let mut rest = key;
    for place in 0..plan.order.len() {
        if mark_of(ranks, from, rest, plan.order[place]) == 0 {
            return Start {
                place,
                from,
                key: rest,
            };
        }
        let step = plan.step(place, from);
        rest = without_first(rest, step.next - step.from);
        from = step.next;
    }
    Start {
        place: plan.order.len(),
        from,
        key: rest,
    }
}

/// How many covers there are below a key, unless the search beside it ends first. The states take no more than so many
/// bytes at once.
fn count_from(
    alloc: Global,
    problem: &Problem,
    plan: &Plan,
    start: Start,
    bound: usize,
    rival: &mut Rival,
) -> Result<Natural, Halted>
    requires once { IsOnce problem.now.puzzle }
    requires plan { IsPlan problem.now.puzzle plan.now }
    requires valid { IsValid problem.now.puzzle }
    requires place { start.place ≤ length plan.now.order.items }
    requires held { holds_first plan.now start.place start.from start.key.now ≡ true }
    ensures count { IfOk result (λ n. n ≡ key_below problem.now.puzzle plan.now start.entry.from
        start.entry.key.now) }
    ensures same { rival.new.puzzle ≡ rival.old.puzzle }
{
    let mut layer = layer_of(alloc, problem, start.key, bound)?;
    let mut from = start.from;
    for place in start.place..plan.order.len() {
        let step = plan.step(place, from);
        let room = layer.beside(bound);
        let holding = Holding {
            problem,
            plan,
            step,
        };
        layer = pass(alloc, problem, &holding, layer.states, room, rival)?;
        from = step.next;
    }
    Ok(total(alloc, layer)?)
}

/// How many covers a problem has whose primary items are each to be held exactly once, unless the search beside it ends
/// first. Its states take no more than so many bytes at once.
pub fn sweep(
    alloc: Global,
    problem: &Problem,
    plan: &Plan,
    bound: usize,
    rival: &mut Rival,
) -> Result<Natural, Halted>
    requires once { IsOnce problem.now.puzzle }
    requires plan { IsPlan problem.now.puzzle plan.now }
    requires valid { IsValid problem.now.puzzle }
    ensures count { IfOk result (λ n. n ≡ length (members problem.now.puzzle)) }
    ensures same { rival.new.puzzle ≡ rival.old.puzzle }
{
    let start = Start {
        place: 0,
        from: 0,
        key: &[],
    };
    count_from(alloc, problem, plan, start, bound, rival)
}

/// How many covers there are of what a key leaves that has a mark for each item, unless the search beside it ends
/// first. The states take no more than so many bytes at once.
pub fn count_left(
    alloc: Global,
    problem: &Problem,
    plan: &Plan,
    key: &[u32],
    bound: usize,
    rival: &mut Rival,
) -> Result<Natural, Halted>
    requires once { IsOnce problem.now.puzzle }
    requires plan { IsPlan problem.now.puzzle plan.now }
    requires valid { IsValid problem.now.puzzle }
    ensures count { IfOk result (λ n. n ≡ key_below problem.now.puzzle plan.now 0 key.now) }
    ensures same { rival.new.puzzle ≡ rival.old.puzzle }
{
    let start = start_of(problem, plan, key);
    let covers = count_from(alloc, problem, plan, start, bound, rival)?;
    // Of the many counts that a number takes, each may be less work than a look at the search.
    if rival.after_layers() {
        return Err(Halted::Overtaken);
    }
    Ok(covers)
}
