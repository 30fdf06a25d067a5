//! In how many covers each option is, by two sweeps.
ghost use Rattle.std.specs.Prelude.{◌≡◌, ◌++◌, [], ◌∷◌, All, length, IfNone, IfOk, IfSome};
ghost use Rattle.xc_input.specs.Problem.{Puzzle, IsValid};
ghost use Rattle.xc_count.specs.Occurrences.{occurrences};
ghost use Rattle.xc_count.specs.declared.plan.Plan.{Plan};
ghost use Rattle.xc_search.specs.Once.{IsOnce};
ghost use Rattle.xc_count.specs.inner.Passed.{AreBelow};
ghost use Rattle.xc_count.specs.inner.Plans.{IsPlan};
ghost use Rattle.xc_count.specs.inner.Worth.{EachKey, holds_first};

use crate::backward::back;
use crate::counted::CountLayer;
use crate::errors::CountError;
use crate::forward::keep_layers;
use crate::kept::{Ahead, Kept};
use crate::plan::Plan;
use natural::Natural;
use std::alloc::Global;
use xc_input::Problem;

/// So many times the same small number.
fn numbers(alloc: Global, many: usize, each: u64) -> Result<Vec<Natural>, CountError>
    ensures len { IfOk result (λ ns. length ns.items ≡ many) }
    ensures each { IfOk result (λ ns. All (λ n. n ≡ each) ns.items) }
{
    let mut numbers = Vec::new(alloc);
    for _ in 0..many {
        numbers.push(Natural::from_u64(alloc, each))?;
    }
    Ok(numbers)
}

/// The last layer, below each state of which is one cover.
fn end(alloc: Global, layer: CountLayer, from: usize) -> Result<Ahead, CountError>
    ensures { IfOk result (λ a. (p : Puzzle) (plan : Plan) → IsOnce p → IsPlan p plan → IsValid p
        → EachKey (holds_first plan (length plan.order.items) from) layer.states.items → AreBelow p plan a) }
{
    let below = numbers(alloc, layer.states.len(), 1)?;
    Ok(Ahead { layer, from, below })
}

/// The last layer that was kept, taken off.
fn pop_kept(kept: &mut Vec<Kept>) -> Option<Kept>
    ensures some { IfSome result (λ k. kept.old.items ≡ kept.new.items ++ k ∷ []) }
    ensures none { IfNone result (kept.old.items ≡ []) }
{
    kept.pop()
}

/// In how many covers each option is, where each primary item is to be held exactly once.
///
/// A sweep keeps its layers: for each state the number of ways to it. Another goes back over them, with the number of
/// covers below each state. An option is taken from a state in as many covers as there are ways to it, times the covers
/// below the state that it leads to. The layers take about `bound` bytes at most.
pub fn occurrences_by_states(
    alloc: Global,
    problem: &Problem,
    plan: &Plan,
    bound: usize,
) -> Result<Vec<Natural>, CountError>
    requires once { IsOnce problem.now.puzzle }
    requires plan { IsPlan problem.now.puzzle plan.now }
    requires valid { IsValid problem.now.puzzle }
    ensures { IfOk result (λ ns. ns.items ≡ occurrences problem.now.puzzle) }
{
    let mut counts = numbers(alloc, problem.options() as usize, 0)?;
    let sweep = keep_layers(alloc, problem, plan, bound / 4 * 3)?;
    let mut kept = sweep.kept;
    let mut ahead = end(alloc, sweep.last, sweep.from)?;
    while let Some(before) = pop_kept(&mut kept) {
        ahead = back(alloc, problem, plan, before, &ahead, &mut counts)?;
    }
    Ok(counts)
}
