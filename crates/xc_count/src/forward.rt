//! A sweep that keeps its layers.
ghost use Rattle.std.specs.Prelude.{ℕ, ◌≡◌, ◌≤◌, ◌+◌, All, length, sum_by, IfOk};
ghost use Rattle.xc_input.specs.Problem.{IsValid};
ghost use Rattle.xc_search.specs.Listing.{Residual};
ghost use Rattle.xc_count.specs.Occurrences.{occurrences_of};
ghost use Rattle.xc_search.specs.Once.{IsOnce};
ghost use Rattle.xc_count.specs.inner.Passed.{IsKept, taken_by, worth_left, worth_passed};
ghost use Rattle.xc_count.specs.inner.Plans.{IsPlan, IsStep};
ghost use Rattle.xc_count.specs.inner.Worth.{EachKey, holds_first, worth_by};

use crate::beside::Nothing;
use crate::counted::{CountLayer, layer_of};
use crate::errors::{CountError, Halted};
use crate::holding::Holding;
use crate::kept::{Kept, Swept};
use crate::plan::{Plan, Step};
use crate::sweeping::pass;
use std::alloc::Global;
use xc_input::Problem;

/// What the states of a layer that is kept become once the step's item is held. They take no more than so many bytes.
fn next_layer(
    alloc: Global,
    problem: &Problem,
    plan: &Plan,
    step: Step,
    layer: &CountLayer,
    room: usize,
) -> Result<CountLayer, CountError>
    requires plan { IsPlan problem.now.puzzle plan.now }
    requires step { IsStep problem.now.puzzle plan.now step }
    requires valid { IsValid problem.now.puzzle }
    requires held { EachKey (holds_first plan.now step.place step.from) layer.now.states.items }
    ensures worth { IfOk result (λ l. (h : Residual → ℕ) → worth_left h problem.now.puzzle plan.now step.next
        l.states.items ≡ worth_by (worth_passed h problem.now.puzzle plan.now step) layer.now.states.items) }
    ensures held { IfOk result (λ l. EachKey (holds_first plan.now (step.place + 1) step.next) l.states.items) }
    ensures room { IfOk result (λ l. l.bytes ≤ room) }
{
    let holding = Holding {
        problem,
        plan,
        step,
    };
    match pass(
        alloc,
        problem,
        &holding,
        layer.states.as_slice(),
        room,
        &mut Nothing,
    ) {
        Ok(next) => Ok(next),
        Err(Halted::Failed(error)) => Err(error),
        // Nothing is beside it that could end first.
        Err(Halted::Overtaken) => Err(CountError::Lost),
    }
}

/// The layers of a sweep. Their states take no more than so many bytes.
pub fn keep_layers(
    alloc: Global,
    problem: &Problem,
    plan: &Plan,
    bound: usize,
) -> Result<Swept, CountError>
    requires once { IsOnce problem.now.puzzle }
    requires plan { IsPlan problem.now.puzzle plan.now }
    requires valid { IsValid problem.now.puzzle }
    ensures taken { IfOk result (λ s. (x : ℕ) → sum_by (taken_by problem.now.puzzle plan.now x) s.kept.items
        ≡ occurrences_of problem.now.puzzle x) }
    ensures kept { IfOk result (λ s. All (IsKept problem.now.puzzle plan.now) s.kept.items) }
    ensures held { IfOk result (λ s. EachKey (holds_first plan.now (length plan.now.order.items) s.from)
        s.last.states.items) }
    ensures room { IfOk result (λ s. sum_by (λ k. k.layer.bytes) s.kept.items + s.last.bytes ≤ bound) }
{
    let mut kept = Vec::new(alloc);
    let mut layer = layer_of(alloc, problem, &[], bound)?;
    let mut room = bound;
    let mut from = 0;
    for place in 0..plan.order.len() {
        let step = plan.step(place, from);
        from = step.next;
        room = layer.beside(room);
        let more = next_layer(alloc, problem, plan, step, &layer, room)?;
        kept.push(Kept { layer, step })?;
        layer = more;
    }
    Ok(Swept {
        kept,
        last: layer,
        from,
    })
}
