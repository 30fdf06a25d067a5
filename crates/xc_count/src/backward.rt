//! The covers below the states of a layer, from those below the states of the next.
ghost use Rattle.std.specs.Prelude.{◌≡◌, ◌≤◌, ◌*◌, ◌==◌, Contains, length, map, sum_by, true, None};
ghost use Rattle.std.specs.Prelude.{IfOk, MatchOption, OnOk, if◌then◌else◌};
ghost use Rattle.xc_input.specs.Problem.{Puzzle, IsOption, IsValid, option_count};
ghost use Rattle.xc_count.specs.declared.plan.Plan.{Plan};
ghost use Rattle.xc_search.specs.Once.{IsOnce};
ghost use Rattle.xc_count.specs.inner.Passed.{AreBelow, AreMore, IsKept, step_item, taken_by, taken_here, with_same};
ghost use Rattle.xc_count.specs.inner.Plans.{IsPlan, IsStep, options_with};
ghost use Rattle.xc_count.specs.inner.Worth.{holds_first, key_below, says, with_number};

use crate::counted::CountState;
use crate::errors::CountError;
use crate::kept::{Ahead, Kept};
use crate::keys::{do_agree, mark_of, mark_uses, without_first};
use crate::plan::{Plan, Step};
use natural::Natural;
use std::alloc::Global;
use xc_input::Problem;

/// The covers below a key of the layer ahead.
fn below_key<'a>(ahead: &'a Ahead, key: &[u32]) -> Result<&'a Natural, CountError>
    ensures { IfOk result (λ n. (p : Puzzle) (plan : Plan) → AreBelow p plan ahead.now
        → n.now ≡ key_below p plan ahead.now.from key.now) }
{
    let Some(place) = ahead.layer.place_of(key) else {
        return Err(CountError::Lost);
    };
    match ahead.below.get(place) {
        Some(below) => Ok(below),
        None => Err(CountError::Lost),
    }
}

/// The covers below a key with an option of the step's item, if it fits.
fn below_option<'a>(
    problem: &Problem,
    plan: &Plan,
    step: Step,
    ahead: &'a Ahead,
    scratch: &mut Vec<u32>,
    key: &[u32],
    option: u32,
) -> Result<Option<&'a Natural>, CountError>
    requires plan { IsPlan problem.now.puzzle plan.now }
    requires step { IsStep problem.now.puzzle plan.now step }
    requires below { AreBelow problem.now.puzzle plan.now ahead.now }
    requires next { step.next ≡ ahead.now.from }
    requires known { IsOption problem.now.puzzle option }
    requires option { Contains (options_with problem.now.puzzle (step_item plan.now step)) option }
    requires held { holds_first plan.now step.place step.from key.now ≡ true }
    ensures { IfOk result (λ b. MatchOption b
        (with_number problem.now.puzzle (says plan.now step.from key.now) option ≡ 0)
        (λ n. n.now ≡ with_number problem.now.puzzle (says plan.now step.from key.now) option)) }
{
    let uses = problem.option(option);
    let ranks = plan.ranking.ranks.as_slice();
    if !do_agree(ranks, step.from, key, uses) {
        return Ok(None);
    }
    scratch.clear();
    scratch.extend_from_slice(key)?;
    mark_uses(ranks, step.from, scratch, uses)?;
    let rest = without_first(scratch.as_slice(), step.next - step.from);
    Ok(Some(below_key(ahead, rest)?))
}

/// Adds so many ways to so many covers to the number of an option.
fn add_covers(
    counts: &mut Vec<Natural>,
    option: u32,
    ways: &Natural,
    below: &Natural,
) -> Result<(), CountError>
    requires { (1 ≤ option) × (option ≤ length counts.old.items) }
    ensures { OnOk result (AreMore (λ x. if option == x then ways.now * below.now else 0)
        counts.old.items counts.new.items) }
{
    counts[option as usize - 1].add_product(ways, below)?;
    Ok(())
}

/// The covers below a state in which the step's item is free, each of them added to the number of the item's option
/// as often as there are ways to the state.
fn below_free(
    alloc: Global,
    problem: &Problem,
    plan: &Plan,
    step: Step,
    ahead: &Ahead,
    state: &CountState,
    options: &[u32],
    scratch: &mut Vec<u32>,
    counts: &mut Vec<Natural>,
) -> Result<Natural, CountError>
    requires once { IsOnce problem.now.puzzle }
    requires plan { IsPlan problem.now.puzzle plan.now }
    requires step { IsStep problem.now.puzzle plan.now step }
    requires valid { IsValid problem.now.puzzle }
    requires below { AreBelow problem.now.puzzle plan.now ahead.now }
    requires next { step.next ≡ ahead.now.from }
    requires options { options.now ≡ options_with problem.now.puzzle (step_item plan.now step) }
    requires free { says plan.now step.from state.now.key.items (step_item plan.now step) ≡ None }
    requires held { holds_first plan.now step.place step.from state.now.key.items ≡ true }
    requires len { length counts.old.items ≡ option_count problem.now.puzzle }
    ensures below { IfOk result (λ n. n ≡ key_below problem.now.puzzle plan.now step.from state.now.key.items) }
    ensures counts { OnOk result (AreMore (λ x. state.now.worth * sum_by
        (with_same problem.now.puzzle (says plan.now step.from state.now.key.items) x) options.now)
        counts.old.items counts.new.items) }
{
    let mut sum = Natural::zero(alloc);
    for k in 0..options.len() {
        let Some(below) = below_option(
            problem,
            plan,
            step,
            ahead,
            scratch,
            state.key.as_slice(),
            options[k],
        )?
        else {
            continue;
        };
        sum.add_assign(below)?;
        add_covers(counts, options[k], &state.worth, below)?;
    }
    Ok(sum)
}

/// The covers below a state. Each that has an option of the step's item is added to the number of that option, as often
/// as there are ways to the state.
fn below_state(
    alloc: Global,
    problem: &Problem,
    plan: &Plan,
    step: Step,
    ahead: &Ahead,
    state: &CountState,
    scratch: &mut Vec<u32>,
    counts: &mut Vec<Natural>,
) -> Result<Natural, CountError>
    requires once { IsOnce problem.now.puzzle }
    requires plan { IsPlan problem.now.puzzle plan.now }
    requires step { IsStep problem.now.puzzle plan.now step }
    requires valid { IsValid problem.now.puzzle }
    requires below { AreBelow problem.now.puzzle plan.now ahead.now }
    requires next { step.next ≡ ahead.now.from }
    requires held { holds_first plan.now step.place step.from state.now.key.items ≡ true }
    requires len { length counts.old.items ≡ option_count problem.now.puzzle }
    ensures below { IfOk result (λ n. n ≡ key_below problem.now.puzzle plan.now step.from state.now.key.items) }
    ensures counts { OnOk result (AreMore (λ x. state.now.worth
        * taken_here problem.now.puzzle plan.now step x state.now.key.items) counts.old.items counts.new.items) }
{
    let item = plan.order[step.place];
    let key = state.key.as_slice();
    if mark_of(plan.ranking.ranks.as_slice(), step.from, key, item) > 0 {
        let rest = without_first(key, step.next - step.from);
        return Ok(below_key(ahead, rest)?.clone()?);
    }
    let options = plan.options_of(item);
    below_free(
        alloc, problem, plan, step, ahead, state, options, scratch, counts,
    )
}

/// The covers below each state of a layer. Each of them is added to the number of the option that it has of the step's
/// item, as often as there are ways to the state.
fn below_states(
    alloc: Global,
    problem: &Problem,
    plan: &Plan,
    kept: &Kept,
    ahead: &Ahead,
    counts: &mut Vec<Natural>,
) -> Result<Vec<Natural>, CountError>
    requires once { IsOnce problem.now.puzzle }
    requires plan { IsPlan problem.now.puzzle plan.now }
    requires valid { IsValid problem.now.puzzle }
    requires kept { IsKept problem.now.puzzle plan.now kept.now }
    requires below { AreBelow problem.now.puzzle plan.now ahead.now }
    requires next { kept.now.step.next ≡ ahead.now.from }
    requires len { length counts.old.items ≡ option_count problem.now.puzzle }
    ensures below { IfOk result (λ ns. ns.items
        ≡ map (λ s. key_below problem.now.puzzle plan.now kept.now.step.from s.key.items) kept.now.layer.states.items) }
    ensures counts { OnOk result (AreMore (λ x. taken_by problem.now.puzzle plan.now x kept.now)
        counts.old.items counts.new.items) }
{
    let mut scratch = Vec::new(alloc);
    let mut below = Vec::new(alloc);
    for state in &kept.layer.states {
        let covers = below_state(
            alloc,
            problem,
            plan,
            kept.step,
            ahead,
            state,
            &mut scratch,
            counts,
        )?;
        below.push(covers)?;
    }
    Ok(below)
}

/// The layer before, with the covers below its states, which are added to the numbers of the options.
pub fn back(
    alloc: Global,
    problem: &Problem,
    plan: &Plan,
    kept: Kept,
    ahead: &Ahead,
    counts: &mut Vec<Natural>,
) -> Result<Ahead, CountError>
    requires once { IsOnce problem.now.puzzle }
    requires plan { IsPlan problem.now.puzzle plan.now }
    requires valid { IsValid problem.now.puzzle }
    requires kept { IsKept problem.now.puzzle plan.now kept }
    requires below { AreBelow problem.now.puzzle plan.now ahead.now }
    requires len { length counts.old.items ≡ option_count problem.now.puzzle }
    ensures below { IfOk result (λ a. AreBelow problem.now.puzzle plan.now a) }
    ensures counts { OnOk result (AreMore (λ x. taken_by problem.now.puzzle plan.now x kept)
        counts.old.items counts.new.items) }
{
    if kept.step.next != ahead.from {
        return Err(CountError::Lost);
    }
    let below = below_states(alloc, problem, plan, &kept, ahead, counts)?;
    Ok(Ahead {
        layer: kept.layer,
        from: kept.step.from,
        below,
    })
}
