//! What a state becomes once the item of a step is held.
ghost use Rattle.std.specs.Prelude.{ℕ, ◌≡◌, ◌+◌, ◌*◌, Contains, slice_index, sum_by, true, OnOk};
ghost use Rattle.xc_input.specs.Problem.{IsOption, IsValid};
ghost use Rattle.xc_search.specs.Listing.{Residual};
ghost use Rattle.xc_count.specs.inner.Passed.{left_worth, worth_left, worth_passed, worth_taken};
ghost use Rattle.xc_count.specs.inner.Plans.{IsPlan, IsStep, options_with};
ghost use Rattle.xc_count.specs.inner.Worth.{EachKey, holds_first, says};

use crate::beside::Beside;
use crate::counted::{CountLayer, CountState, add_ways};
use crate::errors::{CountError, Halted};
use crate::keys::{agree_counting, mark_of, mark_uses, without_first};
use crate::plan::{Plan, Step};
use crate::sweeping::PassOn;
use xc_input::Problem;

// Work is told in about nanoseconds, and wraps.

/// The work of trying an option, beside the uses that agree.
const TRY_WORK: u64 = 6;
/// The work of a use that agrees.
const USE_WORK: u64 = 2;

/// The work of trying an option of which so many uses are read that agree.
#[inline(always)]
fn work_of_try(read: u64) -> u64 {
    read.wrapping_mul(USE_WORK).wrapping_add(TRY_WORK)
}

/// The work of copying a key and marking so many uses, by how many marks it has before and after.
#[inline(always)]
fn work_of_marks(uses: u64, before: usize, after: usize) -> u64 {
    let zeros = (after as u64).wrapping_sub(before as u64);
    (after as u64 / 8).wrapping_add(zeros).wrapping_add(uses)
}

/// Adds what a state becomes once an option of the step's item is taken, if it fits. Adds to `tried` the work beside
/// that of adding to the layer.
#[inline(always)]
fn take(
    problem: &Problem,
    plan: &Plan,
    step: Step,
    layer: &mut CountLayer,
    scratch: &mut Vec<u32>,
    state: &CountState,
    option: u32,
    tried: &mut u64,
) -> Result<(), CountError>
    requires plan { IsPlan problem.now.puzzle plan.now }
    requires step { IsStep problem.now.puzzle plan.now step }
    requires known { IsOption problem.now.puzzle option }
    requires option { Contains (options_with problem.now.puzzle (slice_index plan.now.order.items step.place)) option }
    requires held { holds_first plan.now step.place step.from state.now.key.items ≡ true }
    ensures left { OnOk result ((h : Residual → ℕ) → worth_left h problem.now.puzzle plan.now step.next
        layer.new.states.items ≡ worth_left h problem.now.puzzle plan.now step.next layer.old.states.items
        + state.now.worth * worth_taken h problem.now.puzzle (says plan.now step.from state.now.key.items) option) }
    ensures held { OnOk result (EachKey (holds_first plan.now (step.place + 1) step.next) layer.old.states.items
        → EachKey (holds_first plan.now (step.place + 1) step.next) layer.new.states.items) }
    ensures bound { layer.new.bound ≡ layer.old.bound }
{
    let uses = problem.option(option);
    let ranks = plan.ranking.ranks.as_slice();
    let mut read = 0;
    let fits = agree_counting(ranks, step.from, state.key.as_slice(), uses, &mut read);
    *tried = tried.wrapping_add(work_of_try(read));
    if !fits {
        return Ok(());
    }
    scratch.clear();
    scratch.extend_from_slice(state.key.as_slice())?;
    mark_uses(ranks, step.from, scratch, uses)?;
    *tried = tried.wrapping_add(work_of_marks(read, state.key.len(), scratch.len()));
    let rest = without_first(scratch.as_slice(), step.next - step.from);
    add_ways(layer, rest, &state.worth)
}

/// Adds what a state becomes in which the step's item is free: a state for each option of it that fits.
fn split<B: Beside>(
    problem: &Problem,
    plan: &Plan,
    step: Step,
    layer: &mut CountLayer,
    scratch: &mut Vec<u32>,
    state: &CountState,
    options: &[u32],
    beside: &mut B,
) -> Result<(), Halted>
    requires plan { IsPlan problem.now.puzzle plan.now }
    requires step { IsStep problem.now.puzzle plan.now step }
    requires options { options.now ≡ options_with problem.now.puzzle (slice_index plan.now.order.items step.place) }
    requires held { holds_first plan.now step.place step.from state.now.key.items ≡ true }
    requires others { EachKey (holds_first plan.now (step.place + 1) step.next) layer.old.states.items }
    ensures left { OnOk result ((h : Residual → ℕ) → worth_left h problem.now.puzzle plan.now step.next
        layer.new.states.items ≡ worth_left h problem.now.puzzle plan.now step.next layer.old.states.items
        + state.now.worth * sum_by (worth_taken h problem.now.puzzle (says plan.now step.from state.now.key.items))
        options.now) }
    ensures others { OnOk result (EachKey (holds_first plan.now (step.place + 1) step.next) layer.new.states.items) }
    ensures bound { layer.new.bound ≡ layer.old.bound }
    ensures same { B.searched beside.new ≡ B.searched beside.old }
{
    for k in 0..options.len() {
        let mut tried = 0;
        take(
            problem, plan, step, layer, scratch, state, options[k], &mut tried,
        )?;
        if beside.ends_first(tried, layer.work()) {
            return Err(Halted::Overtaken);
        }
    }
    Ok(())
}

/// Adds what a state becomes once the step's item is held.
fn hold<B: Beside>(
    problem: &Problem,
    plan: &Plan,
    step: Step,
    layer: &mut CountLayer,
    scratch: &mut Vec<u32>,
    state: &CountState,
    beside: &mut B,
) -> Result<(), Halted>
    requires plan { IsPlan problem.now.puzzle plan.now }
    requires step { IsStep problem.now.puzzle plan.now step }
    requires valid { IsValid problem.now.puzzle }
    requires held { holds_first plan.now step.place step.from state.now.key.items ≡ true }
    requires others { EachKey (holds_first plan.now (step.place + 1) step.next) layer.old.states.items }
    ensures left { OnOk result ((h : Residual → ℕ) → worth_left h problem.now.puzzle plan.now step.next
        layer.new.states.items ≡ worth_left h problem.now.puzzle plan.now step.next layer.old.states.items
        + state.now.worth * worth_passed h problem.now.puzzle plan.now step state.now.key.items) }
    ensures others { OnOk result (EachKey (holds_first plan.now (step.place + 1) step.next) layer.new.states.items) }
    ensures bound { layer.new.bound ≡ layer.old.bound }
    ensures same { B.searched beside.new ≡ B.searched beside.old }
{
    let item = plan.order[step.place];
    let key = state.key.as_slice();
    if mark_of(plan.ranking.ranks.as_slice(), step.from, key, item) > 0 {
        add_ways(
            layer,
            without_first(key, step.next - step.from),
            &state.worth,
        )?;
        if beside.ends_first(0, layer.work()) {
            return Err(Halted::Overtaken);
        }
        return Ok(());
    }
    let options = plan.options_of(item);
    split(problem, plan, step, layer, scratch, state, options, beside)
}

/// A step of a sweep that holds the item at a place of the order.
#[derive(Drop)]
pub struct Holding<'p> {
    pub problem: &'p Problem,
    pub plan: &'p Plan,
    pub step: Step,
}

impl<'p> PassOn for Holding<'p> {
    ghost is_step = { λ m. IsPlan m.problem.now.puzzle m.plan.now × IsStep m.problem.now.puzzle m.plan.now m.step
        × IsValid m.problem.now.puzzle };

    ghost takes = { λ m key. holds_first m.plan.now m.step.place m.step.from key };

    ghost makes = { λ m key. holds_first m.plan.now (m.step.place + 1) m.step.next key };

    ghost weighs = { λ m f g. (h : Residual → ℕ) × (f ≡ worth_passed h m.problem.now.puzzle m.plan.now m.step)
        × (g ≡ left_worth h m.problem.now.puzzle m.plan.now m.step.next) };

    fn pass_on<B: Beside>(
        &self,
        state: &CountState,
        next: &mut CountLayer,
        scratch: &mut Vec<u32>,
        beside: &mut B,
    ) -> Result<(), Halted> {
        hold(
            self.problem,
            self.plan,
            self.step,
            next,
            scratch,
            state,
            beside,
        )
    }
}
