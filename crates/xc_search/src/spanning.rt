//! The steps of a search of a span.
//!
//! A span begins at its row by a step of the search's loop for each number of the row, and enters a level's branch
//! without committing those before it. At first it searched all that comes before the row: late in a wide first level
//! that took longer than `dlx1` takes for the whole. A way of its own, with a second call of the loop's large
//! functions, took these out of the loop, for a fifth of its instructions. The cost: a tweak, or a step along a list,
//! for each branch before the row.
//!
//! The way down chooses early, as the search does, and so may lead to branches that are none of the search's tree. An
//! item without branches keeps none, so where each open item has a branch, each choice on the way was the branch item.
//! Else what is left has no member, and the next row of the tree is the next branch of the newest level that has one:
//! an early choice of another item than the branch item has one branch at most. Looking at all open items on the way
//! took 1.4 s for a row of 30,000 numbers, where the whole search takes 0.02 s. The branch item at each level, if steps
//! have a bound, took more instructions.
ghost use Rattle.std.specs.Prelude.{◌≡◌, ◌<◌, ℕ, [], true, false, option_map, IsSome, Some};
ghost use Rattle.xc_search.specs.Spans.{is_before};
ghost use Rattle.xc_search.specs.inner.Levels.{AreAllWanted, IsStanding};
ghost use Rattle.xc_search.specs.Residuals.{choice_after, wanted_after};
ghost use Rattle.xc_search.specs.inner.Ahead.{AreLed, AreLedBy};
ghost use Rattle.xc_search.specs.inner.Spanning.{CanGoTo, CanRun, Reaches, Runs, RanTo, Settles};

use crate::few::Few;
use crate::levels::{Task, resume, run};
use crate::position::Position;
use crate::ran::{Ran, Stop};
use crate::rows::is_before;
use crate::stack::Stack;
use core::mem::replace_with;
use xc_moves::Dance;

/// The state of a search of a span.
// It has no model, so that the contract of `run_on` names its fields.
#[derive(Drop)]
pub struct State<'a, D: Dance> {
    pub position: Position<'a, D>,
    pub stack: Stack,
    /// Where what is left is counted by words: one place, or none where it never is.
    pub few: Vec<Few>,
}

/// How many nodes of a search over words may be visited for each step that is to be taken: what is counted by words
/// takes no step, and yet a search of a span is to stop about when its steps are over.
const NODES_A_STEP: u64 = 64;

/// Does what a task says that leaves no branch out and goes by early choices. It takes the state by value, as a walk's
/// loop does: through a reference the bases and lengths of all tables would be loaded anew after each write to one.
#[inline(never)]
pub fn run_on<'a, 'u, D: Dance, const FEW: bool>(
    state: State<'a, D>,
    task: Task<'u>,
) -> (State<'a, D>, Ran)
    requires can { CanRun (option_map (λ u. u.now) task.until) state.position state.stack }
    requires first { task.first ≡ 1 }
    ensures { Runs false 1 (option_map (λ u. u.now) task.entry.until) state.entry.position state.entry.stack
        task.entry.over task.entry.steps result.0.position result.0.stack result.1 }
{
    let State {
        mut position,
        mut stack,
        mut few,
    } = state;
    let Task {
        until,
        first: _,
        over,
        steps,
    } = task;
    // It is known here, so that the loop doesn't test it.
    let task = Task {
        until,
        first: 1,
        over,
        steps,
    };
    let ran = run::<D, true, false, FEW>(&mut position, &mut stack, task, few.as_mut_slice());
    (
        State {
            position,
            stack,
            few,
        },
        ran,
    )
}

/// Does what a task says that leaves no branch out, by one of two loops: where no more than one member is passed over,
/// nothing is counted by words.
fn run_by<'a, 'u, D: Dance>(state: &mut State<'a, D>, task: Task<'u>) -> Ran
    requires can { CanRun (option_map (λ u. u.now) task.until) state.old.position state.old.stack }
    requires first { task.first ≡ 1 }
    ensures { Runs false 1 (option_map (λ u. u.now) task.entry.until) state.old.position state.old.stack
        task.entry.over task.entry.steps state.new.position state.new.stack result }
{
    if task.over > 1
        && let Some(few) = state.few.first_mut()
    {
        few.allow(task.steps.saturating_mul(NODES_A_STEP));
        replace_with(state, task, run_on::<D, true>)
    } else {
        replace_with(state, task, run_on::<D, false>)
    }
}

/// Does what a task says, on the way to a row.
#[inline(never)]
pub fn run_way<'a, 'u, D: Dance>(state: State<'a, D>, task: Task<'u>) -> (State<'a, D>, Ran)
    requires can { CanRun (option_map (λ u. u.now) task.until) state.position state.stack }
    requires first { 0 < task.first }
    requires all { IsSome task.until → task.first ≡ 1 }
    ensures { Runs true task.entry.first (option_map (λ u. u.now) task.entry.until)
        state.entry.position state.entry.stack task.entry.over task.entry.steps
        result.0.position result.0.stack result.1 }
{
    let State {
        mut position,
        mut stack,
        few,
    } = state;
    let ran = run::<D, true, true, false>(&mut position, &mut stack, task, &mut []);
    (
        State {
            position,
            stack,
            few,
        },
        ran,
    )
}

/// Goes from where there are no levels to the row `from`, or to the next one that the search's tree has, and enters no
/// branch but those of that row. False where all levels ended, since no branch has a row that late. By early choices,
/// which may be others than the branch items where what is left has no solution.
// By the search's loop, step by step, so that this has the one call of each large function and takes it in.
fn reach_early<'a, D: Dance>(state: &mut State<'a, D>, from: &[u32]) -> bool
    requires start { CanGoTo state.old.position state.old.stack }
    ensures { Reaches false 0 from.now state.old.position state.old.stack
        state.new.position state.new.stack result }
{
    for number in from {
        let levels = state.stack.levels().len();
        // One step passes over no more than one member.
        let task = Task {
            until: None,
            first: (*number).max(1),
            over: 1,
            steps: 1,
        };
        match replace_with(state, task, run_way).stop {
            Stop::Member | Stop::Steps | Stop::Row => {}
            Stop::Nothing => return false,
        }
        // Where the row isn't that of `from` so far, it comes after it.
        if state.stack.levels().len() <= levels || *number == 0 {
            return true;
        }
    }
    true
}

/// Whether some item that is left has no branches.
fn is_stuck<'a, D: Dance>(position: &Position<'a, D>) -> bool
    requires { AreAllWanted (wanted_after position.now.puzzle position.now.trail) }
    ensures stuck { result ≡ true → (i : ℕ) × (choice_after position.now.puzzle position.now.trail ≡ Some (i, 0)) }
    ensures free { result ≡ false → (i : ℕ) → choice_after position.now.puzzle position.now.trail ≡ Some (i, 0) → ⊥ }
{
    matches!(position.choose(), Some((_, 0)))
}

/// Goes from a dead end to the next row of the search's tree, and stays where it is elsewhere. The dead end is a row of
/// the tree, or early choices led to it. No member is between. False where the tree has no such row.
fn settle<'a, D: Dance>(state: &mut State<'a, D>) -> bool
    requires standing { IsStanding state.old.position.puzzle state.old.position.trail state.old.stack.levels true }
    requires led { AreLedBy false state.old.position.puzzle [] state.old.position.trail state.old.stack.levels }
    ensures { Settles state.old.position state.old.stack state.new.position state.new.stack result }
{
    if !is_stuck(&state.position) {
        return true;
    }
    let Some(at) = resume::<D, true, false>(&mut state.position, &mut state.stack) else {
        return false;
    };
    state
        .position
        .commit_branch::<true, false>(at.item, at.place as u32);
    true
}

/// Goes from where there are no levels to the row `from`, or to a later one of the search's tree with no member
/// between. False where all levels ended, since no branch has a row that late.
pub fn reach<'a, D: Dance>(state: &mut State<'a, D>, from: &[u32]) -> bool
    requires start { CanGoTo state.old.position state.old.stack }
    ensures { Reaches true 1 from.now state.old.position state.old.stack
        state.new.position state.new.stack result }
{
    reach_early(state, from) && settle(state)
}

/// Passes over so many members of a span that ends before `until`, and stops at the next, unless that takes more than
/// so many branches to begin.
pub fn go_over<'a, 'u, D: Dance>(
    state: &mut State<'a, D>,
    until: Option<&'u [u32]>,
    over: u64,
    steps: u64,
) -> Ran
    requires can { CanRun (option_map (λ u. u.now) until) state.old.position state.old.stack }
    requires led { AreLed state.old.position.puzzle [] state.old.position.trail state.old.stack.levels }
    requires some { 0 < steps }
    ensures { RanTo state.old.position state.old.stack over steps (option_map (λ u. u.now) until.entry)
        result.stop state.new.position state.new.stack result.more result.steps }
{
    let task = Task {
        until,
        first: 1,
        over,
        steps,
    };
    let ran = run_by(state, task);
    match ran.stop {
        Stop::Steps => {}
        Stop::Member | Stop::Row | Stop::Nothing => return ran,
    }
    let stop = if !settle(state) {
        Stop::Nothing
    } else if is_before(state.stack.levels(), until) {
        Stop::Steps
    } else {
        Stop::Row
    };
    Ran {
        stop,
        more: ran.more,
        steps: ran.steps,
    }
}
