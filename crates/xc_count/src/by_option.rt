//! The sweep option by option, for problems with bounds: each state passes over an option or takes it where it fits.
//!
//! A mark of an item is replaced by the least that says as much, and a state is dropped once a lower bound can't be met
//! any more. Both are proved to leave the number of ways.

ghost use Rattle.std.specs.Prelude.{ℕ, ◌≡◌, ◌+◌, ◌*◌, ◌≤◌, List, [], ◌∷◌, true, length, All, IfOk, OnOk};
ghost use Rattle.xc_input.specs.Problem.{IsItem, IsValid, uses_of};
ghost use Rattle.xc_input.specs.Limits.{most_uses};
ghost use Rattle.xc_search.specs.Cover.{members};
ghost use Rattle.xc_count.specs.inner.ByOption.{AtMost, ways, ways_from, ways_taken};
ghost use Rattle.xc_count.specs.inner.Plans.{IsPlan};
ghost use Rattle.xc_count.specs.inner.Worth.{worth_by};

use crate::beside::Beside;
use crate::counted::{CountLayer, CountState, add_ways, layer_of};
use crate::errors::{CountError, Halted};
use crate::layer::pop_state;
use crate::marks::{are_met, forget, take_uses};
use crate::options::{holders_left, options_in_order, remove_uses};
use crate::order::filled;
use crate::plan::Plan;
use crate::rival::Rival;
use crate::sweeping::{PassOn, pass};
use natural::Natural;
use std::alloc::Global;
use xc_input::{Problem, Use};

/// The work of looking at a use for a state, in about nanoseconds.
const USE_WORK: u64 = 4;

/// Adds ways to the state of a key, unless some bounds can't be met any more. The key may be changed.
fn add_left(
    problem: &Problem,
    left: &[u32],
    uses: &[Use],
    layer: &mut CountLayer,
    key: &mut Vec<u32>,
    ways: &Natural,
) -> Result<(), CountError>
    requires { All (λ u. IsItem problem.now.puzzle u.item) uses.now }
    ensures worth { (os : List ℕ) → AtMost problem.now.puzzle os left.now → OnOk result (
        worth_by (ways_from problem.now.puzzle os) layer.new.states.items
        ≡ worth_by (ways_from problem.now.puzzle os) layer.old.states.items
        + ways.now * ways_from problem.now.puzzle os key.old.items) }
    ensures bound { layer.new.bound ≡ layer.old.bound }
{
    if !forget(problem, left, key, uses)? {
        return Ok(());
    }
    add_ways(layer, key.as_slice(), ways)
}

/// Adds what a state becomes once an option is passed over.
fn leave(
    problem: &Problem,
    left: &[u32],
    uses: &[Use],
    layer: &mut CountLayer,
    scratch: &mut Vec<u32>,
    state: &CountState,
) -> Result<(), CountError>
    requires { All (λ u. IsItem problem.now.puzzle u.item) uses.now }
    ensures worth { (os : List ℕ) → AtMost problem.now.puzzle os left.now → OnOk result (
        worth_by (ways_from problem.now.puzzle os) layer.new.states.items
        ≡ worth_by (ways_from problem.now.puzzle os) layer.old.states.items
        + state.now.worth * ways_from problem.now.puzzle os state.now.key.items) }
    ensures bound { layer.new.bound ≡ layer.old.bound }
{
    scratch.clear();
    scratch.extend_from_slice(state.key.as_slice())?;
    add_left(problem, left, uses, layer, scratch, &state.worth)
}

/// Adds what a state becomes once an option is taken, if it may be.
fn take(
    problem: &Problem,
    left: &[u32],
    uses: &[Use],
    layer: &mut CountLayer,
    scratch: &mut Vec<u32>,
    state: &CountState,
) -> Result<(), CountError>
    requires { All (λ u. IsItem problem.now.puzzle u.item × (u.colour ≤ most_uses)) uses.now }
    ensures worth { (os : List ℕ) → AtMost problem.now.puzzle os left.now → OnOk result (
        worth_by (ways_from problem.now.puzzle os) layer.new.states.items
        ≡ worth_by (ways_from problem.now.puzzle os) layer.old.states.items
        + state.now.worth * ways_taken problem.now.puzzle os uses.now state.now.key.items) }
    ensures bound { layer.new.bound ≡ layer.old.bound }
{
    if !take_uses(problem, state.key.as_slice(), scratch, uses)? {
        return Ok(());
    }
    add_left(problem, left, uses, layer, scratch, &state.worth)
}

/// A step of a sweep that passes over an option or takes it. So many options after it hold each item.
#[derive(Drop)]
pub struct Choosing<'p> {
    pub problem: &'p Problem,
    pub option: u32,
    pub uses: &'p [Use],
    pub left: &'p [u32],
}

impl<'p> PassOn for Choosing<'p> {
    ghost is_step = { λ m. (m.uses.now ≡ uses_of m.problem.now.puzzle m.option)
        × All (λ u. IsItem m.problem.now.puzzle u.item × (u.colour ≤ most_uses)) m.uses.now };

    ghost takes = { λ m key. true };

    ghost makes = { λ m key. true };

    ghost weighs = { λ m f g. (os : List ℕ) × AtMost m.problem.now.puzzle os m.left.now
        × (f ≡ ways_from m.problem.now.puzzle (m.option ∷ os)) × (g ≡ ways_from m.problem.now.puzzle os) };

    fn pass_on<B: Beside>(
        &self,
        state: &CountState,
        next: &mut CountLayer,
        scratch: &mut Vec<u32>,
        beside: &mut B,
    ) -> Result<(), Halted> {
        leave(self.problem, self.left, self.uses, next, scratch, state)?;
        take(self.problem, self.left, self.uses, next, scratch, state)?;
        let tried = USE_WORK.saturating_mul(self.uses.len() as u64);
        if beside.ends_first(tried, next.work()) {
            return Err(Halted::Overtaken);
        }
        Ok(())
    }
}

/// The first layer: one state, in which no item is held.
fn first_layer(alloc: Global, problem: &Problem, bound: usize) -> Result<CountLayer, CountError>
    ensures { (os : List ℕ) → IfOk result (λ l. worth_by (ways_from problem.now.puzzle os) l.states.items
        ≡ ways problem.now.puzzle os (λ i. 0)) }
{
    let key = filled(alloc, problem.items() as usize + 1, 0)?;
    layer_of(alloc, problem, key.as_slice(), bound)
}

/// The ways to the states in which all lower bounds are met.
fn total(alloc: Global, problem: &Problem, layer: CountLayer) -> Result<Natural, CountError>
    ensures { IfOk result (λ n. n ≡ worth_by (ways_from problem.now.puzzle []) layer.states.items) }
{
    let mut states = layer.states;
    let mut sum = Natural::zero(alloc);
    while let Some(state) = pop_state(&mut states) {
        if are_met(problem, state.key.as_slice()) {
            sum.add_assign(&state.worth)?;
        }
    }
    Ok(sum)
}

/// How many covers a problem has, unless the search beside it ends first. Its states take no more than so many bytes at
/// once.
pub fn sweep_options(
    alloc: Global,
    problem: &Problem,
    plan: &Plan,
    bound: usize,
    rival: &mut Rival,
) -> Result<Natural, Halted>
    requires plan { IsPlan problem.now.puzzle plan.now }
    requires valid { IsValid problem.now.puzzle }
    ensures count { IfOk result (λ n. n ≡ length (members problem.now.puzzle)) }
    ensures same { rival.new.puzzle ≡ rival.old.puzzle }
{
    let order = options_in_order(alloc, problem, plan)?;
    let mut left = holders_left(alloc, problem, order.as_slice())?;
    let mut layer = first_layer(alloc, problem, bound)?;
    for k in 0..order.len() {
        let uses = problem.option(order[k]);
        remove_uses(&mut left, uses);
        let choosing = Choosing {
            problem,
            option: order[k],
            uses,
            left: left.as_slice(),
        };
        let room = layer.beside(bound);
        layer = pass(alloc, problem, &choosing, layer.states, room, rival)?;
    }
    Ok(total(alloc, problem, layer)?)
}
