//! What a search has decided.
ghost use Rattle.std.specs.Prelude.{ℕ, ◌≡◌, ◌≤◌, ◌≢◌, ◌+◌, ◌-◌, true, false, sum_by, count_by, slice_index, Contains};
ghost use Rattle.std.specs.Prelude.{IfOk, IfSome, IfNone, OnOk, ◌==◌, [], List, cond};
ghost use Rattle.xc_least.specs.declared.steps.Step.{Step};
ghost use Rattle.xc_input.specs.Problem.{IsValid, uses_of};
ghost use Rattle.xc_least.specs.inner.Regions.{IsTurned, Remains, newest, surplus_at, taken_of};
ghost use Rattle.xc_least.specs.inner.Held.{HasItsTables, ArePlaced, AreSpent, once_if_held};

use crate::steps::{Mark, Step};
use std::alloc::{AllocError, Global};
use xc_input::{Problem, Use};

/// The decisions of a search, in order, and what follows from them.
#[derive(Drop)]
pub struct Decided {
    pub steps: Vec<Step>,
    /// By option: at which step it was decided about.
    pub place: Vec<usize>,
    /// By item: how many options taken hold it, or fewer.
    pub held: Vec<u32>,
    /// By item: an option that may hold it. Nothing rests on these: who reads one looks whether it does.
    pub marks: Vec<Mark>,
}

/// The surplus of an option.
#[inline(always)]
pub fn surplus_of(surplus: &[u64], option: u32) -> u64
    ensures { result ≡ surplus_at surplus.now option }
{
    let place = option.saturating_sub(1) as usize;
    if place < surplus.len() {
        surplus[place]
    } else {
        0
    }
}

/// The uses of an option; none if there is no such option.
#[inline(always)]
pub fn uses_at(problem: &Problem, option: u32) -> &[Use]
    ensures value { result.now ≡ uses_of problem.now.puzzle option }
    ensures valid { IsValid problem.now.puzzle }
{
    let options = problem.options();
    if option == 0 || options < option {
        return &[];
    }
    problem.option(option)
}

/// Counts an item as held once more.
#[tactic(auto, using(crate::proofs::HeldLemmas::set_more))]
fn hold_one(held: &mut Vec<u32>, item: u32)
    ensures { (i : ℕ) → slice_index held.new.items i ≤ slice_index held.old.items i + cond (item == i) 1 0 }
{
    let place = item as usize;
    if place < held.len() {
        held[place] = held[place].saturating_add(1);
    }
}

/// Counts an item as held once less.
#[tactic(auto, using(crate::proofs::HeldLemmas::set_less))]
fn release_one(held: &mut Vec<u32>, item: u32)
    ensures { (i : ℕ) → slice_index held.new.items i ≤ slice_index held.old.items i - cond (item == i) 1 0 }
{
    let place = item as usize;
    if place < held.len() {
        held[place] = held[place].saturating_sub(1);
    }
}

/// Counts the items of these uses as held once more.
fn hold(held: &mut Vec<u32>, uses: &[Use])
    ensures { (i : ℕ) → slice_index held.new.items i
        ≤ slice_index held.old.items i + count_by (λ u. u.item == i) uses.now }
{
    for u in uses {
        hold_one(held, u.item);
    }
}

/// Counts the items of these uses as held once less.
fn release(held: &mut Vec<u32>, uses: &[Use])
    ensures { (i : ℕ) → slice_index held.new.items i ≤ slice_index held.old.items i - once_if_held uses.now i }
{
    for u in uses {
        release_one(held, u.item);
    }
}

/// Whether the step of a mark stands.
#[inline(always)]
pub fn stands(steps: &[Step], mark: Mark) -> bool
    ensures { result ≡ true → Contains (taken_of (newest steps.now)) mark.option }
{
    if steps.len() <= mark.step {
        return false;
    }
    let step = steps[mark.step];
    step.taken && step.option == mark.option
}

/// Marks the items of an option's uses that have no mark.
fn mark_items(marks: &mut Vec<Mark>, steps: &[Step], option: u32, uses: &[Use]) {
    for u in uses {
        let item = u.item as usize;
        if item < marks.len() && !stands(steps, marks[item]) {
            marks[item] = Mark {
                option,
                step: steps.len(),
            };
        }
    }
}

/// What the steps have spent.
#[inline(always)]
fn spent_by(steps: &[Step]) -> u64
    ensures { (f : ℕ → ℕ) → AreSpent f (newest steps.now) → result ≤ sum_by f (taken_of (newest steps.now)) }
{
    match steps.last() {
        Some(step) => step.spent,
        None => 0,
    }
}

impl Decided {
    /// Nothing is decided.
    pub fn new(alloc: Global, problem: &Problem) -> Result<Decided, AllocError>
        ensures kept { IfOk result (λ d. (f : ℕ → ℕ) → HasItsTables problem.now.puzzle f d) }
        ensures none { IfOk result (λ d. d.steps.items ≡ []) }
    {
        let options = problem.options() as usize;
        let items = problem.items() as usize;
        let none = Mark { option: 0, step: 0 };
        Ok(Decided {
            steps: Vec::new(alloc),
            place: vec![in alloc; 0; options + 1]?,
            held: vec![in alloc; 0; items + 1]?,
            marks: vec![in alloc; none; items + 1]?,
        })
    }

    /// The step that decided about an option.
    #[inline(always)]
    pub fn step_of(&self, option: u32) -> Option<Step>
        ensures some { IfSome result (λ d. Contains (newest self.now.steps.items) d × (d.option ≡ option)) }
        ensures none { IfNone result (ArePlaced self.now.place.items (newest self.now.steps.items)
            → (d : Step) → Contains (newest self.now.steps.items) d → d.option ≢ option) }
    {
        let place = option as usize;
        if self.place.len() <= place {
            return None;
        }
        let at = self.place[place];
        if self.steps.len() <= at {
            return None;
        }
        let step = self.steps[at];
        if step.option == option {
            Some(step)
        } else {
            None
        }
    }

    /// The surplus of what is taken, or less.
    #[inline(always)]
    pub fn spent(&self) -> u64
        ensures { (f : ℕ → ℕ) → AreSpent f (newest self.now.steps.items)
            → result ≤ sum_by f (taken_of (newest self.now.steps.items)) }
    {
        spent_by(self.steps.as_slice())
    }

    /// Takes an option, if nothing was decided about it.
    pub fn take(
        &mut self,
        problem: &Problem,
        surplus: &[u64],
        option: u32,
    ) -> Result<(), AllocError>
        requires { HasItsTables problem.now.puzzle (surplus_at surplus.now) self.old }
        ensures kept { OnOk result (HasItsTables problem.now.puzzle (surplus_at surplus.now) self.new) }
        ensures remains { OnOk result ((s : List ℕ) → Remains (newest self.old.steps.items) s
            → Remains (newest self.new.steps.items) s) }
    {
        let place = option as usize;
        if self.place.len() <= place || self.step_of(option).is_some() {
            return Ok(());
        }
        let spent = self.spent().saturating_add(surplus_of(surplus, option));
        let uses = uses_at(problem, option);
        mark_items(&mut self.marks, self.steps.as_slice(), option, uses);
        hold(&mut self.held, uses);
        self.place[place] = self.steps.len();
        self.steps.push(Step {
            option,
            taken: true,
            spent,
        })?;
        Ok(())
    }

    /// Takes decisions off up to the newest option that was taken, and leaves that out. Returns whether there was one.
    pub fn turn(&mut self, problem: &Problem, surplus: &[u64]) -> Result<bool, AllocError>
        requires { HasItsTables problem.now.puzzle (surplus_at surplus.now) self.old }
        ensures kept { OnOk result (HasItsTables problem.now.puzzle (surplus_at surplus.now) self.new) }
        ensures turned { IfOk result (λ b. b ≡ true → (s : List ℕ) → IsTurned (newest self.old.steps.items) s
            → Remains (newest self.new.steps.items) s) }
        ensures ended { IfOk result (λ b. b ≡ false → (s : List ℕ) → IsTurned (newest self.old.steps.items) s → ⊥) }
    {
        while let Some(step) = self.steps.pop() {
            if step.taken {
                release(&mut self.held, uses_at(problem, step.option));
                let spent = self.spent();
                self.steps.push(Step {
                    option: step.option,
                    taken: false,
                    spent,
                })?;
                return Ok(true);
            }
        }
        Ok(false)
    }
}
