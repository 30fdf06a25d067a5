//! The solution of a number.

ghost use Rattle.std.specs.Prelude.{◌≡◌, ◌<◌, IfOk, option_map};
ghost use Rattle.xc_input.specs.Problem.{IsValid, numbered_get};
ghost use Rattle.xc_search.specs.Cover.{members};
ghost use Rattle.xc_count.specs.Turns.{FindsByTurns};
ghost use Rattle.xc_search.specs.Once.{IsOnce};
ghost use Rattle.xc_count.specs.inner.Plans.{IsPlan};

use crate::branches::{branch_item, branch_with};
use crate::errors::Halted;
use crate::lone::{LoneSearch, leave_alone};
use crate::passing::nth_by_search;
use crate::plan::Plan;
use crate::planning::planning_work;
use crate::rival::{FIRST_WORK, Rival};
use natural::Natural;
use std::alloc::Global;
use std::cell::Cell;
use xc_input::Problem;
use xc_search::{Choice, is_once};
use xc_text::Memory;

/// The solution of a number by going down the branches of the listing, unless the search beside it ends first.
fn nth_by_counts(
    alloc: Global,
    problem: &Problem,
    plan: &Plan,
    number: &Natural,
    bound: usize,
    rival: &mut Rival,
) -> Result<Option<Vec<Choice>>, Halted>
    requires once { IsOnce problem.now.puzzle }
    requires plan { IsPlan problem.now.puzzle plan.now }
    requires valid { IsValid problem.now.puzzle }
    ensures found { IfOk result (λ found. option_map (λ c. c.items) found
        ≡ numbered_get (members problem.now.puzzle) number.now) }
    ensures same { rival.new.puzzle ≡ rival.old.puzzle }
{
    let mut rest = number.clone()?;
    let mut key = Vec::new(alloc);
    let mut choices = Vec::new(alloc);
    while let Some(fork) = branch_item(problem, plan, key.as_slice()) {
        match branch_with(
            alloc,
            problem,
            plan,
            key.as_slice(),
            fork,
            &mut rest,
            bound,
            rival,
        )? {
            Some(branch) => {
                choices.push(branch.choice)?;
                key = branch.key;
            }
            None => return Ok(None),
        }
    }
    if rest == Natural::from_u64(alloc, 1) {
        Ok(Some(choices))
    } else {
        Ok(None)
    }
}

/// The same by a plan of its own. Where that is much work, the search first has turns of as much.
fn nth_by_plan(
    alloc: Global,
    problem: &Problem,
    number: &Natural,
    bound: usize,
    rival: &mut Rival,
) -> Result<Option<Vec<Choice>>, Halted>
    requires once { IsOnce problem.now.puzzle }
    requires valid { IsValid problem.now.puzzle }
    ensures found { IfOk result (λ found. option_map (λ c. c.items) found
        ≡ numbered_get (members problem.now.puzzle) number.now) }
    ensures same { rival.new.puzzle ≡ rival.old.puzzle }
{
    let planning = planning_work(problem);
    if planning > FIRST_WORK && rival.ahead(planning) {
        return Err(Halted::Overtaken);
    }
    let plan = Plan::new(alloc, problem, bound)?;
    nth_by_counts(alloc, problem, &plan, number, plan.leaves(bound), rival)
}

/// What the counts and the search that have turns came to.
#[derive(Drop)]
pub enum Finding<'a> {
    /// The solution of the number, or none where there are fewer.
    Found(Option<Vec<Choice>>),
    /// The states would take too much memory, so the search is left alone.
    LeftAlone(LoneSearch<'a>),
}

/// The solution of a number beside a search that has turns, which is left alone where the counts give up.
fn nth_beside<'a>(
    alloc: Global,
    problem: &'a Problem,
    number: &Natural,
    bound: usize,
    gone_over: &'a Cell<u64>,
) -> Result<Finding<'a>, Memory>
    requires once { IsOnce problem.now.puzzle }
    requires valid { IsValid problem.now.puzzle }
    requires bound { 0 < bound }
    ensures { IfOk result (λ f. FindsByTurns problem.now.puzzle number.now bound f) }
{
    let most = number.capped();
    let mut rival = Rival::up_to(alloc, problem, gone_over, most)?;
    // No search passes so many solutions in a lifetime.
    if Natural::from_u64(alloc, most) < *number {
        rival.pause();
    }
    match nth_by_plan(alloc, problem, number, bound, &mut rival) {
        Ok(found) => Ok(Finding::Found(found)),
        Err(Halted::Failed(_)) => Ok(Finding::LeftAlone(leave_alone(rival, problem))),
        Err(Halted::Overtaken) => {
            let search = leave_alone(rival, problem);
            Ok(Finding::Found(search.go_on_to(alloc, number)?))
        }
    }
}

/// What `nth` does, until the counts give up: then the search is returned, for the caller to go on with. They never
/// give up where `bound` is 0 or an item has other bounds than `1:1`, since then there is only the search. `gone_over`
/// is for the search alone.
///
/// # Errors
/// `Memory` where there is none for the search's tables.
pub fn nth_by_turns<'a>(
    alloc: Global,
    problem: &'a Problem,
    number: &Natural,
    bound: usize,
    gone_over: &'a Cell<u64>,
) -> Result<Finding<'a>, Memory>
    ensures { IfOk result (λ f. FindsByTurns problem.now.puzzle number.now bound f) }
{
    if bound > 0 && is_once(problem) {
        nth_beside(alloc, problem, number, bound, gone_over)
    } else {
        Ok(Finding::Found(nth_by_search(alloc, problem, number)?))
    }
}

/// The solution of a number in the listing, counted from 1; none where there are fewer. It goes down the branches of
/// the search, and counts the solutions behind each as `count` does, so it makes none of those before it. (Finding an
/// object by its rank: Nijenhuis and Wilf, Combinatorial Algorithms, 1978.) A search up to the solution takes turns
/// with the counts, unless it would have to pass 10^18 solutions. It goes on alone if the states of a count would take
/// more than about `bound` bytes. If an item has other bounds than `1:1`, there is only the search.
///
/// # Errors
/// `Memory` where there is none for the search's tables.
pub fn nth(
    alloc: Global,
    problem: &Problem,
    number: &Natural,
    bound: usize,
) -> Result<Option<Vec<Choice>>, Memory>
    ensures { IfOk result (λ found. option_map (λ c. c.items) found
        ≡ numbered_get (members problem.now.puzzle) number.now) }
{
    let gone_over = Cell::new(0);
    match nth_by_turns(alloc, problem, number, bound, &gone_over)? {
        Finding::Found(found) => Ok(found),
        Finding::LeftAlone(search) => search.go_on_to(alloc, number),
    }
}
