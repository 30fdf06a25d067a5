//! In how many solutions each option is.
ghost use Rattle.std.specs.Prelude.{ℕ, ◌≡◌, ◌≢◌, ◌+◌, ◌-◌, ◌≤◌, ◌<◌, length, slice_index, All, AllPairs, IfOk, OnOk};
ghost use Rattle.std.specs.Prelude.{IfNone, IfSome, if◌then◌else◌};
ghost use Rattle.xc_input.specs.Problem.{IsValid};
ghost use Rattle.xc_search.specs.Cover.{members, options_of};
ghost use Rattle.xc_search.specs.Once.{IsOnce};
ghost use Rattle.xc_count.specs.Occurrences.{occurrences, takes};

use crate::by_states::occurrences_by_states;
use crate::counting::{Counting, count_by_turns};
use crate::errors::CountError;
use crate::members::{all_members, pass};
use crate::metered::Metered;
use crate::plan::Plan;
use crate::times::Times;
use natural::Natural;
use std::alloc::{AllocError, Global};
use std::cell::Cell;
use xc_input::Problem;
use xc_search::{Solution, is_once};
use xc_text::Memory;

/// So many options that were never taken.
fn never(alloc: Global, many: u32) -> Result<Vec<Times>, AllocError>
    ensures len { IfOk result (λ ts. length ts.items ≡ many) }
    ensures zero { IfOk result (λ ts. All (λ t. t ≡ 0) ts.items) }
{
    let mut times = Vec::with_capacity(alloc, many as usize)?;
    for _ in 0..many {
        times.push(Times::zero(alloc))?;
    }
    Ok(times)
}

/// Adds one for each option of a solution.
fn add_solution<'a>(
    alloc: Global,
    times: &mut [Times],
    solution: Solution<'_, 'a, Metered<'a>>,
) -> Result<(), AllocError>
    requires known { All (λ o. (1 ≤ o) × (o ≤ length times.old)) (options_of solution) }
    requires distinct { AllPairs (λ a b. a ≢ b) (options_of solution) }
    ensures times { OnOk result ((o : ℕ) → 1 ≤ o → slice_index times.new (o - 1)
        ≡ slice_index times.old (o - 1) + (if takes o solution.entry then 1 else 0)) }
    ensures len { length times.new ≡ length times.old }
{
    let mut left = solution;
    while let Some(choice) = left.next() {
        if let Some(option) = choice.option {
            times[option as usize - 1].count_one(alloc)?;
        }
    }
    Ok(())
}

/// The numbers of times.
fn numbers_of(alloc: Global, times: &[Times]) -> Result<Vec<Natural>, AllocError>
    ensures { IfOk result (λ ns. ns.items ≡ times.now) }
{
    let mut numbers = Vec::new(alloc);
    for t in times {
        numbers.push(t.number(alloc)?)?;
    }
    Ok(numbers)
}

/// How many solutions a problem has, and in how many each option is, by a search through all of them.
///
/// # Errors
/// `Memory` where there is none for the search's tables or the numbers.
pub fn each_by_search(alloc: Global, problem: &Problem) -> Result<(Natural, Vec<Natural>), Memory>
    ensures covers { IfOk result (λ found. found.0 ≡ length (members problem.now.puzzle)) }
    ensures each { IfOk result (λ found. found.1.items ≡ occurrences problem.now.puzzle) }
{
    let mut covers = Times::zero(alloc);
    let mut times = never(alloc, problem.options())?;
    let gone_over = Cell::new(0);
    let mut span = all_members(alloc, problem, &gone_over)?;
    while pass(&mut span, 1) == 1 {
        covers.count_one(alloc)?;
        add_solution(alloc, times.as_mut_slice(), span.choices())?;
    }
    let numbers = numbers_of(alloc, times.as_slice())?;
    Ok((covers.number(alloc)?, numbers))
}

/// In how many solutions each option is, by the states of a sweep, with a plan of its own.
fn occurrences_by_plan(
    alloc: Global,
    problem: &Problem,
    bound: usize,
) -> Result<Vec<Natural>, CountError>
    requires once { IsOnce problem.now.puzzle }
    requires valid { IsValid problem.now.puzzle }
    ensures { IfOk result (λ ns. ns.items ≡ occurrences problem.now.puzzle) }
{
    let plan = Plan::new(alloc, problem, bound)?;
    occurrences_by_states(alloc, problem, &plan, plan.leaves(bound))
}

/// What `count_each` does, until the states take too much memory: then nothing is returned, and `each_by_search` is
/// left. They never do where `bound` is 0, since then there is only the search.
///
/// # Errors
/// `Memory` where there is none for the search's tables or the numbers.
pub fn each_by_turns(
    alloc: Global,
    problem: &Problem,
    bound: usize,
) -> Result<Option<(Natural, Vec<Natural>)>, Memory>
    ensures covers { IfOk result (λ found. IfSome found (λ f. f.0 ≡ length (members problem.now.puzzle))) }
    ensures each { IfOk result (λ found. IfSome found (λ f. f.1.items ≡ occurrences problem.now.puzzle)) }
    ensures bound { IfOk result (λ found. IfNone found (0 < bound)) }
{
    if bound == 0 {
        return Ok(Some(each_by_search(alloc, problem)?));
    }
    let gone_over = Cell::new(0);
    match count_by_turns(alloc, problem, bound, &gone_over)? {
        Counting::Swept(covers) if is_once(problem) => {
            match occurrences_by_plan(alloc, problem, bound) {
                Ok(times) => Ok(Some((covers, times))),
                Err(_) => Ok(None),
            }
        }
        Counting::Swept(_) | Counting::Searched(_) => Ok(Some(each_by_search(alloc, problem)?)),
        Counting::GaveUp(_) => Ok(None),
    }
}

/// How many solutions a problem has, and in how many each option is, in the order of the file. First they are counted.
/// If the sweep came to their number first, it goes over its states twice, so it makes no solution. Otherwise, or if an
/// item has other bounds than `1:1`, or the states would take more than about `bound` bytes, it searches through all
/// solutions.
///
/// # Errors
/// `Memory` where there is none for the search's tables or the numbers.
pub fn count_each(
    alloc: Global,
    problem: &Problem,
    bound: usize,
) -> Result<(Natural, Vec<Natural>), Memory>
    ensures covers { IfOk result (λ found. found.0 ≡ length (members problem.now.puzzle)) }
    ensures each { IfOk result (λ found. found.1.items ≡ occurrences problem.now.puzzle) }
{
    match each_by_turns(alloc, problem, bound)? {
        Some(found) => Ok(found),
        None => each_by_search(alloc, problem),
    }
}

/// In how many solutions each option is, as `count_each` returns it.
///
/// # Errors
/// `Memory` where there is none for the search's tables or the numbers.
pub fn occurrences(alloc: Global, problem: &Problem, bound: usize) -> Result<Vec<Natural>, Memory>
    ensures { IfOk result (λ ns. ns.items ≡ occurrences problem.now.puzzle) }
{
    let (_, times) = count_each(alloc, problem, bound)?;
    Ok(times)
}
