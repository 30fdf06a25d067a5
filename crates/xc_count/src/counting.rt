//! The count.
ghost use Rattle.std.specs.Prelude.{ℕ, ◌≡◌, ◌≤◌, length, true, false, IfOk};
ghost use Rattle.xc_input.specs.Problem.{Puzzle, IsValid};
ghost use Rattle.xc_search.specs.Cover.{members};
ghost use Rattle.xc_count.specs.Number.{HasCovers};
ghost use Rattle.xc_count.specs.Turns.{CountsByTurns};
ghost use Rattle.xc_search.specs.Once.{IsOnce};

use crate::by_option::sweep_options;
use crate::errors::Halted;
use crate::left::sweep;
use crate::lone::{LoneSearch, leave_alone};
use crate::plan::Plan;
use crate::planning::planning_work;
use crate::rival::{FIRST_WORK, Rival};
use natural::Natural;
use std::alloc::Global;
use std::cell::Cell;
use xc_input::Problem;
use xc_search::is_once;
use xc_text::Memory;

/// How many covers a problem has, by the sweep for its kind, unless the search beside it ends first.
fn sweep_beside(
    alloc: Global,
    problem: &Problem,
    bound: usize,
    rival: &mut Rival,
) -> Result<Natural, Halted>
    ensures members { IfOk result (λ n. n ≡ length (members problem.now.puzzle)) }
    ensures valid { IsValid problem.now.puzzle }
    ensures same { rival.new.puzzle ≡ rival.old.puzzle }
{
    let once = is_once(problem);
    let planning = planning_work(problem);
    if planning > FIRST_WORK && rival.ahead(planning) {
        return Err(Halted::Overtaken);
    }
    let plan = Plan::new(alloc, problem, bound)?;
    let room = plan.leaves(bound);
    if once {
        sweep(alloc, problem, &plan, room, rival)
    } else {
        sweep_options(alloc, problem, &plan, room, rival)
    }
}

/// What the two ways that have turns came to.
#[derive(Drop)]
pub enum Counting<'a> {
    /// How many covers there are: the sweep ended first.
    Swept(Natural),
    /// The same: the search ended first, or there was no sweep.
    Searched(Natural),
    /// The states would take too much memory, so the search is left alone.
    GaveUp(LoneSearch<'a>),
}

/// What `count` does, until the sweep gives up: then the search is returned, for the caller to go on with. It never
/// gives up where `bound` is 0, since then there is only the search, which goes on to its end. `gone_over` is for the
/// search alone.
///
/// # Errors
/// `Memory` where there is none for the search's tables.
pub fn count_by_turns<'a>(
    alloc: Global,
    problem: &'a Problem,
    bound: usize,
    gone_over: &'a Cell<u64>,
) -> Result<Counting<'a>, Memory>
    ensures counts { IfOk result (λ c. CountsByTurns problem.now.puzzle bound c) }
    ensures valid { IfOk result (λ _. IsValid problem.now.puzzle) }
{
    let mut rival = Rival::new(alloc, problem, gone_over)?;
    match sweep_beside(alloc, problem, bound, &mut rival) {
        Ok(covers) => Ok(Counting::Swept(covers)),
        Err(Halted::Failed(_)) if bound > 0 => Ok(Counting::GaveUp(leave_alone(rival, problem))),
        Err(_) => Ok(Counting::Searched(rival.finish(alloc)?)),
    }
}

/// How many covers a problem has. Where the sweep gives up, the search goes on at once.
fn number_of_covers(alloc: Global, problem: &Problem, bound: usize) -> Result<Natural, Memory>
    ensures members { IfOk result (λ n. n ≡ length (members problem.now.puzzle)) }
    ensures valid { IfOk result (λ _. IsValid problem.now.puzzle) }
{
    let gone_over = Cell::new(0);
    match count_by_turns(alloc, problem, bound, &gone_over)? {
        Counting::Swept(covers) | Counting::Searched(covers) => Ok(covers),
        Counting::GaveUp(search) => search.go_on_to_end(alloc),
    }
}

/// How many covers a problem has, by two ways that have turns until one of them ends.
///
/// A sweep makes no cover: it goes through the primary items in an order that it finds, and adds up, for each state
/// that the options taken so far may leave, the ways to it. Where an item has other bounds than `1:1` it goes through
/// the options one by one, in the order of their items. (Knuth, The Art of Computer Programming 4B, 7.2.2.1, Algorithm
/// Z, and Nishino, Yasuda, Minato and Nagata, 2017, keep the same states in the order of a search.) Its time and memory
/// go by the states. They take about `bound` bytes at most: where that is not enough, it gives up.
///
/// The other way is a search that goes over each cover. It is faster where states hardly repeat, and goes on alone
/// where the sweep gave up.
///
/// # Errors
/// `Memory` where there is none for the search's tables.
pub fn count(alloc: Global, problem: &Problem, bound: usize) -> Result<Natural, Memory>
    ensures members { IfOk result (λ n. n ≡ length (members problem.now.puzzle)) }
    ensures covers { IfOk result (λ n. HasCovers problem.now.puzzle n) }
{
    let covers = number_of_covers(alloc, problem, bound)?;
    Ok(covers)
}

/// A valid problem has as many covers as its listing has members, and no other number of them.
pub fn one_number_of_covers()
    ensures listed { (p : Puzzle) → IsValid p → HasCovers p (length (members p)) }
    ensures once { (p : Puzzle) (m n : ℕ) → IsValid p → HasCovers p m → HasCovers p n → m ≡ n }
{}
