//! The branches of the listing, and how many covers are behind each.

ghost use Rattle.std.specs.Prelude.{ℕ, ◌≡◌, Some, true, false, IfOk, IfSome, MatchOption, length};
ghost use Rattle.xc_input.specs.Problem.{IsItem, IsOption, IsValid, IsWithinLimits, holding, uses_of};
ghost use Rattle.xc_search.specs.Once.{IsOnce};
ghost use Rattle.xc_count.specs.inner.Held.{agree, holding_uses};
ghost use Rattle.xc_count.specs.inner.Numbered.{IsLess, behind_taken, branch_at, fewer, left_by_key, solution_at};
ghost use Rattle.xc_count.specs.inner.Plans.{IsPlan};
ghost use Rattle.xc_count.specs.inner.Worth.{says};

use crate::errors::{CountError, Halted};
use crate::keys::{do_agree, mark_of, mark_uses};
use crate::left::count_left;
use crate::plan::Plan;
use crate::rival::Rival;
use crate::taken::Taken;
use natural::Natural;
use std::alloc::Global;
use xc_input::Problem;
use xc_search::Choice;

/// How many options of an item agree with a key.
fn options_left(problem: &Problem, plan: &Plan, key: &[u32], item: u32) -> u32
    requires plan { IsPlan problem.now.puzzle plan.now }
    requires item { IsItem problem.now.puzzle item }
    ensures { result ≡ length (holding item (left_by_key problem.now.puzzle plan.now key.now).options) }
{
    let ranks = plan.ranking.ranks.as_slice();
    let options = plan.options_of(item);
    let mut many: u32 = 0;
    for k in 0..options.len() {
        if do_agree(ranks, 0, key, problem.option(options[k])) {
            many += 1;
        }
    }
    many
}

/// The item of these two that has fewer branches: the first if both have as many.
fn fewer(best: Option<(u32, u32)>, item: u32, branches: u32) -> Option<(u32, u32)>
    ensures { result ≡ fewer best (item, branches) }
{
    match best {
        Some(found) if found.1 <= branches => Some(found),
        _ => Some((item, branches)),
    }
}

/// The item that is branched on in what a key leaves, and its number of branches; none where no item is free.
pub fn branch_item(problem: &Problem, plan: &Plan, key: &[u32]) -> Option<(u32, u32)>
    requires once { IsOnce problem.now.puzzle }
    requires plan { IsPlan problem.now.puzzle plan.now }
    ensures { result ≡ branch_at problem.now.puzzle plan.now key.now }
{
    let mut best = None;
    for i in 0..problem.primary() {
        if mark_of(plan.ranking.ranks.as_slice(), 0, key, i + 1) == 0 {
            best = fewer(best, i + 1, options_left(problem, plan, key, i + 1));
        }
    }
    best
}

/// The key once an option is taken, if it agrees.
fn key_with(
    alloc: Global,
    problem: &Problem,
    plan: &Plan,
    key: &[u32],
    option: u32,
) -> Result<Option<Vec<u32>>, CountError>
    requires plan { IsPlan problem.now.puzzle plan.now }
    requires known { IsOption problem.now.puzzle option }
    ensures limits { IsWithinLimits problem.now.puzzle }
    ensures key { IfOk result (λ found. MatchOption found
        (agree (says plan.now 0 key.now) (uses_of problem.now.puzzle option) ≡ false)
        (λ k. (agree (says plan.now 0 key.now) (uses_of problem.now.puzzle option) ≡ true)
        × ((i : ℕ) → IsItem problem.now.puzzle i → says plan.now 0 k.items i
        ≡ holding_uses (uses_of problem.now.puzzle option) (says plan.now 0 key.now) i))) }
{
    let uses = problem.option(option);
    let ranks = plan.ranking.ranks.as_slice();
    if !do_agree(ranks, 0, key, uses) {
        return Ok(None);
    }
    let mut next = Vec::from_slice(alloc, key)?;
    mark_uses(ranks, 0, &mut next, uses)?;
    Ok(Some(next))
}

/// Branch `k` of an item with its number of branches, which takes an option.
fn taking(fork: (u32, u32), option: u32, k: u32, key: Vec<u32>) -> Taken
    ensures { result ≡ record {
      choice = record { item = fork.0; option = Some option; k = k; n = fork.1 };
      key = key;
    } }
{
    let choice = Choice {
        item: fork.0,
        option: Some(option),
        k,
        n: fork.1,
    };
    Taken { choice, key }
}

/// The branch of an item behind which the solution of a number is. The number becomes its number there.
pub fn branch_with(
    alloc: Global,
    problem: &Problem,
    plan: &Plan,
    key: &[u32],
    fork: (u32, u32),
    number: &mut Natural,
    bound: usize,
    rival: &mut Rival,
) -> Result<Option<Taken>, Halted>
    requires once { IsOnce problem.now.puzzle }
    requires plan { IsPlan problem.now.puzzle plan.now }
    requires valid { IsValid problem.now.puzzle }
    requires fork { branch_at problem.now.puzzle plan.now key.now ≡ Some fork }
    ensures solution { IfOk result (λ taken. solution_at problem.now.puzzle plan.now key.now number.old
        ≡ behind_taken problem.now.puzzle plan.now taken number.new) }
    ensures less { IfOk result (λ taken. IfSome taken (λ t.
        IsLess problem.now.puzzle plan.now t.key.items key.now)) }
    ensures same { rival.new.puzzle ≡ rival.old.puzzle }
{
    let options = plan.options_of(fork.0);
    let mut k: u32 = 0;
    for place in 0..options.len() {
        let option = options[place];
        let Some(next) = key_with(alloc, problem, plan, key, option)? else {
            continue;
        };
        k += 1;
        // A number that is too high for the last branch is too high at each of its levels.
        if k == fork.1 {
            return Ok(Some(taking(fork, option, k, next)));
        }
        let covers = count_left(alloc, problem, plan, next.as_slice(), bound, rival)?;
        if *number <= covers {
            return Ok(Some(taking(fork, option, k, next)));
        }
        number.sub_assign(&covers);
    }
    Ok(None)
}
