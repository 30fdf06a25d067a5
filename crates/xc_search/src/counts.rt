//! How many levels a search has at most.
ghost use Rattle.std.specs.Prelude.{◌≡◌, ◌<◌, true};
ghost use Rattle.xc_input.specs.Problem.{IsValid};
ghost use Rattle.xc_search.specs.Once.{IsOnce};
ghost use Rattle.xc_search.specs.inner.Levels.{high_total, most_levels, primary_uses, IsEven};

use xc_input::{Problem, Use};

/// How often the primary items can be spent in all.
fn count_spends(problem: &Problem) -> usize
    ensures { result ≡ high_total problem.now.puzzle }
{
    let mut spends = 0;
    for i in 0..problem.primary() {
        spends += problem.item(i + 1).high as usize;
    }
    spends
}

/// How many levels a search of the problem has at most: each but the last takes an option or a
/// primary item away, and each has a Spend of its own.
pub fn most_levels(problem: &Problem) -> usize
    ensures value { result ≡ most_levels problem.now.puzzle }
    ensures valid { IsValid problem.now.puzzle }
{
    let by_size = problem.options() as usize + problem.primary() as usize;
    by_size.min(count_spends(problem))
}

/// How many primary items these uses hold.
pub fn count_primary(problem: &Problem, uses: &[Use]) -> usize
    ensures { result ≡ primary_uses problem.now.puzzle uses.now }
{
    let primary = problem.primary();
    let mut held: usize = 0;
    for u in uses {
        if u.item <= primary {
            held += 1;
        }
    }
    held
}

/// How many primary items each option holds, where all options hold as many and each item is to be held exactly once. 0
/// where that isn't known.
pub fn even_size(problem: &Problem) -> usize
    requires { IsOnce problem.now.puzzle }
    ensures { 0 < result → IsEven problem.now.puzzle result }
{
    let options = problem.options();
    if options == 0 {
        return 0;
    }
    let size = count_primary(problem, problem.option(1));
    for o in 1..options {
        if count_primary(problem, problem.option(o + 1)) != size {
            return 0;
        }
    }
    size
}
