//! How many nodes there are, and where those of each option start.
ghost use Rattle.std.specs.Prelude.{◌≡◌, length, IfOk};
ghost use Rattle.xc_moves.specs.Places.{layout};
ghost use Rattle.xc_input.specs.Problem.{IsWithinLimits};
ghost use Rattle.xc_dance.specs.inner.Tables.{starts_of};

use std::alloc::{AllocError, Global};
use xc_input::Problem;

/// How many nodes there are: the unused one, one for each item and each use, the first spacer, and one after each
/// option.
#[tactic(auto, using(crate::proofs::TableLemmas::counted_nodes))]
pub(crate) fn node_count(problem: &Problem) -> u32
    requires { IsWithinLimits problem.now.puzzle }
    ensures { result ≡ length (layout problem.now.puzzle) }
{
    problem.items() + 2 + problem.options() + problem.uses() as u32
}

/// Where the nodes of each option start.
pub(crate) fn option_starts(alloc: Global, problem: &Problem) -> Result<Vec<u32>, AllocError>
    requires { IsWithinLimits problem.now.puzzle }
    ensures { IfOk result (λ v. v.items ≡ starts_of problem.now.puzzle) }
{
    let mut starts = Vec::with_capacity(alloc, problem.options() as usize)?;
    let mut start = problem.items() + 2;
    for o in 0..problem.options() {
        starts.push(start)?;
        start += problem.option(o + 1).len() as u32 + 1;
    }
    Ok(starts)
}
