//! A whole run. What it did is one relation by its status, as for the judge of listings.
ghost use Rattle.std.specs.Prelude.{◌≡◌, map};
ghost use Rattle.xc_text.specs.Texts.{seen};
ghost use Rattle.xc_tools.specs.WholeRuns.{sinks};
ghost use Rattle.xc_none_run.specs.Shows.{DidShow, DidShowNone};
ghost use Rattle.xc_none_run.specs.inner.{sought};

use crate::asked::{Task, asked_none};
use crate::proving::{judge_proof, print_clauses};
use crate::weighing::weigh;
use std::alloc::Global;
use xc_input::{Problem, read_problem_by};
use xc_streams::status::{BAD_WORDS, refuse};
use xc_text::{Seed, Sink, Source};
use xc_tools::no_problem;

/// Does what is wanted of a problem.
// The seed is passed for the contract alone, as for `judge`.
fn show<F: Source, O: Sink, E: Sink>(
    alloc: Global,
    _seed: Seed,
    task: Task,
    problem: &Problem,
    file: &mut F,
    out: &mut O,
    err: &mut E,
) -> u8
    requires hashed { problem.now.seed ≡ _seed }
    ensures did { DidShow (sought task) problem.now result (F.state file.old) (F.state file.new)
        (sinks O.state E.state out.old err.old) (sinks O.state E.state out.new err.new) }
{
    match task {
        Task::Clauses => print_clauses(alloc, problem, out, err),
        Task::Proof => judge_proof(alloc, problem, file, err),
        Task::Weights => weigh(alloc, problem, file, err),
    }
}

/// A whole run: reads the words, then the problem, and prints its clauses to `out`; or reads a further file, a proof or
/// weights, and reports whether it shows that the problem has no solution. The words are `1`, `2` or `3` for the
/// program that the problem is written for, the name of its file, perhaps that of the further file, and behind that `w`
/// for weights; files are not looked at by their names here. It returns the status: 0 where the clauses are printed or
/// there is no solution, 5 where that isn't shown, 1 for other words, 2 for a fault of the problem or the weights, 3
/// where a read or a write failed, 4 if memory ran out. Names are hashed by this seed, which is to be random for a
/// problem that may be written to be slow.
pub fn show_none<P: Source, F: Source, O: Sink, E: Sink>(
    alloc: Global,
    seed: Seed,
    words: &[Vec<u8>],
    problem: &mut P,
    file: &mut F,
    out: &mut O,
    err: &mut E,
) -> u8
    ensures did { DidShowNone (map (λ w. w.items) words.now) result
        (seen P.state problem.old) (seen P.state problem.new) (seen F.state file.old) (seen F.state file.new)
        (sinks O.state E.state out.old err.old) (sinks O.state E.state out.new err.new) }
{
    let Some((kind, task)) = asked_none(words) else {
        return refuse(
            BAD_WORDS,
            b"Usage: dlx-none 1|2|3 PROBLEM [FILE [w]]\n",
            err,
        );
    };
    match read_problem_by(alloc, seed, kind, problem) {
        Ok(read) => show(alloc, seed, task, &read.problem, file, out, err),
        Err(error) => no_problem(&error, err),
    }
}
