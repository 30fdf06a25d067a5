//! A whole run.
ghost use Rattle.std.specs.Prelude.{◌≡◌, ◌⊎◌, ◌*◌, ◌^◌, ◌-◌, map, min, length};
ghost use Rattle.xc_search.specs.Cover.{members};
ghost use Rattle.xc_text.specs.Texts.{seen};
ghost use Rattle.xc_tools.specs.WholeRuns.{sinks};
ghost use Rattle.xc_count_run.specs.Alone.{DidPerhapsAlone};
ghost use Rattle.xc_count_run.specs.Counts.{DidAnswer, DidCountWords, DidWarnAndAnswer};
ghost use Rattle.xc_count_run.specs.LastLine.{Concludes};
ghost use Rattle.xc_count_run.specs.inner.{ReportsAlone, ReportsCount};
ghost use Rattle.xc_tools.specs.CountArguments.{meaning};

use crate::messages::{count_line, write_gave_up};
use crate::occurring::tell_each;
use crate::solution::find_solution;
use natural::Natural;
use std::alloc::Global;
use std::cell::Cell;
use xc_count::{Counting, LoneSearch, count_by_turns};
use xc_input::{Problem, Read, read_problem_by};
use xc_list::warnings;
use xc_streams::status::{BAD_WORDS, COMPLETE, FAILED, out_of_memory, refuse};
use xc_text::{Seed, Sink, Source, write_all};
use xc_tools::{AskedCount, Question, asked_count, no_problem};

/// Writes the last line.
pub fn write_last<E: Sink>(line: &[u8], err: &mut E) -> u8
    ensures { Concludes line.now result (E.state err.old) (E.state err.new) }
{
    match write_all(err, line) {
        Ok(()) => COMPLETE,
        Err(_) => FAILED,
    }
}

/// Writes the number of a problem's covers.
fn tell_count<E: Sink>(alloc: Global, problem: &Problem, covers: &Natural, err: &mut E) -> u8
    requires { covers.now ≡ length (members problem.now.puzzle) }
    ensures { ReportsCount problem.now result (E.state err.old) (E.state err.new) }
{
    let Ok(line) = count_line(alloc, covers) else {
        return out_of_memory(err);
    };
    write_last(line.as_slice(), err)
}

/// The bytes of so many megabytes, as far as there are so many.
fn bytes(megabytes: u64) -> usize
    ensures { result ≡ min (2 ^ 64 - 1) (megabytes * 1000000) }
{
    megabytes.saturating_mul(1_000_000) as usize
}

/// Counts the covers of a problem by a search that goes on alone.
fn count_alone<E: Sink>(alloc: Global, problem: &Problem, search: LoneSearch, err: &mut E) -> u8
    requires { search ≡ problem.now.puzzle }
    ensures { ReportsCount problem.now result (E.state err.old) (E.state err.new) }
{
    match search.go_on_to_end(alloc) {
        Ok(covers) => tell_count(alloc, problem, &covers, err),
        Err(_) => out_of_memory(err),
    }
}

/// Counts the covers of a problem.
fn count_problem<E: Sink>(alloc: Global, problem: &Problem, bound: usize, err: &mut E) -> u8
    ensures { ReportsCount problem.now result (E.state err.old) (E.state err.new)
        ⊎ ReportsAlone problem.now result (E.state err.old) (E.state err.new) }
{
    let gone_over = Cell::new(0);
    match count_by_turns(alloc, problem, bound, &gone_over) {
        Ok(Counting::Swept(covers) | Counting::Searched(covers)) => {
            tell_count(alloc, problem, &covers, err)
        }
        Ok(Counting::GaveUp(search)) => match write_gave_up(err) {
            Ok(()) => count_alone(alloc, problem, search, err),
            Err(_) => FAILED,
        },
        Err(_) => out_of_memory(err),
    }
}

/// Answers what is asked of a problem.
fn answer<O: Sink, E: Sink>(
    alloc: Global,
    problem: &Problem,
    asked: &AskedCount,
    out: &mut O,
    err: &mut E,
) -> u8
    ensures did { DidPerhapsAlone (λ from. DidAnswer (meaning asked.now.question) result
        from (sinks O.state E.state out.new err.new) problem.now) result
        (sinks O.state E.state out.old err.old) (sinks O.state E.state out.new err.new) }
{
    let bound = bytes(asked.megabytes);
    match asked.question {
        Question::HowMany => count_problem(alloc, problem, bound, err),
        Question::Solution(digits) => find_solution(alloc, problem, digits, bound, out, err),
        Question::OfEachOption => tell_each(alloc, problem, bound, out, err),
    }
}

/// Reports the ignored options, and answers what was asked of the problem.
// No status and no byte tells by which seed names were hashed, so the seed is passed for the contract alone: a caller
// that read by another one has no proof.
fn answer_read<O: Sink, E: Sink>(
    alloc: Global,
    _seed: Seed,
    read: &Read,
    asked: &AskedCount,
    out: &mut O,
    err: &mut E,
) -> u8
    requires hashed { read.now.problem.seed ≡ _seed }
    ensures did { DidWarnAndAnswer (meaning asked.now.question) result
        (sinks O.state E.state out.old err.old) (sinks O.state E.state out.new err.new)
        read.now.problem read.now.ignored.items }
{
    match warnings(read, err) {
        Ok(()) => answer(alloc, &read.problem, asked, out, err),
        Err(_) => FAILED,
    }
}

/// A whole run: reads the words, then the problem, and counts its covers, in all or those of each option, or finds the
/// solution of a number. The words are `1`, `2` or `3` for the program that the problem is written for, perhaps `b`
/// with the most megabytes that the states of a sweep may take, and perhaps `o`, or `n` with the number of a solution.
/// Where so much memory is not enough, a search goes on alone. Without `n` the number of covers is written to `err`,
/// with `o` after a line for each option to `out`: its number and in how many covers it is. With `n` the solution of
/// that number is written to `out`, as a whole listing would have it. Messages go to `err`. It returns the status: 0
/// where the answer was printed, 1 for other words, 2 for a fault of the problem, 3 where a read or a write failed, 4
/// where memory ran out, 5 where there are fewer solutions than `n` says. Names are hashed by the fixed seed,
/// for an input that nobody wrote to be slow.
pub fn count_covers<S: Source, O: Sink, E: Sink>(
    alloc: Global,
    words: &[Vec<u8>],
    input: &mut S,
    out: &mut O,
    err: &mut E,
) -> u8
    ensures did { DidCountWords (map (λ w. w.items) words.now) result
        (seen S.state input.old) (seen S.state input.new)
        (sinks O.state E.state out.old err.old) (sinks O.state E.state out.new err.new) }
{
    count_covers_by(alloc, Seed::FIXED, words, input, out, err)
}

/// Does what `count_covers` does, and hashes names by this seed, which is to be random for an input that may be written
/// to be slow.
pub fn count_covers_by<S: Source, O: Sink, E: Sink>(
    alloc: Global,
    seed: Seed,
    words: &[Vec<u8>],
    input: &mut S,
    out: &mut O,
    err: &mut E,
) -> u8
    ensures did { DidCountWords (map (λ w. w.items) words.now) result
        (seen S.state input.old) (seen S.state input.new)
        (sinks O.state E.state out.old err.old) (sinks O.state E.state out.new err.new) }
{
    let Some(asked) = asked_count(words) else {
        return refuse(
            BAD_WORDS,
            b"Usage: dlx-count 1|2|3 [bMEGABYTES] [nNUMBER|o]\n",
            err,
        );
    };
    match read_problem_by(alloc, seed, asked.kind, input) {
        Ok(read) => answer_read(alloc, seed, &read, &asked, out, err),
        Err(error) => no_problem(&error, err),
    }
}
