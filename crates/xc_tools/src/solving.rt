//! A whole run of a program. What it did is one relation by its status: as clauses, one a fact, there were sixteen,
//! most of them twice, and what holds at a status had to be gathered from all.
ghost use Rattle.std.specs.Prelude.{◌≡◌, ◌⊎◌, ◌+◌, ℕ, List, IsOkAnd, map};
ghost use Rattle.std.specs.Io.KnownBytes.{Keeps};
ghost use Rattle.xc_list.specs.Messages.{summary_text};
ghost use Rattle.xc_list.specs.Output.{output};
ghost use Rattle.xc_list.specs.declared.ends.End.TheVariants.{WriteFailed};
ghost use Rattle.xc_list.specs.Settings.{read_words};
ghost use Rattle.xc_text.specs.Texts.{seen, WasTold, Begins};
ghost use Rattle.xc_input.specs.Named.{Named};
ghost use Rattle.xc_input.specs.Pieces.{IsWhole};
ghost use Rattle.xc_tools.specs.Solves.{DidSearch, DidWarnAndSearch, DidSolve};
ghost use Rattle.xc_tools.specs.WholeRuns.{sinks};
ghost use Rattle.xc_tools.specs.inner.Finished.{DidFinish};

use crate::failures::no_problem;
use std::alloc::Global;
use xc_input::{Kind, Problem, Read, read_problem_by};
use xc_list::{End, Words, run, summary, warnings, word_fault};
use xc_streams::status::{BAD_WORDS, COMPLETE, FAILED, flushed, out_of_memory};
use xc_text::{Memory, Seed, Sink, Source};

/// Flushes the output, and reports the end of a complete run.
pub(crate) fn finish<O: Sink, E: Sink>(end: &End, out: &mut O, err: &mut E) -> u8
    ensures kept { Keeps (O.state out.old).taken (O.state out.new).taken }
    ensures flushed_once { (O.state out.new).flushes ≡ (O.state out.old).flushes + 1 }
    ensures did { DidFinish result end.now (O.state out.old) (O.state out.new) (E.state err.old) (E.state err.new) }
{
    // Status 0 needs this by contract: a flush takes no bytes, so the bytes alone would not show that it failed.
    if let Err(status) = flushed(out, err) {
        return status;
    }
    match summary(end, err) {
        Ok(()) => COMPLETE,
        Err(_) => FAILED,
    }
}

/// Reports at which solution a write failed, as far as that goes, and returns its status: 3.
fn tell_failed_write<E: Sink>(solution: u64, err: &mut E) -> u8
    ensures status { result ≡ 3 }
    ensures told { WasTold (E.state err.old) (E.state err.new) (summary_text (WriteFailed solution)) }
{
    let _ = summary(&End::WriteFailed(solution), err);
    FAILED
}

/// Searches a problem, and reports how that ended.
fn solve_problem<O: Sink, E: Sink>(
    alloc: Global,
    problem: &Problem,
    words: Words,
    out: &mut O,
    err: &mut E,
) -> u8
    ensures did { DidSearch problem.now words result
        (sinks O.state E.state out.old err.old) (sinks O.state E.state out.new err.new) }
{
    match run(alloc, problem, words, out) {
        Err(Memory) => out_of_memory(err),
        Ok(End::WriteFailed(n)) => tell_failed_write(n, err),
        Ok(End::Done(n)) => finish(&End::Done(n), out, err),
        Ok(End::Limit(n)) => finish(&End::Limit(n), out, err),
    }
}

/// Reports the ignored options, and searches the problem.
// No status and no byte tells by which seed names were hashed, so the seed is passed for the contract alone: a caller
// that read by another one has no proof.
fn solve_read<O: Sink, E: Sink>(
    alloc: Global,
    _seed: Seed,
    read: &Read,
    words: Words,
    out: &mut O,
    err: &mut E,
) -> u8
    requires hashed { read.now.problem.seed ≡ _seed }
    ensures did { DidWarnAndSearch words result
        (sinks O.state E.state out.old err.old) (sinks O.state E.state out.new err.new)
        read.now.problem read.now.ignored.items }
{
    match warnings(read, err) {
        Ok(()) => solve_problem(alloc, &read.problem, words, out, err),
        Err(_) => FAILED,
    }
}

/// A whole run: reads the words, then the problem, searches it, and writes the listing to `out` and
/// the messages to `err`. It returns the status: 0 where the run was complete or met its limit, 1 for
/// a bad word, 2 for a fault of the input, 3 where a read or a write failed, 4 if memory ran
/// out. Names are hashed by the fixed seed, for an input that nobody wrote to be slow.
pub fn solve<S: Source, O: Sink, E: Sink>(
    alloc: Global,
    kind: Kind,
    words: &[Vec<u8>],
    input: &mut S,
    out: &mut O,
    err: &mut E,
) -> u8
    ensures did { DidSolve kind (map (λ w. w.items) words.now) result
        (seen S.state input.old) (seen S.state input.new)
        (sinks O.state E.state out.old err.old) (sinks O.state E.state out.new err.new) }

    // Whatever the status, the output is a beginning of the problem's.
    ensures begins { Keeps (O.state out.old).taken (O.state out.new).taken
        ⊎ IsOkAnd (read_words (map (λ w. w.items) words.now)) (λ w. (a : Named) × (ignored : List ℕ)
        × IsWhole kind (S.state input.old) (S.state input.new) a ignored
        × Begins (O.state out.old) (O.state out.new) (output a w.spacing w.limit)) }
{
    solve_by(alloc, Seed::FIXED, kind, words, input, out, err)
}

/// Does what `solve` does, and hashes names by this seed, which is to be random for an input that may be written to be
/// slow.
pub fn solve_by<S: Source, O: Sink, E: Sink>(
    alloc: Global,
    seed: Seed,
    kind: Kind,
    words: &[Vec<u8>],
    input: &mut S,
    out: &mut O,
    err: &mut E,
) -> u8
    ensures did { DidSolve kind (map (λ w. w.items) words.now) result
        (seen S.state input.old) (seen S.state input.new)
        (sinks O.state E.state out.old err.old) (sinks O.state E.state out.new err.new) }

    // Whatever the status, the output is a beginning of the problem's.
    ensures begins { Keeps (O.state out.old).taken (O.state out.new).taken
        ⊎ IsOkAnd (read_words (map (λ w. w.items) words.now)) (λ w. (a : Named) × (ignored : List ℕ)
        × IsWhole kind (S.state input.old) (S.state input.new) a ignored
        × Begins (O.state out.old) (O.state out.new) (output a w.spacing w.limit)) }
{
    let words = match Words::read(words) {
        Ok(words) => words,
        Err(fault) => {
            let _ = word_fault(&fault, err);
            return BAD_WORDS;
        }
    };
    match read_problem_by(alloc, seed, kind, input) {
        Ok(read) => solve_read(alloc, seed, &read, words, out, err),
        Err(error) => no_problem(&error, err),
    }
}
