//! A whole run over a span of a listing.
ghost use Rattle.std.specs.Prelude.{◌≡◌, map, codes};
ghost use Rattle.xc_input.specs.Named.{IsSound};
ghost use Rattle.xc_list.specs.SpanWords.{asked_of};
ghost use Rattle.xc_text.specs.Texts.{seen, WasTold};
ghost use Rattle.xc_tools.specs.WholeRuns.{sinks};
ghost use Rattle.xc_tools.specs.SpanRuns.{DidSpan, DidSpanWords};

use crate::arguments::asked_span;
use crate::failures::no_problem;
use std::alloc::Global;
use xc_input::{Problem, read_problem_by};
use xc_list::{SpanFault, SpanWords, list_span};
use xc_streams::status::{BAD_WORDS, COMPLETE, flushed, out_of_memory, refuse, write_failed};
use xc_text::{Seed, Sink, Source};

/// Reports which words there are.
fn refuse_words<E: Sink>(err: &mut E) -> u8
    ensures status { result ≡ 1 }
    ensures told { WasTold (E.state err.old) (E.state err.new)
        (codes "Usage: dlx-span 1|2|3 m0|m1 STEPS FROM UNTIL\n") }
{
    refuse(
        BAD_WORDS,
        b"Usage: dlx-span 1|2|3 m0|m1 STEPS FROM UNTIL\n",
        err,
    )
}

/// Searches a span of a problem's listing, and reports how that ended.
// The seed is passed for the contract alone, as for `solve_read`.
fn search_problem<O: Sink, E: Sink>(
    alloc: Global,
    _seed: Seed,
    problem: &Problem,
    words: &SpanWords,
    out: &mut O,
    err: &mut E,
) -> u8
    requires sound { IsSound problem.now }
    requires hashed { problem.now.seed ≡ _seed }
    ensures did { DidSpan problem.now (asked_of words.now) result
        (sinks O.state E.state out.old err.old) (sinks O.state E.state out.new err.new) }
{
    match list_span(alloc, problem, words, out) {
        Ok(_) => match flushed(out, err) {
            Ok(()) => COMPLETE,
            Err(status) => status,
        },
        Err(SpanFault::Memory) => out_of_memory(err),
        Err(SpanFault::WriteFailed) => write_failed(err),
    }
}

/// A whole run over a span: reads the words, then the problem, searches the span of its listing that
/// the words name, and writes it to `out` and what is wrong to `err`. The words are `1`, `2` or `3`
/// for the program that the problem is written for, `m1` for a listing or `m0` for a count alone, the
/// most steps, 0 for no bound, the row at which the span begins, and the one before which it ends. It
/// returns the status: 0 where the record was written, whether or not the search went to the span's
/// end, 1 for other words, 2 for a fault of the problem, 3 where a read or a write failed, 4 where
/// memory ran out. Names are hashed by the fixed seed, for an input that nobody wrote to be slow.
pub fn solve_span<S: Source, O: Sink, E: Sink>(
    alloc: Global,
    words: &[Vec<u8>],
    input: &mut S,
    out: &mut O,
    err: &mut E,
) -> u8
    ensures did { DidSpanWords (map (λ w. w.items) words.now) result
        (seen S.state input.old) (seen S.state input.new)
        (sinks O.state E.state out.old err.old) (sinks O.state E.state out.new err.new) }
{
    solve_span_by(alloc, Seed::FIXED, words, input, out, err)
}

/// Does what `solve_span` does, and hashes names by this seed, which is to be random for an input that may be written
/// to be slow.
pub fn solve_span_by<S: Source, O: Sink, E: Sink>(
    alloc: Global,
    seed: Seed,
    words: &[Vec<u8>],
    input: &mut S,
    out: &mut O,
    err: &mut E,
) -> u8
    ensures did { DidSpanWords (map (λ w. w.items) words.now) result
        (seen S.state input.old) (seen S.state input.new)
        (sinks O.state E.state out.old err.old) (sinks O.state E.state out.new err.new) }
{
    let (kind, words) = match asked_span(alloc, words) {
        Ok(Some(asked)) => asked,
        Ok(None) => return refuse_words(err),
        Err(_) => return out_of_memory(err),
    };
    match read_problem_by(alloc, seed, kind, input) {
        Ok(read) => search_problem(alloc, seed, &read.problem, &words, out, err),
        Err(error) => no_problem(&error, err),
    }
}
