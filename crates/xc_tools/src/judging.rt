//! A whole run of the judge. What it did is one relation by its status, in place of eighteen clauses, most of them
//! twice.
ghost use Rattle.std.specs.Prelude.{◌≡◌, ◌⊎◌, ℕ, IsSomeAnd, map, List, flat_map, if◌then◌else◌};
ghost use Rattle.std.specs.List.{list_all};
ghost use Rattle.std.specs.Io.KnownBytes.{Keeps};
ghost use Rattle.xc_input.specs.Named.{Named};
ghost use Rattle.xc_input.specs.Pieces.{IsWhole};
ghost use Rattle.xc_text.specs.Texts.{seen, Writes, Begins};
ghost use Rattle.xc_check.specs.declared.verdict.Verdict.{Verdict};
ghost use Rattle.xc_tools.specs.WholeRuns.{sinks, Prints};
ghost use Rattle.xc_tools.specs.Arguments.{asked_kind};
ghost use Rattle.xc_tools.specs.Judges.{verdict_text, HasVerdicts};
ghost use Rattle.xc_tools.specs.Judges.{DidJudgeListing, DidJudge};

use crate::arguments::asked_kind;
use crate::failures::{listing_fault, no_problem};
use std::alloc::Global;
use xc_check::{ListingFault, Verdict};
use xc_input::{Kind, Problem, read_problem_by};
use xc_list::check;
use xc_streams::status::{
    BAD_INPUT, BAD_WORDS, COMPLETE, FAILED, NO_MEMORY, NOT_ALL_COVERS, flushed, out_of_memory,
    refuse, write_failed,
};
use xc_text::{Seed, Sink, SinkFault, Source, Unread, read_text, write_all, write_number};

fn write_verdict<S: Sink>(verdict: &Verdict, sink: &mut S) -> Result<(), SinkFault>
    ensures { Writes (S.state sink.old) (S.state sink.new) result (verdict_text verdict.now) }
{
    write_number(sink, verdict.number)?;
    if verdict.cover {
        write_all(sink, b": cover\n")
    } else {
        write_all(sink, b": not a cover\n")
    }
}

fn write_verdicts<S: Sink>(verdicts: &[Verdict], sink: &mut S) -> Result<(), SinkFault>
    ensures { Writes (S.state sink.old) (S.state sink.new) result (flat_map verdict_text verdicts.now) }
{
    for verdict in verdicts {
        write_verdict(verdict, sink)?;
    }
    Ok(())
}

/// The status after these verdicts were printed.
fn judged_status(verdicts: &[Verdict]) -> u8
    ensures only { (result ≡ 0) ⊎ (result ≡ 5) }
    ensures value { result ≡ (if list_all (λ v. v.cover) verdicts.now then 0 else 5) }
{
    for verdict in verdicts {
        if !verdict.cover {
            return NOT_ALL_COVERS;
        }
    }
    COMPLETE
}

/// Writes and flushes the verdicts.
fn tell_verdicts<O: Sink, E: Sink>(verdicts: &[Verdict], out: &mut O, err: &mut E) -> u8
    ensures { Prints (if list_all (λ v. v.cover) verdicts.now then 0 else 5) result
        (sinks O.state E.state out.old err.old) (sinks O.state E.state out.new err.new)
        (flat_map verdict_text verdicts.now) }
{
    if write_verdicts(verdicts, out).is_err() {
        return write_failed(err);
    }
    match flushed(out, err) {
        Ok(()) => judged_status(verdicts),
        Err(status) => status,
    }
}

/// Judges a listing.
// The seed is passed for the contract alone, as for `solve_read`.
fn judge_listing<L: Source, O: Sink, E: Sink>(
    alloc: Global,
    _seed: Seed,
    problem: &Problem,
    listing: &mut L,
    out: &mut O,
    err: &mut E,
) -> u8
    requires hashed { problem.now.seed ≡ _seed }
    ensures did { DidJudgeListing problem.now result (L.state listing.old) (L.state listing.new)
        (sinks O.state E.state out.old err.old) (sinks O.state E.state out.new err.new) }
{
    // Held in memory whole, since all of it has to be without fault before the first verdict is written.
    let text = match read_text(alloc, listing) {
        Ok(text) => text,
        Err(Unread::Device) => return refuse(FAILED, b"Read failed.\n", err),
        Err(Unread::Memory) => return out_of_memory(err),
    };
    match check(alloc, problem, &text) {
        Ok(verdicts) => tell_verdicts(&verdicts, out, err),
        Err(fault) => {
            let _ = listing_fault(&fault, err);
            match fault {
                ListingFault::Memory => NO_MEMORY,
                _ => BAD_INPUT,
            }
        }
    }
}

/// A whole run of the judge: reads the words, then the problem, then the listing, judges each
/// solution of it, and writes the verdicts to `out` and what is wrong to `err`. The words are the
/// name of the problem's file, which is not looked at here, and perhaps `1`, `2` or `3` for the
/// program that the problem is written for. It returns the status: 0 where each solution is a cover, 5
/// where one is not, 1 for other words, 2 for a fault of the problem or the listing, 3 where a read
/// or a write failed, 4 if memory ran out. Names are hashed by the fixed seed, for a problem that
/// nobody wrote to be slow.
pub fn judge<P: Source, L: Source, O: Sink, E: Sink>(
    alloc: Global,
    words: &[Vec<u8>],
    problem: &mut P,
    listing: &mut L,
    out: &mut O,
    err: &mut E,
) -> u8
    ensures did { DidJudge (map (λ w. w.items) words.now) result
        (seen P.state problem.old) (seen P.state problem.new)
        (seen L.state listing.old) (seen L.state listing.new)
        (sinks O.state E.state out.old err.old) (sinks O.state E.state out.new err.new) }

    // Whatever the status, the output is a beginning of the verdicts.
    ensures begins { Keeps (O.state out.old).taken (O.state out.new).taken
        ⊎ IsSomeAnd (asked_kind (map (λ w. w.items) words.now)) (λ kind. (a : Named) × (ignored : List ℕ)
        × IsWhole kind (P.state problem.old) (P.state problem.new) a ignored
        × (verdicts : List Verdict) × HasVerdicts a verdicts (L.state listing.old) (L.state listing.new)
        × Begins (O.state out.old) (O.state out.new) (flat_map verdict_text verdicts)) }
{
    judge_by(alloc, Seed::FIXED, words, problem, listing, out, err)
}

/// Does what `judge` does, and hashes names by this seed, which is to be random for a problem that may be written to be
/// slow.
pub fn judge_by<P: Source, L: Source, O: Sink, E: Sink>(
    alloc: Global,
    seed: Seed,
    words: &[Vec<u8>],
    problem: &mut P,
    listing: &mut L,
    out: &mut O,
    err: &mut E,
) -> u8
    ensures did { DidJudge (map (λ w. w.items) words.now) result
        (seen P.state problem.old) (seen P.state problem.new)
        (seen L.state listing.old) (seen L.state listing.new)
        (sinks O.state E.state out.old err.old) (sinks O.state E.state out.new err.new) }

    // Whatever the status, the output is a beginning of the verdicts.
    ensures begins { Keeps (O.state out.old).taken (O.state out.new).taken
        ⊎ IsSomeAnd (asked_kind (map (λ w. w.items) words.now)) (λ kind. (a : Named) × (ignored : List ℕ)
        × IsWhole kind (P.state problem.old) (P.state problem.new) a ignored
        × (verdicts : List Verdict) × HasVerdicts a verdicts (L.state listing.old) (L.state listing.new)
        × Begins (O.state out.old) (O.state out.new) (flat_map verdict_text verdicts)) }
{
    let Some(kind) = asked_kind(words) else {
        return refuse(BAD_WORDS, b"Usage: dlxcheck PROBLEM [1|2|3]\n", err);
    };
    match read_problem_by(alloc, seed, kind, problem) {
        Ok(read) => judge_listing(alloc, seed, &read.problem, listing, out, err),
        Err(error) => no_problem(&error, err),
    }
}
