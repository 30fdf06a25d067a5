//! Clauses that are printed, and proofs that are judged.
ghost use Rattle.std.specs.Prelude.{◌≡◌, ◌++◌, codes, decimal};
ghost use Rattle.refutation.specs.declared.answer.Answer.TheVariants.{Refuted};
ghost use Rattle.xc_text.specs.Texts.{WasTold, Writes};
ghost use Rattle.xc_tools.specs.WholeRuns.{Prints, sinks};
ghost use Rattle.xc_none.specs.Cnf.{cnf_text};
ghost use Rattle.xc_none.specs.Reported.{error_of_clauses};
ghost use Rattle.xc_none_run.specs.Shows.{DidJudgeProof, DidPrintClauses, GivesReason, HasNoCover, TellsAnswer};
ghost use Rattle.xc_none_run.specs.Shows.{no_judgement};

use crate::telling::{NOT_SHOWN, tell_none};
use refutation::Answer;
use std::alloc::Global;
use xc_input::Problem;
use xc_none::{Formula, NoneError, clauses, has_no_cover, write_cnf};
use xc_streams::status::{BAD_INPUT, COMPLETE, FAILED, NO_MEMORY, flushed, refuse, write_failed};
use xc_text::{Sink, SinkFault, Source, write_all, write_line};

/// Writes a line about a step.
fn write_step<S: Sink>(step: u64, behind: &[u8], sink: &mut S) -> Result<(), SinkFault>
    ensures { Writes (S.state sink.old) (S.state sink.new) result (codes "Step " ++ decimal step ++ behind.now) }
{
    write_line(sink, b"Step ", step, &[behind])
}

/// Reports that a step shows nothing, and returns the status of that.
fn tell_step<E: Sink>(step: u64, behind: &[u8], err: &mut E) -> u8
    ensures { GivesReason result (E.state err.old) (E.state err.new) (5, codes "Step " ++ decimal step ++ behind.now) }
{
    let _ = write_step(step, behind, err);
    NOT_SHOWN
}

/// Reports what a proof showed, and returns the status of that.
fn tell_answer<E: Sink>(problem: &Problem, answer: Answer, err: &mut E) -> u8
    requires { answer ≡ Refuted → HasNoCover problem.now }
    ensures { TellsAnswer problem.now answer result (E.state err.old) (E.state err.new) }
{
    match answer {
        Answer::Refuted => tell_none(problem, err),
        Answer::Unfinished => refuse(NOT_SHOWN, b"The proof ends before the empty clause.\n", err),
        Answer::DoesNotFollow(step) => tell_step(step, b" doesn't follow.\n", err),
        Answer::NoStep(step) => tell_step(step, b" is no step.\n", err),
    }
}

/// Writes why a proof wasn't judged.
fn write_no_judgement<S: Sink>(error: NoneError, sink: &mut S) -> Result<(), SinkFault>
    ensures { Writes (S.state sink.old) (S.state sink.new) result ((no_judgement error).1) }
{
    match error {
        NoneError::Device => write_all(sink, b"Read failed.\n"),
        NoneError::Memory => write_all(sink, b"Out of memory.\n"),
        NoneError::TooManyVariables => write_all(sink, b"The clauses have too many variables.\n"),
        NoneError::Lost => write_all(sink, b"The clauses lack a variable.\n"),
    }
}

/// The status where a proof wasn't judged.
fn judgement_status(error: NoneError) -> u8
    ensures { result ≡ (no_judgement error).0 }
{
    match error {
        NoneError::Device => FAILED,
        NoneError::Memory => NO_MEMORY,
        NoneError::TooManyVariables => BAD_INPUT,
        NoneError::Lost => BAD_INPUT,
    }
}

/// Reports why a proof wasn't judged, or why there are no clauses, and returns the status of that.
fn tell_no_judgement<E: Sink>(error: NoneError, err: &mut E) -> u8
    ensures { GivesReason result (E.state err.old) (E.state err.new) (no_judgement error) }
{
    let _ = write_no_judgement(error, err);
    judgement_status(error)
}

/// Judges a proof that the problem has no cover.
pub(crate) fn judge_proof<F: Source, E: Sink>(
    alloc: Global,
    problem: &Problem,
    source: &mut F,
    err: &mut E,
) -> u8
    ensures { DidJudgeProof problem.now result (F.state source.old) (F.state source.new)
        (E.state err.old) (E.state err.new) }
{
    match has_no_cover(alloc, problem, source) {
        Ok(answer) => tell_answer(problem, answer, err),
        Err(error) => tell_no_judgement(error, err),
    }
}

/// Prints clauses of a problem.
fn print_formula<O: Sink, E: Sink>(
    problem: &Problem,
    formula: &Formula,
    out: &mut O,
    err: &mut E,
) -> u8
    ensures { Prints 0 result
        (sinks O.state E.state out.old err.old) (sinks O.state E.state out.new err.new)
        (cnf_text problem.now formula.now.meanings.items formula.now.clauses.items) }
{
    if write_cnf(out, problem, formula).is_err() {
        return write_failed(err);
    }
    match flushed(out, err) {
        Ok(()) => COMPLETE,
        Err(status) => status,
    }
}

/// Prints the clauses of a problem.
pub(crate) fn print_clauses<O: Sink, E: Sink>(
    alloc: Global,
    problem: &Problem,
    out: &mut O,
    err: &mut E,
) -> u8
    ensures did { DidPrintClauses problem.now result
        (sinks O.state E.state out.old err.old) (sinks O.state E.state out.new err.new) }
{
    match clauses(alloc, problem) {
        Ok(formula) => print_formula(problem, &formula, out, err),
        Err(error) => tell_no_judgement(NoneError::from(error), err),
    }
}
