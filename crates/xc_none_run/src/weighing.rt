//! Weights that are read and judged.
ghost use Rattle.std.specs.Prelude.{◌≡◌, length};
ghost use Rattle.xc_none_run.specs.Shows.{DidWeigh, JudgesWeights};

use crate::telling::{NOT_SHOWN, tell_no_weights, tell_none, tell_wrong_count};
use std::alloc::Global;
use xc_input::Problem;
use xc_none::is_refuted;
use xc_numbers::read_numbers;
use xc_streams::status::refuse;
use xc_text::{Sink, Source};

/// Judges weights of a problem's items.
fn judge_weights<E: Sink>(problem: &Problem, weights: &[i64], err: &mut E) -> u8
    ensures { JudgesWeights problem.now (length weights.now) result (E.state err.old) (E.state err.new) }
{
    if weights.len() as u64 != u64::from(problem.items()) {
        return tell_wrong_count(weights.len() as u64, u64::from(problem.items()), err);
    }
    if is_refuted(problem, weights) {
        tell_none(problem, err)
    } else {
        refuse(NOT_SHOWN, b"The weights don't show it.\n", err)
    }
}

/// Reads weights of a problem's items, and judges them.
pub(crate) fn weigh<F: Source, E: Sink>(
    alloc: Global,
    problem: &Problem,
    source: &mut F,
    err: &mut E,
) -> u8
    ensures { DidWeigh problem.now result (F.state source.old) (F.state source.new)
        (E.state err.old) (E.state err.new) }
{
    match read_numbers(alloc, source) {
        Ok(weights) => judge_weights(problem, weights.as_slice(), err),
        Err(error) => tell_no_weights(error, err),
    }
}
