//! What is reported: that there is no solution, or why that isn't shown.
ghost use Rattle.std.specs.Prelude.{◌≡◌, ◌++◌, codes, decimal};
ghost use Rattle.xc_text.specs.Texts.{Writes};
ghost use Rattle.xc_none_run.specs.Shows.{GivesReason, HasNoCover, TellsNone, no_weights, wrong_count};

use itoa::Buffer;
use xc_input::Problem;
use xc_numbers::NumbersError;
use xc_streams::status::{BAD_INPUT, COMPLETE, FAILED, NO_MEMORY};
use xc_text::{Sink, SinkFault, write_all, write_line};

/// It isn't shown that there is no solution.
pub(crate) const NOT_SHOWN: u8 = 5;

/// Writes the last line: that there is no solution.
pub(crate) fn tell_none<E: Sink>(_problem: &Problem, err: &mut E) -> u8
    requires { HasNoCover _problem.now }
    ensures { TellsNone _problem.now result (E.state err.old) (E.state err.new) }
{
    match write_all(err, b"No solution.\n") {
        Ok(()) => COMPLETE,
        Err(_) => FAILED,
    }
}

/// Writes that a line of the weights has a fault.
fn write_faulty_line<S: Sink>(line: u64, sink: &mut S) -> Result<(), SinkFault>
    ensures { Writes (S.state sink.old) (S.state sink.new) result
        (codes "Weights line " ++ decimal line ++ codes ": no weight.\n") }
{
    write_line(sink, b"Weights line ", line, &[b": no weight.\n"])
}

/// Writes why no weights were read.
fn write_no_weights<S: Sink>(error: NumbersError, sink: &mut S) -> Result<(), SinkFault>
    ensures { Writes (S.state sink.old) (S.state sink.new) result ((no_weights error).1) }
{
    match error {
        NumbersError::Fault { line } => write_faulty_line(line, sink),
        NumbersError::Device => write_all(sink, b"Read failed.\n"),
        NumbersError::Memory => write_all(sink, b"Out of memory.\n"),
    }
}

/// The status where no weights were read.
fn weights_status(error: NumbersError) -> u8
    ensures { result ≡ (no_weights error).0 }
{
    match error {
        NumbersError::Fault { line: _ } => BAD_INPUT,
        NumbersError::Device => FAILED,
        NumbersError::Memory => NO_MEMORY,
    }
}

/// Reports why no weights were read, and returns the status of that.
pub(crate) fn tell_no_weights<E: Sink>(error: NumbersError, err: &mut E) -> u8
    ensures { GivesReason result (E.state err.old) (E.state err.new) (no_weights error) }
{
    let _ = write_no_weights(error, err);
    weights_status(error)
}

/// Writes that there are this many weights, and that many items.
fn write_wrong_count<S: Sink>(weights: u64, items: u64, sink: &mut S) -> Result<(), SinkFault>
    ensures { Writes (S.state sink.old) (S.state sink.new) result (wrong_count weights items) }
{
    let mut buffer = Buffer::new();
    let items = buffer.format(items).as_bytes();
    write_line(
        sink,
        b"Weights: ",
        weights,
        &[b" numbers, and ", items, b" items.\n"],
    )
}

/// Reports that there isn't one weight for each item, and returns the status of that.
pub(crate) fn tell_wrong_count<E: Sink>(weights: u64, items: u64, err: &mut E) -> u8
    ensures { GivesReason result (E.state err.old) (E.state err.new) (2, wrong_count weights items) }
{
    let _ = write_wrong_count(weights, items, err);
    BAD_INPUT
}
