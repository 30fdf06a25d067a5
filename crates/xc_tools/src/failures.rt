//! What is reported where no problem was read.
ghost use Rattle.std.specs.Prelude.{◌≡◌, ◌++◌, OnErr, IsTrue, codes, decimal};
ghost use Rattle.xc_text.specs.Texts.{Writes, WasTold};
ghost use Rattle.xc_input.specs.FaultTexts.{fault_text};
ghost use Rattle.xc_tools.specs.WholeRuns.{no_problem};
ghost use Rattle.xc_tools.specs.Judges.{listing_fault_text};

use xc_check::ListingFault;
use xc_input::{FaultKind, InputError};
use xc_streams::status::{BAD_INPUT, FAILED, NO_MEMORY};
use xc_text::{Sink, SinkFault, write_all, write_line};

fn write_fault<S: Sink>(line: u64, kind: FaultKind, sink: &mut S) -> Result<(), SinkFault>
    ensures { Writes (S.state sink.old) (S.state sink.new)
        result (codes "Line " ++ decimal line ++ codes ": " ++ fault_text kind ++ codes ".\n") }
{
    let text = kind.text().as_bytes();
    write_line(sink, b"Line ", line, &[b": ", text, b".\n"])
}

/// Writes why no problem was read.
pub fn input_error<S: Sink>(error: &InputError, sink: &mut S) -> Result<(), SinkFault>
    ensures { Writes (S.state sink.old) (S.state sink.new) result ((no_problem error.now).1) }
{
    match *error {
        InputError::Fault { line, kind } => write_fault(line, kind, sink),
        InputError::Device => write_all(sink, b"Read failed.\n"),
        InputError::Memory => write_all(sink, b"Out of memory.\n"),
    }
}

/// The status where no problem was read.
fn error_status(error: &InputError) -> u8
    ensures { result ≡ (no_problem error.now).0 }
{
    match *error {
        InputError::Fault { line: _, kind: _ } => BAD_INPUT,
        InputError::Device => FAILED,
        InputError::Memory => NO_MEMORY,
    }
}

/// Reports why no problem was read, as far as that goes, and returns its status.
pub fn no_problem<E: Sink>(error: &InputError, err: &mut E) -> u8
    ensures status { result ≡ (no_problem error.now).0 }
    ensures told { WasTold (E.state err.old) (E.state err.new) ((no_problem error.now).1) }
{
    let _ = input_error(error, err);
    error_status(error)
}

fn write_listing_fault<S: Sink>(line: u64, text: &[u8], sink: &mut S) -> Result<(), SinkFault>
    ensures { Writes (S.state sink.old) (S.state sink.new)
        result (codes "Listing line " ++ decimal line ++ text.now) }
{
    write_line(sink, b"Listing line ", line, &[text])
}

/// Writes why a listing gets no verdicts.
pub fn listing_fault<S: Sink>(fault: &ListingFault, sink: &mut S) -> Result<(), SinkFault>
    ensures { Writes (S.state sink.old) (S.state sink.new) result (listing_fault_text fault.now) }
{
    match *fault {
        ListingFault::BadLine(line) => write_listing_fault(line, b": bad line.\n", sink),
        ListingFault::UnknownOption(line) => {
            write_listing_fault(line, b": unknown option.\n", sink)
        }
        ListingFault::Memory => write_all(sink, b"Out of memory.\n"),
    }
}
