//! What is reported beside a listing.
ghost use Rattle.std.specs.Prelude.{◌≡◌, ℕ, ◌+◌, ◌-◌, ◌<◌, ◌≤◌, ◌++◌, flat_map, OnErr, IsTrue, decimal, codes, ◌==◌};
ghost use Rattle.std.specs.Prelude.{if◌then◌else◌};
ghost use Rattle.xc_text.specs.Texts.{Writes};
ghost use Rattle.xc_list.specs.Messages.{total_text, summary_text, warning_text, word_fault_text};

use crate::ends::End;
use crate::words::WordFault;
use xc_input::Read;
use xc_text::{Sink, SinkFault, write_line};

/// The word that follows the number of solutions.
pub fn solutions_word<'a>(is_one: bool) -> &'a [u8]
    ensures { result.now ≡ (if is_one then codes " solution" else codes " solutions") }
{
    if is_one { b" solution" } else { b" solutions" }
}

fn write_total<'a, S: Sink>(n: u64, tail: &'a [u8], sink: &mut S) -> Result<(), SinkFault>
    ensures { Writes (S.state sink.old) (S.state sink.new) result (total_text n (decimal n) tail.now) }
{
    write_line(sink, b"Altogether ", n, &[solutions_word(n == 1), tail])
}

fn write_failed<S: Sink>(n: u64, sink: &mut S) -> Result<(), SinkFault>
    ensures { Writes (S.state sink.old) (S.state sink.new) result
        (codes "Write failed at solution " ++ decimal n ++ codes ".\n") }
{
    write_line(sink, b"Write failed at solution ", n, &[b".\n"])
}

/// Writes how a run ended.
pub fn summary<S: Sink>(end: &End, sink: &mut S) -> Result<(), SinkFault>
    ensures { Writes (S.state sink.old) (S.state sink.new) result (summary_text end.now) }
{
    match *end {
        End::Done(n) => write_total(n, b".\n", sink),
        End::Limit(n) => write_total(n, b" (limit).\n", sink),
        End::WriteFailed(n) => write_failed(n, sink),
    }
}

fn write_warning<S: Sink>(line: u64, sink: &mut S) -> Result<(), SinkFault>
    ensures { Writes (S.state sink.old) (S.state sink.new) result (warning_text line) }
{
    write_line(
        sink,
        b"Option ignored (no primary items): line ",
        line,
        &[b"\n"],
    )
}

fn write_warnings<S: Sink>(lines: &[u64], sink: &mut S) -> Result<(), SinkFault>
    ensures { Writes (S.state sink.old) (S.state sink.new) result (flat_map warning_text lines.now) }
{
    for line in lines {
        write_warning(*line, sink)?;
    }
    Ok(())
}

/// Writes a line for each option that was ignored, in order.
pub fn warnings<S: Sink>(read: &Read, sink: &mut S) -> Result<(), SinkFault>
    ensures { Writes (S.state sink.old) (S.state sink.new)
        result (flat_map warning_text read.now.ignored.items) }
{
    write_warnings(&read.ignored, sink)
}

fn write_word<S: Sink>(place: usize, tail: &[u8], sink: &mut S) -> Result<(), SinkFault>
    ensures { Writes (S.state sink.old) (S.state sink.new) result (codes "Word " ++ decimal place ++ tail.now) }
{
    write_line(sink, b"Word ", place as u64, &[tail])
}

/// Writes which word is faulty.
pub fn word_fault<S: Sink>(fault: &WordFault, sink: &mut S) -> Result<(), SinkFault>
    ensures { Writes (S.state sink.old) (S.state sink.new) result (word_fault_text fault.now) }
{
    match *fault {
        WordFault::Unknown(n) => write_word(n, b": unknown.\n", sink),
        WordFault::BadNumber(n) => write_word(n, b": bad number.\n", sink),
        WordFault::ZeroLimit(n) => write_word(n, b": limit must be at least 1.\n", sink),
    }
}
