//! A whole run that joins the texts of spans.
//!
//! The listing of a span begins with a line that names its first row and its problem. A record alone, at the end, would
//! come too late: by the line a join knows before the first solution whether the ends meet, holds only a line, and
//! never writes a solution after a gap.
ghost use Rattle.std.specs.Prelude.{◌≡◌, ◌++◌, ◌∷◌, [], ℕ, List, false, codes, IfErr, IfOk, OnOk};
ghost use Rattle.std.specs.Prelude.{◌⊎◌, ◌==◌, IsOkAnd, drop, map, option_copied, if◌then◌else◌};
ghost use Rattle.xc_list.specs.SpanTexts.{most_counted};
ghost use Rattle.xc_list.specs.declared.ends.End.TheVariants.{Done, Limit};
ghost use Rattle.xc_text.specs.Sources.{GaveAll};
ghost use Rattle.xc_text.specs.LinesRead.{IsLine};
ghost use Rattle.xc_text.specs.Words.{has};
ghost use Rattle.xc_text.specs.inner.LineFeeds.{ended};
ghost use Rattle.xc_text.specs.Texts.{seen, Took, WasTold, Writes};
ghost use Rattle.xc_tools.specs.Joins.{gap_text, at_line, no_text, other_text, unread_text, DidJoin};
ghost use Rattle.xc_tools.specs.Joins.{DidJoinWords};
ghost use Rattle.xc_tools.specs.WholeRuns.{sinks};
ghost use Rattle.xc_tools.specs.inner.Joining.{joined_text, fed_lines, Adds, EndsAt, IsAfter, JoinsAll};
ghost use Rattle.xc_tools.specs.inner.Joining.{StopsIn};
ghost use Rattle.xc_streams.specs.Flushes.{FlushFailed, WasFlushed};
ghost use Rattle.xc_tools.specs.inner.Joining.{StopsReading, ToldStop};
ghost use Rattle.xc_tools.specs.inner.SpanLines.{act_text};

use crate::arguments::asked_join;
use crate::joint::{Joint, Lines};
use crate::outcomes::{Act, Stop};
use crate::solving::finish;
use crate::span_lines::put_word;
use itoa::Buffer;
use std::alloc::{AllocError, Global};
use xc_list::End;
use xc_streams::status::{
    BAD_INPUT, BAD_WORDS, COMPLETE, FAILED, GAP, NO_MEMORY, flush_and_refuse, refuse, write_failed,
};
use xc_streams::{Located, source_at, source_text};
use xc_text::{Given, LineReader, Sink, SinkFault, write_all, write_line};

/// Writes what is to be written for a line, which comes with its line feed.
fn write_act<O: Sink>(act: Act, with_feed: &[u8], out: &mut O) -> Result<(), SinkFault>
    ensures { (line : List ℕ) → with_feed.now ≡ line ++ 10 ∷ [] →
        Writes (O.state out.old) (O.state out.new) result (act_text act line) }
{
    match act {
        Act::Nothing => Ok(()),
        Act::Copy => write_all(out, with_feed),
        Act::Header(number) => write_line(out, b"", number, &[b":\n"]),
    }
}

/// Takes a line, without and with its line feed.
fn take_line<O: Sink>(
    alloc: Global,
    lines: &mut Lines,
    line: &[u8],
    with_feed: &[u8],
    out: &mut O,
) -> Result<(), Stop>
    requires after { IsAfter lines.old }
    requires free { has 10 line.now ≡ false }
    requires with_feed { with_feed.now ≡ line.now ++ 10 ∷ [] }
    ensures listed { lines.new.joint.listed ≡ lines.old.joint.listed }
    ensures after { OnOk result (IsAfter lines.new) }
    ensures given { OnOk result (lines.new.given.lines ≡ lines.old.given.lines ++ line.now ∷ []) }
    ensures adds { OnOk result (Adds lines.old.joint.listed lines.old.given.lines lines.new.given.lines Took
        (O.state out.old) (O.state out.new)) }
    ensures stops { IfErr result (StopsIn lines.old.joint.listed lines.old.given.lines
        (ended lines.old.given.lines ++ (line.now ++ 10 ∷ [])) lines.new.joint (O.state out.old) (O.state out.new)) }
{
    let act = lines.joint.take(alloc, line)?;
    write_act(act, with_feed, out)?;
    lines.given = Given::after(&lines.given, line);
    Ok(())
}

/// Counts a line more.
fn count_line(lines: &mut Lines)
    ensures joint { lines.new.joint ≡ lines.old.joint }
    ensures given { lines.new.given.lines ≡ lines.old.given.lines }
{
    lines.taken = lines.taken.saturating_add(1);
    if lines.joint.found.is_none() {
        lines.begun = lines.taken;
    }
}

/// Counts a line that comes with its line feed, and takes it.
fn end_line<O: Sink>(
    alloc: Global,
    lines: &mut Lines,
    with_feed: &[u8],
    out: &mut O,
) -> Result<(), Stop>
    requires after { IsAfter lines.old }
    requires line { IsLine with_feed.now }
    ensures listed { lines.new.joint.listed ≡ lines.old.joint.listed }
    ensures after { OnOk result (IsAfter lines.new) }
    ensures given { OnOk result (ended lines.new.given.lines ≡ ended lines.old.given.lines ++ with_feed.now) }
    ensures adds { OnOk result (Adds lines.old.joint.listed lines.old.given.lines lines.new.given.lines Took
        (O.state out.old) (O.state out.new)) }
    ensures stops { IfErr result (StopsIn lines.old.joint.listed lines.old.given.lines
        (ended lines.old.given.lines ++ with_feed.now) lines.new.joint (O.state out.old) (O.state out.new)) }
{
    count_line(lines);
    take_line(
        alloc,
        lines,
        &with_feed[..with_feed.len() - 1],
        with_feed,
        out,
    )
}

/// Takes all that comes from the source.
fn feed_all<S: Located, O: Sink>(
    alloc: Global,
    lines: &mut Lines,
    reader: &mut LineReader,
    input: &mut S,
    out: &mut O,
) -> Result<(), Stop>
    requires unread { reader.old.unread ≡ [] }
    requires after { IsAfter lines.old }
    requires none { lines.old.given.lines ≡ [] }
    ensures listed { lines.new.joint.listed ≡ lines.old.joint.listed }
    ensures after { OnOk result (IsAfter lines.new) }
    ensures part { OnOk result (has 10 reader.new.rest ≡ false) }
    ensures all { OnOk result (GaveAll (S.Source.state input.old) (S.Source.state input.new)
        (fed_lines lines.new reader.new.rest)) }
    ensures adds { OnOk result (Took (O.state out.old) (O.state out.new)
        (joined_text lines.old.joint.listed lines.new.given.lines)) }
    ensures stops { IfErr result (StopsReading lines.old.joint.listed lines.new.joint
        (S.Source.state input.old) (S.Source.state input.new) (O.state out.old) (O.state out.new)) }
{
    'reading: loop {
        if !reader.advance(input)? {
            return Ok(());
        }
        end_line(alloc, lines, reader.last_line(), out)?;
    }
}

/// Looks whether the text ends where it may.
fn end_text(lines: &mut Lines, carry: &[u8]) -> Result<(), Stop>
    ensures given { lines.new.given.lines ≡ lines.old.given.lines }
    ensures ends { EndsAt carry.now lines.old.joint lines.new.joint result }
{
    if lines.joint.found.is_some() || !carry.is_empty() {
        count_line(lines);
        return Err(Stop::NotText);
    }
    if !lines.joint.finished {
        count_line(lines);
        put_word(&mut lines.joint.next, b"-")?;
        return Err(Stop::Gap);
    }
    Ok(())
}

/// The front of a message about a line.
fn at_line(alloc: Global, file: Option<&[u8]>, line: u64) -> Result<Vec<u8>, AllocError>
    ensures { IfOk result (λ text. text.items ≡ at_line (option_copied file.entry) line) }
{
    let mut text = source_text(alloc, file)?;
    text.extend_from_slice(b"line ")?;
    text.extend_from_slice(Buffer::new().format(line).as_bytes())?;
    text.extend_from_slice(b": ")?;
    Ok(text)
}

/// What is reported of ends that don't meet.
fn gap_text(
    alloc: Global,
    file: Option<&[u8]>,
    line: u64,
    joint: &Joint,
) -> Result<Vec<u8>, AllocError>
    ensures { IfOk result (λ text. text.items
        ≡ gap_text (option_copied file.entry) line joint.now.met.items joint.now.next.items) }
{
    let mut text = at_line(alloc, file, line)?;
    text.extend_from_slice(b"gap from ")?;
    text.extend_from_slice(&joint.met)?;
    text.extend_from_slice(b" until ")?;
    text.extend_from_slice(&joint.next)?;
    text.extend_from_slice(b".\n")?;
    Ok(text)
}

/// What is reported of a line that isn't one of a span's text.
fn fault_text(alloc: Global, file: Option<&[u8]>, line: u64) -> Result<Vec<u8>, AllocError>
    ensures { IfOk result (λ text. text.items ≡ no_text (option_copied file.entry) line) }
{
    let mut text = at_line(alloc, file, line)?;
    text.extend_from_slice(b"not the text of a span.\n")?;
    Ok(text)
}

/// What is reported of a text of another problem than the first one, with the places where both begin.
fn other_text(
    alloc: Global,
    file: Option<&[u8]>,
    line: u64,
    first: Option<&[u8]>,
    begun: u64,
) -> Result<Vec<u8>, AllocError>
    ensures { IfOk result (λ text. text.items
        ≡ other_text (option_copied file.entry) line (option_copied first.entry) begun) }
{
    let mut text = at_line(alloc, file, line)?;
    text.extend_from_slice(b"another problem than in ")?;
    text.extend_from_slice(&source_text(alloc, first)?)?;
    text.extend_from_slice(b"line ")?;
    text.extend_from_slice(Buffer::new().format(begun).as_bytes())?;
    text.extend_from_slice(b".\n")?;
    Ok(text)
}

/// What is reported of a failed read.
fn unread_text(alloc: Global, file: Option<&[u8]>) -> Result<Vec<u8>, AllocError>
    ensures { IfOk result (λ text. text.items ≡ unread_text (option_copied file.entry)) }
{
    let mut text = source_text(alloc, file)?;
    text.extend_from_slice(b"read failed.\n")?;
    Ok(text)
}

/// Flushes the output and reports a text, if there is memory for it.
fn tell<O: Sink, E: Sink>(
    status: u8,
    text: Result<Vec<u8>, AllocError>,
    out: &mut O,
    err: &mut E,
) -> u8
    ensures { (WasFlushed (O.state out.old) (O.state out.new)
        × (IsOkAnd text (λ t. (result ≡ status) × WasTold (E.state err.old) (E.state err.new) t.items)
        ⊎ ((result ≡ 4) × WasTold (E.state err.old) (E.state err.new) (codes "Out of memory.\n"))))
        ⊎ ((result ≡ 3) × FlushFailed (O.state out.old) (O.state out.new)
        × WasTold (E.state err.old) (E.state err.new) (codes "Write failed.\n")) }
{
    match text {
        Ok(text) => flush_and_refuse(status, &text, out, err),
        Err(_) => flush_and_refuse(NO_MEMORY, b"Out of memory.\n", out, err),
    }
}

/// Flushes the output and reports a failed read, with the name of what is read if there is memory for it.
fn tell_unread<O: Sink, E: Sink>(alloc: Global, file: Option<&[u8]>, out: &mut O, err: &mut E) -> u8
    ensures { (WasFlushed (O.state out.old) (O.state out.new) × (result ≡ 3)
        × (WasTold (E.state err.old) (E.state err.new) (unread_text (option_copied file.entry))
        ⊎ WasTold (E.state err.old) (E.state err.new) (codes "Read failed.\n")))
        ⊎ ((result ≡ 3) × FlushFailed (O.state out.old) (O.state out.new)
        × WasTold (E.state err.old) (E.state err.new) (codes "Write failed.\n")) }
{
    match unread_text(alloc, file) {
        Ok(text) => flush_and_refuse(FAILED, &text, out, err),
        Err(_) => flush_and_refuse(FAILED, b"Read failed.\n", out, err),
    }
}

/// How the whole listing ends.
fn end_of_total(total: u64) -> End
    ensures { result ≡ (if total == most_counted then Limit total else Done total) }
{
    if total == u64::MAX {
        End::Limit(total)
    } else {
        End::Done(total)
    }
}

/// Reads and joins all texts.
fn join_all<S: Located, O: Sink>(
    alloc: Global,
    lines: &mut Lines,
    input: &mut S,
    out: &mut O,
) -> Result<(), Stop>
    requires after { IsAfter lines.old }
    requires none { lines.old.given.lines ≡ [] }
    ensures joins { JoinsAll lines.old.joint.listed lines.new.joint (S.Source.state input.old)
        (S.Source.state input.new) (O.state out.old) (O.state out.new) result }
{
    let mut reader = LineReader::new(alloc)?;
    feed_all(alloc, lines, &mut reader, input, out)?;
    end_text(lines, reader.rest())
}

/// Reports why no more was read.
fn tell_stop<S: Located, O: Sink, E: Sink>(
    alloc: Global,
    stop: Stop,
    files: &[Vec<u8>],
    lines: &Lines,
    input: &S,
    out: &mut O,
    err: &mut E,
) -> u8
    ensures { ToldStop (map (λ w. w.items) files.now) lines.now.joint stop result
        (O.state out.old) (O.state out.new) (E.state err.old) (E.state err.new) }
{
    let place = input.place(lines.begun, lines.taken);
    let file = source_at(files, place.file);
    match stop {
        Stop::NotText => tell(BAD_INPUT, fault_text(alloc, file, place.line), out, err),
        Stop::Other => {
            let first = input.place(1, 1);
            let text = other_text(
                alloc,
                file,
                place.line,
                source_at(files, first.file),
                first.line,
            );
            tell(GAP, text, out, err)
        }
        Stop::Gap => tell(
            GAP,
            gap_text(alloc, file, place.line, &lines.joint),
            out,
            err,
        ),
        Stop::Device => tell_unread(alloc, source_at(files, input.reading()), out, err),
        Stop::Memory => flush_and_refuse(NO_MEMORY, b"Out of memory.\n", out, err),
        Stop::WriteFailed => write_failed(err),
    }
}

/// Nothing was read yet.
fn first_lines(joint: Joint) -> Lines
    ensures joint { result.joint ≡ joint }
    ensures given { result.given.lines ≡ [] }
{
    Lines {
        joint,
        given: Given::new(),
        taken: 0,
        begun: 1,
    }
}

/// Joins the texts that come from a source.
fn join_input<S: Located, O: Sink, E: Sink>(
    alloc: Global,
    listed: bool,
    files: &[Vec<u8>],
    input: &mut S,
    out: &mut O,
    err: &mut E,
) -> u8
    ensures did { DidJoin listed (map (λ w. w.items) files.now) result
        (S.Source.state input.old) (S.Source.state input.new)
        (sinks O.state E.state out.old err.old) (sinks O.state E.state out.new err.new) }
{
    let Ok(joint) = Joint::new(alloc, listed) else {
        return flush_and_refuse(NO_MEMORY, b"Out of memory.\n", out, err);
    };
    let mut lines = first_lines(joint);
    match join_all(alloc, &mut lines, input, out) {
        Ok(()) => finish(&end_of_total(lines.joint.total), out, err),
        Err(stop) => tell_stop(alloc, stop, files, &lines, input, out, err),
    }
}

/// The words after the first one.
fn named_files(words: &[Vec<u8>]) -> &[Vec<u8>]
    ensures { result.now ≡ drop 1 words.now }
{
    match words {
        [] => &[],
        [_, files @ ..] => files,
    }
}

/// A whole run that joins spans: reads the texts that `dlx-span` writes, one after another, looks whether
/// each begins where the one before it ended, from the beginning of the listing to its end, and writes the
/// solutions to `out`, numbered anew, and how many there are to `err`. The words are `m1` for listings or
/// `m0` for records alone, and then the names of the input's files, for messages. It returns the status: 0 where
/// the listing is complete, 1 for other words, 2 for what isn't the text of a span, 3 where a read or a write
/// failed, 4 if memory ran out, 5 where the ends don't meet or the texts are of more than one problem.
pub fn join_spans<S: Located, O: Sink, E: Sink>(
    alloc: Global,
    words: &[Vec<u8>],
    input: &mut S,
    out: &mut O,
    err: &mut E,
) -> u8
    ensures did { DidJoinWords (map (λ w. w.items) words.now) result
        (seen S.Source.state input.old) (seen S.Source.state input.new)
        (sinks O.state E.state out.old err.old) (sinks O.state E.state out.new err.new) }
{
    match asked_join(words) {
        Some(listed) => join_input(alloc, listed, named_files(words), input, out, err),
        None => refuse(BAD_WORDS, b"Usage: dlx-join m0|m1 [FILE..]\n", err),
    }
}
