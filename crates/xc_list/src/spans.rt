//! A span of a listing, as far as a search of it goes.
ghost use Rattle.std.specs.Prelude.{◌≡◌, ◌++◌, ◌-◌, ◌^◌, ◌<◌, ◌≤◌, [], All, MatchResult, map, flat_map, IfSome};
ghost use Rattle.std.specs.Prelude.{◌+◌, IfOk, take, codes};
ghost use Rattle.xc_moves.specs.Dancing.{moves_made};
ghost use Rattle.xc_search.specs.Room.{room_for};
ghost use Rattle.xc_search.specs.InSpan.{left_of};
ghost use Rattle.xc_search.specs.Listing.{whole};
ghost use Rattle.xc_search.specs.Nodes.{IsRowOf};
ghost use Rattle.xc_input.specs.Named.{IsSound};
ghost use Rattle.xc_list.specs.Known.{IsKnownChoice};
ghost use Rattle.xc_text.specs.Texts.{seen, Writes, Took, BrokeOff};
ghost use Rattle.xc_list.specs.SpanTexts.{row_text, end_at, members_text, listing_text, heading_text};
ghost use Rattle.xc_list.specs.SpanTexts.{problem_part};
ghost use Rattle.xc_list.specs.Digests.{digest_of};
ghost use Rattle.xc_list.specs.SearchedSpans.{AreSmall};
ghost use Rattle.xc_list.specs.SpanWords.{asked_of};
ghost use Rattle.xc_list.specs.SpanRuns.{most_steps, OfSpan, AnswersSpan, SpanMakesFew};
ghost use Rattle.xc_list.specs.inner.Writing.{dotted, numbers_text, text_at, row_in, branches_in, until_text};
ghost use Rattle.xc_list.specs.inner.Writing.{counts_text, rows_text, told_text, WentOn, BeginsAt, written_text};
ghost use Rattle.xc_list.specs.inner.Writing.{GoesFew, SpanWritten, closing};

use crate::asked::SpanWords;
use crate::bodies::Bodies;
use crate::digest::problem_digest;
use crate::digest_sink::DigestSink;
use crate::ends::SpanFault;
use crate::page::Page;
use crate::print::write_noted;
use std::alloc::Global;
use xc_dance::Links;
use xc_input::Problem;
use xc_moves::{Dance, most_moves};
use xc_search::{Halt, Span, Went};
use xc_text::{Sink, SinkFault, write_all, write_number, write_numbered};

/// What the text of a span has of its problem: the options as they are printed, and the digest.
#[derive(Drop)]
struct Texts<'a> {
    bodies: Bodies<'a>,
    digest: [u8; 16],
    ghost same: { digest ≡ digest_of bodies },
}

impl<'a> Texts<'a> {
    /// Those of a problem, whose solutions are listed or not.
    fn new(alloc: Global, problem: &'a Problem, listed: bool) -> Texts<'a>
        ensures value { result.bodies ≡ problem.now }
        ensures whole { IsSound problem.now }
    {
        Texts {
            bodies: Bodies::for_printing(alloc, problem, listed),
            digest: problem_digest(problem),
        }
    }
}

/// Writes a number of a row after a point.
fn write_dotted<S: Sink>(n: u32, sink: &mut S) -> Result<(), SinkFault>
    ensures { Writes (S.state sink.old) (S.state sink.new) result (dotted n) }
{
    write_all(sink, b".")?;
    write_number(sink, n as u64)
}

/// Writes the numbers of a row after its first one.
fn write_numbers<S: Sink>(numbers: &[u32], sink: &mut S) -> Result<(), SinkFault>
    ensures { Writes (S.state sink.old) (S.state sink.new) result (flat_map dotted numbers.now) }
{
    for n in numbers {
        write_dotted(*n, sink)?;
    }
    Ok(())
}

/// Writes a row: its numbers with points between, or `-` for the empty row.
#[tactic(auto, using(xc_text::proofs::SinkLemmas::then_writes, crate::proofs::SpanLemmas::row_parts))]
fn write_row<S: Sink>(row: &[u32], sink: &mut S) -> Result<(), SinkFault>
    ensures { Writes (S.state sink.old) (S.state sink.new) result (row_text row.now) }
{
    let [first, numbers @ ..] = row else {
        return write_all(sink, b"-");
    };
    write_number(sink, *first as u64)?;
    write_numbers(numbers, sink)
}

/// Writes the number at a place of a row, after a point where it isn't the first.
fn write_at<S: Sink>(place: usize, n: u32, sink: &mut S) -> Result<(), SinkFault>
    ensures { Writes (S.state sink.old) (S.state sink.new) result (text_at place n) }
{
    if place == 0 {
        return write_number(sink, n as u64);
    }
    write_dotted(n, sink)
}

/// Writes the numbers of the row that a search is at.
fn write_reached<'a, D: Dance, S: Sink>(span: &Span<'a, D>, sink: &mut S) -> Result<(), SinkFault>
    ensures { Writes (S.state sink.old) (S.state sink.new) result (numbers_text (row_in span.now)) }
{
    let mut place = 0;
    while let Some(number) = span.number_at(place) {
        write_at(place, number.k, sink)?;
        place += 1;
    }
    Ok(())
}

/// Writes how many branches each level has of the row that a search is at.
fn write_branches<'a, D: Dance, S: Sink>(span: &Span<'a, D>, sink: &mut S) -> Result<(), SinkFault>
    ensures { Writes (S.state sink.old) (S.state sink.new) result (numbers_text (branches_in span.now)) }
{
    let mut place = 0;
    while let Some(number) = span.number_at(place) {
        write_at(place, number.n, sink)?;
        place += 1;
    }
    Ok(())
}

/// Writes the row at which a search stopped, with the branches of its levels.
fn write_stop<'a, D: Dance, S: Sink>(span: &Span<'a, D>, sink: &mut S) -> Result<(), SinkFault>
    ensures { Writes (S.state sink.old) (S.state sink.new) result
        (numbers_text (row_in span.now) ++ codes " of " ++ numbers_text (branches_in span.now)) }
{
    write_reached(span, sink)?;
    write_all(sink, b" of ")?;
    write_branches(span, sink)
}

/// Writes up to where a search of a span went: to the span's end, or to the row at which it stopped.
fn write_until<'a, D: Dance, S: Sink>(
    span: &Span<'a, D>,
    halt: Halt,
    until: &[u32],
    sink: &mut S,
) -> Result<(), SinkFault>
    ensures { Writes (S.state sink.old) (S.state sink.new) result (until_text span.now until.now halt) }
{
    match halt {
        Halt::End => write_row(until, sink),
        Halt::Member => write_stop(span, sink),
        Halt::Steps => write_stop(span, sink),
    }
}

/// Writes the counts of a record.
fn write_counts<S: Sink>(went: &Went, sink: &mut S) -> Result<(), SinkFault>
    ensures { Writes (S.state sink.old) (S.state sink.new) result (counts_text went.now) }
{
    write_numbered(sink, b" solutions ", went.members, b" steps ")?;
    write_number(sink, went.steps)
}

/// Writes of which problem a text is.
fn write_problem_part<S: Sink>(digest: &[u8], sink: &mut S) -> Result<(), SinkFault>
    ensures { Writes (S.state sink.old) (S.state sink.new) result (problem_part digest.now) }
{
    write_all(sink, b" problem ")?;
    write_all(sink, digest)
}

/// Writes where a span begins.
fn write_from<S: Sink>(from: &[u32], sink: &mut S) -> Result<(), SinkFault>
    ensures { Writes (S.state sink.old) (S.state sink.new) result (codes "from " ++ row_text from.now) }
{
    write_all(sink, b"from ")?;
    write_row(from, sink)
}

/// Writes the heading of a listed span.
fn write_heading<S: Sink>(from: &[u32], digest: &[u8], sink: &mut S) -> Result<(), SinkFault>
    ensures { Writes (S.state sink.old) (S.state sink.new) result (heading_text from.now digest.now) }
{
    write_from(from, sink)?;
    write_problem_part(digest, sink)?;
    write_all(sink, b"\n")
}

/// Takes the heading of a listed span into the digest of its text.
fn note_heading(from: &[u32], digest: &[u8], text: &mut DigestSink)
    ensures { Took (⟦<DigestSink as Sink>⟧.state text.old) (⟦<DigestSink as Sink>⟧.state text.new)
        (heading_text from.now digest.now) }
{
    let _ = write_heading(from, digest, text);
}

/// Writes a span's two rows, as far as its search went.
fn write_rows<'a, D: Dance, S: Sink>(
    span: &Span<'a, D>,
    halt: Halt,
    words: &SpanWords,
    sink: &mut S,
) -> Result<(), SinkFault>
    ensures { Writes (S.state sink.old) (S.state sink.new)
        result (rows_text span.now words.now.from.items words.now.until.items halt) }
{
    write_from(&words.from, sink)?;
    write_all(sink, b" until ")?;
    write_until(span, halt, &words.until, sink)
}

/// Writes the record of a span, up to the digest of its text.
fn write_front<'a, D: Dance, S: Sink>(
    span: &Span<'a, D>,
    went: &Went,
    words: &SpanWords,
    digest: &[u8],
    sink: &mut S,
) -> Result<(), SinkFault>
    ensures { Writes (S.state sink.old) (S.state sink.new)
        result (told_text span.now words.now.from.items words.now.until.items went.now digest.now) }
{
    write_rows(span, went.halt, words, sink)?;
    write_counts(went, sink)?;
    write_problem_part(digest, sink)
}

/// Takes the record of a span into the digest of its text.
fn note_front<'a, D: Dance>(
    span: &Span<'a, D>,
    went: &Went,
    words: &SpanWords,
    digest: &[u8],
    text: &mut DigestSink,
)
    ensures { Took (⟦<DigestSink as Sink>⟧.state text.old) (⟦<DigestSink as Sink>⟧.state text.new)
        (told_text span.now words.now.from.items words.now.until.items went.now digest.now) }
{
    let _ = write_front(span, went, words, digest, text);
}

/// Writes the digest of a text, to the end of its last line.
fn write_closing<S: Sink>(digest: &[u8], sink: &mut S) -> Result<(), SinkFault>
    ensures { Writes (S.state sink.old) (S.state sink.new) result (closing digest.now) }
{
    write_all(sink, b" text ")?;
    write_all(sink, digest)?;
    write_all(sink, b"\n")
}

/// Writes the members of a span that its search comes to, numbered from 1, and answers how far it went.
fn write_each<'a, D: Dance, S: Sink>(
    span: &mut Span<'a, D>,
    bodies: &Bodies,
    most: u64,
    text: &mut DigestSink,
    sink: &mut S,
) -> Result<Went, SinkFault>
    requires same { span.old.puzzle ≡ bodies.now.puzzle }
    requires known { All (All (IsKnownChoice bodies.now.puzzle)) (left_of span.old) }
    requires some { 0 < most }
    requires node { IfSome span.old.row (λ row. IsRowOf (whole span.old.puzzle) row) }
    ensures still { span.new ≡ record span.old {
      row = span.new.row;
      shown = span.new.shown;
      made = span.new.made;
      begun = span.new.begun;
    } }
    ensures node { IfSome span.new.row (λ row. IsRowOf (whole span.new.puzzle) row) }
    ensures few { IfOk result (λ went. GoesFew (went.members + 1) went.steps span.old span.new) }
    ensures wrote { MatchResult result
        (λ went. WentOn span.old.puzzle span.old.until span.old.row span.new.row most went ×
        Took (S.state sink.old) (S.state sink.new)
        (members_text bodies.now (take went.members (left_of span.old))))
        (λ _. BrokeOff (S.state sink.old) (S.state sink.new) (members_text bodies.now (left_of span.old))) }
    ensures noted { IfOk result (λ went.
        Took (⟦<DigestSink as Sink>⟧.state text.old) (⟦<DigestSink as Sink>⟧.state text.new)
        (members_text bodies.now (take went.members (left_of span.old)))) }
{
    let mut page = Page::new();
    let mut steps = 0;
    for members in 0..u64::MAX {
        let went = span.go_on(1, most - steps);
        steps += went.steps;
        match went.halt {
            Halt::Member => { write_noted(members + 1, span, bodies, &mut page, text, sink)? }
            halt => {
                return Ok(Went {
                    halt,
                    members,
                    steps,
                });
            }
        }
    }
    Ok(Went {
        halt: Halt::Member,
        members: u64::MAX,
        steps,
    })
}

/// Writes the heading of a span and the members that its search comes to, and answers how far it went.
fn write_listing<'a, D: Dance, S: Sink>(
    span: &mut Span<'a, D>,
    texts: &Texts,
    from: &[u32],
    most: u64,
    text: &mut DigestSink,
    sink: &mut S,
) -> Result<Went, SinkFault>
    requires same { span.old.puzzle ≡ texts.now.bodies.puzzle }
    requires known { All (All (IsKnownChoice texts.now.bodies.puzzle)) (left_of span.old) }
    requires some { 0 < most }
    requires node { IfSome span.old.row (λ row. IsRowOf (whole span.old.puzzle) row) }
    ensures still { span.new ≡ record span.old {
      row = span.new.row;
      shown = span.new.shown;
      made = span.new.made;
      begun = span.new.begun;
    } }
    ensures node { IfSome span.new.row (λ row. IsRowOf (whole span.new.puzzle) row) }
    ensures few { IfOk result (λ went. GoesFew (went.members + 1) went.steps span.old span.new) }
    ensures wrote { MatchResult result
        (λ went. WentOn span.old.puzzle span.old.until span.old.row span.new.row most went ×
        Took (S.state sink.old) (S.state sink.new)
        (listing_text texts.now.bodies from.now (take went.members (left_of span.old))))
        (λ _. BrokeOff (S.state sink.old) (S.state sink.new)
        (listing_text texts.now.bodies from.now (left_of span.old))) }
    ensures noted { IfOk result (λ went.
        Took (⟦<DigestSink as Sink>⟧.state text.old) (⟦<DigestSink as Sink>⟧.state text.new)
        (listing_text texts.now.bodies from.now (take went.members (left_of span.old)))) }
{
    note_heading(from, &texts.digest, text);
    write_heading(from, &texts.digest, sink)?;
    write_each(span, &texts.bodies, most, text, sink)
}

/// Passes over the members of a span that its search comes to, and answers how far it went.
fn count<'a, D: Dance>(span: &mut Span<'a, D>, most: u64) -> Went
    requires some { 0 < most }
    ensures still { span.new ≡ record span.old {
      row = span.new.row;
      shown = span.new.shown;
      made = span.new.made;
      begun = span.new.begun;
    } }
    ensures node { IfSome span.new.row (λ row. IsRowOf (whole span.new.puzzle) row) }
    ensures few { GoesFew (result.members + 1) result.steps span.old span.new }
    ensures went { WentOn span.old.puzzle span.old.until span.old.row span.new.row most result }
{
    span.go_on(u64::MAX, most)
}

/// Goes on as far as the words allow, writes the listing if it is wanted, and returns how far it went.
fn write_wanted<'a, D: Dance, S: Sink>(
    span: &mut Span<'a, D>,
    texts: &Texts,
    words: &SpanWords,
    text: &mut DigestSink,
    sink: &mut S,
) -> Result<Went, SinkFault>
    requires same { span.old.puzzle ≡ texts.now.bodies.puzzle }
    requires known { All (All (IsKnownChoice texts.now.bodies.puzzle)) (left_of span.old) }
    requires node { IfSome span.old.row (λ row. IsRowOf (whole span.old.puzzle) row) }
    ensures still { span.new ≡ record span.old {
      row = span.new.row;
      shown = span.new.shown;
      made = span.new.made;
      begun = span.new.begun;
    } }
    ensures node { IfSome span.new.row (λ row. IsRowOf (whole span.new.puzzle) row) }
    ensures small { words.now.steps < 2 ^ 64 }
    ensures few { IfOk result (λ went. GoesFew (went.members + 1) went.steps span.old span.new) }
    ensures wrote { MatchResult result
        (λ went. WentOn span.old.puzzle span.old.until span.old.row span.new.row
        (most_steps words.now.steps) went × Took (S.state sink.old) (S.state sink.new)
        (written_text texts.now.bodies words.now.listed words.now.from.items (take went.members (left_of span.old))))
        (λ _. BrokeOff (S.state sink.old) (S.state sink.new)
        (written_text texts.now.bodies words.now.listed words.now.from.items (left_of span.old))) }
    ensures noted { IfOk result (λ went.
        Took (⟦<DigestSink as Sink>⟧.state text.old) (⟦<DigestSink as Sink>⟧.state text.new)
        (written_text texts.now.bodies words.now.listed words.now.from.items (take went.members (left_of span.old)))) }
{
    let most = most_steps(words.steps);
    if words.listed {
        write_listing(span, texts, &words.from, most, text, sink)
    } else {
        Ok(count(span, most))
    }
}

/// How many steps are taken at most.
fn most_steps(steps: u64) -> u64
    ensures most { result ≡ most_steps steps }
    ensures some { 0 < result }
    ensures small { steps < 2 ^ 64 }
{
    if steps == 0 { u64::MAX } else { steps }
}

/// Writes the text of a span whose search was just begun, up to where it goes.
fn write_span<'a, D: Dance, S: Sink>(
    span: &mut Span<'a, D>,
    texts: &Texts,
    words: &SpanWords,
    sink: &mut S,
) -> Result<Went, SinkFault>
    requires sound { IsSound texts.now.bodies }
    requires from { AreSmall words.now.from.items }
    requires until { AreSmall words.now.until.items }
    requires begun { BeginsAt texts.now.bodies.puzzle words.now.from.items (end_at words.now.until.items) span.old }
    ensures still { span.new ≡ record span.old {
      row = span.new.row;
      shown = span.new.shown;
      made = span.new.made;
      begun = span.new.begun;
    } }
    ensures few { IfOk result (λ went. GoesFew (went.members + 1) went.steps span.old span.new) }
    ensures wrote { SpanWritten texts.now.bodies (asked_of words.now) (S.state sink.old) (S.state sink.new) result }
{
    let mut text = DigestSink::new();
    let went = write_wanted(span, texts, words, &mut text, sink)?;
    note_front(span, &went, words, &texts.digest, &mut text);
    write_front(span, &went, words, &texts.digest, sink)?;
    write_closing(&text.text_digits(), sink)?;
    Ok(went)
}

/// Searches the span that the words mean, over a dance that has no moves and room for `2 * items + 2 * uses` of
/// them, and writes it: where it begins and its solutions, numbered from 1, if they are listed, and then its record,
/// which says where it begins and up to which row the search went, how many solutions are between these, and how
/// many steps it took. The search goes to the span's end unless it uses all steps before, or passes 2^64 - 1 solutions;
/// then the record has the number of branches of each level too. Answers how far it went.
///
/// All memory is taken before the first byte is written; where there is none, nothing is. The dance comes back with no
/// moves, however it ended.
pub fn list_span_over<D: Dance, S: Sink>(
    alloc: Global,
    dance: D,
    problem: &Problem,
    words: &SpanWords,
    sink: &mut S,
) -> (D, Result<Went, SpanFault>)
    requires same { (D.state dance).puzzle ≡ problem.now.puzzle }
    requires none { (D.state dance).trail ≡ [] }
    requires room { room_for problem.now.puzzle ≤ (D.state dance).room }
    ensures dance { D.state result.0 ≡ record (D.state dance) { undone = (D.state result.0).undone } }
    ensures moves { IfOk result.1 (SpanMakesFew problem.now.puzzle (asked_of words.now)
        (moves_made (D.state dance)) (moves_made (D.state result.0))) }
    ensures span { AnswersSpan problem.now (asked_of words.now)
        (seen S.state sink.old) (seen S.state sink.new) result.1 }
{
    let mut span = match Span::new(alloc, dance, problem, words.start(), words.end()) {
        Ok(span) => span,
        Err((dance, _)) => return (dance, Err(SpanFault::Memory)),
    };
    let texts = Texts::new(alloc, problem, words.listed);
    let wrote = write_span(&mut span, &texts, words, sink);
    let dance = span.close();
    match wrote {
        Ok(went) => (dance, Ok(went)),
        Err(_) => (dance, Err(SpanFault::WriteFailed)),
    }
}

/// Does what `list_span_over` does over linked tables of its own.
pub fn list_span<S: Sink>(
    alloc: Global,
    problem: &Problem,
    words: &SpanWords,
    sink: &mut S,
) -> Result<Went, SpanFault>
    ensures { AnswersSpan problem.now (asked_of words.now)
        (seen S.state sink.old) (seen S.state sink.new) result }
{
    match Links::new(alloc, problem, most_moves(problem)) {
        Ok(links) => {
            let (_, went) = list_span_over(alloc, links, problem, words, sink);
            went
        }
        Err(_) => Err(SpanFault::Memory),
    }
}
