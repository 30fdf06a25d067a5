//! Solutions as text.
//!
//! The lines of a solution are put together on a page, which is written when the solution ends: a little over half of
//! the instructions of printing that writing piece by piece takes. The page isn't kept until it is full, so that a
//! write that fails is one of the solution that it is reported for. The first lines that are those of the solution
//! before stay on the page, up to 64 (a fifth): the marks of the search's levels show which. Null lines, lines with a
//! number of three digits, and lines for which there is no room don't go on the page: it is written, the line after it
//! piece by piece, and the next solution starts a new page. The solutions of a span go from the page into the digest of
//! its text too.
//!
//! The end of a line is one number of eight bytes. That saves no instructions, but no load waits for bytes that were
//! just stored. The function that writes a solution's lines is inlined into the run (4 % of the instructions of
//! printing). A solution that the page doesn't take is written out of line, two digits without a call, and the two
//! numbers of a line are tested one after the other: 1 % each.
ghost use Rattle.std.specs.Prelude.{◌≡◌, ◌+◌, ◌<◌, ◌≤◌, ◌++◌, All, flat_map, OnErr, IsTrue, codes, length, take, drop};
ghost use Rattle.std.specs.Prelude.{IfOk, IfSome, IsNone, MatchResult, []};
ghost use Rattle.xc_text.specs.Texts.{Writes, Took};
ghost use Rattle.xc_input.specs.Problem.{IsItem};
ghost use Rattle.xc_check.specs.UseTexts.{bytes_at};
ghost use Rattle.xc_list.specs.Output.{body_text, choice_text, member_text};
ghost use Rattle.xc_list.specs.inner.Writing.{branch_text, IsPut, held_text, AreKept, MatchMark, lines_end};
ghost use Rattle.xc_search.specs.Marks.{marked, IsMark};
ghost use Rattle.xc_list.specs.Known.{IsKnownChoice};
ghost use Rattle.xc_list.specs.declared.places.TheConstants.{LINES, PADDING, ROOM};

use crate::bodies::{Bodies, LaidOut};
use crate::digest_sink::DigestSink;
use crate::page::{Kept, Page, put_bytes, put_header};
use crate::places::{Held, LINES, Line};
use crate::uses::write_name;
use xc_input::Problem;
use xc_search::{AtMember, Choice, Mark};
use xc_text::{Sink, SinkFault, write_all, write_number, write_two_numbers};

/// Writes that no option is taken.
fn write_none<S: Sink>(problem: &Problem, item: u32, sink: &mut S) -> Result<(), SinkFault>
    requires { IsItem problem.now.puzzle item }
    ensures { Writes (S.state sink.old) (S.state sink.new)
        result (codes " null " ++ bytes_at problem.now.names item) }
{
    write_all(sink, b" null ")?;
    write_name(problem, item, sink)
}

fn write_body<S: Sink>(bodies: &Bodies, choice: &Choice, sink: &mut S) -> Result<(), SinkFault>
    requires { IsKnownChoice bodies.now.puzzle choice.now }
    ensures { Writes (S.state sink.old) (S.state sink.new)
        result (body_text bodies.now choice.now.item choice.now.option) }
{
    match choice.option {
        Some(o) => bodies.write_option(choice.item, o, sink),
        None => write_none(bodies.problem(), choice.item, sink),
    }
}

/// The end of a line: branch and number of branches, of one digit each. Eight of its bytes are made
/// at once, so that they can be copied at once: made one by one they were read back before they had come to memory,
/// for which the processor waits.
#[inline(always)]
fn digit_of_digit(k: u8, n: u8) -> [u8; 10]
    requires { (k < 10) × (n < 10) }
    ensures { result ≡ branch_text k n }
{
    let zeros = u64::from_le_bytes(*b" (0 of 0");
    let front = zeros + k as u64 * 0x1_0000 + n as u64 * 0x100_0000_0000_0000;
    let mut text = *b" (0 of 0)\n";
    text[..8].copy_from_slice(&front.to_le_bytes());
    text
}

/// The end of a line where the branch has one digit and the number of branches two.
#[tactic(auto, using(std::proofs::lemmas::Fmt::decimal_digit, std::proofs::lemmas::Fmt::decimal_step))]
fn digit_of_two_digits(k: u8, n: u8) -> [u8; 11]
    requires branch { k < 10 }
    requires branches { (10 ≤ n) × (n < 100) }
    ensures { result ≡ branch_text k n }
{
    [
        b' ',
        b'(',
        b'0' + k,
        b' ',
        b'o',
        b'f',
        b' ',
        b'0' + n / 10,
        b'0' + n % 10,
        b')',
        b'\n',
    ]
}

/// The end of a line where both have two digits.
#[tactic(auto, using(std::proofs::lemmas::Fmt::decimal_digit, std::proofs::lemmas::Fmt::decimal_step))]
fn two_digits_of_two_digits(k: u8, n: u8) -> [u8; 12]
    requires branch { (10 ≤ k) × (k < 100) }
    requires branches { (10 ≤ n) × (n < 100) }
    ensures { result ≡ branch_text k n }
{
    [
        b' ',
        b'(',
        b'0' + k / 10,
        b'0' + k % 10,
        b' ',
        b'o',
        b'f',
        b' ',
        b'0' + n / 10,
        b'0' + n % 10,
        b')',
        b'\n',
    ]
}

/// Writes branch and number of branches piece by piece, to the end of the line.
fn write_branch_in_pieces<S: Sink>(k: u32, n: u32, sink: &mut S) -> Result<(), SinkFault>
    ensures { Writes (S.state sink.old) (S.state sink.new) result (branch_text k n) }
{
    write_two_numbers(sink, b" (", k as u64, b" of ", n as u64, b")\n")
}

/// Writes branch and number of branches where one has two digits or more, to the end of the line.
#[inline(never)]
fn write_long_branch<S: Sink>(k: u32, n: u32, sink: &mut S) -> Result<(), SinkFault>
    ensures { Writes (S.state sink.old) (S.state sink.new) result (branch_text k n) }
{
    if 10 <= n && n < 100 {
        if k < 10 {
            return write_all(sink, &digit_of_two_digits(k as u8, n as u8));
        }
        if k < 100 {
            return write_all(sink, &two_digits_of_two_digits(k as u8, n as u8));
        }
    }
    write_branch_in_pieces(k, n, sink)
}

/// Writes branch and number of branches, to the end of the line.
#[inline(always)]
fn write_branch<S: Sink>(k: u32, n: u32, sink: &mut S) -> Result<(), SinkFault>
    ensures { Writes (S.state sink.old) (S.state sink.new) result (branch_text k n) }
{
    if k < 10 && n < 10 {
        return write_all(sink, &digit_of_digit(k as u8, n as u8));
    }
    write_long_branch(k, n, sink)
}

#[inline]
#[tactic(auto, using(xc_text::proofs::SinkLemmas::then_writes))]
fn write_choice<S: Sink>(bodies: &Bodies, choice: &Choice, sink: &mut S) -> Result<(), SinkFault>
    requires { IsKnownChoice bodies.now.puzzle choice.now }
    ensures { Writes (S.state sink.old) (S.state sink.new) result (choice_text bodies.now choice.now) }
{
    write_body(bodies, choice, sink)?;
    write_branch(choice.k, choice.n, sink)
}

/// Puts branch and number of branches on a page, to the end of the line, where the number has two digits
/// and the branch one or two; none else.
#[inline(always)]
fn put_long_branch(page: &mut [u8], at: usize, k: u32, n: u32) -> Option<usize>
    requires { at + PADDING ≤ length page.old }
    ensures put { IfSome result (λ to. take to page.new ≡ take at page.old ++ branch_text k n) }
    ensures end { IfSome result (λ to. (at ≤ to) × (to ≤ at + PADDING)) }
    ensures none { IsNone result → page.new ≡ page.old }
    ensures size { length page.new ≡ length page.old }
{
    if 10 <= n && n < 100 {
        if k < 10 {
            put_bytes(page, at, &digit_of_two_digits(k as u8, n as u8));
            return Some(at + 11);
        }
        if k < 100 {
            put_bytes(page, at, &two_digits_of_two_digits(k as u8, n as u8));
            return Some(at + 12);
        }
    }
    None
}

/// Puts branch and number of branches on a page, to the end of the line, unless one has three digits
/// or more, or the branch more than their number.
#[inline(always)]
fn put_branch(page: &mut [u8], at: usize, k: u32, n: u32) -> Option<usize>
    requires { at + PADDING ≤ length page.old }
    ensures put { IfSome result (λ to. take to page.new ≡ take at page.old ++ branch_text k n) }
    ensures end { IfSome result (λ to. (at ≤ to) × (to ≤ at + PADDING)) }
    ensures none { IsNone result → page.new ≡ page.old }
    ensures size { length page.new ≡ length page.old }
{
    if n >= 10 {
        return put_long_branch(page, at, k, n);
    }
    // A test of its own, for which the compiler jumps, where one of both numbers at once is some instructions more.
    if k >= 10 {
        return None;
    }
    put_bytes(page, at, &digit_of_digit(k as u8, n as u8));
    Some(at + 10)
}

/// Puts the line of a choice on a page, if it is one that takes an option and there is room for it.
#[inline(always)]
fn put_choice(laid: &LaidOut, choice: Choice, page: &mut [u8], at: usize) -> Option<usize>
    requires known { IsKnownChoice laid.now.puzzle choice }
    requires room { (at ≤ ROOM) × (length page.old ≡ ROOM) }
    ensures put { IfSome result (λ to. take to page.new ≡ take at page.old ++ choice_text laid.now choice) }
    ensures end { IfSome result (λ to. (at ≤ to) × (to ≤ ROOM)) }
    ensures none { IsNone result → take at page.new ≡ take at page.old }
    ensures size { length page.new ≡ ROOM }
{
    let Some(o) = choice.option else {
        return None;
    };
    match laid.put_option(choice.item, o, page, at) {
        Some(to) => put_branch(page, to, choice.k, choice.n),
        None => None,
    }
}

/// Writes what a page holds and the line of a choice. It takes the choice in parts, so that one that is put on the page
/// is never stored.
#[inline(never)]
#[tactic(auto, using(xc_text::proofs::SinkLemmas::failed, xc_text::proofs::SinkLemmas::broke_before, xc_text::proofs::SinkLemmas::then_writes))]
fn write_past<S: Sink>(
    bodies: &Bodies,
    item: u32,
    option: Option<u32>,
    k: u32,
    n: u32,
    held: &[u8],
    sink: &mut S,
) -> Result<(), SinkFault>
    requires { IsKnownChoice bodies.now.puzzle (record { item = item; option = option; k = k; n = n }) }
    ensures { Writes (S.state sink.old) (S.state sink.new) result (held.now
        ++ choice_text bodies.now (record { item = item; option = option; k = k; n = n })) }
{
    write_all(sink, held)?;
    write_choice(bodies, &Choice { item, option, k, n }, sink)
}

/// Puts the line of a choice after what a page holds, or writes both.
#[inline(always)]
fn put_line<S: Sink>(
    bodies: &Bodies,
    laid: Option<&LaidOut>,
    choice: Choice,
    page: &mut [u8],
    held: Held,
    sink: &mut S,
) -> Result<Held, SinkFault>
    requires same { IfSome laid (λ l. l.now ≡ bodies.now) }
    requires known { IsKnownChoice bodies.now.puzzle choice }
    requires size { length page.old ≡ ROOM }
    requires within { (held.from ≤ held.to) × (held.to ≤ ROOM) }
    ensures put { IsPut (S.state sink.old) (S.state sink.new) (held_text page.old held.from held.to)
        result page.new (choice_text bodies.now choice) }
    ensures within { IfOk result (λ h. (h.from ≤ h.to) × (h.to ≤ ROOM)) }
    ensures size { length page.new ≡ ROOM }
{
    if let Some(laid) = laid {
        if let Some(to) = put_choice(laid, choice, page, held.to) {
            return Ok(Held {
                from: held.from,
                to,
            });
        }
    }
    let Choice { item, option, k, n } = choice;
    write_past(bodies, item, option, k, n, &page[held.from..held.to], sink)?;
    Ok(Held { from: 0, to: 0 })
}

/// Puts the lines of a solution after what a page holds. Where a line isn't put, what the page holds is written first.
#[inline(always)]
fn put_lines<W: AtMember, S: Sink>(
    bodies: &Bodies,
    laid: Option<&LaidOut>,
    at: &W,
    page: &mut [u8],
    start: Held,
    sink: &mut S,
) -> Result<Held, SinkFault>
    requires same { IfSome laid (λ l. l.now ≡ bodies.now) }
    requires puzzle { W.puzzle at.now ≡ bodies.now.puzzle }
    requires known { All (IsKnownChoice bodies.now.puzzle) (W.shown at.now) }
    requires size { length page.old ≡ ROOM }
    requires within { (start.from ≤ start.to) × (start.to ≤ ROOM) }
    ensures put { IsPut (S.state sink.old) (S.state sink.new) (held_text page.old start.from start.to)
        result page.new (flat_map (choice_text bodies.now) (W.shown at.now)) }
    ensures within { IfOk result (λ h. (h.from ≤ h.to) × (h.to ≤ ROOM)) }
    ensures size { length page.new ≡ ROOM }
{
    let mut held = start;
    let mut marks = at.marks();
    while let Some(mark) = marks.next() {
        let next = put_line(bodies, laid, at.choice_of(mark), page, held, sink)?;
        held = next;
    }
    Ok(held)
}

/// Writes a solution by a page that keeps no line.
// Out of line: few solutions are as long.
#[tactic(auto, using(xc_text::proofs::SinkLemmas::then_writes, std::proofs::lemmas::Slice::between_is))]
#[inline(never)]
fn write_long<W: AtMember, S: Sink>(
    number: u64,
    at: &W,
    bodies: &Bodies,
    page: &mut [u8],
    sink: &mut S,
) -> Result<(), SinkFault>
    requires same { W.puzzle at.now ≡ bodies.now.puzzle }
    requires known { All (IsKnownChoice bodies.now.puzzle) (W.shown at.now) }
    requires size { length page.old ≡ ROOM }
    ensures written { Writes (S.state sink.old) (S.state sink.new)
        result (member_text bodies.now (number, W.shown at.now)) }
    ensures size { length page.new ≡ ROOM }
{
    let laid = bodies.laid();
    let header = put_header(page, number);
    let held = put_lines(bodies, laid.as_ref(), at, page, header, sink)?;
    write_all(sink, &page[held.from..held.to])
}

/// Keeps the line of a mark if it is on the page after the first `done` lines, else puts it there, and returns where it
/// ends; none where it isn't put.
#[inline(always)]
fn keep_line<W: AtMember>(
    laid: &LaidOut,
    at: &W,
    mark: Mark,
    done: usize,
    from: usize,
    text: &mut [u8],
    kept: &mut Kept,
) -> Option<usize>
    requires same { W.puzzle at.now ≡ laid.now.puzzle }
    requires mark { IsMark laid.now.puzzle mark }
    requires known { IsKnownChoice laid.now.puzzle (marked laid.now.puzzle mark) }
    requires kept { AreKept laid.now text.old kept.old }
    requires done { done ≤ length kept.old }
    requires from { from ≡ lines_end laid.now (take done kept.old) }
    requires size { length text.old ≡ ROOM }
    ensures kept { IfSome result (λ _. AreKept laid.now text.new kept.new) }
    ensures stands { IfSome result (λ _. MatchMark (done + 1) kept.new (take done kept.old) mark) }
    ensures end { IfSome result (λ to. to ≡ lines_end laid.now (take (done + 1) kept.new)) }
    ensures header { IfSome result (λ _. take LINES text.new ≡ take LINES text.old) }
    ensures size { length text.new ≡ ROOM }
{
    if let Some(end) = kept.end_of(done, mark) {
        return Some(end);
    }
    let end = put_choice(laid, at.choice_of(mark), text, from)?;
    if kept.put(done, Line { mark, end }) {
        Some(end)
    } else {
        None
    }
}

/// Puts the lines of a solution on a page, where those that are at their places already are kept, and returns where
/// they end; none where one isn't put.
#[inline(always)]
fn keep_lines<W: AtMember>(
    laid: &LaidOut,
    at: &W,
    text: &mut [u8],
    kept: &mut Kept,
) -> Option<usize>
    requires same { W.puzzle at.now ≡ laid.now.puzzle }
    requires known { All (IsKnownChoice laid.now.puzzle) (W.shown at.now) }
    requires kept { AreKept laid.now text.old kept.old }
    requires size { length text.old ≡ ROOM }
    ensures kept { IfSome result (λ _. AreKept laid.now text.new kept.new) }
    ensures put { IfSome result (λ to. take to text.new
        ≡ take LINES text.old ++ flat_map (choice_text laid.now) (W.shown at.now)) }
    ensures end { IfSome result (λ to. (LINES ≤ to) × (to ≤ ROOM)) }
    ensures size { length text.new ≡ ROOM }
{
    let mut end = LINES;
    let mut done = 0;
    let mut marks = at.marks();
    while let Some(mark) = marks.next() {
        end = keep_line(laid, at, mark, done, end, text, kept)?;
        done += 1;
    }
    Some(end)
}

/// Puts the solution that a search is at on a page, where the lines that are there from the last solution are kept;
/// none where it isn't put.
#[tactic(auto, using(crate::proofs::Writing::held_more))]
#[inline(always)]
fn put_member<W: AtMember>(number: u64, at: &W, bodies: &Bodies, page: &mut Page) -> Option<Held>
    requires same { W.puzzle at.now ≡ bodies.now.puzzle }
    requires known { All (IsKnownChoice bodies.now.puzzle) (W.shown at.now) }
    requires kept { AreKept bodies.now page.old.text page.old.kept }
    ensures put { IfSome result (λ held. held_text page.new.text held.from held.to
        ≡ member_text bodies.now (number, W.shown at.now)) }
    ensures within { IfSome result (λ held. (held.from ≤ held.to) × (held.to ≤ ROOM)) }
    ensures kept { AreKept bodies.now page.new.text page.new.kept }
    ensures none { IsNone result → page.new.kept ≡ [] }
{
    if let Some(laid) = bodies.laid() {
        let header = put_header(&mut page.text, number);
        if let Some(to) = keep_lines(&laid, at, &mut page.text, &mut page.kept) {
            return Some(Held {
                from: header.from,
                to,
            });
        }
    }
    page.kept.clear();
    None
}

/// Writes the solution that a search is at. Where options are laid out, its lines are put together on a page and
/// written at once, and the lines that are on the page from the last solution are kept.
// It takes the search and not a `Solution`, which holds its address: out of line the compiler would then copy the walk
// once more at each call of `pass`. So nothing that takes a `Solution` is out of line.
#[tactic(auto, using(std::proofs::lemmas::Slice::between_is))]
#[inline(always)]
pub fn write_by_page<W: AtMember, S: Sink>(
    number: u64,
    at: &W,
    bodies: &Bodies,
    page: &mut Page,
    sink: &mut S,
) -> Result<(), SinkFault>
    requires same { W.puzzle at.now ≡ bodies.now.puzzle }
    requires known { All (IsKnownChoice bodies.now.puzzle) (W.shown at.now) }
    requires kept { AreKept bodies.now page.old.text page.old.kept }
    ensures written { Writes (S.state sink.old) (S.state sink.new)
        result (member_text bodies.now (number, W.shown at.now)) }
    ensures kept { AreKept bodies.now page.new.text page.new.kept }
{
    if let Some(held) = put_member(number, at, bodies, page) {
        // Written here, and not kept until the page is full: so a write that fails is one of this solution's.
        return write_all(sink, &page.text[held.from..held.to]);
    }
    write_long(number, at, bodies, &mut page.text, sink)
}

/// Does what `write_by_page` does, and takes the solution into the digest of a text. One that isn't put on the page is
/// put together once for each.
#[tactic(auto, using(std::proofs::lemmas::Slice::between_is))]
#[inline(always)]
pub fn write_noted<W: AtMember, S: Sink>(
    number: u64,
    at: &W,
    bodies: &Bodies,
    page: &mut Page,
    text: &mut DigestSink,
    sink: &mut S,
) -> Result<(), SinkFault>
    requires same { W.puzzle at.now ≡ bodies.now.puzzle }
    requires known { All (IsKnownChoice bodies.now.puzzle) (W.shown at.now) }
    requires kept { AreKept bodies.now page.old.text page.old.kept }
    ensures written { Writes (S.state sink.old) (S.state sink.new)
        result (member_text bodies.now (number, W.shown at.now)) }
    ensures noted { Took (⟦<DigestSink as Sink>⟧.state text.old) (⟦<DigestSink as Sink>⟧.state text.new)
        (member_text bodies.now (number, W.shown at.now)) }
    ensures kept { AreKept bodies.now page.new.text page.new.kept }
{
    if let Some(held) = put_member(number, at, bodies, page) {
        let member = &page.text[held.from..held.to];
        text.note(member);
        return write_all(sink, member);
    }
    let _ = write_long(number, at, bodies, &mut page.text, text);
    write_long(number, at, bodies, &mut page.text, sink)
}

/// Writes a line for each choice of a solution.
#[inline(always)]
fn write_lines<S: Sink>(choices: &[Choice], bodies: &Bodies, sink: &mut S) -> Result<(), SinkFault>
    requires { All (IsKnownChoice bodies.now.puzzle) choices.now }
    ensures { Writes (S.state sink.old) (S.state sink.new)
        result (flat_map (choice_text bodies.now) choices.now) }
{
    for choice in choices {
        write_choice(bodies, choice, sink)?;
    }
    Ok(())
}

/// Writes a line for each choice of a solution.
pub fn write_choices<S: Sink>(
    choices: &[Choice],
    problem: &Problem,
    sink: &mut S,
) -> Result<(), SinkFault>
    requires { All (IsKnownChoice problem.now.puzzle) choices.now }
    ensures { Writes (S.state sink.old) (S.state sink.new)
        result (flat_map (choice_text problem.now) choices.now) }
{
    write_lines(choices, &Bodies::plain(problem), sink)
}

/// Writes a solution: its number, and a line for each choice.
pub fn write_solution<S: Sink>(
    number: u64,
    choices: &[Choice],
    problem: &Problem,
    sink: &mut S,
) -> Result<(), SinkFault>
    requires { All (IsKnownChoice problem.now.puzzle) choices.now }
    ensures { Writes (S.state sink.old) (S.state sink.new)
        result (member_text problem.now (number, choices.now)) }
{
    write_number(sink, number)?;
    write_all(sink, b":\n")?;
    write_choices(choices, problem, sink)
}
