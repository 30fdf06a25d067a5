//! Problems out of texts in memory.
ghost use Rattle.std.specs.Prelude.{◌≡◌, ◌≢◌, ◌<◌, [], false, None, IfOk, IfErr, OnErr, OnOk, length, min};
ghost use Rattle.std.specs.Prelude.{nat_lt, if◌then◌else◌};
ghost use Rattle.xc_text.specs.Words.{has};
ghost use Rattle.xc_input.specs.Readings.{IsErrorFor};
ghost use Rattle.xc_text.specs.Lines.{lines_of};
ghost use Rattle.xc_input.specs.FirstFault.{content, first_fault};
ghost use Rattle.xc_input.specs.Text.{StandsFor};
ghost use Rattle.xc_moves.specs.Dancing.{moves_made};
ghost use Rattle.xc_dance.specs.Linked.{dancing_of};
ghost use Rattle.xc_search.specs.Cover.{members, EachMemberCovers, EachCoverIsListedOnce};
ghost use Rattle.natural.specs.Numerals.{numeral};
ghost use Rattle.xc_c.specs.Answers.{IsFilled, IsSearched, Lists, Totals};
ghost use Rattle.xc_c.specs.inner.{CountMakesFew, listing_status};

use crate::numbers::{DONE, LIMIT, NO_ROOM};
use std::alloc::Global;
use xc_count::count;
use xc_dance::Links;
use xc_input::{FaultKind, InputError, Kind, Problem, Read, Reader};
use xc_list::{End, Words, run};
use xc_search::Search;
use xc_text::{Memory, Seed, Tray, cut_line};

/// Hands the lines of a text to a reader that took none yet.
fn take_lines(reader: &mut Reader, text: &[u8]) -> Result<(), InputError>
    requires none { reader.old.lines ≡ [] }
    requires no_error { reader.old.error ≡ None }
    ensures kind { reader.new.kind ≡ reader.old.kind }
    ensures lines { OnOk result (reader.new.lines ≡ lines_of text.now) }
    ensures no_error { OnOk result (reader.new.error ≡ None) }
    ensures error { IfErr result (IsErrorFor (first_fault reader.old.kind (lines_of text.now))) }
    ensures memory { IfErr result (λ e. e ≡ InputError.Memory → content (lines_of text.now) ≢ []) }
{
    let mut rest = text;
    while !rest.is_empty() {
        let (line, others) = cut_line(rest);
        reader.line(line)?;
        rest = others;
    }
    Ok(())
}

/// What a text stands for, or its first fault, or that there was no memory.
// Not by `read_problem`, whose buffer takes memory also for a text without content.
pub(crate) fn read_text(
    alloc: Global,
    kind: Kind,
    text: &[u8],
    seed: Seed,
) -> Result<Read, InputError>
    ensures problem { IfOk result (λ r. StandsFor kind (lines_of text.now) r.problem r.ignored.items) }
    ensures error { IfErr result (IsErrorFor (first_fault kind (lines_of text.now))) }
    ensures memory { IfErr result (λ e. e ≡ InputError.Memory → content (lines_of text.now) ≢ []) }
{
    let mut reader = Reader::with_seed(alloc, kind, seed);
    take_lines(&mut reader, text)?;
    reader.finish()
}

/// The first fault of a text, with its line.
#[tactic(auto, using(crate::proofs::TextLemmas::text_faults))]
pub(crate) fn first_fault(
    alloc: Global,
    kind: Kind,
    text: &[u8],
    seed: Seed,
) -> Result<Option<(u64, FaultKind)>, Memory>
    ensures found { IfOk result (λ found. found ≡ first_fault kind (lines_of text.now)) }
    ensures memory { OnErr result (content (lines_of text.now) ≢ []) }
{
    let Err(error) = read_text(alloc, kind, text, seed) else {
        return Ok(None);
    };
    match error {
        InputError::Fault { line, kind } => Ok(Some((line, kind))),
        _ => Err(Memory),
    }
}

/// How many solutions a problem has, up to a limit, and the tables that were searched for them, which tell the work.
fn count_members(alloc: Global, problem: &Problem, limit: u64) -> Result<(Links, u64), Memory>
    ensures count { IfOk result (λ counted. counted.1 ≡ min limit (length (members problem.now.puzzle))) }
    ensures moves { IfOk result
        (λ counted. CountMakesFew problem.now.puzzle limit (moves_made (dancing_of counted.0))) }
    ensures right { OnOk result (EachMemberCovers problem.now.puzzle) }
    ensures complete { OnOk result (EachCoverIsListedOnce problem.now.puzzle) }
{
    let links = Links::for_search(alloc, problem)?;
    let mut search = Search::begin(alloc, links, problem)?;
    let count = search.pass(limit);
    Ok((search.close(), count))
}

/// How many solutions the problem of a text has, up to a limit.
#[tactic(auto, using(crate::proofs::TextLemmas::text_faults))]
pub(crate) fn count_solutions(
    alloc: Global,
    kind: Kind,
    text: &[u8],
    seed: Seed,
    limit: u64,
) -> Result<u64, InputError>
    ensures count { IfOk result (λ count. IsSearched kind text.now
        (λ a. count ≡ min limit (length (members a.puzzle)))) }
    ensures error { IfErr result (IsErrorFor (first_fault kind (lines_of text.now))) }
    ensures memory { IfErr result (λ e. e ≡ InputError.Memory → content (lines_of text.now) ≢ []) }
{
    let read = read_text(alloc, kind, text, seed)?;
    match count_members(alloc, &read.problem, limit) {
        Ok((_, count)) => Ok(count),
        Err(_) => Err(InputError::Memory),
    }
}

/// The digits of how many solutions a problem has, by a count whose states take about so many bytes at most.
fn total_digits(alloc: Global, problem: &Problem, bound: usize) -> Result<Vec<u8>, Memory>
    ensures { IfOk result (λ ds. ds.items ≡ numeral (length (members problem.now.puzzle))) }
{
    Ok(count(alloc, problem, bound)?.to_decimal(alloc)?)
}

/// The status where so many bytes are put into a buffer with this room.
fn room_status(length: usize, room: usize) -> u32
    ensures { result ≡ (if nat_lt room length then 3 else 0) }
{
    if room < length { NO_ROOM } else { DONE }
}

/// Puts the digits of how many solutions a problem has into a buffer, and returns the status and how many it put there.
/// Without memory the buffer stays as it was.
fn total_problem(
    alloc: Global,
    problem: &Problem,
    bound: usize,
    buffer: &mut [u8],
) -> Result<(u32, usize), Memory>
    ensures total { IfOk result (λ r. Totals buffer.old buffer.new r.0 r.1 problem.now) }
    ensures kept { OnErr result (buffer.new ≡ buffer.old) }
{
    let digits = total_digits(alloc, problem, bound)?;
    let status = room_status(digits.len(), buffer.len());
    Ok((status, fill(buffer, digits.as_slice())))
}

/// Puts the digits of how many solutions the problem of a text has into a buffer, as `total_problem` does.
pub(crate) fn put_total(
    alloc: Global,
    kind: Kind,
    text: &[u8],
    seed: Seed,
    bound: usize,
    buffer: &mut [u8],
) -> Result<(u32, usize), InputError>
    ensures total { IfOk result (λ r. IsSearched kind text.now (Totals buffer.old buffer.new r.0 r.1)) }
    ensures error { IfErr result (IsErrorFor (first_fault kind (lines_of text.now))) }
    ensures memory { IfErr result (λ e. e ≡ InputError.Memory → content (lines_of text.now) ≢ []) }
    ensures kept { OnErr result (buffer.new ≡ buffer.old) }
{
    let problem = read_text(alloc, kind, text, seed)?.problem;
    match total_problem(alloc, &problem, bound, buffer) {
        Ok(put) => Ok(put),
        Err(_) => Err(InputError::Memory),
    }
}

/// Puts a beginning of bytes into the front of a buffer, all of them where it has room, and says how
/// many.
fn fill(buffer: &mut [u8], bytes: &[u8]) -> usize
    ensures { IsFilled bytes.now buffer.old buffer.new result }
{
    let n = bytes.len().min(buffer.len());
    buffer[..n].copy_from_slice(&bytes[..n]);
    n
}

/// The status of a run that came to this end, and wrote so many bytes for a buffer with this room;
/// none where a write failed for lack of memory.
fn listing_status(end: End, length: usize, room: usize) -> Option<u32>
    ensures { result ≡ listing_status end length room }
{
    match end {
        End::WriteFailed(_) if length < room => None,
        End::WriteFailed(_) => Some(NO_ROOM),
        End::Done(_) | End::Limit(_) if room < length => Some(NO_ROOM),
        End::Done(_) => Some(DONE),
        End::Limit(_) => Some(LIMIT),
    }
}

/// Lists the solutions of a problem into a buffer, and returns the status and the number of bytes.
/// Without memory the buffer stays as it was.
fn list_problem(
    alloc: Global,
    problem: &Problem,
    words: Words,
    buffer: &mut [u8],
) -> Result<(u32, usize), Memory>
    ensures lists { IfOk result (λ r. Lists words.spacing words.limit buffer.old buffer.new r.0 r.1 problem.now) }
    ensures kept { OnErr result (buffer.new ≡ buffer.old) }
    ensures right { OnOk result (EachMemberCovers problem.now.puzzle) }
    ensures complete { OnOk result (EachCoverIsListedOnce problem.now.puzzle) }
{
    // Not over the caller's buffer: after a run a caller knows a sink's `state`, and not that it holds the same `&mut`
    // still.
    let mut tray = Tray::new(alloc, usize::MAX, buffer.len(), false)?;
    let end = run(alloc, problem, words, &mut tray)?;
    let listing = tray.bytes();
    let Some(status) = listing_status(end, listing.len(), buffer.len()) else {
        return Err(Memory);
    };
    Ok((status, fill(buffer, listing)))
}

/// Lists the solutions of the problem of a text into a buffer, as `list_problem` does.
#[tactic(auto, using(crate::proofs::TextLemmas::text_faults))]
pub(crate) fn list_solutions(
    alloc: Global,
    kind: Kind,
    text: &[u8],
    seed: Seed,
    words: Words,
    buffer: &mut [u8],
) -> Result<(u32, usize), InputError>
    ensures listing { IfOk result (λ r. IsSearched kind text.now
        (Lists words.spacing words.limit buffer.old buffer.new r.0 r.1)) }
    ensures error { IfErr result (IsErrorFor (first_fault kind (lines_of text.now))) }
    ensures memory { IfErr result (λ e. e ≡ InputError.Memory → content (lines_of text.now) ≢ []) }
    ensures kept { OnErr result (buffer.new ≡ buffer.old) }
{
    let problem = read_text(alloc, kind, text, seed)?.problem;
    match list_problem(alloc, &problem, words, buffer) {
        Ok(listed) => Ok(listed),
        Err(_) => Err(InputError::Memory),
    }
}
