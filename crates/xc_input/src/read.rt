//! Reads a problem from a source.

ghost use Rattle.std.specs.Prelude.{◌≡◌, ◌<◌, ◌++◌, [], Some, length, OnOk, IfErr, IfOk};
ghost use Rattle.std.specs.Result.{result_err};
ghost use Rattle.xc_input.specs.Named.{IsSound};
ghost use Rattle.xc_input.specs.inner.Feeding.{fed, IsBetween, Ended, EndsAs};
ghost use Rattle.xc_text.specs.Lines.{lines_of};
ghost use Rattle.xc_text.specs.LinesRead.{IsLine};
ghost use Rattle.xc_text.specs.Sources.{GaveAll};
ghost use Rattle.xc_input.specs.Pieces.{IsWhole, IsPart};
ghost use Rattle.xc_text.specs.declared.seed.TheConstants.Seed.{FIXED};

use crate::outcome::Read;
use crate::reader::Reader;
use crate::{InputError, Kind};
use std::alloc::Global;
use xc_text::{LineReader, Seed, Source};

/// Reads the source to its end, or to the first error. Names and colours are hashed by the fixed seed, for a text that
/// nobody wrote to be slow.
pub fn read_problem<S: Source>(
    alloc: Global,
    kind: Kind,
    source: &mut S,
) -> Result<Read, InputError>
    ensures valid { IfOk result (λ r. IsSound r.problem) }
    ensures whole { IfOk result
        (λ r. IsWhole kind (S.state source.old) (S.state source.new) r.problem r.ignored.items) }
    ensures seed { IfOk result (λ r. r.problem.seed ≡ FIXED) }
    ensures part { IfErr result (IsPart kind (S.state source.old) (S.state source.new)) }
{
    read_problem_by(alloc, Seed::FIXED, kind, source)
}

/// Does what `read_problem` does, and hashes names and colours by this seed, which is to be random for a text that may be
/// written to be slow. What is read is the same by each.
pub fn read_problem_by<S: Source>(
    alloc: Global,
    seed: Seed,
    kind: Kind,
    source: &mut S,
) -> Result<Read, InputError>
    ensures valid { IfOk result (λ r. IsSound r.problem) }
    ensures whole { IfOk result
        (λ r. IsWhole kind (S.state source.old) (S.state source.new) r.problem r.ignored.items) }
    ensures seed { IfOk result (λ r. r.problem.seed ≡ seed) }
    ensures part { IfErr result (IsPart kind (S.state source.old) (S.state source.new)) }
{
    let mut lines = LineReader::new(alloc)?;
    let reader = Reader::with_seed(alloc, kind, seed);
    read_through(source, &mut lines, reader)
}

/// Reads the source by this reader, which took no line yet.
// What owns the reader has few ways out, since the drop of all that it holds is proved at each.
fn read_through<S: Source>(
    source: &mut S,
    lines: &mut LineReader,
    mut reader: Reader,
) -> Result<Read, InputError>
    requires unread { lines.old.unread ≡ [] }
    requires state { IsBetween reader [] }
    requires nothing { fed reader [] ≡ [] }
    ensures valid { IfOk result (λ r. IsSound r.problem) }
    ensures whole { IfOk result
        (λ r. IsWhole reader.kind (S.state source.old) (S.state source.new) r.problem r.ignored.items) }
    ensures seed { IfOk result (λ r. r.problem.seed ≡ reader.seeds.0) }
    ensures part { IfErr result (IsPart reader.kind (S.state source.old) (S.state source.new)) }
{
    feed_all(source, lines, &mut reader)?;
    end_text(reader, lines.rest())
}

/// Passes on all that comes from the source, a line at a time.
fn feed_all<S: Source>(
    source: &mut S,
    lines: &mut LineReader,
    reader: &mut Reader,
) -> Result<(), InputError>
    requires unread { lines.old.unread ≡ [] }
    requires state { IsBetween reader.old [] }
    requires nothing { fed reader.old [] ≡ [] }
    ensures kind { reader.new.kind ≡ reader.old.kind }
    ensures seeds { reader.new.seeds ≡ reader.old.seeds }
    ensures state { OnOk result (IsBetween reader.new lines.new.rest) }
    ensures all { OnOk result (GaveAll (S.state source.old) (S.state source.new) (fed reader.new lines.new.rest)) }
    ensures part { IfErr result (IsPart reader.old.kind (S.state source.old) (S.state source.new)) }
{
    'reading: loop {
        if !lines.advance(source)? {
            return Ok(());
        }
        take_line(reader, lines.last_line())?;
    }
}

/// Hands on a line that comes with its line feed.
fn take_line(reader: &mut Reader, with_feed: &[u8]) -> Result<(), InputError>
    requires state { IsBetween reader.old [] }
    requires line { IsLine with_feed.now }
    ensures kind { reader.new.kind ≡ reader.old.kind }
    ensures seeds { reader.new.seeds ≡ reader.old.seeds }
    ensures ended { Ended reader.old reader.new with_feed.now result }
{
    reader.line(&with_feed[..with_feed.len() - 1])
}

/// Takes the last line, where the text doesn't end after a line feed.
fn end_text(mut reader: Reader, carry: &[u8]) -> Result<Read, InputError>
    requires { IsBetween reader carry.now }
    ensures valid { IfOk result (λ r. IsSound r.problem) }
    ensures seed { IfOk result (λ r. r.problem.seed ≡ reader.seeds.0) }
    ensures answer { EndsAs reader.kind (lines_of (fed reader carry.now)) result }
    ensures memory { result_err result ≡ Some InputError.Memory → 0 < length carry.now }
{
    if carry.is_empty() {
        return reader.finish();
    }
    reader.line(carry)?;
    reader.finish()
}
