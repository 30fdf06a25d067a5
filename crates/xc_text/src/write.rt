//! Texts on a sink.
ghost use Rattle.std.specs.Prelude.{◌++◌, ◌<◌, ◌≤◌, length, take, IfOk, OnErr, IsTrue, MatchResult, decimal, codes};
ghost use Rattle.xc_text.specs.Texts.{Writes, Took, BrokeOff};

use crate::sink::Sink;
use itoa::Buffer;
use thiserror::Error;

/// What can go wrong with a sink.
#[derive(Clone, Copy, Debug, PartialEq, Eq, Error)]
pub enum SinkFault {
    #[error("a write failed")]
    Failed,
}

/// Writes bytes from the front, at least one, and says how many.
#[inline(always)]
fn write_some<S: Sink>(sink: &mut S, bytes: &[u8]) -> Result<usize, SinkFault>
    requires { 0 < length bytes.now }
    ensures some { IfOk result (λ n. (0 < n) × (n ≤ length bytes.now)) }
    ensures text { MatchResult result (λ n. Took (S.state sink.old) (S.state sink.new) (take n bytes.now))
        (λ _. BrokeOff (S.state sink.old) (S.state sink.new) bytes.now) }
{
    match sink.write(bytes) {
        Ok(0) => Err(SinkFault::Failed),
        Ok(n) => Ok(n),
        Err(_) => Err(SinkFault::Failed),
    }
}

/// Writes what is left of a text.
#[inline(never)]
fn write_rest<S: Sink>(sink: &mut S, bytes: &[u8]) -> Result<(), SinkFault>
    ensures { Writes (S.state sink.old) (S.state sink.new) result bytes.now }
{
    let mut rest = bytes;
    while !rest.is_empty() {
        let n = write_some(sink, rest)?;
        rest = &rest[n..];
    }
    Ok(())
}

/// Writes all bytes, or a beginning of them where the sink fails. Most texts are taken by the first
/// write.
#[inline(always)]
pub fn write_all<S: Sink>(sink: &mut S, bytes: &[u8]) -> Result<(), SinkFault>
    ensures { Writes (S.state sink.old) (S.state sink.new) result bytes.now }
{
    if bytes.is_empty() {
        return Ok(());
    }
    match sink.write(bytes) {
        Ok(n) if n == bytes.len() => Ok(()),
        Ok(n) if n > 0 => write_rest(sink, &bytes[n..]),
        _ => Err(SinkFault::Failed),
    }
}

/// Writes a number in decimal.
#[inline]
pub fn write_number<S: Sink>(sink: &mut S, n: u64) -> Result<(), SinkFault>
    ensures { Writes (S.state sink.old) (S.state sink.new) result (decimal n) }
{
    let mut buffer = Buffer::new();
    write_all(sink, buffer.format(n).as_bytes())
}

/// Writes a number in decimal between two texts.
pub fn write_numbered<S: Sink>(
    sink: &mut S,
    before: &[u8],
    n: u64,
    behind: &[u8],
) -> Result<(), SinkFault>
    ensures { Writes (S.state sink.old) (S.state sink.new) result (before.now ++ decimal n ++ behind.now) }
{
    write_all(sink, before)?;
    write_number(sink, n)?;
    write_all(sink, behind)
}

/// Writes two numbers in decimal, with a text before, one between and one after them.
pub fn write_two_numbers<S: Sink>(
    sink: &mut S,
    before: &[u8],
    n: u64,
    between: &[u8],
    m: u64,
    after: &[u8],
) -> Result<(), SinkFault>
    ensures { Writes (S.state sink.old) (S.state sink.new)
        result (before.now ++ decimal n ++ between.now ++ decimal m ++ after.now) }
{
    write_numbered(sink, before, n, between)?;
    write_number(sink, m)?;
    write_all(sink, after)
}
