//! Lines of messages.
ghost use Rattle.std.specs.Prelude.{◌≡◌, ◌++◌, IfSome, decimal, flat_map};
ghost use Rattle.xc_text.specs.Texts.{Writes};

use crate::sink::Sink;
use crate::write::{SinkFault, write_all};
use arrayvec::ArrayVec;
use itoa::Buffer;

/// More bytes than a line of a message has.
const LINE: usize = 128;

/// Puts the parts of a line together, where they fit.
fn joined(before: &[u8], number: &[u8], behind: &[&[u8]]) -> Option<ArrayVec<u8, LINE>>
    ensures { IfSome result (λ line. line.items ≡ before.now ++ number.now ++ flat_map (λ part. part.now) behind.now) }
{
    let mut line = ArrayVec::new();
    line.try_extend_from_slice(before).ok()?;
    line.try_extend_from_slice(number).ok()?;
    add_parts(&mut line, behind)?;
    Some(line)
}

/// Puts parts after what a line has, where they fit.
fn add_parts(line: &mut ArrayVec<u8, LINE>, parts: &[&[u8]]) -> Option<()>
    ensures { IfSome result (λ _. line.new.items ≡ line.old.items ++ flat_map (λ part. part.now) parts.now) }
{
    for part in parts {
        line.try_extend_from_slice(part).ok()?;
    }
    Some(())
}

/// Writes parts one by one.
fn write_parts<S: Sink>(sink: &mut S, parts: &[&[u8]]) -> Result<(), SinkFault>
    ensures { Writes (S.state sink.old) (S.state sink.new) result (flat_map (λ part. part.now) parts.now) }
{
    for part in parts {
        write_all(sink, part)?;
    }
    Ok(())
}

/// Writes a line with a number after its first text. A line of at most 128 bytes goes out by one call
/// of a sink that takes it whole, so that programs that share a standard error don't mix their lines.
pub fn write_line<S: Sink>(
    sink: &mut S,
    before: &[u8],
    n: u64,
    behind: &[&[u8]],
) -> Result<(), SinkFault>
    ensures { Writes (S.state sink.old) (S.state sink.new)
        result (before.now ++ decimal n ++ flat_map (λ part. part.now) behind.now) }
{
    let mut buffer = Buffer::new();
    let number = buffer.format(n).as_bytes();
    match joined(before, number, behind) {
        Some(line) => write_all(sink, line.as_slice()),
        None => {
            write_all(sink, before)?;
            write_all(sink, number)?;
            write_parts(sink, behind)
        }
    }
}
