//! Reads the numbers of a source.
ghost use Rattle.std.specs.Prelude.{All, IfOk};
ghost use Rattle.xc_numbers.specs.SignedNumbers.{IsShort, ReadsNumbers};
ghost use Rattle.xc_numbers.specs.inner.{IsReadingOf};

use crate::fault::{LineFault, NumbersError};
use crate::words::add_numbers;
use std::alloc::Global;
use xc_text::{Source, Unread, cut_line, read_text};

/// The numbers of a text.
fn text_numbers(alloc: Global, text: &[u8]) -> Result<Vec<i64>, NumbersError>
    ensures read { IsReadingOf text.now result }
    ensures short { IfOk result (λ v. All IsShort v.items) }
{
    let mut numbers = Vec::new(alloc);
    let mut count: u64 = 0;
    let mut rest = text;
    while !rest.is_empty() {
        let (line, others) = cut_line(rest);
        count += 1;
        match add_numbers(&mut numbers, line) {
            Ok(()) => {}
            Err(LineFault::NoNumber) => return Err(NumbersError::Fault { line: count }),
            Err(LineFault::Memory) => return Err(NumbersError::Memory),
        }
        rest = others;
    }
    Ok(numbers)
}

/// The numbers of a text that comes from a source: each of one to nine digits, perhaps with a minus sign before them,
/// with white space between them, in any lines. A line that begins with a bar is a comment.
// Held in memory whole, since no number counts before the text is known to be without a fault.
pub fn read_numbers<S: Source>(alloc: Global, source: &mut S) -> Result<Vec<i64>, NumbersError>
    ensures read { ReadsNumbers (S.state source.old) (S.state source.new) result }
    ensures short { IfOk result (λ v. All IsShort v.items) }
{
    match read_text(alloc, source) {
        Ok(text) => text_numbers(alloc, text.as_slice()),
        Err(Unread::Device) => Err(NumbersError::Device),
        Err(Unread::Memory) => Err(NumbersError::Memory),
    }
}
