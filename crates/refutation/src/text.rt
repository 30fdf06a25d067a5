//! Steps as text: `d ` where the clause is dropped, the numbers of its literals, negative ones with a minus sign, then
//! 0. What begins with `c` in place of a step is a comment, to the end of its line.
ghost use Rattle.std.specs.Prelude.{◌≡◌, is_err};
ghost use Rattle.xc_text.specs.Calls.{counted};

use crate::proof_bytes::ProofBytes;
use crate::steps::{Kind, Word};
use xc_text::{ReadFailed, Source};

/// The most digits that a number has.
const MOST_DIGITS: u32 = 10;

/// The greatest variable.
const MOST: u64 = 0x7FFF_FFFF;

/// Whether a byte may stand between words.
fn is_blank(byte: u8) -> bool {
    matches!(byte, b' ' | b'\t' | b'\n' | b'\r')
}

/// The first byte that isn't blank, if one is left.
fn skip_blanks<S: Source>(bytes: &mut ProofBytes, source: &mut S) -> Result<Option<u8>, ReadFailed>
    ensures { (S.state source.new).failures ≡ counted (is_err result) (S.state source.old).failures }
{
    for _ in 0..u64::MAX {
        match bytes.peek(source)? {
            Some(byte) if is_blank(byte) => bytes.skip(),
            byte => return Ok(byte),
        }
    }
    Ok(None)
}

/// Passes over the rest of a line.
fn skip_line<S: Source>(bytes: &mut ProofBytes, source: &mut S) -> Result<(), ReadFailed>
    ensures { (S.state source.new).failures ≡ counted (is_err result) (S.state source.old).failures }
{
    for _ in 0..u64::MAX {
        match bytes.next(source)? {
            None | Some(b'\n') => return Ok(()),
            Some(_) => {}
        }
    }
    Ok(())
}

/// Whether a word ends here.
fn is_ended<S: Source>(bytes: &mut ProofBytes, source: &mut S) -> Result<bool, ReadFailed>
    ensures { (S.state source.new).failures ≡ counted (is_err result) (S.state source.old).failures }
{
    Ok(match bytes.peek(source)? {
        None => true,
        Some(byte) => is_blank(byte),
    })
}

/// What the next step does.
pub(crate) fn text_kind<S: Source>(
    bytes: &mut ProofBytes,
    source: &mut S,
) -> Result<Kind, ReadFailed>
    ensures { (S.state source.new).failures ≡ counted (is_err result) (S.state source.old).failures }
{
    for _ in 0..u64::MAX {
        match skip_blanks(bytes, source)? {
            None => return Ok(Kind::End),
            Some(b'c') => skip_line(bytes, source)?,
            Some(b'd') => {
                bytes.skip();
                return Ok(if is_ended(bytes, source)? {
                    Kind::Drop
                } else {
                    Kind::Fault
                });
            }
            Some(_) => return Ok(Kind::Add),
        }
    }
    Ok(Kind::End)
}

/// The next number of a step.
pub(crate) fn text_word<S: Source>(
    bytes: &mut ProofBytes,
    source: &mut S,
) -> Result<Word, ReadFailed>
    ensures { (S.state source.new).failures ≡ counted (is_err result) (S.state source.old).failures }
{
    let is_negative = skip_blanks(bytes, source)? == Some(b'-');
    if is_negative {
        bytes.skip();
    }
    let mut value = 0u64;
    let mut has_digit = false;
    for _ in 0..MOST_DIGITS {
        let Some(digit) = bytes.peek(source)? else {
            break;
        };
        if !digit.is_ascii_digit() {
            break;
        }
        value = value
            .wrapping_mul(10)
            .wrapping_add(u64::from(digit.wrapping_sub(b'0')));
        has_digit = true;
        bytes.skip();
    }
    if !has_digit || !is_ended(bytes, source)? {
        return Ok(Word::Fault);
    }
    Ok(signed_word(value, is_negative))
}

/// What a number stands for.
fn signed_word(value: u64, is_negative: bool) -> Word {
    if value == 0 {
        return if is_negative { Word::Fault } else { Word::Zero };
    }
    if value > MOST {
        return Word::Fault;
    }
    let literal = (value as u32).wrapping_mul(2);
    Word::Literal(if is_negative { literal | 1 } else { literal })
}
