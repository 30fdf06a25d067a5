//! Steps as bytes: `a` or `d`, then each literal as a number, seven bits to a byte, the lowest first, then 0.
ghost use Rattle.std.specs.Prelude.{◌≡◌, is_err};
ghost use Rattle.xc_text.specs.Calls.{counted};

use crate::proof_bytes::ProofBytes;
use crate::steps::{Kind, Word};
use xc_text::{ReadFailed, Source};

/// What the next step does.
pub(crate) fn binary_kind<S: Source>(
    bytes: &mut ProofBytes,
    source: &mut S,
) -> Result<Kind, ReadFailed>
    ensures { (S.state source.new).failures ≡ counted (is_err result) (S.state source.old).failures }
{
    Ok(match bytes.next(source)? {
        None => Kind::End,
        Some(b'a') => Kind::Add,
        Some(b'd') => Kind::Drop,
        Some(_) => Kind::Fault,
    })
}

/// The next number of a step.
pub(crate) fn binary_word<S: Source>(
    bytes: &mut ProofBytes,
    source: &mut S,
) -> Result<Word, ReadFailed>
    ensures { (S.state source.new).failures ≡ counted (is_err result) (S.state source.old).failures }
{
    let mut value = 0u64;
    for place in 0..5u32 {
        let Some(byte) = bytes.next(source)? else {
            return Ok(Word::Fault);
        };
        value |= u64::from(byte & 127) << (7 * place);
        if byte < 128 {
            return Ok(literal_of(value));
        }
    }
    Ok(Word::Fault)
}

/// What a number stands for: 2n for variable n, 2n + 1 for its opposite.
fn literal_of(value: u64) -> Word {
    if value == 0 {
        return Word::Zero;
    }
    match u32::try_from(value) {
        Ok(literal) if literal > 1 => Word::Literal(literal),
        _ => Word::Fault,
    }
}
