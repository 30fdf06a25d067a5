//! The tokens of a line, and the numbers that they stand for.
ghost use Rattle.std.specs.Prelude.{◌≡◌, [], ◌∷◌, ◌<◌, ◌≤◌, length, All, IfSome, MatchOption};
ghost use Rattle.xc_input.specs.Tokens.{is_skipped, tokens};
ghost use Rattle.xc_input.specs.inner.CutTokens.{drop_white, word};
ghost use Rattle.xc_numbers.specs.SignedNumbers.{IsShort, signed};
ghost use Rattle.xc_numbers.specs.inner.{Added};

use crate::fault::LineFault;
use xc_text::{is_white, number_of};

/// What is after leading white space.
fn skip_white(line: &[u8]) -> &[u8]
    ensures { result.now ≡ drop_white line.now }
{
    let mut rest = line;
    while let [first, others @ ..] = rest {
        if !is_white(*first) {
            break;
        }
        rest = others;
    }
    rest
}

/// Whether a line is blank or a comment.
pub(crate) fn is_skipped(line: &[u8]) -> bool
    ensures { result ≡ is_skipped line.now }
{
    match skip_white(line) {
        [] => true,
        [first, ..] => *first == b'|',
    }
}

/// How many bytes are before the first white space.
fn word_len(line: &[u8]) -> usize
    ensures value { result ≡ length (word line.now) }
    ensures within { result ≤ length line.now }
{
    let mut n = 0;
    while n < line.len() && !is_white(line[n]) {
        n += 1;
    }
    n
}

/// The first token, and what is left after it.
pub(crate) fn next_token(line: &[u8]) -> Option<(&[u8], &[u8])>
    ensures { MatchOption result (tokens line.now ≡ []) (λ p. (tokens line.now ≡ p.0.now ∷ tokens p.1.now)
        × (length p.1.now < length line.now)) }
{
    let rest = skip_white(line);
    if rest.is_empty() {
        return None;
    }
    Some(rest.split_at(word_len(rest)))
}

/// The number that a token stands for.
pub(crate) fn signed(token: &[u8]) -> Option<i64>
    ensures value { result ≡ signed token.now }
    ensures short { IfSome result IsShort }
{
    match token {
        [] => None,
        [b'-', digits @ ..] => Some(-i64::from(number_of(digits)?)),
        _ => Some(i64::from(number_of(token)?)),
    }
}

/// Puts the numbers of a line behind those before.
pub(crate) fn add_numbers(numbers: &mut Vec<i64>, line: &[u8]) -> Result<(), LineFault>
    ensures added { Added numbers.old.items numbers.new.items line.now result }
    ensures short { All IsShort numbers.old.items → All IsShort numbers.new.items }
{
    if is_skipped(line) {
        return Ok(());
    }
    let mut rest = line;
    while let Some((token, others)) = next_token(rest) {
        let Some(number) = signed(token) else {
            return Err(LineFault::NoNumber);
        };
        numbers.push(number)?;
        rest = others;
    }
    Ok(())
}
