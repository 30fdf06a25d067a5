//! Where bytes stand in a text, and texts that are cut there.

ghost use Rattle.std.specs.Prelude.{◌≡◌, ◌<◌, ◌==◌, ◌∷◌, IfOk, MatchOption, false, length, map, option_map, true};
ghost use Rattle.std.specs.List.{slice_split};
ghost use Rattle.std.specs.Str.{byte};
ghost use Rattle.xc_text.specs.Lines.{lines_of};
ghost use Rattle.xc_text.specs.Words.{after, before, before_last, has, is_space};

use bstr::ByteSlice;
use std::alloc::{AllocError, Global};

/// Whether a byte is white space.
#[inline]
pub fn is_white(b: u8) -> bool
    ensures { result ≡ is_space b }
{
    b == b' ' || b == b'\t' || b == 11 || b == 12 || b == b'\r'
}

/// Whether a byte is in a list. By `contains`, which tests eight bytes at once, while `find_byte` goes byte by byte
/// where they are fewer than 32, as in most lines.
pub fn has_byte(bytes: &[u8], byte: u8) -> bool
    ensures { result ≡ has byte bytes.now }
{
    bytes.contains(&byte)
}

/// What is before and after the first such byte: all and nothing where there is none.
pub fn cut_at(bytes: &[u8], byte: u8) -> (&[u8], Option<&[u8]>)
    ensures front { result.0.now ≡ before byte bytes.now }
    ensures back { MatchOption result.1 (has byte bytes.now ≡ false)
        (λ back. (has byte bytes.now ≡ true) × (back.now ≡ after byte bytes.now)) }
{
    match bytes.find_byte(byte) {
        None => (bytes, None),
        Some(i) => (&bytes[..i], Some(&bytes[i + 1..])),
    }
}

/// The first line of a text, and what is left after it.
pub fn cut_line(text: &[u8]) -> (&[u8], &[u8])
    requires { 0 < length text.now }
    ensures lines { lines_of text.now ≡ result.0.now ∷ lines_of result.1.now }
    ensures whole { has 10 result.0.now ≡ false }
    ensures shorter { length result.1.now < length text.now }
{
    match text.find_byte(b'\n') {
        Some(k) => (&text[..k], &text[k + 1..]),
        None => (text, &[]),
    }
}

/// What is before a last byte, where that is the text's last.
pub fn before_last(text: &[u8], byte: u8) -> Option<&[u8]>
    ensures { option_map (λ front. front.now) result ≡ before_last byte text.now }
{
    let (last, front) = text.split_last()?;
    if *last == byte { Some(front) } else { None }
}

/// What is between the points of a word, such as that of a row.
pub fn point_parts(alloc: Global, word: &[u8]) -> Result<Vec<&[u8]>, AllocError>
    ensures { IfOk result (λ parts. map (λ w. w.now) parts.items ≡ slice_split (λ b. b == byte ".") word.now) }
{
    word.split(|b| *b == b'.').collect(alloc)
}
