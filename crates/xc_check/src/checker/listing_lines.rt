//! The lines of a listing.
ghost use Rattle.std.specs.Prelude.{◌≡◌, ◌<◌, ◌++◌, ◌∷◌, [], None, false, nat_le, length, if◌then◌else◌, MatchOption};
ghost use Rattle.std.specs.Prelude.{option_map, codes, drop};
ghost use Rattle.std.specs.Str.{bytes_eq};
ghost use Rattle.std.specs.List.{list_all};
ghost use Rattle.xc_text.specs.Words.{has, are_digits, before_last};
ghost use Rattle.xc_text.specs.LongNumbers.{long_number};
ghost use Rattle.xc_check.specs.ListingLines.{words_in, header_number, is_word, number_in_words, branch_number};
ghost use Rattle.xc_check.specs.ListingLines.{is_opening, is_closing, is_ending, body_of_words, body_of};
ghost use Rattle.xc_check.specs.inner.Listings.{read};
ghost use Rattle.xc_check.specs.inner.Checking.{line_said};

use crate::judged_line::ListingLine;
use bstr::ByteSlice;
use xc_text::{are_digits, before_last, is_white, long_number};

/// A text cut at its first such byte.
pub fn cut_first(text: &[u8], byte: u8) -> Option<(&[u8], &[u8])>
    ensures { MatchOption result (has byte text.now ≡ false)
        (λ p. (has byte p.0.now ≡ false) × (text.now ≡ p.0.now ++ byte ∷ p.1.now)) }
{
    let k = text.find_byte(byte)?;
    Some((&text[..k], &text[k + 1..]))
}

/// The first word of a text whose words single spaces part, and what is left after that space.
#[tactic(auto, using(std::proofs::lemmas::Grind::common_steps, crate::proofs::CheckLemmas::first_word, crate::proofs::CheckLemmas::one_word))]
pub fn cut_word(text: &[u8]) -> (&[u8], Option<&[u8]>)
    ensures { MatchOption result.1 (words_in text.now ≡ result.0.now ∷ [])
        (λ rest. (words_in text.now ≡ result.0.now ∷ words_in rest.now) × (length rest.now < length text.now)) }
{
    match cut_first(text, b' ') {
        Some((word, rest)) => (word, Some(rest)),
        None => (text, None),
    }
}

/// The number of one to twenty digits, where it fits.
fn solution_number(text: &[u8]) -> Option<u64>
    ensures { result ≡ (if nat_le (length text.now) 20 then long_number text.now else None) }
{
    if 20 < text.len() {
        None
    } else {
        long_number(text)
    }
}

/// A header's number: digits and a colon, and nothing else.
fn header_number(line: &[u8]) -> Option<u64>
    ensures { result ≡ header_number line.now }
{
    solution_number(before_last(line, b':')?)
}

/// Whether a word is `(` and one to ten digits.
fn is_opening(word: &[u8]) -> bool
    ensures { result ≡ is_opening word.now }
{
    match word {
        [b'(', digits @ ..] => are_digits(digits, 10),
        _ => false,
    }
}

fn is_of(word: &[u8]) -> bool
    ensures { result ≡ bytes_eq word.now (codes "of") }
{
    word == b"of".as_slice()
}

/// Whether a word is one to ten digits and `)`.
fn is_closing(word: &[u8]) -> bool
    ensures { result ≡ is_closing word.now }
{
    match before_last(word, b')') {
        None => false,
        Some(digits) => are_digits(digits, 10),
    }
}

/// Whether three words end a choice line, as `(k of n)`.
fn is_ending(first: &[u8], middle: &[u8], last: &[u8]) -> bool
    ensures { result ≡ is_ending (first.now ∷ middle.now ∷ last.now ∷ []) }
{
    is_opening(first) && is_of(middle) && is_closing(last)
}

/// Whether a text is words that single spaces part.
#[tactic(auto, using(crate::proofs::CheckLemmas::all_words))]
fn are_words(text: &[u8]) -> bool
    ensures { result ≡ list_all is_word (words_in text.now) }
{
    let mut fresh = true;
    for b in text {
        if *b == b' ' {
            if fresh {
                return false;
            }
            fresh = true;
        } else {
            if is_white(*b) {
                return false;
            }
            fresh = false;
        }
    }
    !fresh
}

/// A text without its last word, and that word.
fn cut_last_word(text: &[u8]) -> Option<(&[u8], &[u8])>
    ensures { MatchOption result (words_in text.now ≡ text.now ∷ [])
        (λ p. words_in text.now ≡ words_in p.0.now ++ p.1.now ∷ []) }
{
    let k = text.rfind_byte(b' ')?;
    Some((&text[..k], &text[k + 1..]))
}

/// What is before the last three words of at least four.
#[tactic(auto, using(std::proofs::lemmas::Grind::common_steps, crate::proofs::CheckLemmas::some_words, crate::proofs::CheckLemmas::before_three))]
fn body_of_words(text: &[u8]) -> Option<&[u8]>
    ensures { option_map (λ body. words_in body.now) result ≡ body_of_words (words_in text.now) }
{
    let (front, last) = cut_last_word(text)?;
    let (front, middle) = cut_last_word(front)?;
    let (body, first) = cut_last_word(front)?;
    if are_words(text) && is_ending(first, middle, last) {
        Some(body)
    } else {
        None
    }
}

/// The body of a choice line.
fn body_of(line: &[u8]) -> Option<&[u8]>
    ensures { option_map (λ body. words_in body.now) result ≡ body_of line.now }
{
    match line {
        [b' ', text @ ..] => body_of_words(text),
        _ => None,
    }
}

/// The number in `(k`.
fn opened_number(word: &[u8]) -> Option<u64>
    ensures { result ≡ long_number (drop 1 word.now) }
{
    match word {
        [_, digits @ ..] => long_number(digits),
        [] => None,
    }
}

/// The number of the branch in the words of a choice line.
fn number_in_words(text: &[u8]) -> Option<u64>
    ensures { result ≡ number_in_words (words_in text.now) }
{
    body_of_words(text)?;
    let (front, _) = cut_last_word(text)?;
    let (front, _) = cut_last_word(front)?;
    let (_, first) = cut_last_word(front)?;
    opened_number(first)
}

/// The number of a choice line's branch: k, where the line ends with `(k of n)`. None for what is no choice line.
pub fn branch_number(line: &[u8]) -> Option<u64>
    ensures { result ≡ branch_number line.now }
{
    match line {
        [b' ', text @ ..] => number_in_words(text),
        _ => None,
    }
}

/// What a line is. It is looked at a few times from one end to the other.
pub fn read_line(line: &[u8]) -> ListingLine<'_>
    ensures { line_said result ≡ read line.now }
{
    match header_number(line) {
        Some(number) => ListingLine::Header(number),
        None => match body_of(line) {
            Some(body) => ListingLine::Body(body),
            None => ListingLine::Other,
        },
    }
}
