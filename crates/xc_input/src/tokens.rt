//! Cuts lines into tokens, and tokens into their parts.
//!
//! Reading takes its time here. A token after one space is recognized by one test: for a test of each white byte the
//! compiler made a chain of 17 instructions at every token, an eighth of those of reading. What a token seldom needs,
//! such as a long name or the last bytes of a line, is out of line, so that the loop over the tokens keeps its state in
//! registers: 2 % less where uses have colours, 3 % more where they have none. A colour of one byte is recognized
//! without a loop over its bytes, which saves 5 % there.

ghost use Rattle.std.specs.Prelude.{◌≡◌, ◌∷◌, ◌<◌, ◌≤◌, [], ℕ, List, length, take, drop, MatchOption};
ghost use Rattle.std.specs.Prelude.{true, None, Some, IfSome};
ghost use Rattle.xc_text.specs.Words.{has, before, after, place};
ghost use Rattle.xc_input.specs.Tokens.{tokens, parts, is_skipped};
ghost use Rattle.xc_input.specs.inner.CutTokens.{drop_white, word, StandsBefore, IsCutToken, IsCutBehind, StandsFirst};
ghost use Rattle.xc_input.specs.inner.Builders.{AreNames};
ghost use Rattle.xc_input.specs.inner.Stored.{AreWords, key_names};

use crate::guess::{OTHER, OWN, long_word, short_word};
use crate::names::{NameSet, place_of};
use crate::stage::Guesses;
use crate::written::Token;
use xc_text::{cut_at, is_white};

/// What is after leading white space.
pub fn skip_white(line: &[u8]) -> &[u8]
    ensures { result.now ≡ drop_white line.now }
{
    let mut rest = line;
    while let [first, others @ ..] = rest {
        if !is_white(*first) {
            break;
        }
        rest = others;
    }
    rest
}

/// Whether a line is blank or a comment.
pub fn is_skipped_line(line: &[u8]) -> bool
    ensures { result ≡ is_skipped line.now }
{
    match skip_white(line) {
        [] => true,
        [first, ..] => *first == b'|',
    }
}

/// How many bytes are before the first white space.
#[inline(never)]
fn word_len(line: &[u8]) -> usize
    ensures value { result ≡ length (word line.now) }
    ensures within { result ≤ length line.now }
{
    let mut n = 0;
    while n < line.len() && !is_white(line[n]) {
        n += 1;
    }
    n
}

/// The same of a text that mostly has one byte before its first white space, as a colour.
#[inline(always)]
fn colour_len(text: &[u8]) -> usize
    ensures value { result ≡ length (word text.now) }
    ensures within { result ≤ length text.now }
{
    match text {
        [only] if !is_white(*only) => 1,
        [first, second, ..] if !is_white(*first) && is_white(*second) => 1,
        _ => word_len(text),
    }
}

/// What is after the name of this place and length, where a text begins with it.
#[inline]
fn behind_name<'a>(names: &NameSet, at: usize, n: usize, text: &'a [u8]) -> Option<&'a [u8]>
    requires { AreNames (key_names names.now.keys) }
    ensures { IfSome result (λ back. (n ≤ length text.now) × (back.now ≡ drop n text.now)
        × (place (key_names names.now.keys) (take n text.now) ≡ Some at)) }
{
    let name = match names.get_index(at) {
        Some(name) => name.as_slice(),
        None => return None,
    };
    if name.len() != n {
        return None;
    }
    text.strip_prefix(name)
}

/// A token that begins with the name of a place, and what is left after it: none where what is there
/// after the name goes on without a colon. So the name of a coloured use is guessed too.
#[inline]
fn cut_behind<'a>(name: &'a [u8], at: usize, behind: &'a [u8]) -> Option<(Token<'a>, &'a [u8])>
    ensures name { IfSome result (λ p. (p.0.name.now ≡ name.now) × (p.0.place ≡ Some at)) }
    ensures cut { IfSome result (λ p. IsCutBehind behind.now p.0 p.1.now) }
{
    let bare = Token {
        name,
        place: Some(at),
        colour: None,
    };
    match behind {
        [first, more @ ..] if *first == b':' => {
            let (colour, others) = more.split_at(colour_len(more));
            let colour = Some(colour);
            Some((Token { colour, ..bare }, others))
        }
        [first, ..] if !is_white(*first) => None,
        _ => Some((bare, behind)),
    }
}

/// A token, cut and looked up.
pub fn looked_up<'a>(names: &NameSet, token: &'a [u8]) -> Token<'a>
    ensures { IsCutToken (key_names names.now.keys) token.now result }
{
    let (name, colour) = cut_at(token, b':');
    let place = place_of(names, name);
    Token {
        name,
        place,
        colour,
    }
}

/// The token that a text begins with, where its name is a short one that the guesses know by its bytes turned so many
/// bits, and what is left after it. Two numbers are compared, and no bytes.
#[inline(always)]
fn known_token<'a>(guesses: &Guesses, text: &'a [u8], turn: u32) -> Option<(Token<'a>, &'a [u8])>
    ensures { (names : List (List ℕ)) → AreNames names → AreWords names guesses.now.words.items
        → IfSome result (λ p. StandsFirst names text.now p.0 p.1.now) }
{
    let (word, n) = short_word(text)?;
    let at = guesses.known(guesses.number(word.rotate_left(turn)), word)?;
    cut_behind(&text[..n], at, &text[n..])
}

/// The first token, cut at its colon, and what is left after it.
#[inline(always)]
pub fn next_token<'a>(
    names: &NameSet,
    guesses: &Guesses,
    line: &'a [u8],
) -> Option<(Token<'a>, &'a [u8])>
    requires names { AreNames (key_names names.now.keys) }
    requires words { AreWords (key_names names.now.keys) guesses.now.words.items }
    ensures { MatchOption result (tokens line.now ≡ [])
        (λ p. StandsFirst (key_names names.now.keys) line.now p.0 p.1.now) }
{
    let rest = match line {
        [] => return None,
        // Other white space is rare, and left to `other_token`: a test of one byte is some instructions a token less.
        [b' ', more @ ..] => more,
        _ => line,
    };
    if let Some(cut) = known_token(guesses, rest, OWN) {
        return Some(cut);
    }
    other_token(names, guesses, line)
}

/// The same where the first token isn't at the front, or its name isn't a short one.
#[inline(always)]
fn other_token<'a>(
    names: &NameSet,
    guesses: &Guesses,
    line: &'a [u8],
) -> Option<(Token<'a>, &'a [u8])>
    requires names { AreNames (key_names names.now.keys) }
    requires words { AreWords (key_names names.now.keys) guesses.now.words.items }
    ensures { MatchOption result (tokens line.now ≡ [])
        (λ p. StandsFirst (key_names names.now.keys) line.now p.0 p.1.now) }
{
    let rest = skip_white(line);
    if rest.is_empty() {
        return None;
    }
    for turn in [OWN, OTHER] {
        if let Some(cut) = known_token(guesses, rest, turn) {
            return Some(cut);
        }
    }
    let (bytes, n) = long_word(rest);
    let at = guesses.guess(guesses.number(bytes));
    if let Some(behind) = behind_name(names, at, n, rest) {
        if let Some(cut) = cut_behind(&rest[..n], at, behind) {
            return Some(cut);
        }
    }
    let (token, others) = rest.split_at(word_len(rest));
    Some((looked_up(names, token), others))
}

/// The first token as it is in the line, and what is left after it.
pub fn next_word(line: &[u8]) -> Option<(&[u8], &[u8])>
    ensures { MatchOption result (tokens line.now ≡ []) (λ p. (tokens line.now ≡ p.0.now ∷ tokens p.1.now)
        × (length p.1.now < length line.now) × StandsBefore line.now p.0.now p.1.now) }
{
    let rest = skip_white(line);
    if rest.is_empty() {
        return None;
    }
    Some(rest.split_at(word_len(rest)))
}

/// The first part of an item line, a bar or another token, and what is left after it.
pub fn next_part(line: &[u8]) -> Option<(&[u8], &[u8])>
    ensures { MatchOption result (parts line.now ≡ []) (λ p. (parts line.now ≡ p.0.now ∷ parts p.1.now)
        × (length p.1.now < length line.now) × StandsBefore line.now p.0.now p.1.now) }
{
    let rest = skip_white(line);
    if rest.is_empty() {
        return None;
    }
    if rest[0] == b'|' {
        return Some(rest.split_at(1));
    }
    Some(rest.split_at(word_len(rest)))
}
