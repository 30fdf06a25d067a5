//! What the words of the programs ask for, beside those of a solver (`xc_list::Words`): each function says what its words
//! mean, or that they are no right ones.
ghost use Rattle.std.specs.Prelude.{◌≡◌, map, option_map, IfOk, IsTrue, OnErr};
ghost use Rattle.xc_list.specs.SpanWords.{asked_of};
ghost use Rattle.xc_tools.specs.Arguments.{numbered_kind, asked_kind, asked_join, asked_span, take_memory_of};

mod count;

pub use count::{AskedCount, Question, asked_count};
use std::alloc::{AllocError, Global};
use xc_input::Kind;
use xc_list::SpanWords;

/// The kind of problem that a number stands for.
pub fn numbered_kind(word: &[u8]) -> Option<Kind>
    ensures { result ≡ numbered_kind word.now }
{
    match word {
        b"1" => Some(Kind::Plain),
        b"2" => Some(Kind::Colours),
        b"3" => Some(Kind::Bounds),
        _ => None,
    }
}

/// The kind of problem that the words mean, if they are right.
pub fn asked_kind(words: &[Vec<u8>]) -> Option<Kind>
    ensures { result ≡ asked_kind (map (λ w. w.items) words.now) }
{
    match words {
        [_] => Some(Kind::Bounds),
        [_, number] => numbered_kind(number.as_slice()),
        _ => None,
    }
}

/// What words mean: `m1` for listings, `m0` for records alone.
pub fn asked_join(words: &[Vec<u8>]) -> Option<bool>
    ensures { result ≡ asked_join (map (λ w. w.items) words.now) }
{
    match words.first()?.as_slice() {
        b"m0" => Some(false),
        b"m1" => Some(true),
        _ => None,
    }
}

/// The kind of problem and the span that words mean, if they are right.
pub fn asked_span(alloc: Global, words: &[Vec<u8>]) -> Result<Option<(Kind, SpanWords)>, AllocError>
    ensures asked { IfOk result (λ found. option_map (λ asked. (asked.0, asked_of asked.1)) found
        ≡ asked_span (map (λ w. w.items) words.now)) }
    ensures memory { OnErr result (IsTrue (take_memory_of (map (λ w. w.items) words.now))) }
{
    let [kind, words @ ..] = words else {
        return Ok(None);
    };
    let Some(kind) = numbered_kind(kind.as_slice()) else {
        return Ok(None);
    };
    let Some(words) = SpanWords::read(alloc, words)? else {
        return Ok(None);
    };
    Ok(Some((kind, words)))
}
