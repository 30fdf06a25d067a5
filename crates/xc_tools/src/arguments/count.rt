//! What the words of a count ask for.
ghost use Rattle.std.specs.Prelude.{◌≡◌, ◌==◌, drop, is_some, map, option_map, IfSome};
ghost use Rattle.std.specs.List.{list_all};
ghost use Rattle.std.specs.Str.{byte};
ghost use Rattle.xc_tools.specs.CountArguments.{asked_count, asked_more, is_bound, is_positive, question_word};
ghost use Rattle.xc_tools.specs.CountArguments.{bound_word, meaning, megabytes};

use crate::arguments::numbered_kind;
use xc_input::Kind;
use xc_text::{all_digits, long_number};

/// How many megabytes the states may take if no word says so.
const MEGABYTES: u64 = 512;

/// Whether each of these is the digit 0.
fn are_zeros(text: &[u8]) -> bool
    ensures { result ≡ list_all (λ d. d == byte "0") text.now }
{
    text.iter().all(|b| *b == b'0')
}

/// Whether these are digits, not all of them 0.
fn is_positive(text: &[u8]) -> bool
    ensures { result ≡ is_positive text.now }
{
    all_digits(text) && !are_zeros(text)
}

/// The megabytes that a word means.
fn bound_word(word: &[u8]) -> Option<u64>
    ensures value { result ≡ bound_word word.now }
    ensures some { is_some result ≡ is_bound word.now }
{
    match word {
        [b'b', number @ ..] => long_number(number),
        _ => None,
    }
}

/// What is asked of a problem.
#[derive(Clone, Copy)]
pub enum Question<'a> {
    /// How many solutions it has.
    HowMany,
    /// The solution of the number with these digits.
    Solution(&'a [u8]),
    /// In how many solutions each option is.
    OfEachOption,
}

/// What a word asks.
fn question_word(word: &[u8]) -> Option<Question<'_>>
    ensures { option_map meaning result ≡ question_word word.now }
{
    match word {
        b"o" => Some(Question::OfEachOption),
        [b'n', digits @ ..] if is_positive(digits) => Some(Question::Solution(digits)),
        _ => None,
    }
}

/// The most megabytes and the question that words after the kind mean, if they are right.
fn asked_more(words: &[Vec<u8>]) -> Option<(u64, Question<'_>)>
    ensures wish { option_map (λ a. meaning a.1) result ≡ asked_more (map (λ w. w.items) words.now) }
    ensures bound { IfSome result (λ a. a.0 ≡ megabytes (map (λ w. w.items) words.now)) }
{
    match words {
        [] => Some((MEGABYTES, Question::HowMany)),
        [word] => match bound_word(word.as_slice()) {
            Some(megabytes) => Some((megabytes, Question::HowMany)),
            None => Some((MEGABYTES, question_word(word.as_slice())?)),
        },
        [bound, question] => {
            let megabytes = bound_word(bound.as_slice())?;
            Some((megabytes, question_word(question.as_slice())?))
        }
        _ => None,
    }
}

/// What words ask for.
#[derive(Clone, Copy)]
pub struct AskedCount<'a> {
    /// The kind of problem.
    pub kind: Kind,
    /// The most megabytes that the states may take.
    pub megabytes: u64,
    /// What is asked of the problem.
    pub question: Question<'a>,
}

/// What words ask for, if they are right.
pub fn asked_count(words: &[Vec<u8>]) -> Option<AskedCount<'_>>
    ensures asked { option_map (λ a. (a.kind, meaning a.question)) result ≡ asked_count (map (λ w. w.items) words.now) }
    ensures bound { IfSome result (λ a. a.megabytes ≡ megabytes (drop 1 (map (λ w. w.items) words.now))) }
{
    let [kind, more @ ..] = words else {
        return None;
    };
    let kind = numbered_kind(kind.as_slice())?;
    let (megabytes, question) = asked_more(more)?;
    Some(AskedCount {
        kind,
        megabytes,
        question,
    })
}
