//! The words of a command line.
ghost use Rattle.std.specs.Prelude.{◌≡◌, ℕ, ◌+◌, ◌-◌, ◌<◌, ◌≤◌, [], Ok, map, length};
ghost use Rattle.xc_list.specs.Settings.{read_word, read_words};

use thiserror::Error;
use xc_text::long_number;

/// What a run is to do: print each solution whose number is a multiple of `spacing`, none where that
/// is 0, and stop after `limit` solutions.
#[derive(Clone, Copy, Debug, PartialEq, Eq)]
pub struct Words {
    pub spacing: u64,
    pub limit: u64,
}

/// What is wrong with a word, with its place from 1.
#[derive(Clone, Copy, Debug, PartialEq, Eq, Error)]
pub enum WordFault {
    #[error("word {0}: unknown")]
    Unknown(usize),
    #[error("word {0}: bad number")]
    BadNumber(usize),
    #[error("word {0}: limit must be at least 1")]
    ZeroLimit(usize),
}

/// What one word makes of the words before it.
fn read_word(place: usize, words: Words, word: &[u8]) -> Result<Words, WordFault>
    ensures { result ≡ read_word place words word.now }
{
    match word {
        [b'm', number @ ..] => match long_number(number) {
            None => Err(WordFault::BadNumber(place)),
            Some(spacing) => Ok(Words {
                spacing,
                limit: words.limit,
            }),
        },
        [b't', number @ ..] => match long_number(number) {
            None => Err(WordFault::BadNumber(place)),
            Some(0) => Err(WordFault::ZeroLimit(place)),
            Some(limit) => Ok(Words {
                spacing: words.spacing,
                limit,
            }),
        },
        _ => Err(WordFault::Unknown(place)),
    }
}

/// What no words mean: no solution is printed, and no limit met.
impl Default for Words {
    fn default() -> Words
        ensures { read_words [] ≡ Ok result }
    {
        Words {
            spacing: 0,
            limit: u64::MAX,
        }
    }
}

impl Words {
    /// What the words mean, or the first faulty one.
    #[tactic(auto, using(crate::proofs::Writing::in_turn))]
    pub fn read(words: &[Vec<u8>]) -> Result<Words, WordFault>
        ensures { result ≡ read_words (map (λ w. w.items) words.now) }
    {
        let mut asked = Words::default();
        for (before, word) in words.iter().enumerate() {
            asked = read_word(before + 1, asked, word.as_slice())?;
        }
        Ok(asked)
    }
}
