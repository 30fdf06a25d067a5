//! What the words ask for.
ghost use Rattle.std.specs.Prelude.{◌≡◌, is_some, map, option_map};
ghost use Rattle.xc_none_run.specs.Words.{asked_none, sought_of};
ghost use Rattle.xc_none_run.specs.inner.{sought};

use xc_input::Kind;
use xc_tools::numbered_kind;

/// What is wanted of a problem.
#[derive(Clone, Copy)]
pub(crate) enum Task {
    /// Its clauses.
    Clauses,
    /// Whether a proof shows that it has no cover.
    Proof,
    /// Whether weights show it.
    Weights,
}

/// What words after the kind ask for, if they are right.
fn sought_of(words: &[Vec<u8>]) -> Option<Task>
    ensures { option_map sought result ≡ sought_of (map (λ w. w.items) words.now) }
{
    match words {
        [_] => Some(Task::Clauses),
        [_, _] => Some(Task::Proof),
        [_, _, word] => match word.as_slice() {
            b"w" => Some(Task::Weights),
            _ => None,
        },
        _ => None,
    }
}

/// The kind of problem and what is wanted of it, if the words are right.
pub(crate) fn asked_none(words: &[Vec<u8>]) -> Option<(Kind, Task)>
    ensures { option_map (λ a. (a.0, sought a.1)) result ≡ asked_none (map (λ w. w.items) words.now) }
{
    let [kind, more @ ..] = words else {
        return None;
    };
    let kind = numbered_kind(kind.as_slice())?;
    Some((kind, sought_of(more)?))
}

/// Whether the words are right, so that files are read.
pub fn are_right(words: &[Vec<u8>]) -> bool
    ensures { result ≡ is_some (asked_none (map (λ w. w.items) words.now)) }
{
    asked_none(words).is_some()
}
