//! What tests of searches share.
use xc_dance::{Dance, Lists};
use xc_search::{AtMember, Choice};

/// Whether lists were handed back without moves. That they are dropped is proved here, and not in each test.
pub fn are_undone(lists: Lists) -> bool {
    lists.moves().is_empty()
}

/// Whether the marks of a search are those of these choices.
pub fn is_marked<W: AtMember>(at: &W, wanted: &[Choice]) -> bool {
    let mut marks = at.marks();
    for choice in wanted {
        let Some(mark) = marks.next() else {
            return false;
        };
        if at.choice_of(mark) != *choice {
            return false;
        }
    }
    marks.next().is_none()
}

/// The choices of the one solution of `SEVEN`.
pub const SEVEN_CHOICES: [Choice; 3] = [
    Choice {
        item: 1,
        option: Some(4),
        k: 2,
        n: 2,
    },
    Choice {
        item: 2,
        option: Some(5),
        k: 1,
        n: 1,
    },
    Choice {
        item: 3,
        option: Some(1),
        k: 1,
        n: 1,
    },
];
