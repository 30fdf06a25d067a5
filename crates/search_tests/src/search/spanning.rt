//! Searches of spans: the rows at which they halt, and how many members they have.
use crate::search::made::{SEVEN_CHOICES, are_undone, is_marked};
use library_tests::fixtures::{SEVEN, Wanted, wrong_row};
use std::alloc::Global;
use xc_dance::Lists;
use xc_input::{Kind, Problem};
use xc_search::{Choice, Halt, RowNumber, Span, Went};

/// A search over the one cover of seven items: how many members and steps may come, where it halts, how many came, and
/// the row. The cover is in the second of two branches of the first item; below the first there is one branch, which
/// leaves an item without options.
const HALTS: [(u64, u64, Halt, u64, u64, &[(u32, u32)]); 6] = [
    (1, 0, Halt::Steps, 0, 0, &[]),
    (0, 5, Halt::Member, 0, 0, &[]),
    (1, 1, Halt::Steps, 0, 1, &[(1, 2)]),
    (1, 9, Halt::Member, 1, 4, &[(2, 2), (1, 1), (1, 1), (0, 0)]),
    (1, 9, Halt::End, 0, 0, &[]),
    (1, 9, Halt::End, 0, 0, &[]),
];

/// Whether a search of a span is at this row, each number with that of its level's branches.
fn stands_at(alloc: Global, span: &Span<Lists>, wanted: &[(u32, u32)]) -> bool {
    let Ok(row) = span.row(alloc) else {
        return false;
    };
    for (place, (k, n)) in wanted.iter().enumerate() {
        let number = RowNumber { k: *k, n: *n };
        if row.get(place) != Some(&number) || span.number_at(place) != Some(number) {
            return false;
        }
    }
    row.len() == wanted.len() && span.number_at(wanted.len()).is_none()
}

/// Whether a search of a span shows a member of these choices.
fn shows(alloc: Global, span: &Span<Lists>, wanted: &[Choice]) -> bool {
    let Ok(choices) = span.choices().to_vec(alloc) else {
        return false;
    };
    choices.as_slice() == wanted && is_marked(span, wanted)
}

/// Whether a search goes through the steps, and shows the cover where it halts at it alone.
fn goes_through(alloc: Global, span: &mut Span<Lists>) -> bool {
    for (many, steps, halt, members, begun, row) in &HALTS {
        let went = Went {
            halt: *halt,
            members: *members,
            steps: *begun,
        };
        if span.go_on(*many, *steps) != went || !stands_at(alloc, span, row) {
            return false;
        }
        let shown: &[Choice] = if *members == 1 { &SEVEN_CHOICES } else { &[] };
        if !shows(alloc, span, shown) {
            return false;
        }
    }
    true
}

/// A search of a span goes through the steps, and undoes all moves.
struct Halts;

impl Wanted for Halts {
    fn is_so(&self, alloc: Global, problem: &Problem) -> bool {
        let Ok(lists) = Lists::for_search(alloc, problem) else {
            return false;
        };
        let Some(mut span) = Span::new(alloc, lists, problem, &[], None).ok() else {
            return false;
        };
        let through = goes_through(alloc, &mut span);
        are_undone(span.close()) && through
    }
}

#[test]
fn rows_with_their_branches(rt: HostRuntime) {
    assert_eq!(rt; wrong_row(rt.alloc(), &[(Kind::Plain, SEVEN, Halts)]), None);
}
