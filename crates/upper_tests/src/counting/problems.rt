//! How many covers problems have, in how many of them each option is, and each solution by its number.
use library_tests::fixtures::{
    ALONE, COLOURED, SEVEN, SMALL, THREE_ALIKE, TWICE, Wanted, wrong_row,
};
use natural::Natural;
use std::alloc::Global;
use xc_count::{count, nth, occurrences};
use xc_dance::{Links, Memory};
use xc_input::{Kind, Problem};
use xc_search::{Choice, Search, Step};

/// Room for the plan and the states of each problem here, for a plan and a few states, for no plan, and none: then a
/// search counts beside the sweep until that gives up, and alone.
const ROOMS: [usize; 4] = [1_000_000, 1_800, 500, 0];

/// Four items in pairs.
pub const PAIRS: &[u8] = b"a b c d\na b\na c\na d\nb c\nb d\nc d\n";

/// A secondary item that two options may share for one colour, and not with none.
pub const SHARED: &[u8] = b"A B | x\nA x:r\nA x:g\nA x\nB x:r\nB x:g\nB x\nB\n";

/// An item that is held twice or three times, in options that share a secondary item.
pub const OFTEN: &[u8] = b"2:3|A B | x\nA x:r\nA x:g\nA x:r\nA\nB x:r\nB\nB x\n";

/// The number of covers, in decimal.
struct Covers(&'static [u8]);

const COVERS: [(Kind, &[u8], Covers); 12] = [
    (Kind::Plain, SEVEN, Covers(b"1")),
    (Kind::Plain, THREE_ALIKE, Covers(b"3")),
    (Kind::Colours, COLOURED, Covers(b"1")),
    (Kind::Plain, SMALL, Covers(b"1")),
    (Kind::Plain, b"A B\nA\n", Covers(b"0")),
    (Kind::Plain, PAIRS, Covers(b"3")),
    // A secondary item that two options may not share.
    (Kind::Plain, b"A B | x\nA x\nA\nB x\nB\n", Covers(b"3")),
    (Kind::Colours, SHARED, Covers(b"5")),
    // A secondary item that stands in one option alone, and one in none.
    (
        Kind::Colours,
        b"A B | x y\nA x:r\nA\nB\nB A\n",
        Covers(b"3"),
    ),
    (Kind::Bounds, TWICE, Covers(b"3")),
    (Kind::Bounds, ALONE, Covers(b"4")),
    (Kind::Bounds, OFTEN, Covers(b"9")),
];

/// Whether a number was counted, in decimal.
fn is_counted(alloc: Global, covers: Result<Natural, Memory>, wanted: &[u8]) -> bool {
    let Ok(covers) = covers else {
        return false;
    };
    match covers.to_decimal(alloc) {
        Ok(text) => text.as_slice() == wanted,
        Err(_) => false,
    }
}

impl Wanted for Covers {
    fn is_so(&self, alloc: Global, problem: &Problem) -> bool {
        for room in ROOMS {
            if !is_counted(alloc, count(alloc, problem, room), self.0) {
                return false;
            }
        }
        true
    }
}

#[test]
fn covers_are_counted(rt: HostRuntime) {
    assert_eq!(rt; wrong_row(rt.alloc(), &COVERS), None);
}

/// In how many solutions each option is.
struct Numbers(&'static [u64]);

const NUMBERS: [(Kind, &[u8], Numbers); 9] = [
    (Kind::Plain, SEVEN, Numbers(&[1, 0, 0, 1, 1, 0])),
    (Kind::Plain, THREE_ALIKE, Numbers(&[1, 1, 1])),
    (Kind::Colours, COLOURED, Numbers(&[0, 1, 0, 1, 0])),
    (Kind::Plain, b"A B\nA\n", Numbers(&[0])),
    (Kind::Plain, PAIRS, Numbers(&[1, 1, 1, 1, 1, 1])),
    // An option that is ignored.
    (
        Kind::Plain,
        b"A B | x\nA x\nx\nA\nB x\nB\n",
        Numbers(&[1, 2, 1, 2]),
    ),
    (Kind::Colours, SHARED, Numbers(&[2, 2, 1, 1, 1, 0, 3])),
    (Kind::Bounds, TWICE, Numbers(&[2, 2, 1])),
    (Kind::Bounds, ALONE, Numbers(&[2, 2])),
];

/// Whether these numbers were found.
fn are_numbers(alloc: Global, found: &[Natural], wanted: &[u64]) -> bool {
    for (place, number) in wanted.iter().enumerate() {
        if found.get(place) != Some(&Natural::from_u64(alloc, *number)) {
            return false;
        }
    }
    found.len() == wanted.len()
}

impl Wanted for Numbers {
    fn is_so(&self, alloc: Global, problem: &Problem) -> bool {
        for room in ROOMS {
            let Ok(found) = occurrences(alloc, problem, room) else {
                return false;
            };
            let right = are_numbers(alloc, &found, self.0);
            drop(found);
            if !right {
                return false;
            }
        }
        true
    }
}

#[test]
fn options_are_counted(rt: HostRuntime) {
    assert_eq!(rt; wrong_row(rt.alloc(), &NUMBERS), None);
}

/// So many solutions are found by their numbers, from the first on, and they are all.
struct Solutions(u64, bool);

const FEW: [(Kind, &[u8], Solutions); 9] = [
    (Kind::Plain, SEVEN, Solutions(1, true)),
    (Kind::Plain, THREE_ALIKE, Solutions(3, true)),
    (Kind::Colours, COLOURED, Solutions(1, true)),
    (Kind::Plain, SMALL, Solutions(1, true)),
    (Kind::Plain, b"A B\nA\n", Solutions(0, true)),
    (Kind::Plain, PAIRS, Solutions(3, true)),
    (Kind::Colours, SHARED, Solutions(5, true)),
    (Kind::Bounds, TWICE, Solutions(3, true)),
    (Kind::Bounds, ALONE, Solutions(4, true)),
];

/// Whether the solution of a number is this one.
fn is_found(alloc: Global, problem: &Problem, number: u64, wanted: Option<&[Choice]>) -> bool {
    let number = Natural::from_u64(alloc, number);
    for room in ROOMS {
        let same = match nth(alloc, problem, &number, room) {
            Ok(Some(found)) => wanted == Some(found.as_slice()),
            Ok(None) => wanted.is_none(),
            Err(_) => false,
        };
        if !same {
            return false;
        }
    }
    true
}

/// Whether the next so many solutions of a search are found by their numbers.
fn are_found(alloc: Global, problem: &Problem, search: &mut Search<Links>, many: u64) -> bool {
    for passed in 0..many {
        let number = passed.saturating_add(1);
        if search.next() == Step::Done
            || !is_found(alloc, problem, number, Some(search.choices()))
        {
            return false;
        }
    }
    true
}

impl Wanted for Solutions {
    /// Where they are all, no solution has a number below or above.
    fn is_so(&self, alloc: Global, problem: &Problem) -> bool {
        let Ok(links) = Links::for_search(alloc, problem) else {
            return false;
        };
        let Some(mut search) = Search::begin(alloc, links, problem).ok() else {
            return false;
        };
        let found = are_found(alloc, problem, &mut search, self.0);
        drop(search);
        let none = is_found(alloc, problem, 0, None)
            && is_found(alloc, problem, self.0.saturating_add(1), None);
        found && none == self.1
    }
}

#[test]
fn solutions_have_their_numbers(rt: HostRuntime) {
    assert_eq!(rt; wrong_row(rt.alloc(), &FEW), None);
}
