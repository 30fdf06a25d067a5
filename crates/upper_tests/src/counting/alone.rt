//! Counts whose states take too much memory: the search is handed back, and goes on to the same answers.
use crate::counting::problems::{OFTEN, PAIRS, SHARED};
use library_tests::fixtures::{SEVEN, Wanted, wrong_row};
use natural::Natural;
use std::alloc::Global;
use std::cell::Cell;
use xc_count::{
    Counting, Finding, count_by_turns, each_by_search, each_by_turns, nth, nth_by_turns,
};
use xc_input::{Kind, Problem};

/// Too little for a plan of any problem here.
const ROOM: usize = 100;

const AMPLE: usize = 1_000_000;

/// So many solutions are counted by a search that is left alone, and the last of them is found by one.
struct Alone(u64);

const ALONE: [(Kind, &[u8], Alone); 4] = [
    (Kind::Plain, SEVEN, Alone(1)),
    (Kind::Plain, PAIRS, Alone(3)),
    (Kind::Colours, SHARED, Alone(5)),
    (Kind::Bounds, OFTEN, Alone(9)),
];

/// Whether a search that was left alone counts so many solutions.
fn is_counted(alloc: Global, problem: &Problem, many: u64) -> bool {
    let gone_over = Cell::new(0);
    match count_by_turns(alloc, problem, ROOM, &gone_over) {
        Ok(Counting::GaveUp(search)) => match search.go_on_to_end(alloc) {
            Ok(covers) => covers == Natural::from_u64(alloc, many),
            Err(_) => false,
        },
        _ => false,
    }
}

/// Whether, with so much room, either way comes to so many.
fn is_known(alloc: Global, problem: &Problem, room: usize, many: u64) -> bool {
    let gone_over = Cell::new(0);
    match count_by_turns(alloc, problem, room, &gone_over) {
        Ok(Counting::Swept(covers)) => covers == Natural::from_u64(alloc, many) && room > 0,
        Ok(Counting::Searched(covers)) => covers == Natural::from_u64(alloc, many) && room == 0,
        _ => false,
    }
}

/// Whether the solution of a number is found by a search that was left alone, if there is only one way, by that.
fn is_found(alloc: Global, problem: &Problem, number: &Natural) -> bool {
    let gone_over = Cell::new(0);
    let found = match nth_by_turns(alloc, problem, number, ROOM, &gone_over) {
        Ok(Finding::LeftAlone(search)) => search.go_on_to(alloc, number),
        Ok(Finding::Found(found)) => Ok(found),
        Err(memory) => Err(memory),
    };
    found.is_ok() && found == nth(alloc, problem, number, 0)
}

/// Whether a search over all solutions, and nothing else, has so many.
fn is_each_counted(alloc: Global, problem: &Problem, many: u64) -> bool {
    let wanted = Natural::from_u64(alloc, many);
    match (
        each_by_turns(alloc, problem, ROOM),
        each_by_search(alloc, problem),
    ) {
        (Ok(None), Ok((covers, _))) => covers == wanted,
        _ => false,
    }
}

impl Wanted for Alone {
    fn is_so(&self, alloc: Global, problem: &Problem) -> bool {
        is_counted(alloc, problem, self.0)
            && is_known(alloc, problem, AMPLE, self.0)
            && is_known(alloc, problem, 0, self.0)
            && is_found(alloc, problem, &Natural::from_u64(alloc, self.0))
            && is_each_counted(alloc, problem, self.0)
    }
}

#[test]
fn searches_go_on_alone(rt: HostRuntime) {
    assert_eq!(rt; wrong_row(rt.alloc(), &ALONE), None);
}
