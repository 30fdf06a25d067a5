//! The solutions of a search, by each call that goes on to them.
use crate::search::made::{SEVEN_CHOICES, are_undone};
use library_tests::fixtures::{SEVEN, THREE_ALIKE, Wanted, wrong_row};
use std::alloc::Global;
use xc_dance::Lists;
use xc_input::{Kind, Problem};
use xc_search::{Choice, Search, Step, choose};

/// The choices of three equal options.
const FIRST: Choice = Choice {
    item: 1,
    option: Some(1),
    k: 1,
    n: 3,
};

const SECOND: Choice = Choice {
    item: 1,
    option: Some(2),
    k: 2,
    n: 3,
};

const THIRD: Choice = Choice {
    item: 1,
    option: Some(3),
    k: 3,
    n: 3,
};

/// A call that goes on to a next solution.
enum Call {
    Next,
    NextSolution,
    Pass,
}

/// How a search goes on, in how many branches of the first item it begins, and its solutions.
struct Solutions(Call, u32, &'static [&'static [Choice]]);

const SOLUTIONS: [(Kind, &[u8], Solutions); 4] = [
    (
        Kind::Plain,
        SEVEN,
        Solutions(Call::Next, 2, &[&SEVEN_CHOICES]),
    ),
    (
        Kind::Plain,
        THREE_ALIKE,
        Solutions(Call::Next, 3, &[&[FIRST], &[SECOND], &[THIRD]]),
    ),
    (
        Kind::Plain,
        THREE_ALIKE,
        Solutions(Call::NextSolution, 3, &[&[FIRST], &[SECOND], &[THIRD]]),
    ),
    (
        Kind::Plain,
        THREE_ALIKE,
        Solutions(Call::Pass, 3, &[&[FIRST], &[SECOND], &[THIRD]]),
    ),
];

/// Whether there is a next solution.
fn goes_on(search: &mut Search<Lists>, by: &Call) -> bool {
    match by {
        Call::Next => search.next() == Step::Solution,
        Call::NextSolution => search.next_solution().is_some(),
        Call::Pass => search.pass(1) == 1,
    }
}

/// Whether a search finds these solutions one by one, and then stays done.
fn finds(search: &mut Search<Lists>, wanted: &Solutions) -> bool {
    for solution in wanted.2 {
        if !goes_on(search, &wanted.0) || search.choices() != *solution {
            return false;
        }
    }
    !goes_on(search, &wanted.0) && !goes_on(search, &wanted.0) && search.choices().is_empty()
}

impl Wanted for Solutions {
    fn is_so(&self, alloc: Global, problem: &Problem) -> bool {
        let Ok(lists) = Lists::for_search(alloc, problem) else {
            return false;
        };
        let first = choose(&lists, problem);
        let Some(mut search) = Search::begin(alloc, lists, problem).ok() else {
            return false;
        };
        let found = finds(&mut search, self);
        are_undone(search.close()) && found && first == Some((1, self.1))
    }
}

#[test]
fn solutions_by_each_call(rt: HostRuntime) {
    assert_eq!(rt; wrong_row(rt.alloc(), &SOLUTIONS), None);
}
