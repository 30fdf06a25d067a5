//! A search that is closed after any number of steps returns its tables as they were built.
use library_tests::fixtures::{ALONE, COLOURED, TWICE, Wanted, wrong_row};
use std::alloc::Global;
use xc_dance::Links;
use xc_input::{Kind, Problem};
use xc_search::{Search, Step, most_moves};

/// The most moves of a search, and how many solutions it has.
struct Closed(usize, usize);

/// The fourth solution of the last problem is the branch of none, above two tweaks.
const CLOSED: [(Kind, &[u8], Closed); 3] = [
    (Kind::Colours, COLOURED, Closed(38, 1)),
    (Kind::Bounds, TWICE, Closed(12, 3)),
    (Kind::Bounds, ALONE, Closed(6, 4)),
];

/// Goes on for some steps. Returns how many solutions that found.
fn go_on(search: &mut Search<Links>, steps: usize) -> usize {
    let mut solutions: usize = 0;
    for _ in 0..steps {
        if search.next() == Step::Solution {
            solutions = solutions.saturating_add(1);
        }
    }
    solutions
}

/// Whether tables are as they were built.
fn are_as_built(alloc: Global, problem: &Problem, links: Links) -> bool {
    let Ok(built) = Links::for_search(alloc, problem) else {
        return false;
    };
    let same = links.same(&built);
    // By `drop`, which is proved for any type; at the end of their scope their own drop would be proved here.
    drop(links);
    drop(built);
    same
}

/// Whether a search that is closed after some steps saw so many solutions, and returns the tables as they were built. A
/// search without memory hands them back at once, which `rt try --test --fail-alloc N -- closing::` shows.
fn closes(alloc: Global, problem: &Problem, steps: usize, solutions: usize) -> bool {
    let Ok(links) = Links::for_search(alloc, problem) else {
        return false;
    };
    match Search::begin(alloc, links, problem) {
        Ok(mut search) => {
            let found = go_on(&mut search, steps);
            are_as_built(alloc, problem, search.close()) && found == solutions
        }
        Err(none) => are_as_built(alloc, problem, none.into_dance()),
    }
}

impl Wanted for Closed {
    /// To the end, one step past it, and one more.
    fn is_so(&self, alloc: Global, problem: &Problem) -> bool {
        for steps in 0..self.1.saturating_add(3) {
            if !closes(alloc, problem, steps, steps.min(self.1)) {
                return false;
            }
        }
        most_moves(problem) == self.0
    }
}

#[test]
fn closed_searches_return_what_was_built(rt: HostRuntime) {
    assert_eq!(rt; wrong_row(rt.alloc(), &CLOSED), None);
}
