//! Visits to solutions, until one is enough.
use crate::search::made::are_undone;
use library_tests::fixtures::{THREE_ALIKE, Wanted, wrong_row};
use std::alloc::Global;
use xc_dance::Lists;
use xc_input::{Kind, Problem};
use xc_search::{Choice, Search};

/// How many solutions are enough, whether there are no more, and how many choices are shown then.
struct Visits(usize, bool, usize);

const VISITS: [(Kind, &[u8], Visits); 3] = [
    (Kind::Plain, THREE_ALIKE, Visits(1, false, 1)),
    (Kind::Plain, THREE_ALIKE, Visits(2, false, 1)),
    (Kind::Plain, THREE_ALIKE, Visits(9, true, 0)),
];

/// How many solutions a search visits, of at most so many, and whether there are no more.
fn visited(search: &mut Search<Lists>, most: usize) -> (usize, bool) {
    let mut visits: usize = 0;
    let mut visitor = |choices: &[Choice]| {
        visits = visits.saturating_add(choices.len());
        visits < most
    };
    let all = search.for_each(&mut visitor);
    (visits, all)
}

impl Wanted for Visits {
    fn is_so(&self, alloc: Global, problem: &Problem) -> bool {
        let Ok(lists) = Lists::for_search(alloc, problem) else {
            return false;
        };
        let Some(mut search) = Search::begin(alloc, lists, problem).ok() else {
            return false;
        };
        let visited = visited(&mut search, self.0);
        let shown = search.choices().len();
        are_undone(search.close()) && visited == (self.0.min(3), self.1) && shown == self.2
    }
}

#[test]
fn solutions_until_enough(rt: HostRuntime) {
    assert_eq!(rt; wrong_row(rt.alloc(), &VISITS), None);
}
