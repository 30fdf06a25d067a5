//! A walk over live lists.
use crate::search::made::{SEVEN_CHOICES, are_undone, is_marked};
use library_tests::fixtures::{SEVEN, Wanted, wrong_row};
use std::alloc::Global;
use xc_dance::Lists;
use xc_input::{Kind, Problem};
use xc_search::{Choice, Walk};

/// Whether a walk is at the solution of these choices.
fn stands_at(walk: &Walk<Lists>, wanted: &[Choice]) -> bool {
    let mut choices = walk.solution();
    for choice in wanted {
        if choices.next() != Some(*choice) {
            return false;
        }
    }
    choices.next().is_none()
}

/// Whether a walk is at no solution, then at this one alone, and then at none.
fn passes_over_one(walk: &mut Walk<Lists>, wanted: &[Choice]) -> bool {
    stands_at(walk, &[])
        && walk.pass(1) == 1
        && stands_at(walk, wanted)
        && is_marked(walk, wanted)
        && walk.pass(1) == 0
        && stands_at(walk, &[])
}

/// A walk passes over one solution, and undoes all moves.
struct OnePassed;

impl Wanted for OnePassed {
    fn is_so(&self, alloc: Global, problem: &Problem) -> bool {
        let Ok(lists) = Lists::for_search(alloc, problem) else {
            return false;
        };
        let Some(mut walk) = Walk::new(alloc, lists, problem).ok() else {
            return false;
        };
        let passed = passes_over_one(&mut walk, &SEVEN_CHOICES);
        are_undone(walk.close()) && passed
    }
}

#[test]
fn a_walk_over_one_cover(rt: HostRuntime) {
    assert_eq!(rt;
        wrong_row(rt.alloc(), &[(Kind::Plain, SEVEN, OnePassed)]),
        None
    );
}
