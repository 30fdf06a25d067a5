//! What isn't least, sums that don't fit, and a search that its caller ends.
use library_tests::fixtures::{TWICE, Wanted, wrong_row};
use std::alloc::Global;
use xc_input::{Kind, Problem};
use xc_least::{Better, NotLeast, do_all_cost, is_least, least};

/// What the options of a problem cost, and some of them that are no cover that costs least.
struct Worse(&'static [i64], &'static [u32]);

/// Costs, prices and a limit whose sum doesn't fit.
struct Large(&'static [i64], &'static [i64], i64);

/// Costs of a problem whose search is ended.
struct Ended(&'static [i64]);

/// Ends a search at once.
#[derive(Drop)]
struct Enough;

impl Better for Enough {
    fn better(&mut self, _: i64, _: &[u32]) -> bool {
        false
    }
}

/// Of the covers of the problem one costs 7, one 10 and one 13.
const COSTS: &[i64] = &[3, 10, 4];

const WORSE: [(Kind, &[u8], Worse); 5] = [
    (Kind::Bounds, TWICE, Worse(COSTS, &[2])),
    (Kind::Bounds, TWICE, Worse(COSTS, &[2, 1])),
    (Kind::Bounds, TWICE, Worse(COSTS, &[1])),
    (Kind::Bounds, TWICE, Worse(COSTS, &[])),
    (Kind::Bounds, TWICE, Worse(COSTS, &[1, 3, 4])),
];

const LARGE: [(Kind, &[u8], Large); 4] = [
    (
        Kind::Bounds,
        TWICE,
        Large(&[i64::MIN, i64::MIN], &[1, 1], 0),
    ),
    (Kind::Bounds, TWICE, Large(COSTS, &[i64::MAX, i64::MAX], 0)),
    (Kind::Bounds, TWICE, Large(COSTS, &[i64::MIN, 0], 0)),
    (Kind::Bounds, TWICE, Large(COSTS, &[-1, 0], i64::MAX)),
];

const ENDED: [(Kind, &[u8], Ended); 1] = [(Kind::Bounds, TWICE, Ended(COSTS))];

impl Wanted for Worse {
    fn is_so(&self, alloc: Global, problem: &Problem) -> bool {
        is_least(alloc, problem, self.0, self.1, &[]) == Ok(false)
    }
}

impl Wanted for Large {
    fn is_so(&self, alloc: Global, problem: &Problem) -> bool {
        do_all_cost(alloc, problem, self.0, self.2, self.1) == Err(NotLeast::TooLarge)
    }
}

impl Wanted for Ended {
    fn is_so(&self, alloc: Global, problem: &Problem) -> bool {
        let mut enough = Enough;
        match least(alloc, problem, self.0, 100, &[], &mut enough) {
            Err(error) => error == NotLeast::Stopped,
            Ok(_) => false,
        }
    }
}

#[test]
fn options_that_are_not_least(rt: HostRuntime) {
    assert_eq!(rt; wrong_row(rt.alloc(), &WORSE), None);
}

#[test]
fn sums_that_do_not_fit(rt: HostRuntime) {
    assert_eq!(rt; wrong_row(rt.alloc(), &LARGE), None);
}

#[test]
fn a_search_that_its_caller_ends(rt: HostRuntime) {
    assert_eq!(rt; wrong_row(rt.alloc(), &ENDED), None);
}
