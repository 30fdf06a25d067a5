//! Sets of options that are covers.
use library_tests::fixtures::{ALONE, COLOURED, SEVEN, Wanted, wrong_row};
use std::alloc::Global;
use xc_input::{Kind, Problem};
use xc_list::is_cover;

/// Options, and whether they are a cover.
struct Set(&'static [u32], bool);

const SETS: [(Kind, &[u8], Set); 11] = [
    (Kind::Plain, SEVEN, Set(&[1, 4, 5], true)),
    (Kind::Plain, SEVEN, Set(&[5, 1, 4], true)),
    (Kind::Plain, SEVEN, Set(&[1, 4], false)),
    (Kind::Plain, SEVEN, Set(&[1, 4, 5, 6], false)),
    (Kind::Plain, SEVEN, Set(&[1, 4, 5, 5], false)),
    (Kind::Plain, SEVEN, Set(&[1, 4, 5, 7], false)),
    (Kind::Colours, COLOURED, Set(&[2, 4], true)),
    (Kind::Colours, COLOURED, Set(&[1, 5], false)),
    (Kind::Bounds, ALONE, Set(&[], true)),
    (Kind::Bounds, ALONE, Set(&[2, 1], true)),
    (Kind::Bounds, ALONE, Set(&[1, 1], false)),
];

impl Wanted for Set {
    fn is_so(&self, _alloc: Global, problem: &Problem) -> bool {
        is_cover(problem, self.0) == self.1
    }
}

#[test]
fn sets_that_are_covers(rt: HostRuntime) {
    assert_eq!(rt; wrong_row(rt.alloc(), &SETS), None);
}
