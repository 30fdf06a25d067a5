//! Tests of weights that show that a problem has no cover: a chessboard without two corners, pigeons and holes, an item
//! that is to be held often, and sums that don't fit.
use library_tests::fixtures::{Wanted, wrong_row};
use std::alloc::Global;
use xc_input::{Kind, Problem};
use xc_none::is_refuted;

/// Weights, and whether they show that there is no cover.
struct Shown(&'static [i64], bool);

/// A board of 3 by 3 without two corners, which have one colour, or without one.
const TWO_CORNERS: &[u8] = b"b c d e f g h\nb c\nb e\nc f\nd e\nd g\ne f\ne h\ng h\n";

const ONE_CORNER: &[u8] = b"b c d e f g h i\nb c\nb e\nc f\nd e\nd g\ne f\ne h\nf i\ng h\nh i\n";

/// Three pigeons and two holes, which are secondary.
const PIGEONS: &[u8] = b"a b c | x y\na x\na y\nb x\nb y\nc x\nc y\n";

const COLOURED_HOLES: &[u8] = b"a b c | x y\na x:A\na y:A\nb x:A\nb y:A\nc x:A\nc y:A\n";

const ENOUGH_HOLES: &[u8] = b"a b | x y\na x\na y\nb x\nb y\n";

/// Two options, and an item that is to be held three times, or twice.
const THRICE: &[u8] = b"3:9|a\na\na\n";

const TWICE: &[u8] = b"2:9|a\na\na\n";

const ROWS: [(Kind, &[u8], Shown); 13] = [
    (
        Kind::Plain,
        TWO_CORNERS,
        Shown(&[1, -1, 1, -1, 1, -1, 1], true),
    ),
    (
        Kind::Plain,
        TWO_CORNERS,
        Shown(&[-1, 1, -1, 1, -1, 1, -1], false),
    ),
    (Kind::Plain, TWO_CORNERS, Shown(&[], false)),
    (
        Kind::Plain,
        ONE_CORNER,
        Shown(&[1, -1, 1, -1, 1, -1, 1, -1], false),
    ),
    (Kind::Plain, PIGEONS, Shown(&[1, 1, 1, -1, -1], true)),
    (Kind::Plain, PIGEONS, Shown(&[1, 1, 1, -2, -1], false)),
    (
        Kind::Colours,
        COLOURED_HOLES,
        Shown(&[1, 1, 1, -1, -1], false),
    ),
    (Kind::Plain, ENOUGH_HOLES, Shown(&[1, 1, -1, -1], false)),
    (Kind::Bounds, THRICE, Shown(&[1], true)),
    (Kind::Bounds, TWICE, Shown(&[1], false)),
    (Kind::Bounds, THRICE, Shown(&[i64::MAX], false)),
    (Kind::Bounds, THRICE, Shown(&[i64::MIN], false)),
    (Kind::Bounds, THRICE, Shown(&[-1], false)),
];

impl Wanted for Shown {
    fn is_so(&self, _: Global, problem: &Problem) -> bool {
        is_refuted(problem, self.0) == self.1
    }
}

#[test]
fn weights_show_that_there_is_no_cover(rt: HostRuntime) {
    assert_eq!(rt; wrong_row(rt.alloc(), &ROWS), None);
}
