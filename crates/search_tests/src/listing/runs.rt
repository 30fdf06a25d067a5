//! What runs list, and how they end.
use library_tests::fixtures::{
    ALONE, ALONE_LISTING, COLOURED, COLOURED_LISTING, SEVEN, SEVEN_LISTING, THREE_ALIKE,
    THREE_LISTING, TWICE, TWICE_LISTING, Wanted, wrong_row,
};
use std::alloc::Global;
use xc_dance::Lists;
use xc_input::{Kind, Problem};
use xc_list::{End, Sink, Tray, VecSink, Words, run, run_over, write_all};

/// A run with this spacing and limit lists this, and ends so.
struct Run<'a>(u64, u64, &'a [u8], End);

impl Run<'_> {
    fn words(&self) -> Words {
        Words {
            spacing: self.0,
            limit: self.1,
        }
    }
}

/// Lines that stay from one solution to the next, and some that are written anew after others, in solutions of four,
/// of three and of two choices.
const STAYING: &[u8] = b"x yy zzz wwww\nx\nx yy\nyy\nyy zzz\nzzz\nzzz wwww\nwwww\n";

const STAYING_LISTING: &[u8] = b"1:\n x (1 of 2)\n yy (1 of 2)\n zzz (1 of 2)\n wwww (1 of 1)\n\
    2:\n x (1 of 2)\n yy (1 of 2)\n zzz wwww (2 of 2)\n\
    3:\n x (1 of 2)\n yy zzz (2 of 2)\n wwww (1 of 1)\n\
    4:\n x yy (2 of 2)\n zzz (1 of 2)\n wwww (1 of 1)\n\
    5:\n x yy (2 of 2)\n zzz wwww (2 of 2)\n";

/// An option whose primary item is last, and eleven that colour an item which is first.
const ELEVEN: &[u8] = b"a_rather_long_name z | its_colour y\ny:b z\n\
    its_colour:a a_rather_long_name\nits_colour:b a_rather_long_name\n\
    its_colour:c a_rather_long_name\nits_colour:d a_rather_long_name\n\
    its_colour:e a_rather_long_name\nits_colour:f a_rather_long_name\n\
    its_colour:g a_rather_long_name\nits_colour:h a_rather_long_name\n\
    its_colour:i a_rather_long_name\nits_colour:j a_rather_long_name\n\
    its_colour:k a_rather_long_name\n";

const NINTH: &[u8] = b"9:\n z y:b (1 of 1)\n a_rather_long_name its_colour:i (9 of 11)\n";

const TENTH: &[u8] = b"10:\n z y:b (1 of 1)\n a_rather_long_name its_colour:j (10 of 11)\n";

const ONE_COLOUR: &[u8] = b"A B |x\nA x:1\nB x:1\nB x:2\nB x\n";

const ONE_COLOUR_LISTING: &[u8] = b"1:\n A x:1 (1 of 1)\n B x:1 (1 of 1)\n";

/// One item in 101 equal options.
const HUNDRED_AND_ONE: &[u8] = b"A\n\
    A\nA\nA\nA\nA\nA\nA\nA\nA\nA\nA\nA\nA\nA\nA\nA\nA\nA\nA\nA\nA\nA\nA\nA\nA\n\
    A\nA\nA\nA\nA\nA\nA\nA\nA\nA\nA\nA\nA\nA\nA\nA\nA\nA\nA\nA\nA\nA\nA\nA\nA\n\
    A\nA\nA\nA\nA\nA\nA\nA\nA\nA\nA\nA\nA\nA\nA\nA\nA\nA\nA\nA\nA\nA\nA\nA\nA\n\
    A\nA\nA\nA\nA\nA\nA\nA\nA\nA\nA\nA\nA\nA\nA\nA\nA\nA\nA\nA\nA\nA\nA\nA\nA\n\
    A\n";

const RUNS: [(Kind, &[u8], Run); 19] = [
    (
        Kind::Plain,
        SEVEN,
        Run(1, u64::MAX, SEVEN_LISTING, End::Done(1)),
    ),
    (
        Kind::Colours,
        COLOURED,
        Run(1, u64::MAX, COLOURED_LISTING, End::Done(1)),
    ),
    (
        Kind::Bounds,
        TWICE,
        Run(1, u64::MAX, TWICE_LISTING, End::Done(3)),
    ),
    (
        Kind::Bounds,
        ALONE,
        Run(1, u64::MAX, ALONE_LISTING, End::Done(4)),
    ),
    // Each spacing and limit.
    (
        Kind::Plain,
        THREE_ALIKE,
        Run(2, u64::MAX, b"2:\n A (2 of 3)\n", End::Done(3)),
    ),
    (
        Kind::Plain,
        THREE_ALIKE,
        Run(1, 2, b"1:\n A (1 of 3)\n2:\n A (2 of 3)\n", End::Limit(2)),
    ),
    (
        Kind::Plain,
        THREE_ALIKE,
        Run(1, 3, THREE_LISTING, End::Limit(3)),
    ),
    (
        Kind::Plain,
        THREE_ALIKE,
        Run(0, u64::MAX, b"", End::Done(3)),
    ),
    // No cover, and one colour of two.
    (
        Kind::Plain,
        b"A B\nA\n",
        Run(1, u64::MAX, b"", End::Done(0)),
    ),
    (
        Kind::Colours,
        ONE_COLOUR,
        Run(1, u64::MAX, ONE_COLOUR_LISTING, End::Done(1)),
    ),
    // An option that is ignored.
    (
        Kind::Plain,
        b"| test\r\n\r\nA | x\r\nx\r\nA x",
        Run(1, u64::MAX, b"1:\n A x (1 of 1)\n", End::Done(1)),
    ),
    (
        Kind::Plain,
        STAYING,
        Run(1, u64::MAX, STAYING_LISTING, End::Done(5)),
    ),
    // No options, the largest bound, and both of two options.
    (
        Kind::Bounds,
        b"0:1|A\n",
        Run(1, u64::MAX, b"1:\n null A (1 of 1)\n", End::Done(1)),
    ),
    (
        Kind::Bounds,
        b"999999999|A\nA\n",
        Run(1, u64::MAX, b"", End::Done(0)),
    ),
    (
        Kind::Bounds,
        b"2|A\nA\nA\n",
        Run(1, u64::MAX, b"1:\n A (1 of 1)\n A (1 of 1)\n", End::Done(1)),
    ),
    // Numbers of one digit, of two and of three.
    (Kind::Colours, ELEVEN, Run(9, 10, NINTH, End::Limit(10))),
    (
        Kind::Colours,
        ELEVEN,
        Run(10, u64::MAX, TENTH, End::Done(11)),
    ),
    (
        Kind::Plain,
        HUNDRED_AND_ONE,
        Run(
            50,
            u64::MAX,
            b"50:\n A (50 of 101)\n100:\n A (100 of 101)\n",
            End::Done(101),
        ),
    ),
    (
        Kind::Plain,
        HUNDRED_AND_ONE,
        Run(101, 100, b"", End::Limit(100)),
    ),
];

/// Whether a run over linked tables of its own lists this and ends so, into a sink that grows and then takes more.
fn by_itself(alloc: Global, problem: &Problem, wanted: &Run) -> bool {
    let mut sink = VecSink::new(alloc);
    let end = run(alloc, problem, wanted.words(), &mut sink);
    let listed = end == Ok(wanted.3) && sink.bytes() == wanted.2;
    let more = sink.flush().is_ok() && write_all(&mut sink, b"more").is_ok();
    let bytes = sink.into_bytes();
    listed && more && bytes.ends_with(b"more")
}

/// Whether one over live lists does, into a tray that takes a byte at a time.
fn over_lists(alloc: Global, problem: &Problem, wanted: &Run, tray: &mut Tray) -> bool {
    let Ok(lists) = Lists::for_search(alloc, problem) else {
        return false;
    };
    let (lists, end) = run_over(alloc, lists, problem, wanted.words(), tray);
    drop(lists);
    end == Ok(wanted.3) && tray.bytes() == wanted.2
}

impl Wanted for Run<'_> {
    fn is_so(&self, alloc: Global, problem: &Problem) -> bool {
        let Ok(mut tray) = Tray::new(alloc, 1, 1000, false) else {
            return false;
        };
        let given = over_lists(alloc, problem, self, &mut tray);
        drop(tray);
        given && by_itself(alloc, problem, self)
    }
}

#[test]
fn worked_listings(rt: HostRuntime) {
    assert_eq!(rt; wrong_row(rt.alloc(), &RUNS), None);
}
