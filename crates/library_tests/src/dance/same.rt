//! When linked tables are the same.
use crate::dance::costs::make_all;
use crate::dance::keepers::{links, on_two};
use std::test::Fail;
use xc_dance::{Links, Move};
use xc_input::Kind;

/// A text, and the moves after which its tables are compared.
struct Moved(&'static [u8], &'static [Move]);

/// Two of them, and whether their tables are the same.
struct Pair(Moved, Moved, bool);

const PAIRS: [Pair; 12] = [
    // They differ in a lower bound.
    Pair(Moved(b"1:4|p\np\n", &[]), Moved(b"0:4|p\np\n", &[]), false),
    // Both bounds.
    Pair(Moved(b"1:3|p\np\n", &[]), Moved(b"2:4|p\np\n", &[]), false),
    // A colour.
    Pair(
        Moved(b"p | x\np x:A\np x:A\n", &[]),
        Moved(b"p | x\np x:A\np x:B\n", &[]),
        false,
    ),
    // No colour.
    Pair(
        Moved(b"p | x\np x\n", &[]),
        Moved(b"p | x\np x:A\n", &[]),
        false,
    ),
    // The links.
    Pair(
        Moved(b"p | x\np x\np\n", &[]),
        Moved(b"p | x\np\np x\n", &[]),
        false,
    ),
    // The rings.
    Pair(
        Moved(b"p x\np x\n", &[]),
        Moved(b"p | x\np x\n", &[]),
        false,
    ),
    // A secondary item.
    Pair(
        Moved(b"p | x\np\n", &[]),
        Moved(b"p | x y\np\n", &[]),
        false,
    ),
    // An option.
    Pair(Moved(b"p\np\n", &[]), Moved(b"p\np\np\n", &[]), false),
    // The order of moves.
    Pair(
        Moved(b"p q\np q\n", &[Move::Spend(1), Move::Spend(2)]),
        Moved(b"p q\np q\n", &[Move::Spend(2), Move::Spend(1)]),
        false,
    ),
    // A move.
    Pair(
        Moved(b"p\np\n", &[Move::Spend(1)]),
        Moved(b"p\np\n", &[]),
        false,
    ),
    // The node that a tweak took off.
    Pair(
        Moved(b"p q\np\nq\n", &[Move::Tweak(1)]),
        Moved(b"p q\nq\np\n", &[Move::Tweak(1)]),
        false,
    ),
    // The names alone.
    Pair(
        Moved(b"p | x\np x:A\np\n", &[]),
        Moved(b"q | y\nq y:B\nq\n", &[]),
        true,
    ),
];

/// Whether the tables after the moves are the same or not, as they should be, whichever is compared.
fn are_compared(one: &mut Links, two: &mut Links, pair: &Pair) -> bool {
    make_all(one, pair.0.1)
        && make_all(two, pair.1.1)
        && one.same(two) == pair.2
        && two.same(one) == pair.2
}

#[test]
fn tables_are_compared(rt: HostRuntime) -> Result<(), Fail> {
    for (row, pair) in PAIRS.iter().enumerate() {
        // The rooms are no part of it.
        let one = links(rt.alloc(), Kind::Bounds, pair.0.0, 2);
        let two = links(rt.alloc(), Kind::Bounds, pair.1.0, 3);
        if !on_two(one, two, pair, are_compared) {
            return Err(Fail::new(format_args!("row {row}")));
        }
    }
    Ok(())
}
