//! Exact covers counted by words of bits.
ghost use Rattle.std.specs.Prelude.{◌<◌, ℕ};
ghost use Rattle.xc_words.specs.Words.{HasOwn};

use xc_words::{Words, count_left};

/// The words of the items a, b and c in the options `a b`, `c`, `a` and `b c`, which have two covers.
fn two_covers() -> Words
    ensures { (left items : ℕ) → HasOwn result.holders result.alone left items }
{
    let mut words = Words::new();
    words.holders[0] = 0b0101;
    words.holders[1] = 0b1001;
    words.holders[2] = 0b1010;
    words.alone[0] = 0b011;
    words.alone[1] = 0b100;
    words.alone[2] = 0b001;
    words.alone[3] = 0b110;
    words.apart[0] = 0b1101;
    words.apart[1] = 0b1010;
    words.apart[2] = 0b0101;
    words.apart[3] = 0b1011;
    words
}

/// The count of these options that are left and open items, up to `most`, and what is left of the budget.
fn counted(words: &Words, left: u64, items: u64, most: u64, budget: u64) -> (Option<u64>, u64)
    requires some { 0 < most }
    requires own { HasOwn words.now.holders words.now.alone left items }
{
    let mut budget = budget;
    let count = count_left(words, left, items, most, &mut budget);
    (count, budget)
}

#[test]
fn covers_are_counted_by_words(rt: HostRuntime) {
    let words = two_covers();
    assert_eq!(rt;
        counted(&words, 0b1111, 0b111, u64::MAX, 2000),
        (Some(2), 1997)
    );
    // An option left for each item, an item without one, and an item by itself.
    assert_eq!(rt; counted(&words, 0b0011, 0b111, 1, 2000), (Some(1), 1998));
    assert_eq!(rt; counted(&words, 0b1010, 0b111, 1, 2000), (Some(0), 1999));
    assert_eq!(rt; counted(&words, 0b1111, 0b001, 2, 2000), (Some(2), 1999));
    // No item open: one cover, without a node.
    assert_eq!(rt; counted(&words, 0b1111, 0, 1, 0), (Some(1), 0));
}

#[test]
fn no_more_covers_than_asked_are_counted(rt: HostRuntime) {
    let words = two_covers();
    assert_eq!(rt; counted(&words, 0b1111, 0b111, 2, 2000), (Some(2), 1997));
    assert_eq!(rt; counted(&words, 0b1111, 0b111, 1, 2000), (None, 1997));
}

#[test]
fn the_budget_is_in_nodes(rt: HostRuntime) {
    let words = two_covers();
    assert_eq!(rt; counted(&words, 0b1111, 0b111, 2, 3), (Some(2), 0));
    assert_eq!(rt; counted(&words, 0b1111, 0b111, 2, 2), (None, 0));
    assert_eq!(rt; counted(&words, 0b1111, 0b111, 2, 0), (None, 0));
}

/// The words of no options.
fn no_options() -> Words
    ensures { (left items : ℕ) → HasOwn result.holders result.alone left items }
{
    Words::new()
}

#[test]
fn new_words_have_no_options(rt: HostRuntime) {
    let words = no_options();
    assert_eq!(rt; counted(&words, u64::MAX, u64::MAX, 1, 1), (Some(0), 0));
    assert_eq!(rt; counted(&words, 0, 0, 1, 1), (Some(1), 1));
}
