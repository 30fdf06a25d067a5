//! Sets of options that hold items within bounds, counted by words of bits.
use xc_words::{BoundedWords, count_bounded};

/// The words of item 0, which options 0, 1 and 2 hold, and item 1, which 2 and 3 hold. Option 3 can't be beside 0.
fn four_options(low: u8, high: u8) -> BoundedWords {
    let mut words = BoundedWords::new();
    words.holders[0] = 0b0111;
    words.holders[1] = 0b1100;
    words.many[0] = 0b01;
    words.many[1] = 0b01;
    words.many[2] = 0b11;
    words.many[3] = 0b10;
    words.apart[0] = 0b1000;
    words.apart[3] = 0b0001;
    words.low[0] = low;
    words.high[0] = high;
    words.high[1] = 1;
    words
}

/// The count of the sets of these options that are left, up to `most`, and what is left of the budget.
fn counted(words: &BoundedWords, left: u64, most: u64, budget: u64) -> (Option<u64>, u64) {
    let mut budget = budget;
    let count = count_bounded(words, left, 0b11, most, &mut budget);
    (count, budget)
}

#[test]
fn sets_within_bounds_are_counted(rt: HostRuntime) {
    // 0, 1, 2, and 1 with 3; two of the three; and all three.
    assert_eq!(rt; counted(&four_options(1, 1), 0b1111, 100, 100).0, Some(4));
    assert_eq!(rt; counted(&four_options(1, 2), 0b1111, 100, 100).0, Some(7));
    assert_eq!(rt; counted(&four_options(2, 3), 0b1111, 100, 100).0, Some(4));
    // And 3, and none at all.
    assert_eq!(rt; counted(&four_options(0, 1), 0b1111, 100, 100).0, Some(6));
    assert_eq!(rt; counted(&four_options(0, 3), 0b1111, 100, 100).0, Some(10));
    // Too few are left.
    assert_eq!(rt; counted(&four_options(2, 3), 0b1001, 100, 100).0, Some(0));
    assert_eq!(rt; counted(&four_options(1, 3), 0b1001, 100, 100).0, Some(1));
}

#[test]
fn options_without_bounds_are_taken_or_not(rt: HostRuntime) {
    let words = BoundedWords::new();
    let mut budget = 100;
    assert_eq!(rt; count_bounded(&words, 0b10101, 0, 8, &mut budget), Some(8));
    assert_eq!(rt; budget, 92);
    assert_eq!(rt; count_bounded(&words, 0b10101, 0, 7, &mut budget), None);
    assert_eq!(rt; count_bounded(&words, 0, 0, 1, &mut budget), Some(1));
    assert_eq!(rt; count_bounded(&words, 0, 0, 0, &mut budget), None);
    let mut little = 7;
    assert_eq!(rt; count_bounded(&words, 0b10101, 0, 8, &mut little), None);
    assert_eq!(rt; little, 0);
}
