//! What is equal, by calls that say so.
use xc_search::{Choice, Halt, RowNumber, Step, Went, laws};

/// Branches one and two of two.
const CHOICES: [Choice; 2] = [
    Choice {
        item: 1,
        option: Some(1),
        k: 1,
        n: 2,
    },
    Choice {
        item: 1,
        option: Some(2),
        k: 2,
        n: 2,
    },
];

const WAYS: [Went; 2] = [
    Went {
        halt: Halt::End,
        members: 0,
        steps: 1,
    },
    Went {
        halt: Halt::End,
        members: 0,
        steps: 2,
    },
];

const NUMBERS: [RowNumber; 2] = [RowNumber { k: 1, n: 2 }, RowNumber { k: 2, n: 2 }];

#[test]
fn equal_values(rt: HostRuntime) {
    let [first, second] = &CHOICES;
    assert!(rt; laws::equal_choices(first, first) && !laws::equal_choices(first, second));
    let [done, solution] = [Step::Done, Step::Solution];
    assert!(rt; laws::equal_steps(&done, &done) && !laws::equal_steps(&done, &solution));
    let [one, two] = &WAYS;
    assert!(rt; laws::equal_ways(one, one) && !laws::equal_ways(one, two));
    let [low, high] = &NUMBERS;
    assert!(rt; laws::equal_row_numbers(low, low) && !laws::equal_row_numbers(low, high));
}
