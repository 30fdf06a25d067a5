//! A run of each tool, by steps of one byte and of many. `tests/runs.py` has many more, by the programs.
use crate::told::{Told, Tool, told_by};
use library_tests::fixtures::{COLOURED, COLOURED_LISTING, SEVEN, SEVEN_LISTING, THREE_LISTING};
use std::test::Fail;
use xc_input::Kind;

const PLAIN: Tool = Tool::Solve(Kind::Plain);

/// Three equal options in two spans; the search of the first stopped.
const LISTED: &[u8] = b"from - problem 0123456789abcdef\n1:\n A (1 of 3)\n\
    from - until 2 of 3 solutions 1 steps 1 problem 0123456789abcdef text ad8f910354eb0089\n\
    from 2 problem 0123456789abcdef\n1:\n A (2 of 3)\n2:\n A (3 of 3)\n\
    from 2 until - solutions 2 steps 2 problem 0123456789abcdef text 950cebffa3b6f164\n";

const SPAN: &[u8] =
    b"from - until 2 of 2 solutions 0 steps 2 problem 5f4feb9a050fe0f5 text e51b9ef4587523ae\n";

/// Tools, their words and texts, and the status, the output and the messages.
const RUNS: [(Tool, &[u8], &[u8], u8, &[u8], &[u8]); 5] = [
    (
        PLAIN,
        b"m1",
        SEVEN,
        0,
        SEVEN_LISTING,
        b"Altogether 1 solution.\n",
    ),
    (
        PLAIN,
        b"m1",
        b"A B\nA B A\n",
        2,
        b"",
        b"Line 2: item repeated in option.\n",
    ),
    (
        Tool::Judge(COLOURED_LISTING),
        b"PROBLEM,2",
        COLOURED,
        0,
        b"1: cover\n",
        b"",
    ),
    (Tool::Span, b"1,m0,2,-,2.1", SEVEN, 0, SPAN, b""),
    (
        Tool::Join,
        b"m1",
        LISTED,
        0,
        THREE_LISTING,
        b"Altogether 3 solutions.\n",
    ),
];

#[test]
fn each_tool_reports_so(rt: HostRuntime) -> Result<(), Fail> {
    for (row, (tool, words, text, status, out, err)) in RUNS.iter().enumerate() {
        for step in [1, 4096] {
            let told = told_by(rt.alloc(), tool, words, text, step);
            if !Told::was(told, *status, out, err) {
                return Err(Fail::new(format_args!("row {row}, by {step}")));
            }
        }
    }
    Ok(())
}
