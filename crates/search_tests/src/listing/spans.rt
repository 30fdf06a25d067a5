//! Spans of listings, and the words that mean them.
use library_tests::fixtures::{THREE_ALIKE, TWICE, Wanted, gathered, wrong_row};
use std::alloc::Global;
use xc_dance::Lists;
use xc_input::{Kind, Problem};
use xc_list::{SpanWords, VecSink, list_span, list_span_over};

/// Words, and what is written of the span that they mean. The digests of the problems are in `digests.rt`.
struct Span(&'static [&'static [u8]], &'static [u8]);

const SPANS: [(Kind, &[u8], Span); 9] = [
    (
        Kind::Plain,
        THREE_ALIKE,
        Span(
            &[b"m1", b"0", b"-", b"-"],
            b"from - problem 12589a6a85a80440\n1:\n A (1 of 3)\n2:\n A (2 of 3)\n3:\n A (3 of 3)\n\
            from - until - solutions 3 steps 3 problem 12589a6a85a80440 text b5e707e93cb2f318\n",
        ),
    ),
    (
        Kind::Plain,
        THREE_ALIKE,
        Span(
            &[b"m1", b"0", b"02", b"3"],
            b"from 2 problem 12589a6a85a80440\n1:\n A (2 of 3)\n\
            from 2 until 3 solutions 1 steps 1 problem 12589a6a85a80440 text ee83eae50a7b0d4b\n",
        ),
    ),
    (
        Kind::Plain,
        THREE_ALIKE,
        Span(
            &[b"m1", b"2", b"-", b"-"],
            b"from - problem 12589a6a85a80440\n1:\n A (1 of 3)\n\
            from - until 2 of 3 solutions 1 steps 2 problem 12589a6a85a80440 text 33a93d57a982c94b\n",
        ),
    ),
    (
        Kind::Plain,
        THREE_ALIKE,
        Span(
            &[b"m1", b"1", b"-", b"-"],
            b"from - problem 12589a6a85a80440\n\
            from - until 1 of 3 solutions 0 steps 1 problem 12589a6a85a80440 text a1c04ea680acfb36\n",
        ),
    ),
    (
        Kind::Plain,
        THREE_ALIKE,
        Span(
            &[b"m0", b"2", b"-", b"-"],
            b"from - until 2 of 3 solutions 1 steps 2 problem 12589a6a85a80440 text 92f4b3ab48cd7e82\n",
        ),
    ),
    (
        Kind::Plain,
        THREE_ALIKE,
        Span(
            &[b"m0", b"0", b"1.0", b"1.0"],
            b"from 1.0 until 1.0 solutions 0 steps 0 problem 12589a6a85a80440 text e6e6c4ef1c8f6d5c\n",
        ),
    ),
    (
        Kind::Plain,
        THREE_ALIKE,
        Span(
            &[b"m0", b"0", b"1.4294967295", b"-"],
            b"from 1.4294967295 until - solutions 2 steps 1 problem 12589a6a85a80440 text 06458e5f3cac9974\n",
        ),
    ),
    (
        Kind::Plain,
        THREE_ALIKE,
        Span(
            &[b"m0", b"0", b"4", b"-"],
            b"from 4 until - solutions 0 steps 0 problem 12589a6a85a80440 text 5f1eb8efd42bd684\n",
        ),
    ),
    // Rows of two choices. Solutions are printed: those that are only counted take no steps over linked tables.
    (
        Kind::Bounds,
        TWICE,
        Span(
            &[b"m1", b"3", b"1.2", b"-"],
            b"from 1.2 problem 18dfe1040992a59e\n1:\n A (1 of 2)\n null A (2 of 2)\n B (1 of 1)\n\
            from 1.2 until 2.1 of 2.1 solutions 1 steps 3 problem 18dfe1040992a59e text 8e2f9bf25033bb3a\n",
        ),
    ),
];

/// A span that is written so over linked tables. Over them solutions of items with bounds that are only counted are
/// counted by words, with fewer steps than over live lists.
struct Counted(Span);

const COUNTED: [(Kind, &[u8], Counted); 1] = [(
    Kind::Bounds,
    TWICE,
    Counted(Span(
        &[b"m0", b"3", b"1.2", b"-"],
        b"from 1.2 until - solutions 2 steps 1 problem 18dfe1040992a59e text db6c6e26e61cb385\n",
    )),
)];

/// What words mean; None where there is no memory.
fn asked(alloc: Global, words: &[&[u8]]) -> Option<Option<SpanWords>> {
    let all = gathered(alloc, words).ok()?;
    SpanWords::read(alloc, &all).ok()
}

/// Whether a span is written so.
fn is_written(alloc: Global, problem: &Problem, words: &SpanWords, wanted: &[u8]) -> bool {
    let mut sink = VecSink::new(alloc);
    let went = list_span(alloc, problem, words, &mut sink);
    let written = went.is_ok() && sink.bytes() == wanted;
    drop(sink);
    written
}

/// Whether it is over live lists.
fn is_written_over_lists(
    alloc: Global,
    problem: &Problem,
    words: &SpanWords,
    wanted: &[u8],
) -> bool {
    let Ok(lists) = Lists::for_search(alloc, problem) else {
        return false;
    };
    let mut sink = VecSink::new(alloc);
    let (lists, went) = list_span_over(alloc, lists, problem, words, &mut sink);
    let written = went.is_ok() && sink.bytes() == wanted;
    drop(lists);
    drop(sink);
    written
}

impl Wanted for Span {
    fn is_so(&self, alloc: Global, problem: &Problem) -> bool {
        match asked(alloc, self.0) {
            Some(Some(words)) => {
                is_written(alloc, problem, &words, self.1)
                    && is_written_over_lists(alloc, problem, &words, self.1)
            },
            _ => false,
        }
    }
}

impl Wanted for Counted {
    fn is_so(&self, alloc: Global, problem: &Problem) -> bool {
        match asked(alloc, self.0.0) {
            Some(Some(words)) => is_written(alloc, problem, &words, self.0.1),
            _ => false,
        }
    }
}

#[test]
fn spans_by_words(rt: HostRuntime) {
    assert_eq!(rt; wrong_row(rt.alloc(), &SPANS), None);
    assert_eq!(rt; wrong_row(rt.alloc(), &COUNTED), None);
}

/// Words that mean no span.
const REFUSED: [&[&[u8]]; 12] = [
    &[],
    &[b"m1", b"0", b"-"],
    &[b"m1", b"0", b"-", b"-", b"-"],
    &[b"m2", b"0", b"-", b"-"],
    &[b"m1", b"", b"-", b"-"],
    &[b"m1", b"18446744073709551616", b"-", b"-"],
    &[b"m1", b"0", b"", b"-"],
    &[b"m1", b"0", b"1.", b"-"],
    &[b"m1", b"0", b"1..2", b"-"],
    &[b"m1", b"0", b"1,2", b"-"],
    &[b"m1", b"0", b"4294967296", b"-"],
    &[b"m1", b"0", b"1.2", b"1.1.7"],
];

#[test]
fn words_of_no_span(rt: HostRuntime) {
    for (row, words) in REFUSED.iter().enumerate() {
        assert!(rt;
            matches!(asked(rt.alloc(), *words), Some(None)),
            "row {row}"
        );
    }
}
