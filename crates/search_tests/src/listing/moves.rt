//! The calls that runs and spans make of a dance: those of a search that goes as far, and no more.

use crate::search::moves::{Calls, calls, calls_of_search, keeper};
use library_tests::fixtures::{ALONE, COLOURED, SEVEN, THREE_ALIKE, TWICE, Wanted, wrong_row};
use std::alloc::Global;
use xc_input::{Kind, Problem};
use xc_list::{SpanWords, Tray, VecSink, Words, list_span_over, run_over};
use xc_search::{Halt, Span};

/// The spacing and the limit of a run, how many bytes its sink takes, and the steps of a search of the same calls. A
/// run goes as far as its limit, or to the failed write, whatever it prints; without a limit a step past the last
/// solution.
struct Steps(u64, u64, usize, u64);

const RUNS: [(Kind, &[u8], Steps); 12] = [
    (Kind::Plain, SEVEN, Steps(1, 0, 1000, 0)),
    (Kind::Plain, SEVEN, Steps(0, 1, 1000, 1)),
    (Kind::Plain, SEVEN, Steps(1, u64::MAX, 1000, 2)),
    (Kind::Colours, COLOURED, Steps(2, 1, 1000, 1)),
    (Kind::Colours, COLOURED, Steps(1, u64::MAX, 1000, 2)),
    (Kind::Bounds, ALONE, Steps(0, 2, 1000, 2)),
    (Kind::Bounds, ALONE, Steps(2, 4, 1000, 4)),
    (Kind::Bounds, ALONE, Steps(1, u64::MAX, 1000, 5)),
    // The text of each of these solutions has 15 bytes.
    (Kind::Plain, THREE_ALIKE, Steps(1, u64::MAX, 14, 1)),
    (Kind::Plain, THREE_ALIKE, Steps(1, u64::MAX, 15, 2)),
    (Kind::Plain, THREE_ALIKE, Steps(1, u64::MAX, 29, 2)),
    (Kind::Plain, THREE_ALIKE, Steps(1, u64::MAX, 30, 3)),
];

/// The calls of a run; None where there is no memory.
fn calls_of_run(alloc: Global, problem: &Problem, words: Words, room: usize) -> Option<Calls> {
    let mut tray = Tray::new(alloc, 1, room, false).ok()?;
    let counting = keeper(alloc, problem)?;
    let (back, end) = run_over(alloc, counting, problem, words, &mut tray);
    let calls = calls(&back);
    drop(back);
    drop(tray);
    if end.is_ok() { Some(calls) } else { None }
}

impl Wanted for Steps {
    fn is_so(&self, alloc: Global, problem: &Problem) -> bool {
        let words = Words {
            spacing: self.0,
            limit: self.1,
        };
        let calls = calls_of_run(alloc, problem, words, self.2);
        calls.is_some() && calls == calls_of_search(alloc, problem, self.3, 1)
    }
}

#[test]
fn a_run_makes_the_calls_of_as_many_steps(rt: HostRuntime) {
    assert_eq!(rt; wrong_row(rt.alloc(), &RUNS), None);
}

/// A listing is one span, which is listed, one solution after the other, or counted, by as many as come.
struct Once(bool, u64);

const SPANS: [(Kind, &[u8], Once); 4] = [
    (Kind::Colours, COLOURED, Once(true, 1)),
    (Kind::Bounds, TWICE, Once(false, u64::MAX)),
    (Kind::Bounds, ALONE, Once(true, 1)),
    (Kind::Bounds, ALONE, Once(false, u64::MAX)),
];

/// The calls of a search of all as a span, that goes on by so many members at a time.
fn calls_of_span(alloc: Global, problem: &Problem, many: u64) -> Option<Calls> {
    let mut span = Span::new(alloc, keeper(alloc, problem)?, problem, &[], None).ok()?;
    for _ in 0..100 {
        if span.go_on(many, u64::MAX).halt == Halt::End {
            break;
        }
    }
    Some(calls(&span.close()))
}

/// The calls of a listing, or a count, of all as a span; None where there is no memory.
fn calls_of_words(alloc: Global, problem: &Problem, listed: bool) -> Option<Calls> {
    let counting = keeper(alloc, problem)?;
    let words = SpanWords {
        listed,
        steps: 0,
        from: Vec::new(alloc),
        until: Vec::new(alloc),
    };
    let mut sink = VecSink::new(alloc);
    let (back, went) = list_span_over(alloc, counting, problem, &words, &mut sink);
    let calls = calls(&back);
    drop(back);
    drop(words);
    drop(sink);
    if went.is_ok() { Some(calls) } else { None }
}

impl Wanted for Once {
    fn is_so(&self, alloc: Global, problem: &Problem) -> bool {
        let calls = calls_of_words(alloc, problem, self.0);
        calls.is_some() && calls == calls_of_span(alloc, problem, self.1)
    }
}

#[test]
fn a_span_is_searched_once(rt: HostRuntime) {
    assert_eq!(rt; wrong_row(rt.alloc(), &SPANS), None);
}
