//! Texts that are written by themselves, and choice lines that are read.
use library_tests::fixtures::{SEVEN, Wanted, wrong_row};
use std::alloc::Global;
use xc_input::{Kind, Problem};
use xc_list::{VecSink, branch_number, write_choices, write_line, write_solution};

/// A line that fits no buffer on the way.
const LONG: &[u8] = &[b'.'; 200];

/// The header of a solution without choices, a line of a message, and the first bytes of a long one.
const TEXTS: &[u8] = b"12:\nLine 12: no items.\nLine 7....";

/// Whether these are written, one after the other.
fn are_written(problem: &Problem, sink: &mut VecSink) -> bool {
    write_solution(12, &[], problem, sink).is_ok()
        && write_choices(&[], problem, sink).is_ok()
        && write_line(sink, b"Line ", 12, &[b": ", b"no items", b".\n"]).is_ok()
        && write_line(sink, b"Line ", 7, &[LONG, b"\n"]).is_ok()
        && sink.bytes().starts_with(TEXTS)
        && sink.bytes().len() == 4 + 19 + 207
}

/// The texts are written into a sink.
struct Written;

impl Wanted for Written {
    fn is_so(&self, alloc: Global, problem: &Problem) -> bool {
        let mut sink = VecSink::new(alloc);
        let written = are_written(problem, &mut sink);
        drop(sink);
        written
    }
}

#[test]
fn a_header_and_lines(rt: HostRuntime) {
    assert_eq!(rt;
        wrong_row(rt.alloc(), &[(Kind::Plain, SEVEN, Written)]),
        None
    );
}

/// Lines, and the number of the branch of those that are choice lines.
const BRANCHES: [(&[u8], Option<u64>); 9] = [
    (b" A (1 of 3)", Some(1)),
    (b" null A:B (0012 of 3)", Some(12)),
    (b" ( (9999999999 of 1)", Some(9999999999)),
    (b"A (1 of 3)", None),
    (b" (1 of 3)", None),
    (b" A  (1 of 3)", None),
    (b" A (1 of 3)\r", None),
    (b" A (10000000000 of 3)", None),
    (b" A (1 of)", None),
];

#[test]
fn branches_of_choice_lines(rt: HostRuntime) {
    for (line, number) in &BRANCHES {
        assert_eq!(rt; branch_number(line), *number);
    }
}
