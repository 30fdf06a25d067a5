//! The text of a problem's clauses.
use library_tests::fixtures::read;
use std::alloc::Global;
use xc_input::Kind;
use xc_none::{clauses, write_cnf};
use xc_text::VecSink;

/// Two items, of which one is to be held twice, and one with colours.
const PROBLEM: &[u8] = b"a 2|b | x\na x:A\na b\nb x:B\nb x\n";

/// By hand from the rules.
const CNF: &[u8] = b"\
    c 1 option 1 is chosen\n\
    c 2 option 2 is chosen\n\
    c 3 option 3 is chosen\n\
    c 4 option 4 is chosen\n\
    c 5 of the options up to 1 with a at least 1\n\
    c 6 of the options up to 2 with a at least 1\n\
    c 7 of the options up to 2 with b at least 1\n\
    c 8 of the options up to 2 with b at least 2\n\
    c 9 of the options up to 3 with b at least 1\n\
    c 10 of the options up to 3 with b at least 2\n\
    c 11 of the options up to 4 with b at least 1\n\
    c 12 of the options up to 4 with b at least 2\n\
    c 13 one of the options with x without a colour up to 4\n\
    c 14 one of the options with x without a colour or with one up to A\n\
    p cnf 14 29\n\
    1 2 0\n\
    -1 5 0\n\
    -2 6 0\n\
    -5 6 0\n\
    -2 -5 0\n\
    2 3 4 0\n\
    -2 7 0\n\
    -3 9 0\n\
    -7 9 0\n\
    -3 -7 10 0\n\
    -4 11 0\n\
    -9 11 0\n\
    -4 -9 12 0\n\
    -10 12 0\n\
    -4 -10 0\n\
    -7 2 0\n\
    -8 0\n\
    -9 7 3 0\n\
    -10 7 0\n\
    -10 8 3 0\n\
    -11 9 4 0\n\
    -12 9 0\n\
    -12 10 4 0\n\
    12 0\n\
    -13 14 0\n\
    -1 14 0\n\
    -1 -13 0\n\
    -3 -14 0\n\
    -4 13 0\n";

/// Whether the clauses of a text's problem are written as this.
fn is_written(alloc: Global, kind: Kind, text: &[u8], wanted: &[u8]) -> bool {
    let Ok(read) = read(alloc, kind, text, 100) else {
        return false;
    };
    let Ok(formula) = clauses(alloc, &read.problem) else {
        return false;
    };
    let mut sink = VecSink::new(alloc);
    write_cnf(&mut sink, &read.problem, &formula).is_ok() && sink.bytes() == wanted
}

#[test]
fn the_clauses_of_a_small_problem(rt: HostRuntime) {
    assert!(rt; is_written(rt.alloc(), Kind::Bounds, PROBLEM, CNF));
}
