//! Problems without a solution, each with a proof that cadical 1.5.3 wrote of its clauses.
use library_tests::fixtures::{SEVEN, read};
use refutation::Answer;
use std::alloc::{AllocError, Global};
use xc_input::Kind;
use xc_none::{NoneError, has_no_cover};
use xc_text::Feed;

/// Four pigeons, and three holes.
const PIGEONS: &[u8] = b"\
    p1 p2 p3 p4 | h1 h2 h3\np1 h1\np1 h2\np1 h3\np2 h1\np2 h2\np2 h3\np3 h1\np3 h2\np3 h3\np4 h1\np4 h2\n\
    p4 h3\n";

/// Of its 56 clauses.
const PIGEONS_PROOF: &[u8] = b"\
    27 6 9 0\n6 9 12 0\n-26 9 12 0\n9 12 0\nd -26 9 12 0\nd 6 9 12 0\n29 32 0\n12 0\n24 0\n-23 0\n-33 0\n\
    -11 0\n-22 0\n-32 0\n-9 0\n-10 0\n-31 0\n-6 0\n29 0\n-3 0\n27 0\n30 0\n-8 0\n7 0\n19 0\n-26 0\n20 0\n\
    -25 0\n-4 0\n21 0\n-1 0\n5 0\n2 0\n17 0\n-16 0\n-28 0\n14 0\n-13 0\n0\n";

/// A board of four by four without two opposite corners, and dominoes.
const BOARD: &[u8] = b"\
    a2 a3 a4 b1 b2 b3 b4 c1 c2 c3 c4 d1 d2 d3\na2 a3\na2 b2\na3 a4\na3 b3\na4 b4\nb1 b2\nb1 c1\nb2 b3\n\
    b2 c2\nb3 b4\nb3 c3\nb4 c4\nc1 c2\nc1 d1\nc2 c3\nc2 d2\nc3 c4\nc3 d3\nd1 d2\nd2 d3\n";

/// Of its 106 clauses.
const BOARD_PROOF: &[u8] = b"\
    50 0\n51 0\n-18 0\n20 0\n58 0\n-57 0\n-59 0\n-19 0\n-56 0\n14 0\n-16 0\n43 0\n-42 0\n54 0\n-13 0\n-41 0\n\
    55 0\n-7 0\n6 0\n28 0\n31 0\n-30 0\n29 0\n32 0\n-8 0\n-2 0\n33 0\n-9 0\n1 0\n15 0\n21 0\n23 0\n46 0\n\
    -45 0\n49 0\n-48 0\n22 0\n24 0\n-3 0\n47 0\n-44 0\n-17 0\n-11 0\n25 0\n-4 0\n5 0\n12 0\n10 0\n27 0\n\
    -26 0\n38 0\n40 0\n-39 0\n52 0\n36 0\n-35 0\n0\n";

/// Three items of which each two are to agree on a colour, and can't all.
const CLASH: &[u8] = b"p q r | x y\np x:A\np y:B\nq x:B\nq y:A\nr x:A y:B\n";

/// Of its clauses.
const CLASH_PROOF: &[u8] = b"\
    -3 0\n4 0\n9 0\n-8 0\n10 0\nd -5 10 0\n-2 0\n1 0\n6 0\n7 0\n11 0\nd -4 11 0\n0\nd -5 -11 0\n";

/// An item that has to be held three times, and whose options hold another too often.
const THRICE: &[u8] = b"3|a b\na b\na b\na\n";

/// Of its 20 clauses.
const THRICE_PROOF: &[u8] = b"\
    -8 2 0\nd -8 5 2 0\n-9 0\nd -9 5 0\nd -9 6 2 0\n-12 3 0\nd -12 9 3 0\n8 0\n3 0\n4 0\n2 0\n1 0\nd 1 2 0\n\
    13 0\nd -1 13 0\n14 0\nd -2 14 0\nd -13 14 0\n0\nd -2 -13 0\n";

/// An item that no option holds.
const UNHELD: &[u8] = b"a b\na\na\n";

/// What a proof shows of the problem that a text stands for, if it was judged.
fn judged(alloc: Global, kind: Kind, text: &[u8], proof: &[u8]) -> Option<Answer> {
    match read(alloc, kind, text, 100) {
        Ok(read) => has_no_cover(alloc, &read.problem, &mut Feed::new(proof, 7, None)).ok(),
        Err(_) => None,
    }
}

#[test]
fn pigeons_without_holes(rt: HostRuntime) {
    assert_eq!(rt;
        judged(rt.alloc(), Kind::Plain, PIGEONS, PIGEONS_PROOF),
        Some(Answer::Refuted)
    );
}

#[test]
fn a_mutilated_board(rt: HostRuntime) {
    assert_eq!(rt;
        judged(rt.alloc(), Kind::Plain, BOARD, BOARD_PROOF),
        Some(Answer::Refuted)
    );
}

#[test]
fn colours_that_clash(rt: HostRuntime) {
    assert_eq!(rt;
        judged(rt.alloc(), Kind::Colours, CLASH, CLASH_PROOF),
        Some(Answer::Refuted)
    );
}

#[test]
fn a_bound_that_cannot_be_met(rt: HostRuntime) {
    assert_eq!(rt;
        judged(rt.alloc(), Kind::Bounds, THRICE, THRICE_PROOF),
        Some(Answer::Refuted)
    );
}

#[test]
fn an_item_without_options(rt: HostRuntime) {
    assert_eq!(rt;
        judged(rt.alloc(), Kind::Plain, UNHELD, b""),
        Some(Answer::Refuted)
    );
}

#[test]
fn a_problem_with_a_cover(rt: HostRuntime) {
    assert_eq!(rt;
        judged(rt.alloc(), Kind::Plain, SEVEN, b""),
        Some(Answer::Unfinished)
    );
    assert_eq!(rt;
        judged(rt.alloc(), Kind::Plain, SEVEN, b"0\n"),
        Some(Answer::DoesNotFollow(1))
    );
}

#[test]
fn a_read_that_fails(rt: HostRuntime) {
    let alloc = rt.alloc();
    let Ok(read) = read(alloc, Kind::Plain, PIGEONS, 100) else {
        return assert!(rt; false, "read");
    };
    let mut source = Feed::new(PIGEONS_PROOF, 7, Some(3));
    assert_eq!(rt;
        has_no_cover(alloc, &read.problem, &mut source),
        Err(NoneError::Device)
    );
}

/// An item that so many options hold, and that has to be held half as often.
fn crowded(alloc: Global) -> Result<Vec<u8>, AllocError> {
    let mut text = Vec::from_slice(alloc, b"10000|a\n")?;
    for _ in 0..20000 {
        text.extend_from_slice(b"a\n")?;
    }
    Ok(text)
}

#[test]
fn too_many_variables(rt: HostRuntime) {
    let alloc = rt.alloc();
    let Ok(text) = crowded(alloc) else {
        return assert!(rt; false, "memory");
    };
    let Ok(read) = read(alloc, Kind::Bounds, text.as_slice(), 100) else {
        return assert!(rt; false, "read");
    };
    let mut source = Feed::new(b"", 7, None);
    assert_eq!(rt;
        has_no_cover(alloc, &read.problem, &mut source),
        Err(NoneError::TooManyVariables)
    );
}
