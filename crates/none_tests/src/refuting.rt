//! Proofs of refutations, as a SAT engine writes them, and what is no proof.
use refutation::{Answer, negated, refute};
use std::alloc::{AllocError, Global};
use std::test::Fail;
use xc_text::{Feed, SliceSource, Unread};

/// A number above all literals of the clauses here.
const LITERALS: usize = 26;

/// What cadical 1.5.3 shows of the pigeons, as text.
const TEXT: &[u8] =
    b"-11 -12 0\n-7 -12 0\n-12 0\n-8 0\n-7 0\n9 0\n-3 0\n-6 0\n-1 0\n2 0\n-5 0\n-11 0\n4 0\n10 0\n0\n";

/// The same, as bytes.
const BINARY: &[u8] =
    b"a\x17\x19\0a\x0f\x19\0a\x19\0a\x11\0a\x0f\0a\x12\0a\x07\0a\x0d\0a\x03\0a\x04\0a\x0b\0a\x17\0a\x08\0a\x14\0a\0";

/// Each of four pigeons is in one of three holes, and no two are in the same one. That pigeon p, from 0, is in hole h
/// is variable 3p + h + 1.
fn pigeons(alloc: Global) -> Result<Vec<Vec<u32>>, AllocError> {
    let mut clauses = Vec::new(alloc);
    for pigeon in 0..4u32 {
        let first = 6 * pigeon + 2;
        clauses.push(vec![in alloc; first, first + 2, first + 4]?)?;
        for other in 0..pigeon {
            for hole in 0..3u32 {
                clauses.push(vec![in alloc; first + 2 * hole + 1, 6 * other + 2 * hole + 3]?)?;
            }
        }
    }
    Ok(clauses)
}

/// The four clauses of two variables.
fn two_variables(alloc: Global) -> Result<Vec<Vec<u32>>, AllocError> {
    let mut clauses = Vec::new(alloc);
    for first in 2..4u32 {
        for second in 4..6u32 {
            clauses.push(vec![in alloc; first, second]?)?;
        }
    }
    Ok(clauses)
}

/// What a proof shows of clauses.
fn shown(alloc: Global, formula: &Vec<Vec<u32>>, proof: &[u8]) -> Result<Answer, Unread> {
    refute(
        alloc,
        formula.as_slice(),
        LITERALS,
        &mut SliceSource::new(proof),
    )
}

/// What a proof shows of two variables.
fn shown_of_two(alloc: Global, proof: &[u8]) -> Result<Answer, Unread> {
    shown(alloc, &two_variables(alloc)?, proof)
}

#[test]
fn opposites_have_the_two_literals_of_a_variable(rt: HostRuntime) {
    assert_eq!(rt; (negated(2), negated(3)), (3, 2));
}

#[test]
fn proofs_by_cadical_refute(rt: HostRuntime) -> Result<(), Fail> {
    let formula = pigeons(rt.alloc())?;
    assert_eq!(rt; shown(rt.alloc(), &formula, TEXT), Ok(Answer::Refuted));
    assert_eq!(rt; shown(rt.alloc(), &formula, BINARY), Ok(Answer::Refuted));
    Ok(())
}

#[test]
fn a_proof_comes_in_any_pieces(rt: HostRuntime) -> Result<(), Fail> {
    let formula = pigeons(rt.alloc())?;
    for proof in [TEXT, BINARY] {
        let mut source = Feed::new(proof, 1, None);
        let answer = refute(rt.alloc(), formula.as_slice(), LITERALS, &mut source);
        assert_eq!(rt; answer, Ok(Answer::Refuted));
    }
    Ok(())
}

#[test]
fn a_proof_may_be_longer_than_a_read(rt: HostRuntime) -> Result<(), Fail> {
    let mut proof = vec![in rt.alloc(); b' '; 70000]?;
    proof.extend_from_slice(b"\n2 0\n0\n")?;
    assert_eq!(rt;
        shown_of_two(rt.alloc(), proof.as_slice()),
        Ok(Answer::Refuted)
    );
    Ok(())
}

#[test]
fn a_proof_that_is_cut_is_unfinished(rt: HostRuntime) -> Result<(), Fail> {
    let formula = pigeons(rt.alloc())?;
    assert_eq!(rt;
        shown(rt.alloc(), &formula, b"-11 -12 0\n"),
        Ok(Answer::Unfinished)
    );
    assert_eq!(rt;
        shown(rt.alloc(), &formula, b"a\x17\x19\0a\x0f\x19\0"),
        Ok(Answer::Unfinished)
    );
    assert_eq!(rt; shown(rt.alloc(), &formula, b""), Ok(Answer::Unfinished));
    Ok(())
}

#[test]
fn a_clause_has_to_follow(rt: HostRuntime) -> Result<(), Fail> {
    let formula = pigeons(rt.alloc())?;
    assert_eq!(rt;
        shown(rt.alloc(), &formula, b"-11 -12 0\n1 0\n"),
        Ok(Answer::DoesNotFollow(2))
    );
    assert_eq!(rt;
        shown(rt.alloc(), &formula, b"a\x02\0"),
        Ok(Answer::DoesNotFollow(1))
    );
    assert_eq!(rt;
        shown(rt.alloc(), &formula, b"0\n"),
        Ok(Answer::DoesNotFollow(1))
    );
    // A variable that the formula doesn't have.
    assert_eq!(rt;
        shown(rt.alloc(), &formula, b"13 0\n"),
        Ok(Answer::DoesNotFollow(1))
    );
    Ok(())
}

#[test]
fn a_dropped_clause_is_not_used(rt: HostRuntime) {
    let alloc = rt.alloc();
    assert_eq!(rt; shown_of_two(alloc, b"2 0\n0\n"), Ok(Answer::Refuted));
    assert_eq!(rt;
        shown_of_two(alloc, b"d 2 1 0\n2 0\n0\n"),
        Ok(Answer::DoesNotFollow(2))
    );
    assert_eq!(rt;
        shown_of_two(alloc, b"d\x04\x02\0a\x04\0"),
        Ok(Answer::DoesNotFollow(2))
    );
    // Clauses that aren't there are passed over.
    assert_eq!(rt;
        shown_of_two(alloc, b"d 1 0\nd 1 2 3 0\nd 0\n2 0\n"),
        Ok(Answer::Refuted)
    );
}

#[test]
fn what_a_dropped_clause_led_to_stays(rt: HostRuntime) -> Result<(), Fail> {
    let mut formula = vec![in rt.alloc()]?;
    formula.push(vec![in rt.alloc(); 2]?)?;
    formula.push(vec![in rt.alloc(); 3, 4]?)?;
    for third in 6..8u32 {
        for fourth in 8..10u32 {
            formula.push(vec![in rt.alloc(); 5, third, fourth]?)?;
        }
    }
    assert_eq!(rt;
        shown(rt.alloc(), &formula, b"d 1 0\nd -1 2 0\n3 0\n"),
        Ok(Answer::Refuted)
    );
    Ok(())
}

#[test]
fn what_is_no_step_is_reported(rt: HostRuntime) {
    let alloc = rt.alloc();
    for text in [
        "1 x 0\n",
        "1 2",
        "1 2 -",
        "-0 0\n",
        "2147483648 0\n",
        "12345678901 0\n",
        "1d 0\n",
        "d2 0\n",
        "x 0\n",
    ] {
        assert_eq!(rt;
            shown_of_two(alloc, text.as_bytes()),
            Ok(Answer::NoStep(1)),
            "in {text}"
        );
    }
    assert_eq!(rt;
        shown_of_two(alloc, b"a\x02\x04\0a\x05"),
        Ok(Answer::NoStep(2))
    );
    assert_eq!(rt; shown_of_two(alloc, b"a\x01\0"), Ok(Answer::NoStep(1)));
    assert_eq!(rt;
        shown_of_two(alloc, b"a\xff\xff\xff\xff\x7f\0"),
        Ok(Answer::NoStep(1))
    );
    assert_eq!(rt;
        shown_of_two(alloc, b"a\x02\x04\0b\x05\0"),
        Ok(Answer::NoStep(2))
    );
}

#[test]
fn white_space_and_comments_are_passed_over(rt: HostRuntime) {
    let text = b"c by hand\r\n\n  2\t\r\n 0 c last\n 0";
    assert_eq!(rt; shown_of_two(rt.alloc(), text), Ok(Answer::Refuted));
}

#[test]
fn a_formula_may_refute_itself(rt: HostRuntime) -> Result<(), Fail> {
    let mut formula = two_variables(rt.alloc())?;
    formula.push(Vec::new(rt.alloc()))?;
    assert_eq!(rt; shown(rt.alloc(), &formula, b""), Ok(Answer::Refuted));
    let mut units = vec![in rt.alloc()]?;
    units.push(vec![in rt.alloc(); 2]?)?;
    units.push(vec![in rt.alloc(); 3]?)?;
    assert_eq!(rt; shown(rt.alloc(), &units, b"x"), Ok(Answer::Refuted));
    Ok(())
}

#[test]
fn a_failed_read_is_reported(rt: HostRuntime) -> Result<(), Fail> {
    let formula = pigeons(rt.alloc())?;
    for call in [1, 2, 3] {
        let mut source = Feed::new(TEXT, 10, Some(call));
        let answer = refute(rt.alloc(), formula.as_slice(), LITERALS, &mut source);
        assert_eq!(rt; answer, Err(Unread::Device), "at read {call}");
    }
    Ok(())
}
