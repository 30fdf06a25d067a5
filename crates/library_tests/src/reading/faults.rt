//! The fault of a text with its words, and the token at fault of a line. `tests/runs.py` tries each fault.
use crate::fixtures::read;
use std::alloc::Global;
use std::test::Fail;
use xc_input::{FaultKind, InputError, Kind, Seed, faulty_token};

/// Texts, the line and the fault that each is refused for, and its words.
const TEXTS: [(Kind, &[u8], u64, FaultKind, &str); 3] = [
    (
        Kind::Plain,
        b"A B\nA B A",
        2,
        FaultKind::RepeatedInOption,
        "item repeated in option",
    ),
    (
        Kind::Colours,
        b"A | x\n\nA x:",
        3,
        FaultKind::BadColour,
        "bad colour",
    ),
    (
        Kind::Bounds,
        b"2:1|A",
        1,
        FaultKind::BoundOrder,
        "bound order",
    ),
];

fn has_words(alloc: Global, kind: FaultKind, wanted: &str) -> bool {
    match kind.to_string(alloc) {
        Ok(text) => text.as_str() == wanted,
        Err(_) => false,
    }
}

#[test]
fn faults_of_texts(rt: HostRuntime) -> Result<(), Fail> {
    for (row, (kind, text, line, found, words)) in TEXTS.iter().enumerate() {
        let wanted = InputError::Fault {
            line: *line,
            kind: *found,
        };
        if read(rt.alloc(), *kind, text, 1).err() != Some(wanted)
            || !has_words(rt.alloc(), *found, *words)
        {
            return Err(Fail::new(format_args!("row {row}")));
        }
    }
    Ok(())
}

/// What is before the token at fault of a line, the token, what is after it, and what is wrong with it.
struct Cut(&'static [u8], &'static [u8], &'static [u8], FaultKind);

/// A line, behind an item line if there is one, and how the token at fault cuts it, if one is.
struct Line(Kind, Option<&'static [u8]>, &'static [u8], Option<Cut>);

const LINES: [Line; 4] = [
    Line(
        Kind::Bounds,
        None,
        b"A B|x C",
        Some(Cut(b"A ", b"B|x", b" C", FaultKind::BadBound)),
    ),
    Line(
        Kind::Colours,
        Some(b"A B C | x"),
        b"x:1 A:1 B",
        Some(Cut(b"x:1 ", b"A:1", b" B", FaultKind::ColourOnPrimary)),
    ),
    // No token is at fault.
    Line(Kind::Plain, None, b"| A A", None),
    Line(Kind::Plain, Some(b"A B"), b"A A \0", None),
];

/// Whether the token at fault cuts the line so.
fn is_cut(alloc: Global, row: &Line) -> bool {
    let Line(kind, items, line, cut) = row;
    match (faulty_token(alloc, Seed::FIXED, *kind, *items, line), cut) {
        (Ok(Some(found)), Some(Cut(before, token, behind, fault))) => {
            found.before == *before
                && found.token == *token
                && found.behind == *behind
                && found.kind == *fault
        }
        (Ok(None), None) => true,
        _ => false,
    }
}

#[test]
fn tokens_at_fault(rt: HostRuntime) -> Result<(), Fail> {
    for (row, line) in LINES.iter().enumerate() {
        if !is_cut(rt.alloc(), line) {
            return Err(Fail::new(format_args!("row {row}")));
        }
    }
    Ok(())
}
