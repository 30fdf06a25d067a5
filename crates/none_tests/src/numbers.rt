//! Tests of texts of numbers, and of texts that are none.
use std::alloc::Global;
use xc_numbers::{NumbersError, read_numbers};
use xc_text::{Feed, SliceSource};

/// A text, and its numbers or its first faulty line.
type Row = (&'static [u8], Result<&'static [i64], u64>);

const ROWS: [Row; 9] = [
    (b"", Ok(&[])),
    (
        b"| of items\n1 -1\n\n\t0 -999999999\r\n  | x\n12",
        Ok(&[1, -1, 0, -999_999_999, 12]),
    ),
    (b"x", Err(1)),
    (b"1\n2 -\n3 4x\n", Err(2)),
    (b"1\n| -\n\n+3\n", Err(4)),
    (b"1234567890", Err(1)),
    (b"1 --2\n", Err(1)),
    (b"1 2|\n", Err(1)),
    (b"7\n\x00\n", Err(2)),
];

/// Whether a text is read so.
fn is_read_so(alloc: Global, row: &Row) -> bool {
    let mut source = SliceSource::new(row.0);
    match (read_numbers(alloc, &mut source), row.1) {
        (Ok(numbers), Ok(wanted)) => numbers.as_slice() == wanted,
        (Err(NumbersError::Fault { line }), Err(wanted)) => line == wanted,
        _ => false,
    }
}

#[test]
fn texts_of_numbers(rt: HostRuntime) {
    for (k, row) in ROWS.iter().enumerate() {
        assert!(rt; is_read_so(rt.alloc(), row), "row {k}");
    }
}

#[test]
fn a_read_that_fails(rt: HostRuntime) {
    let mut source = Feed::new(b"1 2 3\n", 2, Some(2));
    let read = read_numbers(rt.alloc(), &mut source);
    assert!(rt; matches!(read, Err(NumbersError::Device)));
}
