//! Numbers of any size.
use natural::{Natural, parse};
use std::alloc::{AllocError, Global};

/// Whether a number has this text.
fn is_text(alloc: Global, n: &Natural, text: &[u8]) -> bool {
    match n.to_decimal(alloc) {
        Ok(digits) => digits.as_slice() == text,
        Err(_) => false,
    }
}

/// Texts that are read and written again, in order.
const TEXTS: [&[u8]; 8] = [
    b"0",
    b"7",
    b"999999999999999999999999999999999999",
    b"1000000000000000000000000000000000000",
    b"2000000000000000000000000000000000000",
    b"1269984011256235834242602753102293934298576249856",
    b"1000000000000000000000000000000000000000000000000000001",
    b"2000000000000000000000000000000000000000000000000000000",
];

/// Texts that are no number.
const OTHERS: [&[u8]; 5] = [b"", b"-1", b"+1", b"1 ", b"0x1"];

/// Whether a number was made, and has this text.
fn is_made(alloc: Global, made: Option<Natural>, text: &[u8]) -> bool {
    match made {
        Some(n) => is_text(alloc, &n, text),
        None => false,
    }
}

#[test]
fn texts_are_read_and_written(rt: HostRuntime) {
    let alloc = rt.alloc();
    for text in &TEXTS {
        assert!(rt; is_made(alloc, parse(alloc, text).ok(), text));
    }
    for text in &OTHERS {
        assert!(rt; parse(alloc, text).is_err());
    }
}

/// Whether numbers of these texts compare as their places do, and each is its copy.
fn are_ordered(alloc: Global, i: usize, j: usize) -> Option<bool> {
    let a = parse(alloc, TEXTS.get(i)?).ok()?;
    let b = parse(alloc, TEXTS.get(j)?).ok()?;
    let copy = a.clone().ok()?;
    Some(a.cmp(&b) == i.cmp(&j) && a == copy && a.is_zero() == (i == 0))
}

#[test]
fn numbers_are_ordered(rt: HostRuntime) {
    for i in 0..TEXTS.len() {
        for j in 0..TEXTS.len() {
            assert_eq!(rt; are_ordered(rt.alloc(), i, j), Some(true), "{i} {j}");
        }
    }
}

/// Two numbers and their sum.
const SUMS: [(&[u8], &[u8], &[u8]); 4] = [
    (b"2", b"3", b"5"),
    (
        b"999999999999999999999999999999999999",
        b"1",
        b"1000000000000000000000000000000000000",
    ),
    (
        b"999999999999999999999999999999999999999999999999999999",
        b"1",
        b"1000000000000000000000000000000000000000000000000000000",
    ),
    (
        b"340282366920938463463374607431768211456",
        b"340282366920938463463374607431768211456",
        b"680564733841876926926749214863536422912",
    ),
];

/// Whether a number and another have this sum, and the sum without the other is the number.
fn add_up(alloc: Global, a: &[u8], b: &[u8], sum: &[u8]) -> Option<bool> {
    let mut n = parse(alloc, a).ok()?;
    let other = parse(alloc, b).ok()?;
    n.add_assign(&other).ok()?;
    let whole = is_text(alloc, &n, sum);
    if n < other {
        return Some(false);
    }
    n.sub_assign(&other);
    Some(whole && is_text(alloc, &n, a))
}

#[test]
fn sums_and_differences(rt: HostRuntime) {
    for (row, (a, b, sum)) in SUMS.iter().enumerate() {
        assert_eq!(rt; add_up(rt.alloc(), a, b, sum), Some(true), "row {row}");
    }
}

/// A power of ten by products, and one more.
fn power(alloc: Global, tens: usize) -> Result<Natural, AllocError> {
    let mut n = Natural::from_u64(alloc, 1);
    for _ in 0..tens {
        n.multiply_add(10, 0)?;
    }
    n.multiply_add(1, 1)?;
    Ok(n)
}

#[test]
fn machine_numbers_and_products(rt: HostRuntime) {
    let alloc = rt.alloc();
    let most = b"18446744073709551615";
    let wide = b"340282366920938463463374607431768211455";
    assert!(rt; is_made(alloc, Some(Natural::zero(alloc)), b"0"));
    assert!(rt; is_made(alloc, Some(Natural::from_u64(alloc, u64::MAX)), most));
    assert!(rt; is_made(alloc, Natural::from_u128(alloc, u128::MAX).ok(), wide));
    assert!(rt; is_made(alloc, power(alloc, 54).ok(), TEXTS[6]));
}
