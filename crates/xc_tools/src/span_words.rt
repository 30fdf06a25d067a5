//! What the words of headings and records mean.
ghost use Rattle.std.specs.Prelude.{◌==◌, ◌++◌, ◌≡◌, IfOk, OnOk, codes, map, option_map};
ghost use Rattle.std.specs.Char.{is_ascii_digit};
ghost use Rattle.std.specs.List.{list_all, slice_split};
ghost use Rattle.std.specs.Str.{byte, bytes_eq};
ghost use Rattle.xc_check.specs.ListingLines.{words_in};
ghost use Rattle.xc_tools.specs.SpanShapes.{is_digest, is_hex};
ghost use Rattle.xc_tools.specs.inner.SpanLines.{are_counts, are_ends, begins, is_problem, counted_of};
ghost use Rattle.xc_tools.specs.inner.SpanLines.{counts_of, heading_of, is_number, is_row, headed_of, numbers_in};
ghost use Rattle.xc_tools.specs.inner.SpanLines.{record_of, recorded_counts, saturating_number, told_of};

use crate::headings::{Counts, Heading, Record};
use itoa::Buffer;
use std::alloc::{AllocError, Global};
use xc_text::point_parts;

/// The number that digits stand for, up to 2^64 - 1.
fn saturating_number(digits: &[u8]) -> u64
    ensures { result ≡ saturating_number digits.now }
{
    let mut value: u64 = 0;
    for b in digits {
        value = value
            .saturating_mul(10)
            .saturating_add(u64::from(b.saturating_sub(b'0')));
    }
    value
}

/// Whether a word is a number as the texts write it: below 2^64, and without zeros in front.
fn is_number(word: &[u8]) -> bool
    ensures { result ≡ is_number word.now }
{
    word == Buffer::new().format(saturating_number(word)).as_bytes()
}

fn all_numbers(word: &[u8]) -> bool
    ensures { result ≡ list_all is_number (slice_split (λ b. b == byte ".") word.now) }
{
    word.split(|b| *b == b'.').all(|part| is_number(part))
}

fn is_dash(word: &[u8]) -> bool
    ensures { result ≡ bytes_eq word.now (codes "-") }
{
    word == b"-".as_slice()
}

/// Whether a word is a row.
fn is_row(word: &[u8]) -> bool
    ensures { result ≡ is_row word.now }
{
    is_dash(word) || all_numbers(word)
}

/// The numbers that words stand for, behind others.
fn push_numbers(store: &mut Vec<u64>, words: &[&[u8]]) -> Result<(), AllocError>
    ensures { OnOk result
        (store.new.items ≡ store.old.items ++ map saturating_number (map (λ w. w.now) words.now)) }
{
    for word in words {
        store.push(saturating_number(word))?;
    }
    Ok(())
}

/// The numbers of a row, in place of others.
pub(crate) fn put_numbers(
    alloc: Global,
    store: &mut Vec<u64>,
    word: &[u8],
) -> Result<(), AllocError>
    ensures { OnOk result (store.new.items ≡ numbers_in word.now) }
{
    store.clear();
    if is_dash(word) {
        return Ok(());
    }
    push_numbers(store, &point_parts(alloc, word)?)
}

fn is_hex(b: u8) -> bool
    ensures { result ≡ is_hex b }
{
    b.is_ascii_digit() || (b'a' <= b && b <= b'f')
}

fn all_hex(word: &[u8]) -> bool
    ensures { result ≡ list_all is_hex word.now }
{
    word.iter().all(|b| is_hex(*b))
}

/// Whether a word is the digest of a problem.
fn is_digest(word: &[u8]) -> bool
    ensures { result ≡ is_digest word.now }
{
    word.len() == 16 && all_hex(word)
}

/// Whether these are the words of a problem's digest.
fn is_problem(name: &[u8], digest: &[u8]) -> bool
    ensures { result ≡ is_problem name.now digest.now }
{
    name == b"problem".as_slice() && is_digest(digest)
}

/// Whether these are the words of the row where a listing begins.
fn begins(from: &[u8], row: &[u8]) -> bool
    ensures { result ≡ begins from.now row.now }
{
    from == b"from".as_slice() && is_row(row)
}

/// What these words mean, if they are the heading of a listing.
pub(crate) fn heading_of<'a>(words: &[&'a [u8]]) -> Option<Heading<'a>>
    ensures { option_map headed_of result ≡ heading_of (map (λ w. w.now) words.now) }
{
    match words {
        [from, row, name, digest] if begins(from, row) && is_problem(name, digest) => {
            Some(Heading {
                row: *row,
                digest: *digest,
            })
        }
        _ => None,
    }
}

/// Whether these are the words of two counts.
fn are_counts(solutions: &[u8], n: &[u8], steps: &[u8], m: &[u8]) -> bool
    ensures { result ≡ are_counts solutions.now n.now steps.now m.now }
{
    solutions == b"solutions".as_slice()
        && steps == b"steps".as_slice()
        && is_number(n)
        && is_number(m)
}

/// What the last words of a record mean.
fn recorded_counts<'a>(words: &[&'a [u8]]) -> Option<Counts<'a>>
    ensures { option_map counted_of result ≡ recorded_counts (map (λ w. w.now) words.now) }
{
    match words {
        [solutions, n, steps, m, name, digest]
            if are_counts(solutions, n, steps, m) && is_problem(name, digest) => {
            Some(Counts {
                solutions: saturating_number(n),
                digest: *digest,
            })
        }
        _ => None,
    }
}

/// The same of words that may have the branches of a row before that.
fn counts_of<'a>(words: &[&'a [u8]]) -> Option<Counts<'a>>
    ensures { option_map counted_of result ≡ counts_of (map (λ w. w.now) words.now) }
{
    match words {
        [of, row, rest @ ..] if *of == b"of".as_slice() && is_row(row) => recorded_counts(rest),
        _ => recorded_counts(words),
    }
}

/// Whether these are the words of the rows where a span begins and ends.
fn are_ends(a: &[u8], from: &[u8], b: &[u8], until: &[u8]) -> bool
    ensures { result ≡ are_ends a.now from.now b.now until.now }
{
    a == b"from".as_slice() && b == b"until".as_slice() && is_row(from) && is_row(until)
}

/// What these words mean, if they are a record.
pub(crate) fn record_of<'a>(words: &[&'a [u8]]) -> Option<Record<'a>>
    ensures { option_map told_of result ≡ record_of (map (λ w. w.now) words.now) }
{
    match words {
        [a, from, b, until, rest @ ..] if are_ends(a, from, b, until) => {
            let counts = counts_of(rest)?;
            Some(Record {
                from: *from,
                until: *until,
                solutions: counts.solutions,
                digest: counts.digest,
            })
        }
        _ => None,
    }
}

/// The words of a line, which single spaces part.
pub(crate) fn words_of(alloc: Global, line: &[u8]) -> Result<Vec<&[u8]>, AllocError>
    ensures { IfOk result (λ words. map (λ w. w.now) words.items ≡ words_in line.now) }
{
    line.split(|b| *b == b' ').collect(alloc)
}
