//! The words of a run over a span.
ghost use Rattle.std.specs.Prelude.{◌≡◌, ◌==◌, IfOk, IsTrue, OnErr, map, option_map};
ghost use Rattle.xc_list.specs.SearchedSpans.{AreSmall};
ghost use Rattle.xc_list.specs.SpanTexts.{end_at};
ghost use Rattle.xc_list.specs.SpanWords.{asked_of, listing_word, row_number, row_numbers, row_word, is_span};
ghost use Rattle.xc_list.specs.SpanWords.{asked_rows, asked_words, read_span_words, take_memory};

use crate::asked::SpanWords;
use std::alloc::{AllocError, Global};
use xc_text::{long_number, point_parts};

/// Whether a word means a listing, or a count alone.
fn listing_word(word: &[u8]) -> Option<bool>
    ensures { result ≡ listing_word word.now }
{
    match word {
        b"m0" => Some(false),
        b"m1" => Some(true),
        _ => None,
    }
}

/// The number of a row that digits mean.
fn row_number(digits: &[u8]) -> Option<u32>
    ensures { result ≡ row_number digits.now }
{
    u32::try_from(long_number(digits)?).ok()
}

/// The numbers that texts mean, if each means one.
fn row_numbers(alloc: Global, texts: &[&[u8]]) -> Result<Option<Vec<u32>>, AllocError>
    ensures { IfOk result (λ found. option_map (λ row. row.items) found ≡ row_numbers (map (λ w. w.now) texts.now)) }
{
    let mut row = Vec::new(alloc);
    for digits in texts {
        let Some(number) = row_number(digits) else {
            return Ok(None);
        };
        row.push(number)?;
    }
    Ok(Some(row))
}

/// The row that a word means: numbers with points between, or `-` for the empty row.
fn row_word(alloc: Global, word: &[u8]) -> Result<Option<Vec<u32>>, AllocError>
    ensures { IfOk result (λ found. option_map (λ row. row.items) found ≡ row_word word.now) }
{
    if word == b"-".as_slice() {
        return Ok(Some(Vec::new(alloc)));
    }
    row_numbers(alloc, &point_parts(alloc, word)?)
}

/// Whether a span that begins at the one row can end at the other.
#[tactic(auto, using(crate::proofs::RowOrder::precedes_less))]
fn is_span(from: &[u32], until: &[u32]) -> bool
    ensures { result ≡ is_span from.now until.now }
{
    until.is_empty() || !(until < from)
}

/// What a run over the span between two rows is to do, if it is a span.
fn with_rows(listed: bool, steps: u64, from: Vec<u32>, until: Vec<u32>) -> Option<SpanWords>
    ensures { option_map asked_of result ≡ asked_rows listed steps from.items until.items }
{
    if !is_span(&from, &until) {
        return None;
    }
    Some(SpanWords {
        listed,
        steps,
        from,
        until,
    })
}

/// What a run over the span between the rows that two words mean is to do.
fn with_words(
    alloc: Global,
    listed: bool,
    steps: u64,
    from: &[u8],
    until: &[u8],
) -> Result<Option<SpanWords>, AllocError>
    ensures { IfOk result (λ found.
        option_map asked_of found ≡ asked_words listed steps from.now until.now) }
{
    let Some(from) = row_word(alloc, from)? else {
        return Ok(None);
    };
    let Some(until) = row_word(alloc, until)? else {
        return Ok(None);
    };
    Ok(with_rows(listed, steps, from, until))
}

impl SpanWords {
    /// What words mean: `m1` for a listing or `m0` for a count alone, the most steps, 0 for no bound, the row at
    /// which the span begins, and the one before which it ends. A row is numbers with points between, as `3.1.7`; as
    /// the first row `-` is the beginning of the listing, as the second its end. None for other words, and where the
    /// second row comes before the first.
    pub fn read(alloc: Global, words: &[Vec<u8>]) -> Result<Option<SpanWords>, AllocError>
        ensures asked { IfOk result (λ found.
            option_map asked_of found ≡ read_span_words (map (λ w. w.items) words.now)) }
        ensures memory { OnErr result (IsTrue (take_memory (map (λ w. w.items) words.now))) }
    {
        let [listed, steps, from, until] = words else {
            return Ok(None);
        };
        match (
            listing_word(listed.as_slice()),
            long_number(steps.as_slice()),
        ) {
            (Some(listed), Some(steps)) => with_words(alloc, listed, steps, from, until),
            _ => Ok(None),
        }
    }

    /// The row at which the span begins.
    pub(crate) fn start(&self) -> &[u32]
        ensures value { result.now ≡ self.now.from.items }
        ensures small { AreSmall self.now.from.items }
    {
        // With a name it shows to the proof that its numbers fit their type.
        let from = self.from.as_slice();
        from
    }

    /// The row before which the span ends, if not at the listing's end.
    pub fn end(&self) -> Option<&[u32]>
        ensures value { option_map (λ u. u.now) result ≡ end_at self.now.until.items }
        ensures small { AreSmall self.now.until.items }
    {
        let until = self.until.as_slice();
        if until.is_empty() {
            return None;
        }
        Some(until)
    }
}
