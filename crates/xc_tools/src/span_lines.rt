//! The lines of the texts of spans, one by one.
ghost use Rattle.std.specs.Prelude.{IsTrue, ℕ, List, ◌==◌, ◌||◌, ◌≡◌, ◌+◌, MatchResult, IfOk, OnOk};
ghost use Rattle.std.specs.Prelude.{option_map};
ghost use Rattle.std.specs.Str.{byte};
ghost use Rattle.xc_text.specs.Words.{before_last};
ghost use Rattle.xc_check.specs.ListingLines.{words_in};
ghost use Rattle.xc_list.specs.Digests.{after_text, digits_of};
ghost use Rattle.xc_tools.specs.inner.SpanLines.{act_text, before_digest, begins_with, by_choice, by_digest};
ghost use Rattle.xc_tools.specs.inner.SpanLines.{by_header, by_heading, by_last, by_line, by_record, closed, ends_well};
ghost use Rattle.xc_tools.specs.inner.SpanLines.{inside, is_header, goes, join_of, line_noted, meets, start};
ghost use Rattle.xc_tools.specs.inner.SpanLines.{KeepsProblem, TakesLine, Unmet};
ghost use Rattle.xc_tools.specs.declared.outcomes.Refusal.TheVariants.{Memory};
ghost use Rattle.xc_tools.specs.declared.outcomes.Act.TheVariants.{Nothing};

use crate::joint::{Joint, Rising};
use crate::outcomes::{Act, Refusal};
use crate::span_words::{heading_of, put_numbers, record_of, words_of};
use itoa::Buffer;
use std::alloc::{AllocError, Global};
use xc_check::branch_number;
use xc_list::TextDigest;
use xc_text::before_last;

fn begins_with(line: &[u8], byte: u8) -> bool
    ensures { result ≡ begins_with byte line.now }
{
    match line {
        [first, ..] => *first == byte,
        [] => false,
    }
}

/// Whether a line is the header of the solution with this number.
fn is_header(line: &[u8], number: u64) -> bool
    ensures { result ≡ is_header number line.now }
{
    match before_last(line, b':') {
        Some(front) => front == Buffer::new().format(number).as_bytes(),
        None => false,
    }
}

/// The digest of a text and these bytes, as it is written.
fn digits_after(text: TextDigest, bytes: &[u8]) -> [u8; 16]
    ensures { result ≡ digits_of (after_text text bytes.now) }
{
    let mut whole = text;
    whole.take(bytes);
    whole.digits()
}

/// What is before the digest of a text in its last line, if this is the digest of the text up to there.
fn before_digest<'a>(text: TextDigest, line: &'a [u8]) -> Option<&'a [u8]>
    ensures { option_map (λ front. front.now) result ≡ before_digest text line.now }
{
    if line.len() < 22 {
        return None;
    }
    let front = &line[..line.len() - 22];
    let last = &line[line.len() - 22..];
    if &last[..6] == b" text ".as_slice() && &last[6..] == digits_after(text, front).as_slice() {
        return Some(front);
    }
    None
}

/// Takes a word in place of the one before.
pub(crate) fn put_word(store: &mut Vec<u8>, word: &[u8]) -> Result<(), AllocError>
    ensures { OnOk result (store.new.items ≡ word.now) }
{
    store.clear();
    store.extend_from_slice(word)
}

impl Joint {
    /// Nothing was read yet.
    pub fn new(alloc: Global, listed: bool) -> Result<Joint, AllocError>
        ensures { IfOk result (λ j. join_of j ≡ start listed) }
    {
        let mut met = Vec::new(alloc);
        met.push(b'-')?;
        Ok(Joint {
            listed,
            digest: Vec::new(alloc),
            text: TextDigest::new(),
            met,
            finished: false,
            found: None,
            rising: Rising {
                row: Vec::new(alloc),
                tied: None,
            },
            total: 0,
            full: false,
            next: Vec::new(alloc),
            until: Vec::new(alloc),
        })
    }

    /// Takes a line and its line feed into the digest of the open text.
    fn note(&mut self, line: &[u8])
        ensures listed { self.new.listed ≡ self.old.listed }
        ensures noted { join_of self.new ≡ line_noted (join_of self.old) line.now }
    {
        self.text.take(line);
        self.text.take(b"\n");
    }

    /// A text is of this problem, as are all others.
    fn keep_problem(&mut self, digest: &[u8]) -> Result<(), Refusal>
        ensures listed { self.new.listed ≡ self.old.listed }
        ensures keeps { KeepsProblem (join_of self.old) digest.now result (join_of self.new) }
    {
        if self.digest.is_empty() {
            put_word(&mut self.digest, digest)?;
            return Ok(());
        }
        if digest == self.digest.as_slice() {
            return Ok(());
        }
        Err(Refusal::Other)
    }

    /// A text begins at this row.
    fn meet(&mut self, row: &[u8]) -> Result<(), Refusal>
        ensures same { join_of self.new ≡ join_of self.old }
        ensures meets { MatchResult result (λ _. IsTrue (meets (join_of self.old) row.now))
            (λ e. Unmet e (meets (join_of self.old) row.now) self.new.next.items row.now) }
    {
        if !self.finished && row == self.met.as_slice() {
            return Ok(());
        }
        put_word(&mut self.next, row)?;
        Err(Refusal::Gap)
    }

    /// The text ended at this row.
    fn end(&mut self, until: &[u8]) -> Result<Act, Refusal>
        ensures listed { self.new.listed ≡ self.old.listed }
        ensures step { MatchResult result
            (λ act. (act ≡ Nothing) × (join_of self.new ≡ closed (join_of self.old) until.now)) (λ e. e ≡ Memory) }
    {
        put_word(&mut self.met, until)?;
        self.text = TextDigest::new();
        self.finished = until == b"-".as_slice();
        self.found = None;
        Ok(Act::Nothing)
    }

    /// Takes the heading of a listing.
    fn take_heading(&mut self, alloc: Global, line: &[u8]) -> Result<Act, Refusal>
        ensures listed { self.new.listed ≡ self.old.listed }
        ensures step { TakesLine (by_heading (join_of self.old) (words_in line.now)) line.now result self.new }
    {
        let words = words_of(alloc, line)?;
        let Some(heading) = heading_of(&words) else {
            return Err(Refusal::NotText);
        };
        self.keep_problem(heading.digest)?;
        self.meet(heading.row)?;
        put_numbers(alloc, &mut self.rising.row, heading.row)?;
        self.found = Some(0);
        Ok(Act::Nothing)
    }

    /// Takes a text that is a record alone.
    fn take_record(&mut self, alloc: Global, line: &[u8]) -> Result<Act, Refusal>
        ensures listed { self.new.listed ≡ self.old.listed }
        ensures step { TakesLine (by_digest (join_of self.old) line.now (by_record (join_of self.old)))
            line.now result self.new }
    {
        let Some(front) = before_digest(self.text, line) else {
            return Err(Refusal::NotText);
        };
        let words = words_of(alloc, front)?;
        let Some(record) = record_of(&words) else {
            return Err(Refusal::NotText);
        };
        put_numbers(alloc, &mut self.rising.row, record.from)?;
        put_numbers(alloc, &mut self.until, record.until)?;
        if !self.rising.ends_before(0, &self.until) {
            return Err(Refusal::NotText);
        }
        self.keep_problem(record.digest)?;
        self.meet(record.from)?;
        self.total = self.total.saturating_add(record.solutions);
        self.end(record.until)
    }

    /// Whether the last one of so many solutions is whole, and its row rises.
    fn ends_well(&self, found: u64) -> bool
        ensures { result ≡ ends_well (join_of self.now) found }
    {
        found == 0 || self.rising.has_risen(found == 1)
    }

    /// Takes the record of a listing with so many solutions.
    fn take_last(&mut self, alloc: Global, found: u64, line: &[u8]) -> Result<Act, Refusal>
        ensures listed { self.new.listed ≡ self.old.listed }
        ensures step { TakesLine (by_digest (join_of self.old) line.now (by_last (join_of self.old) found))
            line.now result self.new }
    {
        let Some(front) = before_digest(self.text, line) else {
            return Err(Refusal::NotText);
        };
        let words = words_of(alloc, front)?;
        let Some(record) = record_of(&words) else {
            return Err(Refusal::NotText);
        };
        put_numbers(alloc, &mut self.until, record.until)?;
        if record.from == self.met.as_slice()
            && record.digest == self.digest.as_slice()
            && record.solutions == found
            && self.ends_well(found)
            && self.rising.ends_before(found, &self.until)
        {
            return self.end(record.until);
        }
        Err(Refusal::NotText)
    }

    /// Takes a choice line.
    fn take_choice(&mut self, line: &[u8]) -> Result<Act, Refusal>
        ensures listed { self.new.listed ≡ self.old.listed }
        ensures step { TakesLine (by_choice (join_of self.old) line.now) line.now result self.new }
    {
        let Some(k) = branch_number(line) else {
            return Err(Refusal::NotText);
        };
        if !self.rising.push(k)? {
            return Err(Refusal::NotText);
        }
        Ok(if self.full { Act::Nothing } else { Act::Copy })
    }

    /// Takes the header of a solution.
    fn take_header(&mut self, number: u64) -> Act
        ensures listed { self.new.listed ≡ self.old.listed }
        ensures step { (line : List ℕ) → by_header (join_of self.old) number
            ≡ (goes (join_of self.new), act_text result line) }
    {
        self.found = Some(number);
        self.rising.begin();
        if self.total == u64::MAX {
            self.full = true;
            return Act::Nothing;
        }
        self.total += 1;
        Act::Header(self.total)
    }

    /// Takes a line of an open listing with so many solutions.
    fn take_inside(&mut self, alloc: Global, found: u64, line: &[u8]) -> Result<Act, Refusal>
        ensures listed { self.new.listed ≡ self.old.listed }
        ensures step { TakesLine (inside (join_of self.old) found line.now) line.now result self.new }
    {
        if begins_with(line, b' ') && found > 0 {
            self.note(line);
            return self.take_choice(line);
        }
        if begins_with(line, b'f') {
            return self.take_last(alloc, found, line);
        }
        if found < u64::MAX && is_header(line, found + 1) && self.ends_well(found) {
            self.note(line);
            return Ok(self.take_header(found + 1));
        }
        Err(Refusal::NotText)
    }

    /// Takes a line, without its line feed, and answers what is to be written for it.
    pub fn take(&mut self, alloc: Global, line: &[u8]) -> Result<Act, Refusal>
        ensures listed { self.new.listed ≡ self.old.listed }
        ensures step { TakesLine (by_line (join_of self.old) line.now) line.now result self.new }
    {
        match self.found {
            Some(found) => self.take_inside(alloc, found, line),
            None if self.listed => {
                self.note(line);
                self.take_heading(alloc, line)
            }
            None => self.take_record(alloc, line),
        }
    }
}
