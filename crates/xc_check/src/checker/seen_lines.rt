//! Choice lines that were met before.
//!
//! A listing names the same options again and again, so most of its lines are found here, and need not be read word by
//! word: the judge takes half the time or less. The cost is a table with a place for each 64 bytes of the listing, at
//! most 65,536 of them. Lines chosen to share places make it useless but not larger.
ghost use Rattle.std.specs.Prelude.{◌≡◌, None, All, IfOk, IfSome};
ghost use Rattle.xc_check.specs.inner.Listings.{IsFoundIn, IsNotedIn, IsBlankOr};

use crate::judged_line::SeenLine;
use std::alloc::{AllocError, Global};

impl SeenLine {
    /// Puts a line in place of what was here; nothing, if there is no memory for it.
    fn put(&mut self, line: &[u8], class: usize)
        ensures { IsBlankOr line.now class self.new }
    {
        self.class = None;
        self.line.clear();
        if self.line.extend_from_slice(line).is_ok() {
            self.class = Some(class);
        }
    }
}

/// Lines that were met, each at the place that its bytes determine. A later line takes an earlier one's
/// place.
#[derive(Drop)]
pub(crate) struct SeenLines {
    lines: Vec<SeenLine>,
}

impl SeenLines {
    /// So many places, all free.
    pub(crate) fn new(alloc: Global, places: usize) -> Result<SeenLines, AllocError>
        ensures { IfOk result (λ s. All (λ l. l.class ≡ None) s.lines.items) }
    {
        let mut lines = Vec::new(alloc);
        for _ in 0..places {
            lines.push(SeenLine {
                line: Vec::new(alloc),
                class: None,
            })?;
        }
        Ok(SeenLines { lines })
    }

    /// The class that was noted with a line.
    #[inline]
    pub(crate) fn class_of(&self, line: &[u8]) -> Option<usize>
        ensures { IfSome result (IsFoundIn self.now.lines.items line.now) }
    {
        let seen = self.lines.get(slot_of(line, self.lines.len()))?;
        if seen.line.as_slice() == line {
            seen.class
        } else {
            None
        }
    }

    /// Notes a line and its class.
    pub(crate) fn note(&mut self, line: &[u8], class: usize)
        ensures { IsNotedIn self.old.lines.items line.now class self.new.lines.items }
    {
        let place = slot_of(line, self.lines.len());
        if let Some(seen) = self.lines.get_mut(place) {
            seen.put(line, class);
        }
    }
}

/// A place below the size, where it is not 0, for a line: the high bits of its number, scaled. No seed
/// is needed, since two lines of one place only cost that one of them is read again.
#[inline]
fn slot_of(line: &[u8], size: usize) -> usize {
    ((number_of(line) >> 32).wrapping_mul(size as u64) >> 32) as usize
}

/// A number for a line's bytes, which are taken eight at a time, and the last eight once more.
#[inline]
fn number_of(line: &[u8]) -> u64 {
    let mut number = line.len() as u64;
    let mut text = line;
    while let [a, b, c, d, e, f, g, h, rest @ ..] = text {
        number = mixed(number, u64::from_le_bytes([*a, *b, *c, *d, *e, *f, *g, *h]));
        text = rest;
    }
    if let [.., a, b, c, d, e, f, g, h] = line {
        return mixed(number, u64::from_le_bytes([*a, *b, *c, *d, *e, *f, *g, *h]));
    }
    for b in text {
        number = mixed(number, u64::from(*b));
    }
    number
}

/// A number and the next bytes, made one.
#[inline]
fn mixed(number: u64, bytes: u64) -> u64 {
    let product = (number ^ bytes).wrapping_mul(0x9e37_79b9_7f4a_7c15);
    product ^ product >> 32
}
