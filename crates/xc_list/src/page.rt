//! A page, on which a text is put together before it is written to the sink.
//!
//! A text of up to 16 bytes is one load and one store, and the length says how many of them count. A copy of its length
//! takes 8 % more of printing.
ghost use Rattle.std.specs.Prelude.{◌≡◌, ◌+◌, ◌<◌, ◌≤◌, [], ◌∷◌, ◌++◌, length, take, drop, decimal, codes};
ghost use Rattle.std.specs.Prelude.{IfSome, true};
ghost use Rattle.xc_input.specs.Named.{Named};
ghost use Rattle.xc_list.specs.inner.Writing.{AreKept, held_text};
ghost use Rattle.xc_list.specs.declared.places.TheConstants.{LINES, PADDING, ROOM};

use crate::places::{Held, LINES, Line, PADDING, ROOM};
use itoa::write_digits;
use std::marker::Model;
use std::simd::Simd;
use xc_search::Mark;

/// How many lines of a solution a page keeps at most.
const KEPT: usize = 64;

/// The lines on a page, one after another.
#[derive(Drop)]
pub struct Kept {
    lines: [Line; KEPT],
    count: usize,
}

impl Model for Kept {
    ghost use Rattle.std.specs.Prelude.{◌≡◌, ◌≤◌, List, length, take};
    ghost use Rattle.xc_list.specs.declared.places.Line.{Line};
    ghost use Rattle.xc_list.specs.declared.page.TheConstants.{KEPT};

    ghost Value = { List Line };

    ghost view = { λ k. take k.count k.lines };

    ghost invariant = { λ k. (k.count ≤ KEPT) × (length k.lines ≡ KEPT) };
}

impl Kept {
    /// No lines.
    fn new() -> Kept
        ensures { result ≡ [] }
    {
        let mark = Mark {
            item: 0,
            place: 0,
            k: 0,
            n: 0,
        };
        Kept {
            lines: [Line { mark, end: 0 }; KEPT],
            count: 0,
        }
    }

    /// Where the line after the first `done` ends, if it is the mark's.
    #[inline(always)]
    pub fn end_of(&self, done: usize, mark: Mark) -> Option<usize>
        ensures within { IfSome result (λ _. done < length self.now) }
        ensures line { IfSome result (λ end. take (done + 1) self.now
            ≡ take done self.now ++ record { mark = mark; end = end } ∷ []) }
    {
        if done < self.count {
            let line = self.lines[done];
            if line.mark == mark {
                return Some(line.end);
            }
        }
        None
    }

    /// Puts a line after the first `done`, in place of those that follow, and returns whether there was room.
    #[inline(always)]
    pub fn put(&mut self, done: usize, line: Line) -> bool
        requires { done ≤ length self.old }
        ensures { result ≡ true → self.new ≡ take done self.old ++ line ∷ [] }
    {
        if done >= KEPT {
            return false;
        }
        self.lines[done] = line;
        self.count = done + 1;
        true
    }

    /// Drops all lines.
    pub fn clear(&mut self)
        ensures { self.new ≡ [] }
    {
        self.count = 0;
    }
}

/// A page with the lines of the solution that was put on it last.
#[derive(Drop)]
pub struct Page {
    pub text: [u8; ROOM],
    pub kept: Kept,
}

impl Page {
    /// A page without lines.
    pub fn new() -> Page
        ensures { (a : Named) → AreKept a result.text result.kept }
    {
        Page {
            text: [0; ROOM],
            kept: Kept::new(),
        }
    }
}

/// Puts a part of a text on a page. A short one is copied by one load and one store of `PADDING` bytes; the bytes
/// after it are overwritten later.
#[inline(always)]
#[tactic(auto, using(crate::proofs::Writing::short_put))]
pub fn put_part(page: &mut [u8], at: usize, text: &[u8], from: usize, count: usize)
    requires room { at + count + PADDING ≤ length page.old }
    requires padded { from + count + PADDING ≤ length text.now }
    ensures put { take (at + count) page.new ≡ take at page.old ++ take count (drop from text.now) }
    ensures size { length page.new ≡ length page.old }
{
    if count <= PADDING {
        Simd::<u8, PADDING>::from_slice(&text[from..]).copy_to_slice(&mut page[at..]);
    } else {
        page[at..at + count].copy_from_slice(&text[from..from + count]);
    }
}

/// Puts a few bytes on a page.
#[inline(always)]
pub fn put_bytes(page: &mut [u8], at: usize, bytes: &[u8])
    requires { at + length bytes.now ≤ length page.old }
    ensures put { take (at + length bytes.now) page.new ≡ take at page.old ++ bytes.now }
    ensures size { length page.new ≡ length page.old }
{
    page[at..at + bytes.len()].copy_from_slice(bytes);
}

/// Puts the header of a solution on an empty page. Its digits end at a fixed place, so their number decides where
/// the text starts.
#[inline(always)]
pub fn put_header(page: &mut [u8], number: u64) -> Held
    requires { length page.old ≡ ROOM }
    ensures put { held_text page.new result.from result.to ≡ decimal number ++ codes ":\n" }
    ensures size { length page.new ≡ ROOM }
    ensures held { (result.from ≤ result.to) × (result.to ≡ LINES) }
    ensures behind { drop LINES page.new ≡ drop LINES page.old }
{
    page[20] = b':';
    page[21] = b'\n';
    let from = write_digits(number, page, 20);
    Held { from, to: LINES }
}
