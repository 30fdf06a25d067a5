//! Reads the lines of a source.
//!
//! A line that ends in the piece that it begins in is handed on from there. Any other is put together first. What a
//! line costs beyond its bytes is inlined: six instructions a line more without, 4 % where lines have three bytes.

ghost use Rattle.std.specs.Prelude.{◌≡◌, ◌≤◌, [], false, length, take, IfOk, MatchOption, OnErr, OnOk};
ghost use Rattle.xc_text.specs.LinesRead.{Advanced, IsLine};
ghost use Rattle.xc_text.specs.Words.{has};
ghost use Rattle.xc_text.specs.inner.LineFeeds.{AskedFor, Cut, ReadOnce, ended_carry, read_size};
ghost use Rattle.xc_text.specs.declared.line_reader.Unread.TheVariants.{Device, Memory};

use crate::source::{ReadFailed, Source, read_buffer};
use bstr::ByteSlice;
use std::alloc::{AllocError, Global};
use std::marker::Model;

/// Why there is no answer whether one more line comes.
#[derive(Clone, Copy, Debug, PartialEq, Eq)]
pub enum Unread {
    /// A read of the source failed.
    Device,
    /// Memory is out.
    Memory,
}

impl From<ReadFailed> for Unread {
    ghost from_gives = { λ _ e. e ≡ Device };

    fn from(_: ReadFailed) -> Unread {
        Unread::Device
    }
}

impl From<AllocError> for Unread {
    ghost from_gives = { λ _ e. e ≡ Memory };

    fn from(_: AllocError) -> Unread {
        Unread::Memory
    }
}

/// The lines that come from a source, one after another.
#[derive(Drop)]
pub struct LineReader {
    /// What the last read gave is at its front.
    store: Vec<u8>,
    /// A line that didn't end in the piece that it began in. Empty: the line is in the store.
    carry: Vec<u8>,
    /// Where the line is in the store, and what was read behind it.
    line: usize,
    from: usize,
    to: usize,
}

impl Model for LineReader {
    ghost use Rattle.std.specs.Prelude.{◌≡◌, ◌-◌, ◌≤◌, length, take, drop, if◌then◌else◌, nat_eq};
    ghost use Rattle.xc_text.specs.LinesRead.{LinesRead};
    ghost use Rattle.xc_text.specs.inner.LineFeeds.{read_size};

    ghost Value = { LinesRead };

    ghost view = { λ r. record {
      line = if nat_eq (length r.carry.items) 0 then take (r.from - r.line) (drop r.line r.store.items)
          else r.carry.items;
      unread = take (r.to - r.from) (drop r.from r.store.items);
      rest = r.carry.items;
    } };

    ghost invariant = { λ r. (length r.store.items ≡ read_size) × (r.to ≤ read_size) × (r.from ≤ r.to)
        × (r.line ≤ r.from) };
}

impl LineReader {
    /// A reader that read nothing yet, with the memory for one read.
    pub fn new(alloc: Global) -> Result<LineReader, AllocError>
        ensures { IfOk result (λ r. r.unread ≡ []) }
    {
        Ok(LineReader {
            store: read_buffer(alloc)?,
            carry: Vec::new(alloc),
            line: 0,
            from: 0,
            to: 0,
        })
    }

    /// Whether one more line comes, with a line feed at its end. It reads only where no line is left of what was
    /// read before. Where none comes, the source gave its end.
    ///
    /// After the end or an error a further call goes on with what the source gives from then on. What was read before,
    /// also the beginning of a line, is lost then.
    pub fn advance<S: Source>(&mut self, source: &mut S) -> Result<bool, Unread>
        ensures { Advanced self.old self.new (S.state source.old) (S.state source.new) result }
    {
        self.begin();
        'reading: loop {
            if self.cut()? {
                return Ok(true);
            }
            if !self.refill(source)? {
                return Ok(false);
            }
        }
    }

    /// The line that came last, with its line feed.
    #[inline(always)]
    pub fn last_line(&self) -> &[u8]
        ensures { result.now ≡ self.now.line }
    {
        if self.carry.is_empty() {
            &self.store[self.line..self.from]
        } else {
            self.carry.as_slice()
        }
    }

    /// What is behind the last line feed, once no more lines come.
    pub fn rest(&self) -> &[u8]
        ensures { result.now ≡ self.now.rest }
    {
        self.carry.as_slice()
    }

    /// Lets go of the last line.
    #[inline(always)]
    fn begin(&mut self)
        ensures rest { self.new.rest ≡ [] }
        ensures unread { self.new.unread ≡ self.old.unread }
    {
        self.carry.clear();
    }

    /// Ends the line in what was read, or carries that on.
    #[inline(always)]
    fn cut(&mut self) -> Result<bool, AllocError>
        requires { has 10 self.old.rest ≡ false }
        ensures cut { IfOk result (Cut self.old self.new) }
        ensures dropped { OnErr result (self.new.unread ≡ []) }
    {
        let left = &self.store[self.from..self.to];
        let Some(len) = line_len(left) else {
            let carried = self.carry.extend_from_slice(left);
            self.from = self.to;
            carried?;
            return Ok(false);
        };
        let Ok(()) = end_carried(&mut self.carry, &left[..len]) else {
            self.from = self.to;
            return Err(AllocError);
        };
        self.line = self.from;
        self.from += len;
        Ok(true)
    }

    /// Reads once, where nothing is left of what was read before. False is the end of the source.
    #[inline(always)]
    fn refill<S: Source>(&mut self, source: &mut S) -> Result<bool, ReadFailed>
        ensures rest { self.new.rest ≡ self.old.rest }
        ensures read { ReadOnce self.new.unread (S.state source.old) (S.state source.new) result }
        ensures asked { AskedFor read_size S.reads source.old source.new }
    {
        self.line = 0;
        self.from = 0;
        self.to = 0;
        let len = source.read(self.store.as_mut_slice())?;
        self.to = len;
        Ok(len > 0)
    }
}

/// Puts the end of a line behind what was carried on of it, if anything was.
#[inline(always)]
fn end_carried(carry: &mut Vec<u8>, end: &[u8]) -> Result<(), AllocError>
    ensures { OnOk result (carry.new.items ≡ ended_carry carry.old.items end.now) }
{
    if carry.is_empty() {
        return Ok(());
    }
    carry.extend_from_slice(end)
}

/// How many bytes the first line has, with its line feed.
#[inline(always)]
fn line_len(bytes: &[u8]) -> Option<usize>
    ensures { MatchOption result (has 10 bytes.now ≡ false)
        (λ len. (len ≤ length bytes.now) × IsLine (take len bytes.now)) }
{
    Some(bytes.find_byte(b'\n')? + 1)
}
