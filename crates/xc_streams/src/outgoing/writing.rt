//! How an output holds bytes back and passes them on.
//!
//! The end of a line passes on what is held back if that is at least an eighth of what was passed on before; on a
//! terminal the end of each line does. So a slow search shows its first solutions, and a fast one soon makes one call
//! for each 64 KB. If that fails, it is a failed write of the solution whose text the line is, and so is a full buffer
//! that can't be passed on. The bytes of that call count as not taken: a run into a pipe without a reader stops at the
//! next such call. The cost: text of earlier solutions that is still held back is lost, so the listing may break off
//! before the solution that is named.
//!
//! A call of `write` makes at most one system call. If the system takes only a part, the rest waits for the end of the
//! next line, a full buffer or the flush; so an `Err` leaves what was held before. A failure isn't tried again, "not
//! now" from a pipe and EINTR included: a file system may report once that bytes were lost, and then take the next
//! ones. Each later call fails without a system call.
//!
//! `write` and what it seldom does, `hold_part` and `pass_with`, cite one relation, `DidWrite`, in place of ten clauses
//! each. The cost: the goal that refuses a mutant is the relation.
ghost use Rattle.std.specs.Prelude.{◌≡◌, ◌+◌, ◌-◌, ◌^◌, ◌<◌, ◌≤◌, ◌⊎◌, ◌↔◌, ◌&&◌, cond, true, false, length, nat_eq};
ghost use Rattle.std.specs.Prelude.{is_err, IfOk, IsErr, IsTrue, OnOk, MatchResult, [], take};
ghost use Rattle.std.specs.Io.KnownBytes.{Appends, Keeps};
ghost use Rattle.xc_text.specs.Calls.{counted};
ghost use Rattle.xc_streams.specs.Outputs.{known_bytes, DidWrite};
ghost use Rattle.xc_streams.specs.Streams.{BrokeLast, FlushedLast, early, ends_line, is_flushed, passed_of};

use crate::outgoing::Outgoing;
use crate::outgoing::held::ROOM;
use crate::system::SystemWriter;
use xc_text::{Sink, Tally as Flushes, WriteFailed};

/// Passes on the bytes, and returns how many of them that were. A failed write isn't tried again.
fn pass_on<W: SystemWriter>(writer: &mut W, bytes: &[u8]) -> usize
    ensures within { result ≤ length bytes.now }
    ensures passed { Appends (W.contents writer.old) (W.contents writer.new) (take result bytes.now) }
    ensures whole { result ≡ length bytes.now → (W.asked writer.new).failures ≡ (W.asked writer.old).failures }
    ensures broke { result < length bytes.now → BrokeLast (W.asked writer.old) (W.asked writer.new) }
    ensures unflushed { (W.asked writer.new).flushes ≡ (W.asked writer.old).flushes }
    ensures wholes { (W.asked writer.new).wholes ≤ (W.asked writer.old).wholes + 1 }
{
    let mut place = 0;
    while place < bytes.len() {
        match writer.write(&bytes[place..]) {
            Ok(n) if n > 0 => place += n,
            _ => return place,
        }
    }
    place
}

/// A text shorter than this is held back whatever it ends with, if so many bytes were passed on and so
/// many are held back.
fn calm_behind(by_line: bool, passed: usize, held: usize) -> usize
    ensures { result ≡ early by_line passed - held }
{
    // An eighth, so that a slow search shows its first solutions, and a fast one makes a call for each 64 KB after
    // some ninety small ones.
    let early = if by_line { 0 } else { ROOM.min(passed / 8) };
    early.saturating_sub(held)
}

impl<W: SystemWriter + Drop> Outgoing<W> {
    /// Counts a failure.
    #[cold]
    fn fail(&mut self) -> WriteFailed
        ensures writer { self.new.writer ≡ self.old.writer }
        ensures held { self.new.held ≡ self.old.held }
        ensures by_line { self.new.by_line ≡ self.old.by_line }
        ensures passed { self.new.passed ≡ self.old.passed }
        ensures failures { self.new.failures ≡ counted true self.old.failures }
        ensures failed { IsTrue self.new.failed }
        ensures flushes { self.new.flushes.count ≡ self.old.flushes.count }
    {
        self.failures = self.failures.saturating_add(1);
        self.failed = true;
        self.calm = 0;
        WriteFailed
    }

    /// Passes on what is held back, as far as that goes, and returns whether that was all.
    #[inline(never)]
    fn pass_all(&mut self) -> bool
        requires open { self.old.failures ≡ 0 }
        ensures all { IsTrue result ↔ (self.new.held ≡ []) }
        ensures asked { cond result
            ((W.asked self.new.writer).failures ≡ (W.asked self.old.writer).failures)
            (BrokeLast (W.asked self.old.writer) (W.asked self.new.writer)) }
        ensures unflushed { (W.asked self.new.writer).flushes ≡ (W.asked self.old.writer).flushes }
        ensures wholes { (W.asked self.new.writer).wholes ≤ (W.asked self.old.writer).wholes + 1 }
        ensures by_line { self.new.by_line ≡ self.old.by_line }
        ensures passed { self.new.passed ≡ passed_of self.old.passed (length self.old.held) (length self.new.held) }
        ensures failures { self.new.failures ≡ self.old.failures }
        ensures flushes { self.new.flushes.count ≡ self.old.flushes.count }
        ensures bytes { Keeps (known_bytes self.old) (known_bytes self.new) }
    {
        let passed = pass_on(&mut self.writer, self.held.as_slice());
        self.held.remove_front(passed);
        self.passed = self.passed.saturating_add(passed);
        self.calm = calm_behind(self.by_line, self.passed, self.held.len());
        self.held.len() == 0
    }

    /// Holds back bytes for which there is room. A text shorter than `calm` is held back next.
    #[inline(always)]
    fn hold(&mut self, bytes: &[u8], calm: usize)
        requires open { self.old.failures ≡ 0 }
        requires room { length self.old.held + length bytes.now < ROOM }
        requires calm { calm ≡ early self.old.by_line self.old.passed - (length self.old.held + length bytes.now) }
        ensures count { length self.new.held ≡ length self.old.held + length bytes.now }
        ensures writer { self.new.writer ≡ self.old.writer }
        ensures by_line { self.new.by_line ≡ self.old.by_line }
        ensures passed { self.new.passed ≡ self.old.passed }
        ensures failures { self.new.failures ≡ self.old.failures }
        ensures failed { self.new.failed ≡ false }
        ensures flushes { self.new.flushes.count ≡ self.old.flushes.count }
        ensures bytes { Appends (known_bytes self.old) (known_bytes self.new) bytes.now }
    {
        self.held.append(bytes);
        self.calm = calm;
        self.failed = false;
    }

    /// Passes on, by one call, what is held back and these bytes after it, and holds back what was not
    /// taken. If the call fails, these bytes are dropped.
    // One call at most, so no rule is needed for a failure after a part of the bytes: an `Err` leaves what was held
    // before.
    fn pass_with(&mut self, bytes: &[u8]) -> Result<usize, WriteFailed>
        requires room { length self.old.held + length bytes.now ≤ ROOM }
        requires some { 0 < length bytes.now }
        requires open { self.old.failures ≡ 0 }
        requires due { length self.old.held + length bytes.now < ROOM → IsTrue (ends_line bytes.now)
            × (early self.old.by_line self.old.passed ≤ length self.old.held + length bytes.now) }
        ensures whole { IfOk result (λ n. n ≡ length bytes.now) }
        ensures did { DidWrite self.old self.new result bytes.now }
    {
        self.held.append(bytes);
        match self.writer.write(self.held.as_slice()) {
            Ok(passed) if passed > 0 => {
                self.held.remove_front(passed);
                self.passed = self.passed.saturating_add(passed);
                self.calm = calm_behind(self.by_line, self.passed, self.held.len());
                self.failed = false;
                Ok(bytes.len())
            }
            _ => {
                self.held.remove_back(bytes.len());
                Err(self.fail())
            }
        }
    }

    /// Holds back as many of the bytes as there is room for, and passes them on with what was held back
    /// if there is none left, and if they end a line.
    #[inline(never)]
    fn hold_part(&mut self, bytes: &[u8]) -> Result<usize, WriteFailed>
        requires calm { self.old.calm ≤ length bytes.now }
        ensures did { DidWrite self.old self.new result bytes.now }
    {
        // A file system may report once that bytes were lost, and take the next ones.
        if self.failures > 0 {
            return Err(self.fail());
        }
        let room = ROOM - self.held.len();
        if bytes.len() < room && !bytes.ends_with(b"\n") {
            self.hold(bytes, 0);
            return Ok(bytes.len());
        }
        let n = bytes.len().min(room);
        self.pass_with(&bytes[..n])
    }
}

impl<W: SystemWriter + Drop> Sink for Outgoing<W> {
    ghost state = { λ s. record {
      failures = s.failures;
      failed = s.failed;
      taken = known_bytes s;
      settled = nat_eq (length s.held) 0 && is_flushed (W.asked s.writer).last;
      flushes = s.flushes.count;
    } };

    #[inline(always)]
    fn write(&mut self, bytes: &[u8]) -> Result<usize, WriteFailed>
        ensures did { DidWrite self.old self.new result bytes.now }
    {
        if bytes.len() >= self.calm {
            return self.hold_part(bytes);
        }
        self.hold(bytes, self.calm - bytes.len());
        Ok(bytes.len())
    }

    #[inline(never)]
    fn flush(&mut self) -> Result<(), WriteFailed>
        ensures failures { self.new.failures ≡ counted (is_err result) self.old.failures }
        ensures failed { self.new.failed ≡ is_err result }
        ensures bytes { Keeps (known_bytes self.old) (known_bytes self.new) }
        ensures settled { OnOk result
            (IsTrue (nat_eq (length self.new.held) 0 && is_flushed (W.asked self.new.writer).last)) }
        ensures flushes { self.new.flushes.count ≡ self.old.flushes.count + 1 }

        // If the system fails, this fails; after a failure it isn't called.
        ensures asked { self.old.failures ≡ 0 → MatchResult result
            (λ _. FlushedLast (W.asked self.old.writer) (W.asked self.new.writer))
            (λ _. BrokeLast (W.asked self.old.writer) (W.asked self.new.writer)) }
        ensures closed { 0 < self.old.failures → IsErr result × (self.new.writer ≡ self.old.writer) }
        ensures by_line { self.new.by_line ≡ self.old.by_line }
        ensures passed { self.new.passed ≡ passed_of self.old.passed (length self.old.held) (length self.new.held) }
    {
        self.flushes = Flushes::one_more(&self.flushes);
        if self.failures > 0 || !self.pass_all() || self.writer.flush().is_err() {
            return Err(self.fail());
        }
        self.failed = false;
        Ok(())
    }
}
