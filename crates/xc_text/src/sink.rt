//! Where bytes go. To contracts a sink is one value, so that a clause says what changes of it and nothing of what
//! stays.
ghost use Rattle.std.specs.Prelude.{◌≡◌, ◌+◌, ◌-◌, ◌^◌, ◌<◌, ◌≤◌, ◌↔◌, ℕ, Bool, true, false, List, [], Option, Some};
ghost use Rattle.std.specs.Prelude.{length, min, IfOk, IfErr, IsErr, IsOk, IsTrue, OnErr, is_err, OnOk, vec_capacity};
ghost use Rattle.std.specs.Io.KnownBytes.{WriteAppends, Keeps};
ghost use Rattle.xc_text.specs.Texts.{SinkState};
ghost use Rattle.xc_text.specs.Calls.{counted, is_failed_write};

use crate::memory::Memory;
use crate::tally::Tally;
use std::alloc::Global;
use std::fmt;
use thiserror::Error;

/// A write that failed.
#[derive(Clone, Copy, Debug, PartialEq, Eq, Error)]
#[error("a write failed")]
pub struct WriteFailed;

/// Where bytes go.
pub trait Sink {
    /// What is known of it: its failures, the bytes that it took, and how often it was flushed.
    ghost state: { Self → SinkState };

    /// Takes bytes from the front, and says how many. To take none of at least one is a failure
    /// too.
    fn write(&mut self, bytes: &[u8]) -> Result<usize, WriteFailed>
        ensures bound { IfOk result (λ n. n ≤ length bytes.now) }
        ensures failures { (state self.new).failures
            ≡ counted (is_failed_write result bytes.now) (state self.old).failures }
        ensures failed { (state self.new).failed ≡ is_failed_write result bytes.now }
        ensures bytes { WriteAppends (state self.old).taken (state self.new).taken result bytes.now }
        ensures flushes { (state self.new).flushes ≡ (state self.old).flushes };

    /// Passes on what the sink holds back. It takes no bytes.
    fn flush(&mut self) -> Result<(), WriteFailed>
        ensures failures { (state self.new).failures ≡ counted (is_err result) (state self.old).failures }
        ensures failed { (state self.new).failed ≡ is_err result }
        ensures bytes { Keeps (state self.old).taken (state self.new).taken }
        ensures settled { OnOk result (IsTrue (state self.new).settled) }
        ensures flushes { (state self.new).flushes ≡ (state self.old).flushes + 1 };
}

/// A sink over memory. Contracts know the bytes that it took.
#[derive(Drop)]
pub struct Tray {
    bytes: Vec<u8>,
    step: usize,
    room: usize,
    zero: bool,
    failures: u64,
    failed: bool,
    flushes: Tally,
    ghost moves: { 0 < step },
    ghost reserved: { room ≤ vec_capacity bytes },
}

impl Tray {
    /// It takes at most `step` bytes at a call and `room` in all. Then it fails, or takes 0 where
    /// `zero` is set. Memory for `room` bytes is taken here.
    pub fn new(alloc: Global, step: usize, room: usize, zero: bool) -> Result<Tray, Memory>
        requires { 0 < step }
        ensures step { IfOk result (λ t. t.step ≡ step) }
        ensures room { IfOk result (λ t. t.room ≡ room) }
        ensures zero { IfOk result (λ t. t.zero ≡ zero) }
        ensures taken { IfOk result (λ t. (⟦<Tray as Sink>⟧.state t).taken ≡ Some []) }
        ensures failures { IfOk result (λ t. (⟦<Tray as Sink>⟧.state t).failures ≡ 0) }
        ensures failed { IfOk result (λ t. (⟦<Tray as Sink>⟧.state t).failed ≡ false) }
        ensures flushes { IfOk result (λ t. (⟦<Tray as Sink>⟧.state t).flushes ≡ 0) }
    {
        Ok(Tray {
            bytes: Vec::with_capacity(alloc, room)?,
            step,
            room,
            zero,
            failures: 0,
            failed: false,
            flushes: Tally::new(),
        })
    }

    /// The bytes that it took.
    pub fn bytes(&self) -> &[u8]
        ensures { (⟦<Tray as Sink>⟧.state self.now).taken ≡ Some result.now }
    {
        self.bytes.as_slice()
    }

    /// The bytes that it took, on their own.
    pub fn into_bytes(self) -> Vec<u8>
        ensures { (⟦<Tray as Sink>⟧.state self).taken ≡ Some result.items }
    {
        self.bytes
    }
}

impl Sink for Tray {
    ghost state = { λ s. record {
      failures = s.failures;
      failed = s.failed;
      taken = Some s.bytes.items;
      settled = true;
      flushes = s.flushes.count;
    } };

    fn write(&mut self, bytes: &[u8]) -> Result<usize, WriteFailed>
        ensures bound { IfOk result (λ n. n ≤ length bytes.now) }
        ensures failures { self.new.failures ≡ counted (is_failed_write result bytes.now) self.old.failures }
        ensures failed { self.new.failed ≡ is_failed_write result bytes.now }
        ensures bytes { WriteAppends (Some self.old.bytes.items) (Some self.new.bytes.items) result bytes.now }
        ensures flushes { self.new.flushes.count ≡ self.old.flushes.count }

        // It takes as much as it may, and fails only where it may take nothing.
        ensures takes { IfOk result (λ n.
            n ≡ min (min (length bytes.now) self.old.step) (self.old.room - length self.old.bytes.items)) }
        ensures fails { IsErr result ↔ (0 < length bytes.now)
            × (self.old.room ≤ length self.old.bytes.items) × (self.old.zero ≡ false) }
        ensures kept { (self.new.step ≡ self.old.step) × (self.new.room ≡ self.old.room)
            × (self.new.zero ≡ self.old.zero) }
    {
        let free = self.room.saturating_sub(self.bytes.len());
        let n = bytes.len().min(self.step).min(free);
        self.failed = n == 0 && !bytes.is_empty();
        if self.failed {
            self.failures = self.failures.saturating_add(1);
            return if self.zero { Ok(0) } else { Err(WriteFailed) };
        }
        self.bytes.extend_from_slice(&bytes[..n]).unwrap();
        Ok(n)
    }

    fn flush(&mut self) -> Result<(), WriteFailed>
        ensures failures { self.new.failures ≡ counted (is_err result) self.old.failures }
        ensures failed { self.new.failed ≡ is_err result }
        ensures bytes { Keeps (Some self.old.bytes.items) (Some self.new.bytes.items) }
        ensures settled { OnOk result (IsTrue true) }
        ensures flushes { self.new.flushes.count ≡ self.old.flushes.count + 1 }
        ensures succeeds { IsOk result }
        ensures kept { (self.new.step ≡ self.old.step) × (self.new.room ≡ self.old.room)
            × (self.new.zero ≡ self.old.zero) }
    {
        self.failed = false;
        self.flushes = Tally::one_more(&self.flushes);
        Ok(())
    }
}

/// How many bytes it took, its room, and how many calls failed.
impl fmt::Debug for Tray {
    fn fmt<W: fmt::Write>(&self, f: &mut fmt::Formatter<W>) -> fmt::Result {
        let bytes = self.bytes.len();
        let room = self.room;
        let failures = self.failures;
        write!(
            f,
            "Tray {{ bytes: {bytes}, room: {room}, failures: {failures} }}"
        )
    }
}
