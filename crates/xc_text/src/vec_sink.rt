//! A sink over memory that grows. It is a type of its own: an impl for `Vec<u8>` couldn't record failures and flushes.
ghost use Rattle.std.specs.Prelude.{◌≡◌, ◌+◌, ◌≤◌, ◌<◌, ◌^◌, true, false, [], Some, length, IfOk, IsErr, IsOk, IsTrue};
ghost use Rattle.std.specs.Prelude.{OnErr, OnOk, is_err, vec_len, vec_capacity};
ghost use Rattle.std.specs.Io.KnownBytes.{WriteAppends, Keeps};
ghost use Rattle.xc_text.specs.Calls.{counted, is_failed_write};

use crate::sink::{Sink, WriteFailed};
use crate::tally::Tally;
use std::alloc::Global;
use std::fmt;

/// A sink over memory that grows as it is written to. Contracts know the bytes that it took. A write takes
/// all of its bytes, or fails where there is no memory for them, and takes none.
/// A type of its own, since contracts need how often a sink failed and was flushed, which a `Vec<u8>` doesn't keep.
#[derive(Drop)]
pub struct VecSink {
    bytes: Vec<u8>,
    failures: u64,
    failed: bool,
    flushes: Tally,
}

impl VecSink {
    /// A sink that took nothing, and has no memory yet.
    pub fn new(alloc: Global) -> VecSink
        ensures taken { (⟦<VecSink as Sink>⟧.state result).taken ≡ Some [] }
        ensures failures { (⟦<VecSink as Sink>⟧.state result).failures ≡ 0 }
        ensures failed { (⟦<VecSink as Sink>⟧.state result).failed ≡ false }
        ensures flushes { (⟦<VecSink as Sink>⟧.state result).flushes ≡ 0 }
    {
        VecSink {
            bytes: Vec::new(alloc),
            failures: 0,
            failed: false,
            flushes: Tally::new(),
        }
    }

    /// The bytes that it took.
    pub fn bytes(&self) -> &[u8]
        ensures { (⟦<VecSink as Sink>⟧.state self.now).taken ≡ Some result.now }
    {
        self.bytes.as_slice()
    }

    /// The bytes that it took, on their own.
    pub fn into_bytes(self) -> Vec<u8>
        ensures { (⟦<VecSink as Sink>⟧.state self).taken ≡ Some result.items }
    {
        self.bytes
    }
}

impl Sink for VecSink {
    ghost state = { λ s. record {
      failures = s.failures;
      failed = s.failed;
      taken = Some s.bytes.items;
      settled = true;
      flushes = s.flushes.count;
    } };

    fn write(&mut self, bytes: &[u8]) -> Result<usize, WriteFailed>
        ensures bound { IfOk result (λ n. n ≤ length bytes.now) }
        ensures failures { self.new.failures ≡ counted (is_failed_write result bytes.now) self.old.failures }
        ensures failed { self.new.failed ≡ is_failed_write result bytes.now }
        ensures bytes { WriteAppends (Some self.old.bytes.items) (Some self.new.bytes.items) result bytes.now }
        ensures flushes { self.new.flushes.count ≡ self.old.flushes.count }

        // It takes all of them, and fails only where its memory has no room for them.
        ensures takes { IfOk result (λ n. n ≡ length bytes.now) }
        ensures fails { OnErr result (vec_capacity self.old.bytes < vec_len self.old.bytes + length bytes.now) }
    {
        self.failed = self.bytes.extend_from_slice(bytes).is_err();
        if self.failed {
            self.failures = self.failures.saturating_add(1);
            return Err(WriteFailed);
        }
        Ok(bytes.len())
    }

    fn flush(&mut self) -> Result<(), WriteFailed>
        ensures failures { self.new.failures ≡ counted (is_err result) self.old.failures }
        ensures failed { self.new.failed ≡ is_err result }
        ensures bytes { Keeps (Some self.old.bytes.items) (Some self.new.bytes.items) }
        ensures settled { OnOk result (IsTrue true) }
        ensures flushes { self.new.flushes.count ≡ self.old.flushes.count + 1 }
        ensures succeeds { IsOk result }
    {
        self.failed = false;
        self.flushes = Tally::one_more(&self.flushes);
        Ok(())
    }
}

/// How many bytes it took, and how many calls failed.
impl fmt::Debug for VecSink {
    fn fmt<W: fmt::Write>(&self, f: &mut fmt::Formatter<W>) -> fmt::Result {
        let bytes = self.bytes.len();
        let failures = self.failures;
        write!(f, "VecSink {{ bytes: {bytes}, failures: {failures} }}")
    }
}
