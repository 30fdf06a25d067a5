//! The system's writers as sinks that hold nothing back.
ghost use Rattle.std.specs.Prelude.{◌≡◌, ◌+◌, ◌<◌, ◌≤◌, true, false, length, is_err, IfOk, IsErr, IsTrue};
ghost use Rattle.std.specs.Io.KnownBytes.{Keeps, WriteAppends};
ghost use Rattle.xc_text.specs.Calls.{counted, is_failed_write};
ghost use Rattle.xc_streams.specs.Streams.{answered, flushed, write_answer, answer_of};
ghost use Rattle.xc_streams.specs.declared.system.Answer.TheVariants.{Flushed};

use crate::system::{System, SystemWriter};
use std::io::Write;
use xc_text::{Sink, Tally as Flushes, WriteFailed};

/// A writer of the system as a sink that passes on each text at once. After a failure nothing is called
/// of it.
#[derive(Drop)]
pub struct Direct<W: SystemWriter + Drop> {
    writer: W,
    failures: u64,
    failed: bool,
    flushes: Flushes,
}

impl<W: Write + Drop> Direct<System<W>> {
    /// A sink over a writer of std.
    pub fn new(writer: W) -> Direct<System<W>>
        ensures writer { result.writer.stream ≡ writer }
        ensures failures { result.failures ≡ 0 }
        ensures failed { result.failed ≡ false }
        ensures flushes { result.flushes.count ≡ 0 }
    {
        Direct::over(System::new(writer))
    }
}

impl<W: SystemWriter + Drop> Direct<W> {
    /// A sink over the writer.
    pub fn over(writer: W) -> Direct<W>
        ensures writer { result.writer ≡ writer }
        ensures failures { result.failures ≡ 0 }
        ensures failed { result.failed ≡ false }
        ensures flushes { result.flushes.count ≡ 0 }
    {
        Direct {
            writer,
            failures: 0,
            failed: false,
            flushes: Flushes::new(),
        }
    }

    /// Counts a failure.
    fn fail(&mut self) -> WriteFailed
        ensures writer { self.new.writer ≡ self.old.writer }
        ensures failures { self.new.failures ≡ counted true self.old.failures }
        ensures failed { IsTrue self.new.failed }
        ensures flushes { self.new.flushes.count ≡ self.old.flushes.count }
    {
        self.failures = self.failures.saturating_add(1);
        self.failed = true;
        WriteFailed
    }
}

impl<W: SystemWriter + Drop> Sink for Direct<W> {
    ghost state = { λ s. record {
      failures = s.failures;
      failed = s.failed;
      taken = W.contents s.writer;
      settled = true;
      flushes = s.flushes.count;
    } };

    fn write(&mut self, bytes: &[u8]) -> Result<usize, WriteFailed>
        ensures bound { IfOk result (λ n. n ≤ length bytes.now) }
        ensures failures { self.new.failures ≡ counted (is_failed_write result bytes.now) self.old.failures }
        ensures failed { self.new.failed ≡ is_failed_write result bytes.now }
        ensures bytes { WriteAppends (W.contents self.old.writer) (W.contents self.new.writer) result bytes.now }
        ensures flushes { self.new.flushes.count ≡ self.old.flushes.count }

        // The system is called once, and its result is this one's; after a failure it isn't called.
        ensures asked { self.old.failures ≡ 0 →
            W.asked self.new.writer ≡ answered (write_answer result bytes.now) (W.asked self.old.writer) }
        ensures closed { 0 < self.old.failures → IsErr result × (self.new.writer ≡ self.old.writer) }
    {
        if self.failures > 0 {
            return Err(self.fail());
        }
        match self.writer.write(bytes) {
            Ok(n) if n > 0 || bytes.is_empty() => {
                self.failed = false;
                Ok(n)
            }
            _ => Err(self.fail()),
        }
    }

    fn flush(&mut self) -> Result<(), WriteFailed>
        ensures failures { self.new.failures ≡ counted (is_err result) self.old.failures }
        ensures failed { self.new.failed ≡ is_err result }
        ensures bytes { Keeps (W.contents self.old.writer) (W.contents self.new.writer) }
        ensures settled { IsTrue true }
        ensures flushes { self.new.flushes.count ≡ self.old.flushes.count + 1 }
        ensures asked { self.old.failures ≡ 0 →
            W.asked self.new.writer ≡ flushed (answer_of Flushed result) (W.asked self.old.writer) }
        ensures closed { 0 < self.old.failures → IsErr result × (self.new.writer ≡ self.old.writer) }
    {
        self.flushes = Flushes::one_more(&self.flushes);
        if self.failures > 0 || self.writer.flush().is_err() {
            return Err(self.fail());
        }
        self.failed = false;
        Ok(())
    }
}
