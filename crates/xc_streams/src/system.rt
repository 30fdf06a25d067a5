//! The calls of the system for its streams, and what they return.
//!
//! They go through traits of our own, which count the calls with their answers. std's contracts say what a call did and
//! not that it was made: by them a read that is tried again and a flush that is forgotten would be proved.
ghost use Rattle.std.specs.Prelude.{◌≡◌, ◌≤◌, ℕ, List, Option, length, IfOk};
ghost use Rattle.std.specs.Io.KnownBytes.{Keeps, ReadConsumes, WriteAppends};
ghost use Rattle.xc_streams.specs.Streams.{Asked, answered, calls_of, flushed, write_answer, answer_of};
ghost use Rattle.xc_streams.specs.inner.Streams.{taken_answer};
ghost use Rattle.xc_streams.specs.declared.system.Answer.{Answer};
ghost use Rattle.xc_streams.specs.declared.system.Answer.TheVariants.{Whole, Flushed};

use std::io::{Read, Write};
use xc_text::{ReadFailed, Tally, WriteFailed};

/// What the system answers one call.
#[derive(Clone, Copy, Debug, PartialEq, Eq)]
pub enum Answer {
    /// All of it: a write took all bytes, or a read came back.
    Whole,
    /// A write took a beginning of the bytes.
    Part,
    /// What was written was flushed.
    Flushed,
    /// The call failed.
    Failed,
}

/// The calls of a source to the system. Each is counted with its result, since std's contracts say what
/// a call did and not that it was made: over them a read that is tried again would be proved.
pub trait SystemReader {
    /// The bytes that reads will return, where they are known.
    ghost remaining: { Self → Option (List ℕ) };

    /// The calls that were made.
    ghost asked: { Self → Asked };

    /// How many bytes the last read had room for.
    ghost room: { Self → ℕ };

    /// Reads bytes, once.
    fn read(&mut self, buf: &mut [u8]) -> Result<usize, ReadFailed>
        ensures bound { IfOk result (λ n. n ≤ length buf.new) }
        ensures room { room self.new ≡ length buf.old }
        ensures bytes { ReadConsumes (remaining self.old) (remaining self.new) result buf.new }
        ensures asked { asked self.new ≡ answered (answer_of Whole result) (asked self.old) };
}

/// The calls of a sink to the system. Each is counted with its result.
pub trait SystemWriter {
    /// The bytes that were taken, where they are known.
    ghost contents: { Self → Option (List ℕ) };

    /// The calls that were made.
    ghost asked: { Self → Asked };

    /// Writes bytes, once.
    fn write(&mut self, bytes: &[u8]) -> Result<usize, WriteFailed>
        ensures bound { IfOk result (λ n. n ≤ length bytes.now) }
        ensures bytes { WriteAppends (contents self.old) (contents self.new) result bytes.now }
        ensures asked { asked self.new ≡ answered (write_answer result bytes.now) (asked self.old) };

    /// Flushes what was written, once.
    fn flush(&mut self) -> Result<(), WriteFailed>
        ensures bytes { Keeps (contents self.old) (contents self.new) }
        ensures asked { asked self.new ≡ flushed (answer_of Flushed result) (asked self.old) };
}

/// A reader or writer of std, whose calls are counted. That each makes one call of std's, and no other, is read below.
#[derive(Drop)]
pub struct System<T: Drop> {
    stream: T,
    calls: u64,
    failures: u64,
    flushes: u64,
    wholes: Tally,
    /// How many bytes the last read had room for.
    room: Tally,
    last: Answer,
}

impl<T: Drop> System<T> {
    /// A stream that wasn't called yet.
    pub fn new(stream: T) -> System<T>
        ensures stream { result.stream ≡ stream }
        ensures calls { result.calls ≡ 0 }
        ensures failures { result.failures ≡ 0 }
        ensures flushes { result.flushes ≡ 0 }
        ensures wholes { result.wholes.count ≡ 0 }
        ensures last { result.last ≡ Flushed }
    {
        System {
            stream,
            calls: 0,
            failures: 0,
            flushes: 0,
            wholes: Tally::new(),
            room: Tally::new(),
            last: Answer::Flushed,
        }
    }

    /// The stream.
    pub(crate) fn stream(&self) -> &T {
        &self.stream
    }

    /// Counts a read or a write.
    fn count(&mut self, answer: Answer)
        ensures stream { self.new.stream ≡ self.old.stream }
        ensures room { self.new.room.count ≡ self.old.room.count }
        ensures asked { calls_of self.new ≡ answered answer (calls_of self.old) }
    {
        self.calls = self.calls.saturating_add(1);
        if answer == Answer::Failed {
            self.failures = self.failures.saturating_add(1);
        }
        if answer == Answer::Whole {
            self.wholes = Tally::one_more(&self.wholes);
        }
        self.last = answer;
    }

    /// Counts a flush.
    fn count_flush(&mut self, answer: Answer)
        ensures stream { self.new.stream ≡ self.old.stream }
        ensures asked { calls_of self.new ≡ flushed answer (calls_of self.old) }
    {
        self.count(answer);
        self.flushes = self.flushes.saturating_add(1);
    }
}

impl<R: Read + Drop> SystemReader for System<R> {
    ghost remaining = { λ s. R.remaining s.stream };

    ghost asked = { λ s. calls_of s };

    ghost room = { λ s. s.room.count };

    fn read(&mut self, buf: &mut [u8]) -> Result<usize, ReadFailed> {
        self.room = Tally::more(&Tally::new(), &buf.len());
        match self.stream.read(buf) {
            Ok(n) => {
                self.count(Answer::Whole);
                Ok(n)
            }
            Err(_) => {
                self.count(Answer::Failed);
                Err(ReadFailed)
            }
        }
    }
}

/// What a write came to by which so many of so many bytes were taken.
fn taken_answer(taken: usize, given: usize) -> Answer
    ensures { result ≡ taken_answer taken given }
{
    if taken == given {
        Answer::Whole
    } else if taken == 0 {
        Answer::Failed
    } else {
        Answer::Part
    }
}

impl<W: Write + Drop> SystemWriter for System<W> {
    ghost contents = { λ s. W.contents s.stream };

    ghost asked = { λ s. calls_of s };

    fn write(&mut self, bytes: &[u8]) -> Result<usize, WriteFailed> {
        match self.stream.write(bytes) {
            Ok(n) => {
                self.count(taken_answer(n, bytes.len()));
                Ok(n)
            }
            Err(_) => {
                self.count(Answer::Failed);
                Err(WriteFailed)
            }
        }
    }

    fn flush(&mut self) -> Result<(), WriteFailed> {
        match self.stream.flush() {
            Ok(()) => {
                self.count_flush(Answer::Flushed);
                Ok(())
            }
            Err(_) => {
                self.count_flush(Answer::Failed);
                Err(WriteFailed)
            }
        }
    }
}
