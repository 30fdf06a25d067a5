//! The system's readers and files as sources.
ghost use Rattle.std.specs.Prelude.{◌≡◌, true, ◌+◌, ◌-◌, ◌^◌, ◌<◌, ◌≤◌, None, length, is_err, option_map, unwrap_or};
ghost use Rattle.std.specs.Prelude.{Some, IfSome, min, IfOk, IsErr, OnErr, [], ◌∷◌, ◌++◌, take};
ghost use Rattle.std.specs.Io.KnownBytes.{ReadConsumes};
ghost use Rattle.xc_text.specs.Calls.{counted};
ghost use Rattle.xc_text.specs.Sources.{SourceState};
ghost use Rattle.xc_streams.specs.Streams.{answered, answer_of};
ghost use Rattle.xc_streams.specs.declared.system.Answer.TheVariants.{Whole};

use crate::system::{System, SystemReader};
use std::io::Read;
use xc_text::{Given, ReadFailed, Source};

/// A reader of the system as a source, or what could not be opened. After a failure nothing is called
/// of it.
#[derive(Drop)]
pub struct Incoming<R: SystemReader + Drop> {
    reader: Option<R>,
    left: u64,
    failures: u64,
    given: Given,
}

impl<R: Read + Drop> Incoming<System<R>> {
    /// A reader of std, or `None` for what could not be opened: that fails at the first read.
    pub fn new(reader: Option<R>) -> Incoming<System<R>>
        ensures reader { option_map (λ r. r.stream) result.reader ≡ reader }
        ensures missing { reader ≡ None → result.reader ≡ None }
        ensures left { result.left ≡ 2 ^ 64 - 1 }
        ensures failures { result.failures ≡ 0 }
        ensures given { result.given.lines ≡ [] }
    {
        match reader {
            Some(reader) => Incoming::over(Some(System::new(reader))),
            None => Incoming::over(None),
        }
    }
}

impl<R: Read + Drop> Incoming<System<R>> {
    /// The reader of std, where there is one.
    pub(crate) fn stream(&self) -> Option<&R> {
        match &self.reader {
            Some(reader) => Some(reader.stream()),
            None => None,
        }
    }
}

impl<R: SystemReader + Drop> Incoming<R> {
    /// The same of any reader.
    pub fn over(reader: Option<R>) -> Incoming<R>
        ensures reader { result.reader ≡ reader }
        ensures left { result.left ≡ 2 ^ 64 - 1 }
        ensures failures { result.failures ≡ 0 }
        ensures given { result.given.lines ≡ [] }
    {
        Incoming {
            reader,
            left: u64::MAX,
            failures: 0,
            given: Given::new(),
        }
    }

    /// Counts a failure.
    fn fail(&mut self) -> ReadFailed
        ensures reader { self.new.reader ≡ self.old.reader }
        ensures left { self.new.left ≡ self.old.left }
        ensures failures { self.new.failures ≡ counted true self.old.failures }
        ensures given { self.new.given ≡ self.old.given }
    {
        self.failures = self.failures.saturating_add(1);
        ReadFailed
    }
}

impl<R: SystemReader + Drop> Source for Incoming<R> {
    ghost state = { λ s. record {
      failures = s.failures;
      limit = s.left;
      rest = unwrap_or (option_map R.remaining s.reader) (Some []);
      given = s.given.lines;
    } };

    fn read(&mut self, buf: &mut [u8]) -> Result<usize, ReadFailed>
        requires { 0 < length buf.old }
        ensures bound { IfOk result (λ n. n ≤ length buf.new) }
        ensures limit { IfOk result (λ n. self.new.left + n ≡ self.old.left) }
        ensures limit_kept { OnErr result (self.new.left ≡ self.old.left) }
        ensures failures { self.new.failures ≡ counted (is_err result) self.old.failures }
        ensures bytes { ReadConsumes (unwrap_or (option_map R.remaining self.old.reader) (Some []))
            (unwrap_or (option_map R.remaining self.new.reader) (Some [])) result buf.new }
        ensures given { IfOk result (λ n. self.new.given.lines ≡ self.old.given.lines ++ take n buf.new ∷ []) }
        ensures given_kept { OnErr result (self.new.given.lines ≡ self.old.given.lines) }

        // What was not opened fails, and so does a reader that has read all that it may, and one that
        // failed before: it isn't called then. Else it is called once, and its result is this one's.
        ensures missing { self.old.reader ≡ None → IsErr result }
        ensures spent { self.old.left ≡ 0 → IsErr result × (self.new.reader ≡ self.old.reader) }
        ensures closed { 0 < self.old.failures → IsErr result × (self.new.reader ≡ self.old.reader) }
        ensures asked { self.old.failures ≡ 0 → 0 < self.old.left → option_map R.asked self.new.reader
            ≡ option_map (answered (answer_of Whole result)) (option_map R.asked self.old.reader) }
        ensures room { self.old.failures ≡ 0 → 0 < self.old.left →
            IfSome self.new.reader (λ r. R.room r ≡ min self.old.left (length buf.old)) }
    {
        // A failure isn't tried again, nor is EINTR, which a socket with a time limit returns where a stopped program
        // goes on.
        if self.failures > 0 || self.left == 0 {
            return Err(self.fail());
        }
        let most = usize::try_from(self.left)
            .unwrap_or(usize::MAX)
            .min(buf.len());
        let read = match &mut self.reader {
            Some(reader) => reader.read(&mut buf[..most]),
            None => return Err(self.fail()),
        };
        match read {
            Ok(n) => {
                self.left -= n as u64;
                self.given = Given::after(&self.given, &buf[..n]);
                Ok(n)
            }
            Err(_) => Err(self.fail()),
        }
    }
}
