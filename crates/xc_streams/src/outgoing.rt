//! The system's writers as sinks that hold some bytes back.
ghost use Rattle.std.specs.Prelude.{◌≡◌, ◌+◌, ◌-◌, ◌^◌, ◌<◌, ◌≤◌, false, length, IfOk, []};
ghost use Rattle.xc_streams.specs.Streams.{early};
ghost use Rattle.xc_streams.specs.declared.outgoing.held.TheConstants.{ROOM};

mod held;
mod writing;

use crate::outgoing::held::Held;
use crate::system::{System, SystemWriter};
use std::alloc::{AllocError, Global};
use std::io::Write;
use xc_text::Tally as Flushes;

/// A writer of the system as a sink that holds some bytes back until it is flushed. The first failure
/// of the system is its own at that call, and after it the system isn't called.
///
/// A line that ends is passed on at once, with all that is held back, where that is at least an eighth
/// of what was passed on before. So the first lines of a slow run appear when they are written, and a
/// fast run soon makes one call for each 65,536 bytes. By lines, every line is passed on at its end.
#[derive(Drop)]
pub struct Outgoing<W: SystemWriter + Drop> {
    writer: W,
    by_line: bool,
    held: Held,
    /// How many bytes were passed on.
    passed: usize,
    /// A text shorter than this is held back whatever it ends with.
    calm: usize,
    failures: u64,
    failed: bool,
    flushes: Flushes,
    ghost room: { length held < ROOM },
    ghost within: { length held + calm ≤ ROOM },
    ghost exact: { failures ≡ 0 → calm ≡ early by_line passed - length held },
    ghost countable: { passed ≤ 2 ^ 64 - 1 },
    ghost closed: { 0 < failures → calm ≡ 0 },
}

impl<W: Write + Drop> Outgoing<System<W>> {
    /// A sink over a writer of std, with nothing held back. `by_line`: each line's end passes on what is
    /// held back, as for a terminal. It fails where there is no memory for 65,536 bytes.
    pub fn new(alloc: Global, writer: W, by_line: bool) -> Result<Outgoing<System<W>>, AllocError>
        ensures writer { IfOk result (λ s. s.writer.stream ≡ writer) }
        ensures by_line { IfOk result (λ s. s.by_line ≡ by_line) }
        ensures held { IfOk result (λ s. s.held ≡ []) }
        ensures passed { IfOk result (λ s. s.passed ≡ 0) }
        ensures failures { IfOk result (λ s. s.failures ≡ 0) }
        ensures failed { IfOk result (λ s. s.failed ≡ false) }
        ensures flushes { IfOk result (λ s. s.flushes.count ≡ 0) }
    {
        Outgoing::over(alloc, System::new(writer), by_line)
    }
}

impl<W: SystemWriter + Drop> Outgoing<W> {
    /// The same of any writer.
    pub fn over(alloc: Global, writer: W, by_line: bool) -> Result<Outgoing<W>, AllocError>
        ensures writer { IfOk result (λ s. s.writer ≡ writer) }
        ensures by_line { IfOk result (λ s. s.by_line ≡ by_line) }
        ensures held { IfOk result (λ s. s.held ≡ []) }
        ensures passed { IfOk result (λ s. s.passed ≡ 0) }
        ensures failures { IfOk result (λ s. s.failures ≡ 0) }
        ensures failed { IfOk result (λ s. s.failed ≡ false) }
        ensures flushes { IfOk result (λ s. s.flushes.count ≡ 0) }
    {
        Ok(Outgoing {
            writer,
            by_line,
            held: Held::new(alloc)?,
            passed: 0,
            calm: 0,
            failures: 0,
            failed: false,
            flushes: Flushes::new(),
        })
    }
}
