//! The statuses that the programs end with.
ghost use Rattle.std.specs.Prelude.{◌≡◌, ◌⊎◌, ◌+◌, IfErr, IsTrue, OnOk, codes};
ghost use Rattle.std.specs.Io.KnownBytes.{Keeps};
ghost use Rattle.xc_text.specs.Calls.{Rose};
ghost use Rattle.xc_text.specs.Texts.{WasTold};
ghost use Rattle.xc_streams.specs.Flushes.{FlushFailed, WasFlushed};

use xc_text::{Sink, write_all};

/// The run was complete or met its limit, or each solution is a cover.
pub const COMPLETE: u8 = 0;
/// The words were refused.
pub const BAD_WORDS: u8 = 1;
/// The input has a fault.
pub const BAD_INPUT: u8 = 2;
/// A read or a write failed.
pub const FAILED: u8 = 3;
/// There was no memory.
pub const NO_MEMORY: u8 = 4;
/// Some solution is not a cover.
pub const NOT_ALL_COVERS: u8 = 5;
/// The ends of spans don't meet, or they are of more than one problem.
pub const GAP: u8 = 5;
/// There are fewer solutions than the number that was asked for.
pub const FEWER: u8 = 5;

/// Writes a line in place of the last one, as far as that goes, and returns its status.
pub fn refuse<E: Sink>(status: u8, text: &[u8], err: &mut E) -> u8
    ensures status { result ≡ status }
    ensures told { WasTold (E.state err.old) (E.state err.new) text.now }
{
    let _ = write_all(err, text);
    status
}

/// Reports that memory is out, and returns its status: 4.
pub fn out_of_memory<E: Sink>(err: &mut E) -> u8
    ensures status { result ≡ 4 }
    ensures told { WasTold (E.state err.old) (E.state err.new) (codes "Out of memory.\n") }
{
    refuse(NO_MEMORY, b"Out of memory.\n", err)
}

/// Reports that a write failed, and returns its status: 3.
pub fn write_failed<E: Sink>(err: &mut E) -> u8
    ensures status { result ≡ 3 }
    ensures told { WasTold (E.state err.old) (E.state err.new) (codes "Write failed.\n") }
{
    refuse(FAILED, b"Write failed.\n", err)
}

/// Flushes the output; where that fails, reports it, and returns its status: 3.
pub fn flushed<O: Sink, E: Sink>(out: &mut O, err: &mut E) -> Result<(), u8>
    ensures kept { Keeps (O.state out.old).taken (O.state out.new).taken }
    ensures flushed_once { (O.state out.new).flushes ≡ (O.state out.old).flushes + 1 }
    ensures settled { OnOk result (((O.state out.new).failures ≡ (O.state out.old).failures)
        × IsTrue (O.state out.new).settled × (err.new ≡ err.old)) }
    ensures failed { IfErr result (λ status. (status ≡ 3)
        × Rose (O.state out.old).failures (O.state out.new).failures × IsTrue (O.state out.new).failed
        × WasTold (E.state err.old) (E.state err.new) (codes "Write failed.\n")) }
{
    match out.flush() {
        Ok(()) => Ok(()),
        Err(_) => Err(write_failed(err)),
    }
}

/// Flushes the output, and then does what `refuse` does; where the flush fails, reports that, and returns the
/// status of that: 3.
pub fn flush_and_refuse<O: Sink, E: Sink>(status: u8, text: &[u8], out: &mut O, err: &mut E) -> u8
    ensures { ((result ≡ status) × WasFlushed (O.state out.old) (O.state out.new)
        × WasTold (E.state err.old) (E.state err.new) text.now)
        ⊎ ((result ≡ 3) × FlushFailed (O.state out.old) (O.state out.new)
        × WasTold (E.state err.old) (E.state err.new) (codes "Write failed.\n")) }
{
    match flushed(out, err) {
        Ok(()) => refuse(status, text, err),
        Err(failed) => failed,
    }
}
