//! Standard streams that a program was started without.
//!
//! `dlxcheck` looks at its arguments first, then at its three streams, and opens the problem's file at its first read,
//! since the file would get the number of a closed stream. Wrong arguments give status 1 whatever is closed, without
//! waiting for a file that is a pipe. The solvers open no file, so there a closed stream fails when it is used.
ghost use Rattle.std.specs.Prelude.{◌≡◌, ◌⊎◌, Bool, true, false, Option, None, Some, IfSome, MatchOption, codes};
ghost use Rattle.xc_text.specs.Texts.{WasTold};

use crate::status::{FAILED, refuse, write_failed};
use std::os::fd::AsFd;
use xc_text::Sink;

/// A standard stream.
// In place of `AsFd`, whose contract doesn't say whether it is open.
pub trait StandardStream {
    /// Whether it is open, where that is reported.
    ghost opened: { Self → Option Bool };

    /// Whether the program was started with this stream open.
    fn is_open(&self) -> bool
        ensures { IfSome (opened self.now) (λ opened. result ≡ opened) };
}

/// The system's, of which contracts don't know it.
impl<F: AsFd> StandardStream for F {
    ghost opened = { λ _. None };

    fn is_open(&self) -> bool {
        self.as_fd().try_clone_to_owned().is_ok()
    }
}

/// Looks whether the standard streams are open, reports one that is closed, and returns the status of
/// that: 3. A program that opens a file calls this first: the file would take the number of the closed
/// stream, and would be read and written in its place.
pub fn closed_stream<I: StandardStream, O: StandardStream, D: StandardStream, E: Sink>(
    input: &I,
    output: &O,
    messages: &D,
    err: &mut E,
) -> Option<u8>
    ensures told { MatchOption result (err.new ≡ err.old) (λ status. (status ≡ 3)
        × (WasTold (E.state err.old) (E.state err.new) (codes "Read failed.\n")
        ⊎ WasTold (E.state err.old) (E.state err.new) (codes "Write failed.\n"))) }
    ensures all { I.opened input.now ≡ Some true → O.opened output.now ≡ Some true
        → D.opened messages.now ≡ Some true → result ≡ None }
    ensures input { I.opened input.now ≡ Some false → (result ≡ Some 3)
        × WasTold (E.state err.old) (E.state err.new) (codes "Read failed.\n") }
    ensures others { I.opened input.now ≡ Some true
        → (O.opened output.now ≡ Some false) ⊎ (D.opened messages.now ≡ Some false) → (result ≡ Some 3)
        × WasTold (E.state err.old) (E.state err.new) (codes "Write failed.\n") }
{
    if !input.is_open() {
        return Some(refuse(FAILED, b"Read failed.\n", err));
    }
    if !output.is_open() || !messages.is_open() {
        return Some(write_failed(err));
    }
    None
}
