//! Why no numbers were read.
ghost use Rattle.std.specs.Prelude.{◌≡◌};
ghost use Rattle.xc_numbers.specs.declared.fault.LineFault.TheVariants as line_fault;
ghost use Rattle.xc_numbers.specs.declared.fault.NumbersError.TheVariants.{Device, Memory};

use std::alloc::{AllocError, AllocFailed};
use xc_text::Unread;

/// Why no numbers were read.
#[derive(Clone, Copy, Debug, PartialEq, Eq)]
pub enum NumbersError {
    /// A line has a token that is no number. Lines are counted from 1.
    Fault { line: u64 },
    /// A read of the source failed.
    Device,
    /// Memory is out.
    Memory,
}

/// Why the numbers of a line weren't taken.
#[derive(Clone, Copy)]
pub(crate) enum LineFault {
    /// A token is no number.
    NoNumber,
    Memory,
}

impl<T: Drop> From<AllocFailed<T>> for LineFault {
    ghost from_gives = { λ _ e. e ≡ line_fault.Memory };

    fn from(_: AllocFailed<T>) -> LineFault {
        LineFault::Memory
    }
}
