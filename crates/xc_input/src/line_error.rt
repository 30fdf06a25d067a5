//! Why a line wasn't taken.

ghost use Rattle.std.specs.Prelude.{◌≡◌};
ghost use Rattle.xc_input.specs.declared.line_error.LineError.TheVariants.{Fault, Memory};

use crate::FaultKind;
use std::alloc::{AllocError, AllocFailed};

/// Why a line wasn't taken.
#[derive(Clone, Copy)]
pub enum LineError {
    Fault(FaultKind),
    Memory,
}

impl From<FaultKind> for LineError {
    ghost from_gives = { λ kind e. e ≡ Fault kind };

    fn from(kind: FaultKind) -> LineError {
        LineError::Fault(kind)
    }
}

impl From<AllocError> for LineError {
    ghost from_gives = { λ _ e. e ≡ Memory };

    fn from(_: AllocError) -> LineError {
        LineError::Memory
    }
}

impl<T: Drop> From<AllocFailed<T>> for LineError {
    ghost from_gives = { λ _ e. e ≡ Memory };

    fn from(_: AllocFailed<T>) -> LineError {
        LineError::Memory
    }
}
