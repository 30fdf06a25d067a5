//! Why there is no count.
ghost use Rattle.std.specs.Prelude.{◌≡◌};
ghost use Rattle.xc_count.specs.declared.errors.CountError.TheVariants.{Memory};
ghost use Rattle.xc_count.specs.declared.errors.Halted.TheVariants.{Failed};

use std::alloc::{AllocError, AllocFailed};

/// Why there is no count.
#[derive(Clone, Copy, Debug, PartialEq, Eq)]
pub enum CountError {
    /// There was no memory.
    Memory,
    /// The states would have taken more bytes than the caller allows.
    OutOfBound,
    /// A state was not found where it was put. This is not known to happen.
    Lost,
}

/// Why a sweep has no count.
#[derive(Clone, Copy, Debug, PartialEq, Eq)]
pub enum Halted {
    /// It failed.
    Failed(CountError),
    /// The search beside it came to the end first.
    Overtaken,
}

impl From<CountError> for Halted {
    ghost from_gives = { λ e h. h ≡ Failed e };

    fn from(error: CountError) -> Halted {
        Halted::Failed(error)
    }
}

impl From<AllocError> for Halted {
    ghost from_gives = { λ _ h. h ≡ Failed Memory };

    fn from(_: AllocError) -> Halted {
        Halted::Failed(CountError::Memory)
    }
}

impl<T: Drop> From<AllocFailed<T>> for Halted {
    ghost from_gives = { λ _ h. h ≡ Failed Memory };

    fn from(_: AllocFailed<T>) -> Halted {
        Halted::Failed(CountError::Memory)
    }
}

impl From<AllocError> for CountError {
    ghost from_gives = { λ _ e. e ≡ Memory };

    fn from(_: AllocError) -> CountError {
        CountError::Memory
    }
}

impl<T: Drop> From<AllocFailed<T>> for CountError {
    ghost from_gives = { λ _ e. e ≡ Memory };

    fn from(_: AllocFailed<T>) -> CountError {
        CountError::Memory
    }
}
