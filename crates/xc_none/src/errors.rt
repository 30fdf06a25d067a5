//! Why a problem gets no clauses, or no judgement.
ghost use Rattle.std.specs.Prelude.{◌≡◌};
ghost use Rattle.xc_none.specs.Reported.{error_of_clauses, error_of_unread};
ghost use Rattle.xc_none.specs.declared.errors.ClausesError.TheVariants.{Memory};

use std::alloc::{AllocError, AllocFailed};
use thiserror::Error;
use xc_text::Unread;

/// Why a problem gets no clauses.
#[derive(Clone, Copy, Debug, PartialEq, Eq, Error)]
pub enum ClausesError {
    /// Memory is out.
    #[error("out of memory")]
    Memory,
    /// The clauses would have more than 134,217,728 variables.
    #[error("too many variables")]
    TooManyVariables,
    /// A variable was not found where it was put. This is not known to happen.
    #[error("a variable is lost")]
    Lost,
}

impl From<AllocError> for ClausesError {
    ghost from_gives = { λ _ e. e ≡ Memory };

    fn from(_: AllocError) -> ClausesError {
        ClausesError::Memory
    }
}

impl<T: Drop> From<AllocFailed<T>> for ClausesError {
    ghost from_gives = { λ _ e. e ≡ Memory };

    fn from(_: AllocFailed<T>) -> ClausesError {
        ClausesError::Memory
    }
}

/// Why a proof gets no judgement.
#[derive(Clone, Copy, Debug, PartialEq, Eq, Error)]
pub enum NoneError {
    /// A read of the proof failed.
    #[error("a read failed")]
    Device,
    /// Memory is out.
    #[error("out of memory")]
    Memory,
    /// The clauses would have more than 134,217,728 variables.
    #[error("too many variables")]
    TooManyVariables,
    /// A variable was not found where it was put. This is not known to happen.
    #[error("a variable is lost")]
    Lost,
}

impl From<ClausesError> for NoneError {
    ghost from_gives = { λ error e. e ≡ error_of_clauses error };

    fn from(error: ClausesError) -> NoneError {
        match error {
            ClausesError::Memory => NoneError::Memory,
            ClausesError::TooManyVariables => NoneError::TooManyVariables,
            ClausesError::Lost => NoneError::Lost,
        }
    }
}

impl From<Unread> for NoneError {
    ghost from_gives = { λ unread e. e ≡ error_of_unread unread };

    fn from(unread: Unread) -> NoneError {
        match unread {
            Unread::Device => NoneError::Device,
            Unread::Memory => NoneError::Memory,
        }
    }
}
