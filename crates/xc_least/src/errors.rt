//! Why there is no answer.
use std::alloc::{AllocError, AllocFailed};
use thiserror::Error;

/// Why there is no answer.
#[derive(Clone, Copy, Debug, PartialEq, Eq, Error)]
pub enum NotLeast {
    /// There was no memory.
    #[error("out of memory")]
    Memory,
    /// A sum of costs and prices is not within 64 bits with a sign.
    #[error("a sum of costs or prices is too large")]
    TooLarge,
    /// The caller ended the search.
    #[error("stopped by the caller")]
    Stopped,
    /// What was found is no cover that costs less, which is not known to happen.
    #[error("the search has lost its way")]
    Lost,
}

impl From<AllocError> for NotLeast {
    fn from(_: AllocError) -> NotLeast {
        NotLeast::Memory
    }
}

impl<T: Drop> From<AllocFailed<T>> for NotLeast {
    fn from(_: AllocFailed<T>) -> NotLeast {
        NotLeast::Memory
    }
}
