//! What a listing is judged to be.
ghost use Rattle.std.specs.Prelude.{◌≡◌};
ghost use Rattle.xc_check.specs.declared.verdict.ListingFault.TheVariants.{Memory};

use std::alloc::AllocError;
use thiserror::Error;

/// The verdict on a listed solution.
#[derive(Clone, Copy, Debug, PartialEq, Eq)]
pub struct Verdict {
    /// The number of its header.
    pub number: u64,
    /// Whether it is a cover.
    pub cover: bool,
}

/// Why a listing gets no verdicts. Lines are counted from 1.
#[derive(Clone, Copy, Debug, PartialEq, Eq, Error)]
pub enum ListingFault {
    /// A line that is neither a header nor a choice line, or a choice line before the first header.
    #[error("listing line {0}: bad line")]
    BadLine(u64),
    /// A choice line whose body is neither that of an option nor `null` and a primary item's name.
    #[error("listing line {0}: unknown option")]
    UnknownOption(u64),
    /// Memory is out.
    #[error("out of memory")]
    Memory,
}

impl From<AllocError> for ListingFault {
    ghost from_gives = { λ _ e. e ≡ Memory };

    fn from(_: AllocError) -> ListingFault {
        ListingFault::Memory
    }
}
