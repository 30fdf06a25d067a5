//! What comes of a line of the texts of spans: what is to be written for it, or why no more is read.
ghost use Rattle.std.specs.Prelude.{◌≡◌};
ghost use Rattle.xc_tools.specs.declared.outcomes.Refusal.TheVariants as refusals;
ghost use Rattle.xc_tools.specs.declared.outcomes.Stop.TheVariants.{Memory, WriteFailed};
ghost use Rattle.xc_tools.specs.inner.Joining.{stop_of, unread_stop};

use std::alloc::AllocError;
use xc_text::{SinkFault, Unread};

/// What is to be written for a line.
#[derive(Clone, Copy)]
pub(crate) enum Act {
    Nothing,
    /// The line itself.
    Copy,
    /// A header with this number.
    Header(u64),
}

/// Why no line is taken any more.
#[derive(Clone, Copy)]
pub(crate) enum Refusal {
    /// It isn't one of a span's text.
    NotText,
    /// The text is of another problem than the first one.
    Other,
    /// The text begins elsewhere than the one before it ended.
    Gap,
    Memory,
}

impl From<AllocError> for Refusal {
    ghost from_gives = { λ _ e. e ≡ refusals.Memory };

    fn from(_: AllocError) -> Refusal {
        Refusal::Memory
    }
}

/// Why no more is read.
#[derive(Clone, Copy)]
pub(crate) enum Stop {
    /// A line isn't one of a span's text.
    NotText,
    /// A text is of another problem than the first one.
    Other,
    /// Ends don't meet.
    Gap,
    Device,
    Memory,
    WriteFailed,
}

impl From<Unread> for Stop {
    ghost from_gives = { λ unread e. e ≡ unread_stop unread };

    fn from(unread: Unread) -> Stop {
        match unread {
            Unread::Device => Stop::Device,
            Unread::Memory => Stop::Memory,
        }
    }
}

impl From<AllocError> for Stop {
    ghost from_gives = { λ _ e. e ≡ Memory };

    fn from(_: AllocError) -> Stop {
        Stop::Memory
    }
}

impl From<SinkFault> for Stop {
    ghost from_gives = { λ _ e. e ≡ WriteFailed };

    fn from(_: SinkFault) -> Stop {
        Stop::WriteFailed
    }
}

impl From<Refusal> for Stop {
    ghost from_gives = { λ refusal e. e ≡ stop_of refusal };

    fn from(refusal: Refusal) -> Stop {
        match refusal {
            Refusal::NotText => Stop::NotText,
            Refusal::Other => Stop::Other,
            Refusal::Gap => Stop::Gap,
            Refusal::Memory => Stop::Memory,
        }
    }
}
