//! What is wrong with a text, and why no problem was read.

ghost use Rattle.std.specs.Prelude.{◌≡◌};
ghost use Rattle.xc_input.specs.FaultTexts.{fault_text, error_text};
ghost use Rattle.xc_input.specs.Readings.{error_of};
ghost use Rattle.xc_input.specs.declared.fault.InputError.TheVariants.{Device, Memory};

use std::alloc::AllocError;
use std::fmt;
use xc_text::{ReadFailed, Unread};

/// What is wrong with a line.
#[derive(Clone, Copy, Debug, PartialEq, Eq, Hash)]
pub enum FaultKind {
    /// The text ends without an item line. Its line is the number of lines plus 1.
    NoItems,
    /// The line has a NUL byte, in a comment too.
    NulByte,
    /// A name has no byte.
    EmptyName,
    /// A name has more than 32 bytes.
    NameTooLong,
    /// A name has a `:` or a `|`.
    BadByteInName,
    /// An earlier item has this name.
    RepeatedName,
    /// A bar occurs earlier in the item line.
    TwoBars,
    /// What is before an item's `|` is neither a number nor two numbers parted by `:`, each of one
    /// to nine digits.
    BadBound,
    /// The upper bound is 0 or below the lower one.
    BoundOrder,
    /// An item after the bar has bounds.
    BoundOnSecondary,
    /// No item has this name.
    UnknownItem,
    /// The item occurs earlier in this option.
    RepeatedInOption,
    /// A colour on a primary item.
    ColourOnPrimary,
    /// A colour has no byte, or more than 8.
    BadColour,
    /// A colour in a problem of kind `Plain`.
    ColourNotHere,
    /// There are more than 100,000 items.
    TooManyItems,
    /// The options that are kept have more than 10,000,000 uses.
    TooManyUses,
}

impl FaultKind {
    /// The fault in words.
    pub fn text(self) -> &'static str
        ensures { result.now ≡ fault_text self }
    {
        match self {
            FaultKind::NoItems => "no items",
            FaultKind::NulByte => "NUL byte",
            FaultKind::EmptyName => "empty name",
            FaultKind::NameTooLong => "name too long",
            FaultKind::BadByteInName => "bad byte in name",
            FaultKind::RepeatedName => "name repeated",
            FaultKind::TwoBars => "second bar",
            FaultKind::BadBound => "bad bound",
            FaultKind::BoundOrder => "bound order",
            FaultKind::BoundOnSecondary => "bound on a secondary item",
            FaultKind::UnknownItem => "unknown item",
            FaultKind::RepeatedInOption => "item repeated in option",
            FaultKind::ColourOnPrimary => "colour on a primary item",
            FaultKind::BadColour => "bad colour",
            FaultKind::ColourNotHere => "colour not allowed here",
            FaultKind::TooManyItems => "too many items",
            FaultKind::TooManyUses => "too many uses",
        }
    }
}

impl fmt::Display for FaultKind {
    ghost use Rattle.std.specs.Prelude.{Some};

    ghost output = { λ fault. Some (fault_text fault) };

    fn fmt<W: fmt::Write>(&self, f: &mut fmt::Formatter<W>) -> fmt::Result {
        f.write_str(self.text())
    }
}

impl std::error::Error for FaultKind {}

/// Why no problem was read.
#[derive(Clone, Copy, Debug, PartialEq, Eq)]
pub enum InputError {
    /// A line has a fault. Lines are counted from 1.
    Fault { line: u64, kind: FaultKind },
    /// A read of the source failed.
    Device,
    /// Memory is out.
    Memory,
}

impl fmt::Display for InputError {
    ghost use Rattle.std.specs.Prelude.{Some};

    ghost output = { λ error. Some (error_text error) };

    fn fmt<W: fmt::Write>(&self, f: &mut fmt::Formatter<W>) -> fmt::Result {
        match *self {
            InputError::Fault { line, kind } => write!(f, "line {line}: {kind}"),
            InputError::Device => f.write_str("a read failed"),
            InputError::Memory => f.write_str("out of memory"),
        }
    }
}

impl std::error::Error for InputError {}

impl From<ReadFailed> for InputError {
    ghost from_gives = { λ _ e. e ≡ Device };

    fn from(_: ReadFailed) -> InputError {
        InputError::Device
    }
}

impl From<Unread> for InputError {
    ghost from_gives = { λ unread e. e ≡ error_of unread };

    fn from(unread: Unread) -> InputError {
        match unread {
            Unread::Device => InputError::Device,
            Unread::Memory => InputError::Memory,
        }
    }
}

impl From<AllocError> for InputError {
    ghost from_gives = { λ _ e. e ≡ Memory };

    fn from(_: AllocError) -> InputError {
        InputError::Memory
    }
}
