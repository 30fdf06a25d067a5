//! The numbers by which kinds, faults and statuses are reported, since an enum doesn't cross to C.
ghost use Rattle.std.specs.Prelude.{◌≡◌, Some};
ghost use Rattle.xc_input.specs.Problem.{numbered_get};
ghost use Rattle.xc_c.specs.Numbers.{faults, kind_by_number};
ghost use Rattle.xc_c.specs.inner.{error_status};

use xc_input::{FaultKind, InputError, Kind};

// Up to 4 they are the statuses of the programs, where an argument is wrong, the input has a fault, not all could be
// written, or memory ran out.
/// All was done.
pub(crate) const DONE: u32 = 0;
/// The number is of no kind.
pub(crate) const NO_KIND: u32 = 1;
/// The text has a fault.
pub(crate) const FAULT: u32 = 2;
/// The buffer has no room for all.
pub(crate) const NO_ROOM: u32 = 3;
/// There was no memory.
pub(crate) const NO_MEMORY: u32 = 4;
/// The limit was met.
pub(crate) const LIMIT: u32 = 5;

/// The kind of a number.
pub(crate) fn kind_by_number(number: u32) -> Option<Kind>
    ensures { result ≡ kind_by_number number }
{
    match number {
        1 => Some(Kind::Plain),
        2 => Some(Kind::Colours),
        3 => Some(Kind::Bounds),
        _ => None,
    }
}

/// The number of a fault.
pub(crate) fn fault_number(fault: FaultKind) -> u32
    ensures { numbered_get faults result ≡ Some fault }
{
    match fault {
        FaultKind::NoItems => 1,
        FaultKind::NulByte => 2,
        FaultKind::EmptyName => 3,
        FaultKind::NameTooLong => 4,
        FaultKind::BadByteInName => 5,
        FaultKind::RepeatedName => 6,
        FaultKind::TwoBars => 7,
        FaultKind::BadBound => 8,
        FaultKind::BoundOrder => 9,
        FaultKind::BoundOnSecondary => 10,
        FaultKind::UnknownItem => 11,
        FaultKind::RepeatedInOption => 12,
        FaultKind::ColourOnPrimary => 13,
        FaultKind::BadColour => 14,
        FaultKind::ColourNotHere => 15,
        FaultKind::TooManyItems => 16,
        FaultKind::TooManyUses => 17,
    }
}

/// The status where no problem was read.
pub(crate) fn error_status(error: &InputError) -> u32
    ensures { result ≡ error_status error.now }
{
    match error {
        InputError::Fault { .. } => FAULT,
        _ => NO_MEMORY,
    }
}
