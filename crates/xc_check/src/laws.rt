//! When verdicts and faults of listings are equal.
ghost use Rattle.std.specs.Prelude.{◌≡◌, ◌↔◌, true};
ghost use Rattle.xc_text.specs.Equality.{IsEqualClone};

use crate::verdict::{ListingFault, Verdict};

/// Two verdicts are equal exactly if they are the same.
pub fn equal_verdicts(a: &Verdict, b: &Verdict) -> bool
    ensures { result ≡ true ↔ a.now ≡ b.now }
{
    a == b
}

/// Two faults of listings are equal exactly if they are the same.
pub fn equal_listing_faults(a: &ListingFault, b: &ListingFault) -> bool
    ensures { result ≡ true ↔ a.now ≡ b.now }
{
    a == b
}

/// A clone of a value of either type is equal to it.
pub fn clones()
    ensures verdicts { IsEqualClone ⟦<Verdict as Clone>⟧.is_clone }
    ensures listing_faults { IsEqualClone ⟦<ListingFault as Clone>⟧.is_clone }
{}
