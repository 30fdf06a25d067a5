//! The class of an option: its uses cyclically from the least item's. Sorted items would not do: `A B C` and `A C B`
//! have the same items and are not rotations of each other.
ghost use Rattle.std.specs.Prelude.{◌≡◌, map, min, OnOk};
ghost use Rattle.std.specs.List.{reduce};
ghost use Rattle.xc_check.specs.inner.Classes.{class_of};

use std::alloc::AllocError;
use xc_input::{Use, place_in};

/// The least item of uses, if there are any.
fn least_item(uses: &[Use]) -> Option<u32>
    ensures { result ≡ reduce min (map (λ u. u.item) uses.now) }
{
    uses.iter().map(|u| u.item).min()
}

/// Puts the uses from the least item's on, cyclically, in place of what a list holds. Sorting would not
/// do: `A B C` and `A C B` have the same items and are not rotations of each other.
pub(crate) fn rotate(uses: &[Use], rotated: &mut Vec<Use>) -> Result<(), AllocError>
    ensures { OnOk result (rotated.new.items ≡ class_of uses.now) }
{
    let place = place_in(uses, least_item(uses).unwrap_or(0));
    let (before, after) = uses.split_at(place);
    rotated.clear();
    rotated.extend_from_slice(after)?;
    rotated.extend_from_slice(before)?;
    Ok(())
}
