//! Where an item is among the uses of an option.
ghost use Rattle.std.specs.Prelude.{◌≡◌, ◌≤◌, length};
ghost use Rattle.xc_input.specs.UsePlaces.{place_in};

use crate::problem::Use;

/// The place of an item's use among an option's, counted from 0; the number of uses where none is of it.
pub fn place_in(uses: &[Use], item: u32) -> usize
    ensures value { result ≡ place_in item uses.now }
    ensures within { result ≤ length uses.now }
{
    for (place, u) in uses.iter().enumerate() {
        if u.item == item {
            return place;
        }
    }
    uses.len()
}
