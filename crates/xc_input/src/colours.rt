//! The colours that were met, and their numbers: by first use over the options that are kept. Two spellings are one
//! colour exactly if their bytes are equal; the bytes are outside the puzzle.
//!
//! The number is guessed from the bytes, and the colour that has it is compared. Before, each use with a colour was
//! looked up by its hash. The guess saves a quarter of the instructions of reading many colours.

ghost use Rattle.std.specs.Prelude.{◌≡◌, ◌≤◌, ◌+◌, None, Some, OnOk, IfOk, IfSome, length};
ghost use Rattle.xc_input.specs.Limits.{most_items, most_uses};
ghost use Rattle.xc_input.specs.Sheets.{with_colour, colour_number};
ghost use Rattle.xc_text.specs.Words.{place};
ghost use Rattle.xc_input.specs.inner.Builders.{Judged, AreDistinct};
ghost use Rattle.xc_input.specs.inner.Stored.{key_names};
ghost use Rattle.indexmap.specs.IndexSet.{hasher_of};

use crate::line_error::LineError;
use crate::names::{NameSet, add_name, place_of};
use crate::stage::ColourGuesses;
use std::alloc::Global;

/// The place of a colour, if it is the one that was guessed. Most have one byte, by which they are guessed. No colour
/// occurs twice, so one at the guessed place has no other.
#[inline(always)]
#[tactic(auto, using(crate::proofs::TokenLemmas::known_names))]
fn guessed_colour(colours: &NameSet, guesses: &ColourGuesses, colour: &[u8]) -> Option<usize>
    requires { AreDistinct (key_names colours.now.keys) }
    ensures { IfSome result (λ at. place (key_names colours.now.keys) colour.now ≡ Some at) }
{
    if let [byte] = colour {
        let at = guesses.learned(*byte as usize);
        return match colours.get_index(at)?.as_slice() {
            [known] if *known == *byte => Some(at),
            _ => None,
        };
    }
    let at = guesses.learned(guesses.number(colour));
    if colours.get_index(at)?.as_slice() == colour {
        return Some(at);
    }
    None
}

/// The place of a colour, which is guessed from now on.
#[inline(never)]
fn found_colour(colours: &NameSet, guesses: &mut ColourGuesses, colour: &[u8]) -> Option<usize>
    ensures { result ≡ place (key_names colours.now.keys) colour.now }
{
    let place = place_of(colours, colour)?;
    let number = guesses.number(colour);
    guesses.learn(number, place);
    Some(place)
}

/// The place of a colour, which is mostly guessed.
#[inline(always)]
fn known_colour(colours: &NameSet, guesses: &mut ColourGuesses, colour: &[u8]) -> Option<usize>
    requires { AreDistinct (key_names colours.now.keys) }
    ensures { result ≡ place (key_names colours.now.keys) colour.now }
{
    if let Some(at) = guessed_colour(colours, guesses, colour) {
        return Some(at);
    }
    found_colour(colours, guesses, colour)
}

/// The number of a colour, which is a new one where it wasn't met yet.
pub fn number_colour(
    alloc: Global,
    colours: &mut NameSet,
    guesses: &mut ColourGuesses,
    colour: &[u8],
) -> Result<u32, LineError>
    requires few { length (key_names colours.old.keys) ≤ most_uses + most_items }
    requires distinct { AreDistinct (key_names colours.old.keys) }
    ensures judged { Judged None result }
    ensures colours { OnOk result (key_names colours.new.keys ≡ with_colour (key_names colours.old.keys) colour.now) }
    ensures distinct { OnOk result (AreDistinct (key_names colours.new.keys)) }
    ensures number { IfOk result (λ n. n ≡ colour_number (key_names colours.new.keys) colour.now) }
    ensures seed { hasher_of colours.new ≡ hasher_of colours.old }
{
    if colour.is_empty() {
        return Ok(0);
    }
    if let Some(place) = known_colour(colours, guesses, colour) {
        return Ok(place as u32 + 1);
    }
    let place = add_name(alloc, colours, colour)?;
    Ok(place as u32 + 1)
}
