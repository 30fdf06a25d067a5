//! The kinds of clauses of a secondary item: its options in the order of their places by colour.
//!
//! The options of a cover that hold it are one, or have one colour. So a chosen option is at a place, and none is
//! chosen at a place before.
ghost use Rattle.std.specs.Prelude.{ℕ, ◌≡◌, ◌<◌, ◌≤◌, not, List, Some, IfSome, if◌then◌else◌};
ghost use Rattle.std.specs.List.{list_any};
ghost use Rattle.xc_input.specs.Problem.{Puzzle, IsOption, IsSecondary, colour_in, uses_of};
ghost use Rattle.xc_none.specs.Meanings.{is_placed, place_of};
ghost use Rattle.xc_none.specs.inner.Claims.{is_claimed, OneHolds};
ghost use Rattle.xc_none.specs.inner.Holders.{IsPlaceOf};

use crate::chain::chosen;
use crate::claim::Claim;
use crate::meaning::Meaning;
use xc_input::{Problem, Use};

/// A secondary item: the variables of its places begin here.
#[derive(Clone, Copy)]
pub struct Groups {
    pub item: u32,
    pub start: usize,
}

/// The colour of an item in uses, 0 for none, if they hold it.
fn colour_in(uses: &[Use], item: u32) -> Option<u32>
    ensures { result ≡ colour_in uses.now item }
{
    for u in uses {
        if u.item == item {
            return Some(u.colour);
        }
    }
    None
}

/// The place of an option by the colour that it gives an item, if it holds the item.
pub(crate) fn place_of(problem: &Problem, option: u32, item: u32) -> Option<u64>
    requires { IsOption problem.now.puzzle option }
    ensures { IfSome result (λ r. IsPlaceOf problem.now.puzzle item option r) }
{
    match colour_in(problem.option(option), item) {
        None => None,
        Some(0) => Some(u64::from(option)),
        Some(colour) => Some(u64::from(problem.options()) + u64::from(colour)),
    }
}

/// That an option up to a place is chosen, or that none is.
fn up_to(groups: Groups, at: usize, place: u64, so: bool) -> Claim
    ensures { (p : Puzzle) (s : List ℕ) → is_claimed p s result
        ≡ (if so then list_any (λ o. is_placed p place o (colour_in (uses_of p o) groups.item)) s
        else not (list_any (λ o. is_placed p place o (colour_in (uses_of p o) groups.item)) s)) }
{
    Claim {
        meaning: Meaning::UpTo(groups.item, place),
        place: groups.start.saturating_add(at),
        so,
    }
}

/// An option that is chosen is one up to its place.
pub(crate) fn enter(groups: Groups, at: usize, option: u32, place: u64) -> [Claim; 2]
    ensures { (p : Puzzle) → IsPlaceOf p groups.item option place → OneHolds p result }
{
    let x = chosen(option, false);
    let y = up_to(groups, at, place, true);
    [x, y]
}

/// One up to a place is one up to a later place.
pub(crate) fn on(groups: Groups, at: usize, before: u64, place: u64) -> [Claim; 2]
    ensures { (p : Puzzle) → before ≤ place → OneHolds p result }
{
    let x = up_to(groups, at.saturating_sub(1), before, false);
    let y = up_to(groups, at, place, true);
    [x, y]
}

/// An option is chosen only where none up to an earlier place is.
pub(crate) fn apart(groups: Groups, at: usize, before: u64, option: u32, place: u64) -> [Claim; 2]
    ensures { (p : Puzzle) → IsSecondary p groups.item → IsPlaceOf p groups.item option place → before < place
        → OneHolds p result }
{
    let x = chosen(option, false);
    let y = up_to(groups, at.saturating_sub(1), before, false);
    [x, y]
}
