//! Keepers, and what they show.
ghost use Rattle.xc_input.specs.Problem.{IsItem};

use crate::fixtures::read;
use std::alloc::Global;
use xc_dance::{Dance, Links, Lists, Move, list_of};
use xc_input::Kind;

pub fn links(alloc: Global, kind: Kind, text: &[u8], room: usize) -> Option<Links> {
    let problem = read(alloc, kind, text, 100).ok()?.problem;
    Links::new(alloc, &problem, room).ok()
}

pub fn lists(alloc: Global, kind: Kind, text: &[u8], room: usize) -> Option<Lists> {
    let problem = read(alloc, kind, text, 100).ok()?.problem;
    Lists::new(alloc, &problem, room).ok()
}

/// Does the work on two keepers that were made, by a row of a table. They are of any type, so that their
/// drops are proved here.
pub fn on_two<D: Drop, T, F: FnOnce(&mut D, &mut D, &T) -> bool>(
    made: Option<D>,
    other: Option<D>,
    row: &T,
    work: F,
) -> bool
    requires { F.IsAlwaysCallable work }
{
    match (made, other) {
        (Some(mut one), Some(mut two)) => work(&mut one, &mut two, row),
        _ => false,
    }
}

/// What is left of the upper bound of a primary item; 0 for another item.
pub fn bound<D: Dance>(dance: &D, i: u32) -> u32 {
    if dance.can(&Move::Spend(i)) {
        dance.bound(i)
    } else {
        0
    }
}

/// Whether none of these moves is legal.
pub fn refuses<D: Dance>(dance: &D, moves: &[Move]) -> bool {
    for m in moves {
        if dance.can(m) {
            return false;
        }
    }
    true
}

/// Whether the item's list is this one, from top to bottom.
fn is_list<D: Dance>(dance: &D, i: u32, wanted: &[u32]) -> bool
    requires { IsItem (D.state dance.now).puzzle i }
{
    let mut at = dance.first(i);
    for o in wanted {
        if at != Some(*o) {
            return false;
        }
        at = dance.below(i, *o);
    }
    at.is_none() && dance.len(i) as usize == wanted.len()
}

/// Whether the items up to the last have these lists.
pub fn are_lists<D: Dance>(dance: &D, last: u32, wanted: &[&[u32]]) -> bool
    requires { IsItem (D.state dance.now).puzzle last }
{
    for (before, list) in wanted.iter().enumerate() {
        let i = u32::try_from(before + 1).unwrap_or(0);
        if i == 0
            || i > last
            || !is_list(dance, i, *list)
            || !list_of(dance, i).eq(list.iter().copied())
        {
            return false;
        }
    }
    true
}

/// Whether these primary items are open, and no other.
pub fn are_open<D: Dance>(dance: &D, wanted: &[u32]) -> bool {
    let mut next = dance.open_after(0);
    for i in wanted {
        if next != Some(*i) {
            return false;
        }
        next = dance.open_after(*i);
    }
    next.is_none()
}
