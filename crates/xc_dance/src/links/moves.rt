//! The four moves as functions of the two tables, and the nodes that Tweaks took off.
//!
//! Undoing tests for a Cover and then for a Spend, which are nearly all that a search undoes; of one match over four
//! moves the compiler makes a table of jumps. Tried at an undoing and not faster: a look for a Spend below each move, a
//! test for a Spend alone, and two moves of an item at once.
ghost use Rattle.xc_dance.specs.inner.Walks.{CanMake, CanUnmake, nodes_made, items_made, nodes_unmade, items_unmade};
ghost use Rattle.xc_dance.specs.inner.Walks.{made_cost, unmade_cost, IsUnmarked};
ghost use Rattle.xc_dance.specs.inner.Tables.{CanNote, noted, CanRecall, IsRecalled};
ghost use Rattle.std.specs.Prelude.{◌≡◌, false, ◌+◌, ◌<◌, length, vec_capacity};

use crate::links::cells::{Items, Nodes};
use crate::links::spans::Spans;
use xc_moves::Move;

/// Makes a move on the tables. A search takes it in, knows the kind of the move there, and a Spend is one write in
/// place.
#[inline(always)]
pub(crate) fn make(nodes: &mut Nodes, items: &mut Items, spans: &Spans, m: Move, marks: bool) -> u64
    requires can { CanMake spans.now nodes.old.cells items.old.cells m }
    requires unmarked { marks ≡ false → IsUnmarked spans.now nodes.old.cells.color }
    ensures nodes { nodes.new.cells ≡ nodes_made spans.now nodes.old.cells items.old.cells m }
    ensures items { items.new.cells ≡ items_made items.old.cells m }
    ensures cost { result ≡ made_cost spans.now nodes.old.cells items.old.cells m }
    ensures counted { nodes.new.written + items.new.written ≡ nodes.old.written + items.old.written + result }
{
    match m {
        Move::Cover(i) => {
            let count = nodes.cover(spans, i, marks);
            items.unlink(i);
            count + 2
        }
        Move::Purify(i, c) => nodes.purify(spans, i, c),
        Move::Tweak(i) => {
            let covered = items.is_off(i);
            nodes.tweak(spans, covered, i, marks)
        }
        Move::Spend(i) => {
            items.spend(i);
            1
        }
    }
}

/// Undoes a move on the tables. `x` is the node that it took off, if it is a Tweak.
#[inline(always)]
pub(crate) fn unmake(
    nodes: &mut Nodes,
    items: &mut Items,
    spans: &Spans,
    m: Move,
    x: u32,
    marks: bool,
) -> u64
    requires can { CanUnmake spans.now nodes.old.cells items.old.cells m x }
    requires unmarked { marks ≡ false → IsUnmarked spans.now nodes.old.cells.color }
    ensures nodes { nodes.new.cells ≡ nodes_unmade spans.now nodes.old.cells items.old.cells m x }
    ensures items { items.new.cells ≡ items_unmade items.old.cells m }
    ensures cost { result ≡ unmade_cost spans.now nodes.old.cells items.old.cells m x }
    ensures counted { nodes.new.written + items.new.written ≡ nodes.old.written + items.old.written + result }
{
    // Of four arms the compiler makes a table of jumps. These two are nearly all that a search undoes, each by a test.
    if let Move::Cover(i) = m {
        items.relink(i);
        let count = nodes.uncover(spans, i, marks);
        return count + 2;
    }
    if let Move::Spend(i) = m {
        items.unspend(i);
        return 1;
    }
    match m {
        Move::Purify(i, c) => nodes.unpurify(spans, i, c),
        Move::Tweak(i) => {
            let covered = items.is_off(i);
            nodes.untweak(spans, covered, x, marks)
        }
        Move::Cover(_) | Move::Spend(_) => unreachable!(),
    }
}

/// Notes the node that the move will take off, if it is a Tweak.
#[inline(always)]
pub(crate) fn note(taken: &mut Vec<u32>, nodes: &Nodes, m: Move)
    requires can { CanNote nodes.now.cells m }
    requires room { length taken.old.items < vec_capacity taken.old }
    ensures items { taken.new.items ≡ noted taken.old.items nodes.now.cells m }
    ensures capacity { vec_capacity taken.new ≡ vec_capacity taken.old }
{
    if let Move::Tweak(i) = m {
        taken.push_reserved(nodes.dlink(i));
    }
}

/// The node that the move took off, if it is a Tweak.
#[inline(always)]
pub(crate) fn recall(taken: &mut Vec<u32>, m: Move) -> u32
    requires { CanRecall taken.old.items m }
    ensures items { IsRecalled taken.old.items taken.new.items m result }
    ensures capacity { vec_capacity taken.new ≡ vec_capacity taken.old }
{
    if let Move::Tweak(_) = m {
        if let Some(x) = taken.pop() {
            return x;
        }
    }
    0
}
