//! Walks down the list of an item and back up, for Cover and Purify: what a Purify hides is decided here. The nodes of
//! a colour that is kept are marked on the way, the options of the others hidden.
//!
//! Cover and Purify have one walk, by which colour is kept, if any. It goes by the list's length: 2 % more instructions
//! than a walk that ends at the item's own node, as in Knuth's programs, and no more time.
ghost use Rattle.std.specs.Prelude.{◌≡◌, ℕ, ◌+◌, ◌-◌, ◌*◌, ◌<◌, ◌≤◌, ◌^◌, length, slice_index, fold, None, false};
ghost use Rattle.xc_dance.specs.inner.Tables.{values, lent_all, all_writes, IsRow, IsLinkRow};
ghost use Rattle.xc_dance.specs.inner.Walks.{list_of, list_back, is_kept_colour, left_node, leave_cost, back_node};
ghost use Rattle.xc_dance.specs.inner.Walks.{back_cost, CanLeave, CanReturn, walk_costs, back_costs, CanHideList};
ghost use Rattle.xc_dance.specs.inner.Walks.{CanUnhideList, IsUnmarked};

use crate::links::cells::{Cells, CellsMut, LinksMut, MARK};
use crate::links::spans::Spans;
use crate::links::steps::{hide, unhide};

/// Whether the node has the colour that is kept.
#[inline(always)]
fn is_kept(color: &Cells<'_>, p: u32, keep: Option<u32>) -> bool
    requires { p < length (values color.now.cells.now) }
    ensures { result ≡ is_kept_colour keep (slice_index (values color.now.cells.now) p) }
{
    match keep {
        Some(colour) => color.get(p) == colour,
        None => false,
    }
}

/// A step down a list at node p: a node of the colour kept is marked, the option of any other one is hidden.
#[inline(always)]
fn leave(
    top: &mut CellsMut<'_>,
    links: &mut LinksMut<'_>,
    color: &mut CellsMut<'_>,
    spans: &Spans,
    p: u32,
    keep: Option<u32>,
    marks: bool,
) -> u64
    requires can { CanLeave spans.now keep (lent_all top.old links.old color.old) p }
    requires unmarked { marks ≡ false → IsUnmarked spans.now (values color.old.cells.now) }
    ensures done { lent_all top.new links.new color.new ≡ left_node spans.now keep
        (lent_all top.old links.old color.old) p }
    ensures cost { result ≡ leave_cost spans.now keep (lent_all top.old links.old color.old) p }
    ensures few { result ≤ 3 * 2 ^ 32 }
    ensures counted { all_writes top.new links.new color.new ≡ all_writes top.old links.old color.old + result }
    ensures rows { IsRow top.old top.new × IsLinkRow links.old links.new × IsRow color.old color.new }
{
    if is_kept(&color.seen(), p, keep) {
        color.set(p, MARK);
        return 1;
    }
    hide(top, links, &color.seen(), spans, p, marks)
}

/// A step up a list at node p: a marked node gets the colour kept back, the option of any other one is put back.
#[inline(always)]
fn come_back(
    top: &mut CellsMut<'_>,
    links: &mut LinksMut<'_>,
    color: &mut CellsMut<'_>,
    spans: &Spans,
    p: u32,
    keep: Option<u32>,
    marks: bool,
) -> u64
    requires can { CanReturn spans.now keep (lent_all top.old links.old color.old) p }
    requires unmarked { marks ≡ false → IsUnmarked spans.now (values color.old.cells.now) }
    ensures done { lent_all top.new links.new color.new ≡ back_node spans.now keep
        (lent_all top.old links.old color.old) p }
    ensures cost { result ≡ back_cost spans.now keep (lent_all top.old links.old color.old) p }
    ensures few { result ≤ 3 * 2 ^ 32 }
    ensures counted { all_writes top.new links.new color.new ≡ all_writes top.old links.old color.old + result }
    ensures rows { IsRow top.old top.new × IsLinkRow links.old links.new × IsRow color.old color.new }
{
    if let Some(colour) = keep {
        if color.get(p) == MARK {
            color.set(p, colour);
            return 1;
        }
    }
    unhide(top, links, &color.seen(), spans, p, marks)
}

/// Goes down the list of item i: its nodes of the colour kept are marked, the others are hidden. It is the loop of
/// cover where no colour is kept, and of purify where one is.
#[inline(always)]
pub(crate) fn hide_list(
    top: &mut CellsMut<'_>,
    links: &mut LinksMut<'_>,
    color: &mut CellsMut<'_>,
    spans: &Spans,
    i: u32,
    keep: Option<u32>,
    marks: bool,
) -> u64
    requires can { CanHideList spans.now keep (lent_all top.old links.old color.old) i }
    requires unmarked { marks ≡ false → IsUnmarked spans.now (values color.old.cells.now) }
    requires none { marks ≡ false → keep ≡ None }
    ensures done { lent_all top.new links.new color.new ≡ fold (left_node spans.now keep)
        (lent_all top.old links.old color.old) (list_of (lent_all top.old links.old color.old) i) }
    ensures cost { result ≡ walk_costs spans.now keep (lent_all top.old links.old color.old)
        (list_of (lent_all top.old links.old color.old) i) }
    ensures few_writes { result ≤ 3 * 2 ^ 62 }
    ensures counted { all_writes top.new links.new color.new ≡ all_writes top.old links.old color.old + result }
    ensures rows { IsRow top.old top.new × IsLinkRow links.old links.new × IsRow color.old color.new }
{
    let mut count = 0u64;
    let mut p = links.down(i);
    for _ in 0..top.get(i) {
        count += leave(top, links, color, spans, p, keep, marks);
        p = links.down(p);
    }
    count
}

/// Undoes `hide_list`, from bottom to top.
#[inline(always)]
pub(crate) fn unhide_list(
    top: &mut CellsMut<'_>,
    links: &mut LinksMut<'_>,
    color: &mut CellsMut<'_>,
    spans: &Spans,
    i: u32,
    keep: Option<u32>,
    marks: bool,
) -> u64
    requires can { CanUnhideList spans.now keep (lent_all top.old links.old color.old) i }
    requires unmarked { marks ≡ false → IsUnmarked spans.now (values color.old.cells.now) }
    requires none { marks ≡ false → keep ≡ None }
    ensures done { lent_all top.new links.new color.new ≡ fold (back_node spans.now keep)
        (lent_all top.old links.old color.old) (list_back (lent_all top.old links.old color.old) i) }
    ensures cost { result ≡ back_costs spans.now keep (lent_all top.old links.old color.old)
        (list_back (lent_all top.old links.old color.old) i) }
    ensures few_writes { result ≤ 3 * 2 ^ 62 }
    ensures counted { all_writes top.new links.new color.new ≡ all_writes top.old links.old color.old + result }
    ensures rows { IsRow top.old top.new × IsLinkRow links.old links.new × IsRow color.old color.new }
{
    let mut count = 0u64;
    let mut p = links.up(i);
    for _ in 0..top.get(i) {
        count += come_back(top, links, color, spans, p, keep, marks);
        p = links.up(p);
    }
    count
}
