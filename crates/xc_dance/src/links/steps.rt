//! Steps over the nodes of one option: hide and unhide, which make links dance (Hitotumatu and Noshita, 1979; named by
//! Knuth, 2000). The compiler's output has eleven instructions for a node that is hidden or comes back, with four loads
//! and three stores, no bounds check and no call.
//!
//! Hide has two loops, over the nodes after p and over those before it, where Knuth's has one that turns at the spacer.
//! Walks go over indices of 64 bits: with places of 32 bits the compiler counts beside three bases, 5 % more
//! instructions. That the item of a node is read after the writes to its neighbours saves 2 %.
ghost use Rattle.std.specs.Prelude.{◌≡◌, ◌≢◌, false, ℕ, ◌+◌, ◌-◌, ◌*◌, ◌<◌, ◌≤◌, ◌^◌, length, slice_index, fold};
ghost use Rattle.std.specs.Prelude.{reverse};
ghost use Rattle.xc_dance.specs.inner.Tables.{values, lent, lent_writes, IsRow, IsLinkRow};
ghost use Rattle.xc_dance.specs.inner.Walks.{HasSize, NamesPlaces, unlinked, relinked, hidden, hide_cost, hide_costs};
ghost use Rattle.xc_dance.specs.inner.Walks.{CanHide, CanHideAll, places, unhidden, CanUnhide, CanUnhideAll};
ghost use Rattle.xc_dance.specs.inner.Walks.{unhide_costs, others_of, hidden_node, unhidden_node, CanHideNode};
ghost use Rattle.xc_dance.specs.inner.Walks.{CanUnhideNode, AreUnmarked, IsUnmarked};
ghost use Rattle.xc_dance.specs.declared.links.cells.marks.TheConstants.{MARK};

use crate::links::cells::{Cells, CellsMut, LinksMut, MARK, SPACER};
use crate::links::spans::Spans;

/// Takes node q out of its list.
#[inline(always)]
pub(crate) fn unlink(top: &mut CellsMut<'_>, links: &mut LinksMut<'_>, color: &Cells<'_>, q: usize)
    requires size { HasSize (lent top.old links.old color.now) (length (lent top.old links.old color.now).top) }
    requires places { NamesPlaces (lent top.old links.old color.now) q }
    requires some { 0 < slice_index (lent top.old links.old color.now).top
        (slice_index (lent top.old links.old color.now).top q) }
    ensures done { lent top.new links.new color.now ≡ unlinked (lent top.old links.old color.now) q }
    ensures counted { lent_writes top.new links.new color.now ≡ lent_writes top.old links.old color.now + 3 }
    ensures rows { IsRow top.old top.new × IsLinkRow links.old links.new }
{
    let u = links.up_at(q);
    let d = links.down_at(q);
    links.set_down_at(u as usize, d);
    links.set_up_at(d as usize, u);
    // Read after these writes, so that nothing is kept over them.
    let i = top.get_at(q) as usize;
    let count = top.get_at(i);
    top.set_at(i, count - 1);
}

/// Puts node q back into its list.
#[inline(always)]
pub(crate) fn relink(top: &mut CellsMut<'_>, links: &mut LinksMut<'_>, color: &Cells<'_>, q: usize)
    requires size { HasSize (lent top.old links.old color.now) (length (lent top.old links.old color.now).top) }
    requires places { NamesPlaces (lent top.old links.old color.now) q }
    requires few { slice_index (lent top.old links.old color.now).top
        (slice_index (lent top.old links.old color.now).top q) < 2 ^ 31 }
    requires near { q < 2 ^ 32 }
    ensures done { lent top.new links.new color.now ≡ relinked (lent top.old links.old color.now) q }
    ensures counted { lent_writes top.new links.new color.now ≡ lent_writes top.old links.old color.now + 3 }
    ensures rows { IsRow top.old top.new × IsLinkRow links.old links.new }
{
    let u = links.up_at(q) as usize;
    let d = links.down_at(q) as usize;
    links.set_down_at(u, q as u32);
    links.set_up_at(d, q as u32);
    let i = top.get_at(q) as usize;
    let count = top.get_at(i);
    top.set_at(i, count + 1);
}

/// A step of hide. `marks` says whether a node of an option may be marked. It is a constant where this is inlined, so
/// that there are two loops, one without the test.
#[inline(always)]
fn hide_one(
    top: &mut CellsMut<'_>,
    links: &mut LinksMut<'_>,
    color: &Cells<'_>,
    q: usize,
    marks: bool,
) -> u64
    requires can { CanHide (lent top.old links.old color.now) q }
    requires unmarked { marks ≡ false → slice_index (values color.now.cells.now) q ≢ MARK }
    ensures done { lent top.new links.new color.now ≡ hidden (lent top.old links.old color.now) q }
    ensures cost { result ≡ hide_cost (lent top.old links.old color.now) q }
    ensures counted { lent_writes top.new links.new color.now ≡ lent_writes top.old links.old color.now + result }
    ensures rows { IsRow top.old top.new × IsLinkRow links.old links.new }
{
    if marks && color.get_at(q) == MARK {
        0
    } else {
        unlink(top, links, color, q);
        3
    }
}

/// Steps of hide at the places from a to below b.
#[inline(always)]
#[tactic(auto, using(crate::proofs::WalkLemmas::places_more, crate::proofs::WalkLemmas::step_can, crate::proofs::WalkLemmas::step_on))]
fn hide_range(
    top: &mut CellsMut<'_>,
    links: &mut LinksMut<'_>,
    color: &Cells<'_>,
    a: usize,
    b: usize,
    marks: bool,
) -> u64
    requires can { CanHideAll (lent top.old links.old color.now) (places a b) }
    requires unmarked { marks ≡ false → AreUnmarked (values color.now.cells.now) a b }
    requires near { b ≤ 2 ^ 32 }
    ensures done { lent top.new links.new color.now ≡ fold hidden (lent top.old links.old color.now)
        (places a b) }
    ensures cost { result ≡ hide_costs (lent top.old links.old color.now) (places a b) }
    ensures counted { lent_writes top.new links.new color.now ≡ lent_writes top.old links.old color.now + result }
    ensures rows { IsRow top.old top.new × IsLinkRow links.old links.new }
    ensures few { result ≤ 3 * (b - a) }
{
    let mut count = 0u64;
    for q in a..b {
        count += hide_one(top, links, color, q, marks);
    }
    count
}

/// Hides the other nodes of the option of node p, as hide, (13), does, and hide' of Algorithm C, which passes over
/// marked nodes: from after p to the spacer, which leads to the option's first node, and from there to before p.
#[inline(always)]
pub(crate) fn hide(
    top: &mut CellsMut<'_>,
    links: &mut LinksMut<'_>,
    color: &Cells<'_>,
    spans: &Spans,
    p: u32,
    marks: bool,
) -> u64
    requires span { p < length spans.now }
    requires can { CanHideNode spans.now (lent top.old links.old color.now) p }
    requires unmarked { marks ≡ false → IsUnmarked spans.now (values color.now.cells.now) }
    ensures done { lent top.new links.new color.now ≡ hidden_node spans.now (lent top.old links.old color.now) p }
    ensures cost { result ≡ hide_costs (lent top.old links.old color.now) (others_of spans.now p) }
    ensures few { result ≤ 3 * 2 ^ 32 }
    ensures counted { lent_writes top.new links.new color.now ≡ lent_writes top.old links.old color.now + result }
    ensures rows { IsRow top.old top.new × IsLinkRow links.old links.new }
{
    let mut above = 0u64;
    let mut q = p as usize + 1;
    while top.get_at(q) < SPACER {
        above += hide_one(top, links, color, q, marks);
        q += 1;
    }
    let first = links.up_at(q) as usize;
    let below = hide_range(top, links, color, first, p as usize, marks);
    above + below
}

/// A step of unhide.
#[inline(always)]
fn unhide_one(
    top: &mut CellsMut<'_>,
    links: &mut LinksMut<'_>,
    color: &Cells<'_>,
    q: usize,
    marks: bool,
) -> u64
    requires can { CanUnhide (lent top.old links.old color.now) q }
    requires unmarked { marks ≡ false → slice_index (values color.now.cells.now) q ≢ MARK }
    requires near { q < 2 ^ 32 }
    ensures done { lent top.new links.new color.now ≡ unhidden (lent top.old links.old color.now) q }
    ensures cost { result ≡ hide_cost (lent top.old links.old color.now) q }
    ensures counted { lent_writes top.new links.new color.now ≡ lent_writes top.old links.old color.now + result }
    ensures rows { IsRow top.old top.new × IsLinkRow links.old links.new }
{
    if marks && color.get_at(q) == MARK {
        0
    } else {
        relink(top, links, color, q);
        3
    }
}

/// Steps of unhide at the places from below b down to a.
#[inline(always)]
#[tactic(auto, using(crate::proofs::WalkLemmas::last_first, crate::proofs::WalkLemmas::step_can, crate::proofs::WalkLemmas::step_on))]
fn unhide_range(
    top: &mut CellsMut<'_>,
    links: &mut LinksMut<'_>,
    color: &Cells<'_>,
    a: usize,
    b: usize,
    marks: bool,
) -> u64
    requires can { CanUnhideAll (lent top.old links.old color.now) (reverse (places a b)) }
    requires unmarked { marks ≡ false → AreUnmarked (values color.now.cells.now) a b }
    requires near { b ≤ 2 ^ 32 }
    ensures done { lent top.new links.new color.now ≡ fold unhidden (lent top.old links.old color.now)
        (reverse (places a b)) }
    ensures cost { result ≡ unhide_costs (lent top.old links.old color.now) (reverse (places a b)) }
    ensures counted { lent_writes top.new links.new color.now ≡ lent_writes top.old links.old color.now + result }
    ensures rows { IsRow top.old top.new × IsLinkRow links.old links.new }
    ensures few { result ≤ 3 * (b - a) }
{
    let mut count = 0u64;
    for q in (a..b).rev() {
        count += unhide_one(top, links, color, q, marks);
    }
    count
}

/// Puts back what `hide` took out, as unhide, (15), does, from the last back, so that each node finds its neighbours of
/// before: the spacer before the option leads to its last node.
// A function of its own, as in the book: one walk over a direction would have contracts by cases, and half of it to be
// turned round in mind.
#[inline(always)]
pub(crate) fn unhide(
    top: &mut CellsMut<'_>,
    links: &mut LinksMut<'_>,
    color: &Cells<'_>,
    spans: &Spans,
    p: u32,
    marks: bool,
) -> u64
    requires span { p < length spans.now }
    requires can { CanUnhideNode spans.now (lent top.old links.old color.now) p }
    requires unmarked { marks ≡ false → IsUnmarked spans.now (values color.now.cells.now) }
    ensures done { lent top.new links.new color.now ≡ unhidden_node spans.now
        (lent top.old links.old color.now) p }
    ensures cost { result ≡ unhide_costs (lent top.old links.old color.now) (reverse (others_of spans.now p)) }
    ensures few { result ≤ 3 * 2 ^ 32 }
    ensures counted { lent_writes top.new links.new color.now ≡ lent_writes top.old links.old color.now + result }
    ensures rows { IsRow top.old top.new × IsLinkRow links.old links.new }
{
    let mut below = 0u64;
    let mut q = p as usize - 1;
    while top.get_at(q) < SPACER {
        below += unhide_one(top, links, color, q, marks);
        q -= 1;
    }
    let end = links.down_at(q) as usize + 1;
    let above = unhide_range(top, links, color, p as usize + 1, end, marks);
    below + above
}
