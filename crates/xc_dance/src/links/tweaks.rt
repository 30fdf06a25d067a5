//! Tweaks: the option of a first node is hidden and comes back, alone or with those that were tweaked off after it.
//! That all tweaks of a level come back in one walk is Knuth's idea (untweak in Algorithm M).
//!
//! These walks are out of line and cold, since most problems have no bounds; what undoes `hide_unless` is inlined into
//! `bring_back`. Each saves 2 % of the instructions where there are bounds; that they and the walks with marks are cold
//! saves 3 % where there are none.
ghost use Rattle.std.specs.Prelude.{◌≡◌, ℕ, ◌+◌, ◌*◌, ◌<◌, ◌≤◌, ◌^◌, length, fold, reverse, false, if◌then◌else◌};
ghost use Rattle.xc_dance.specs.inner.Tables.{values, lent, lent_writes, IsRow, IsLinkRow};
ghost use Rattle.xc_dance.specs.inner.Walks.{hide_costs, CanHideNode, CanUnhideNode, unhide_costs, others_of, followed};
ghost use Rattle.xc_dance.specs.inner.Walks.{hidden_unless, unhidden_unless, brought_back, bring_back_cost};
ghost use Rattle.xc_dance.specs.inner.Walks.{CanBringBack, CanBringBackAll, bring_back_costs, IsUnmarked};

use crate::links::cells::{Cells, CellsMut, LinksMut};
use crate::links::spans::Spans;
use crate::links::steps::{hide, unhide};

/// Hides the other nodes of the option of node x, unless x's item is covered.
#[cold]
#[inline(never)]
pub(crate) fn hide_unless(
    top: &mut CellsMut<'_>,
    links: &mut LinksMut<'_>,
    color: &Cells<'_>,
    spans: &Spans,
    covered: bool,
    x: u32,
    marks: bool,
) -> u64
    requires can { covered ≡ false → (x < length spans.now)
        × CanHideNode spans.now (lent top.old links.old color.now) x }
    requires unmarked { marks ≡ false → IsUnmarked spans.now (values color.now.cells.now) }
    ensures done { lent top.new links.new color.now ≡ hidden_unless spans.now covered
        (lent top.old links.old color.now) x }
    ensures cost { result ≡ (if covered then 0 else hide_costs (lent top.old links.old color.now)
        (others_of spans.now x)) }
    ensures few { result ≤ 3 * 2 ^ 32 }
    ensures counted { lent_writes top.new links.new color.now ≡ lent_writes top.old links.old color.now + result }
    ensures rows { IsRow top.old top.new × IsLinkRow links.old links.new }
{
    if covered {
        return 0;
    }
    if marks {
        hide(top, links, color, spans, x, true)
    } else {
        hide(top, links, color, spans, x, false)
    }
}

/// Undoes `hide_unless`.
#[inline(always)]
fn put_back(
    top: &mut CellsMut<'_>,
    links: &mut LinksMut<'_>,
    color: &Cells<'_>,
    spans: &Spans,
    covered: bool,
    x: u32,
    marks: bool,
) -> u64
    requires can { covered ≡ false → (x < length spans.now)
        × CanUnhideNode spans.now (lent top.old links.old color.now) x }
    requires unmarked { marks ≡ false → IsUnmarked spans.now (values color.now.cells.now) }
    ensures done { lent top.new links.new color.now ≡ unhidden_unless spans.now covered
        (lent top.old links.old color.now) x }
    ensures cost { result ≡ (if covered then 0 else unhide_costs (lent top.old links.old color.now)
        (reverse (others_of spans.now x))) }
    ensures few { result ≤ 3 * 2 ^ 32 }
    ensures counted { lent_writes top.new links.new color.now ≡ lent_writes top.old links.old color.now + result }
    ensures rows { IsRow top.old top.new × IsLinkRow links.old links.new }
{
    if covered {
        return 0;
    }
    if marks {
        unhide(top, links, color, spans, x, true)
    } else {
        unhide(top, links, color, spans, x, false)
    }
}

/// `put_back` out of line: what calls it stays small.
#[cold]
#[inline(never)]
pub(crate) fn unhide_unless(
    top: &mut CellsMut<'_>,
    links: &mut LinksMut<'_>,
    color: &Cells<'_>,
    spans: &Spans,
    covered: bool,
    x: u32,
    marks: bool,
) -> u64
    requires can { covered ≡ false → (x < length spans.now)
        × CanUnhideNode spans.now (lent top.old links.old color.now) x }
    requires unmarked { marks ≡ false → IsUnmarked spans.now (values color.now.cells.now) }
    ensures done { lent top.new links.new color.now ≡ unhidden_unless spans.now covered
        (lent top.old links.old color.now) x }
    ensures cost { result ≡ (if covered then 0 else unhide_costs (lent top.old links.old color.now)
        (reverse (others_of spans.now x))) }
    ensures few { result ≤ 3 * 2 ^ 32 }
    ensures counted { lent_writes top.new links.new color.now ≡ lent_writes top.old links.old color.now + result }
    ensures rows { IsRow top.old top.new × IsLinkRow links.old links.new }
{
    put_back(top, links, color, spans, covered, x, marks)
}

/// One step down nodes that come back: the option of node p is put back, unless its item is covered, and what
/// is below p has p above it.
#[inline(always)]
fn bring_back_one(
    top: &mut CellsMut<'_>,
    links: &mut LinksMut<'_>,
    color: &Cells<'_>,
    spans: &Spans,
    covered: bool,
    p: u32,
    marks: bool,
) -> u64
    requires can { CanBringBack spans.now covered (lent top.old links.old color.now) p }
    requires unmarked { marks ≡ false → IsUnmarked spans.now (values color.now.cells.now) }
    ensures done { lent top.new links.new color.now ≡ brought_back spans.now covered
        (lent top.old links.old color.now) p }
    ensures cost { result ≡ bring_back_cost spans.now covered (lent top.old links.old color.now) p }
    ensures few { result ≤ 3 * 2 ^ 32 + 1 }
    ensures counted { lent_writes top.new links.new color.now ≡ lent_writes top.old links.old color.now + result }
    ensures rows { IsRow top.old top.new × IsLinkRow links.old links.new }
{
    let count = put_back(top, links, color, spans, covered, p, marks);
    let d = links.down(p);
    links.set_up(d, p);
    count + 1
}

/// k such steps, from node x on.
#[cold]
#[inline(never)]
pub(crate) fn bring_back(
    top: &mut CellsMut<'_>,
    links: &mut LinksMut<'_>,
    color: &Cells<'_>,
    spans: &Spans,
    covered: bool,
    x: u32,
    k: u32,
    marks: bool,
) -> u64
    requires many { k < 2 ^ 30 }
    requires can { CanBringBackAll spans.now covered (lent top.old links.old color.now) x
        (followed (lent top.old links.old color.now).dlink k x) }
    requires unmarked { marks ≡ false → IsUnmarked spans.now (values color.now.cells.now) }
    ensures done { lent top.new links.new color.now ≡ fold (brought_back spans.now covered)
        (lent top.old links.old color.now) (followed (lent top.old links.old color.now).dlink k x) }
    ensures cost { result ≡ bring_back_costs spans.now covered (lent top.old links.old color.now)
        (followed (lent top.old links.old color.now).dlink k x) }
    ensures few_writes { result ≤ 3 * 2 ^ 62 + 2 ^ 30 }
    ensures counted { lent_writes top.new links.new color.now ≡ lent_writes top.old links.old color.now + result }
    ensures rows { IsRow top.old top.new × IsLinkRow links.old links.new }
{
    let mut count = 0u64;
    let mut p = x;
    for _ in 0..k {
        count += bring_back_one(top, links, color, spans, covered, p, marks);
        p = links.down(p);
    }
    count
}
