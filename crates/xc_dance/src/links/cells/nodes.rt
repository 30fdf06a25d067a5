//! The node table. Names and numbers of steps are those of section 7.2.2.1 of The Art of Computer Programming, Volume
//! 4B.
//!
//! TOP and COLOR are unsigned. A spacer's TOP is 2^31 plus its option's number, where Knuth has the negative number,
//! and the mark in COLOR is 2^32 - 1, where he has -1; `Links::cell` returns the signed numbers. COLOR of an item's own
//! node is returned as it is, so a Purify with colour 2^32 - 1 needs no rule of its own.
//!
//! Where no option has a colour, Cover and its undoing don't look at COLOR, which saves 7 % of a search's instructions.
//! The walks with that test are out of line and cold: else the compiler keeps the bases of the ring, the bounds and the
//! trail in memory for calls that most problems never make, 3 to 4 % of all instructions; with colours this costs 6 %.
//! A table of each node's next use, 4 bytes more a node, was slower on three of four problems.
ghost use Rattle.std.specs.Prelude.{◌≡◌, ℕ, ◌+◌, ◌-◌, ◌*◌, ◌<◌, ◌≤◌, ◌^◌, length, slice_index, slice_get, fold, None};
ghost use Rattle.std.specs.Prelude.{Some, false, if◌then◌else◌, IfOk, IsTrue, ◌↔◌};
ghost use Rattle.xc_dance.specs.inner.Tables.{columns, column_writes};
ghost use Rattle.xc_dance.specs.inner.Walks.{list_of, list_back, left_node, back_node, walk_costs, back_costs};
ghost use Rattle.xc_dance.specs.inner.Walks.{CanHideList, CanUnhideList};

use crate::links::cells::{Cell, CellsMut, Column, Link, LinkColumn, LinksMut};
use crate::links::list_walks::{hide_list, unhide_list};
use crate::links::spans::Spans;
use crate::links::steps::{relink, unlink};
use crate::links::tweaks::{bring_back, hide_unless, unhide_unless};
use std::alloc::{AllocError, Global};
use std::marker::Model;

/// The nodes, of sixteen bytes each: four cells of 32 bits, so that more of them stay near the processor. Their links
/// lie in pairs, since each step reads both; TOP and COLOR lie apart, since a walk down a list reads neither. Contracts
/// see four columns.
#[derive(Drop)]
pub(crate) struct Nodes {
    top: Column,
    links: LinkColumn,
    color: Column,
}

impl Model for Nodes {
    ghost use Rattle.xc_dance.specs.inner.Tables.{NodeTable, columns, column_writes};

    ghost Value = { NodeTable };

    ghost view = { λ a. record {
      cells = columns a.top.cells.items a.links.links.items a.color.cells.items;
      written = column_writes a.top.cells.items a.links.links.items a.color.cells.items;
    } };
}

impl Nodes {
    ghost use Rattle.xc_dance.specs.inner.Tables.{columns, entered};
    ghost use Rattle.xc_dance.specs.inner.Walks.{HasSize, list_of, list_back, left_node, back_node, walk_costs};
    ghost use Rattle.xc_dance.specs.inner.Walks.{back_costs, CanHideList, CanUnhideList, recoloured, IsUnmarked};
    ghost use Rattle.xc_dance.specs.inner.Walks.{purified_list, unpurified_list, CanPurify, CanUnpurify, tweaked_nodes};
    ghost use Rattle.xc_dance.specs.inner.Walks.{untweaked, tweak_cost, untweak_cost, CanTweak, CanUntweak};
    ghost use Rattle.xc_dance.specs.inner.Walks.{untweaked_all, untweak_all_cost, CanUntweakAll};

    /// The node table of these columns.
    pub(crate) fn of(top: Column, links: LinkColumn, color: Column) -> Nodes
        ensures { result.cells ≡ columns top.cells.items links.links.items color.cells.items }
    {
        Nodes { top, links, color }
    }

    /// TOP of node q; LEN of an item's own node.
    #[inline(always)]
    pub(crate) fn top(&self, q: u32) -> u32
        requires { q < length self.now.cells.top }
        ensures { result ≡ slice_index self.now.cells.top q }
    {
        self.top.get(q)
    }

    /// The same by an index.
    #[inline(always)]
    pub(crate) fn top_at(&self, q: usize) -> u32
        requires { q < length self.now.cells.top }
        ensures { result ≡ slice_index self.now.cells.top q }
    {
        self.top.get_at(q)
    }

    /// ULINK of node q.
    #[inline(always)]
    pub(crate) fn ulink(&self, q: u32) -> u32
        requires { q < length self.now.cells.ulink }
        ensures { result ≡ slice_index self.now.cells.ulink q }
    {
        self.links.up(q)
    }

    /// DLINK of node q.
    #[inline(always)]
    pub(crate) fn dlink(&self, q: u32) -> u32
        requires { q < length self.now.cells.dlink }
        ensures { result ≡ slice_index self.now.cells.dlink q }
    {
        self.links.down(q)
    }

    /// COLOR of node q.
    #[inline(always)]
    pub(crate) fn color(&self, q: u32) -> u32
        requires { q < length self.now.cells.color }
        ensures { result ≡ slice_index self.now.cells.color q }
    {
        self.color.get(q)
    }

    /// TOP of the node at a place, if there is one.
    pub(crate) fn read_top(&self, q: u32) -> Option<u32>
        ensures { result ≡ slice_get self.now.cells.top q }
    {
        self.top.read(q)
    }

    /// ULINK of the node at a place, if there is one.
    pub(crate) fn read_ulink(&self, q: u32) -> Option<u32>
        ensures { result ≡ slice_get self.now.cells.ulink q }
    {
        self.links.read_up(q)
    }

    /// DLINK of the node at a place, if there is one.
    pub(crate) fn read_dlink(&self, q: u32) -> Option<u32>
        ensures { result ≡ slice_get self.now.cells.dlink q }
    {
        self.links.read_down(q)
    }

    /// COLOR of the node at a place, if there is one.
    pub(crate) fn read_color(&self, q: u32) -> Option<u32>
        ensures { result ≡ slice_get self.now.cells.color q }
    {
        self.color.read(q)
    }

    /// Makes node q, which leads to its item's own node downwards, the last of its item's list.
    pub(crate) fn enter(&mut self, q: u32)
        requires size { HasSize self.old.cells (length self.old.cells.top) }
        requires place { q < length self.old.cells.top }
        requires item { slice_index self.old.cells.top q < length self.old.cells.top }
        requires last { slice_index self.old.cells.ulink (slice_index self.old.cells.top q)
            < length self.old.cells.top }
        requires few { slice_index self.old.cells.top (slice_index self.old.cells.top q) < 2 ^ 31 }
        ensures { self.new.cells ≡ entered self.old.cells q }
    {
        let i = self.top.get(q);
        let last = self.links.up(i);
        self.links.set_up(q, last);
        self.links.set_up(i, q);
        self.links.set_down(last, q);
        let count = self.top.get(i);
        self.top.set(i, count + 1);
    }

    /// Whether all cells are equal.
    pub(crate) fn same(&self, other: &Nodes) -> bool
        ensures { IsTrue result ↔ (self.now.cells ≡ other.now.cells) }
    {
        self.top.same(&other.top) && self.links.same(&other.links) && self.color.same(&other.color)
    }

    /// Hides all nodes of item i's list, as cover, (12), does from top to bottom.
    #[inline(always)]
    pub(crate) fn cover(&mut self, spans: &Spans, i: u32, marks: bool) -> u64
        requires can { CanHideList spans.now None self.old.cells i }
        requires unmarked { marks ≡ false → IsUnmarked spans.now self.old.cells.color }
        ensures done { self.new.cells ≡ fold (left_node spans.now None) self.old.cells (list_of self.old.cells i) }
        ensures cost { result ≡ walk_costs spans.now None self.old.cells (list_of self.old.cells i) }
        ensures few_writes { result ≤ 3 * 2 ^ 62 }
        ensures counted { self.new.written ≡ self.old.written + result }
    {
        let top = self.top.cells.as_mut_slice();
        let links = self.links.links.as_mut_slice();
        let color = self.color.cells.as_mut_slice();
        if marks {
            return hide_among_marks(top, links, color, spans, i, None);
        }
        let mut top = CellsMut { cells: &mut *top };
        let mut links = LinksMut { links: &mut *links };
        let mut color = CellsMut { cells: &mut *color };
        hide_list(&mut top, &mut links, &mut color, spans, i, None, false)
    }

    /// Undoes `cover`, as uncover, (14), does from bottom to top, so that each node finds its neighbours of before.
    #[inline(always)]
    pub(crate) fn uncover(&mut self, spans: &Spans, i: u32, marks: bool) -> u64
        requires can { CanUnhideList spans.now None self.old.cells i }
        requires unmarked { marks ≡ false → IsUnmarked spans.now self.old.cells.color }
        ensures done { self.new.cells ≡ fold (back_node spans.now None) self.old.cells (list_back self.old.cells i) }
        ensures cost { result ≡ back_costs spans.now None self.old.cells (list_back self.old.cells i) }
        ensures few_writes { result ≤ 3 * 2 ^ 62 }
        ensures counted { self.new.written ≡ self.old.written + result }
    {
        let top = self.top.cells.as_mut_slice();
        let links = self.links.links.as_mut_slice();
        let color = self.color.cells.as_mut_slice();
        if marks {
            return unhide_among_marks(top, links, color, spans, i, None);
        }
        let mut top = CellsMut { cells: &mut *top };
        let mut links = LinksMut { links: &mut *links };
        let mut color = CellsMut { cells: &mut *color };
        unhide_list(&mut top, &mut links, &mut color, spans, i, None, false)
    }

    /// Purifies item i with the colour c, as Algorithm C does. The colour is at the item's own node, so that it can
    /// be read whether an item is purified.
    #[inline(always)]
    pub(crate) fn purify(&mut self, spans: &Spans, i: u32, c: u32) -> u64
        requires can { CanPurify spans.now c self.old.cells i }
        ensures done { self.new.cells ≡ purified_list spans.now c self.old.cells i }
        ensures cost { result ≡ walk_costs spans.now (Some c) (recoloured self.old.cells i c)
            (list_of self.old.cells i) + 1 }
        ensures counted { self.new.written ≡ self.old.written + result }
    {
        self.color.set(i, c);
        let top = self.top.cells.as_mut_slice();
        let links = self.links.links.as_mut_slice();
        let color = self.color.cells.as_mut_slice();
        hide_among_marks(top, links, color, spans, i, Some(c)) + 1
    }

    /// Undoes `purify`, as unpurify does from bottom to top.
    #[inline(always)]
    pub(crate) fn unpurify(&mut self, spans: &Spans, i: u32, c: u32) -> u64
        requires can { CanUnpurify spans.now c self.old.cells i }
        ensures done { self.new.cells ≡ unpurified_list spans.now c self.old.cells i }
        ensures cost { result ≡ back_costs spans.now (Some c) self.old.cells (list_back self.old.cells i) + 1 }
        ensures counted { self.new.written ≡ self.old.written + result }
    {
        let top = self.top.cells.as_mut_slice();
        let links = self.links.links.as_mut_slice();
        let color = self.color.cells.as_mut_slice();
        let count = unhide_among_marks(top, links, color, spans, i, Some(c));
        // 0 again, so that an item is open exactly if it is in its ring and this cell is 0.
        self.color.set(i, 0);
        count + 1
    }

    /// Takes the first node off the list of item i, and hides its option unless i is covered: tweak of Algorithm M, and
    /// tweak' where i is covered. The node keeps its links.
    #[inline(always)]
    pub(crate) fn tweak(&mut self, spans: &Spans, covered: bool, i: u32, marks: bool) -> u64
        requires can { CanTweak spans.now covered self.old.cells i }
        requires unmarked { marks ≡ false → IsUnmarked spans.now self.old.cells.color }
        ensures done { self.new.cells ≡ tweaked_nodes spans.now covered self.old.cells i }
        ensures cost { result ≡ tweak_cost spans.now covered self.old.cells i }
        ensures counted { self.new.written ≡ self.old.written + result }
    {
        let x = self.dlink(i);
        let top = self.top.cells.as_mut_slice();
        let links = self.links.links.as_mut_slice();
        let mut top = CellsMut { cells: &mut *top };
        let mut links = LinksMut { links: &mut *links };
        let color = &self.color.seen();
        let count = hide_unless(&mut top, &mut links, color, spans, covered, x, marks);
        unlink(&mut top, &mut links, color, x as usize);
        count + 3
    }

    /// Puts node x, which a Tweak took off, back.
    #[inline(always)]
    pub(crate) fn untweak(&mut self, spans: &Spans, covered: bool, x: u32, marks: bool) -> u64
        requires can { CanUntweak spans.now covered self.old.cells x }
        requires unmarked { marks ≡ false → IsUnmarked spans.now self.old.cells.color }
        ensures done { self.new.cells ≡ untweaked spans.now covered self.old.cells x }
        ensures cost { result ≡ untweak_cost spans.now covered self.old.cells x }
        ensures counted { self.new.written ≡ self.old.written + result }
    {
        let top = self.top.cells.as_mut_slice();
        let links = self.links.links.as_mut_slice();
        let mut top = CellsMut { cells: &mut *top };
        let mut links = LinksMut { links: &mut *links };
        let color = &self.color.seen();
        relink(&mut top, &mut links, color, x as usize);
        let count = unhide_unless(&mut top, &mut links, color, spans, covered, x, marks);
        count + 3
    }

    /// Undoes k Tweaks of item i, x being the first node that they took off. It is untweak of Algorithm M: DLINK of
    /// each node still leads to the next that was taken off, so one walk down brings all of them back.
    #[inline(always)]
    pub(crate) fn untweak_all(
        &mut self,
        spans: &Spans,
        covered: bool,
        i: u32,
        x: u32,
        k: u32,
        marks: bool,
    ) -> u64
        requires can { CanUntweakAll spans.now covered self.old.cells i x k }
        requires unmarked { marks ≡ false → IsUnmarked spans.now self.old.cells.color }
        ensures done { self.new.cells ≡ untweaked_all spans.now covered self.old.cells i x k }
        ensures cost { result ≡ untweak_all_cost spans.now covered self.old.cells i x k }
        ensures counted { self.new.written ≡ self.old.written + result }
    {
        let top = self.top.cells.as_mut_slice();
        let links = self.links.links.as_mut_slice();
        let mut top = CellsMut { cells: &mut *top };
        let mut links = LinksMut { links: &mut *links };
        let color = &self.color.seen();
        links.set_down(i, x);
        let count = bring_back(&mut top, &mut links, color, spans, covered, x, k, marks);
        let len = top.get(i);
        top.set(i, len + k);
        count + 2
    }
}

/// `hide_list` with the test for marks, out of line: callers stay small. It takes slices, and not borrowed cells:
/// then the search's loop holds the lengths of the columns as values, and the compiler spills fewer of the others.
#[cold]
#[inline(never)]
fn hide_among_marks(
    top: &mut [Cell],
    links: &mut [Link],
    color: &mut [Cell],
    spans: &Spans,
    i: u32,
    keep: Option<u32>,
) -> u64
    requires { CanHideList spans.now keep (columns top.old links.old color.old) i }
    ensures done { columns top.new links.new color.new ≡ fold (left_node spans.now keep)
        (columns top.old links.old color.old) (list_of (columns top.old links.old color.old) i) }
    ensures cost { result ≡ walk_costs spans.now keep (columns top.old links.old color.old)
        (list_of (columns top.old links.old color.old) i) }
    ensures few_writes { result ≤ 3 * 2 ^ 62 }
    ensures counted { column_writes top.new links.new color.new ≡ column_writes top.old links.old color.old + result }
{
    let mut top = CellsMut { cells: &mut *top };
    let mut links = LinksMut { links: &mut *links };
    let mut color = CellsMut { cells: &mut *color };
    hide_list(&mut top, &mut links, &mut color, spans, i, keep, true)
}

/// Undoes `hide_among_marks`.
#[cold]
#[inline(never)]
fn unhide_among_marks(
    top: &mut [Cell],
    links: &mut [Link],
    color: &mut [Cell],
    spans: &Spans,
    i: u32,
    keep: Option<u32>,
) -> u64
    requires { CanUnhideList spans.now keep (columns top.old links.old color.old) i }
    ensures done { columns top.new links.new color.new ≡ fold (back_node spans.now keep)
        (columns top.old links.old color.old) (list_back (columns top.old links.old color.old) i) }
    ensures cost { result ≡ back_costs spans.now keep (columns top.old links.old color.old)
        (list_back (columns top.old links.old color.old) i) }
    ensures few_writes { result ≤ 3 * 2 ^ 62 }
    ensures counted { column_writes top.new links.new color.new ≡ column_writes top.old links.old color.old + result }
{
    let mut top = CellsMut { cells: &mut *top };
    let mut links = LinksMut { links: &mut *links };
    let mut color = CellsMut { cells: &mut *color };
    unhide_list(&mut top, &mut links, &mut color, spans, i, keep, true)
}
