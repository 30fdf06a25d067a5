//! The item table.
//!
//! LLINK and RLINK are two columns. One column of pairs, as the nodes have it, was tried and is not faster.
ghost use Rattle.std.specs.Prelude.{◌≡◌, ℕ, ◌+◌, ◌-◌, ◌^◌, ◌<◌, ◌≤◌, List, length, slice_index, slice_set, replicate};
ghost use Rattle.std.specs.Prelude.{IfOk, IsTrue, ◌↔◌, slice_get};

use crate::links::cells::Column;
use std::alloc::{AllocError, Global};
use std::marker::Model;

/// The items, by column. The last two columns are the primary items'.
#[derive(Drop)]
pub(crate) struct Items {
    llink: Column,
    rlink: Column,
    bound: Column,
    slack: Column,
}

impl Model for Items {
    ghost use Rattle.std.specs.Prelude.{◌+◌};
    ghost use Rattle.xc_dance.specs.inner.Tables.{ItemTable, values, writes};

    ghost Value = { ItemTable };

    ghost view = { λ a. record {
      cells = record {
        llink = values a.llink.cells.items;
        rlink = values a.rlink.cells.items;
        bound = values a.bound.cells.items;
        slack = values a.slack.cells.items;
      };
      written = writes a.llink.cells.items + writes a.rlink.cells.items + writes a.bound.cells.items
          + writes a.slack.cells.items;
    } };
}

impl Items {
    ghost use Rattle.xc_dance.specs.inner.Tables.{left_ring, back_in_ring, with_bound, is_off};

    /// Items whose cells are all 0.
    pub(crate) fn new(alloc: Global, items: u32, primary: u32) -> Result<Items, AllocError>
        ensures { IfOk result (λ t. t.cells ≡ record {
          llink = replicate (items + 2) 0;
          rlink = replicate (items + 2) 0;
          bound = replicate (primary + 1) 0;
          slack = replicate (primary + 1) 0;
        }) }
    {
        let places = items as usize + 2;
        let bounds = primary as usize + 1;
        Ok(Items {
            llink: Column::new(alloc, places)?,
            rlink: Column::new(alloc, places)?,
            bound: Column::new(alloc, bounds)?,
            slack: Column::new(alloc, bounds)?,
        })
    }

    /// RLINK of item i.
    #[inline(always)]
    pub(crate) fn rlink(&self, i: u32) -> u32
        requires { i < length self.now.cells.rlink }
        ensures { result ≡ slice_index self.now.cells.rlink i }
    {
        self.rlink.get(i)
    }

    /// BOUND of item i.
    #[inline(always)]
    pub(crate) fn bound(&self, i: u32) -> u32
        requires { i < length self.now.cells.bound }
        ensures { result ≡ slice_index self.now.cells.bound i }
    {
        self.bound.get(i)
    }

    /// LLINK at a place, if there is one.
    pub(crate) fn read_llink(&self, i: u32) -> Option<u32>
        ensures { result ≡ slice_get self.now.cells.llink i }
    {
        self.llink.read(i)
    }

    /// RLINK at a place, if there is one.
    pub(crate) fn read_rlink(&self, i: u32) -> Option<u32>
        ensures { result ≡ slice_get self.now.cells.rlink i }
    {
        self.rlink.read(i)
    }

    /// BOUND at a place, if there is one.
    pub(crate) fn read_bound(&self, i: u32) -> Option<u32>
        ensures { result ≡ slice_get self.now.cells.bound i }
    {
        self.bound.read(i)
    }

    /// SLACK at a place, if there is one.
    pub(crate) fn read_slack(&self, i: u32) -> Option<u32>
        ensures { result ≡ slice_get self.now.cells.slack i }
    {
        self.slack.read(i)
    }

    /// Writes the links of item i.
    pub(crate) fn set_links(&mut self, i: u32, left: u32, right: u32)
        requires place { (i < length self.old.cells.llink) × (i < length self.old.cells.rlink) }
        ensures { self.new.cells ≡ record self.old.cells {
          llink = slice_set self.old.cells.llink i left;
          rlink = slice_set self.old.cells.rlink i right;
        } }
    {
        self.llink.set(i, left);
        self.rlink.set(i, right);
    }

    /// Writes the bound and the slack of item i.
    pub(crate) fn set_bounds(&mut self, i: u32, bound: u32, slack: u32)
        requires place { (i < length self.old.cells.bound) × (i < length self.old.cells.slack) }
        ensures { self.new.cells ≡ record self.old.cells {
          bound = slice_set self.old.cells.bound i bound;
          slack = slice_set self.old.cells.slack i slack;
        } }
    {
        self.bound.set(i, bound);
        self.slack.set(i, slack);
    }

    /// Whether all cells are equal.
    pub(crate) fn same(&self, other: &Items) -> bool
        ensures { IsTrue result ↔ (self.now.cells ≡ other.now.cells) }
    {
        self.llink.same(&other.llink)
            && self.rlink.same(&other.rlink)
            && self.bound.same(&other.bound)
            && self.slack.same(&other.slack)
    }

    /// Takes item i out of its ring.
    #[inline(always)]
    pub(crate) fn unlink(&mut self, i: u32)
        requires place { (i < length self.old.cells.llink) × (i < length self.old.cells.rlink) }
        requires left { slice_index self.old.cells.llink i < length self.old.cells.rlink }
        requires right { slice_index self.old.cells.rlink i < length self.old.cells.llink }
        ensures done { self.new.cells ≡ left_ring self.old.cells i }
        ensures counted { self.new.written ≡ self.old.written + 2 }
    {
        let l = self.llink.get(i);
        let r = self.rlink.get(i);
        self.rlink.set(l, r);
        self.llink.set(r, l);
    }

    /// Puts item i back into its ring.
    #[inline(always)]
    pub(crate) fn relink(&mut self, i: u32)
        requires place { (i < length self.old.cells.llink) × (i < length self.old.cells.rlink) }
        requires left { slice_index self.old.cells.llink i < length self.old.cells.rlink }
        requires right { slice_index self.old.cells.rlink i < length self.old.cells.llink }
        ensures done { self.new.cells ≡ back_in_ring self.old.cells i }
        ensures counted { self.new.written ≡ self.old.written + 2 }
    {
        let l = self.llink.get(i);
        let r = self.rlink.get(i);
        self.rlink.set(l, i);
        self.llink.set(r, i);
    }

    /// Lowers the bound of item i by one.
    #[inline(always)]
    pub(crate) fn spend(&mut self, i: u32)
        requires place { i < length self.old.cells.bound }
        requires some { 0 < slice_index self.old.cells.bound i }
        ensures done { self.new.cells ≡ with_bound self.old.cells i (slice_index self.old.cells.bound i - 1) }
        ensures counted { self.new.written ≡ self.old.written + 1 }
    {
        let bound = self.bound.get(i);
        self.bound.set(i, bound - 1);
    }

    /// Raises the bound of item i by one.
    #[inline(always)]
    pub(crate) fn unspend(&mut self, i: u32)
        requires place { i < length self.old.cells.bound }
        requires few { slice_index self.old.cells.bound i < 2 ^ 31 }
        ensures done { self.new.cells ≡ with_bound self.old.cells i (slice_index self.old.cells.bound i + 1) }
        ensures counted { self.new.written ≡ self.old.written + 1 }
    {
        let bound = self.bound.get(i);
        self.bound.set(i, bound + 1);
    }

    /// Whether item i isn't in its ring.
    #[inline(always)]
    pub(crate) fn is_off(&self, i: u32) -> bool
        requires place { i < length self.now.cells.llink }
        requires left { slice_index self.now.cells.llink i < length self.now.cells.rlink }
        ensures { result ≡ is_off self.now.cells i }
    {
        self.rlink.get(self.llink.get(i)) != i
    }
}
