//! The links of all nodes.
ghost use Rattle.std.specs.Prelude.{◌≡◌, ◌+◌, ◌<◌, ◌≤◌, ◌++◌, ◌∷◌, [], length, vec_capacity, slice_index, slice_set};
ghost use Rattle.std.specs.Prelude.{IfOk, slice_get, ◌↔◌, IsTrue};
ghost use Rattle.xc_dance.specs.inner.Tables.{ups, downs, link_writes, IsLinkRow};

use crate::links::cells::{Cell, Link};
use std::alloc::{AllocError, Global};

/// The links of all nodes.
#[derive(Drop)]
pub(crate) struct LinkColumn {
    pub(super) links: Vec<Link>,
}

impl LinkColumn {
    /// No link yet, and room for those of so many nodes.
    pub(crate) fn with_capacity(alloc: Global, count: usize) -> Result<LinkColumn, AllocError>
        ensures { IfOk result (λ c. (c.links.items ≡ []) × (count ≤ vec_capacity c.links)) }
    {
        Ok(LinkColumn {
            links: Vec::with_capacity(alloc, count)?,
        })
    }

    /// Adds the links of a node after the others.
    #[inline(always)]
    pub(crate) fn push(&mut self, up: u32, down: u32)
        requires room { length self.old.links.items < vec_capacity self.old.links }
        ensures up { ups self.new.links.items ≡ ups self.old.links.items ++ up ∷ [] }
        ensures down { downs self.new.links.items ≡ downs self.old.links.items ++ down ∷ [] }
        ensures capacity { vec_capacity self.new.links ≡ vec_capacity self.old.links }
    {
        self.links.push_reserved(Link {
            up: Cell::new(up),
            down: Cell::new(down),
        });
    }

    /// Where the link at a place leads upwards.
    #[inline(always)]
    pub(crate) fn up(&self, place: u32) -> u32
        requires { place < length (ups self.now.links.items) }
        ensures { result ≡ slice_index (ups self.now.links.items) place }
    {
        self.links[place as usize].up.get()
    }

    /// Where the link at a place leads downwards.
    #[inline(always)]
    pub(crate) fn down(&self, place: u32) -> u32
        requires { place < length (downs self.now.links.items) }
        ensures { result ≡ slice_index (downs self.now.links.items) place }
    {
        self.links[place as usize].down.get()
    }

    /// Writes where the link at a place leads upwards.
    #[inline(always)]
    #[tactic(auto, using(crate::proofs::LineLemmas::one_written))]
    pub(crate) fn set_up(&mut self, place: u32, value: u32)
        requires { place < length (ups self.old.links.items) }
        ensures up { ups self.new.links.items ≡ slice_set (ups self.old.links.items) place value }
        ensures down { downs self.new.links.items ≡ downs self.old.links.items }
        ensures counted { link_writes self.new.links.items ≡ link_writes self.old.links.items + 1 }
    {
        self.links[place as usize].up.write(value);
    }

    /// Writes where the link at a place leads downwards.
    #[inline(always)]
    #[tactic(auto, using(crate::proofs::LineLemmas::one_written))]
    pub(crate) fn set_down(&mut self, place: u32, value: u32)
        requires { place < length (downs self.old.links.items) }
        ensures down { downs self.new.links.items ≡ slice_set (downs self.old.links.items) place value }
        ensures up { ups self.new.links.items ≡ ups self.old.links.items }
        ensures counted { link_writes self.new.links.items ≡ link_writes self.old.links.items + 1 }
    {
        self.links[place as usize].down.write(value);
    }

    /// Where the link at a place leads upwards, if there is one.
    pub(crate) fn read_up(&self, place: u32) -> Option<u32>
        ensures { result ≡ slice_get (ups self.now.links.items) place }
    {
        if (place as usize) < self.links.len() {
            Some(self.up(place))
        } else {
            None
        }
    }

    /// Where the link at a place leads downwards, if there is one.
    pub(crate) fn read_down(&self, place: u32) -> Option<u32>
        ensures { result ≡ slice_get (downs self.now.links.items) place }
    {
        if (place as usize) < self.links.len() {
            Some(self.down(place))
        } else {
            None
        }
    }

    /// Whether the links are equal, one by one.
    pub(crate) fn same(&self, other: &LinkColumn) -> bool
        ensures { IsTrue result ↔ ((ups self.now.links.items ≡ ups other.now.links.items)
            × (downs self.now.links.items ≡ downs other.now.links.items)) }
    {
        self.links.as_slice() == other.links.as_slice()
    }
}
