//! The cells of a column as a walk borrows them: a pointer and a length, which stay in registers there, behind calls
//! that read and write a cell by its place. Tried before: vectors, whose bases are loaded again after every write;
//! slices, whose cells a body could exchange with no write counted; and one type for all columns, whose address would
//! leave the loop. The cost: each walk has a clause (`rows`) that the same memory is still lent.
ghost use Rattle.std.specs.Prelude.{◌≡◌, ◌+◌, ◌<◌, length, slice_index, slice_set};
ghost use Rattle.xc_dance.specs.inner.Tables.{values, writes, ups, downs, link_writes, IsRow, IsLinkRow};

use crate::links::cells::{Cells, CellsMut, LinksMut};

impl Cells<'_> {
    /// What is in the cell at a place.
    #[inline(always)]
    pub(crate) fn get(&self, place: u32) -> u32
        requires { place < length (values self.now.cells.now) }
        ensures { result ≡ slice_index (values self.now.cells.now) place }
    {
        self.get_at(place as usize)
    }

    /// The same by an index: a walk over places that are indices widens none of them.
    #[inline(always)]
    pub(crate) fn get_at(&self, place: usize) -> u32
        requires { place < length (values self.now.cells.now) }
        ensures { result ≡ slice_index (values self.now.cells.now) place }
    {
        self.cells[place].get()
    }
}

impl CellsMut<'_> {
    /// The same cells, for a walk that reads them.
    #[inline(always)]
    pub(crate) fn seen(&self) -> Cells<'_>
        ensures { result.cells.now ≡ self.now.cells.now }
    {
        Cells {
            cells: &*self.cells,
        }
    }

    /// What is in the cell at a place.
    #[inline(always)]
    pub(crate) fn get(&self, place: u32) -> u32
        requires { place < length (values self.now.cells.now) }
        ensures { result ≡ slice_index (values self.now.cells.now) place }
    {
        self.get_at(place as usize)
    }

    /// The same by an index.
    #[inline(always)]
    pub(crate) fn get_at(&self, place: usize) -> u32
        requires { place < length (values self.now.cells.now) }
        ensures { result ≡ slice_index (values self.now.cells.now) place }
    {
        let cells = &*self.cells;
        cells[place].get()
    }

    /// Writes one cell.
    #[inline(always)]
    pub(crate) fn set(&mut self, place: u32, value: u32)
        requires { place < length (values self.old.cells.now) }
        ensures value { values self.new.cells.now ≡ slice_set (values self.old.cells.now) place value }
        ensures counted { writes self.new.cells.now ≡ writes self.old.cells.now + 1 }
        ensures lent { IsRow self.old self.new }
    {
        self.set_at(place as usize, value);
    }

    /// The same by an index.
    #[inline(always)]
    #[tactic(auto, using(crate::proofs::LineLemmas::one_written))]
    pub(crate) fn set_at(&mut self, place: usize, value: u32)
        requires { place < length (values self.old.cells.now) }
        ensures value { values self.new.cells.now ≡ slice_set (values self.old.cells.now) place value }
        ensures counted { writes self.new.cells.now ≡ writes self.old.cells.now + 1 }
        ensures lent { IsRow self.old self.new }
    {
        self.cells[place].write(value);
    }
}

impl LinksMut<'_> {
    /// Where the link at a place leads upwards.
    #[inline(always)]
    pub(crate) fn up(&self, place: u32) -> u32
        requires { place < length (ups self.now.links.now) }
        ensures { result ≡ slice_index (ups self.now.links.now) place }
    {
        self.up_at(place as usize)
    }

    /// The same by an index.
    #[inline(always)]
    pub(crate) fn up_at(&self, place: usize) -> u32
        requires { place < length (ups self.now.links.now) }
        ensures { result ≡ slice_index (ups self.now.links.now) place }
    {
        let links = &*self.links;
        links[place].up.get()
    }

    /// Where the link at a place leads downwards.
    #[inline(always)]
    pub(crate) fn down(&self, place: u32) -> u32
        requires { place < length (downs self.now.links.now) }
        ensures { result ≡ slice_index (downs self.now.links.now) place }
    {
        self.down_at(place as usize)
    }

    /// The same by an index.
    #[inline(always)]
    pub(crate) fn down_at(&self, place: usize) -> u32
        requires { place < length (downs self.now.links.now) }
        ensures { result ≡ slice_index (downs self.now.links.now) place }
    {
        let links = &*self.links;
        links[place].down.get()
    }

    /// Writes where the link at a place leads upwards.
    #[inline(always)]
    pub(crate) fn set_up(&mut self, place: u32, value: u32)
        requires { place < length (ups self.old.links.now) }
        ensures up { ups self.new.links.now ≡ slice_set (ups self.old.links.now) place value }
        ensures down { downs self.new.links.now ≡ downs self.old.links.now }
        ensures counted { link_writes self.new.links.now ≡ link_writes self.old.links.now + 1 }
        ensures lent { IsLinkRow self.old self.new }
    {
        self.set_up_at(place as usize, value);
    }

    /// The same by an index.
    #[inline(always)]
    #[tactic(auto, using(crate::proofs::LineLemmas::one_written))]
    pub(crate) fn set_up_at(&mut self, place: usize, value: u32)
        requires { place < length (ups self.old.links.now) }
        ensures up { ups self.new.links.now ≡ slice_set (ups self.old.links.now) place value }
        ensures down { downs self.new.links.now ≡ downs self.old.links.now }
        ensures counted { link_writes self.new.links.now ≡ link_writes self.old.links.now + 1 }
        ensures lent { IsLinkRow self.old self.new }
    {
        self.links[place].up.write(value);
    }

    /// Writes where the link at a place leads downwards.
    #[inline(always)]
    pub(crate) fn set_down(&mut self, place: u32, value: u32)
        requires { place < length (downs self.old.links.now) }
        ensures down { downs self.new.links.now ≡ slice_set (downs self.old.links.now) place value }
        ensures up { ups self.new.links.now ≡ ups self.old.links.now }
        ensures counted { link_writes self.new.links.now ≡ link_writes self.old.links.now + 1 }
        ensures lent { IsLinkRow self.old self.new }
    {
        self.set_down_at(place as usize, value);
    }

    /// The same by an index.
    #[inline(always)]
    #[tactic(auto, using(crate::proofs::LineLemmas::one_written))]
    pub(crate) fn set_down_at(&mut self, place: usize, value: u32)
        requires { place < length (downs self.old.links.now) }
        ensures down { downs self.new.links.now ≡ slice_set (downs self.old.links.now) place value }
        ensures up { ups self.new.links.now ≡ ups self.old.links.now }
        ensures counted { link_writes self.new.links.now ≡ link_writes self.old.links.now + 1 }
        ensures lent { IsLinkRow self.old self.new }
    {
        self.links[place].down.write(value);
    }
}
