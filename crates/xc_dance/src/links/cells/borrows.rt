//! What a walk borrows of the columns.
ghost use Rattle.std.specs.Prelude.{◌≡◌};

use crate::links::cells::{Cell, Link};

/// The cells of a column, borrowed by a walk that reads them.
#[derive(Clone, Copy, Drop)]
pub(crate) struct Cells<'a> {
    pub(super) cells: &'a [Cell],
}

/// The cells of a column, borrowed by a walk that writes them.
pub(crate) struct CellsMut<'a> {
    pub(super) cells: &'a mut [Cell],
}

/// The links of all nodes, borrowed by a walk.
pub(crate) struct LinksMut<'a> {
    pub(super) links: &'a mut [Link],
}

/// Not derived: the contract says which cells the column has afterwards.
impl Drop for CellsMut<'_> {
    #[inline(always)]
    fn drop(self)
        ensures { self.exit.0.now ≡ self.entry.cells.now }
    {
        let CellsMut { cells: _ } = self;
    }
}

impl Drop for LinksMut<'_> {
    #[inline(always)]
    fn drop(self)
        ensures { self.exit.0.now ≡ self.entry.links.now }
    {
        let LinksMut { links: _ } = self;
    }
}
