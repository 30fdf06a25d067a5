//! A column of a table.
ghost use Rattle.std.specs.Prelude.{◌≡◌, ◌+◌, ◌<◌, ◌≤◌, ◌++◌, ◌∷◌, [], length, vec_capacity, slice_index, slice_set};
ghost use Rattle.std.specs.Prelude.{replicate, IfOk, slice_get, ◌↔◌, IsTrue};
ghost use Rattle.xc_dance.specs.inner.Tables.{values, writes, IsRow};

use crate::links::cells::{Cell, Cells};
use std::alloc::{AllocError, Global};

/// One column of a table.
#[derive(Drop)]
pub(crate) struct Column {
    pub(super) cells: Vec<Cell>,
}

impl Column {
    /// Cells that are all 0.
    pub(crate) fn new(alloc: Global, count: usize) -> Result<Column, AllocError>
        ensures { IfOk result (λ c. values c.cells.items ≡ replicate count 0) }
    {
        let mut cells = Vec::with_capacity(alloc, count)?;
        for _ in 0..count {
            cells.push_reserved(Cell::new(0));
        }
        Ok(Column { cells })
    }

    /// No cell yet, and room for so many.
    pub(crate) fn with_capacity(alloc: Global, count: usize) -> Result<Column, AllocError>
        ensures { IfOk result (λ c. (c.cells.items ≡ []) × (count ≤ vec_capacity c.cells)) }
    {
        Ok(Column {
            cells: Vec::with_capacity(alloc, count)?,
        })
    }

    /// Adds a cell after the others.
    #[inline(always)]
    pub(crate) fn push(&mut self, value: u32)
        requires room { length self.old.cells.items < vec_capacity self.old.cells }
        ensures value { values self.new.cells.items ≡ values self.old.cells.items ++ value ∷ [] }
        ensures capacity { vec_capacity self.new.cells ≡ vec_capacity self.old.cells }
    {
        self.cells.push_reserved(Cell::new(value));
    }

    /// The cells, to be read by a walk.
    #[inline(always)]
    pub(super) fn seen(&self) -> Cells<'_>
        ensures { result.cells.now ≡ self.now.cells.items }
    {
        Cells { cells: &self.cells }
    }

    /// How many cells there are.
    #[inline(always)]
    pub(crate) fn len(&self) -> usize
        ensures { result ≡ length (values self.now.cells.items) }
    {
        self.cells.len()
    }

    /// What is in the cell at a place.
    #[inline(always)]
    pub(crate) fn get(&self, place: u32) -> u32
        requires { place < length (values self.now.cells.items) }
        ensures { result ≡ slice_index (values self.now.cells.items) place }
    {
        self.get_at(place as usize)
    }

    /// The same by an index.
    #[inline(always)]
    pub(crate) fn get_at(&self, place: usize) -> u32
        requires { place < length (values self.now.cells.items) }
        ensures { result ≡ slice_index (values self.now.cells.items) place }
    {
        self.cells[place].get()
    }

    /// What is in the cell at a place, if there is one.
    pub(crate) fn read(&self, place: u32) -> Option<u32>
        ensures { result ≡ slice_get (values self.now.cells.items) place }
    {
        if (place as usize) < self.cells.len() {
            Some(self.get(place))
        } else {
            None
        }
    }

    /// Writes one cell.
    #[inline(always)]
    #[tactic(auto, using(crate::proofs::LineLemmas::one_written))]
    pub(crate) fn set(&mut self, place: u32, value: u32)
        requires { place < length (values self.old.cells.items) }
        ensures value { values self.new.cells.items ≡ slice_set (values self.old.cells.items) place value }
        ensures counted { writes self.new.cells.items ≡ writes self.old.cells.items + 1 }
    {
        self.cells[place as usize].write(value);
    }

    /// Whether the cells are equal, one by one.
    pub(crate) fn same(&self, other: &Column) -> bool
        ensures { IsTrue result ↔ (values self.now.cells.items ≡ values other.now.cells.items) }
    {
        self.cells.as_slice() == other.cells.as_slice()
    }
}
