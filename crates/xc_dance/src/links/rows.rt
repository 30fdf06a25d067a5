//! Nodes that are laid one after another, as the node table is built.
ghost use Rattle.std.specs.Prelude.{◌≡◌, ◌<◌, length, IfOk};

use crate::links::cells::{Column, LinkColumn, Nodes};
use crate::links::row::Row;
use std::alloc::{AllocError, Global};
use std::marker::Model;

/// Nodes that are laid one after another. There is room for all of them.
#[derive(Drop)]
pub(crate) struct Rows {
    count: usize,
    top: Column,
    links: LinkColumn,
    color: Column,
}

impl Model for Rows {
    ghost use Rattle.std.specs.Prelude.{◌≡◌, ◌≤◌, length, vec_capacity};
    ghost use Rattle.xc_dance.specs.inner.Tables.{columns, Laying};

    ghost Value = { Laying };

    ghost view = { λ a. record {
      count = a.count;
      nodes = columns a.top.cells.items a.links.links.items a.color.cells.items;
    } };

    ghost invariant = { λ a. record {
      top : a.count ≤ vec_capacity a.top.cells;
      links : a.count ≤ vec_capacity a.links.links;
      color : a.count ≤ vec_capacity a.color.cells;
      link_count : length a.links.links.items ≡ length a.top.cells.items;
      color_count : length a.color.cells.items ≡ length a.top.cells.items;
    } };
}

impl Rows {
    ghost use Rattle.xc_dance.specs.inner.Tables.{with_node, no_rows};

    /// None of so many nodes.
    pub(crate) fn new(alloc: Global, count: usize) -> Result<Rows, AllocError>
        ensures { IfOk result (λ t. t ≡ no_rows count) }
    {
        Ok(Rows {
            count,
            top: Column::with_capacity(alloc, count)?,
            links: LinkColumn::with_capacity(alloc, count)?,
            color: Column::with_capacity(alloc, count)?,
        })
    }

    /// Lays the next node.
    #[inline(always)]
    pub(crate) fn lay(&mut self, row: Row)
        requires { length self.old.nodes.top < self.old.count }
        ensures { self.new ≡ with_node self.old row }
    {
        self.top.push(row.top);
        self.links.push(row.ulink, row.dlink);
        self.color.push(row.color);
    }

    /// All that were laid.
    pub(crate) fn nodes(self) -> Nodes
        ensures { result.cells ≡ self.nodes }
    {
        let Rows {
            count: _,
            top,
            links,
            color,
        } = self;
        Nodes::of(top, links, color)
    }
}
