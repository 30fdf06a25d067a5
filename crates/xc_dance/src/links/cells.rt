//! The two tables, which consist of cells that count their own writes. Other modules read and write cells by place, and
//! can't make, copy, replace or exchange one: only this file and those of its folder have to be read to see that no
//! cell is put in the place of another, and only `cell.rt` to see that each write is counted.
//!
//! `written` of `Links` is the sum over the cells. Tried before: a tally as a parameter, which a body can evade by a
//! second tally; and a list of the writes in order, which would have to be one value beside three columns that are lent
//! apart. The count is for contracts alone and takes nothing at run time.

mod borrows;
mod cell;
mod column;
mod items;
mod lent;
mod link_column;
mod marks;
mod nodes;

pub(crate) use borrows::{Cells, CellsMut, LinksMut};
use cell::Cell;
pub(crate) use column::Column;
pub(crate) use items::Items;
pub(crate) use link_column::LinkColumn;
pub(crate) use marks::{MARK, SPACER};
pub(crate) use nodes::Nodes;

/// The two links of a node side by side: whoever reads one reads the other.
#[derive(PartialEq, Drop)]
struct Link {
    up: Cell,
    down: Cell,
}
