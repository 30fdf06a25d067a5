//! The states and bounds of the items before any move.
ghost use Rattle.std.specs.Prelude.{IfOk, []};
ghost use Rattle.xc_dance.specs.inner.Lists.{AreStates, AreLeft};

use crate::lists::state::ItemState;
use crate::lists::table::Table;
use std::alloc::{AllocError, Global};

/// Every item is open.
pub(crate) fn open_states(alloc: Global, table: &Table) -> Result<Vec<ItemState>, AllocError>
    ensures { IfOk result (λ v. AreStates table.now [] v.items) }
{
    let mut states = Vec::new(alloc);
    for _ in 0..table.items() {
        states.push(ItemState::Open)?;
    }
    Ok(states)
}

/// The upper bounds of the primary items.
pub(crate) fn whole_bounds(alloc: Global, table: &Table) -> Result<Vec<u32>, AllocError>
    ensures { IfOk result (λ v. AreLeft table.now [] v.items) }
{
    let mut left = Vec::new(alloc);
    for at in 0..table.primary() {
        left.push(table.high(at + 1))?;
    }
    Ok(left)
}
