//! The lists before any move.
ghost use Rattle.std.specs.Prelude.{◌≡◌, ◌≢◌, ◌≤◌, [], length, replicate, All, AllPairs, IfOk};
ghost use Rattle.xc_dance.specs.inner.Lists.{numbers_of, enlisted, lists_after};

use crate::lists::table::Table;
use std::alloc::{AllocError, Global};
use xc_input::Use;

/// The options of each item, in file order.
pub(crate) fn first_lists(alloc: Global, table: &Table) -> Result<Vec<Vec<u32>>, AllocError>
    ensures { IfOk result (λ v. numbers_of v.items ≡ lists_after table.now []) }
{
    let mut lists = empty_lists(alloc, table.items())?;
    for o in 0..table.options() {
        enlist(&mut lists, table.uses(o + 1), o + 1)?;
    }
    Ok(lists)
}

fn empty_lists(alloc: Global, count: u32) -> Result<Vec<Vec<u32>>, AllocError>
    ensures { IfOk result (λ v. numbers_of v.items ≡ replicate count []) }
{
    let mut lists = Vec::new(alloc);
    for _ in 0..count {
        lists.push(Vec::new(alloc))?;
    }
    Ok(lists)
}

/// Each item that is used has the option at the end of its list.
fn enlist(lists: &mut Vec<Vec<u32>>, uses: &[Use], option: u32) -> Result<(), AllocError>
    requires items { All (λ u. (1 ≤ u.item) × (u.item ≤ length lists.old.items)) uses.now }
    requires distinct { AllPairs (λ u v. u.item ≢ v.item) uses.now }
    ensures { IfOk result (λ _. numbers_of lists.new.items ≡ enlisted uses.now option (numbers_of lists.old.items)) }
{
    for u in uses {
        let list = &mut lists[u.item as usize - 1];
        list.push(option)?;
    }
    Ok(())
}
