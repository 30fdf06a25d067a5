//! Which options hold each item.
ghost use Rattle.std.specs.Prelude.{◌≡◌, ◌≤◌, ◌+◌, ◌-◌, ◌++◌, [], ◌∷◌, All, IfOk, OnOk, IsTrue};
ghost use Rattle.xc_input.specs.Problem.{IsOption, option_count};
ghost use Rattle.xc_none.specs.inner.Holders.{AreListed, AreRising};

use crate::errors::ClausesError;
use std::alloc::Global;
use xc_input::Problem;

/// So many empty lists.
fn empty_lists(alloc: Global, many: u32) -> Result<Vec<Vec<u32>>, ClausesError>
    ensures { IfOk result (λ ls. All (λ l. l.items ≡ []) ls.items) }
{
    let mut lists = Vec::new(alloc);
    for _ in 0..many {
        lists.push(Vec::new(alloc))?;
    }
    Ok(lists)
}

/// Adds an option to a list.
fn push_option(list: &mut Vec<u32>, option: u32) -> Result<(), ClausesError>
    ensures { OnOk result (list.new.items ≡ list.old.items ++ option ∷ []) }
{
    list.push(option)?;
    Ok(())
}

/// Adds an option to the lists of its items.
fn list_option(
    lists: &mut Vec<Vec<u32>>,
    problem: &Problem,
    option: u32,
) -> Result<(), ClausesError>
    requires option { IsOption problem.now.puzzle option }
    requires before { AreListed problem.now.puzzle (option - 1) lists.old.items }
    ensures { OnOk result (AreListed problem.now.puzzle option lists.new.items) }
{
    for u in problem.option(option) {
        let place = u.item as usize - 1;
        if place >= lists.len() {
            return Err(ClausesError::Lost);
        }
        push_option(&mut lists[place], option)?;
    }
    Ok(())
}

/// The options that hold each item, in order: those of item `i` are at place `i - 1`.
pub(crate) fn options_by_item(
    alloc: Global,
    problem: &Problem,
) -> Result<Vec<Vec<u32>>, ClausesError>
    ensures { IfOk result (λ ls. AreListed problem.now.puzzle (option_count problem.now.puzzle) ls.items) }
{
    let mut lists = empty_lists(alloc, problem.items())?;
    for o in 0..problem.options() {
        list_option(&mut lists, problem, o + 1)?;
    }
    Ok(lists)
}

/// Whether each option has a greater number than the one before it.
pub(crate) fn are_rising(options: &[u32]) -> bool
    ensures { IsTrue result → AreRising options.now }
{
    for k in 1..options.len() {
        if options[k] <= options[k - 1] {
            return false;
        }
    }
    true
}
