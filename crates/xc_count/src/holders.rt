//! Which options hold each item.
ghost use Rattle.std.specs.Prelude.{ℕ, ◌≡◌, ◌≢◌, ◌++◌, ◌≤◌, [], ◌∷◌, length, map, option_map, All, AllPairs};
ghost use Rattle.std.specs.Prelude.{IfOk, OnOk};
ghost use Rattle.xc_input.specs.Problem.{numbered_get};
ghost use Rattle.xc_count.specs.inner.Plans.{AreHolders, if_held};

use crate::errors::CountError;
use std::alloc::Global;
use xc_input::{Problem, Use};

/// So many empty lists.
fn empty_lists(alloc: Global, many: u32) -> Result<Vec<Vec<u32>>, CountError>
    ensures len { IfOk result (λ ls. length ls.items ≡ many) }
    ensures empty { IfOk result (λ ls. All (λ l. l.items ≡ []) ls.items) }
{
    let mut lists = Vec::new(alloc);
    for _ in 0..many {
        lists.push(Vec::new(alloc))?;
    }
    Ok(lists)
}

/// Adds an option to a list.
fn push_option(list: &mut Vec<u32>, option: u32) -> Result<(), CountError>
    ensures { OnOk result (list.new.items ≡ list.old.items ++ option ∷ []) }
{
    list.push(option)?;
    Ok(())
}

/// Adds an option to the lists of its items.
fn list_option(lists: &mut Vec<Vec<u32>>, uses: &[Use], option: u32) -> Result<(), CountError>
    requires items { All (λ u. (1 ≤ u.item) × (u.item ≤ length lists.old.items)) uses.now }
    requires distinct { AllPairs (λ u v. u.item ≢ v.item) uses.now }
    ensures lists { OnOk result ((i : ℕ) → numbered_get (map (λ l. l.items) lists.new.items) i
        ≡ option_map (λ l. l ++ if_held uses.now i option) (numbered_get (map (λ l. l.items) lists.old.items) i)) }
    ensures len { length lists.new.items ≡ length lists.old.items }
{
    let mut place = uses.len();
    while place > 0 {
        place -= 1;
        push_option(&mut lists[uses[place].item as usize - 1], option)?;
    }
    Ok(())
}

/// The options that hold each item, in order: those of item `i` are at place `i - 1`.
pub fn options_by_item(alloc: Global, problem: &Problem) -> Result<Vec<Vec<u32>>, CountError>
    ensures { IfOk result (λ ls. AreHolders problem.now.puzzle (map (λ l. l.items) ls.items)) }
{
    let mut lists = empty_lists(alloc, problem.items())?;
    for o in 0..problem.options() {
        list_option(&mut lists, problem.option(o + 1), o + 1)?;
    }
    Ok(lists)
}
