//! The clauses of a problem.
ghost use Rattle.std.specs.Prelude.{IfOk};
ghost use Rattle.xc_input.specs.Problem.{option_count};
ghost use Rattle.xc_none.specs.Meanings.{AreTrueOfCovers};
ghost use Rattle.xc_none.specs.inner.Holders.{AreListed};

use crate::errors::ClausesError;
use crate::holders::options_by_item;
use crate::item_clauses::add_item;
use crate::meaning::Meaning;
use crate::table::{Table, variables};
use std::alloc::Global;
use xc_input::Problem;

/// The clauses of a problem, and what their variables mean. Variables have numbers from 1: what variable n means is at
/// place n - 1 of `meanings`. It has the literals 2n, which is true where that is so, and 2n + 1.
#[derive(Debug, Drop)]
pub struct Formula {
    pub meanings: Vec<Meaning>,
    pub clauses: Vec<Vec<u32>>,
}

/// The clauses of all items, of which these are the options.
fn all_clauses(
    alloc: Global,
    problem: &Problem,
    lists: &[Vec<u32>],
    table: &Table,
) -> Result<Vec<Vec<u32>>, ClausesError>
    requires { AreListed problem.now.puzzle (option_count problem.now.puzzle) lists.now }
    ensures { IfOk result (λ clauses. AreTrueOfCovers problem.now.puzzle table.now.meanings.items clauses.items) }
{
    let mut clauses = Vec::new(alloc);
    for i in 0..problem.items() {
        let k = i as usize;
        if k >= lists.len() || k >= table.starts.len() {
            return Err(ClausesError::Lost);
        }
        let meanings = table.meanings.as_slice();
        add_item(
            alloc,
            &mut clauses,
            problem,
            meanings,
            i + 1,
            table.starts[k],
            lists[k].as_slice(),
        )?;
    }
    Ok(clauses)
}

/// The clauses of a problem, and what their variables mean. Each cover of the problem makes them true. They are meant
/// to be enough too, so that options that make them true are a cover: that is tested, and not proved.
///
/// For a primary item a chain counts its options in file order: of those up to an option at least so many are chosen. A
/// secondary item has its options in the order of their places by colour: up to a place one is chosen.
pub fn clauses(alloc: Global, problem: &Problem) -> Result<Formula, ClausesError>
    ensures { IfOk result (λ f. AreTrueOfCovers problem.now.puzzle f.meanings.items f.clauses.items) }
{
    let lists = options_by_item(alloc, problem)?;
    let table = variables(alloc, problem, lists.as_slice())?;
    let clauses = all_clauses(alloc, problem, lists.as_slice(), &table)?;
    let Table {
        meanings,
        starts: _,
    } = table;
    Ok(Formula { meanings, clauses })
}
