//! The clauses of an item.
ghost use Rattle.std.specs.Prelude.{◌≡◌, ◌<◌, Some, OnOk};
ghost use Rattle.xc_input.specs.Problem.{IsItem, IsOption, IsSecondary, bounds_at};
ghost use Rattle.xc_none.specs.Meanings.{AreTrueOfCovers};
ghost use Rattle.xc_none.specs.inner.Holders.{IsHolder, AreOptionsOf, AreRising, IsNextHolder};

use crate::chain::{
    Chain, down, fewer, first, first_down, first_fewer, least, most, some, stay, up,
};
use crate::claim::add_clause;
use crate::coloured::{Groups, apart, enter, on, place_of};
use crate::errors::ClausesError;
use crate::holders::are_rising;
use crate::meaning::Meaning;
use crate::table::{columns, least_count, places_of};
use std::alloc::Global;
use xc_input::{Bounds, Problem};

/// The clauses of one more option of a chain: no more are chosen than may be.
fn add_upper_row(
    alloc: Global,
    clauses: &mut Vec<Vec<u32>>,
    problem: &Problem,
    meanings: &[Meaning],
    chain: Chain,
    bounds: Bounds,
    row: u32,
    before: u32,
    option: u32,
) -> Result<(), ClausesError>
    requires bounds { bounds_at problem.now.puzzle chain.item ≡ Some bounds }
    requires holder { IsHolder problem.now.puzzle chain.item option }
    requires rising { before < option }
    requires so_far { AreTrueOfCovers problem.now.puzzle meanings.now clauses.old.items }
    ensures { OnOk result (AreTrueOfCovers problem.now.puzzle meanings.now clauses.new.items) }
{
    let clause = first(chain, row, option);
    add_clause(alloc, clauses, problem, meanings, &clause)?;
    for k in 0..row.min(bounds.high) {
        let clause = stay(chain, row, before, option, k + 1);
        add_clause(alloc, clauses, problem, meanings, &clause)?;
        if k + 1 < bounds.high {
            let clause = up(chain, row, before, option, k + 1);
            add_clause(alloc, clauses, problem, meanings, &clause)?;
        }
    }
    if bounds.high <= row {
        let clause = most(chain, row, before, option, bounds.high);
        add_clause(alloc, clauses, problem, meanings, &clause)?;
    }
    Ok(())
}

/// The clauses of a chain: no more options of its item are chosen than may be.
fn add_upper(
    alloc: Global,
    clauses: &mut Vec<Vec<u32>>,
    problem: &Problem,
    meanings: &[Meaning],
    chain: Chain,
    bounds: Bounds,
    options: &[u32],
) -> Result<(), ClausesError>
    requires bounds { bounds_at problem.now.puzzle chain.item ≡ Some bounds }
    requires holders { AreOptionsOf problem.now.puzzle chain.item options.now }
    requires rising { AreRising options.now }
    requires so_far { AreTrueOfCovers problem.now.puzzle meanings.now clauses.old.items }
    ensures { OnOk result (AreTrueOfCovers problem.now.puzzle meanings.now clauses.new.items) }
{
    if options.is_empty() {
        return Ok(());
    }
    let clause = first(chain, 0, options[0]);
    add_clause(alloc, clauses, problem, meanings, &clause)?;
    for k in 1..options.len() {
        let Ok(row) = u32::try_from(k) else {
            return Err(ClausesError::TooManyVariables);
        };
        add_upper_row(
            alloc,
            clauses,
            problem,
            meanings,
            chain,
            bounds,
            row,
            options[k - 1],
            options[k],
        )?;
    }
    Ok(())
}

/// The clauses of one more option of a chain: what it counts up to the option was chosen.
fn add_lower_row(
    alloc: Global,
    clauses: &mut Vec<Vec<u32>>,
    problem: &Problem,
    meanings: &[Meaning],
    chain: Chain,
    count: u32,
    row: u32,
    before: u32,
    option: u32,
) -> Result<(), ClausesError>
    requires next { IsNextHolder problem.now.puzzle chain.item before option }
    requires so_far { AreTrueOfCovers problem.now.puzzle meanings.now clauses.old.items }
    ensures { OnOk result (AreTrueOfCovers problem.now.puzzle meanings.now clauses.new.items) }
{
    for k in 0..count {
        let clause = down(chain, row, before, option, k + 1);
        add_clause(alloc, clauses, problem, meanings, &clause)?;
        if k + 1 < count {
            let clause = fewer(chain, row, before, option, k + 1);
            add_clause(alloc, clauses, problem, meanings, &clause)?;
        }
    }
    Ok(())
}

/// The clauses of the first option of a chain: what it counts up to that option was chosen.
fn add_first_row(
    alloc: Global,
    clauses: &mut Vec<Vec<u32>>,
    problem: &Problem,
    meanings: &[Meaning],
    chain: Chain,
    count: u32,
    option: u32,
) -> Result<(), ClausesError>
    requires next { IsNextHolder problem.now.puzzle chain.item 0 option }
    requires so_far { AreTrueOfCovers problem.now.puzzle meanings.now clauses.old.items }
    ensures { OnOk result (AreTrueOfCovers problem.now.puzzle meanings.now clauses.new.items) }
{
    let clause = first_down(chain, option);
    add_clause(alloc, clauses, problem, meanings, &clause)?;
    for j in 1..count {
        let clause = first_fewer(chain, option, j);
        add_clause(alloc, clauses, problem, meanings, &clause)?;
    }
    Ok(())
}

/// The clauses of a chain: at least as many options of its item are chosen as have to be.
fn add_lower(
    alloc: Global,
    clauses: &mut Vec<Vec<u32>>,
    problem: &Problem,
    meanings: &[Meaning],
    chain: Chain,
    bounds: Bounds,
    options: &[u32],
) -> Result<(), ClausesError>
    requires bounds { bounds_at problem.now.puzzle chain.item ≡ Some bounds }
    requires holders { AreOptionsOf problem.now.puzzle chain.item options.now }
    requires rising { AreRising options.now }
    requires so_far { AreTrueOfCovers problem.now.puzzle meanings.now clauses.old.items }
    ensures { OnOk result (AreTrueOfCovers problem.now.puzzle meanings.now clauses.new.items) }
{
    if options.is_empty() {
        return Ok(());
    }
    let Ok(many) = u32::try_from(options.len()) else {
        return Err(ClausesError::TooManyVariables);
    };
    let count = least_count(bounds.low, many);
    add_first_row(alloc, clauses, problem, meanings, chain, count, options[0])?;
    for k in 1..options.len() {
        let Ok(row) = u32::try_from(k) else {
            return Err(ClausesError::TooManyVariables);
        };
        add_lower_row(
            alloc,
            clauses,
            problem,
            meanings,
            chain,
            count,
            row,
            options[k - 1],
            options[k],
        )?;
    }
    let last = options.len() - 1;
    let clause = least(chain, many - 1, options[last], count);
    add_clause(alloc, clauses, problem, meanings, &clause)
}

/// The clauses of a primary item: as many of its options are chosen as its bounds say.
fn add_bounds(
    alloc: Global,
    clauses: &mut Vec<Vec<u32>>,
    problem: &Problem,
    meanings: &[Meaning],
    chain: Chain,
    bounds: Bounds,
    options: &[u32],
) -> Result<(), ClausesError>
    requires bounds { bounds_at problem.now.puzzle chain.item ≡ Some bounds }
    requires holders { AreOptionsOf problem.now.puzzle chain.item options.now }
    requires so_far { AreTrueOfCovers problem.now.puzzle meanings.now clauses.old.items }
    ensures { OnOk result (AreTrueOfCovers problem.now.puzzle meanings.now clauses.new.items) }
{
    if !are_rising(options) {
        return Err(ClausesError::Lost);
    }
    if bounds.low >= 1 {
        let claims = some(alloc, options)?;
        add_clause(alloc, clauses, problem, meanings, claims.as_slice())?;
    }
    if (bounds.high as usize) < options.len() {
        add_upper(alloc, clauses, problem, meanings, chain, bounds, options)?;
    }
    if bounds.low >= 2 {
        add_lower(alloc, clauses, problem, meanings, chain, bounds, options)?;
    }
    Ok(())
}

/// The clauses of an option of a secondary item, whose options are at these places: none before its place is chosen
/// beside it.
fn add_placed(
    alloc: Global,
    clauses: &mut Vec<Vec<u32>>,
    problem: &Problem,
    meanings: &[Meaning],
    groups: Groups,
    places: &[u64],
    option: u32,
) -> Result<(), ClausesError>
    requires item { IsSecondary problem.now.puzzle groups.item }
    requires option { IsOption problem.now.puzzle option }
    requires so_far { AreTrueOfCovers problem.now.puzzle meanings.now clauses.old.items }
    ensures { OnOk result (AreTrueOfCovers problem.now.puzzle meanings.now clauses.new.items) }
{
    let Some(place) = place_of(problem, option, groups.item) else {
        return Err(ClausesError::Lost);
    };
    let Ok(at) = places.binary_search(&place) else {
        return Err(ClausesError::Lost);
    };
    if at + 1 < places.len() {
        let clause = enter(groups, at, option, place);
        add_clause(alloc, clauses, problem, meanings, &clause)?;
    }
    if at == 0 {
        return Ok(());
    }
    let before = places[at - 1];
    if place <= before {
        return Err(ClausesError::Lost);
    }
    let clause = apart(groups, at, before, option, place);
    add_clause(alloc, clauses, problem, meanings, &clause)
}

/// The clauses of a secondary item's places: one up to a place is one up to the next.
fn add_places(
    alloc: Global,
    clauses: &mut Vec<Vec<u32>>,
    problem: &Problem,
    meanings: &[Meaning],
    groups: Groups,
    places: &[u64],
) -> Result<(), ClausesError>
    requires so_far { AreTrueOfCovers problem.now.puzzle meanings.now clauses.old.items }
    ensures { OnOk result (AreTrueOfCovers problem.now.puzzle meanings.now clauses.new.items) }
{
    for at in 2..places.len() {
        let before = places[at - 2];
        let place = places[at - 1];
        if place < before {
            return Err(ClausesError::Lost);
        }
        let clause = on(groups, at - 1, before, place);
        add_clause(alloc, clauses, problem, meanings, &clause)?;
    }
    Ok(())
}

/// The clauses of a secondary item: its chosen options are one, or have one colour.
fn add_colours(
    alloc: Global,
    clauses: &mut Vec<Vec<u32>>,
    problem: &Problem,
    meanings: &[Meaning],
    groups: Groups,
    options: &[u32],
) -> Result<(), ClausesError>
    requires item { IsSecondary problem.now.puzzle groups.item }
    requires options { AreOptionsOf problem.now.puzzle groups.item options.now }
    requires so_far { AreTrueOfCovers problem.now.puzzle meanings.now clauses.old.items }
    ensures { OnOk result (AreTrueOfCovers problem.now.puzzle meanings.now clauses.new.items) }
{
    let places = places_of(alloc, problem, groups.item, options)?;
    add_places(alloc, clauses, problem, meanings, groups, places.as_slice())?;
    for option in options {
        add_placed(
            alloc,
            clauses,
            problem,
            meanings,
            groups,
            places.as_slice(),
            *option,
        )?;
    }
    Ok(())
}

/// The clauses of an item, whose variables begin at a place.
pub(crate) fn add_item(
    alloc: Global,
    clauses: &mut Vec<Vec<u32>>,
    problem: &Problem,
    meanings: &[Meaning],
    item: u32,
    start: usize,
    options: &[u32],
) -> Result<(), ClausesError>
    requires item { IsItem problem.now.puzzle item }
    requires holders { AreOptionsOf problem.now.puzzle item options.now }
    requires so_far { AreTrueOfCovers problem.now.puzzle meanings.now clauses.old.items }
    ensures { OnOk result (AreTrueOfCovers problem.now.puzzle meanings.now clauses.new.items) }
{
    if item > problem.primary() {
        return add_colours(
            alloc,
            clauses,
            problem,
            meanings,
            Groups { item, start },
            options,
        );
    }
    let Ok(many) = u32::try_from(options.len()) else {
        return Err(ClausesError::TooManyVariables);
    };
    let bounds = problem.item(item).bounds();
    let chain = Chain {
        item,
        start,
        columns: columns(bounds, many),
    };
    add_bounds(alloc, clauses, problem, meanings, chain, bounds, options)
}
