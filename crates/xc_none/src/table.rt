//! The variables of a problem, before its clauses are made.
//!
//! First one for each option, that it is chosen. Then those of each item in order. Nothing is proved of the order: a
//! clause looks at what stands at a place.
ghost use Rattle.std.specs.Prelude.{◌≤◌, All};
ghost use Rattle.xc_input.specs.Problem.{IsItem, IsOption, option_count};
ghost use Rattle.xc_none.specs.inner.Holders.{AreListed};

use crate::coloured::place_of;
use crate::errors::ClausesError;
use crate::meaning::Meaning;
use std::alloc::Global;
use xc_input::{Bounds, Problem};

/// How many variables there may be.
pub(crate) const MOST_VARIABLES: u64 = 134_217_728;

/// What the variables mean, and where those of each item begin: of item `i` at place `i - 1`.
#[derive(Drop)]
pub(crate) struct Table {
    pub meanings: Vec<Meaning>,
    pub starts: Vec<usize>,
}

/// How many variables a chain has for each of so many options. None are needed where all of them may be chosen, and no
/// more than one has to be.
pub(crate) fn columns(bounds: Bounds, options: u32) -> u32 {
    let upper = if bounds.high < options {
        bounds.high
    } else {
        0
    };
    let lower = if bounds.low >= 2 {
        least_count(bounds.low, options)
    } else {
        0
    };
    if upper < lower { lower } else { upper }
}

/// As many as have to be chosen, but no more than one beyond the options that there are.
pub(crate) fn least_count(low: u32, options: u32) -> u32
    ensures { result ≤ low }
{
    low.min(options.saturating_add(1))
}

/// The places of an item's options by colour, each once, in rising order.
pub(crate) fn places_of(
    alloc: Global,
    problem: &Problem,
    item: u32,
    options: &[u32],
) -> Result<Vec<u64>, ClausesError>
    requires { All (IsOption problem.now.puzzle) options.now }
{
    let mut places = Vec::with_capacity(alloc, options.len())?;
    for option in options {
        match place_of(problem, *option, item) {
            Some(place) => places.push(place)?,
            None => return Err(ClausesError::Lost),
        }
    }
    places.sort()?;
    places.dedup();
    Ok(places)
}

/// Whether there is room for so many more variables.
fn has_room(meanings: &[Meaning], more: u64) -> bool {
    (meanings.len() as u64).saturating_add(more) <= MOST_VARIABLES
}

/// The variables of a chain: of each option in turn, for each count.
fn add_chain(
    meanings: &mut Vec<Meaning>,
    item: u32,
    options: &[u32],
    columns: u32,
) -> Result<(), ClausesError> {
    let many = (options.len() as u64).saturating_mul(u64::from(columns));
    if !has_room(meanings.as_slice(), many) {
        return Err(ClausesError::TooManyVariables);
    }
    for option in options {
        for j in 0..columns {
            meanings.push(Meaning::AtLeast(item, *option, j + 1))?;
        }
    }
    Ok(())
}

/// The variables of a secondary item: of each of its places but the last, up to which any option is.
fn add_place_variables(
    meanings: &mut Vec<Meaning>,
    item: u32,
    places: &[u64],
) -> Result<(), ClausesError> {
    if !has_room(meanings.as_slice(), places.len() as u64) {
        return Err(ClausesError::TooManyVariables);
    }
    for k in 1..places.len() {
        meanings.push(Meaning::UpTo(item, places[k - 1]))?;
    }
    Ok(())
}

/// The variables of the options.
fn chosen_options(alloc: Global, problem: &Problem) -> Result<Vec<Meaning>, ClausesError> {
    let mut meanings = Vec::new(alloc);
    for o in 0..problem.options() {
        meanings.push(Meaning::Chosen(o + 1))?;
    }
    Ok(meanings)
}

/// The variables of an item.
fn add_item_variables(
    alloc: Global,
    meanings: &mut Vec<Meaning>,
    problem: &Problem,
    item: u32,
    options: &[u32],
) -> Result<(), ClausesError>
    requires item { IsItem problem.now.puzzle item }
    requires options { All (IsOption problem.now.puzzle) options.now }
{
    if item > problem.primary() {
        let places = places_of(alloc, problem, item, options)?;
        return add_place_variables(meanings, item, places.as_slice());
    }
    let Ok(many) = u32::try_from(options.len()) else {
        return Err(ClausesError::TooManyVariables);
    };
    add_chain(
        meanings,
        item,
        options,
        columns(problem.item(item).bounds(), many),
    )
}

/// The variables of a problem, of whose items these are the options.
pub(crate) fn variables(
    alloc: Global,
    problem: &Problem,
    lists: &[Vec<u32>],
) -> Result<Table, ClausesError>
    requires { AreListed problem.now.puzzle (option_count problem.now.puzzle) lists.now }
{
    let mut meanings = chosen_options(alloc, problem)?;
    let mut starts = Vec::new(alloc);
    for i in 0..problem.items() {
        starts.push(meanings.len())?;
        if i as usize >= lists.len() {
            return Err(ClausesError::Lost);
        }
        add_item_variables(
            alloc,
            &mut meanings,
            problem,
            i + 1,
            lists[i as usize].as_slice(),
        )?;
    }
    Ok(Table { meanings, starts })
}
