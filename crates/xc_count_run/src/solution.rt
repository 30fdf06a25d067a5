//! The solution of a number is printed.
ghost use Rattle.std.specs.Prelude.{◌≡◌, ◌⊎◌, ◌++◌, All, codes, flat_map, option_map};
ghost use Rattle.std.specs.Str.Parse.{digits_value};
ghost use Rattle.xc_input.specs.Problem.{numbered_get};
ghost use Rattle.xc_search.specs.Cover.{members};
ghost use Rattle.xc_text.specs.Texts.{WasTold, Writes};
ghost use Rattle.xc_list.specs.Output.{choice_text};
ghost use Rattle.xc_list.specs.Known.{IsKnownChoice};
ghost use Rattle.xc_tools.specs.WholeRuns.{sinks, Prints};
ghost use Rattle.xc_count_run.specs.Alone.{DidPerhapsAlone};
ghost use Rattle.xc_count_run.specs.Solutions.{DidFind, fewer_text};

use crate::messages::{fewer_line, line_of, write_gave_up};
use natural::{Natural, parse};
use std::alloc::Global;
use std::cell::Cell;
use xc_count::{Finding, LoneSearch, nth_by_turns};
use xc_input::Problem;
use xc_list::write_choices;
use xc_search::Choice;
use xc_streams::status::{COMPLETE, FAILED, FEWER, flushed, out_of_memory, refuse, write_failed};
use xc_text::{Sink, SinkFault, write_all};

/// Reports that there are fewer solutions, as far as that goes, and returns its status; or that memory is out.
fn tell_fewer<E: Sink>(alloc: Global, number: &Natural, err: &mut E) -> u8
    ensures { ((result ≡ 5) × WasTold (E.state err.old) (E.state err.new) (fewer_text number.now))
        ⊎ ((result ≡ 4) × WasTold (E.state err.old) (E.state err.new) (codes "Out of memory.\n")) }
{
    let Ok(line) = fewer_line(alloc, number) else {
        return out_of_memory(err);
    };
    refuse(FEWER, line.as_slice(), err)
}

/// Writes a solution after the line of its number.
#[tactic(auto, using(xc_text::proofs::SinkLemmas::then_writes))]
fn write_numbered<O: Sink>(
    header: &[u8],
    choices: &[Choice],
    problem: &Problem,
    out: &mut O,
) -> Result<(), SinkFault>
    requires { All (IsKnownChoice problem.now.puzzle) choices.now }
    ensures { Writes (O.state out.old) (O.state out.new) result
        (header.now ++ flat_map (choice_text problem.now) choices.now) }
{
    write_all(out, header)?;
    write_choices(choices, problem, out)
}

/// Writes and flushes a solution.
fn tell_solution<O: Sink, E: Sink>(
    header: &[u8],
    choices: &[Choice],
    problem: &Problem,
    out: &mut O,
    err: &mut E,
) -> u8
    requires { All (IsKnownChoice problem.now.puzzle) choices.now }
    ensures { Prints 0 result (sinks O.state E.state out.old err.old) (sinks O.state E.state out.new err.new)
        (header.now ++ flat_map (choice_text problem.now) choices.now) }
{
    if write_numbered(header, choices, problem, out).is_err() {
        return write_failed(err);
    }
    match flushed(out, err) {
        Ok(()) => COMPLETE,
        Err(status) => status,
    }
}

/// Prints the solution of a number, or that there are fewer.
fn tell_found<O: Sink, E: Sink>(
    alloc: Global,
    problem: &Problem,
    number: &Natural,
    found: &Option<Vec<Choice>>,
    out: &mut O,
    err: &mut E,
) -> u8
    requires { option_map (λ c. c.items) found.now ≡ numbered_get (members problem.now.puzzle) number.now }
    ensures did { DidFind problem.now number.now result
        (sinks O.state E.state out.old err.old) (sinks O.state E.state out.new err.new) }
{
    match found {
        Some(choices) => match line_of(alloc, b"", number, b":\n") {
            Ok(header) => tell_solution(header.as_slice(), choices.as_slice(), problem, out, err),
            Err(_) => out_of_memory(err),
        },
        None => tell_fewer(alloc, number, err),
    }
}

/// The same of the one that a search finds which goes on alone.
fn find_alone<O: Sink, E: Sink>(
    alloc: Global,
    problem: &Problem,
    number: &Natural,
    search: LoneSearch,
    out: &mut O,
    err: &mut E,
) -> u8
    requires { search ≡ problem.now.puzzle }
    ensures did { DidFind problem.now number.now result
        (sinks O.state E.state out.old err.old) (sinks O.state E.state out.new err.new) }
{
    match search.go_on_to(alloc, number) {
        Ok(found) => tell_found(alloc, problem, number, &found, out, err),
        Err(_) => out_of_memory(err),
    }
}

/// Prints the solution of a number.
fn find_numbered<O: Sink, E: Sink>(
    alloc: Global,
    problem: &Problem,
    number: &Natural,
    bound: usize,
    out: &mut O,
    err: &mut E,
) -> u8
    ensures did { DidPerhapsAlone (λ from. DidFind problem.now number.now result
        from (sinks O.state E.state out.new err.new)) result
        (sinks O.state E.state out.old err.old) (sinks O.state E.state out.new err.new) }
{
    let gone_over = Cell::new(0);
    match nth_by_turns(alloc, problem, number, bound, &gone_over) {
        Ok(Finding::Found(found)) => tell_found(alloc, problem, number, &found, out, err),
        Ok(Finding::LeftAlone(search)) => match write_gave_up(err) {
            Ok(()) => find_alone(alloc, problem, number, search, out, err),
            Err(_) => FAILED,
        },
        Err(_) => out_of_memory(err),
    }
}

/// Prints the solution of the number with these digits.
pub fn find_solution<O: Sink, E: Sink>(
    alloc: Global,
    problem: &Problem,
    digits: &[u8],
    bound: usize,
    out: &mut O,
    err: &mut E,
) -> u8
    ensures did { DidPerhapsAlone (λ from. DidFind problem.now (digits_value 10 digits.now) result
        from (sinks O.state E.state out.new err.new)) result
        (sinks O.state E.state out.old err.old) (sinks O.state E.state out.new err.new) }
{
    match parse(alloc, digits) {
        Ok(number) => find_numbered(alloc, problem, &number, bound, out, err),
        Err(_) => out_of_memory(err),
    }
}
