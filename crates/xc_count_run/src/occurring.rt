//! In how many solutions each option is, printed.
ghost use Rattle.std.specs.Prelude.{◌≡◌, ◌++◌, IfOk, OnOk, flat_map, length};
ghost use Rattle.std.specs.List.{enumerate_from};
ghost use Rattle.xc_search.specs.Cover.{members};
ghost use Rattle.xc_tools.specs.WholeRuns.{sinks};
ghost use Rattle.xc_count.specs.Occurrences.{occurrences};
ghost use Rattle.xc_count_run.specs.Alone.{DidPerhapsAlone};
ghost use Rattle.xc_count_run.specs.Each.{DidTellEach, PrintsBoth, option_line, option_lines};
ghost use Rattle.xc_count_run.specs.LastLine.{count_text};

use crate::messages::{count_line, write_gave_up};
use crate::running::write_last;
use natural::Natural;
use std::alloc::{AllocError, Global};
use xc_count::{each_by_search, each_by_turns};
use xc_input::Problem;
use xc_streams::status::{FAILED, flushed, out_of_memory, write_failed};
use xc_text::{Sink, write_all};

/// Adds the line of an option.
fn add_line(
    alloc: Global,
    text: &mut Vec<u8>,
    option: u64,
    number: &Natural,
) -> Result<(), AllocError>
    ensures { OnOk result (text.new.items ≡ text.old.items ++ option_line (option, number.now)) }
{
    Natural::from_u64(alloc, option).write_decimal(text)?;
    text.extend_from_slice(b" ")?;
    number.write_decimal(text)?;
    text.extend_from_slice(b"\n")
}

/// The lines of all options.
fn lines_of(alloc: Global, numbers: &[Natural]) -> Result<Vec<u8>, AllocError>
    ensures { IfOk result (λ text. text.items ≡ flat_map option_line (enumerate_from 1 numbers.now)) }
{
    let mut text = Vec::new(alloc);
    let mut option: u64 = 0;
    for number in numbers {
        option += 1;
        add_line(alloc, &mut text, option, number)?;
    }
    Ok(text)
}

/// Writes and flushes lines, and then writes the last one.
fn print_both<O: Sink, E: Sink>(lines: &[u8], last: &[u8], out: &mut O, err: &mut E) -> u8
    ensures { PrintsBoth lines.now last.now result
        (sinks O.state E.state out.old err.old) (sinks O.state E.state out.new err.new) }
{
    if write_all(out, lines).is_err() {
        return write_failed(err);
    }
    match flushed(out, err) {
        Ok(()) => write_last(last, err),
        Err(status) => status,
    }
}

/// Prints of each option in how many solutions it is, and how many there are.
fn tell_numbers<O: Sink, E: Sink>(
    alloc: Global,
    problem: &Problem,
    found: &(Natural, Vec<Natural>),
    out: &mut O,
    err: &mut E,
) -> u8
    requires covers { found.now.0 ≡ length (members problem.now.puzzle) }
    requires each { found.now.1.items ≡ occurrences problem.now.puzzle }
    ensures did { DidTellEach problem.now result
        (sinks O.state E.state out.old err.old) (sinks O.state E.state out.new err.new) }
{
    let (covers, numbers) = found;
    match (
        lines_of(alloc, numbers.as_slice()),
        count_line(alloc, covers),
    ) {
        (Ok(lines), Ok(last)) => print_both(lines.as_slice(), last.as_slice(), out, err),
        _ => out_of_memory(err),
    }
}

/// The same by a search through all solutions.
fn search_each<O: Sink, E: Sink>(alloc: Global, problem: &Problem, out: &mut O, err: &mut E) -> u8
    ensures did { DidTellEach problem.now result
        (sinks O.state E.state out.old err.old) (sinks O.state E.state out.new err.new) }
{
    match each_by_search(alloc, problem) {
        Ok(found) => tell_numbers(alloc, problem, &found, out, err),
        Err(_) => out_of_memory(err),
    }
}

/// Prints of each option in how many solutions it is, and how many there are, by states if they don't take too much
/// memory.
pub fn tell_each<O: Sink, E: Sink>(
    alloc: Global,
    problem: &Problem,
    bound: usize,
    out: &mut O,
    err: &mut E,
) -> u8
    ensures did { DidPerhapsAlone (λ from. DidTellEach problem.now result
        from (sinks O.state E.state out.new err.new)) result
        (sinks O.state E.state out.old err.old) (sinks O.state E.state out.new err.new) }
{
    match each_by_turns(alloc, problem, bound) {
        Ok(Some(found)) => tell_numbers(alloc, problem, &found, out, err),
        Ok(None) => match write_gave_up(err) {
            Ok(()) => search_each(alloc, problem, out, err),
            Err(_) => FAILED,
        },
        Err(_) => out_of_memory(err),
    }
}
