//! Reads a problem with colours, and prints the names of the items of its first ten solutions.
#![tactic(auto)]

use anyhow::Result;
use helgrothy::{
    Choice, Direct, Incoming, Kind, Links, Problem, Search, Sink, SinkFault, random_seed,
    read_problem_by, write_all,
};

/// Writes the names of a solution's items, as a line.
fn write_names<S: Sink>(
    output: &mut S,
    problem: &Problem,
    choices: &[Choice],
) -> Result<(), SinkFault> {
    for c in choices {
        for used in problem.get_option(c.option.unwrap_or(0)).unwrap_or(&[]) {
            write_all(output, problem.name_of(*used))?;
            write_all(output, b" ")?;
        }
    }
    write_all(output, b"\n")
}

/// Writes a line for each of the next ten solutions.
fn write_ten<S: Sink>(output: &mut S, problem: &Problem, search: &mut Search<Links>) -> Result<()> {
    for _ in 0..10 {
        let Some(choices) = search.next_solution() else {
            break;
        };
        write_names(output, problem, choices)?;
    }
    Ok(())
}

/// Prints a line for each of a problem's first ten solutions.
fn print_ten(rt: &HostRuntime, problem: &Problem) -> Result<()> {
    let links = Links::for_search(rt.alloc(), problem)?;
    let mut search = Search::begin(rt.alloc(), links, problem)?;
    write_ten(&mut Direct::new(rt.stdout()), problem, &mut search)
}

fn main(rt: HostRuntime) -> Result<()> {
    let mut input = Incoming::new(Some(rt.stdin()));
    let read = read_problem_by(rt.alloc(), random_seed(&rt), Kind::Colours, &mut input)?;
    print_ten(&rt, &read.problem)
}
