//! Prints clauses of a problem, or judges a proof or weights that show that it has no solution:
//! `dlx-none 1|2|3 PROBLEM [FILE [w]]`.
#![tactic(auto)]

use std::alloc::AllocError;
use std::io::IsTerminal;
use std::process::ExitCode;
use xc_none_run::{are_right, show_none};
use xc_streams::{Direct, Outgoing, closed_stream, named_file, random_seed, words};
use xc_tools::exit_code;

fn main(rt: HostRuntime) -> ExitCode {
    exit_code(&rt, run(&rt))
}

/// Does what the words ask for, and returns the status. Right words are followed by a look at the standard
/// streams: a file would take the number of a closed one.
fn run(rt: &HostRuntime) -> Result<u8, AllocError> {
    // Taken before the words are judged: without memory for it the status is 4, whatever they are.
    let mut out = Outgoing::new(rt.alloc(), rt.stdout(), rt.stdout().is_terminal())?;
    let mut err = Direct::new(rt.stderr());
    let words = words(rt)?;
    if are_right(&words)
        && let Some(status) = closed_stream(&rt.stdin(), &rt.stdout(), &rt.stderr(), &mut err)
    {
        return Ok(status);
    }
    let mut problem = named_file(rt, words.get(1..).unwrap_or(&[]));
    let mut file = named_file(rt, words.get(2..).unwrap_or(&[]));
    let seed = random_seed(rt);
    Ok(show_none(
        rt.alloc(),
        seed,
        &words,
        &mut problem,
        &mut file,
        &mut out,
        &mut err,
    ))
}
