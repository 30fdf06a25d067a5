//! Counts the covers of an exact cover problem without making each, in all or also those of each option, or prints the
//! one of a number: `dlx-count 1|2|3 [bMEGABYTES] [nNUMBER|o] < PROBLEM`.
#![tactic(auto)]

use std::alloc::AllocError;
use std::io::IsTerminal;
use std::process::ExitCode;
use xc_count_run::count_covers_by;
use xc_streams::{Direct, Incoming, Outgoing, random_seed, words};
use xc_tools::exit_code;

fn main(rt: HostRuntime) -> ExitCode {
    exit_code(&rt, run(&rt))
}

/// Answers what the words ask for of the problem on standard input, and returns the status.
fn run(rt: &HostRuntime) -> Result<u8, AllocError> {
    let words = words(rt)?;
    let mut input = Incoming::new(Some(rt.stdin()));
    let mut out = Outgoing::new(rt.alloc(), rt.stdout(), rt.stdout().is_terminal())?;
    let mut err = Direct::new(rt.stderr());
    let seed = random_seed(rt);
    Ok(count_covers_by(rt.alloc(), seed, &words, &mut input, &mut out, &mut err))
}
