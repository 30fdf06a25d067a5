//! Searches a span of a problem's listing: `dlx-span 1|2|3 m0|m1 STEPS FROM UNTIL < PROBLEM`.
#![tactic(auto)]

use std::alloc::AllocError;
use std::io::IsTerminal;
use std::process::ExitCode;
use xc_streams::{Direct, Incoming, Outgoing, random_seed, words};
use xc_tools::{exit_code, solve_span_by};

fn main(rt: HostRuntime) -> ExitCode {
    exit_code(&rt, run(&rt))
}

/// Writes the span that the words mean of the problem on standard input, and returns the status.
fn run(rt: &HostRuntime) -> Result<u8, AllocError> {
    let words = words(rt)?;
    let by_line = rt.stdout().is_terminal();
    let mut input = Incoming::new(Some(rt.stdin()));
    let mut out = Outgoing::new(rt.alloc(), rt.stdout(), by_line)?;
    let mut err = Direct::new(rt.stderr());
    let seed = random_seed(rt);
    Ok(solve_span_by(rt.alloc(), seed, &words, &mut input, &mut out, &mut err))
}
