//! Judges a listing of a problem's solutions: `dlxcheck PROBLEM [1|2|3] < LISTING`.
#![tactic(auto)]

use std::alloc::AllocError;
use std::io::IsTerminal;
use std::process::ExitCode;
use xc_streams::{Direct, Incoming, Outgoing, closed_stream, named_file, random_seed, words};
use xc_tools::{asked_kind, exit_code, judge_by};

fn main(rt: HostRuntime) -> ExitCode {
    exit_code(&rt, run(&rt))
}

/// Judges the listing on standard input, and returns the status. Right words are followed by a look at the
/// standard streams: the problem's file would take the number of a closed one.
fn run(rt: &HostRuntime) -> Result<u8, AllocError> {
    let words = words(rt)?;
    let mut listing = Incoming::new(Some(rt.stdin()));
    // Taken before the words are judged: without memory for it the status is 4, whatever they are.
    let mut out = Outgoing::new(rt.alloc(), rt.stdout(), rt.stdout().is_terminal())?;
    let mut err = Direct::new(rt.stderr());
    if asked_kind(&words).is_some()
        && let Some(status) = closed_stream(&rt.stdin(), &rt.stdout(), &rt.stderr(), &mut err)
    {
        return Ok(status);
    }
    let mut problem = named_file(rt, &words);
    Ok(judge_by(
        rt.alloc(),
        random_seed(rt),
        &words,
        &mut problem,
        &mut listing,
        &mut out,
        &mut err,
    ))
}
