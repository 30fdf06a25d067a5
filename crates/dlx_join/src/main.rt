//! Joins the texts of spans: `dlx-join m0|m1 [FILE..]`.
#![tactic(auto)]

use std::alloc::AllocError;
use std::io::IsTerminal;
use std::process::ExitCode;
use xc_streams::{Direct, Outgoing, closed_stream, span_files, words};
use xc_tools::{asked_join, exit_code, join_spans};

fn main(rt: HostRuntime) -> ExitCode {
    exit_code(&rt, run(&rt))
}

/// Joins the texts of the named files or of standard input, and returns the status. Right words are followed by
/// a look at the standard streams: a file would take the number of a closed one.
fn run(rt: &HostRuntime) -> Result<u8, AllocError> {
    let words = words(rt)?;
    // Taken before the words are judged: without memory for it the status is 4, whatever they are.
    let mut out = Outgoing::new(rt.alloc(), rt.stdout(), rt.stdout().is_terminal())?;
    let mut err = Direct::new(rt.stderr());
    if asked_join(&words).is_some()
        && let Some(status) = closed_stream(&rt.stdin(), &rt.stdout(), &rt.stderr(), &mut err)
    {
        return Ok(status);
    }
    let names = words.get(1..).unwrap_or(&[]);
    let mut input = span_files(rt.alloc(), rt, names, rt.stdin())?;
    Ok(join_spans(rt.alloc(), &words, &mut input, &mut out, &mut err))
}
