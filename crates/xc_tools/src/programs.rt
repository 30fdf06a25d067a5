//! Programs over the command line and the standard streams.
ghost use Rattle.std.specs.Prelude.{◌≡◌, codes, MatchResult};
ghost use Rattle.std.specs.Process.{exit_status};
ghost use Rattle.xc_text.specs.Texts.{WasTold};

use crate::solving::solve_by;
use std::alloc::AllocError;
use std::io::IsTerminal;
use std::process::ExitCode;
use xc_input::Kind;
use xc_streams::status::out_of_memory;
use xc_streams::{Direct, Incoming, Outgoing, random_seed, words};
use xc_text::Sink;

/// The status of a program, or 4, which is reported, if there was no memory for its words and streams.
fn told_status<E: Sink>(status: Result<u8, AllocError>, err: &mut E) -> u8
    ensures { MatchResult status (λ s. (result ≡ s) × (E.state err.new ≡ E.state err.old))
        (λ _. (result ≡ 4) × WasTold (E.state err.old) (E.state err.new) (codes "Out of memory.\n")) }
{
    match status {
        Ok(status) => status,
        Err(AllocError) => out_of_memory(err),
    }
}

/// The exit code of a program with this status, or 4, which is reported, if there was no memory for its words and
/// streams.
pub fn exit_code(rt: &HostRuntime, status: Result<u8, AllocError>) -> ExitCode
    ensures { MatchResult status (λ s. exit_status result ≡ s) (λ _. exit_status result ≡ 4) }
{
    ExitCode::from(told_status(status, &mut Direct::new(rt.stderr())))
}

/// Solves what comes on standard input, and returns the status.
fn solve_input(rt: &HostRuntime, kind: Kind) -> Result<u8, AllocError> {
    let words = words(rt)?;
    let mut input = Incoming::new(Some(rt.stdin()));
    // Taken before the words are judged: without memory for it the status is 4, whatever they are.
    let mut out = Outgoing::new(rt.alloc(), rt.stdout(), rt.stdout().is_terminal())?;
    let mut err = Direct::new(rt.stderr());
    let seed = random_seed(rt);
    Ok(solve_by(
        rt.alloc(),
        seed,
        kind,
        &words,
        &mut input,
        &mut out,
        &mut err,
    ))
}

/// A whole solver of one kind of problem.
pub fn run_solver(rt: &HostRuntime, kind: Kind) -> ExitCode {
    exit_code(rt, solve_input(rt, kind))
}
