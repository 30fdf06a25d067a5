//! Solves exact cover problems: `dlx1 [mN] [tN] < PROBLEM`.
#![tactic(auto)]

use std::process::ExitCode;
use xc_input::Kind;
use xc_tools::run_solver;

fn main(rt: HostRuntime) -> ExitCode {
    run_solver(&rt, Kind::Plain)
}
