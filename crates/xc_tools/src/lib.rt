//! Whole runs of the programs, over the system's streams of `xc_streams`.
//!
//! ```text
//! let mut input = Incoming::new(Some(rt.stdin()));
//! let mut out = Outgoing::new(rt.alloc(), rt.stdout(), rt.stdout().is_terminal())?;
//! let mut err = Direct::new(rt.stderr());
//! let seed = random_seed(&rt);
//! let status = solve_by(rt.alloc(), seed, Kind::Plain, &words(&rt)?, &mut input, &mut out, &mut err);
//! ```
#![tactic(auto)]

mod arguments;
mod failures;
mod headings;
mod joining;
mod joint;
mod judging;
pub mod laws;
mod outcomes;
mod programs;
mod rising;
mod solving;
mod span_lines;
mod span_run;
mod span_words;

pub use arguments::{
    AskedCount, Question, asked_count, asked_join, asked_kind, asked_span, numbered_kind,
};
pub use failures::{input_error, listing_fault, no_problem};
pub use joining::join_spans;
pub use judging::{judge, judge_by};
pub use programs::{exit_code, run_solver};
pub use solving::{solve, solve_by};
pub use span_run::{solve_span, solve_span_by};

// For callers alone: no library here imports by these paths (`scripts/imports`).
pub use xc_streams::{
    Answer, Arguments, CommandLine, Direct, Incoming, Located, NamedFile, Outgoing, Place,
    RandomBytes, SpanFiles, StandardStream, System, SystemReader, SystemWriter, closed_stream,
    named_file, random_seed, read_words, span_files, words,
};
