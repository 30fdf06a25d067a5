//! Listings of exact cover problems: words, texts, runs, and listings judged.
//!
//! ```text
//! let words = Words { spacing: 1, limit: 10 };
//! let end = run(alloc, &problem, words, &mut listing)?;
//! summary(&end, &mut messages)?;
//!
//! for verdict in check(alloc, &problem, text)? {
//!     let right = verdict.cover;
//! }
//! ```
#![tactic(auto)]

mod asked;
mod bodies;
mod checked;
mod digest;
mod digest_sink;
mod ends;
pub mod laws;
mod messages;
mod page;
mod places;
mod print;
mod runs;
mod span_words;
mod spans;
mod text_digest;
mod uses;
mod words;

pub use asked::SpanWords;
pub use checked::check;
pub use digest::problem_digest;
pub use ends::{End, SpanFault};
pub use messages::{solutions_word, summary, warnings, word_fault};
pub use print::{write_choices, write_solution};
pub use runs::{run, run_over, run_over_links};
pub use spans::{list_span, list_span_over};
pub use text_digest::TextDigest;
pub use words::{WordFault, Words};

// For callers alone: no library here imports by these paths (`scripts/imports`).
pub use xc_check::{ListingFault, Verdict, branch_number, is_cover};
pub use xc_text::{
    Sink, SinkFault, Tally as Flushes, Tray, VecSink, WriteFailed, write_all, write_line,
    write_number,
};
