//! The system: its readers and writers as sources and sinks, the words of a command line, and the statuses that programs
//! end with.
//!
//! ```text
//! let mut input = Incoming::new(Some(rt.stdin()));
//! let mut out = Outgoing::new(rt.alloc(), rt.stdout(), rt.stdout().is_terminal())?;
//! write_number(&mut out, 7)?;
//! out.flush()?;
//! ```
#![tactic(auto)]

mod arguments;
mod closed_streams;
mod direct;
mod incoming;
pub mod laws;
mod lazy_file;
mod located;
mod outgoing;
mod seeding;
mod shown_names;
mod span_source;
pub mod status;
mod system;

pub use arguments::{Arguments, CommandLine, named_file, read_words, words};
pub use closed_streams::{StandardStream, closed_stream};
pub use direct::Direct;
pub use incoming::Incoming;
pub use lazy_file::NamedFile;
pub use located::{Located, Place};
pub use outgoing::Outgoing;
pub use seeding::{RandomBytes, random_seed};
pub use shown_names::{source_at, source_text};
pub use span_source::{SpanFiles, span_files};
pub use system::{Answer, System, SystemReader, SystemWriter};
