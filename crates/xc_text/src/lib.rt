//! Bytes in and bytes out, below all problems: sources and their lines, sinks and what is written to them, places and
//! numbers in texts, the seed of hashes, and what only proofs read.
//!
//! ```text
//! let mut source = SliceSource::new(b"a b\na\n");
//! let mut lines = LineReader::new(alloc)?;
//! while lines.advance(&mut source)? {
//!     write_all(&mut sink, lines.last_line())?;
//! }
//! ```
#![tactic(auto)]

mod bytes;
mod digits;
mod given;
pub mod laws;
mod line;
mod line_reader;
mod memory;
mod noted;
mod seed;
mod sink;
mod slice_source;
mod source;
mod tally;
mod vec_sink;
mod whole_text;
mod write;

pub use bytes::{before_last, cut_at, cut_line, has_byte, is_white, point_parts};
pub use digits::{all_digits, are_digits, long_number, number_of};
pub use given::Given;
pub use line::write_line;
pub use line_reader::{LineReader, Unread};
pub use memory::Memory;
pub use noted::Noted;
pub use seed::{FoldingHasher, Seed, folded};
pub use sink::{Sink, Tray, WriteFailed};
pub use slice_source::SliceSource;
pub use source::{Feed, ReadFailed, Source};
pub use tally::Tally;
pub use vec_sink::VecSink;
pub use whole_text::read_text;
pub use write::{SinkFault, write_all, write_number, write_numbered, write_two_numbers};
