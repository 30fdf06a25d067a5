//! Exact cover problems, read, searched and judged: what a caller needs of the libraries, under one name.
//! The three programs below are in `examples.rt` of `search_tests` too, where they are run. Each is over a
//! problem as it was read:
//!
//! ```text
//! let problem = read_problem(alloc, Kind::Bounds, &mut SliceSource::new(text))?.problem;
//! ```
//!
//! The first cover of a problem, as numbers of options:
//!
//! ```text
//! fn next_cover(alloc: Global, search: &mut Search<Links>) -> Result<Option<Vec<u32>>> {
//!     let Some(choices) = search.next_solution() else {
//!         return Ok(None);
//!     };
//!     Ok(Some(choices.iter().filter_map(|c| c.option).collect(alloc)?))
//! }
//!
//! fn first_cover(alloc: Global, problem: &Problem) -> Result<Option<Vec<u32>>> {
//!     let links = Links::for_search(alloc, problem)?;
//!     let mut search = Search::begin(alloc, links, problem)?;
//!     next_cover(alloc, &mut search)
//! }
//! ```
//!
//! How many solutions there are, up to a limit:
//!
//! ```text
//! fn count(alloc: Global, problem: &Problem, limit: u64) -> Result<u64> {
//!     let words = Words { spacing: 0, limit };
//!     let end = run(alloc, problem, words, &mut VecSink::new(alloc))?;
//!     Ok(end.solutions())
//! }
//! ```
//!
//! Whether a listing has only covers:
//!
//! ```text
//! fn are_covers(alloc: Global, problem: &Problem, listing: &[u8]) -> Result<bool> {
//!     let verdicts = check(alloc, problem, listing)?;
//!     Ok(verdicts.iter().all(|v| v.cover))
//! }
//! ```
#![tactic(auto)]

pub mod cheapest;
pub mod counting;

pub use xc_dance::{Count, Dance, Full, Links, Listed, Lists, Memory, Move, list_of};
pub use xc_input::{
    Bounds, FaultKind, FaultyToken, Feed, InputError, Item, Kind, Options, Problem, Read,
    ReadFailed, Reader, Seed, SliceSource, Source, Use, faulty_token, read_problem,
    read_problem_by,
};
pub use xc_list::{
    End, ListingFault, Sink, SinkFault, Tray, VecSink, Verdict, WordFault, Words, WriteFailed,
    check, is_cover, run, run_over, summary, warnings, write_all, write_solution,
};
pub use xc_search::{Choice, NoSearch, Search, Step, branches, choose, most_moves};
pub use xc_tools::{Direct, Incoming, Outgoing, random_seed};
