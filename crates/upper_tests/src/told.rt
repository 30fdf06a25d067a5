//! What whole runs report.
use bstr::ByteSlice;
use std::alloc::{AllocError, Global};
use xc_input::{Feed, Kind};
use xc_list::Tray;
use xc_tools::{join_spans, judge, solve, solve_span};

/// What is run over a text.
pub enum Tool<'a> {
    Solve(Kind),
    /// The judge of this listing of the problem in the text.
    Judge(&'a [u8]),
    Span,
    Join,
}

/// These words, which stand between commas.
pub fn words_of(alloc: Global, text: &[u8]) -> Result<Vec<Vec<u8>>, AllocError> {
    let mut words = Vec::new(alloc);
    for word in text.split_str(b",") {
        words.push(word.to_vec(alloc)?)?;
    }
    Ok(words)
}

/// What a program reports: its status, if it was run, its listing and its messages.
#[derive(Drop)]
pub struct Told {
    pub status: Option<u8>,
    pub out: Tray,
    pub err: Tray,
}

impl Told {
    /// Nothing yet. There is room for a thousand bytes of each, which are taken so many at a time.
    pub fn new(alloc: Global, step: usize) -> Option<Told> {
        let out = Tray::new(alloc, step.max(1), 1000, false).ok()?;
        let err = Tray::new(alloc, step.max(1), 1000, false).ok()?;
        Some(Told {
            status: None,
            out,
            err,
        })
    }

    /// Whether this was reported.
    pub fn was(told: Option<Told>, status: u8, out: &[u8], err: &[u8]) -> bool {
        match told {
            Some(told) => {
                told.status == Some(status) && told.out.bytes() == out && told.err.bytes() == err
            }
            None => false,
        }
    }
}

/// The status of a run over a text that is read by steps of so many bytes.
fn status_of(
    alloc: Global,
    tool: &Tool,
    words: &[Vec<u8>],
    text: &[u8],
    step: usize,
    told: &mut Told,
) -> u8 {
    let Told { out, err, .. } = told;
    let mut input = Feed::new(text, step.max(1), None);
    match tool {
        Tool::Solve(kind) => solve(alloc, *kind, words, &mut input, out, err),
        Tool::Judge(listing) => {
            let mut listing = Feed::new(*listing, step.max(1), None);
            judge(alloc, words, &mut input, &mut listing, out, err)
        }
        Tool::Span => solve_span(alloc, words, &mut input, out, err),
        Tool::Join => join_spans(alloc, words, &mut input, out, err),
    }
}

/// What a run by these words reports, where bytes are read and written so many at a time.
pub fn told_by(alloc: Global, tool: &Tool, words: &[u8], text: &[u8], step: usize) -> Option<Told> {
    let mut told = Told::new(alloc, step)?;
    let words = words_of(alloc, words).ok()?;
    told.status = Some(status_of(alloc, tool, &words, text, step, &mut told));
    Some(told)
}
