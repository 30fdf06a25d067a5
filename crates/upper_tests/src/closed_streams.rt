//! The process's own streams, which are open, and files that aren't there.
use crate::told::{Told, words_of};
use std::alloc::Global;
use std::test::Fail;
use xc_input::Feed;
use xc_list::Tray;
use xc_tools::{closed_stream, join_spans, judge, named_file, span_files};

#[test]
fn open_streams(rt: HostRuntime) -> Result<(), Fail> {
    let mut err = Tray::new(rt.alloc(), 100, 100, false)?;
    let open = rt.stdout();
    let is_open = closed_stream(&open, &open, &open, &mut err).is_none() && err.bytes().is_empty();
    assert!(rt; is_open);
    Ok(())
}

/// The status of the judge of a file that isn't there, over an empty listing.
fn judge_of_missing(rt: &HostRuntime, words: &[Vec<u8>], told: &mut Told) -> u8 {
    let mut problem = named_file(rt, words);
    let mut listing = Feed::new(b"", 1, None);
    judge(
        rt.alloc(),
        words,
        &mut problem,
        &mut listing,
        &mut told.out,
        &mut told.err,
    )
}

/// The status of a join of a file that isn't there.
fn join_of_missing(rt: &HostRuntime, words: &[Vec<u8>], told: &mut Told) -> Option<u8> {
    let mut input = span_files(rt.alloc(), rt, words.get(1..)?, rt.stdin()).ok()?;
    Some(join_spans(rt.alloc(), words, &mut input, &mut told.out, &mut told.err))
}

/// What one of them reports.
fn told_of_missing(rt: &HostRuntime, words: &[u8]) -> Option<Told> {
    let mut told = Told::new(rt.alloc(), 100)?;
    if let Ok(words) = words_of(rt.alloc(), words) {
        told.status = if words.len() == 1 {
            Some(judge_of_missing(rt, &words, &mut told))
        } else {
            join_of_missing(rt, &words, &mut told)
        };
    }
    Some(told)
}

#[test]
fn missing_files(rt: HostRuntime) {
    let judged = told_of_missing(&rt, b"data/missing.dlx");
    assert!(rt; Told::was(judged, 3, b"", b"Read failed.\n"));
    let joined = told_of_missing(&rt, b"m0,missing.span");
    assert!(rt; Told::was(joined, 3, b"", b"missing.span: read failed.\n"));
}
