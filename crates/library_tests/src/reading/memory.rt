//! Lack of memory. A test can't refuse a growth: `rt try --test --fail-alloc N -- reading::memory` does.
use crate::fixtures::SEVEN;
use std::alloc::Global;
use xc_input::{Feed, InputError, Kind, Read, Reader, Source, read_problem};

/// Whether so many options were read, or memory was out.
fn is_answer(answer: &Result<Read, InputError>, options: u32) -> bool {
    match answer {
        Ok(read) => read.problem.options() == options,
        Err(e) => *e == InputError::Memory,
    }
}

/// What a reader makes of these lines. Once it refused one, it refuses all after it.
fn read_lines(alloc: Global) -> Result<Read, InputError> {
    let mut reader = Reader::new(alloc, Kind::Colours);
    let lines: [&[u8]; 3] = [b"A B | x", b"A x:red", b"B x:red"];
    for line in &lines {
        if reader.line(*line).is_err() {
            break;
        }
    }
    reader.finish()
}

#[test]
fn a_reader_answers_or_wants_memory(rt: HostRuntime) {
    assert!(rt; is_answer(&read_lines(rt.alloc()), 2));
}

#[test]
fn nothing_is_read_behind_a_refused_growth(rt: HostRuntime) {
    let mut source = Feed::new(SEVEN, SEVEN.len(), None);
    let answer = read_problem(rt.alloc(), Kind::Plain, &mut source);
    assert!(rt; is_answer(&answer, 6));
    // The whole text was read, or nothing, if the buffer was refused.
    let next = source.read(&mut [0; 64]);
    assert!(rt; next == Ok(0) || answer.is_err() && next == Ok(SEVEN.len()));
}
