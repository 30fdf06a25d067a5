//! Lines as they come from a source, with what is behind the last line feed.
use std::alloc::Global;
use xc_input::{Feed, LineReader, Unread};

const TEXT: &[u8] = b"ab\n\ncd\nef";

const LINES: [&[u8]; 3] = [b"ab\n", b"\n", b"cd\n"];

/// Whether the lines come in order, where a read gives so many bytes and the read of this number fails.
fn come_in_order(alloc: Global, step: usize, fail_at: Option<u64>) -> Result<bool, Unread> {
    let mut reader = LineReader::new(alloc)?;
    let mut source = Feed::new(TEXT, step.max(1), fail_at);
    for line in &LINES {
        if !reader.advance(&mut source)? || reader.last_line() != *line {
            return Ok(false);
        }
    }
    Ok(!reader.advance(&mut source)? && reader.rest() == b"ef".as_slice())
}

#[test]
fn lines_in_pieces(rt: HostRuntime) {
    for step in 1..=TEXT.len() {
        assert!(rt; come_in_order(rt.alloc(), step, None) == Ok(true));
    }
    // Three reads of three bytes, and one that gives the end.
    for call in 1..=4 {
        assert!(rt; come_in_order(rt.alloc(), 3, Some(call)) == Err(Unread::Device));
    }
    assert!(rt; come_in_order(rt.alloc(), 3, Some(5)) == Ok(true));
}
