//! The system's streams as sinks, over a writer that takes few bytes at a call.
use std::alloc::Global;
use std::io::Write;
use std::test::Fail;
use xc_list::{Sink, write_all};
use xc_tools::{Direct, Outgoing};

/// Takes at most 3000 bytes at a call, and counts its flushes.
#[derive(Drop)]
struct Narrow {
    bytes: Vec<u8>,
    flushes: u64,
}

impl Narrow {
    fn new(alloc: Global) -> Narrow {
        Narrow {
            bytes: Vec::new(alloc),
            flushes: 0,
        }
    }
}

impl Write for Narrow {
    fn write(&mut self, buf: &[u8]) -> std::io::Result<usize> {
        let n = buf.len().min(3000);
        self.bytes.extend_from_slice(&buf[..n])?;
        Ok(n)
    }

    fn flush(&mut self) -> std::io::Result<()> {
        self.flushes = self.flushes.saturating_add(1);
        Ok(())
    }
}

fn writes_and_flushes<S: Sink>(sink: &mut S, text: &[u8]) -> bool {
    write_all(sink, text).is_ok() && sink.flush().is_ok()
}

/// Whether a sink that holds back takes a text.
fn is_held(alloc: Global, text: &[u8], writer: &mut Narrow) -> bool {
    match Outgoing::new(alloc, writer, false) {
        Ok(mut sink) => writes_and_flushes(&mut sink, text),
        Err(_) => false,
    }
}

/// Whether a writer gets a text whole, and one flush after it, through a sink that holds back or doesn't.
fn is_passed(alloc: Global, text: &[u8], held: bool) -> bool {
    let mut writer = Narrow::new(alloc);
    let taken = if held {
        is_held(alloc, text, &mut writer)
    } else {
        writes_and_flushes(&mut Direct::new(&mut writer), text)
    };
    taken && writer.bytes.as_slice() == text && writer.flushes == 1
}

#[test]
fn short_writes_of_a_long_text(rt: HostRuntime) -> Result<(), Fail> {
    // More than twice what a sink holds back; no 65,536 bytes are like the next.
    let text = b" A (1 of 3)\n".repeat(rt.alloc(), 12_000)?;
    assert!(rt; is_passed(rt.alloc(), &text, true) && is_passed(rt.alloc(), &text, false));
    Ok(())
}
