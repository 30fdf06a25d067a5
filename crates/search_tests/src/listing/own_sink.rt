//! A sink of a caller's own, which grows.
ghost use Rattle.std.specs.Prelude.{None, true};

use library_tests::fixtures::{SEVEN, SEVEN_LISTING, Wanted, wrong_row};
use std::alloc::Global;
use xc_input::{Kind, Problem};
use xc_list::{End, Flushes, Sink, Words, WriteFailed, run};

#[derive(Drop)]
struct Growing {
    bytes: Vec<u8>,
    failures: u64,
    failed: bool,
    flushes: Flushes,
}

impl Sink for Growing {
    ghost state = { λ s. record {
      failures = s.failures;
      failed = s.failed;
      taken = None;
      settled = true;
      flushes = s.flushes.count;
    } };

    fn write(&mut self, bytes: &[u8]) -> Result<usize, WriteFailed> {
        self.failed = self.bytes.extend_from_slice(bytes).is_err();
        if self.failed {
            self.failures = self.failures.saturating_add(1);
            return Err(WriteFailed);
        }
        Ok(bytes.len())
    }

    fn flush(&mut self) -> Result<(), WriteFailed> {
        self.failed = false;
        self.flushes = Flushes::one_more(&self.flushes);
        Ok(())
    }
}

/// The listing of a problem.
struct Listing(&'static [u8]);

const LISTINGS: [(Kind, &[u8], Listing); 1] = [(Kind::Plain, SEVEN, Listing(SEVEN_LISTING))];

impl Wanted for Listing {
    fn is_so(&self, alloc: Global, problem: &Problem) -> bool {
        let mut sink = Growing {
            bytes: Vec::new(alloc),
            failures: 0,
            failed: false,
            flushes: Flushes::new(),
        };
        let words = Words {
            spacing: 1,
            limit: u64::MAX,
        };
        let is_run = run(alloc, problem, words, &mut sink) == Ok(End::Done(1));
        is_run && sink.flush().is_ok() && sink.bytes.as_slice() == self.0 && sink.failures == 0
    }
}

#[test]
fn a_sink_that_grows(rt: HostRuntime) {
    assert_eq!(rt; wrong_row(rt.alloc(), &LISTINGS), None);
}
