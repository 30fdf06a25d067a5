//! A text that is known by its digest alone.
ghost use Rattle.std.specs.Prelude.{◌≡◌, List, ℕ, Some, [], flat_map};
ghost use Rattle.xc_text.specs.Texts.{Took};
ghost use Rattle.xc_list.specs.Digests.{begun_digest, after_text, text_digest};

use crate::text_digest::TextDigest;
use xc_text::{Given, Sink, Tally as Flushes, WriteFailed};

/// A sink that takes each text, and of all of them keeps the digest.
#[derive(Drop)]
pub struct DigestSink {
    digest: TextDigest,
    given: Given,
    flushes: Flushes,
    ghost same: { digest ≡ after_text begun_digest (flat_map (λ text. text) given.lines) },
}

impl DigestSink {
    /// It took nothing yet.
    pub fn new() -> DigestSink
        ensures { (⟦<DigestSink as Sink>⟧.state result).taken ≡ Some [] }
    {
        DigestSink {
            digest: TextDigest::new(),
            given: Given::new(),
            flushes: Flushes::new(),
        }
    }

    /// Takes a text.
    #[inline(always)]
    pub fn note(&mut self, text: &[u8])
        ensures { Took (⟦<DigestSink as Sink>⟧.state self.old) (⟦<DigestSink as Sink>⟧.state self.new) text.now }
    {
        self.digest.take(text);
        self.given = Given::after(&self.given, text);
    }

    /// The digest of what it took.
    pub fn text_digits(&self) -> [u8; 16]
        ensures { (text : List ℕ) → (⟦<DigestSink as Sink>⟧.state self.now).taken ≡ Some text
            → result ≡ text_digest text }
    {
        self.digest.digits()
    }
}

impl Sink for DigestSink {
    ghost use Rattle.std.specs.Prelude.{Some, false, true, flat_map};

    ghost state = { λ s. record {
      failures = 0;
      failed = false;
      taken = Some (flat_map (λ text. text) s.given.lines);
      settled = true;
      flushes = s.flushes.count;
    } };

    fn write(&mut self, bytes: &[u8]) -> Result<usize, WriteFailed> {
        self.note(bytes);
        Ok(bytes.len())
    }

    fn flush(&mut self) -> Result<(), WriteFailed> {
        self.flushes = Flushes::one_more(&self.flushes);
        Ok(())
    }
}
