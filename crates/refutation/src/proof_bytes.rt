//! The bytes of a proof.
ghost use Rattle.std.specs.Prelude.{◌≡◌, is_err};
ghost use Rattle.xc_text.specs.Calls.{counted};

use std::alloc::{AllocError, Global};
use std::marker::Model;
use xc_text::{ReadFailed, Source};

/// How many bytes are read from a source at once.
const PIECE: usize = 65536;

/// The bytes of a proof, one after another. No more of them than one read may give are held.
#[derive(Drop)]
pub(crate) struct ProofBytes {
    store: Vec<u8>,
    /// The bytes that were read and not yet taken are from here ..
    at: usize,
    /// .. to here.
    to: usize,
}

impl Model for ProofBytes {
    ghost use Rattle.std.specs.Prelude.{◌-◌, ◌<◌, ◌≤◌, ℕ, length};

    ghost Value = { ℕ };

    ghost view = { λ b. b.to - b.at };

    ghost invariant = { λ b. (0 < length b.store.items) × (b.at ≤ b.to) × (b.to ≤ length b.store.items) };
}

impl ProofBytes {
    /// None yet.
    pub(crate) fn new(alloc: Global) -> Result<ProofBytes, AllocError> {
        Ok(ProofBytes {
            store: vec![in alloc; 0; PIECE]?,
            at: 0,
            to: 0,
        })
    }

    /// The bytes that were read and not yet taken.
    pub(crate) fn held(&self) -> &[u8] {
        &self.store[self.at..self.to]
    }

    /// Reads until there are this many bytes, or the source ends.
    pub(crate) fn fill<S: Source>(&mut self, source: &mut S, many: usize) -> Result<(), ReadFailed>
        ensures { (S.state source.new).failures ≡ counted (is_err result) (S.state source.old).failures }
    {
        for _ in 0..many {
            if self.to >= many || self.to >= self.store.len() {
                return Ok(());
            }
            let len = source.read(&mut self.store[self.to..])?;
            if len == 0 {
                return Ok(());
            }
            self.to += len;
        }
        Ok(())
    }

    /// Reads once.
    fn refill<S: Source>(&mut self, source: &mut S) -> Result<Option<u8>, ReadFailed>
        ensures { (S.state source.new).failures ≡ counted (is_err result) (S.state source.old).failures }
    {
        self.at = 0;
        self.to = 0;
        self.to = source.read(self.store.as_mut_slice())?;
        if self.to == 0 {
            return Ok(None);
        }
        Ok(Some(self.store[0]))
    }

    /// The next byte, if one is left.
    #[inline(always)]
    pub(crate) fn peek<S: Source>(&mut self, source: &mut S) -> Result<Option<u8>, ReadFailed>
        ensures { (S.state source.new).failures ≡ counted (is_err result) (S.state source.old).failures }
    {
        if self.at < self.to {
            return Ok(Some(self.store[self.at]));
        }
        self.refill(source)
    }

    /// Passes over the next byte.
    #[inline(always)]
    pub(crate) fn skip(&mut self) {
        if self.at < self.to {
            self.at += 1;
        }
    }

    /// Takes the next byte, if one is left.
    #[inline(always)]
    pub(crate) fn next<S: Source>(&mut self, source: &mut S) -> Result<Option<u8>, ReadFailed>
        ensures { (S.state source.new).failures ≡ counted (is_err result) (S.state source.old).failures }
    {
        let byte = self.peek(source)?;
        self.skip();
        Ok(byte)
    }
}
