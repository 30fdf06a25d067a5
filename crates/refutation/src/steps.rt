//! The steps of a proof in DRAT: clauses that are added, and clauses that are dropped.
ghost use Rattle.std.specs.Prelude.{◌≡◌, is_err};
ghost use Rattle.xc_text.specs.Calls.{counted};
ghost use Rattle.xc_text.specs.WholeTexts.{IsCounted};

use crate::binary::{binary_kind, binary_word};
use crate::proof_bytes::ProofBytes;
use crate::text::{text_kind, text_word};
use std::alloc::{AllocError, Global};
use xc_text::{ReadFailed, Source, Unread};

/// How many bytes say whether a proof is a text.
const FIRST_BYTES: usize = 10;

/// What a step does with its clause.
#[derive(Clone, Copy)]
pub(crate) enum Kind {
    Add,
    Drop,
    /// There is no further step.
    End,
    /// What is there is no step.
    Fault,
}

/// What the next word of a step is.
#[derive(Clone, Copy)]
pub(crate) enum Word {
    Literal(u32),
    /// The end of the step.
    Zero,
    Fault,
}

/// The steps of a proof in DRAT, as text or binary.
#[derive(Drop)]
pub(crate) struct Steps {
    bytes: ProofBytes,
    is_binary: bool,
}

/// Whether a text may have this byte: a digit, a minus sign, white space, or a letter, as of a comment.
fn is_of_text(byte: u8) -> bool {
    byte.is_ascii_alphanumeric() || matches!(byte, b'-' | b' ' | b'\t' | b'\n' | b'\r')
}

/// Whether a proof that begins so is binary. One that begins with `a` is, and so is one that begins with `d` whose
/// first ten bytes have one that a text doesn't have. No other letter begins a binary proof.
fn is_binary(first: &[u8]) -> bool {
    match first.first() {
        Some(b'a') => true,
        Some(b'd') => first
            .iter()
            .take(FIRST_BYTES)
            .any(|byte| !is_of_text(*byte)),
        _ => false,
    }
}

impl Steps {
    /// The steps that come from a source.
    pub(crate) fn new<S: Source>(alloc: Global, source: &mut S) -> Result<Steps, Unread>
        ensures { IsCounted (S.state source.old).failures (S.state source.new).failures result }
    {
        let mut bytes = ProofBytes::new(alloc)?;
        bytes.fill(source, FIRST_BYTES)?;
        let is_binary = is_binary(bytes.held());
        Ok(Steps { bytes, is_binary })
    }

    /// What the next step does.
    fn kind<S: Source>(&mut self, source: &mut S) -> Result<Kind, ReadFailed>
        ensures { (S.state source.new).failures ≡ counted (is_err result) (S.state source.old).failures }
    {
        if self.is_binary {
            binary_kind(&mut self.bytes, source)
        } else {
            text_kind(&mut self.bytes, source)
        }
    }

    /// The next word of a step.
    fn word<S: Source>(&mut self, source: &mut S) -> Result<Word, ReadFailed>
        ensures { (S.state source.new).failures ≡ counted (is_err result) (S.state source.old).failures }
    {
        if self.is_binary {
            binary_word(&mut self.bytes, source)
        } else {
            text_word(&mut self.bytes, source)
        }
    }

    /// Reads the next step, and its clause.
    pub(crate) fn next<S: Source>(
        &mut self,
        source: &mut S,
        clause: &mut Vec<u32>,
    ) -> Result<Kind, Unread>
        ensures { IsCounted (S.state source.old).failures (S.state source.new).failures result }
    {
        clause.clear();
        let kind = self.kind(source)?;
        if matches!(kind, Kind::End | Kind::Fault) {
            return Ok(kind);
        }
        for _ in 0..usize::MAX {
            match self.word(source)? {
                Word::Literal(literal) => clause.push(literal).map_err(AllocError::from)?,
                Word::Zero => return Ok(kind),
                Word::Fault => return Ok(Kind::Fault),
            }
        }
        Ok(Kind::Fault)
    }
}
