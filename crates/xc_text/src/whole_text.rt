//! Reads a whole text.
ghost use Rattle.std.specs.Prelude.{IfOk};
ghost use Rattle.xc_text.specs.Sources.{GaveAll};
ghost use Rattle.xc_text.specs.WholeTexts.{IsCounted};

use crate::line_reader::Unread;
use crate::source::{Source, read_buffer};
use std::alloc::Global;

/// All that comes from a source.
#[tactic(auto, using(std::proofs::lemmas::Grind::common_steps, crate::proofs::LineLemmas::gave_more))]
pub fn read_text<S: Source>(alloc: Global, source: &mut S) -> Result<Vec<u8>, Unread>
    ensures whole { IfOk result (λ text. GaveAll (S.state source.old) (S.state source.new) text.items) }
    ensures counted { IsCounted (S.state source.old).failures (S.state source.new).failures result }
{
    let mut text = Vec::new(alloc);
    let mut store = read_buffer(alloc)?;
    let buf = store.as_mut_slice();
    'reading: loop {
        let n = source.read(buf)?;
        if n == 0 {
            return Ok(text);
        }
        text.extend_from_slice(&buf[..n])?;
    }
}
