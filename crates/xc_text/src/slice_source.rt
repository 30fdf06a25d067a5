//! A source over bytes that are in memory.
//!
//! It is a type of its own. An impl for `&[u8]`, as std has it for `Read`, couldn't record what the source gave.

ghost use Rattle.std.specs.Prelude.{◌≡◌, ◌+◌, ◌<◌, ◌≤◌, [], ◌∷◌, ◌++◌, take, drop, Some, length, min, IfOk, IsOk};
ghost use Rattle.std.specs.Prelude.{OnErr, is_err};
ghost use Rattle.std.specs.Io.KnownBytes.{ReadConsumes};
ghost use Rattle.xc_text.specs.Calls.{counted, GivesMost};

use crate::given::Given;
use crate::source::{ReadFailed, Source};
use std::fmt;

/// A source over bytes that are in memory. Each read returns as many of them as the buffer has room
/// for, and none fails. Contracts know its bytes.
/// A type of its own, since contracts need the bytes that were read, which a `&[u8]` alone doesn't keep.
#[derive(Drop)]
pub struct SliceSource<'a> {
    left: &'a [u8],
    given: Given,
}

impl<'a> SliceSource<'a> {
    /// A source over these bytes.
    pub fn new(bytes: &'a [u8]) -> SliceSource<'a>
        ensures rest { (⟦<SliceSource<'a> as Source>⟧.state result).rest ≡ Some bytes.now }
        ensures given { (⟦<SliceSource<'a> as Source>⟧.state result).given ≡ [] }
    {
        SliceSource {
            left: bytes,
            given: Given::new(),
        }
    }
}

impl<'a> Source for SliceSource<'a> {
    ghost state = { λ s. record {
      failures = 0;
      limit = length s.left.now;
      rest = Some s.left.now;
      given = s.given.lines;
    } };

    ghost reads = { λ old before new after result. IsOk result
        × GivesMost (length old.left.now) before after result };

    fn read(&mut self, buf: &mut [u8]) -> Result<usize, ReadFailed>
        requires { 0 < length buf.old }
        ensures bound { IfOk result (λ n. n ≤ length buf.new) }
        ensures limit { IfOk result (λ n. length self.new.left.now + n ≡ length self.old.left.now) }
        ensures limit_kept { OnErr result (length self.new.left.now ≡ length self.old.left.now) }
        ensures failures { 0 ≡ counted (is_err result) 0 }
        ensures bytes { ReadConsumes (Some self.old.left.now) (Some self.new.left.now) result buf.new }
        ensures given { IfOk result (λ n.
            self.new.given.lines ≡ self.old.given.lines ++ take n buf.new ∷ []) }
        ensures given_kept { OnErr result (self.new.given.lines ≡ self.old.given.lines) }
        ensures reads { IsOk result × GivesMost (length self.old.left.now) buf.old buf.new result }
    {
        let all = self.left;
        let n = all.len().min(buf.len());
        buf[..n].copy_from_slice(&all[..n]);
        self.left = &all[n..];
        self.given = Given::after(&self.given, &all[..n]);
        Ok(n)
    }
}

/// How many bytes are left.
impl<'a> fmt::Debug for SliceSource<'a> {
    ghost use Rattle.std.specs.Prelude.{◌++◌, Some, codes, length};
    ghost use Rattle.std.specs.Fmt.{decimal};

    ghost debug_output = { λ s. Some (codes "SliceSource { left: " ++ decimal (length s.left.now) ++ codes " }") };

    fn fmt<W: fmt::Write>(&self, f: &mut fmt::Formatter<W>) -> fmt::Result {
        let left = self.left.len();
        write!(f, "SliceSource {{ left: {left} }}")
    }
}
