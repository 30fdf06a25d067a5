//! Where bytes come from.
//!
//! A source is asked for bytes and nothing else, so that a caller's own needs one method. By which seed the names in its
//! text are hashed is an argument of the calls that read a problem (`read_problem_by`).
//!
//! It records what each read gave, for contracts alone. So what is proved of a text also holds for a stream whose bytes
//! aren't known before they are read.

ghost use Rattle.std.specs.Prelude.{◌≡◌, ◌+◌, ◌-◌, ◌<◌, ◌≤◌, ◌↔◌, ℕ, List, [], ◌∷◌, ◌++◌, take, drop, Option, Some};
ghost use Rattle.std.specs.Prelude.{Result, length, min, IfOk, IsErr, IsTrue, OnErr, is_err};
ghost use Rattle.std.specs.Io.KnownBytes.{ReadConsumes};
ghost use Rattle.xc_text.specs.Calls.{counted, fewer_calls, GivesMost};
ghost use Rattle.xc_text.specs.Sources.{SourceState};
ghost use Rattle.xc_text.specs.declared.source.ReadFailed.{ReadFailed};

use crate::given::Given;
use std::alloc::{AllocError, Global};
use std::fmt;
use thiserror::Error;

/// How many bytes are read from a source at once. The buffer is filled with zeros first: that of 64 KB took 1 % of the
/// instructions of a short run.
const PIECE: usize = 16384;

/// A read that failed.
#[derive(Clone, Copy, Debug, PartialEq, Eq, Error)]
#[error("a read failed")]
pub struct ReadFailed;

/// A buffer of zeros for one read.
// A function of its own: a vector that is made where it is read into gets no proof.
pub(crate) fn read_buffer(alloc: Global) -> Result<Vec<u8>, AllocError>
    ensures { IfOk result (λ v. length v.items ≡ PIECE) }
{
    vec![in alloc; 0; PIECE]
}

/// Where bytes come from.
pub trait Source {
    /// What contracts know of it: its failures, how many bytes may still come, and which came.
    ghost state: { Self → SourceState };

    /// What else holds of a read of this source: of the source and the buffer before, of both after, and of the
    /// result.
    ghost reads: { Self → List ℕ → Self → List ℕ → Result ℕ ReadFailed → Type 0 } = { λ _ _ _ _ _. Unit {0} };

    /// Reads into the front of the buffer, and says how many bytes. 0 is the end of the input.
    fn read(&mut self, buf: &mut [u8]) -> Result<usize, ReadFailed>
        requires { 0 < length buf.old }
        ensures bound { IfOk result (λ n. n ≤ length buf.new) }
        ensures limit { IfOk result (λ n. (state self.new).limit + n ≡ (state self.old).limit) }
        ensures limit_kept { OnErr result ((state self.new).limit ≡ (state self.old).limit) }
        ensures failures { (state self.new).failures ≡ counted (is_err result) (state self.old).failures }
        ensures bytes { ReadConsumes (state self.old).rest (state self.new).rest result buf.new }
        ensures given { IfOk result (λ n. (state self.new).given ≡ (state self.old).given ++ take n buf.new ∷ []) }
        ensures given_kept { OnErr result ((state self.new).given ≡ (state self.old).given) }
        ensures reads { reads self.old buf.old self.new buf.new result };
}

/// A source over memory. Contracts know its bytes.
#[derive(Drop)]
pub struct Feed<'a> {
    left: &'a [u8],
    step: usize,
    calls_to_failure: Option<u64>,
    failures: u64,
    given: Given,
    ghost moves: { 0 < step },
}

impl<'a> Feed<'a> {
    /// It returns at most `step` bytes at a call, and the call numbered `fail_at`, from 1, fails; none
    /// does for `None` or 0.
    pub fn new(bytes: &'a [u8], step: usize, fail_at: Option<u64>) -> Feed<'a>
        requires { 0 < step }
        ensures rest { (⟦<Feed<'a> as Source>⟧.state result).rest ≡ Some bytes.now }
        ensures step { result.step ≡ step }
        ensures fail_at { result.calls_to_failure ≡ fail_at }
        ensures failures { (⟦<Feed<'a> as Source>⟧.state result).failures ≡ 0 }
    {
        Feed {
            left: bytes,
            step,
            calls_to_failure: fail_at,
            failures: 0,
            given: Given::new(),
        }
    }

    /// Whether this call fails.
    fn fails_now(&mut self) -> bool
        ensures left { self.new.left ≡ self.old.left }
        ensures failures { self.new.failures ≡ self.old.failures }
        ensures step { self.new.step ≡ self.old.step }
        ensures given { self.new.given ≡ self.old.given }
        ensures now { IsTrue result ↔ (self.old.calls_to_failure ≡ Some 1) }
        ensures nearer { self.new.calls_to_failure ≡ fewer_calls self.old.calls_to_failure }
    {
        match self.calls_to_failure {
            None => false,
            Some(n) => {
                self.calls_to_failure = n.checked_sub(1);
                n == 1
            }
        }
    }
}

impl<'a> Source for Feed<'a> {
    ghost state = { λ s. record {
      failures = s.failures;
      limit = length s.left.now;
      rest = Some s.left.now;
      given = s.given.lines;
    } };

    ghost reads = { λ old before new after result. (IsErr result ↔ (old.calls_to_failure ≡ Some 1))
        × GivesMost (min (length old.left.now) old.step) before after result };

    fn read(&mut self, buf: &mut [u8]) -> Result<usize, ReadFailed>
        requires { 0 < length buf.old }
        ensures bound { IfOk result (λ n. n ≤ length buf.new) }
        ensures limit { IfOk result (λ n. length self.new.left.now + n ≡ length self.old.left.now) }
        ensures limit_kept { OnErr result (length self.new.left.now ≡ length self.old.left.now) }
        ensures failures { self.new.failures ≡ counted (is_err result) self.old.failures }
        ensures bytes { ReadConsumes (Some self.old.left.now) (Some self.new.left.now) result buf.new }
        ensures given { IfOk result (λ n.
            self.new.given.lines ≡ self.old.given.lines ++ take n buf.new ∷ []) }
        ensures given_kept { OnErr result (self.new.given.lines ≡ self.old.given.lines) }

        // The call that is to fail does, and no other.
        ensures reads { (IsErr result ↔ (self.old.calls_to_failure ≡ Some 1))
            × GivesMost (min (length self.old.left.now) self.old.step) buf.old buf.new result }
        ensures nearer { self.new.calls_to_failure ≡ fewer_calls self.old.calls_to_failure }
        ensures step { self.new.step ≡ self.old.step }
    {
        if self.fails_now() {
            self.failures = self.failures.saturating_add(1);
            return Err(ReadFailed);
        }
        let all = self.left;
        let n = all.len().min(self.step).min(buf.len());
        buf[..n].copy_from_slice(&all[..n]);
        self.left = &all[n..];
        self.given = Given::after(&self.given, &all[..n]);
        Ok(n)
    }
}

/// How many bytes are left, and how many calls failed.
impl<'a> fmt::Debug for Feed<'a> {
    ghost use Rattle.std.specs.Prelude.{◌++◌, Some, codes, length};
    ghost use Rattle.std.specs.Fmt.{decimal};

    ghost debug_output = { λ s. Some (codes "Feed { left: " ++ decimal (length s.left.now)
        ++ codes ", failures: " ++ decimal s.failures ++ codes " }") };

    fn fmt<W: fmt::Write>(&self, f: &mut fmt::Formatter<W>) -> fmt::Result {
        let left = self.left.len();
        let failures = self.failures;
        write!(f, "Feed {{ left: {left}, failures: {failures} }}")
    }
}
