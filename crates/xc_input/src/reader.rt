//! A reader that is fed line by line.

ghost use Rattle.std.specs.Prelude.{◌≡◌, ◌≢◌, IfOk, IfErr, ℕ, List, ◌++◌, [], ◌∷◌, None, Some, IfSome, false};
ghost use Rattle.std.specs.Prelude.{◌||◌, true};
ghost use Rattle.std.specs.Result.{result_err};
ghost use Rattle.xc_input.specs.Readings.{IsErrorFor, IsStateOf};
ghost use Rattle.xc_input.specs.FirstFault.{first_fault};
ghost use Rattle.xc_input.specs.inner.Builders.{error_at};
ghost use Rattle.xc_input.specs.Named.{Named, IsSound};
ghost use Rattle.xc_text.specs.Words.{has};
ghost use Rattle.xc_input.specs.Tokens.{is_skipped};
ghost use Rattle.xc_input.specs.Text.{StandsFor};

use crate::line_error::LineError;
use crate::outcome::Read;
use crate::problem::Problem;
use crate::stage::ProblemBuilder;
use crate::{FaultKind, InputError, Kind};
use std::alloc::Global;
use std::fmt;
use std::marker::Model;
use xc_text::{Given, Seed};

/// Reads a problem, line by line.
#[derive(Drop)]
pub struct Reader {
    given: Given,
    alloc: Global,
    kind: Kind,
    count: u64,
    builder: ProblemBuilder,
    error: Option<InputError>,
}

impl Model for Reader {
    ghost use Rattle.xc_input.specs.Readings.{Reading, IsStateOf};
    ghost use Rattle.xc_input.specs.FirstFault.{line_number};
    ghost use Rattle.xc_input.specs.inner.Stages.{stage_of};
    ghost use Rattle.xc_input.specs.inner.Builders.{IsBuilder, stage_of_builder};
    ghost use Rattle.xc_text.specs.inner.LineFeeds.{AreWhole};
    ghost use Rattle.std.specs.Prelude.{◌≡◌, length, MatchOption};
    ghost use Rattle.indexmap.specs.IndexSet.{hasher_of};

    ghost Value = { Reading };

    ghost view = { λ r. record {
      kind = r.kind;
      seeds = (hasher_of r.builder.tables.names, hasher_of r.builder.tables.colours);
      lines = r.given.lines;
      error = r.error;
    } };

    ghost invariant = { λ r. (r.count ≡ line_number (length r.given.lines)) × IsStateOf r.kind r.given.lines r.error
        × MatchOption r.error (IsBuilder r.builder × (stage_of_builder r.builder ≡ stage_of r.kind r.given.lines))
        (λ _. Unit {0})
        × AreWhole r.given.lines };
}

impl Reader {
    /// A reader whose tables hash by the fixed seed.
    pub fn new(alloc: Global, kind: Kind) -> Reader
        ensures kind { result.kind ≡ kind }
        ensures seeds { result.seeds ≡ (Seed.FIXED, Seed.FIXED) }
        ensures lines { result.lines ≡ [] }
        ensures error { result.error ≡ None }
    {
        Reader::with_seed(alloc, kind, Seed::FIXED)
    }

    /// A reader whose tables hash by this seed. What it reads is the same by each seed.
    pub fn with_seed(alloc: Global, kind: Kind, seed: Seed) -> Reader
        ensures kind { result.kind ≡ kind }
        ensures seeds { result.seeds ≡ (seed, seed) }
        ensures lines { result.lines ≡ [] }
        ensures error { result.error ≡ None }
    {
        Reader {
            given: Given::new(),
            alloc,
            kind,
            count: 0,
            builder: ProblemBuilder::new(alloc, seed),
            error: None,
        }
    }

    /// Takes one line, without its line feed. The first fault of the text is reported with its line, or
    /// lack of memory; each later call returns the same again. A line that is blank, a comment or has a NUL
    /// byte is never refused for lack of memory.
    pub fn line(&mut self, line: &[u8]) -> Result<(), InputError>
        requires { has 10 line.now ≡ false }
        ensures kind { self.new.kind ≡ self.old.kind }
        ensures seeds { self.new.seeds ≡ self.old.seeds }
        ensures given { self.new.lines ≡ self.old.lines ++ line.now ∷ [] }
        ensures error { self.new.error ≡ result_err result }
        ensures state { IsStateOf self.new.kind self.new.lines (result_err result) }
        ensures no_memory { (has 0 line.now || is_skipped line.now) ≡ true → result_err result ≡ Some InputError.Memory
            → self.old.error ≡ Some InputError.Memory }
        ensures same { IfSome self.old.error (λ e. result_err result ≡ Some e) }
    {
        self.given = Given::after(&self.given, line);
        self.count = self.count.saturating_add(1);
        if let Some(e) = self.error {
            return Err(e);
        }
        if let Err(e) = self.builder.take(self.alloc, self.kind, self.count, line) {
            let error = at_line(self.count, e);
            self.error = Some(error);
            return Err(error);
        }
        Ok(())
    }

    /// The problem that was read, or the first error.
    pub fn finish(self) -> Result<Read, InputError>
        ensures accepted { IfOk result (λ r. StandsFor self.kind self.lines r.problem r.ignored.items) }
        ensures only { IfOk result
            (λ r. (p : Named) (ignored : List ℕ) → StandsFor self.kind self.lines p ignored
            → (p ≡ record r.problem { seed = p.seed }) × (ignored ≡ r.ignored.items)) }
        ensures seed { IfOk result (λ r. r.problem.seed ≡ self.seeds.0) }
        ensures valid { IfOk result (λ r. IsSound r.problem) }
        ensures first { IfErr result (IsErrorFor (first_fault self.kind self.lines)) }
        ensures refused { IfErr result (λ e. e ≢ InputError.Memory
            → (p : Named) (ignored : List ℕ) → StandsFor self.kind self.lines p ignored → ⊥) }
        ensures no_memory { result_err result ≡ Some InputError.Memory → self.error ≡ Some InputError.Memory }
        ensures same { IfSome self.error (λ e. result_err result ≡ Some e) }
    {
        let Reader {
            given: _,
            alloc: _,
            kind: _,
            count,
            builder,
            error,
        } = self;
        if let Some(e) = error {
            return Err(e);
        }
        if !builder.started {
            return Err(InputError::Fault {
                line: count.saturating_add(1),
                kind: FaultKind::NoItems,
            });
        }
        Ok(builder.finish())
    }
}

/// Its kind, how many lines it took, and its error, if it met one. Names and the seed aren't shown.
impl fmt::Debug for Reader {
    ghost use Rattle.std.specs.Prelude.{◌++◌, Some, codes, length};
    ghost use Rattle.std.specs.Fmt.{decimal};
    ghost use Rattle.xc_input.specs.FirstFault.{line_number};
    ghost use Rattle.xc_input.specs.Readings.{kind_name, shown_error};

    ghost debug_output = { λ r. Some (codes "Reader { kind: " ++ kind_name r.kind ++ codes ", lines: "
        ++ decimal (line_number (length r.lines)) ++ shown_error r.error ++ codes " }") };

    fn fmt<W: fmt::Write>(&self, f: &mut fmt::Formatter<W>) -> fmt::Result {
        let kind = self.kind;
        let lines = self.count;
        match self.error {
            None => write!(f, "Reader {{ kind: {kind:?}, lines: {lines} }}"),
            Some(error) => write!(
                f,
                "Reader {{ kind: {kind:?}, lines: {lines}, error: {error} }}"
            ),
        }
    }
}

/// The error of the line of this number.
fn at_line(line: u64, error: LineError) -> InputError
    ensures { result ≡ error_at line error }
{
    match error {
        LineError::Fault(kind) => InputError::Fault { line, kind },
        LineError::Memory => InputError::Memory,
    }
}
