//! The problem while it is read.

ghost use Rattle.std.specs.Prelude.{◌≡◌, ◌≢◌, ◌||◌, true, false, nat_le, OnOk, Some};
ghost use Rattle.std.specs.List.{list_any};
ghost use Rattle.std.specs.Result.{result_err};
ghost use Rattle.xc_text.specs.Words.{has};
ghost use Rattle.xc_input.specs.Faults.{first};
ghost use Rattle.xc_input.specs.inner.Stages.{row_checks, no_row, row_with_parts, staged_line_checks};
ghost use Rattle.xc_input.specs.inner.Stages.{staged_content_checks, with_line, with_option, written_by, no_stage};
ghost use Rattle.xc_input.specs.inner.Stages.{with_row};
ghost use Rattle.xc_input.specs.Tokens.{parts, is_skipped};
ghost use Rattle.xc_input.specs.inner.Builders.{Judged, IsBuilder};
ghost use Rattle.xc_input.specs.inner.Builders.{stage_of_builder, sheet_of_builder, named_by, IsReadable};
ghost use Rattle.indexmap.specs.IndexSet.{hasher_of};

use crate::item_line::item_line;
use crate::limits::MOST_USES;
use crate::line_error::LineError;
use crate::option_line::option_line;
use crate::outcome::Read;
use crate::problem::{Item, Problem, Use};
use crate::stage::{ProblemBuilder, Tables};
use crate::tokens::is_skipped_line;
use crate::written::ItemLine;
use crate::{FaultKind, Kind};
use std::alloc::Global;
use xc_text::{Seed, has_byte};

impl ProblemBuilder {
    /// Nothing is read yet.
    pub fn new(alloc: Global, seed: Seed) -> ProblemBuilder
        ensures sound { IsBuilder result }
        ensures stage { stage_of_builder result ≡ no_stage }
        ensures seed { hasher_of result.tables.names ≡ seed }
        ensures colour_seed { hasher_of result.tables.colours ≡ seed }
    {
        ProblemBuilder {
            started: false,
            items: Vec::new(alloc),
            tables: Tables::none(alloc, seed),
            starts: Vec::new(alloc),
            ignored: Vec::new(alloc),
        }
    }

    /// The problem of the lines, and the numbers of the ignored ones.
    pub fn finish(self) -> Read
        requires { IsReadable self }
        ensures problem { result.problem ≡ named_by self }
        ensures ignored { result.ignored.items ≡ self.ignored.items }
    {
        let ProblemBuilder {
            started: _,
            items,
            tables,
            starts,
            ignored,
        } = self;
        let Tables {
            names,
            guesses: _,
            primary,
            marks: _,
            colours,
            colour_guesses: _,
            uses,
        } = tables;
        Read {
            problem: Problem::new(names, items, primary, uses, starts, colours),
            ignored,
        }
    }

    /// Takes the line of this number.
    pub fn take(
        &mut self,
        alloc: Global,
        kind: Kind,
        count: u64,
        line: &[u8],
    ) -> Result<(), LineError>
        requires { IsBuilder self.old }
        ensures judged { Judged (first (staged_line_checks kind (stage_of_builder self.old) line.now)) result }
        ensures taken { OnOk result
            (IsBuilder self.new × (stage_of_builder self.new ≡ with_line kind count (stage_of_builder self.old)
            line.now)) }
        ensures no_memory { (has 0 line.now || is_skipped line.now) ≡ true → result_err result ≢ Some LineError.Memory }
        ensures seed { hasher_of self.new.tables.names ≡ hasher_of self.old.tables.names }
        ensures colour_seed { hasher_of self.new.tables.colours ≡ hasher_of self.old.tables.colours }
    {
        if has_byte(line, 0) {
            return Err(LineError::Fault(FaultKind::NulByte));
        }
        if is_skipped_line(line) {
            return Ok(());
        }
        if self.started {
            take_option(self, alloc, kind, count, line)
        } else {
            take_items(self, alloc, kind, line)
        }
    }
}

/// Takes the item line.
#[inline(never)]
fn take_items(
    builder: &mut ProblemBuilder,
    alloc: Global,
    kind: Kind,
    line: &[u8],
) -> Result<(), LineError>
    requires sound { IsBuilder builder.old }
    requires unstarted { builder.old.started ≡ false }
    ensures judged { Judged (first (row_checks kind no_row (parts line.now))) result }
    ensures taken { OnOk result
        (IsBuilder builder.new × (stage_of_builder builder.new ≡ record {
          started = true;
          sheet = with_row (sheet_of_builder builder.old) (row_with_parts kind no_row (parts line.now));
          ignored = builder.old.ignored.items;
        })) }
    ensures seed { hasher_of builder.new.tables.names ≡ hasher_of builder.old.tables.names }
    ensures colour_seed { hasher_of builder.new.tables.colours ≡ hasher_of builder.old.tables.colours }
{
    let row = item_line(alloc, *builder.tables.names.hasher(), kind, line)?;
    let starts = vec![in alloc; 0]?;
    let ItemLine { names, items, bar } = row;
    let primary = bar.unwrap_or(items.len() as u32);
    builder.tables = Tables::new(alloc, names, primary)?;
    builder.items = items;
    builder.starts = starts;
    builder.started = true;
    Ok(())
}

/// Takes an option line.
fn take_option(
    builder: &mut ProblemBuilder,
    alloc: Global,
    kind: Kind,
    count: u64,
    line: &[u8],
) -> Result<(), LineError>
    requires sound { IsBuilder builder.old }
    requires started { builder.old.started ≡ true }
    ensures judged { Judged (first (staged_content_checks kind (stage_of_builder builder.old) line.now)) result }
    ensures taken { OnOk result
        (IsBuilder builder.new × (stage_of_builder builder.new ≡ with_option count (stage_of_builder builder.old)
        (written_by (sheet_of_builder builder.old) line.now))) }
    ensures seed { hasher_of builder.new.tables.names ≡ hasher_of builder.old.tables.names }
    ensures colour_seed { hasher_of builder.new.tables.colours ≡ hasher_of builder.old.tables.colours }
{
    let start = builder.tables.uses.len();
    let met = builder.tables.colours.len();
    option_line(&mut builder.tables, alloc, kind, line)?;
    if !has_primary_use(&builder.tables.uses[start..], builder.tables.primary) {
        builder.tables.uses.truncate(start);
        // Colours are numbered by first use over the options that are kept.
        builder.tables.colours.truncate(met);
        builder.ignored.push(count)?;
        return Ok(());
    }
    if builder.tables.uses.len() > MOST_USES {
        return Err(LineError::Fault(FaultKind::TooManyUses));
    }
    builder.starts.push(builder.tables.uses.len() as u32)?;
    Ok(())
}

/// Whether a use is of a primary item.
fn has_primary_use(uses: &[Use], primary: u32) -> bool
    ensures { result ≡ list_any (λ u. nat_le u.item primary) uses.now }
{
    uses.iter().any(|u| u.item <= primary)
}
