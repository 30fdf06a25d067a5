//! Which token of a line is at fault.
//!
//! A call of its own, which reads the line again up to its first fault: a reader keeps no line, and a text without a
//! fault costs nothing more. It returns what is before and after the token too, since the same bytes may be twice in a
//! line.

ghost use Rattle.std.specs.Prelude.{◌≡◌, ◌++◌, ◌≤◌, ◌||◌, [], ℕ, List, length, None, Ok, IfOk, option_map};
ghost use Rattle.std.specs.Prelude.{true};
ghost use Rattle.xc_input.specs.Tokens.{tokens, parts, is_skipped};
ghost use Rattle.xc_text.specs.Words.{has};
ghost use Rattle.xc_input.specs.Faults.{first, checks_of_each, part_checks, token_checks, context_of};
ghost use Rattle.xc_input.specs.FaultyTokens.{IsAtFault, IsFaulty, IsFaultyToken, Tells};
ghost use Rattle.xc_input.specs.Limits.{most_items};
ghost use Rattle.xc_input.specs.inner.Stages.{context, no_row};
ghost use Rattle.xc_input.specs.inner.CutTokens.{StandsBefore};
ghost use Rattle.xc_input.specs.inner.Builders.{AreNames, AreMarks, IsItemTable, row_of_line};
ghost use Rattle.xc_input.specs.inner.Stored.{key_names};

use crate::at_fault::FaultyToken;
use crate::item_line::item_line;
use crate::line_error::LineError;
use crate::names::NameSet;
use crate::option_line::use_of;
use crate::tables::no_marks;
use crate::tokens::{is_skipped_line, looked_up, next_part, next_word};
use crate::written::ItemLine;
use crate::{FaultKind, Kind};
use std::alloc::{AllocError, Global};
use xc_text::{Seed, has_byte};

/// The first token of a line that is at fault: of an option line after the line of these `items`, or
/// of the item line where there is none yet. `None` where no token is at fault: the line may have no
/// fault, or one that is none of a token's (`NoItems`, `NulByte`, `TooManyUses`); it may be blank or a
/// comment; or the line of `items` may have a fault itself. Names hash by the seed.
pub fn faulty_token<'a>(
    alloc: Global,
    seed: Seed,
    kind: Kind,
    items: Option<&[u8]>,
    line: &'a [u8],
) -> Result<Option<FaultyToken<'a>>, AllocError>
    ensures faulty { IfOk result (Tells (IsFaultyToken kind (option_map (λ bytes. bytes.now) items.entry) line.now)) }
    ensures no_memory { (has 0 line.now || is_skipped line.now) ≡ true → result ≡ Ok None }
{
    if has_byte(line, 0) || is_skipped_line(line) {
        return Ok(None);
    }
    match items {
        None => faulty_part(alloc, seed, kind, line),
        Some(items) => faulty_use(alloc, seed, kind, items, line),
    }
}

/// The first part of an item line that is at fault.
fn faulty_part<'a>(
    alloc: Global,
    seed: Seed,
    kind: Kind,
    line: &'a [u8],
) -> Result<Option<FaultyToken<'a>>, AllocError>
    ensures { IfOk result (Tells (IsFaulty kind None line.now)) }
{
    let mut items = ItemLine::new(alloc, seed);
    faulty_behind(alloc, kind, &mut items, line)
}

/// The first part of an item line that is at fault, which is added to no items.
fn faulty_behind<'a>(
    alloc: Global,
    kind: Kind,
    items: &mut ItemLine,
    line: &'a [u8],
) -> Result<Option<FaultyToken<'a>>, AllocError>
    requires table { IsItemTable items.old }
    requires none { row_of_line items.old ≡ no_row }
    ensures { IfOk result (Tells (IsFaulty kind None line.now)) }
{
    let mut rest = line;
    while let Some((part, others)) = next_part(rest) {
        match items.add(alloc, kind, part) {
            Ok(()) => rest = others,
            Err(LineError::Fault(fault)) => return Ok(Some(cut_out(line, part, others, fault))),
            Err(LineError::Memory) => return Err(AllocError),
        }
    }
    Ok(None)
}

/// The first token of an option line that is at fault, after an item line.
fn faulty_use<'a>(
    alloc: Global,
    seed: Seed,
    kind: Kind,
    items: &[u8],
    line: &'a [u8],
) -> Result<Option<FaultyToken<'a>>, AllocError>
    ensures { IfOk result (Tells (IsFaulty kind (Some items.now) line.now)) }
{
    let row = match item_line(alloc, seed, kind, items) {
        Ok(row) => row,
        Err(LineError::Fault(_)) => return Ok(None),
        Err(LineError::Memory) => return Err(AllocError),
    };
    let primary = row.bar.unwrap_or(row.items.len() as u32);
    let mut marks = no_marks(alloc, row.items.len())?;
    Ok(faulty_among(kind, &row.names, primary, &mut marks, line))
}

/// The first token of an option line that is at fault, among these names. No item is marked before.
fn faulty_among<'a>(
    kind: Kind,
    names: &NameSet,
    primary: u32,
    marks: &mut [bool],
    line: &'a [u8],
) -> Option<FaultyToken<'a>>
    requires few { length names.now.keys ≤ most_items }
    requires named { AreNames (key_names names.now.keys) }
    requires marks { length marks.old ≡ length names.now.keys }
    requires unmarked { AreMarks marks.old [] }
    ensures { Tells (IsAtFault tokens (token_checks (context kind (key_names names.now.keys) primary)) line.now)
        result }
{
    let mut rest = line;
    while let Some((token, others)) = next_word(rest) {
        match use_of(kind, primary, marks, looked_up(names, token)) {
            Ok(written) => marks[written.item as usize - 1] = true,
            Err(fault) => return Some(cut_out(line, token, others, fault)),
        }
        rest = others;
    }
    None
}

/// A token with its fault, as it is in its line before what is left.
fn cut_out<'a>(
    line: &'a [u8],
    token: &'a [u8],
    behind: &'a [u8],
    kind: FaultKind,
) -> FaultyToken<'a>
    requires { StandsBefore line.now token.now behind.now }
    ensures place { line.now ≡ result.before.now ++ token.now ++ behind.now }
    ensures token { result.token.now ≡ token.now }
    ensures behind { result.behind.now ≡ behind.now }
    ensures kind { result.kind ≡ kind }
{
    let (before, _) = line.split_at(line.len() - behind.len() - token.len());
    FaultyToken {
        before,
        token,
        behind,
        kind,
    }
}
