//! Reads the item line.

ghost use Rattle.std.specs.Prelude.{◌≡◌, ◌++◌, ◌∷◌, [], None, Some, OnOk, IfOk, MatchResult, map, is_some, false};
ghost use Rattle.std.specs.List.{list_any};
ghost use Rattle.xc_input.specs.Tokens.{parts};
ghost use Rattle.xc_text.specs.Words.{is_space, number};
ghost use Rattle.xc_input.specs.Faults.{first, name_checks, is_bounds, prefix_checks, bound_checks, item_checks};
ghost use Rattle.xc_input.specs.inner.Stages.{entry, staged_part_checks, with_part, row_checks, row_with_parts, no_row};
ghost use Rattle.xc_input.specs.inner.Stages.{names_of};
ghost use Rattle.xc_input.specs.inner.CutTokens.{low_text, high_text};
ghost use Rattle.xc_input.specs.inner.Builders.{Judged, IsItemTable, row_of_line, entry_of};
ghost use Rattle.indexmap.specs.IndexSet.{hasher_of};

use crate::limits::{LONGEST_NAME, MOST_ITEMS};
use crate::line_error::LineError;
use crate::names::{NameSet, add_name, no_names, place_of};
use crate::problem::{Bounds, Item};
use crate::tokens::next_part;
use crate::written::ItemLine;
use crate::{FaultKind, Kind};
use std::alloc::Global;
use xc_text::{Seed, cut_at, number_of};

/// The first fault of a name by itself.
pub fn name_fault(name: &[u8]) -> Option<FaultKind>
    ensures { result ≡ first (name_checks name.now) }
{
    if name.is_empty() {
        return Some(FaultKind::EmptyName);
    }
    if name.len() > LONGEST_NAME {
        return Some(FaultKind::NameTooLong);
    }
    if name.contains(&b':') {
        return Some(FaultKind::BadByteInName);
    }
    if name.contains(&b'|') {
        return Some(FaultKind::BadByteInName);
    }
    None
}

/// Whether items may have bounds.
fn has_bounds(kind: Kind) -> bool
    ensures { result ≡ is_bounds kind }
{
    match kind {
        Kind::Plain => false,
        Kind::Colours => false,
        Kind::Bounds => true,
    }
}

/// The bounds of a prefix, or its first fault.
fn bounds_of(prefix: &[u8], secondary: bool) -> Result<Bounds, FaultKind>
    ensures { MatchResult result
        (λ b. (first (prefix_checks prefix.now secondary) ≡ None) × (b.low ≡ number (low_text prefix.now))
        × (b.high ≡ number (high_text prefix.now)))
        (λ fault. first (prefix_checks prefix.now secondary) ≡ Some fault) }
{
    let (low_text, high_text) = halves(prefix);
    let Some(low) = number_of(low_text) else {
        return Err(FaultKind::BadBound);
    };
    let Some(high) = number_of(high_text) else {
        return Err(FaultKind::BadBound);
    };
    if high < 1 {
        return Err(FaultKind::BoundOrder);
    }
    if high < low {
        return Err(FaultKind::BoundOrder);
    }
    if secondary {
        return Err(FaultKind::BoundOnSecondary);
    }
    Ok(Bounds { low, high })
}

/// The texts of the two bounds of a prefix.
fn halves(prefix: &[u8]) -> (&[u8], &[u8])
    ensures low { result.0.now ≡ low_text prefix.now }
    ensures high { result.1.now ≡ high_text prefix.now }
{
    let (front, back) = cut_at(prefix, b':');
    match back {
        None => (front, prefix),
        Some(back) => (front, back),
    }
}

/// A token of the item line.
struct ItemToken<'a> {
    name: &'a [u8],
    low: u32,
    high: u32,
}

/// The name and the bounds of a token, or the first fault of its prefix.
fn split_token(kind: Kind, secondary: bool, token: &[u8]) -> Result<ItemToken<'_>, FaultKind>
    ensures { MatchResult result
        (λ t. (first (bound_checks kind secondary token.now) ≡ None)
        × (record { name = t.name.now; low = t.low; high = t.high } ≡ entry kind secondary token.now))
        (λ fault. first (bound_checks kind secondary token.now) ≡ Some fault) }
{
    if has_bounds(kind) {
        let (prefix, name) = cut_at(token, b'|');
        if let Some(name) = name {
            let Bounds { low, high } = bounds_of(prefix, secondary)?;
            return Ok(ItemToken { name, low, high });
        }
    }
    Ok(ItemToken {
        name: token,
        low: if secondary { 0 } else { 1 },
        high: 1,
    })
}

impl ItemLine {
    /// No item yet, in a table by this seed.
    pub fn new(alloc: Global, seed: Seed) -> ItemLine
        ensures table { IsItemTable result }
        ensures row { row_of_line result ≡ no_row }
        ensures seed { hasher_of result.names ≡ seed }
    {
        ItemLine {
            names: no_names(alloc, seed),
            items: Vec::new(alloc),
            bar: None,
        }
    }

    /// Takes a bar or another token of the line.
    pub fn add(&mut self, alloc: Global, kind: Kind, part: &[u8]) -> Result<(), LineError>
        requires table { IsItemTable self.old }
        requires solid { list_any is_space part.now ≡ false }
        ensures judged { Judged (first (staged_part_checks kind (row_of_line self.old) part.now)) result }
        ensures added { OnOk result
            (IsItemTable self.new × (row_of_line self.new ≡ with_part kind (row_of_line self.old) part.now)) }
        ensures seed { hasher_of self.new.names ≡ hasher_of self.old.names }
    {
        if let [b'|', ..] = part {
            if self.bar.is_some() {
                return Err(LineError::Fault(FaultKind::TwoBars));
            }
            self.bar = Some(self.items.len() as u32);
            return Ok(());
        }
        add_item(self, alloc, kind, part)
    }
}

/// Takes a token that is no bar.
fn add_item(line: &mut ItemLine, alloc: Global, kind: Kind, token: &[u8]) -> Result<(), LineError>
    requires table { IsItemTable line.old }
    requires solid { list_any is_space token.now ≡ false }
    ensures judged { Judged (first
        (item_checks kind (names_of (map entry_of line.old.items.items)) (is_some line.old.bar) token.now)) result }
    ensures added { OnOk result
        (IsItemTable line.new × (map entry_of line.new.items.items ≡ map entry_of line.old.items.items ++ entry kind
        (is_some line.old.bar) token.now ∷ []) × (line.new.bar ≡ line.old.bar)) }
    ensures seed { hasher_of line.new.names ≡ hasher_of line.old.names }
{
    let token = split_token(kind, line.bar.is_some(), token)?;
    let ItemToken { name, low, high } = token;
    if let Some(fault) = name_fault(name) {
        return Err(LineError::Fault(fault));
    }
    if place_of(&line.names, name).is_some() {
        return Err(LineError::Fault(FaultKind::RepeatedName));
    }
    if line.items.len() >= MOST_ITEMS {
        return Err(LineError::Fault(FaultKind::TooManyItems));
    }
    add_name(alloc, &mut line.names, name)?;
    push_item(alloc, &mut line.items, name, low, high)
}

/// Adds an item.
fn push_item(
    alloc: Global,
    items: &mut Vec<Item>,
    name: &[u8],
    low: u32,
    high: u32,
) -> Result<(), LineError>
    ensures judged { Judged None result }
    ensures added { OnOk result
        (map entry_of items.new.items ≡ map entry_of items.old.items ++ record
        { name = name.now; low = low; high = high } ∷ []) }
{
    let name = Vec::from_slice(alloc, name)?;
    items.push(Item { name, low, high })?;
    Ok(())
}

/// The items of the item line, in a table by this seed, or its first fault.
pub fn item_line(alloc: Global, seed: Seed, kind: Kind, line: &[u8]) -> Result<ItemLine, LineError>
    ensures judged { Judged (first (row_checks kind no_row (parts line.now))) result }
    ensures row { IfOk result (λ i. IsItemTable i × (row_of_line i ≡ row_with_parts kind no_row (parts line.now))) }
    ensures seed { IfOk result (λ i. hasher_of i.names ≡ seed) }
{
    let mut items = ItemLine::new(alloc, seed);
    let mut rest = line;
    while let Some((part, others)) = next_part(rest) {
        items.add(alloc, kind, part)?;
        rest = others;
    }
    Ok(items)
}
