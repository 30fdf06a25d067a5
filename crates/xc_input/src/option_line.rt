//! Reads an option line.

ghost use Rattle.std.specs.Prelude.{◌≡◌, ◌+◌, ◌-◌, ◌<◌, ◌≤◌, [], ◌∷◌, ◌++◌, true, false, None, Some, IfOk, IfSome};
ghost use Rattle.std.specs.Prelude.{OnOk, MatchResult, length, map, get_or, ℕ, List, All, ◌&&◌, is_some};
ghost use Rattle.xc_input.specs.Tokens.{tokens};
ghost use Rattle.xc_input.specs.Faults.{first, is_plain, is_bad_colour, name_checks};
ghost use Rattle.xc_input.specs.Sheets.{with_colour};
ghost use Rattle.xc_input.specs.inner.Stages.{with_uses, staged_token_checks, staged_option_checks, written, context};
ghost use Rattle.xc_input.specs.inner.Stages.{numbered, use_behind};
ghost use Rattle.xc_input.specs.Limits.{most_items, most_uses};
ghost use Rattle.xc_input.specs.declared.fault.FaultKind.TheVariants.{UnknownItem};
ghost use Rattle.xc_input.specs.Named.{IsName};
ghost use Rattle.xc_input.specs.inner.Builders.{AreTables, AreSameItems, AreDistinct, Judged, AreMarks, IsMarkable};
ghost use Rattle.xc_input.specs.inner.Builders.{written_of};
ghost use Rattle.xc_input.specs.inner.CutTokens.{IsCutToken};
ghost use Rattle.xc_input.specs.inner.Stored.{key_names};
ghost use Rattle.indexmap.specs.IndexSet.{hasher_of};

use crate::colours::number_colour;
use crate::item_line::name_fault;
use crate::limits::LONGEST_COLOUR;
use crate::line_error::LineError;
use crate::problem::Use;
use crate::stage::Tables;
use crate::tokens::next_token;
use crate::written::{Token, WrittenUse};
use crate::{FaultKind, Kind};
use std::alloc::Global;

/// Whether a token has a colour where none may have one.
fn is_not_here(kind: Kind, token: &Token) -> bool
    ensures { result ≡ (is_plain kind && is_some token.now.colour) }
{
    match kind {
        Kind::Plain => token.colour.is_some(),
        Kind::Colours => false,
        Kind::Bounds => false,
    }
}

/// Whether a colour is empty or too long.
fn is_misfit(colour: &[u8]) -> bool
    ensures { result ≡ is_bad_colour colour.now }
{
    colour.is_empty() || colour.len() > LONGEST_COLOUR
}

/// The first fault of a name that no item has.
fn fault_of_unknown(name: &[u8]) -> FaultKind
    ensures { first (name_checks name.now ++ (UnknownItem, true) ∷ []) ≡ Some result }
{
    name_fault(name).unwrap_or(FaultKind::UnknownItem)
}

/// The use of a token, after uses of the marked items, or its first fault. Its tests go in the order of a list,
/// `token_checks` of `specs/Faults.antt`: the order is data there, and this is proved against it.
pub fn use_of<'a>(
    kind: Kind,
    primary: u32,
    marks: &[bool],
    token: Token<'a>,
) -> Result<WrittenUse<'a>, FaultKind>
    requires few { length marks.now ≤ most_items }
    requires marked { IfSome token.place (λ at. at < length marks.now) }
    ensures judged { (names : List (List ℕ)) (text : List ℕ) (seen : List ℕ) → All IsName names
        → length marks.now ≡ length names → IsCutToken names text token.entry → AreMarks marks.now seen
        → MatchResult result (λ p. (first (staged_token_checks (context kind names primary) seen text) ≡ None)
        × (written_of p ≡ written names text))
        (λ fault. first (staged_token_checks (context kind names primary) seen text) ≡ Some fault) }
    ensures within { IfOk result (λ p. IsMarkable (length marks.now) p.item) }
    ensures unmarked { IfOk result (λ p. get_or marks.now (p.item - 1) false ≡ false) }
{
    if is_not_here(kind, &token) {
        return Err(FaultKind::ColourNotHere);
    }
    // Looked up before it is judged: the names of items have no fault, so only a name that no item has is checked.
    let Some(place) = token.place else {
        return Err(fault_of_unknown(token.name));
    };
    if marks[place] {
        return Err(FaultKind::RepeatedInOption);
    }
    let item = place as u32 + 1;
    let Some(colour) = token.colour else {
        return Ok(WrittenUse { item, colour: b"" });
    };
    if item <= primary {
        return Err(FaultKind::ColourOnPrimary);
    }
    if is_misfit(colour) {
        return Err(FaultKind::BadColour);
    }
    Ok(WrittenUse { item, colour })
}

impl Tables {
    /// Adds a use, with its colour by number: a new one where the colour wasn't met yet.
    fn add_use(&mut self, alloc: Global, written: WrittenUse) -> Result<(), LineError>
        requires few { length (key_names self.old.colours.keys) ≤ most_uses + most_items }
        requires distinct { AreDistinct (key_names self.old.colours.keys) }
        ensures judged { Judged None result }
        ensures added { OnOk result
            (self.new.uses.items ≡ self.old.uses.items ++ use_behind (key_names self.old.colours.keys)
            (written_of written.entry) ∷ []) }
        ensures colours { OnOk result
            (key_names self.new.colours.keys ≡ with_colour (key_names self.old.colours.keys) written.entry.colour.now) }
        ensures distinct { OnOk result (AreDistinct (key_names self.new.colours.keys)) }
        ensures marks { self.new.marks ≡ self.old.marks }
        ensures same { AreSameItems self.old self.new }
        ensures colour_seed { hasher_of self.new.colours ≡ hasher_of self.old.colours }
    {
        let item = written.item;
        let colour = number_colour(
            alloc,
            &mut self.colours,
            &mut self.colour_guesses,
            written.colour,
        )?;
        self.uses.push(Use { item, colour })?;
        Ok(())
    }
}

/// Adds the uses of an option line, or returns its first fault. No item is marked before it, nor after it.
pub fn option_line(
    tables: &mut Tables,
    alloc: Global,
    kind: Kind,
    line: &[u8],
) -> Result<(), LineError>
    requires sound { AreTables tables.old }
    requires few_uses { length tables.old.uses.items ≤ most_uses }
    ensures judged { Judged (first
        (staged_option_checks (context kind (key_names tables.old.names.keys) tables.old.primary) [] (tokens line.now)))
        result }
    ensures sound { OnOk result (AreTables tables.new) }
    ensures uses { OnOk result
        (tables.new.uses.items ≡ tables.old.uses.items ++ numbered (key_names tables.old.colours.keys)
        (map (written (key_names tables.old.names.keys)) (tokens line.now))) }
    ensures colours { OnOk result
        (key_names tables.new.colours.keys ≡ with_uses (key_names tables.old.colours.keys)
        (map (written (key_names tables.old.names.keys)) (tokens line.now))) }
    ensures same { AreSameItems tables.old tables.new }
    ensures colour_seed { hasher_of tables.new.colours ≡ hasher_of tables.old.colours }
{
    let start = tables.uses.len();
    let mut rest = line;
    while let Some((token, others)) = next_token(&tables.names, &tables.guesses, rest) {
        let written = use_of(kind, tables.primary, &tables.marks, token)?;
        tables.marks[written.item as usize - 1] = true;
        tables.add_use(alloc, written)?;
        rest = others;
    }
    clear(&mut tables.marks, &tables.uses[start..]);
    Ok(())
}

/// Takes the marks of the items of these uses away.
fn clear(marks: &mut [bool], uses: &[Use])
    requires within { All (λ u. IsMarkable (length marks.old) u.item) uses.now }
    requires marked { AreMarks marks.old (map (λ u. u.item) uses.now) }
    ensures { AreMarks marks.new [] }
{
    for u in uses {
        marks[u.item as usize - 1] = false;
    }
}
