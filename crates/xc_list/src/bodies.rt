//! Options as they are printed, laid out before the search if many may be printed. Printing takes a quarter of the
//! instructions that it takes use by use; the cost is memory for the texts. Without it, or for more than 2^32 - 1
//! bytes, options are written use by use, and the listing is the same.
//!
//! The item of each option's first use is stored beside the texts (4 % of printing), and an option that begins with
//! another item than the branch item is written out of line (2 %).
ghost use Rattle.std.specs.Prelude.{◌≡◌, ◌<◌, ◌≤◌, ◌^◌, [], ◌∷◌, ◌++◌, ◌-◌, ◌==◌, min, length, take, drop, All};
ghost use Rattle.std.specs.Prelude.{IfSome, IfOk, map};
ghost use Rattle.std.specs.Prelude.{◌+◌, OnOk, OnErr, IsTrue, IsNone, flat_map};
ghost use Rattle.xc_input.specs.Problem.{uses_of, IsOption};
ghost use Rattle.xc_input.specs.UsePlaces.{place_in};
ghost use Rattle.xc_input.specs.Named.{IsKnownUse};
ghost use Rattle.xc_text.specs.Texts.{Writes};
ghost use Rattle.xc_check.specs.UseTexts.{from_item};
ghost use Rattle.xc_list.specs.inner.Writing.{use_text, AreLaid, ArePadded, first_item, uses_text};
ghost use Rattle.xc_list.specs.declared.places.TheConstants.{PADDING, ROOM};

use crate::page::put_part;
use crate::places::{PADDING, ROOM};
use crate::uses::{colour_of, name_of, uses_at, write_option, write_uses};
use std::alloc::Global;
use std::marker::Model;
use xc_input::{Problem, Use};
use xc_text::{Memory, Sink, SinkFault, Tray, write_all};

/// The texts of options one after another, with the places where they start and at last the length of
/// all, and after them a few bytes more.
#[derive(Drop)]
struct Layout {
    texts: Vec<u8>,
    starts: Vec<u32>,
    /// The item of each option's first use. Where it is the branch item, as in most lines, the uses aren't read.
    firsts: Vec<u32>,
}

/// How long the text of a use is.
#[inline(always)]
fn use_length(problem: &Problem, u: &Use) -> usize
    requires { IsKnownUse problem.now u.now }
    ensures { result ≡ length (use_text problem.now u.now) }
{
    let name = 1 + name_of(problem, u.item).len();
    if u.colour == 0 {
        return name;
    }
    name + 1 + colour_of(problem, u.colour).len()
}

/// Where the text of an item's use starts in the text of an option.
#[inline(always)]
fn place_in_text(problem: &Problem, uses: &[Use], item: u32) -> usize
    requires known { All (IsKnownUse problem.now) uses.now }
    requires fits { length (uses_text problem.now uses.now) < 2 ^ 64 }
    ensures { result ≡ length (uses_text problem.now (take (place_in item uses.now) uses.now)) }
{
    let mut place = 0;
    for u in uses {
        if u.item == item {
            return place;
        }
        place += use_length(problem, u);
    }
    place
}

/// How long the text of an option's uses is, or the largest number where it is longer.
fn option_length(problem: &Problem, uses: &[Use]) -> usize
    requires { All (IsKnownUse problem.now) uses.now }
    ensures { result ≡ min (length (uses_text problem.now uses.now)) (2 ^ 64 - 1) }
{
    let mut total = 0usize;
    for u in uses {
        total = total.saturating_add(use_length(problem, u));
    }
    total
}

/// How long the texts of all options are, or the largest number where they are longer.
fn total_length(problem: &Problem) -> usize
    ensures { result ≡ min (length (flat_map (uses_text problem.now) problem.now.puzzle.options)) (2 ^ 64 - 1) }
{
    let mut total = 0usize;
    for o in 0..problem.options() {
        total = total.saturating_add(option_length(problem, problem.option(o + 1)));
    }
    total
}

/// Lays out one option more.
fn lay_out_option(
    problem: &Problem,
    uses: &[Use],
    texts: &mut Tray,
    starts: &mut Vec<u32>,
) -> Result<(), Memory>
    requires { All (IsKnownUse problem.now) uses.now }
    ensures { OnOk result ((os : _) → AreLaid problem.now os texts.old.bytes.items starts.old.items
        → AreLaid problem.now (os ++ uses.now ∷ []) texts.new.bytes.items starts.new.items) }
{
    let Ok(()) = write_uses(problem, uses, texts) else {
        return Err(Memory);
    };
    // Of texts longer than 2^32 - 1 bytes nothing is laid out: options are written use by use, and the listing is the
    // same.
    let Ok(end) = u32::try_from(texts.bytes().len()) else {
        return Err(Memory);
    };
    match starts.push(end) {
        Ok(()) => Ok(()),
        Err(_) => Err(Memory),
    }
}

/// The item of an option's first use.
fn first_of(uses: &[Use]) -> u32
    ensures { result ≡ first_item uses.now }
{
    match uses {
        [] => 0,
        [first, ..] => first.item,
    }
}

/// Notes the item of one more option's first use.
fn add_first(uses: &[Use], firsts: &mut Vec<u32>) -> Result<(), Memory>
    ensures { OnOk result (firsts.new.items ≡ firsts.old.items ++ first_item uses.now ∷ []) }
{
    match firsts.push(first_of(uses)) {
        Ok(()) => Ok(()),
        Err(_) => Err(Memory),
    }
}

/// The items of all options' first uses.
fn items_of_first_uses(alloc: Global, problem: &Problem) -> Result<Vec<u32>, Memory>
    ensures { IfOk result (λ firsts. firsts.items ≡ map first_item problem.now.puzzle.options) }
{
    let mut firsts = Vec::with_capacity(alloc, problem.options() as usize)?;
    for o in 0..problem.options() {
        add_first(problem.option(o + 1), &mut firsts)?;
    }
    Ok(firsts)
}

/// The texts of a problem's options, if there is memory for them.
#[tactic(auto, using(std::proofs::Common::take_all, crate::proofs::OutputLemmas::options_left, crate::proofs::Writing::take_next))]
fn lay_out(alloc: Global, problem: &Problem) -> Result<Layout, Memory>
    ensures laid { IfOk result (λ l. ArePadded problem.now problem.now.puzzle.options l.texts.items l.starts.items) }
    ensures firsts { IfOk result (λ l. l.firsts.items ≡ map first_item problem.now.puzzle.options) }
{
    let room = total_length(problem).saturating_add(PADDING);
    let mut tray = Tray::new(alloc, usize::MAX, room, false)?;
    let mut starts = Vec::with_capacity(alloc, problem.options() as usize + 1)?;
    let Ok(()) = starts.push(0) else {
        return Err(Memory);
    };
    for o in 0..problem.options() {
        lay_out_option(problem, problem.option(o + 1), &mut tray, &mut starts)?;
    }
    let firsts = items_of_first_uses(alloc, problem)?;
    let mut texts = tray.into_bytes();
    texts.extend_from_slice(&[0; PADDING])?;
    Ok(Layout {
        texts,
        starts,
        firsts,
    })
}

/// Where the text of an option starts among the texts, and how long it is.
#[inline(always)]
fn span_of(problem: &Problem, layout: &Layout, o: u32) -> (usize, usize)
    requires laid { ArePadded problem.now problem.now.puzzle.options layout.now.texts.items layout.now.starts.items }
    requires known { IsOption problem.now.puzzle o }
    ensures text { take result.1 (drop result.0 layout.now.texts.items)
        ≡ uses_text problem.now (uses_of problem.now.puzzle o) }
    ensures within { result.0 + result.1 + PADDING ≤ length layout.now.texts.items }
    ensures few { result.0 + result.1 < 2 ^ 32 }
{
    let from = layout.starts[o as usize - 1] as usize;
    let to = layout.starts[o as usize] as usize;
    (from, to - from)
}

/// The text of an option.
#[inline(always)]
fn text_of<'a>(problem: &Problem, layout: &'a Layout, o: u32) -> &'a [u8]
    requires laid { ArePadded problem.now problem.now.puzzle.options layout.now.texts.items layout.now.starts.items }
    requires known { IsOption problem.now.puzzle o }
    ensures { result.now ≡ uses_text problem.now (uses_of problem.now.puzzle o) }
{
    let (from, count) = span_of(problem, layout, o);
    &layout.texts[from..from + count]
}

/// Puts the text of an option on a page, cut before an item's use, the part after the cut first.
// Out of line, since in most lines the branch item's use is the first: among the values of those this left too few in
// registers.
#[inline(never)]
fn put_cut(
    problem: &Problem,
    layout: &Layout,
    item: u32,
    o: u32,
    page: &mut [u8],
    at: usize,
) -> usize
    requires laid { ArePadded problem.now problem.now.puzzle.options layout.now.texts.items layout.now.starts.items }
    requires known { IsOption problem.now.puzzle o }
    requires room { (at + length (uses_text problem.now (uses_of problem.now.puzzle o)) + PADDING ≤ ROOM)
        × (length page.old ≡ ROOM) }
    ensures put { take result page.new ≡ take at page.old
        ++ flat_map (use_text problem.now) (from_item item (uses_of problem.now.puzzle o)) }
    ensures end { (at ≤ result) × (result + PADDING ≤ ROOM) }
    ensures size { length page.new ≡ ROOM }
{
    let (from, count) = span_of(problem, layout, o);
    let place = place_in_text(problem, uses_at(problem, o), item);
    put_part(page, at, &layout.texts, from + place, count - place);
    if place > 0 {
        put_part(page, at + (count - place), &layout.texts, from, place);
    }
    at + count
}

/// The text of an option, cut before an item's use.
#[inline(always)]
#[tactic(auto, using(crate::proofs::OutputLemmas::cut_within, crate::proofs::OutputLemmas::cut_gives))]
fn cut_text<'a>(problem: &Problem, layout: &'a Layout, item: u32, o: u32) -> (&'a [u8], &'a [u8])
    requires laid { ArePadded problem.now problem.now.puzzle.options layout.now.texts.items layout.now.starts.items }
    requires known { IsOption problem.now.puzzle o }
    ensures { flat_map (use_text problem.now) (from_item item (uses_of problem.now.puzzle o)) ≡ result.1.now ++
        result.0.now }
{
    let text = text_of(problem, layout, o);
    text.split_at(place_in_text(problem, uses_at(problem, o), item))
}

/// A problem whose options can be written. If they are laid out, an option is written by two slices,
/// else use by use.
#[derive(Drop)]
pub struct Bodies<'a> {
    problem: &'a Problem,
    layout: Option<Layout>,
}

impl<'a> Model for Bodies<'a> {
    ghost use Rattle.std.specs.Prelude.{◌≡◌, IfSome, map};
    ghost use Rattle.xc_input.specs.Named.{Named};
    ghost use Rattle.xc_list.specs.inner.Writing.{ArePadded, first_item};

    ghost Value = { Named };

    ghost view = { λ b. b.problem.now };

    ghost invariant = { λ b. record {
      laid : IfSome b.layout (λ l.
          ArePadded b.problem.now b.problem.now.puzzle.options l.texts.items l.starts.items);
      firsts : IfSome b.layout (λ l. l.firsts.items ≡ map first_item b.problem.now.puzzle.options);
    } };
}

impl<'a> Bodies<'a> {
    /// Options that are written use by use.
    pub fn plain(problem: &'a Problem) -> Bodies<'a>
        ensures { result ≡ problem.now }
    {
        Bodies {
            problem,
            layout: None,
        }
    }

    /// Options that are laid out if there is memory for it.
    fn laid_out(alloc: Global, problem: &'a Problem) -> Bodies<'a>
        ensures { result ≡ problem.now }
    {
        Bodies {
            problem,
            layout: lay_out(alloc, problem).ok(),
        }
    }

    /// Options that are laid out if many are printed.
    pub fn for_printing(alloc: Global, problem: &'a Problem, many: bool) -> Bodies<'a>
        ensures { result ≡ problem.now }
    {
        if many {
            return Bodies::laid_out(alloc, problem);
        }
        Bodies::plain(problem)
    }

    /// The problem whose options these are.
    pub fn problem(&self) -> &'a Problem
        ensures { result.now ≡ self.now }
    {
        self.problem
    }

    /// The options as they are laid out, if they are.
    #[inline(always)]
    pub fn laid(&self) -> Option<LaidOut<'_>>
        ensures { IfSome result (λ l. l ≡ self.now) }
    {
        match &self.layout {
            Some(layout) => Some(LaidOut {
                problem: self.problem,
                layout,
            }),
            None => None,
        }
    }

    /// Writes an option's uses, cyclically from an item's.
    #[inline(always)]
    pub fn write_option<S: Sink>(&self, item: u32, o: u32, sink: &mut S) -> Result<(), SinkFault>
        requires { IsOption self.now.puzzle o }
        ensures { Writes (S.state sink.old) (S.state sink.new)
            result (flat_map (use_text self.now) (from_item item (uses_of self.now.puzzle o))) }
    {
        let Some(layout) = &self.layout else {
            return write_option(self.problem, item, o, sink);
        };
        let (before, after) = cut_text(self.problem, layout, item, o);
        write_all(sink, after)?;
        write_all(sink, before)
    }
}

/// The options of a problem that are laid out, looked up once for all lines of a page.
#[derive(Drop)]
pub struct LaidOut<'b> {
    problem: &'b Problem,
    layout: &'b Layout,
}

impl<'b> Model for LaidOut<'b> {
    ghost use Rattle.std.specs.Prelude.{◌≡◌, map};
    ghost use Rattle.xc_input.specs.Named.{Named};
    ghost use Rattle.xc_list.specs.inner.Writing.{ArePadded, first_item};

    ghost Value = { Named };

    ghost view = { λ b. b.problem.now };

    ghost invariant = { λ b. record {
      laid : ArePadded b.problem.now b.problem.now.puzzle.options b.layout.now.texts.items b.layout.now.starts.items;
      firsts : b.layout.now.firsts.items ≡ map first_item b.problem.now.puzzle.options;
    } };
}

impl<'b> LaidOut<'b> {
    /// Puts an option's uses on a page, cyclically from an item's; none where there is no room for them
    /// and a little more.
    #[inline(always)]
    #[tactic(auto, using(crate::proofs::OutputLemmas::first_read, crate::proofs::OutputLemmas::from_first))]
    pub fn put_option(&self, item: u32, o: u32, page: &mut [u8], at: usize) -> Option<usize>
        requires known { IsOption self.now.puzzle o }
        requires room { (at ≤ ROOM) × (length page.old ≡ ROOM) }
        ensures put { IfSome result (λ to. take to page.new ≡ take at page.old
            ++ flat_map (use_text self.now) (from_item item (uses_of self.now.puzzle o))) }
        ensures end { IfSome result (λ to. (at ≤ to) × (to + PADDING ≤ ROOM)) }
        ensures none { IsNone result → page.new ≡ page.old }
        ensures size { length page.new ≡ ROOM }
    {
        let (from, count) = span_of(self.problem, self.layout, o);
        // A short text is stored with bytes after it, and the line's end follows.
        if at + count + PADDING > ROOM {
            return None;
        }
        let first = self.layout.firsts[o as usize - 1];
        if first == item {
            put_part(page, at, &self.layout.texts, from, count);
            return Some(at + count);
        }
        Some(put_cut(self.problem, self.layout, item, o, page, at))
    }
}
