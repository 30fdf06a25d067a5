//! Counts over one solution.
ghost use Rattle.std.specs.Prelude.{◌≡◌, ◌≢◌, ℕ, ◌+◌, ◌-◌, ◌^◌, ◌<◌, ◌≤◌, ◌==◌, ◌&&◌, List, [], ◌∷◌, length, replicate};
ghost use Rattle.std.specs.Prelude.{slice_index, slice_set, All, AllPairs, IfOk};
ghost use Rattle.std.specs.List.{list_all};
ghost use Rattle.xc_input.specs.Problem.{item_count};
ghost use Rattle.xc_check.specs.inner.Classes.{IsIndexed, added, colours_after, cleared, raised, lowered, uses_in};
ghost use Rattle.xc_check.specs.inner.Classes.{short_of, is_met, is_class_met};

use crate::checker::option_index::OptionIndex;
use std::alloc::{AllocError, Global};
use xc_input::{Bounds, Use};

/// How often items are held and classes are used, by their places, and the colours that items had
/// last.
#[derive(Drop)]
pub(crate) struct Counts {
    times: Vec<usize>,
    colours: Vec<u32>,
    asked: Vec<usize>,
    /// How many primary items are held too seldom.
    short: usize,
}

impl Counts {
    pub(crate) fn new(alloc: Global, items: usize, classes: usize) -> Result<Counts, AllocError>
        ensures times { IfOk result (λ c. c.times.items ≡ replicate items 0) }
        ensures colours { IfOk result (λ c. length c.colours.items ≡ items) }
        ensures asked { IfOk result (λ c. c.asked.items ≡ replicate classes 0) }
    {
        Ok(Counts {
            times: vec![in alloc; 0; items]?,
            colours: vec![in alloc; 0; items]?,
            asked: vec![in alloc; 0; classes]?,
            short: 0,
        })
    }

    /// Counts a use.
    fn hold(&mut self, bounds: &[Bounds], u: Use)
        requires item { (1 ≤ u.item) × (u.item ≤ length self.old.times.items) }
        requires colours { length self.old.colours.items ≡ length self.old.times.items }
        requires few { slice_index self.old.times.items (u.item - 1) < 2 ^ 64 - 1 }
        requires short { self.old.short ≡ short_of bounds.now self.old.times.items }
        ensures times { self.new.times.items ≡ added (u ∷ []) self.old.times.items }
        ensures colours { self.new.colours.items ≡ colours_after (u ∷ []) self.old.colours.items }
        ensures asked { self.new.asked ≡ self.old.asked }
        ensures short { self.new.short ≡ short_of bounds.now self.new.times.items }
    {
        let place = u.item as usize - 1;
        let times = self.times[place] + 1;
        self.times[place] = times;
        self.colours[place] = u.colour;
        if place < bounds.len() && times == bounds[place].low as usize {
            self.short -= 1;
        }
    }

    /// Counts the uses of an option.
    fn add(&mut self, bounds: &[Bounds], uses: &[Use])
        requires items { All (λ u. (1 ≤ u.item) × (u.item ≤ length self.old.times.items)) uses.now }
        requires distinct { AllPairs (λ u v. u.item ≢ v.item) uses.now }
        requires colours { length self.old.colours.items ≡ length self.old.times.items }
        requires few { (k : ℕ) → slice_index self.old.times.items k < 2 ^ 64 - 1 }
        requires short { self.old.short ≡ short_of bounds.now self.old.times.items }
        ensures times { self.new.times.items ≡ added uses.now self.old.times.items }
        ensures colours { self.new.colours.items ≡ colours_after uses.now self.old.colours.items }
        ensures asked { self.new.asked ≡ self.old.asked }
        ensures short { self.new.short ≡ short_of bounds.now self.new.times.items }
    {
        for u in uses {
            self.hold(bounds, *u);
        }
    }

    /// Whether the counts agree with a use.
    fn is_met(&self, bounds: &[Bounds], u: Use) -> bool
        requires item { (1 ≤ u.item) × (u.item ≤ length self.now.times.items) }
        requires colours { length self.now.colours.items ≡ length self.now.times.items }
        ensures { result ≡ is_met bounds.now self.now.times.items self.now.colours.items u }
    {
        let place = u.item as usize - 1;
        let times = self.times[place];
        match bounds.get(place) {
            Some(b) => times <= b.high as usize,
            None => times == 1 || (u.colour != 0 && u.colour == self.colours[place]),
        }
    }

    /// Whether the counts agree with each of these uses.
    fn are_met(&self, bounds: &[Bounds], uses: &[Use]) -> bool
        requires items { All (λ u. (1 ≤ u.item) × (u.item ≤ length self.now.times.items)) uses.now }
        requires colours { length self.now.colours.items ≡ length self.now.times.items }
        ensures { result ≡ list_all (is_met bounds.now self.now.times.items self.now.colours.items) uses.now }
    {
        uses.iter().all(|u| self.is_met(bounds, *u))
    }

    /// Counts options of these classes, from 0 on.
    pub(crate) fn count(
        &mut self,
        bounds: &[Bounds],
        needed: usize,
        options: &OptionIndex,
        chosen: &[usize],
    )
        requires times { self.old.times.items ≡ replicate (item_count options.now.problem.puzzle) 0 }
        requires colours { length self.old.colours.items ≡ item_count options.now.problem.puzzle }
        requires asked { self.old.asked.items ≡ replicate (length options.now.classes) 0 }
        requires indexed { IsIndexed options.now }
        requires needed { needed ≡ short_of bounds.now self.old.times.items }
        requires known { All (λ k. k < length options.now.classes) chosen.now }
        ensures times { self.new.times.items ≡ added (uses_in options.now.classes chosen.now) self.old.times.items }
        ensures colours { self.new.colours.items ≡ colours_after (uses_in options.now.classes chosen.now)
            self.old.colours.items }
        ensures asked { self.new.asked.items ≡ raised chosen.now self.old.asked.items }
        ensures short { self.new.short ≡ short_of bounds.now self.new.times.items }
    {
        self.short = needed;
        for class in chosen {
            self.asked[*class] += 1;
            self.add(bounds, options.uses(*class));
        }
    }

    /// Whether a class is used no more often than it has options, and the counts agree with its uses.
    fn is_class_met(&self, bounds: &[Bounds], options: &OptionIndex, class: usize) -> bool
        requires times { length self.now.times.items ≡ item_count options.now.problem.puzzle }
        requires colours { length self.now.colours.items ≡ item_count options.now.problem.puzzle }
        requires asked { length self.now.asked.items ≡ length options.now.classes }
        requires known { class < length options.now.classes }
        ensures { result ≡ is_class_met options.now bounds.now self.now.times.items self.now.colours.items
            self.now.asked.items class }
    {
        self.asked[class] <= options.size(class) && self.are_met(bounds, options.uses(class))
    }

    /// Whether each of these classes is used no more often than it has options, and the counts agree with its uses.
    fn are_classes_met(&self, bounds: &[Bounds], options: &OptionIndex, chosen: &[usize]) -> bool
        requires times { length self.now.times.items ≡ item_count options.now.problem.puzzle }
        requires colours { length self.now.colours.items ≡ item_count options.now.problem.puzzle }
        requires asked { length self.now.asked.items ≡ length options.now.classes }
        requires known { All (λ k. k < length options.now.classes) chosen.now }
        ensures { result ≡ list_all
            (is_class_met options.now bounds.now self.now.times.items self.now.colours.items self.now.asked.items)
            chosen.now }
    {
        chosen
            .iter()
            .all(|class| self.is_class_met(bounds, options, *class))
    }

    /// Whether what was counted is a cover.
    pub(crate) fn is_cover(
        &self,
        bounds: &[Bounds],
        options: &OptionIndex,
        chosen: &[usize],
    ) -> bool
        requires times { length self.now.times.items ≡ item_count options.now.problem.puzzle }
        requires colours { length self.now.colours.items ≡ item_count options.now.problem.puzzle }
        requires asked { length self.now.asked.items ≡ length options.now.classes }
        requires known { All (λ k. k < length options.now.classes) chosen.now }
        ensures { result ≡ (self.now.short == 0 && list_all
            (is_class_met options.now bounds.now self.now.times.items self.now.colours.items self.now.asked.items)
            chosen.now) }
    {
        self.short == 0 && self.are_classes_met(bounds, options, chosen)
    }

    /// Forgets the uses of an option.
    fn clear_uses(&mut self, uses: &[Use])
        requires items { All (λ u. (1 ≤ u.item) × (u.item ≤ length self.old.times.items)) uses.now }
        ensures times { self.new.times.items ≡ cleared uses.now self.old.times.items }
        ensures colours { self.new.colours ≡ self.old.colours }
        ensures asked { self.new.asked ≡ self.old.asked }
    {
        for u in uses {
            self.times[u.item as usize - 1] = 0;
        }
    }

    /// Forgets options of these classes.
    pub(crate) fn clear(&mut self, options: &OptionIndex, chosen: &[usize])
        requires indexed { IsIndexed options.now }
        requires times { length self.old.times.items ≡ item_count options.now.problem.puzzle }
        requires asked { length self.old.asked.items ≡ length options.now.classes }
        requires known { All (λ k. k < length options.now.classes) chosen.now }
        ensures times { self.new.times.items ≡ cleared (uses_in options.now.classes chosen.now) self.old.times.items }
        ensures colours { self.new.colours ≡ self.old.colours }
        ensures asked { self.new.asked.items ≡ lowered chosen.now self.old.asked.items }
    {
        for class in chosen {
            self.asked[*class] = 0;
            self.clear_uses(options.uses(*class));
        }
    }
}
