//! Whether a listed solution is a cover, by counting.
ghost use Rattle.std.specs.Prelude.{count_by, nat_lt, ◌≡◌, ◌↔◌, ℕ, ◌<◌, List, [], length, All, IfOk, IsTrue};
ghost use Rattle.std.specs.List.{AllZip};
ghost use Rattle.xc_input.specs.Problem.{item_count};
ghost use Rattle.xc_check.specs.inner.Classes.{IsIndexed, IsOfClass, IsCoverOfClasses, places_of, short_of};

use crate::checker::counts::Counts;
use crate::checker::option_index::OptionIndex;
use std::alloc::{AllocError, Global};
use std::marker::Model;
use xc_input::{Bounds, Problem};

/// Judges solutions, one after another. A solution costs its own lines' uses, and no memory.
#[derive(Drop)]
pub struct CoverCounter {
    /// The bounds of the primary items.
    bounds: Vec<Bounds>,
    /// How many items have to be held at all.
    needed: usize,
    /// All 0 between solutions.
    counts: Counts,
}

impl Model for CoverCounter {
    ghost use Rattle.std.specs.Prelude.{count_by, nat_lt, ◌≡◌, length, replicate};
    ghost use Rattle.xc_check.specs.inner.Classes.{Places, short_of};

    ghost Value = { Places };

    ghost view = { λ t. record {
      bounds = t.bounds.items;
      items = length t.counts.times.items;
      classes = length t.counts.asked.items;
    } };

    ghost invariant = { λ t. record {
      times : t.counts.times.items ≡ replicate (length t.counts.times.items) 0;
      colours : length t.counts.colours.items ≡ length t.counts.times.items;
      asked : t.counts.asked.items ≡ replicate (length t.counts.asked.items) 0;
      needed : t.needed ≡ short_of t.bounds.items t.counts.times.items;
    } };
}

impl CoverCounter {
    /// For solutions of the problem, whose options are of so many classes.
    pub fn new(alloc: Global, problem: &Problem, classes: usize) -> Result<CoverCounter, AllocError>
        ensures { IfOk result (λ t. t ≡ record
            { bounds = problem.now.puzzle.bounds; items = item_count problem.now.puzzle; classes = classes }) }
    {
        let bounds = problem.primary_bounds(alloc)?;
        let needed = needed(&bounds);
        let counts = Counts::new(alloc, problem.items() as usize, classes)?;
        Ok(CoverCounter {
            bounds,
            needed,
            counts,
        })
    }

    /// Whether options of these classes, a different one for each, are a cover.
    pub fn is_cover(&mut self, options: &OptionIndex, chosen: &[usize]) -> bool
        requires indexed { IsIndexed options.now }
        requires places { self.old ≡ places_of options.now }
        requires known { All (λ k. k < length options.now.classes) chosen.now }
        ensures same { self.new ≡ self.old }
        ensures decided { (reps : List ℕ) → AllZip (IsOfClass options.now) chosen.now reps
            → IsTrue result ↔ IsCoverOfClasses options.now.problem.puzzle reps }
    {
        self.counts
            .count(&self.bounds, self.needed, options, chosen);
        let cover = self.counts.is_cover(&self.bounds, options, chosen);
        self.counts.clear(options, chosen);
        cover
    }
}

/// How many items have to be held at all.
fn needed(bounds: &[Bounds]) -> usize
    ensures { result ≡ count_by (λ b. nat_lt 0 b.low) bounds.now }
{
    bounds.iter().filter(|b| b.low > 0).count()
}
