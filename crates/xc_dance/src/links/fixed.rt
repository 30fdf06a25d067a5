//! What no move changes: the counts of the items, and where the nodes of the options are.
ghost use Rattle.std.specs.Prelude.{◌≡◌, false, ◌-◌, ◌≤◌, ◌↔◌, IsTrue, IfOk};
ghost use Rattle.xc_input.specs.Problem.{IsValid, IsWithinLimits, IsItem, IsPrimary, IsSecondary, item_count};
ghost use Rattle.xc_input.specs.Problem.{primary_count, IsOption};
ghost use Rattle.xc_dance.specs.inner.Tables.{IsFit, spans_of};
ghost use Rattle.xc_moves.specs.inner.Uses.{start_at};
ghost use Rattle.xc_dance.specs.inner.Walks.{IsPlain};

use crate::links::node_counts::option_starts;
use crate::links::spans::Spans;
use std::alloc::{AllocError, Global};
use std::marker::Model;
use std::snapshot::Snapshot;
use xc_input::Problem;

/// The fixed tables of a problem. To contracts they are the problem itself.
#[derive(Drop)]
pub(crate) struct Fixed {
    known: Snapshot<Problem>,
    spans: Spans,
    items: u32,
    primary: u32,
    /// Whether a use may have a colour. Where none has, nothing is ever marked, and the walks leave that test out.
    coloured: bool,
    /// Where the nodes of each option start.
    starts: Vec<u32>,
}

impl Model for Fixed {
    ghost use Rattle.std.specs.Prelude.{◌≡◌, false};
    ghost use Rattle.xc_input.specs.Problem.{Puzzle, item_count, primary_count};
    ghost use Rattle.xc_dance.specs.inner.Tables.{starts_of, spans_of};
    ghost use Rattle.xc_dance.specs.inner.Walks.{IsPlain};

    ghost Value = { Puzzle };

    ghost view = { λ a. a.known.value.puzzle };

    ghost invariant = { λ a. record {
      spans : a.spans ≡ spans_of a.known.value.puzzle;
      items : a.items ≡ item_count a.known.value.puzzle;
      primary : a.primary ≡ primary_count a.known.value.puzzle;
      coloured : a.coloured ≡ false → IsPlain a.known.value.puzzle;
      starts : a.starts.items ≡ starts_of a.known.value.puzzle;
    } };
}

impl Fixed {
    #[tactic(auto, using(crate::proofs::TableLemmas::known_fit))]
    pub(crate) fn new(alloc: Global, problem: &Problem) -> Result<Fixed, AllocError>
        ensures value { IfOk result (λ f. f ≡ problem.now.puzzle) }
        ensures valid { IsValid problem.now.puzzle }
        ensures limits { IsWithinLimits problem.now.puzzle }
        ensures fit { IfOk result (λ _. IsFit problem.now.puzzle) }
    {
        let items = problem.items();
        let starts = option_starts(alloc, problem)?;
        Ok(Fixed {
            known: Snapshot::of(problem),
            spans: Spans::of(problem),
            items,
            primary: problem.primary(),
            coloured: problem.colours() > 0,
            starts,
        })
    }

    /// How many items there are.
    #[inline(always)]
    pub(crate) fn items(&self) -> u32
        ensures { result ≡ item_count self.now }
    {
        self.items
    }

    /// How many of them are primary.
    #[inline(always)]
    pub(crate) fn primary(&self) -> u32
        ensures { result ≡ primary_count self.now }
    {
        self.primary
    }

    #[inline(always)]
    pub(crate) fn is_item(&self, item: u32) -> bool
        ensures { IsTrue result ↔ IsItem self.now item }
    {
        1 <= item && item <= self.items
    }

    #[inline(always)]
    pub(crate) fn is_primary(&self, item: u32) -> bool
        ensures { IsTrue result ↔ IsPrimary self.now item }
    {
        1 <= item && item <= self.primary
    }

    #[inline(always)]
    pub(crate) fn is_secondary(&self, item: u32) -> bool
        ensures { IsTrue result ↔ IsSecondary self.now item }
    {
        self.primary < item && item <= self.items
    }

    /// Whether a use may have a colour.
    #[inline(always)]
    pub(crate) fn coloured(&self) -> bool
        ensures { result ≡ false → IsPlain self.now }
    {
        self.coloured
    }

    /// Where the option of each node is; an empty span for what is no use.
    #[inline(always)]
    pub(crate) fn spans(&self) -> &Spans
        ensures { result.now ≡ spans_of self.now }
    {
        &self.spans
    }

    /// Where the nodes of an option start.
    #[inline(always)]
    pub(crate) fn start(&self, option: u32) -> u32
        requires { IsOption self.now option }
        ensures { result ≡ start_at self.now (option - 1) }
    {
        self.starts[option as usize - 1]
    }
}
