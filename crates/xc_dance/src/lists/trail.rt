//! The moves on the trail, with what they make of the items.
ghost use Rattle.std.specs.Prelude.{◌≡◌, ◌+◌, ◌<◌, ◌≤◌, ◌↔◌, [], ◌∷◌, length, drop, reverse, is_some, IsTrue, IfOk};
ghost use Rattle.xc_input.specs.Problem.{IsItem, IsPrimary, IsWithinLimits, high_at};
ghost use Rattle.xc_moves.specs.Moves.{IsLegal, is_open, purified, spends, next_above, open_items};

use crate::lists::item_states::{open_states, whole_bounds};
use crate::lists::state::ItemState;
use crate::lists::table::Table;
use std::alloc::{AllocError, Global};
use std::marker::Model;
use xc_input::Problem;
use xc_moves::Move;
use xc_text::Tally;

/// The moves on the trail, with the problem that they are made on.
#[derive(Drop)]
pub(crate) struct Trail {
    table: Table,
    /// The states of the items.
    states: Vec<ItemState>,
    /// What is left of the upper bounds of the primary items.
    left: Vec<u32>,
    /// The moves, the oldest first.
    moves: Vec<Move>,
    room: usize,
    /// How many moves were taken off.
    undone: Tally,
}

impl Model for Trail {
    ghost use Rattle.std.specs.Prelude.{◌≤◌, length, reverse, vec_capacity};
    ghost use Rattle.xc_input.specs.Problem.{IsWithinLimits};
    ghost use Rattle.xc_moves.specs.Dancing.{Dancing};
    ghost use Rattle.xc_moves.specs.Moves.{AreLegal};
    ghost use Rattle.xc_dance.specs.inner.Lists.{AreStates, AreLeft};

    ghost Value = { Dancing };

    ghost view = { λ a. record {
      puzzle = a.table;
      trail = reverse a.moves.items;
      room = a.room;
      undone = a.undone.count;
    } };

    ghost invariant = { λ a. record {
      limits : IsWithinLimits a.table;
      legal : AreLegal a.table (reverse a.moves.items);
      states : AreStates a.table (reverse a.moves.items) a.states.items;
      left : AreLeft a.table (reverse a.moves.items) a.left.items;
      few : length a.moves.items ≤ a.room;
      room_to_move : a.room ≤ vec_capacity a.moves;
    } };
}

impl Trail {
    /// No moves, and room for `room` of them. No later call takes memory.
    pub(crate) fn new(alloc: Global, problem: &Problem, room: usize) -> Result<Trail, AllocError>
        ensures { IfOk result (λ s. s ≡ record {
          puzzle = problem.now.puzzle;
          trail = [];
          room = room;
          undone = 0;
        }) }
    {
        let table = Table::new(alloc, problem)?;
        let states = open_states(alloc, &table)?;
        let left = whole_bounds(alloc, &table)?;
        let moves = Vec::with_capacity(alloc, room)?;
        Ok(Trail {
            table,
            states,
            left,
            moves,
            room,
            undone: Tally::new(),
        })
    }

    pub(crate) fn table(&self) -> &Table
        ensures value { result.now ≡ self.now.puzzle }
        ensures limits { IsWithinLimits self.now.puzzle }
    {
        &self.table
    }

    pub(crate) fn moves(&self) -> &[Move]
        ensures { result.now ≡ reverse self.now.trail }
    {
        self.moves.as_slice()
    }

    pub(crate) fn room(&self) -> usize
        ensures { result ≡ self.now.room }
    {
        self.room
    }

    pub(crate) fn is_full(&self) -> bool
        ensures full { IsTrue result ↔ (length self.now.trail ≡ self.now.room) }
        ensures within { length self.now.trail ≤ self.now.room }
    {
        self.moves.len() == self.room
    }

    #[tactic(auto, using(std::proofs::lemmas::Grind::common_steps, crate::proofs::StateLemmas::open_by_state, crate::proofs::StateLemmas::closed_state))]
    pub(crate) fn is_open(&self, item: u32) -> bool
        requires { IsItem self.now.puzzle item }
        ensures { result ≡ is_open item self.now.trail }
    {
        matches!(self.states[item as usize - 1], ItemState::Open)
    }

    #[tactic(auto, using(std::proofs::lemmas::Grind::common_steps, crate::proofs::StateLemmas::purified_by_state, crate::proofs::StateLemmas::unpurified_state))]
    pub(crate) fn is_purified(&self, item: u32) -> bool
        requires { IsItem self.now.puzzle item }
        ensures { result ≡ is_some (purified item self.now.trail) }
    {
        matches!(self.states[item as usize - 1], ItemState::Purified)
    }

    /// What is left of the item's upper bound.
    pub(crate) fn bound(&self, item: u32) -> u32
        requires { IsPrimary self.now.puzzle item }
        ensures { result + spends item self.now.trail ≡ high_at self.now.puzzle item }
    {
        self.left[item as usize - 1]
    }

    /// The next open primary item above `item`.
    #[tactic(auto, using(crate::proofs::StateLemmas::next_open))]
    pub(crate) fn open_after(&self, item: u32) -> Option<u32>
        ensures { result ≡ next_above item (open_items self.now.puzzle self.now.trail) }
    {
        for at in item..self.table.primary() {
            if self.is_open(at + 1) {
                return Some(at + 1);
            }
        }
        None
    }

    /// Adds a legal move.
    pub(crate) fn push(&mut self, m: Move)
        requires legal { IsLegal self.old.puzzle self.old.trail m }
        requires room { length self.old.trail < self.old.room }
        ensures { self.new ≡ record self.old { trail = m ∷ self.old.trail } }
    {
        match m {
            Move::Cover(item) => self.states[item as usize - 1] = ItemState::Covered,
            Move::Purify(item, _) => self.states[item as usize - 1] = ItemState::Purified,
            Move::Tweak(_) => {}
            Move::Spend(item) => self.left[item as usize - 1] -= 1,
        }
        self.moves.push_reserved(m);
    }

    /// Takes off the newest move.
    pub(crate) fn pop(&mut self)
        requires { 0 < length self.old.trail }
        ensures { self.new ≡ record self.old
            { trail = drop 1 self.old.trail; undone = self.old.undone + 1 } }
    {
        if let Some(m) = self.moves.pop() {
            self.undone = Tally::one_more(&self.undone);
            match m {
                Move::Cover(item) => self.states[item as usize - 1] = ItemState::Open,
                Move::Purify(item, _) => self.states[item as usize - 1] = ItemState::Open,
                Move::Tweak(_) => {}
                Move::Spend(item) => self.left[item as usize - 1] += 1,
            }
        }
    }
}
