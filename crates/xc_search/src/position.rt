//! A dance of a problem, as the search goes over it.
ghost use Rattle.std.specs.Prelude.{◌≡◌, ◌<◌, ◌≤◌, length, true, IfSome, ◌^◌};
ghost use Rattle.xc_search.specs.Residuals.{wanted_after, choice_after};
ghost use Rattle.xc_search.specs.Room.{room_for};
ghost use Rattle.xc_search.specs.Once.{IsOnce};
ghost use Rattle.xc_search.specs.inner.Levels.{AreAllWanted, IsEarlyChoice, IsSearchable, residual_of};
ghost use Rattle.xc_search.specs.Listing.{listing};

mod branches;
mod moves;

use crate::branch_item::{choose_early, choose_next, first_of_open};
use crate::counts::even_size;
use crate::few::Few;
use crate::once::is_once;
use std::marker::Model;
use xc_input::Problem;
use xc_moves::Dance;

/// A dance with the problem that it is of. Its trail has room for each search of the problem. Both are known of it, so
/// no step requires them.
#[derive(Drop)]
pub struct Position<'a, D: Dance> {
    dance: D,
    problem: &'a Problem,
    /// Each primary item is to be held exactly once.
    once: bool,
    /// How many primary items each option holds, where that is one number, and `once`; else 0.
    each_holds: usize,
}

impl<'a, D: Dance> Model for Position<'a, D> {
    ghost use Rattle.std.specs.Prelude.{◌≡◌, ◌<◌, ◌≤◌, true};
    ghost use Rattle.xc_moves.specs.Dancing.{Dancing};
    ghost use Rattle.xc_search.specs.Room.{room_for};
    ghost use Rattle.xc_search.specs.Once.{IsOnce};
    ghost use Rattle.xc_search.specs.inner.Levels.{IsEven};

    ghost Value = { Dancing };

    ghost view = { λ a. D.state a.dance };

    ghost invariant = { λ a. record {
      same : (D.state a.dance).puzzle ≡ a.problem.now.puzzle;
      moves_fit : room_for a.problem.now.puzzle ≤ (D.state a.dance).room;
      once : a.once ≡ true → IsOnce a.problem.now.puzzle;
      even : 0 < a.each_holds → IsEven a.problem.now.puzzle a.each_holds;
    } };
}

impl<'a, D: Dance> Position<'a, D> {
    /// The dance's position.
    pub fn new(dance: D, problem: &'a Problem) -> Position<'a, D>
        requires same { (D.state dance).puzzle ≡ problem.now.puzzle }
        requires room { room_for problem.now.puzzle ≤ (D.state dance).room }
        ensures { result ≡ D.state dance }
    {
        let once = is_once(problem);
        let each_holds = if once { even_size(problem) } else { 0 };
        Position {
            dance,
            problem,
            once,
            each_holds,
        }
    }

    /// The dance, for its questions.
    #[inline(always)]
    pub fn dance(&self) -> &D
        ensures { D.state result.now ≡ self.now }
    {
        &self.dance
    }

    /// Returns the dance.
    pub fn into_dance(self) -> D
        ensures { D.state result ≡ self.entry }
    {
        let Position {
            dance,
            problem: _,
            once: _,
            each_holds: _,
        } = self;
        dance
    }

    /// The problem.
    #[inline(always)]
    pub fn problem(&self) -> &'a Problem
        ensures { result.now.puzzle ≡ self.now.puzzle }
    {
        self.problem
    }

    /// Whether each primary item is to be held exactly once; no does not say that one isn't.
    #[inline(always)]
    pub fn is_once(&self) -> bool
        ensures { result ≡ true → IsOnce self.now.puzzle }
    {
        self.once
    }

    /// The branch item and its number of branches, where no open item is held as often as it may be.
    #[inline(always)]
    pub fn choose(&self) -> Option<(u32, usize)>
        requires { AreAllWanted (wanted_after self.now.puzzle self.now.trail) }
        ensures choice { result ≡ choice_after self.now.puzzle self.now.trail }
        ensures few { IfSome result (λ c. c.1 < 2 ^ 32) }
    {
        choose_next(&self.dance, self.problem, self.once)
    }

    /// An item to be branched on, the branch item unless some item has no branches, where no open item is held as often
    /// as it may be.
    #[inline(always)]
    pub fn choose_early(&self) -> Option<(u32, usize)>
        requires { AreAllWanted (wanted_after self.now.puzzle self.now.trail) }
        ensures choice { IsEarlyChoice self.now.puzzle self.now.trail result }
        ensures few { IfSome result (λ c. c.1 < 2 ^ 32) }
    {
        choose_early(&self.dance, self.problem, self.once)
    }

    /// How many solutions what is left has, where the next choice is known to be the last: where no more items are open
    /// than each option holds, each option that is left holds all of them.
    #[inline(always)]
    pub fn last_choices(&self) -> Option<u32>
        requires { IsSearchable self.now.puzzle self.now.trail }
        ensures { IfSome result (λ n. n ≡ length (listing (residual_of self.now.puzzle self.now.trail))) }
    {
        if self.each_holds == 0 {
            return None;
        }
        let first = first_of_open(&self.dance, self.each_holds)?;
        Some(self.dance.len(first))
    }

    /// How many solutions what is left has, below so many levels, where it is little, and these are no more than
    /// `most`.
    #[inline(always)]
    pub fn count_few(&self, few: &mut Few, depth: usize, most: u64) -> Option<u64>
        requires searchable { IsSearchable self.now.puzzle self.now.trail }
        requires some { 0 < most }
        ensures counted { IfSome result (λ n. n ≡ length (listing (residual_of self.now.puzzle self.now.trail))) }
        ensures within { IfSome result (λ n. n ≤ most) }
    {
        if !self.dance.counts_unmoved() {
            return None;
        }
        if self.once {
            few.count(&self.dance, self.problem, depth, most)
        } else {
            few.count_within(&self.dance, self.problem, depth, most)
        }
    }

    /// How many moves are on the trail.
    #[inline(always)]
    pub fn height(&self) -> usize
        ensures { result ≡ length self.now.trail }
    {
        self.dance.moves().len()
    }
}
