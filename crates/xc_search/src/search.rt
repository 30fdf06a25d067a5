//! The search: a walk whose choices are kept.
//!
//! All memory is taken before the first move, so `next` returns `Solution` or `Done` and nothing else, and lack of
//! memory means that nothing was written.
ghost use Rattle.std.specs.Prelude.{◌≡◌, ◌<◌, ◌≤◌, [], ◌∷◌, drop, length, min};
ghost use Rattle.std.specs.Prelude.{IfOk, IfErr};
ghost use Rattle.xc_moves.specs.Dancing.{moves_made};
ghost use Rattle.xc_search.specs.Outlook.{shown_after, MakesFew};
ghost use Rattle.xc_search.specs.Listing.{whole};
ghost use Rattle.xc_search.specs.Ends.{ends, ends_after};
ghost use Rattle.xc_search.specs.Room.{room_for};
ghost use Rattle.xc_search.specs.Cover.{members, EachMemberCovers, EachCoverIsListedOnce};

use crate::choice::Choice;
use crate::counts::most_levels;
use crate::walk::Walk;
use std::alloc::Global;
use std::marker::Model;
use xc_input::Problem;
use xc_moves::Dance;
use xc_text::Memory;

/// A result of `Search::next`.
#[derive(Clone, Copy, Debug, PartialEq, Eq)]
pub enum Step {
    /// Another solution was reached.
    Solution,
    /// No solution is left.
    Done,
}

/// A search for all solutions of a problem, over a dance of that problem, whose moves it makes and
/// undoes. It stands for the members of the problem's listing that are still to come. It may be dropped
/// at any time, where its dance may; `close` returns the dance.
#[derive(Drop)]
pub struct Search<'a, D: Dance> {
    walk: Walk<'a, D>,
    choices: Vec<Choice>,
}

impl<'a, D: Dance> Model for Search<'a, D> {
    ghost use Rattle.std.specs.Prelude.{◌≡◌, vec_capacity};
    ghost use Rattle.xc_search.specs.Outlook.{Outlook};
    ghost use Rattle.xc_search.specs.inner.Levels.{most_levels};

    ghost Value = { Outlook };

    ghost view = { λ s. record s.walk { shown = s.choices.items } };

    ghost invariant = { λ s. record { as_begun : vec_capacity s.choices ≡ most_levels s.walk.puzzle } };
}

impl<'a, D: Dance> Search<'a, D> {
    /// Begins a search over a dance that has no moves and room for `2 * items + 2 * uses` of them.
    /// All memory is taken here: where there is none, the dance comes back as it was.
    pub fn new(alloc: Global, dance: D, problem: &'a Problem) -> Result<Search<'a, D>, (D, Memory)>
        requires same { (D.state dance).puzzle ≡ problem.now.puzzle }
        requires none { (D.state dance).trail ≡ [] }
        requires room { room_for problem.now.puzzle ≤ (D.state dance).room }
        ensures begun { IfOk result (λ s. s ≡ record {
          puzzle = problem.now.puzzle;
          to_come = members problem.now.puzzle;
          shown = [];
          ahead = ends (whole problem.now.puzzle);
          room = (D.state dance).room;
          made = moves_made (D.state dance);
        }) }
        ensures right { EachMemberCovers problem.now.puzzle }
        ensures complete { EachCoverIsListedOnce problem.now.puzzle }
        ensures back { IfErr result (λ e. e.0 ≡ dance) }
    {
        let Ok(choices) = Vec::with_capacity(alloc, most_levels(problem)) else {
            return Err((dance, Memory));
        };
        match Walk::new(alloc, dance, problem) {
            Ok(walk) => Ok(Search { walk, choices }),
            Err(refused) => Err(refused),
        }
    }

    /// After `Solution` the choices of that solution, from the first level down; else none.
    pub fn choices(&self) -> &[Choice]
        ensures { result.now ≡ self.now.shown }
    {
        &self.choices
    }

    /// Goes on to the next solution, which `choices` then returns. After `Done` it returns `Done`
    /// again.
    pub fn next(&mut self) -> Step
        ensures still { self.new ≡ record self.old {
          to_come = self.new.to_come;
          shown = self.new.shown;
          ahead = ends_after 1 self.old.ahead;
          made = self.new.made;
        } }
        ensures moves { MakesFew self.old self.new }
        ensures moved { 0 < self.new.made }
        ensures solution { result ≡ Step.Solution → self.old.to_come ≡ self.new.shown ∷ self.new.to_come }
        ensures done { result ≡ Step.Done → (self.old.to_come ≡ []) × (self.new ≡ record self.old
            { shown = []; ahead = self.new.ahead; made = self.new.made }) }
    {
        match self.pass(1) {
            0 => Step::Done,
            _ => Step::Solution,
        }
    }

    /// Goes on by so many solutions, or over all where fewer are left, and returns by how many.
    /// `choices` then returns those of the last one; none where fewer were left.
    #[tactic(auto, using(crate::proofs::LoopSteps::shown_past, std::proofs::lemmas::Grind::common_steps, crate::proofs::LoopSteps::search_over))]
    pub fn pass(&mut self, many: u64) -> u64
        ensures went { self.new ≡ record self.old {
          to_come = drop many self.old.to_come;
          shown = shown_after many self.old.to_come self.old.shown;
          ahead = ends_after many self.old.ahead;
          made = self.new.made;
        } }
        ensures moves { MakesFew self.old self.new }
        ensures moved { 0 < many → 0 < self.new.made }
        ensures count { result ≡ min many (length self.old.to_come) }
    {
        let passed = self.walk.pass(many);
        if passed < many {
            self.choices.clear();
        } else if many > 0 {
            self.walk.show(&mut self.choices);
        }
        passed
    }

    /// Undoes every move, makes none, and returns the dance, after any result of `next`.
    pub fn close(self) -> D
        ensures { D.state result ≡ record {
          puzzle = self.entry.puzzle;
          trail = [];
          room = self.entry.room;
          undone = self.entry.made;
        } }
    {
        let Search { walk, choices: _ } = self;
        walk.close()
    }
}
