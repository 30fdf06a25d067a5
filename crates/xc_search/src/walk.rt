//! A walk over a problem's solutions.
//!
//! It keeps no choices: `solution` reads each off its level when a caller needs it. A slice of choices would store and
//! load each again. The cost is one public type more, since `Search` keeps them.
//!
//! The loop takes its state by value (`passed`), as a struct without a model (`Standing`), whose fields the contract
//! names. So the bases and lengths of all tables stay in registers, which saves 7 % of the instructions. The cost: no
//! address of the state may leave the loop, so calls out of line take slices or lent copies and are cold, and
//! everything else is inlined. A `pass` over no solutions is recognized before the loop's function (6 %). Where a
//! search has ended a cold call counts: 1 % more instructions in a build without proofs, 3 % fewer in the proved `dlx1`
//! on 12 queens.
ghost use Rattle.std.specs.Prelude.{◌≡◌, ◌≢◌, ◌+◌, ◌<◌, ◌≤◌, [], ◌∷◌, drop, length, min, true, false};
ghost use Rattle.std.specs.Prelude.{IfOk, IfErr, IfSome, IsNone, vec_capacity, map, All};
ghost use Rattle.xc_search.specs.Marks.{marked, IsMark};
ghost use Rattle.xc_moves.specs.Dancing.{moves_made};
ghost use Rattle.xc_search.specs.Outlook.{shown_after, MakesFew};
ghost use Rattle.xc_search.specs.Listing.{whole};
ghost use Rattle.xc_search.specs.Ends.{ends, ends_after};
ghost use Rattle.xc_search.specs.Room.{room_for};
ghost use Rattle.xc_search.specs.Cover.{members, EachMemberCovers, EachCoverIsListedOnce};
ghost use Rattle.xc_search.specs.inner.Levels.{most_levels, coming, choices_of, IsStanding};

use crate::choice::Choice;
use crate::counts::most_levels;
use crate::few::Few;
use crate::level::Level;
use crate::levels::{Task, run, unwind};
use crate::marks::{AtMember, Mark, Marks};
use crate::position::Position;
use crate::ran::Stop;
use crate::stack::{Stack, put_choices};
use crate::unmoved::place_for_few;
use core::mem::replace_with;
use std::alloc::{AllocError, Global};
use std::marker::Model;
use xc_input::Problem;
use xc_moves::Dance;
use xc_text::Memory;

/// A walk over the solutions of a problem, over a dance of that problem, whose moves it makes and undoes. It stands for
/// the members of the problem's listing that are still to come, and at one of them. It is what `Search` goes by, and
/// keeps no choices: `solution` reads them from the levels. It may be dropped at any time, where its dance may; `close`
/// returns the dance.
#[derive(Drop)]
pub struct Walk<'a, D: Dance> {
    standing: Standing<'a, D>,
}

/// The state of a walk.
// It has no model, so that the contract of `run_on` names its fields.
#[derive(Drop)]
struct Standing<'a, D: Dance> {
    position: Position<'a, D>,
    stack: Stack,
    /// Where what is left is counted by words: one place, or none where it never is.
    few: Vec<Few>,
    /// What is left wasn't searched yet.
    unsearched: bool,
    /// By how many solutions it went on last. It is returned here, and not beside the rest: else the whole would be
    /// copied once more.
    passed: u64,
}

impl<'a, D: Dance> Model for Walk<'a, D> {
    ghost use Rattle.std.specs.Prelude.{◌≡◌, ◌≢◌, ◌<◌, [], false};
    ghost use Rattle.xc_search.specs.Outlook.{Outlook};
    ghost use Rattle.xc_moves.specs.Dancing.{moves_made};
    ghost use Rattle.xc_search.specs.inner.Ahead.{IsSolved, ends_ahead};
    ghost use Rattle.xc_search.specs.inner.Levels.{most_levels, choices_of, coming, IsStanding};

    ghost Value = { Outlook };

    ghost view = { λ s. let at = s.standing in record {
      puzzle = at.position.puzzle;
      to_come = coming at.position.puzzle at.position.trail at.stack.levels at.unsearched;
      shown = choices_of at.position.puzzle at.stack.levels;
      ahead = ends_ahead at.position.puzzle at.position.trail at.stack.levels at.unsearched;
      room = at.position.room;
      made = moves_made at.position;
    } };

    ghost invariant = { λ s. let at = s.standing in record {
      standing : IsStanding at.position.puzzle at.position.trail at.stack.levels at.unsearched;
      solved : at.unsearched ≡ false → at.stack.levels ≢ [] →
          IsSolved at.position.puzzle at.position.trail at.stack.levels;
      levels_fit : at.stack.room ≡ most_levels at.position.puzzle;
      moved : at.unsearched ≡ false → 0 < moves_made at.position;
    } };
}

impl<'a, D: Dance> Walk<'a, D> {
    /// Begins a walk over a dance that has no moves and room for `2 * items + 2 * uses` of them.
    /// All memory is taken here: where there is none, the dance comes back as it was.
    // Before the first move, so that lack of memory means that nothing was written.
    pub fn new(alloc: Global, dance: D, problem: &'a Problem) -> Result<Walk<'a, D>, (D, Memory)>
        requires same { (D.state dance).puzzle ≡ problem.now.puzzle }
        requires none { (D.state dance).trail ≡ [] }
        requires room { room_for problem.now.puzzle ≤ (D.state dance).room }
        ensures begun { IfOk result (λ s. s ≡ record {
          puzzle = problem.now.puzzle;
          to_come = members problem.now.puzzle;
          shown = [];
          ahead = ends (whole problem.now.puzzle);
          room = (D.state dance).room;
          made = moves_made (D.state dance);
        }) }
        ensures right { EachMemberCovers problem.now.puzzle }
        ensures complete { EachCoverIsListedOnce problem.now.puzzle }
        ensures back { IfErr result (λ e. e.0 ≡ dance) }
    {
        let Ok(stack) = Stack::new(alloc, most_levels(problem)) else {
            return Err((dance, Memory));
        };
        let Ok(few) = place_for_few(alloc, &dance, problem) else {
            return Err((dance, Memory));
        };
        Ok(Walk {
            standing: Standing {
                position: Position::new(dance, problem),
                stack,
                few,
                unsearched: true,
                passed: 0,
            },
        })
    }

    /// The choices of the solution that the walk is at, from the first level down; none where it is at none.
    #[inline(always)]
    pub fn solution(&self) -> Solution<'_, 'a, D>
        ensures { result ≡ self.now.shown }
    {
        Solution::new(self.standing.stack.levels(), &self.standing.position)
    }

    /// The marks of the choices of `solution`.
    #[inline(always)]
    pub fn marks(&self) -> Marks<'_>
        ensures marks { map (marked self.now.puzzle) result ≡ self.now.shown }
        ensures right { All (IsMark self.now.puzzle) result }
    {
        Marks::new(self.standing.stack.levels())
    }

    /// The choice of a mark.
    #[inline(always)]
    pub fn choice_of(&self, mark: Mark) -> Choice
        requires { IsMark self.now.puzzle mark }
        ensures { result ≡ marked self.now.puzzle mark }
    {
        self.standing.position.choice_at(mark)
    }

    /// Puts the choices of `solution` in the place of those in `shown`.
    #[tactic(auto, using(crate::proofs::BranchLemmas::all_shown))]
    pub(crate) fn show(&self, shown: &mut Vec<Choice>)
        requires { most_levels self.now.puzzle ≤ vec_capacity shown.old }
        ensures items { shown.new.items ≡ self.now.shown }
        ensures capacity { vec_capacity shown.new ≡ vec_capacity shown.old }
    {
        let standing = &self.standing;
        standing.stack.show(&standing.position, shown);
    }

    /// Goes on by so many solutions, or over all where fewer are left, and returns by how many. It is then at the
    /// last one; at none where fewer were left.
    pub fn pass(&mut self, many: u64) -> u64
        ensures went { self.new ≡ record self.old {
          to_come = drop many self.old.to_come;
          shown = shown_after many self.old.to_come self.old.shown;
          ahead = ends_after many self.old.ahead;
          made = self.new.made;
        } }
        ensures moves { MakesFew self.old self.new }
        ensures moved { 0 < many → 0 < self.new.made }
        ensures count { result ≡ min many (length self.old.to_come) }
    {
        // Tested here, and not in the loop's function.
        if many == 0 {
            return 0;
        }
        let standing = &mut self.standing;
        if standing.has_ended() {
            return 0;
        }
        // Two loops. One has no code that counts by words, and where one solution is passed nothing would be.
        if many == 1 || standing.few.is_empty() {
            replace_with(standing, many, Standing::run_on::<false>);
            return standing.passed;
        }
        replace_with(standing, many, Standing::run_on::<true>);
        standing.passed
    }

    /// Undoes every move, makes none, and returns the dance, after any result of `pass`.
    pub fn close(self) -> D
        ensures { D.state result ≡ record {
          puzzle = self.entry.puzzle;
          trail = [];
          room = self.entry.room;
          undone = self.entry.made;
        } }
    {
        let Standing {
            mut position,
            mut stack,
            few: _,
            unsearched: _,
            passed: _,
        } = self.standing;
        unwind(&mut position, &mut stack);
        position.into_dance()
    }
}

impl<'a, D: Dance> AtMember for Walk<'a, D> {
    ghost puzzle = { λ s. s.puzzle };

    ghost shown = { λ s. s.shown };

    #[inline(always)]
    fn marks(&self) -> Marks<'_> {
        self.marks()
    }

    #[inline(always)]
    fn choice_of(&self, mark: Mark) -> Choice {
        self.choice_of(mark)
    }
}

/// The choices of a solution that are still to be read.
#[derive(Drop)]
pub struct Solution<'w, 'a, D: Dance> {
    levels: &'w [Level],
    position: &'w Position<'a, D>,
}

impl<'w, 'a, D: Dance> Model for Solution<'w, 'a, D> {
    ghost use Rattle.std.specs.Prelude.{List, All, map};
    ghost use Rattle.xc_search.specs.declared.choice.Choice.{Choice};
    ghost use Rattle.xc_search.specs.inner.Levels.{IsShown, chosen};

    ghost Value = { List Choice };

    ghost view = { λ s. map (chosen s.position.now.puzzle) s.levels.now };

    ghost invariant = { λ s. record { shown : All (IsShown s.position.now.puzzle) s.levels.now } };
}

impl<'w, 'a, D: Dance> Solution<'w, 'a, D> {
    ghost use Rattle.xc_search.specs.inner.Levels.{IsShown, chosen};

    /// The choices of these levels.
    #[inline(always)]
    pub(crate) fn new(levels: &'w [Level], position: &'w Position<'a, D>) -> Solution<'w, 'a, D>
        requires shown { All (IsShown position.now.puzzle) levels.now }
        ensures { result ≡ map (chosen position.now.puzzle) levels.now }
    {
        Solution { levels, position }
    }

    /// The choices on their own.
    pub fn to_vec(self, alloc: Global) -> Result<Vec<Choice>, AllocError>
        ensures { IfOk result (λ choices. choices.items ≡ self.entry) }
    {
        let choices = Vec::with_capacity(alloc, self.levels.len())?;
        let (choices, ()) = put_choices(choices, (self.levels, self.position));
        Ok(choices)
    }

    /// The next choice; None after the last. So none is stored, which with what a search of its own choices stores
    /// took 0.88 of what it takes to print a short solution.
    #[inline(always)]
    pub fn next(&mut self) -> Option<Choice>
        ensures some { IfSome result (λ c. self.old ≡ c ∷ self.new) }
        ensures none { IsNone result → self.old ≡ [] }
    {
        match self.levels {
            [] => None,
            [level, rest @ ..] => {
                self.levels = rest;
                Some(self.position.newest_choice(level))
            }
        }
    }
}

impl<'a, D: Dance> Standing<'a, D> {
    ghost use Rattle.xc_search.specs.inner.Ahead.{WentBy, IsSolved, PaysFor};
    ghost use Rattle.xc_search.specs.inner.Levels.{IsStanding, most_levels};

    /// Whether no level is left, and what is left was searched.
    #[inline(always)]
    fn has_ended(&self) -> bool
        ensures ended { result ≡ true → (self.now.unsearched ≡ false) × (self.now.stack.levels ≡ []) }
        ensures goes_on { result ≡ false → self.now.unsearched ≡ false → self.now.stack.levels ≢ [] }
    {
        !self.unsearched && self.stack.top().is_none()
    }

    /// Goes on by so many solutions, or over all where fewer are left, and notes by how many. It takes the search by
    /// value, so that its loop holds the bases and lengths of all tables as values of its own: through a reference each
    /// would be loaded anew after each write to a table.
    // It holds while no address of the state leaves the loop: what is out of line there takes slices, and all else
    // is inlined by its attribute.
    #[inline(never)]
    fn run_on<const FEW: bool>(self, many: u64) -> (Standing<'a, D>, ())
        requires some { 0 < many }
        requires standing { IsStanding self.position.puzzle self.position.trail self.stack.levels true }
        requires solved { self.unsearched ≡ false →
            IsSolved self.position.puzzle self.position.trail self.stack.levels }
        requires levels_fit { most_levels self.position.puzzle ≤ self.stack.room }
        ensures went { WentBy self.entry.position self.entry.stack self.entry.unsearched many result.0.passed
            result.0.position result.0.stack result.0.unsearched }
        ensures pays { PaysFor self.entry.position self.entry.stack self.entry.unsearched many
            result.0.position result.0.stack }
        ensures moved { 0 < moves_made result.0.position }
    {
        let unsearched = self.unsearched;
        let (mut position, mut stack, mut few) = (self.position, self.stack, self.few);
        // Where it is at a solution, it finds that one again.
        let more = if unsearched { many - 1 } else { many };
        let ran = run::<D, false, false, FEW>(
            &mut position,
            &mut stack,
            Task {
                until: None,
                first: 1,
                over: more,
                steps: 0,
            },
            few.as_mut_slice(),
        );
        let passed = match ran.stop {
            Stop::Member => many,
            Stop::Steps | Stop::Row | Stop::Nothing => fewer(many, ran.more),
        };
        (
            Standing {
                position,
                stack,
                few,
                unsearched: false,
                passed,
            },
            (),
        )
    }
}

/// How many solutions were passed over of `many`, where the search then ended and `more` lacked beside the last.
// A call for its coldness alone: else the compiler takes a search's end for as likely as a step of its loop.
#[cold]
#[inline(never)]
fn fewer(many: u64, more: u64) -> u64
    requires { more < many }
    ensures { result + 1 + more ≡ many }
{
    many - 1 - more
}
