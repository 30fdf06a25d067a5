//! A search of a span: of the members from one row of numbers on and before another.
//!
//! It keeps no choices, as a walk doesn't: `choices` and `marks` read them from the levels of the member that it is at.
//! To copy those of each member took an eighth of the instructions of a run that prints a span.
ghost use Rattle.std.specs.Prelude.{◌≡◌, ◌≢◌, ◌+◌, ◌*◌, ◌-◌, ◌^◌, ◌<◌, ◌≤◌, [], ◌∷◌, ◌++◌, length, map};
ghost use Rattle.std.specs.Prelude.{true, false, if◌then◌else◌, Some, None, IfSome, IsSome, IfOk, IfErr};
ghost use Rattle.std.specs.Prelude.{option_map, option_and_then, slice_get, All};
ghost use Rattle.xc_search.specs.Room.{room_for};
ghost use Rattle.xc_search.specs.Listing.{whole};
ghost use Rattle.xc_search.specs.Spans.{precedes, is_before, between};
ghost use Rattle.xc_search.specs.InSpan.{left_of, reached, branches_along};
ghost use Rattle.xc_search.specs.inner.Levels.{chosen, IsShown};
ghost use Rattle.xc_search.specs.Nodes.{IsRowOf};
ghost use Rattle.xc_search.specs.Going.{WentOnBy};
ghost use Rattle.xc_moves.specs.Dancing.{moves_made};

use crate::choice::Choice;
use crate::counts::most_levels;
use crate::level::Level;
use crate::levels::unwind;
use crate::marks::{AtMember, Mark, Marks};
use crate::position::Position;
use crate::ran::Stop;
use crate::rows::is_before;
use crate::spanning::{State, go_over, reach};
use crate::stack::Stack;
use crate::unmoved::place_for_few;
use crate::walk::Solution;
use crate::went::{Halt, Went};
use std::alloc::{AllocError, Global};
use std::marker::Model;
use xc_input::Problem;
use xc_moves::Dance;
use xc_text::Memory;

/// A number of a row: branch `k` of the `n` branches of its level.
#[derive(Clone, Copy, Debug, PartialEq, Eq, Hash)]
pub struct RowNumber {
    pub k: u32,
    pub n: u32,
}

/// The number at this place of the row of these levels, the oldest first, or of the one right after it.
fn number_of(levels: &[Level], unsearched: bool, place: usize) -> Option<RowNumber>
    ensures number { option_map (λ x. x.k) result ≡ slice_get
        (if unsearched then map (λ l. l.begun) levels.now else map (λ l. l.begun) levels.now ++ 0 ∷ []) place }
    ensures branches { option_map (λ x. x.n) result ≡ slice_get
        (if unsearched then map (λ l. l.count) levels.now else map (λ l. l.count) levels.now ++ 0 ∷ []) place }
    ensures near { IsSome result → place ≤ length levels.now }
{
    match levels.get(place) {
        Some(level) => Some(RowNumber {
            k: level.begun,
            n: level.count,
        }),
        None if place == levels.len() && !unsearched => Some(RowNumber { k: 0, n: 0 }),
        None => None,
    }
}

/// A search of a span of a problem's listing, over a dance of that problem, whose moves it makes and undoes. It is at
/// a row of numbers, and stands for the members of the span from that row on. It may be dropped at any time, where its
/// dance may; `close` returns the dance.
#[derive(Drop)]
pub struct Span<'a, D: Dance> {
    state: State<'a, D>,
    /// What is left wasn't searched yet. Else it is at a solution.
    unsearched: bool,
    /// No member of the span is left.
    ended: bool,
    /// It shows the member that its levels are of.
    shows: bool,
    until: Option<&'a [u32]>,
}

impl<'a, D: Dance> Model for Span<'a, D> {
    ghost use Rattle.std.specs.Prelude.{◌≡◌, [], true, false, Some, None, option_map, if◌then◌else◌};
    ghost use Rattle.xc_search.specs.InSpan.{InSpan};
    ghost use Rattle.xc_moves.specs.Dancing.{moves_made};
    ghost use Rattle.xc_search.specs.Spans.{is_before};
    ghost use Rattle.xc_search.specs.inner.Ahead.{IsSolved, AreLed};
    ghost use Rattle.xc_search.specs.inner.Levels.{most_levels, AreStacked, IsStanding, choices_of};
    ghost use Rattle.xc_search.specs.inner.Spanning.{row_at, row_from};

    ghost Value = { InSpan };

    ghost view = { λ s. record {
      puzzle = s.state.position.puzzle;
      row = if s.ended then None else Some (row_from s.state.position.puzzle s.state.stack.levels s.unsearched);
      until = option_map (λ u. u.now) s.until;
      shown = if s.shows then choices_of s.state.position.puzzle s.state.stack.levels else [];
      room = s.state.position.room;
      made = moves_made s.state.position;
      begun = s.state.stack.begun;
    } };

    ghost invariant = { λ s. record {
      stacked : AreStacked s.state.position.puzzle s.state.position.trail s.state.stack.levels;
      led : s.ended ≡ false → AreLed s.state.position.puzzle [] s.state.position.trail s.state.stack.levels;
      standing : s.ended ≡ false → IsStanding s.state.position.puzzle s.state.position.trail s.state.stack.levels true;
      solved : s.ended ≡ false → s.unsearched ≡ false →
          IsSolved s.state.position.puzzle s.state.position.trail s.state.stack.levels;
      before : s.ended ≡ false →
          is_before (option_map (λ u. u.now) s.until) (row_at s.state.position.puzzle s.state.stack.levels) ≡ true;
      levels_fit : s.state.stack.room ≡ most_levels s.state.position.puzzle;
    } };
}

impl<'a, D: Dance> Span<'a, D> {
    /// Begins a search at the row `from`, of the members before the row `until`, or of all that follow; over a dance
    /// that has no moves and room for `2 * items + 2 * uses` of them. A row is the numbers `k` of a member's choices,
    /// from the first level down, or any other numbers: a row that begins another comes before it. What it takes to
    /// come to the first row isn't counted as steps.
    ///
    /// All memory is taken here: where there is none, the dance comes back as it was.
    pub fn new(
        alloc: Global,
        dance: D,
        problem: &'a Problem,
        from: &[u32],
        until: Option<&'a [u32]>,
    ) -> Result<Span<'a, D>, (D, Memory)>
        requires same { (D.state dance).puzzle ≡ problem.now.puzzle }
        requires none { (D.state dance).trail ≡ [] }
        requires room { room_for problem.now.puzzle ≤ (D.state dance).room }
        ensures begun { IfOk result (λ s. s ≡ record {
          puzzle = problem.now.puzzle;
          row = s.row;
          until = option_map (λ u. u.now) until.entry;
          shown = [];
          room = (D.state dance).room;
          made = s.made;
          begun = s.begun;
        }) }
        ensures way { IfOk result (λ s. s.begun ≤ length from.now + 1) }
        ensures moves { IfOk result (λ s.
            s.made ≤ moves_made (D.state dance) + room_for problem.now.puzzle * (s.begun + 2)) }
        ensures left { IfOk result (λ s. left_of s ≡ between problem.now.puzzle from.now s.until) }
        ensures row { IfOk result (λ s. IfSome s.row (λ row.
            (precedes row from.now ≡ false) × (between problem.now.puzzle from.now (Some row) ≡ []))) }
        ensures node { IfOk result (λ s. IfSome s.row (λ row. IsRowOf (whole problem.now.puzzle) row)) }
        ensures back { IfErr result (λ e. e.0 ≡ dance) }
    {
        let Ok(stack) = Stack::new(alloc, most_levels(problem)) else {
            return Err((dance, Memory));
        };
        let Ok(few) = place_for_few(alloc, &dance, problem) else {
            return Err((dance, Memory));
        };
        let position = Position::new(dance, problem);
        let mut state = State {
            position,
            stack,
            few,
        };
        let reached = reach(&mut state, from);
        let within = is_before(state.stack.levels(), until);
        Ok(Span {
            state,
            unsearched: true,
            ended: !reached || !within,
            shows: false,
            until,
        })
    }

    /// The levels of the member that it shows, the oldest first; none where it shows none.
    #[inline(always)]
    fn levels_shown(&self) -> &[Level]
        ensures choices { map (chosen self.now.puzzle) result.now ≡ self.now.shown }
        ensures shown { All (IsShown self.now.puzzle) result.now }
    {
        if self.shows {
            self.state.stack.levels()
        } else {
            &[]
        }
    }

    /// After `Member` the choices of that member, from the first level down; else none.
    #[inline(always)]
    pub fn choices(&self) -> Solution<'_, 'a, D>
        ensures { result ≡ self.now.shown }
    {
        Solution::new(self.levels_shown(), &self.state.position)
    }

    /// Goes on by so many members and at most so many steps, each a branch that is begun. It may run out of steps
    /// between any two branches, and not at members alone. Where it is then at a dead end, an item that has no option
    /// left, it goes on to the next row of the search's tree: the branches that led there may be none of the tree.
    /// After `End` it returns `End` again.
    pub fn go_on(&mut self, many: u64, steps: u64) -> Went
        ensures { WentOnBy many steps result self.old self.new }
    {
        if self.ended {
            self.stay(Halt::End)
        } else if many == 0 {
            self.stay(Halt::Member)
        } else if steps == 0 {
            self.stay(Halt::Steps)
        } else {
            self.advance(many, steps)
        }
    }

    /// Halts where it is. At a member it shows what it showed.
    fn stay(&mut self, halt: Halt) -> Went
        ensures member { halt ≡ Halt.Member → self.new ≡ self.old }
        ensures other { halt ≢ Halt.Member → self.new ≡ record self.old { shown = [] } }
        ensures went { result ≡ record { halt = halt; members = 0; steps = 0 } }
    {
        match halt {
            Halt::Member => {}
            Halt::End | Halt::Steps => self.shows = false,
        }
        Went::at(halt, 0, 0)
    }

    /// Goes on, where its row isn't the end, by at least one member or one step.
    fn advance(&mut self, many: u64, steps: u64) -> Went
        requires row { IsSome self.old.row }
        requires members { 0 < many }
        requires steps { 0 < steps }
        ensures { WentOnBy many steps result self.old self.new }
    {
        // Where it is at a solution, it finds that one again.
        let over = if self.unsearched { many - 1 } else { many };
        let ran = go_over(&mut self.state, self.until, over, steps);
        let taken = steps - ran.steps;
        match ran.stop {
            Stop::Member => {
                self.unsearched = false;
                self.shows = true;
                Went::at(Halt::Member, many, taken)
            }
            Stop::Row | Stop::Nothing => {
                self.ended = true;
                self.shows = false;
                Went::at(Halt::End, many - 1 - ran.more, taken)
            }
            Stop::Steps => {
                self.unsearched = true;
                self.shows = false;
                Went::at(Halt::Steps, many - 1 - ran.more, taken)
            }
        }
    }

    /// The row that it is at, each number with the number of branches of its level; none after `End`. The members
    /// of the span from this row on are those that are left. At a member that was passed it is the row right after
    /// that one's, which ends with 0 of 0 branches.
    pub fn row(&self, alloc: Global) -> Result<Vec<RowNumber>, AllocError>
        ensures numbers { IfOk result (λ row. IfSome self.now.row (λ numbers. map (λ x. x.k) row.items ≡ numbers)) }
        ensures branches { IfOk result (λ row. IfSome self.now.row (λ numbers.
            map (λ x. x.n) row.items ≡ branches_along (whole self.now.puzzle) numbers)) }
        ensures none { IfOk result (λ row. self.now.row ≡ None → row.items ≡ []) }
    {
        if self.ended {
            return Ok(Vec::new(alloc));
        }
        let levels = self.state.stack.levels();
        let mut row = Vec::with_capacity(alloc, levels.len() + 1)?;
        for level in levels {
            row.push_reserved(RowNumber {
                k: level.begun,
                n: level.count,
            });
        }
        if !self.unsearched {
            row.push_reserved(RowNumber { k: 0, n: 0 });
        }
        Ok(row)
    }

    /// The number at this place of the row that it is at, from 0 for the first level, with the number of branches
    /// of its level; none after the last one, and after `End`.
    pub fn number_at(&self, place: usize) -> Option<RowNumber>
        ensures number { option_map (λ x. x.k) result
            ≡ option_and_then (λ row. slice_get row place) self.now.row }
        ensures branches { option_map (λ x. x.n) result ≡ option_and_then (λ row.
            slice_get (branches_along (whole self.now.puzzle) row) place) self.now.row }
        ensures near { IsSome result → place < 2 ^ 64 - 1 }
    {
        if self.ended {
            return None;
        }
        number_of(self.state.stack.levels(), self.unsearched, place)
    }

    /// Undoes every move, makes none, and returns the dance, after any result of `go_on`.
    pub fn close(self) -> D
        ensures { D.state result ≡ record {
          puzzle = self.entry.puzzle;
          trail = [];
          room = self.entry.room;
          undone = self.entry.made;
        } }
    {
        let Span {
            state,
            unsearched: _,
            ended: _,
            shows: _,
            until: _,
        } = self;
        let State {
            mut position,
            mut stack,
            few: _,
        } = state;
        unwind(&mut position, &mut stack);
        position.into_dance()
    }
}

impl<'a, D: Dance> AtMember for Span<'a, D> {
    ghost puzzle = { λ s. s.puzzle };

    ghost shown = { λ s. s.shown };

    #[inline(always)]
    fn marks(&self) -> Marks<'_> {
        Marks::new(self.levels_shown())
    }

    #[inline(always)]
    fn choice_of(&self, mark: Mark) -> Choice {
        self.state.position.choice_at(mark)
    }
}
