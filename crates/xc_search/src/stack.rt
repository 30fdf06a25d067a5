//! The stack of the search's levels, and their choices.
//!
//! All its memory is taken before the first move. The cost: no test can make it fail, since a small problem has a small
//! stack; the hostile runs refuse this memory. A branch writes four fields of its level in place. That takes as many
//! instructions as writing the whole, but no load waits for it.
ghost use Rattle.std.specs.Prelude.{◌≡◌, ◌+◌, ◌<◌, ◌≤◌, [], ◌∷◌, ◌++◌, length, drop, map, reverse, vec_capacity};
ghost use Rattle.std.specs.Prelude.{IfSome, IfOk, IsNone, All};
ghost use Rattle.xc_search.specs.inner.Levels.{chosen, choices_of, newest_begun, IsShown};

use crate::choice::Choice;
use crate::level::{Begun, Level, begin_level};
use crate::position::Position;
use core::mem::replace_with;
use std::alloc::{AllocError, Global};
use std::marker::Model;
use xc_moves::Dance;
use xc_text::Tally;

/// The levels of a search.
#[derive(Drop)]
pub struct Stack {
    /// The oldest first.
    levels: Vec<Level>,
    room: usize,
    /// How many branches were ever begun: one for each that a level noted, since by these alone a search goes on.
    begun: Tally,
}

impl Model for Stack {
    ghost use Rattle.std.specs.Prelude.{◌≡◌, ◌≤◌, length, reverse, vec_capacity};
    ghost use Rattle.xc_search.specs.inner.Levels.{Levels};

    ghost Value = { Levels };

    ghost view = { λ a. record {
      levels = reverse a.levels.items;
      room = a.room;
      begun = a.begun.count;
    } };

    ghost invariant = { λ a. record {
      few : length a.levels.items ≤ a.room;
      as_begun : vec_capacity a.levels ≡ a.room;
    } };
}

impl Stack {
    /// No levels, and room for `room` of them. No later call takes memory.
    pub fn new(alloc: Global, room: usize) -> Result<Stack, AllocError>
        ensures { IfOk result (λ s. s ≡ record { levels = []; room = room; begun = 0 }) }
    {
        let levels = Vec::with_capacity(alloc, room)?;
        Ok(Stack {
            levels,
            room,
            begun: Tally::new(),
        })
    }

    /// Puts a level on top, which began a branch.
    #[inline(always)]
    pub fn push(&mut self, level: Level)
        requires { length self.old.levels < self.old.room }
        ensures { self.new ≡ record self.old { levels = level ∷ self.old.levels; begun = self.old.begun + 1 } }
    {
        self.levels.push_reserved(level);
        self.begun = Tally::one_more(&self.begun);
    }

    /// The newest level, if there is one.
    #[inline(always)]
    pub fn top(&self) -> Option<&Level>
        ensures some { IfSome result (λ l. self.now.levels ≡ l.now ∷ drop 1 self.now.levels) }
        ensures none { IsNone result → self.now.levels ≡ [] }
    {
        self.levels.last()
    }

    /// Notes the branch that the newest level began, in place.
    #[inline(always)]
    pub fn note_branch(&mut self, branch: Begun)
        requires { 0 < length self.old.levels }
        ensures { self.new ≡ record self.old
            { levels = newest_begun branch self.old.levels; begun = self.old.begun + 1 } }
    {
        let top = self.levels.len() - 1;
        begin_level(&mut self.levels[top], branch);
        self.begun = Tally::one_more(&self.begun);
    }

    /// Takes the newest level off, if there is one.
    #[inline(always)]
    pub fn pop(&mut self)
        ensures { self.new ≡ record self.old { levels = drop 1 self.old.levels } }
    {
        let _ = self.levels.pop();
    }

    /// The levels, the oldest first.
    #[inline(always)]
    pub fn levels(&self) -> &[Level]
        ensures levels { reverse result.now ≡ self.now.levels }
        ensures few { length result.now ≤ self.now.room }
    {
        &self.levels
    }

    /// Puts the levels' choices in the place of those in `shown`. It is called where a search stops: choices that are
    /// kept in step with the levels take stores which a count never reads.
    pub fn show<D: Dance>(&self, position: &Position<D>, shown: &mut Vec<Choice>)
        requires shown { All (IsShown position.now.puzzle) self.now.levels }
        requires room { self.now.room ≤ vec_capacity shown.old }
        ensures items { shown.new.items ≡ choices_of position.now.puzzle self.now.levels }
        ensures capacity { vec_capacity shown.new ≡ vec_capacity shown.old }
    {
        replace_with(shown, (self.levels(), position), put_choices);
    }
}

/// The choices of levels, in the place of those that were there.
// They come and go by value, so that their length is stored once, and the levels are taken off the front of a slice, so
// that none is sought by its number.
pub fn put_choices<'s, 'a, D: Dance>(
    mut choices: Vec<Choice>,
    shown: (&'s [Level], &'s Position<'a, D>),
) -> (Vec<Choice>, ())
    requires room { length shown.0.now ≤ vec_capacity choices }
    requires shown { All (IsShown shown.1.now.puzzle) shown.0.now }
    ensures items { result.0.items ≡ map (chosen shown.entry.1.now.puzzle) shown.entry.0.now }
    ensures capacity { vec_capacity result.0 ≡ vec_capacity choices }
{
    let (levels, position) = shown;
    choices.clear();
    let mut rest = levels;
    while let [level, older @ ..] = rest {
        choices.push_reserved(position.newest_choice(level));
        rest = older;
    }
    (choices, ())
}
