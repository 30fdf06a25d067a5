//! Marks, by which the choices of a solution are compared.
ghost use Rattle.std.specs.Prelude.{◌≡◌, [], ◌∷◌, IfSome, IsNone, map, List, All};
ghost use Rattle.xc_input.specs.Problem.{Puzzle};
ghost use Rattle.xc_search.specs.declared.choice.Choice.{Choice};
ghost use Rattle.xc_search.specs.Marks.{marked, IsMark};
ghost use Rattle.xc_search.specs.inner.Levels.{mark_of};

use crate::choice::Choice;
use crate::level::Level;
use std::marker::Model;

/// What determines the choice of a level. Levels of one problem with the same marks have the same choices, so a caller
/// that knows the choice of a mark need not compute it again.
#[derive(Clone, Copy, Debug, PartialEq, Eq)]
pub struct Mark {
    /// The branch item.
    pub item: u32,
    /// The place in the item's list of the option that is taken; `item`, where none is.
    pub place: u32,
    /// The branch, from 1 to `n`.
    pub k: u32,
    /// The number of branches.
    pub n: u32,
}

impl Mark {
    /// The mark of a level's newest branch.
    #[inline(always)]
    pub(crate) fn of(level: &Level) -> Mark
        ensures { result ≡ mark_of level.now }
    {
        Mark {
            item: level.item,
            place: level.place,
            k: level.begun,
            n: level.count,
        }
    }
}

/// The marks of a solution that are still to be read.
#[derive(Drop)]
pub struct Marks<'w> {
    levels: &'w [Level],
}

impl<'w> Model for Marks<'w> {
    ghost use Rattle.std.specs.Prelude.{List, map};
    ghost use Rattle.xc_search.specs.declared.marks.Mark.{Mark};
    ghost use Rattle.xc_search.specs.inner.Levels.{mark_of};

    ghost Value = { List Mark };

    ghost view = { λ s. map mark_of s.levels.now };
}

impl<'w> Marks<'w> {
    /// The marks of levels.
    #[inline(always)]
    pub(crate) fn new(levels: &'w [Level]) -> Marks<'w>
        ensures { result ≡ map mark_of levels.now }
    {
        Marks { levels }
    }

    /// The next mark; None after the last.
    #[inline(always)]
    pub fn next(&mut self) -> Option<Mark>
        ensures some { IfSome result (λ m. self.old ≡ m ∷ self.new) }
        ensures none { IsNone result → self.old ≡ [] }
    {
        match self.levels {
            [] => None,
            [level, rest @ ..] => {
                self.levels = rest;
                Some(Mark::of(level))
            }
        }
    }
}

/// A search that is at a member of the listing, or at none, and shows its choices by their marks.
pub trait AtMember {
    ghost puzzle: { Self → Puzzle };

    ghost shown: { Self → List Choice };

    /// The marks of the choices of the member that it is at, from the first level down; none where it is at none.
    fn marks(&self) -> Marks<'_>
        ensures marks { map (marked (puzzle self.now)) result ≡ shown self.now }
        ensures right { All (IsMark (puzzle self.now)) result };

    /// The choice of a mark.
    fn choice_of(&self, mark: Mark) -> Choice
        requires { IsMark (puzzle self.now) mark }
        ensures { result ≡ marked (puzzle self.now) mark };
}
