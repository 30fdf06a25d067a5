//! Moves that the search makes and undoes.
ghost use Rattle.std.specs.Prelude.{ℕ, ◌≡◌, ◌+◌, ◌-◌, ◌<◌, ◌≤◌, [], ◌∷◌, length, drop};
ghost use Rattle.xc_moves.specs.Dancing.{moves_made};
ghost use Rattle.xc_input.specs.Problem.{IsItem};
ghost use Rattle.xc_moves.specs.Commits.{IsUseAt, after_option, after_spend};
ghost use Rattle.xc_search.specs.inner.Levels.{MayStand, NoTweakAbove, oldest, after_none};
ghost use Rattle.xc_moves.specs.Moves.{IsLegal, AreTweaks};
ghost use Rattle.xc_search.specs.Room.{room_for};

use crate::position::Position;
use xc_input::place_in;
use xc_moves::{Dance, Move};

impl<'a, D: Dance> Position<'a, D> {
    /// Makes a move that is legal and that a search of the problem has room for.
    #[inline(always)]
    pub fn make(&mut self, m: Move)
        requires legal { IsLegal self.old.puzzle self.old.trail m }
        requires room { length self.old.trail < room_for self.old.puzzle }
        ensures { self.new ≡ record self.old { trail = m ∷ self.old.trail } }
    {
        self.dance.make(m);
    }

    /// Undoes the newest move. There must be one, and it is no tweak: those of a level come off at once.
    #[inline(always)]
    fn undo(&mut self)
        requires some { 0 < length self.old.trail }
        requires other { NoTweakAbove (length self.old.trail - 1) self.old.trail }
        ensures { self.new ≡ record self.old { trail = drop 1 self.old.trail; undone = self.old.undone + 1 } }
    {
        self.dance.undo();
    }

    /// Undoes moves until only the oldest `mark` are left.
    #[inline(always)]
    pub fn undo_to(&mut self, mark: usize)
        requires within { mark ≤ length self.old.trail }
        requires other { NoTweakAbove mark self.old.trail }
        ensures { self.new ≡ record self.old {
          trail = oldest mark self.old.trail;
          undone = self.old.undone + (length self.old.trail - mark);
        } }
    {
        while self.height() > mark {
            self.undo();
        }
    }

    /// Undoes the newest `k` moves, tweaks of one item, below which there is no other tweak.
    #[inline(always)]
    pub fn undo_tweaks(&mut self, k: usize)
        requires tweaks { AreTweaks k self.old.trail }
        requires all { NoTweakAbove (length self.old.trail - k - 1) (drop k self.old.trail) }
        ensures { self.new ≡ record self.old { trail = drop k self.old.trail; undone = self.old.undone + k } }
    {
        self.dance.undo_tweaks(k);
    }

    /// Undoes the moves below the first level: none, since a search begins on a dance without moves.
    #[inline(always)]
    pub fn undo_rest(&mut self)
        ensures { self.new ≡ record self.old { trail = []; undone = moves_made self.old } }
    {
        while self.height() > 0 {
            self.dance.undo();
        }
    }

    /// Spends an item, and covers it where its bound is then used up.
    #[inline(always)]
    pub fn spend_item(&mut self, i: u32)
        requires { MayStand self.old.puzzle (after_spend self.old.puzzle i self.old.trail) }
        ensures { self.new ≡ record self.old { trail = after_spend self.old.puzzle i self.old.trail } }
    {
        self.make(Move::Spend(i));
        if self.dance().bound(i) == 0 {
            self.make(Move::Cover(i));
        }
    }

    /// Covers an item where it is open.
    #[inline(always)]
    pub fn cover_if_open(&mut self, i: u32)
        requires item { IsItem self.old.puzzle i }
        requires room { length (after_none i self.old.trail) ≤ room_for self.old.puzzle }
        ensures { self.new ≡ record self.old { trail = after_none i self.old.trail } }
    {
        let cover = Move::Cover(i);
        if self.dance().can(&cover) {
            self.make(cover);
        }
    }

    /// Commits the other uses of the option whose use of the item is at a place.
    #[inline(always)]
    pub fn commit(&mut self, i: u32, place: u32)
        requires item { IsItem self.old.puzzle i }
        requires can { (x : ℕ) × IsUseAt self.old.puzzle i x place
            × MayStand self.old.puzzle (after_option self.old.puzzle i x self.old.trail) }
        ensures { (x : ℕ) → IsUseAt self.old.puzzle i x place →
            self.new ≡ record self.old { trail = after_option self.old.puzzle i x self.old.trail } }
    {
        self.dance.commit(self.problem, i, place);
    }

    /// Does what `commit` does, by the uses of the option.
    // For the way to a row, where speed matters less: the dance's own `commit` is taken in by each loop that calls it.
    #[inline(never)]
    pub fn commit_uses(&mut self, i: u32, place: u32)
        requires item { IsItem self.old.puzzle i }
        requires can { (x : ℕ) × IsUseAt self.old.puzzle i x place
            × MayStand self.old.puzzle (after_option self.old.puzzle i x self.old.trail) }
        ensures { (x : ℕ) → IsUseAt self.old.puzzle i x place →
            self.new ≡ record self.old { trail = after_option self.old.puzzle i x self.old.trail } }
    {
        let option = self.dance.option_of(self.problem, i, place);
        let uses = self.problem.option(option);
        let at = place_in(uses, i);
        self.dance.commit_uses(self.problem, &uses[at + 1..]);
        self.dance.commit_uses(self.problem, &uses[..at]);
    }
}
