//! Commits of an option by its nodes alone, on both sides of the item that was branched on.
//!
//! `enter_node` ends before the Cover of the use's item, whether that was spent or has no colour, so that one copy of
//! Cover serves both. With a copy for each kind of use a search takes 10 % more instructions.
ghost use Rattle.std.specs.Prelude.{◌≡◌, ℕ, ◌-◌, ◌<◌, ◌∷◌, length, IsTrue, slice_get, Some, ◌==◌, if◌then◌else◌};
ghost use Rattle.xc_input.specs.Problem.{IsPrimary, IsSecondary, high_at};
ghost use Rattle.xc_moves.specs.Commits.{CanStand, IsUseAt, after_spend, after_use, after_uses};
ghost use Rattle.xc_dance.specs.Cost.{HasWritten};
ghost use Rattle.xc_dance.specs.inner.Tables.{uses_behind, uses_before};
ghost use Rattle.xc_moves.specs.Places.{layout, spacer_place, used};
ghost use Rattle.xc_moves.specs.Moves.{is_open, spends};
ghost use Rattle.xc_input.specs.declared.problem.Use.{Use};
ghost use Rattle.xc_moves.specs.declared.dance.Move.TheVariants.{Cover, Purify, Spend};

use crate::links::Links;
use crate::links::cells::SPACER;
use xc_moves::{Dance, Move};

impl Links {
    ghost use Rattle.xc_dance.specs.Linked.{dancing_of};

    /// Spends a primary item, and returns whether nothing is left of its bound.
    #[inline(always)]
    fn spend_last(&mut self, j: u32) -> bool
        requires item { IsPrimary self.old.puzzle j }
        requires stands { CanStand self.old.puzzle self.old.room (after_spend self.old.puzzle j self.old.trail) }
        ensures spent { dancing_of self.new ≡ record (dancing_of self.old) { trail = Spend j ∷ self.old.trail } }
        ensures last { result ≡ (high_at self.old.puzzle j - spends j (Spend j ∷ self.old.trail) == 0) }
        ensures written { HasWritten self.old self.new }
        ensures memory { self.new.capacity ≡ self.old.capacity }
    {
        self.make(Move::Spend(j));
        self.bound(j) == 0
    }

    /// Purifies an open secondary item where the use has a colour, and returns whether it has none.
    #[inline(always)]
    fn purify_coloured(&mut self, j: u32, colour: u32) -> bool
        requires item { IsSecondary self.old.puzzle j }
        requires open { IsTrue (is_open j self.old.trail) }
        requires room { length self.old.trail < self.old.room }
        ensures purified { dancing_of self.new ≡ record (dancing_of self.old)
            { trail = (if colour == 0 then self.old.trail else Purify j colour ∷ self.old.trail) } }
        ensures plain { result ≡ (colour == 0) }
        ensures written { HasWritten self.old self.new }
        ensures memory { self.new.capacity ≡ self.old.capacity }
    {
        if colour == 0 {
            return true;
        }
        self.make(Move::Purify(j, colour));
        false
    }

    /// Commits the use of item `j` whose node is `q` as far as to a Cover of the item, and says whether that is still
    /// to be made: so one copy of its walk serves all uses.
    fn enter_node(&mut self, q: u32, j: u32) -> bool
        requires node { (o : ℕ) × ((u : Use) × (slice_get (layout self.old.puzzle) q ≡ Some (used o u)) × (u.item ≡ j)
            × CanStand self.old.puzzle self.old.room (after_use self.old.puzzle u self.old.trail)) }
        ensures still { dancing_of self.new ≡ record (dancing_of self.old) { trail = self.new.trail } }
        ensures covers { (o : ℕ) (u : Use) → slice_get (layout self.old.puzzle) q ≡ Some (used o u) → u.item ≡ j →
            after_use self.old.puzzle u self.old.trail
            ≡ (if result then Cover j ∷ self.new.trail else self.new.trail) }
        ensures written { HasWritten self.old self.new }
        ensures memory { self.new.capacity ≡ self.old.capacity }
    {
        if j <= self.fixed.primary() {
            self.spend_last(j)
        } else if self.is_open(j) {
            let colour = self.nodes.color(q);
            self.purify_coloured(j, colour)
        } else {
            false
        }
    }

    /// Commits the use of item `j` whose node is `q`.
    #[inline(always)]
    fn commit_node(&mut self, q: u32, j: u32)
        requires node { (o : ℕ) × ((u : Use) × (slice_get (layout self.old.puzzle) q ≡ Some (used o u)) × (u.item ≡ j)
            × CanStand self.old.puzzle self.old.room (after_use self.old.puzzle u self.old.trail)) }
        ensures committed { (o : ℕ) (u : Use) → slice_get (layout self.old.puzzle) q ≡ Some (used o u) → u.item ≡ j →
            dancing_of self.new ≡ record (dancing_of self.old) { trail = after_use self.old.puzzle u self.old.trail } }
        ensures written { HasWritten self.old self.new }
        ensures memory { self.new.capacity ≡ self.old.capacity }
    {
        if self.enter_node(q, j) {
            self.make(Move::Cover(j));
        }
    }

    /// Commits the uses of an option after that of item `i`, whose node is at `place`, and returns where the spacer
    /// after them is.
    #[inline(always)]
    pub(crate) fn commit_behind(&mut self, i: u32, place: u32) -> u32
        requires { (x : ℕ) × IsUseAt self.old.puzzle i x place
            × CanStand self.old.puzzle self.old.room
            (after_uses self.old.puzzle (uses_behind self.old.puzzle i x) self.old.trail) }
        ensures committed { (x : ℕ) → IsUseAt self.old.puzzle i x place →
            (dancing_of self.new ≡ record (dancing_of self.old)
            { trail = after_uses self.old.puzzle (uses_behind self.old.puzzle i x) self.old.trail })
            × (result ≡ spacer_place self.old.puzzle x) }
        ensures written { HasWritten self.old self.new }
        ensures memory { self.new.capacity ≡ self.old.capacity }
    {
        // A use of the tables brings their invariant into the proof, by which `place + 1` doesn't overflow.
        let _ = &self.nodes;
        let mut q = place + 1;
        while self.nodes.top(q) < SPACER {
            let j = self.nodes.top(q);
            self.commit_node(q, j);
            q += 1;
        }
        q
    }

    /// Commits the uses before it. ULINK of the spacer, which is at `end`, leads to the first one.
    #[inline(always)]
    pub(crate) fn commit_before(&mut self, i: u32, place: u32, end: u32)
        requires can { (x : ℕ) × IsUseAt self.old.puzzle i x place
            × CanStand self.old.puzzle self.old.room
            (after_uses self.old.puzzle (uses_before self.old.puzzle i x) self.old.trail) }
        requires end { (x : ℕ) → IsUseAt self.old.puzzle i x place → end ≡ spacer_place self.old.puzzle x }
        ensures committed { (x : ℕ) → IsUseAt self.old.puzzle i x place →
            dancing_of self.new ≡ record (dancing_of self.old)
            { trail = after_uses self.old.puzzle (uses_before self.old.puzzle i x) self.old.trail } }
        ensures written { HasWritten self.old self.new }
        ensures memory { self.new.capacity ≡ self.old.capacity }
    {
        let first = self.nodes.ulink(end);
        for q in first..place {
            let j = self.nodes.top(q);
            self.commit_node(q, j);
        }
    }
}
