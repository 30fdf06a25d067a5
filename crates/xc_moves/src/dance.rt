//! Moves on the lists of options, and their undoing.
//!
//! Cover, Purify and Tweak are Knuth's operations in Algorithms X, C and M; Spend is what his Algorithm M does to
//! BOUND.
//!
//! A search goes on by places (`node_below`, `option_of`, `commit`): a level keeps the place of its option's node, and
//! no option's number, which is needed only to show choices. That saves 4 % of the instructions. Places follow from the
//! problem alone, so these calls have bodies here, for a keeper without nodes.
ghost use Rattle.std.specs.Prelude.{◌≡◌, ◌+◌, ◌<◌, ◌↔◌, ◌⊎◌, ℕ, ◌∷◌, length, drop, reverse, IsTrue, IsOk, OnOk, OnErr};
ghost use Rattle.std.specs.Prelude.{Contains, All, ◌==◌};
ghost use Rattle.xc_moves.specs.Dancing.{Dancing};
ghost use Rattle.xc_input.specs.Problem.{IsItem, IsPrimary, high_at, uses_of};
ghost use Rattle.xc_moves.specs.Places.{link_place, first_above};
ghost use Rattle.xc_moves.specs.Commits.{CanStand, IsListedAt, IsUseAt, option_at, after_option, after_uses, after_use};
ghost use Rattle.xc_moves.specs.Commits.{first_primary};
ghost use Rattle.xc_moves.specs.Moves.{IsLegal, AreTweaks, listed, listed_numbers, next_above, open_items};
ghost use Rattle.xc_moves.specs.Moves.{IsOpenPrimary, spends};

use crate::places::{node_place, number_at};
use thiserror::Error;
use xc_input::{Problem, Use, place_in};

/// A move on the lists of options. Items are named by their numbers, from 1 on.
#[derive(Clone, Copy, Debug, PartialEq, Eq, Hash)]
pub enum Move {
    /// Every other open item loses the options of this item's list.
    Cover(u32),
    /// Every other open item loses those options of this secondary item's list that have for it another
    /// colour than this one, which is above 0, or none.
    Purify(u32, u32),
    /// The item loses its first option, and if it is open so does every other open item.
    Tweak(u32),
    /// What is left of this primary item's upper bound falls by 1.
    Spend(u32),
}

/// How many cells of its tables a call wrote. A keeper without cells, as `Lists`, answers 0.
#[derive(Clone, Copy, Debug, PartialEq, Eq)]
pub struct Count(pub u64);

/// The trail has no room for another move.
#[derive(Clone, Copy, Debug, PartialEq, Eq, Error)]
#[error("no room for another move")]
pub struct Full;

/// A keeper of the lists of options that each item has left, under moves that are undone in the
/// opposite order. Items and options are named by their numbers, from 1 on.
pub trait Dance {
    /// The problem it was built from, the moves on the trail, the room for moves, and how many moves were undone: one
    /// value, so that a clause says what changes of it and nothing of what stays.
    ghost state: { Self → Dancing };

    /// Whether the move is legal after those on the trail. False for a number of no item.
    fn can(&self, m: &Move) -> bool
        ensures { IsTrue result ↔ IsLegal (state self.now).puzzle (state self.now).trail m.now };

    /// Makes a legal move, and answers how many cells were written. Where the trail has no room for
    /// it nothing changes.
    fn apply(&mut self, m: Move) -> Result<Count, Full>
        requires { IsLegal (state self.old).puzzle (state self.old).trail m }
        ensures ok { OnOk result (state self.new ≡ record (state self.old) { trail = m ∷ (state self.old).trail }) }
        ensures full { OnErr result ((state self.new ≡ state self.old)
            × (length (state self.old).trail ≡ (state self.old).room)) }
        ensures room { IsOk result ↔ (length (state self.old).trail < (state self.old).room) };

    /// Undoes the newest move, and answers how many cells were written. There must be one.
    fn undo(&mut self) -> Count
        requires { 0 < length (state self.old).trail }
        ensures undone { state self.new ≡ record (state self.old)
            { trail = drop 1 (state self.old).trail; undone = (state self.old).undone + 1 } };

    /// Undoes the newest `k` moves, which must be tweaks of one item, and answers how many cells were
    /// written. `k` is at least 1.
    fn undo_tweaks(&mut self, k: usize) -> Count
        requires { AreTweaks k (state self.old).trail }
        ensures undone { state self.new ≡ record (state self.old)
            { trail = drop k (state self.old).trail; undone = (state self.old).undone + k } };

    /// The moves on the trail, the oldest first. In contracts the newest is first, since moves are put on and taken off
    /// there.
    fn moves(&self) -> &[Move]
        ensures { result.now ≡ reverse (state self.now).trail };

    /// How many moves the trail has room for.
    fn room(&self) -> usize
        ensures { result ≡ (state self.now).room };

    /// How many options the item's list has.
    fn len(&self, i: u32) -> u32
        requires { IsItem (state self.now).puzzle i }
        ensures { result ≡ length (listed (state self.now).puzzle (state self.now).trail i) };

    /// The first option of the item's list, if it has one.
    fn first(&self, i: u32) -> Option<u32>
        requires { IsItem (state self.now).puzzle i }
        ensures { result ≡ next_above 0 (listed_numbers (state self.now).puzzle (state self.now).trail i) };

    /// The option after `o` in the item's list, if there is one. `o` must be in the list.
    fn below(&self, i: u32, o: u32) -> Option<u32>
        requires item { IsItem (state self.now).puzzle i }
        requires listed { Contains (listed_numbers (state self.now).puzzle (state self.now).trail i) o }
        ensures { result ≡ next_above o (listed_numbers (state self.now).puzzle (state self.now).trail i) };

    /// The next open primary item above `i`, if there is one. `i` is 0 or an open primary item.
    fn open_after(&self, i: u32) -> Option<u32>
        requires { (i ≡ 0) ⊎ IsOpenPrimary (state self.now).puzzle (state self.now).trail i }
        ensures { result ≡ next_above i (open_items (state self.now).puzzle (state self.now).trail) };

    /// What is left of the primary item's upper bound.
    fn bound(&self, i: u32) -> u32
        requires { IsPrimary (state self.now).puzzle i }
        ensures { result + spends i (state self.now).trail ≡ high_at (state self.now).puzzle i };

    /// Whether a search may count the solutions of what is left by this keeper's answers alone, without a move. No for
    /// a keeper that counts moves, or that is to make each. It has no clause: a search is right with either answer.
    fn counts_unmoved(&self) -> bool {
        false
    }

    /// Notes that such a count visited so many nodes: for a keeper that measures work, which here is none of its moves.
    /// It has no clause, and does nothing unless a keeper does.
    fn note_unmoved(&self, _nodes: u64) {}

    /// Makes a legal move for which there is room, as `apply` does.
    fn make(&mut self, m: Move) -> Count
        requires legal { IsLegal (state self.old).puzzle (state self.old).trail m }
        requires room { length (state self.old).trail < (state self.old).room }
        ensures { state self.new ≡ record (state self.old) { trail = m ∷ (state self.old).trail } }
    {
        self.apply(m).unwrap()
    }

    /// The place of the node below the one at `place` in the item's list: of the next option, or the item's own, `i`,
    /// after the last one. `place` is that of an option in the list, or `i`, below which the first one is. A place
    /// is where the linked tables of the problem have the node (`docs/LINKS.md`).
    fn node_below(&self, problem: &Problem, i: u32, place: u32) -> u32
        requires same { (state self.now).puzzle ≡ problem.now.puzzle }
        requires item { IsItem (state self.now).puzzle i }
        requires place { (x : ℕ) × IsListedAt (state self.now).puzzle (state self.now).trail i x place }
        ensures place { (x : ℕ) → IsListedAt (state self.now).puzzle (state self.now).trail i x place →
            result ≡ link_place (state self.now).puzzle i
            (first_above 0 x (listed_numbers (state self.now).puzzle (state self.now).trail i)) }
        ensures option { (x : ℕ) → IsListedAt (state self.now).puzzle (state self.now).trail i x place →
            option_at (state self.now).puzzle i result
            ≡ next_above x (listed_numbers (state self.now).puzzle (state self.now).trail i) }
    {
        // At the own node of an item, or at an option's.
        let next = if place <= problem.items() {
            self.first(i)
        } else {
            self.below(i, number_at(problem, place))
        };
        match next {
            Some(o) => node_place(problem, i, o),
            None => i,
        }
    }

    /// The option whose use of the item is at `place`.
    fn option_of(&self, problem: &Problem, i: u32, place: u32) -> u32
        requires same { (state self.now).puzzle ≡ problem.now.puzzle }
        requires item { IsItem (state self.now).puzzle i }
        requires place { (x : ℕ) × IsUseAt (state self.now).puzzle i x place }
        ensures { (x : ℕ) → IsUseAt (state self.now).puzzle i x place → result ≡ x }
    {
        number_at(problem, place)
    }

    /// Whether the option whose use of the primary item is at `place` holds no primary item before that use.
    fn is_first_at(&self, problem: &Problem, i: u32, place: u32) -> bool
        requires same { (state self.now).puzzle ≡ problem.now.puzzle }
        requires item { IsPrimary (state self.now).puzzle i }
        requires place { (x : ℕ) × IsUseAt (state self.now).puzzle i x place }
        ensures { (x : ℕ) → IsUseAt (state self.now).puzzle i x place →
            result ≡ (first_primary (state self.now).puzzle (uses_of (state self.now).puzzle x) == i) }
    {
        for u in problem.option(number_at(problem, place)) {
            if u.item <= problem.primary() {
                return u.item == i;
            }
        }
        false
    }

    /// Commits the option whose use of the item is at `place`: for each of its other uses, in turn from that one
    /// on, a primary item is spent, and covered where nothing is left of its bound, a secondary one covered, or
    /// purified where the use has a colour and the item wasn't purified yet.
    fn commit(&mut self, problem: &Problem, i: u32, place: u32)
        requires same { (state self.old).puzzle ≡ problem.now.puzzle }
        requires item { IsItem (state self.old).puzzle i }
        requires can { (x : ℕ) × IsUseAt (state self.old).puzzle i x place
            × CanStand (state self.old).puzzle (state self.old).room
            (after_option (state self.old).puzzle i x (state self.old).trail) }
        ensures { (x : ℕ) → IsUseAt (state self.old).puzzle i x place →
            state self.new ≡ record (state self.old)
            { trail = after_option (state self.old).puzzle i x (state self.old).trail } }
    {
        let uses = problem.option(number_at(problem, place));
        let at = place_in(uses, i);
        self.commit_uses(problem, &uses[at + 1..]);
        self.commit_uses(problem, &uses[..at]);
    }

    /// Commits uses of an option in turn.
    fn commit_uses(&mut self, problem: &Problem, uses: &[Use])
        requires same { (state self.old).puzzle ≡ problem.now.puzzle }
        requires items { All (λ (u : Use). IsItem (state self.old).puzzle u.item) uses.now }
        requires stands { CanStand (state self.old).puzzle (state self.old).room
            (after_uses (state self.old).puzzle uses.now (state self.old).trail) }
        ensures { state self.new ≡ record (state self.old)
            { trail = after_uses (state self.old).puzzle uses.now (state self.old).trail } }
    {
        for u in uses {
            self.commit_use(problem, *u);
        }
    }

    /// Commits a use of an option.
    fn commit_use(&mut self, problem: &Problem, u: Use)
        requires same { (state self.old).puzzle ≡ problem.now.puzzle }
        requires item { IsItem (state self.old).puzzle u.item }
        requires stands { CanStand (state self.old).puzzle (state self.old).room
            (after_use (state self.old).puzzle u (state self.old).trail) }
        ensures { state self.new ≡ record (state self.old)
            { trail = after_use (state self.old).puzzle u (state self.old).trail } }
    {
        if u.item <= problem.primary() {
            self.apply(Move::Spend(u.item)).unwrap();
            if self.bound(u.item) == 0 {
                self.apply(Move::Cover(u.item)).unwrap();
            }
        } else if u.colour == 0 {
            self.apply(Move::Cover(u.item)).unwrap();
        } else {
            let purify = Move::Purify(u.item, u.colour);
            if self.can(&purify) {
                self.apply(purify).unwrap();
            }
        }
    }
}
