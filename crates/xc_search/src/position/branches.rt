//! The branches of a level: beginning the level, entering each, and its choice.
ghost use Rattle.std.specs.Prelude.{ℕ, ◌≡◌, ◌+◌, ◌-◌, ◌<◌, length, Some, ◌&&◌, ◌==◌, if◌then◌else◌};
ghost use Rattle.xc_input.specs.Problem.{IsItem, IsPrimary, high_at, low_at};
ghost use Rattle.xc_moves.specs.Places.{link_place, first_above};
ghost use Rattle.xc_moves.specs.Commits.{IsListedAt, IsUseAt, option_at, after_spend};
ghost use Rattle.xc_search.specs.inner.Levels.{oldest, tweaked, IsNode, MayBegin, IsEntered, CanBranch, after_branch};
ghost use Rattle.xc_search.specs.inner.Levels.{first_level, next_number, begun_level, IsPlace, IsShown, chosen};
ghost use Rattle.xc_moves.specs.Moves.{listed_numbers, next_above, spends};
ghost use Rattle.xc_search.specs.Marks.{marked, IsMark};

use crate::choice::Choice;
use crate::level::{Begun, Level};
use crate::marks::Mark;
use crate::position::Position;
use xc_moves::{Dance, Move};

impl<'a, D: Dance> Position<'a, D> {
    /// Begins a level at an item.
    #[inline(always)]
    pub fn descend(&mut self, item: u32, count: u32) -> Level
        requires { IsNode self.old.puzzle self.old.trail item }
        ensures trail { self.new ≡ record self.old { trail = after_spend self.old.puzzle item self.old.trail } }
        ensures level { result ≡ first_level self.old.puzzle self.old.trail item count }
    {
        let mark = self.height();
        self.spend_item(item);
        let base = self.height();
        let walks = self.is_walked(item);
        Level {
            mark,
            base,
            item,
            place: item,
            begun: 0,
            count,
            tweaks: 0,
            walks,
        }
    }

    /// Nothing is left of the bound of the item, which was spent, and its bounds are equal.
    #[inline(always)]
    fn is_walked(&self, item: u32) -> bool
        requires item { IsPrimary self.now.puzzle item }
        requires spent { 0 < spends item self.now.trail }
        ensures { result ≡ ((high_at self.now.puzzle item - spends item self.now.trail) == 0
            && low_at self.now.puzzle item == high_at self.now.puzzle item) }
    {
        if self.is_once() {
            return true;
        }
        let bounds = self.problem().item(item);
        self.dance().bound(item) == 0 && bounds.low == bounds.high
    }

    /// The place of the node below the one at a place of the item's list.
    #[inline(always)]
    fn node_below(&self, i: u32, place: u32) -> u32
        requires item { IsItem self.now.puzzle i }
        requires place { (x : ℕ) × IsListedAt self.now.puzzle self.now.trail i x place }
        ensures place { (x : ℕ) → IsListedAt self.now.puzzle self.now.trail i x place →
            result ≡ link_place self.now.puzzle i (first_above 0 x (listed_numbers self.now.puzzle self.now.trail i)) }
        ensures option { (x : ℕ) → IsListedAt self.now.puzzle self.now.trail i x place →
            option_at self.now.puzzle i result ≡ next_above x (listed_numbers self.now.puzzle self.now.trail i) }
    {
        self.dance.node_below(self.problem, i, place)
    }

    /// The place in the item's list of the option that the next branch of a level takes; the level's item, where it
    /// takes none.
    #[inline(always)]
    fn next_place(&self, level: &Level) -> u32
        requires ready { MayBegin self.now.puzzle self.now.trail level.now }
        ensures option { option_at self.now.puzzle level.now.item result ≡ next_number self.now.puzzle self.now.trail
            level.now }
        ensures place { IsPlace self.now.puzzle level.now.item result }
    {
        let above = if level.walks { level.place } else { level.item };
        self.node_below(level.item, above)
    }

    /// Tweaks the item of a level, unless its list is walked, and returns the number of its tweaks.
    #[inline(always)]
    fn tweak(&mut self, level: &Level) -> u32
        requires ready { MayBegin self.old.puzzle self.old.trail level.now }
        requires option { (o : ℕ) × (next_number self.old.puzzle self.old.trail level.now ≡ Some o) }
        ensures tweaks { result ≡ (if level.now.walks then level.now.tweaks else level.now.tweaks + 1) }
        ensures trail { self.new ≡ record self.old {
          trail = tweaked result level.now.item
              (after_spend self.old.puzzle level.now.item (oldest level.now.mark self.old.trail));
        } }
    {
        if level.walks {
            return level.tweaks;
        }
        self.make(Move::Tweak(level.item));
        level.tweaks + 1
    }

    /// Enters a branch that takes the option at a place.
    #[inline(always)]
    fn enter_option(&mut self, level: &Level, place: u32, begun: u32) -> Begun
        requires ready { MayBegin self.old.puzzle self.old.trail level.now }
        requires number { begun ≡ level.now.begun + 1 }
        requires option { option_at self.old.puzzle level.now.item place ≡ next_number self.old.puzzle self.old.trail
            level.now }
        requires place { IsPlace self.old.puzzle level.now.item place }
        requires some { (o : ℕ) × (next_number self.old.puzzle self.old.trail level.now ≡ Some o) }
        ensures still { self.new ≡ record self.old { trail = self.new.trail } }
        ensures base { result.base ≡ length self.new.trail }
        ensures entered { IsEntered self.old.puzzle self.old.trail level.now self.new.trail
            (begun_level result level.now) }
    {
        let tweaks = self.tweak(level);
        let base = self.height();
        Begun {
            base,
            place,
            begun,
            tweaks,
        }
    }

    /// Enters the next branch of a level: what of it is known before the moves of the branch, which
    /// `commit_branch` makes, so that the level is noted first and nothing is kept over their walks.
    /// `begun` is its number among the branches, from 1 on.
    #[inline(always)]
    pub fn enter(&mut self, level: &Level, begun: u32) -> Begun
        requires ready { MayBegin self.old.puzzle self.old.trail level.now }
        requires number { begun ≡ level.now.begun + 1 }
        ensures still { self.new ≡ record self.old { trail = self.new.trail } }
        ensures base { result.base ≡ length self.new.trail }
        ensures entered { IsEntered self.old.puzzle self.old.trail level.now self.new.trail
            (begun_level result level.now) }
    {
        let place = self.next_place(level);
        if place == level.item {
            return Begun {
                base: level.base,
                place,
                begun,
                tweaks: level.tweaks,
            };
        }
        self.enter_option(level, place, begun)
    }

    /// Makes the moves of a branch at an item: commits the other uses of its option, or covers the item where it takes
    /// none. `WAY`: on the way to a row, where speed matters less. `FEW`: in the loop that counts by words, since it is
    /// too large to be taken in where two loops call it.
    #[inline(always)]
    pub fn commit_branch<const WAY: bool, const FEW: bool>(&mut self, item: u32, place: u32)
        requires can { CanBranch self.old.puzzle item (option_at self.old.puzzle item place) self.old.trail }
        requires place { IsPlace self.old.puzzle item place }
        ensures { self.new ≡ record self.old
            { trail = after_branch self.old.puzzle item (option_at self.old.puzzle item place) self.old.trail } }
    {
        if place == item {
            self.cover_if_open(item);
        } else if WAY {
            self.commit_uses(item, place);
        } else {
            self.commit(item, place);
        }
    }

    /// The option whose use of the item is at a place.
    #[inline(always)]
    fn option_of(&self, i: u32, place: u32) -> u32
        requires item { IsItem self.now.puzzle i }
        requires place { (x : ℕ) × IsUseAt self.now.puzzle i x place }
        ensures { (x : ℕ) → IsUseAt self.now.puzzle i x place → result ≡ x }
    {
        self.dance.option_of(self.problem, i, place)
    }

    /// The choice of the newest branch of a level.
    #[inline(always)]
    pub fn newest_choice(&self, level: &Level) -> Choice
        requires { IsShown self.now.puzzle level.now }
        ensures { result ≡ chosen self.now.puzzle level.now }
    {
        self.choice_at(Mark::of(level))
    }

    /// The choice of a mark.
    #[inline(always)]
    pub fn choice_at(&self, mark: Mark) -> Choice
        requires { IsMark self.now.puzzle mark }
        ensures { result ≡ marked self.now.puzzle mark }
    {
        let option = if mark.place == mark.item {
            None
        } else {
            Some(self.option_of(mark.item, mark.place))
        };
        Choice {
            item: mark.item,
            option,
            k: mark.k,
            n: mark.n,
        }
    }
}
