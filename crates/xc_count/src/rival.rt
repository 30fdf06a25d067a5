//! A search that counts beside a sweep, turn by turn.
//!
//! How far the search has come tells about how much work it is: each branch of a level counts as much as another, as
//! in the progress reports of Knuth's programs. On sixteen problems of the benchmark that is, after a tenth of the
//! work, from a sixth of it to four times as much. While the sweep did little of this, it keeps pace with the search,
//! so that it takes twice as long as alone where it ends first; from there on it adds hardly a state between two turns.
ghost use Rattle.std.specs.Prelude.{◌≡◌, ◌<◌, ◌≤◌, ◌-◌, ◌^◌, length, option_map, true, false, IfOk, IfSome, Some};
ghost use Rattle.xc_input.specs.Problem.{numbered_get};
ghost use Rattle.xc_search.specs.Cover.{members};
ghost use Rattle.xc_count.specs.inner.Searching.{HadTurn};

use crate::beside::Beside;
use crate::members::all_members;
use crate::metered::{Metered, SAMPLE};
use crate::passing::nth_left;
use natural::Natural;
use std::alloc::Global;
use std::cell::Cell;
use std::marker::Model;
use xc_input::Problem;
use xc_search::{Choice, Halt, Span};
use xc_text::Memory;

// Work is told in about nanoseconds.

/// The work of the sweep before the search has its first turn.
pub const FIRST_WORK: u64 = 10_000_000;
/// So much work is at least between two looks at whether the search has a turn.
const CHECK_WORK: u64 = 10_000;
/// The work of a turn of the search, about.
const TURN_WORK: u64 = 4_000_000;
/// And more for each item and option. At its end a turn looks at the open items, and progress at each level.
const LOOK_WORK: u64 = 50;
/// The sweep keeps pace with the search until it did one of so many parts of what the search is expected to be.
const PARTS: u64 = 12;
/// The progress of a search that has gone over all branches.
const WHOLE: u64 = 1 << 60;
/// By how much progress is rounded to tell the search's work.
const GRAIN: u64 = 1 << 40;
/// The branches of the first turn.
const FIRST_BRANCHES: u64 = 64;
/// The work of a branch beside that of going over options, and how much more it is for each primary item from so many
/// on, since it looks through the open ones.
const BRANCH_WORK: u64 = 60;

const ITEM_WORK: u64 = 1;

const FEW_ITEMS: u32 = 1000;
/// The work of a use of an option that is gone over, where all uses are in the nearest cache and where not.
const NEAR_WORK: u64 = 2;

const FAR_WORK: u64 = 3;
/// How many uses that cache holds, about.
const NEAR_USES: usize = 2000;

/// A search that counts the covers of a problem beside a sweep. Where little repeats it ends first.
#[derive(Drop)]
pub struct Rival<'a> {
    span: Span<'a, Metered<'a>>,
    /// How many options its moves went over.
    gone_over: &'a Cell<u64>,
    /// The work of going over an option that was looked at.
    option_work: u64,
    /// The work of a branch beside that.
    branch_work: u64,
    /// How many covers it has passed, and passes at most.
    passed: u64,
    most: u64,
    /// The work of a turn, about.
    turn_work: u64,
    /// How many branches a turn begins.
    branches: u64,
    /// How much work the sweep does until the search has its next turn.
    left: u64,
    /// How much it does in all until then.
    swept: u64,
    /// How much work the sweep did since the last look, beside that of adding to the layer that isn't whole. It wraps.
    tried: u64,
    /// How much work its turns were.
    done: u64,
}

impl<'a> Model for Rival<'a> {
    ghost use Rattle.std.specs.Prelude.{◌≡◌, ◌<◌, ◌≤◌, ◌+◌, drop, length, Some, IfSome};
    ghost use Rattle.xc_input.specs.Problem.{numbered_get};
    ghost use Rattle.xc_search.specs.Cover.{members};
    ghost use Rattle.xc_search.specs.InSpan.{left_of};
    ghost use Rattle.xc_search.specs.Listing.{whole};
    ghost use Rattle.xc_search.specs.Nodes.{IsRowOf};
    ghost use Rattle.xc_count.specs.inner.Searching.{Searching};

    ghost Value = { Searching };

    ghost view = { λ r. record {
      puzzle = r.span.puzzle;
      begun = r.span.begun;
      passed = r.passed;
      left = r.left;
    } };

    ghost invariant = { λ r. record {
      passed : r.passed + length (left_of r.span) ≡ length (members r.span.puzzle);
      left : left_of r.span ≡ drop r.passed (members r.span.puzzle);
      most : r.passed ≤ r.most;
      shown : r.passed ≡ r.most → 0 < r.most → numbered_get (members r.span.puzzle) r.most ≡ Some r.span.shown;
      node : IfSome r.span.row (λ row. IsRowOf (whole r.span.puzzle) row);
      branches : 0 < r.branches;
    } };
}

/// The work of going over as many options as one stands for that was looked at, each with as many uses as the problem's
/// options have on average.
fn option_work(problem: &Problem) -> u64 {
    let use_work = if problem.uses() <= NEAR_USES {
        NEAR_WORK
    } else {
        FAR_WORK
    };
    let uses = problem.uses() as u64;
    (SAMPLE * use_work).saturating_mul(uses) / u64::from(problem.options()).max(1)
}

/// The work of a branch of a search of this problem, beside that of going over options.
fn branch_work(problem: &Problem) -> u64 {
    BRANCH_WORK + ITEM_WORK * u64::from(problem.primary().saturating_sub(FEW_ITEMS))
}

/// The work of a turn of a search of this problem.
fn turn_work(problem: &Problem) -> u64 {
    let looks = u64::from(problem.items()) + u64::from(problem.options());
    TURN_WORK + LOOK_WORK * looks
}

/// How many branches the next turn begins, after one of so many that was so much work, where a turn is to be about so
/// much.
fn next_branches(branches: u64, work: u64, turn_work: u64) -> u64
    requires { 0 < branches }
    ensures { 0 < result }
{
    if work > turn_work {
        (branches / 2).max(1)
    } else if work < turn_work / 4 {
        branches.saturating_mul(2)
    } else {
        branches
    }
}

impl<'a> Rival<'a> {
    /// A search of all covers that has passed none yet. All its memory is taken here. `gone_over` is for it alone.
    pub fn new(
        alloc: Global,
        problem: &'a Problem,
        gone_over: &'a Cell<u64>,
    ) -> Result<Rival<'a>, Memory>
        ensures { IfOk result (λ r. r.puzzle ≡ problem.now.puzzle) }
    {
        Rival::up_to(alloc, problem, gone_over, u64::MAX)
    }

    /// The same, which ends at the cover of a number.
    pub fn up_to(
        alloc: Global,
        problem: &'a Problem,
        gone_over: &'a Cell<u64>,
        most: u64,
    ) -> Result<Rival<'a>, Memory>
        ensures { IfOk result (λ r. r.puzzle ≡ problem.now.puzzle) }
    {
        Ok(Rival {
            span: all_members(alloc, problem, gone_over)?,
            gone_over,
            option_work: option_work(problem),
            branch_work: branch_work(problem),
            passed: 0,
            most,
            turn_work: turn_work(problem),
            branches: FIRST_BRANCHES,
            left: FIRST_WORK,
            swept: FIRST_WORK,
            tried: 0,
            done: 0,
        })
    }

    /// Has no turn any more.
    pub fn pause(&mut self)
        ensures { self.new ≡ record self.old { left = 2 ^ 64 - 1 } }
    {
        self.left = u64::MAX;
    }

    /// Has a turn, and returns how much work that was, and whether it has ended: no cover is left, or it has passed as
    /// many as it was to.
    fn turn(&mut self) -> (u64, bool)
        ensures puzzle { self.new.puzzle ≡ self.old.puzzle }
        ensures had { result.1 ≡ false → HadTurn self.old self.new }
    {
        if self.passed == self.most {
            return (1, true);
        }
        let before = self.gone_over.get();
        let went = self.span.go_on(self.most - self.passed, self.branches);
        self.passed += went.members;
        let options = self.gone_over.get().wrapping_sub(before);
        let work = went
            .steps
            .saturating_mul(self.branch_work)
            .saturating_add(options.saturating_mul(self.option_work));
        self.branches = next_branches(self.branches, work, self.turn_work);
        self.done = self.done.saturating_add(work);
        (work, went.halt != Halt::Steps)
    }

    /// How much of the search is done, of `WHOLE`, where each branch of a level is as much as another.
    fn progress(&self) -> u64 {
        let mut passed: u64 = 0;
        let mut branch = WHOLE;
        let mut place = 0;
        while let Some(number) = self.span.number_at(place) {
            // Most levels of a deep search have one branch, and a division takes longer than all else here.
            if number.n > 1 {
                branch /= u64::from(number.n);
                let before = u64::from(number.k).saturating_sub(1);
                passed = passed.saturating_add(branch.saturating_mul(before));
            }
            place += 1;
        }
        passed
    }

    /// How much work the search is in all, by its progress.
    fn expected(&self) -> u64 {
        match self.progress() / GRAIN {
            0 => u64::MAX,
            passed => self.done.saturating_mul(WHOLE / GRAIN) / passed,
        }
    }

    /// How much work the sweep has after a turn of so much.
    fn share(&self, turn: u64) -> u64 {
        if self.swept < self.expected() / PARTS {
            turn
        } else {
            0
        }
    }

    /// Has turns of so much work in all. Returns whether it has ended.
    pub fn ahead(&mut self, work: u64) -> bool
        ensures puzzle { self.new.puzzle ≡ self.old.puzzle }
    {
        let mut left = work;
        while left > 0 {
            let (done, has_ended) = self.turn();
            if has_ended {
                return true;
            }
            left = left.saturating_sub(done.max(1));
        }
        false
    }

    /// Notes work of the sweep, and has a turn if one is due. Returns whether it has ended.
    pub fn after(&mut self, work: u64) -> bool
        ensures puzzle { self.new.puzzle ≡ self.old.puzzle }
        ensures due { self.old.left ≤ work → result ≡ false → HadTurn self.old self.new }
        ensures early { work < self.old.left → self.new ≡ record self.old { left = self.old.left - work } }
    {
        if work < self.left {
            self.left -= work;
            return false;
        }
        let (done, has_ended) = self.turn();
        self.left = self.share(done);
        self.swept = self.swept.saturating_add(self.left);
        has_ended
    }

    /// Has a turn if one is due after the layers that are whole. Returns whether it has ended.
    pub fn after_layers(&mut self) -> bool
        ensures { self.new.puzzle ≡ self.old.puzzle }
    {
        let work = self.tried;
        self.tried = 0;
        self.after(work)
    }

    /// Goes on alone to the cover of a number, from 1, and returns it; none where there are fewer. Nothing if it has
    /// passed that cover.
    pub fn find(
        self,
        alloc: Global,
        number: &Natural,
    ) -> Result<Option<Option<Vec<Choice>>>, Memory>
        ensures { IfOk result (λ known. IfSome known (λ found. option_map (λ c. c.items) found
            ≡ numbered_get (members self.entry.puzzle) number.now)) }
    {
        let Rival {
            mut span,
            gone_over: _,
            option_work: _,
            branch_work: _,
            passed,
            most,
            turn_work: _,
            branches: _,
            left: _,
            swept: _,
            tried: _,
            done: _,
        } = self;
        let before = Natural::from_u64(alloc, passed);
        if *number > before {
            let mut rest = number.clone()?;
            rest.sub_assign(&before);
            return Ok(Some(nth_left(alloc, &mut span, &mut rest)?));
        }
        if *number == before && passed == most && most > 0 {
            return Ok(Some(Some(span.choices().to_vec(alloc)?)));
        }
        Ok(None)
    }

    /// Goes on alone to the end, and returns how many covers there are.
    pub fn finish(self, alloc: Global) -> Result<Natural, Memory>
        ensures { IfOk result (λ n. n ≡ length (members self.entry.puzzle)) }
    {
        let Rival {
            mut span,
            gone_over: _,
            option_work: _,
            branch_work: _,
            passed,
            most: _,
            turn_work: _,
            branches: _,
            left: _,
            swept: _,
            tried: _,
            done: _,
        } = self;
        let mut count = Natural::from_u64(alloc, passed);
        loop {
            let went = span.go_on(u64::MAX, u64::MAX);
            count.add_assign(&Natural::from_u64(alloc, went.members))?;
            match went.halt {
                Halt::End => return Ok(count),
                Halt::Member | Halt::Steps => {}
            }
        }
    }
}

impl<'a> Beside for Rival<'a> {
    ghost searched = { λ r. Some r.puzzle };

    #[inline(always)]
    fn ends_first(&mut self, tried: u64, added: u64) -> bool {
        self.tried = self.tried.wrapping_add(tried);
        let work = self.tried.wrapping_add(added);
        if work < CHECK_WORK {
            return false;
        }
        self.tried = self.tried.wrapping_sub(work);
        self.after(work)
    }

    fn note_layer(&mut self, added: u64) {
        self.tried = self.tried.wrapping_add(added);
    }
}
