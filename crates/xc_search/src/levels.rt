//! The levels of the search, and its loop.
//!
//! Walks, spans and the way to a span's first row have one loop, `run`, by three constant parameters. At each turn it
//! looks at what is below first. A search that is at a solution finds it again, as the first that it passes over, so
//! that no flag says whether what is left was searched. By `WAY` the large functions of the way are others than those
//! of the search, of which each then has one call and is inlined; a parameter at run time took 2 % of a span's
//! instructions. By `FEW` so are those of a loop that counts by words: a listing, whose loop has no such code, takes
//! 1.5 % fewer.
//!
//! Where the next choice is known to be the last, its solutions are counted and not made (`SEARCH.md`). That saves 11 %
//! of the instructions. Open items are counted only at the depth of the last choice of the solution found last. That
//! depth is a hint, so no invariant ties levels to open items.
//!
//! Where what is left is little, its solutions are counted by words (`few.rt`), with no move. That is tried only where
//! all that is left is known to come before a span's end, and where a level was begun, so that a walk that went on made
//! a move.
//!
//! `run` isn't marked inline, so that it is inlined after what it calls; a level is pushed with its first branch: 1 %
//! each. `unwind` ends levels by code of its own, so that the loop has the one call of `end_level`, which is inlined
//! there (8 %). The end of a tweaked level is in the loop too (3 % with bounds). Tried and not faster: levels or their
//! marks with numbers of 32 bits, solutions counted upward, and rare steps as calls that take the state by value.
ghost use Rattle.std.specs.Prelude.{◌≡◌, ◌+◌, ◌-◌, ◌<◌, ◌≤◌, ◌^◌, List, [], ◌∷◌, ◌++◌, length, map};
ghost use Rattle.std.specs.Prelude.{true, false, None, ℕ, Option, option_map, IfSome, IsNone, IsSome};
ghost use Rattle.xc_input.specs.Problem.{Puzzle};
ghost use Rattle.xc_moves.specs.Dancing.{moves_made};
ghost use Rattle.xc_search.specs.inner.Levels.{most_levels, AreStacked, IsNext, IsSearchable, IsStanding, IsEntered};
ghost use Rattle.xc_search.specs.inner.Levels.{begun_level, IsEarlyChoice, oldest, residual_of};
ghost use Rattle.xc_search.specs.inner.Ahead.{Pays, EntersBranch, IsDone, IsSolved, branched, KeepsPath, AreLater};
ghost use Rattle.xc_search.specs.inner.Ahead.{KeepsToItems};
ghost use Rattle.xc_search.specs.inner.Spanning.{Enters, Ends, Falls, IsRest, IsSeenBy, LeavesOut, RunsTo, row_at};
ghost use Rattle.xc_search.specs.Listing.{listing};
ghost use Rattle.xc_search.specs.Room.{room_for};
ghost use Rattle.xc_search.specs.Spans.{is_before, precedes};
ghost use Rattle.xc_search.specs.Residuals.{choice_after};

use crate::few::Few;
use crate::level::{Begun, Level, begin_level};
use crate::position::Position;
use crate::ran::{Ran, Stop};
use crate::rows::{Place, place_of};
use crate::stack::Stack;
use xc_moves::Dance;

/// A branch that was entered, and whose moves are still to be made: in the search's loop at one place, since a large
/// function is taken in only where there is one call of it. So a loop that goes the way to a row, `WAY`, has each of
/// these functions once more, and so has one that counts by words, `FEW`.
#[derive(Clone, Copy)]
pub struct Entered {
    pub item: u32,
    /// The place in the item's list of the option that it takes; `item`, where it takes none. An index, since the
    /// compiler would pack two numbers of 32 bits into one word and take them apart again.
    pub place: usize,
}

/// What is below the levels.
#[derive(Clone, Copy)]
pub enum Below {
    /// A branch of another level, which was entered.
    Branch(Entered),
    /// No branch: the item that was to be covered next has none.
    Nothing,
    /// No item is left, and the choices of the levels are a solution.
    Solution,
}

/// Begins a level at an item, the next one, since what is left wasn't searched yet, and enters the first of its
/// branches that isn't left out. A level without such a branch ends at once, and isn't noted. At the branch item it
/// goes on with the search's own path.
fn deepen<D: Dance, const WAY: bool, const FEW: bool>(
    position: &mut Position<D>,
    stack: &mut Stack,
    next: Option<(u32, usize)>,
    first: u32,
) -> Below
    requires standing { IsStanding position.old.puzzle position.old.trail stack.old.levels true }
    requires levels_fit { most_levels position.old.puzzle ≤ stack.old.room }
    requires next { IsNext position.old.puzzle position.old.trail next }
    requires few { IfSome next (λ c. c.1 < 2 ^ 32) }
    requires first { 0 < first }
    ensures same { result ≡ Below.Solution → (position.new ≡ position.old) × (stack.new ≡ stack.old) }
    ensures solved { result ≡ Below.Solution → choice_after position.old.puzzle position.old.trail ≡ None }
    ensures deeper { (b : Entered) → result ≡ Below.Branch b →
        IsEarlyChoice position.old.puzzle position.old.trail next → (until : Option (List ℕ)) →
        LeavesOut until position.old.puzzle stack.old.levels first → (m : ℕ) →
        Enters first until position.old stack.old m position.new stack.new m b.item b.place }
    ensures deeper_pays { (b : Entered) → result ≡ Below.Branch b → first ≡ 1 →
        IsEarlyChoice position.old.puzzle position.old.trail next → (m : ℕ) →
        Pays position.old stack.old true m (branched position.new b.item b.place) stack.new true m }
    ensures near { (b : Entered) → result ≡ Below.Branch b → b.place < 2 ^ 32 }
    ensures nothing { result ≡ Below.Nothing → (until : Option (List ℕ)) →
        LeavesOut until position.old.puzzle stack.old.levels first → (m : ℕ) →
        Falls first until position.old stack.old m position.new stack.new m }
    ensures nothing_pays { result ≡ Below.Nothing → first ≡ 1 → (m : ℕ) →
        Pays position.old stack.old true m position.new stack.new false m }
    ensures moved { result ≡ Below.Nothing → 0 < moves_made position.new }
{
    let Some((item, count)) = next else {
        return Below::Solution;
    };
    let count = count as u32;
    let mut level = position.descend(item, count);
    if count < first {
        position.undo_to(level.mark);
        return Below::Nothing;
    }
    let branch = position.enter(&level, 1);
    begin_level(&mut level, branch);
    // A branch that is left out is entered, and none of its moves is made.
    while level.begun < first {
        let branch = position.enter(&level, number_after(level.begun, count));
        begin_level(&mut level, branch);
    }
    stack.push(level);
    Below::Branch(Entered {
        item,
        place: level.place as usize,
    })
}

/// Ends a level, the newest one.
#[tactic(auto, using(crate::proofs::LoopSteps::ended_level, crate::proofs::LoopSteps::ends_tweaks))]
fn end_level<D: Dance, const WAY: bool, const FEW: bool>(position: &mut Position<D>, level: &Level)
    requires stacked { (p : Puzzle) × (ls : List Level) × AreStacked p position.old.trail (level.now ∷ ls) }
    ensures { position.new ≡ record position.old {
      trail = oldest level.now.mark position.old.trail;
      undone = position.old.undone + (length position.old.trail - level.now.mark);
    } }
{
    if level.tweaks > 0 {
        // Not set apart, though rare, as by a call that takes the state by value and returns it.
        position.undo_to(level.base);
        position.undo_tweaks(level.tweaks as usize);
    }
    position.undo_to(level.mark);
}

/// The number after `k`, which is below `many`.
#[inline(always)]
fn number_after(k: u32, many: u32) -> u32
    requires { k < many }
    ensures { result ≡ k + 1 }
{
    k + 1
}

/// Enters the next branch of a level, the newest one, which has another.
#[tactic(auto, using(crate::proofs::LoopSteps::back_at))]
fn enter_next<D: Dance, const WAY: bool, const FEW: bool>(
    position: &mut Position<D>,
    level: &Level,
) -> Begun
    requires stacked { (ls : List Level) × AreStacked position.old.puzzle position.old.trail (level.now ∷ ls) }
    requires more { level.now.begun < level.now.count }
    ensures still { position.new ≡ record position.old { trail = position.new.trail; undone = position.new.undone } }
    ensures undone { position.new.undone ≡ position.old.undone + (length position.old.trail - level.now.base) }
    ensures entered { IsEntered position.old.puzzle (oldest level.now.base position.old.trail) level.now
        position.new.trail (begun_level result level.now) }
{
    position.undo_to(level.base);
    position.enter(level, number_after(level.begun, level.count))
}

/// Enters the next branch of the newest level that has one, and ends the levels above it. None where no level has
/// another branch, and then all have ended. A level that has another is of the branch item, and so are those below it:
/// an early choice of another item has one branch at most.
#[inline(always)]
pub fn resume<D: Dance, const WAY: bool, const FEW: bool>(
    position: &mut Position<D>,
    stack: &mut Stack,
) -> Option<Entered>
    requires standing { IsStanding position.old.puzzle position.old.trail stack.old.levels false }
    ensures resumed { IfSome result (λ b.
        EntersBranch position.old stack.old false position.new stack.new b.item b.place) }
    ensures resumed_path { IfSome result (λ b.
        KeepsPath position.old stack.old (branched position.new b.item b.place) stack.new) }
    ensures resumed_items { IfSome result (λ b.
        KeepsToItems position.old stack.old (branched position.new b.item b.place) stack.new) }
    ensures resumed_row { IfSome result (λ _. AreLater stack.old stack.new) }
    ensures resumed_levels { IfSome result (λ _. length stack.new.levels ≤ length stack.old.levels) }
    ensures near { IfSome result (λ b. b.place < 2 ^ 32) }
    ensures resumed_pays { IfSome result (λ b. (m : ℕ) →
        Pays position.old stack.old false m (branched position.new b.item b.place) stack.new true m) }
    ensures done { IsNone result → IsDone position.old stack.old false position.new stack.new }
    ensures done_pays { IsNone result → (m : ℕ) →
        Pays position.old stack.old false m position.new stack.new false m }
{
    // A level that goes on and a level that ends are two paths.
    while let Some(level) = stack.top() {
        if level.begun < level.count {
            let item = level.item;
            let branch = enter_next::<D, WAY, FEW>(position, level);
            stack.note_branch(branch);
            return Some(Entered {
                item,
                place: branch.place as usize,
            });
        }
        end_level::<D, WAY, FEW>(position, level);
        stack.pop();
    }
    None
}

/// What a search goes on with.
#[derive(Clone, Copy)]
enum Next {
    /// A branch, which was entered.
    Branch(Entered),
    /// A solution, which the levels' choices are.
    Solution,
    /// Nothing: all levels have ended.
    Nothing,
}

/// Skips all that is left, with no move, where its solutions are known to be no more than are to be passed over.
#[inline(always)]
fn skip_rest<D: Dance>(position: &Position<D>, more: &mut u64) -> bool
    requires { IsSearchable position.now.puzzle position.now.trail }
    ensures skipped { result ≡ true →
        more.old ≡ more.new + length (listing (residual_of position.now.puzzle position.now.trail)) }
    ensures not_skipped { result ≡ false → more.new ≡ more.old }
{
    let Some(left) = position.last_choices() else {
        return false;
    };
    let left = u64::from(left);
    if left > *more {
        return false;
    }
    *more -= left;
    true
}

/// Counts all that is left by words, with no move, where it is little, and its solutions are no more than are to be
/// passed over: not where there are no levels, and not where what is left may reach the end, which `last` says.
#[inline(always)]
fn count_rest<D: Dance>(
    position: &Position<D>,
    few: &mut [Few],
    depth: usize,
    last: usize,
    more: &mut u64,
) -> bool
    requires { IsSearchable position.now.puzzle position.now.trail }
    ensures counted { result ≡ true →
        more.old ≡ more.new + length (listing (residual_of position.now.puzzle position.now.trail)) }
    ensures not_counted { result ≡ false → more.new ≡ more.old }
    ensures deep { result ≡ true → 0 < depth }
    ensures all { result ≡ true → last < 2 ^ 64 - 1 }
{
    // Where no more than one is to be passed over, the search is soon there.
    if *more <= 1 {
        return false;
    }
    let Some(few) = few.first_mut() else {
        return false;
    };
    // Mostly the hint says no, so that what comes after it takes no time of a turn.
    if !few.is_tried(depth) || depth == 0 || last == usize::MAX {
        return false;
    }
    let Some(found) = position.count_few(few, depth, *more) else {
        return false;
    };
    *more -= found;
    true
}

/// Goes below the levels: enters a branch of another level, the first that isn't left out, where what is left has any.
/// A solution is passed over where `more` are to be, and is one of them. `last` is how many levels there were where the
/// last choice led to a solution: where there are as many again, the solutions may be counted at once. It is the
/// greatest number where what is left may reach the end, and elsewhere all that is left comes before it.
#[inline(always)]
fn go_below<D: Dance, const WAY: bool, const FEW: bool>(
    position: &mut Position<D>,
    stack: &mut Stack,
    first: u32,
    more: &mut u64,
    last: &mut usize,
    few: &mut [Few],
) -> Below
    requires standing { IsStanding position.old.puzzle position.old.trail stack.old.levels true }
    requires levels_fit { most_levels position.old.puzzle ≤ stack.old.room }
    requires first { 0 < first }
    ensures entered { (b : Entered) → result ≡ Below.Branch b → (until : Option (List ℕ)) →
        IsRest until position.old.puzzle stack.old.levels last.old first → Enters first until
        position.old stack.old more.old position.new stack.new more.new b.item b.place }
    ensures near { (b : Entered) → result ≡ Below.Branch b → b.place < 2 ^ 32 }
    ensures same { result ≡ Below.Solution →
        (position.new ≡ position.old) × (stack.new ≡ stack.old) × (more.old ≡ 0) × (more.new ≡ 0) }
    ensures solved { result ≡ Below.Solution → IsSolved position.old.puzzle position.old.trail stack.old.levels }
    ensures back { result ≡ Below.Nothing → (until : Option (List ℕ)) →
        IsRest until position.old.puzzle stack.old.levels last.old first → Falls first until
        position.old stack.old more.old position.new stack.new more.new }
    ensures entered_pays { (b : Entered) → result ≡ Below.Branch b → first ≡ 1 →
        Pays position.old stack.old true more.old (branched position.new b.item b.place) stack.new true more.new }
    ensures back_pays { result ≡ Below.Nothing → first ≡ 1 →
        Pays position.old stack.old true more.old position.new stack.new false more.new }
    ensures moved { result ≡ Below.Nothing → (stack.old.levels ≡ [] → 0 < last.old) →
        0 < moves_made position.new }
{
    let depth = stack.levels().len();
    if depth == *last && skip_rest(position, more) {
        return Below::Nothing;
    }
    if FEW && count_rest(position, few, depth, *last, more) {
        return Below::Nothing;
    }
    let next = position.choose_early();
    match deepen::<D, WAY, FEW>(position, stack, next, first) {
        Below::Branch(entered) => Below::Branch(entered),
        Below::Nothing => Below::Nothing,
        Below::Solution => {
            *last = stack.levels().len().saturating_sub(1);
            if *more == 0 {
                return Below::Solution;
            }
            *more -= 1;
            Below::Nothing
        }
    }
}

/// Enters the next branch: one below the levels, or else the next of a level.
#[inline(always)]
fn enter_branch<D: Dance, const WAY: bool, const FEW: bool>(
    position: &mut Position<D>,
    stack: &mut Stack,
    first: u32,
    more: &mut u64,
    last: &mut usize,
    few: &mut [Few],
) -> Next
    requires standing { IsStanding position.old.puzzle position.old.trail stack.old.levels true }
    requires levels_fit { most_levels position.old.puzzle ≤ stack.old.room }
    requires first { 0 < first }
    ensures entered { (b : Entered) → result ≡ Next.Branch b → (until : Option (List ℕ)) →
        IsRest until position.old.puzzle stack.old.levels last.old first → Enters first until
        position.old stack.old more.old position.new stack.new more.new b.item b.place }
    ensures near { (b : Entered) → result ≡ Next.Branch b → b.place < 2 ^ 32 }
    ensures same { result ≡ Next.Solution →
        (position.new ≡ position.old) × (stack.new ≡ stack.old) × (more.old ≡ 0) × (more.new ≡ 0) }
    ensures solved { result ≡ Next.Solution → IsSolved position.old.puzzle position.old.trail stack.old.levels }
    ensures done { result ≡ Next.Nothing → (until : Option (List ℕ)) →
        IsRest until position.old.puzzle stack.old.levels last.old first → Ends first until
        position.old stack.old more.old position.new stack.new more.new }
    ensures done_made { result ≡ Next.Nothing → (stack.new.begun ≡ stack.old.begun)
        × (moves_made position.new ≤ position.old.undone + room_for position.old.puzzle) }
    ensures entered_pays { (b : Entered) → result ≡ Next.Branch b → first ≡ 1 →
        Pays position.old stack.old true more.old (branched position.new b.item b.place) stack.new true more.new }
    ensures done_pays { result ≡ Next.Nothing → first ≡ 1 →
        Pays position.old stack.old true more.old position.new stack.new false more.new }
    ensures moved { result ≡ Next.Nothing → (stack.old.levels ≡ [] → 0 < last.old) →
        0 < moves_made position.new }
{
    match go_below::<D, WAY, FEW>(position, stack, first, more, last, few) {
        Below::Branch(entered) => return Next::Branch(entered),
        Below::Solution => return Next::Solution,
        Below::Nothing => {}
    }
    match resume::<D, WAY, FEW>(position, stack) {
        Some(entered) => Next::Branch(entered),
        None => Next::Nothing,
    }
}

/// What a run is to do: to pass over so many members that come before `until`, and to stop at the next, unless that
/// takes more than so many branches to begin. A run without bounds has no end and all the steps that it takes.
#[derive(Clone, Copy)]
pub struct Task<'u> {
    pub until: Option<&'u [u32]>,
    /// The branch that it enters first where it begins a level: those before it are left out.
    pub first: u32,
    pub over: u64,
    pub steps: u64,
}

/// The same task. Off the way to a row it leaves no branch out.
// So the loop knows that before it takes in what it calls, and not only once a search takes in the loop: 0.6 % of the
// instructions.
#[inline(always)]
fn fixed<'u, const WAY: bool>(task: Task<'u>) -> Task<'u>
    requires { WAY ≡ false → task.first ≡ 1 }
    ensures { result ≡ task.entry }
{
    if WAY {
        return task;
    }
    Task {
        until: task.until,
        first: 1,
        over: task.over,
        steps: task.steps,
    }
}

/// How many levels there were where the last choice led to a solution, before there was one: more than there ever are.
/// The greatest number for a run with an end, of whose row nothing is known yet, and on the way to a row.
#[inline(always)]
fn no_last<'u, const WAY: bool>(until: Option<&'u [u32]>) -> usize
    ensures some { 0 < result }
    ensures end { IsSome until.entry → 2 ^ 64 - 1 ≤ result }
    ensures way { WAY ≡ true → 2 ^ 64 - 1 ≤ result }
{
    if WAY || until.is_some() {
        usize::MAX
    } else {
        usize::MAX - 1
    }
}

/// Does what a task says. A search that is at a solution finds that one again, as the first.
// One loop for all searches, which at each turn first looks at what is below, so that no flag says whether that was
// searched.
// No wish to be inlined: its one call for each search is, and then after what it calls was taken in.
pub fn run<'u, D: Dance, const BOUND: bool, const WAY: bool, const FEW: bool>(
    position: &mut Position<D>,
    stack: &mut Stack,
    task: Task<'u>,
    few: &mut [Few],
) -> Ran
    requires standing { IsStanding position.old.puzzle position.old.trail stack.old.levels true }
    requires levels_fit { most_levels position.old.puzzle ≤ stack.old.room }
    requires first { 0 < task.first }
    requires before { is_before (option_map (λ u. u.now) task.until) (row_at position.old.puzzle stack.old.levels)
        ≡ true }
    requires all { IsSome task.until → task.first ≡ 1 }
    requires free { BOUND ≡ false → task.until ≡ None }
    requires fixed { WAY ≡ false → task.first ≡ 1 }
    requires way { WAY ≡ true → BOUND ≡ true }
    ensures ran { (u : Option (List ℕ)) → IsSeenBy WAY u (option_map (λ u. u.now) task.entry.until) task.entry.first
        task.entry.steps position.old.puzzle stack.old.levels →
        RunsTo BOUND task.entry.first u (option_map (λ u. u.now) task.entry.until)
        position.old stack.old task.entry.over task.entry.steps
        result.stop position.new stack.new result.more result.steps }
    ensures stands_pays { result.stop ≡ Stop.Member → task.entry.first ≡ 1 →
        Pays position.old stack.old true task.entry.over position.new stack.new true result.more }
    ensures ended_pays { result.stop ≡ Stop.Nothing → task.entry.first ≡ 1 →
        Pays position.old stack.old true task.entry.over position.new stack.new false result.more }
    ensures moved { result.stop ≡ Stop.Nothing → 0 < moves_made position.new }
{
    let task = fixed::<WAY>(task);
    let (until, first) = (task.until, task.first);
    let (mut more, mut steps) = (task.over, task.steps);
    let mut last = no_last::<WAY>(until);
    if BOUND && steps == 0 {
        return halted(Stop::Steps, more, steps);
    }
    loop {
        match enter_branch::<D, WAY, FEW>(position, stack, first, &mut more, &mut last, few) {
            Next::Branch(at) => position.commit_branch::<WAY, FEW>(at.item, at.place as u32),
            Next::Solution => return halted(Stop::Member, more, steps),
            Next::Nothing => return halted(Stop::Nothing, more, steps),
        }
        if BOUND {
            // Two tests. One for both took five instructions more a branch in the proved programs.
            steps -= 1;
            if let Some(until) = until {
                match place_apart(stack.levels(), until) {
                    Place::Before => last = last.min(usize::MAX - 1),
                    // What is left below may reach the row, so it isn't counted at once.
                    Place::Begins => last = usize::MAX,
                    Place::Reached => return halted(Stop::Row, more, steps),
                }
            }
            if steps == 0 {
                return halted(Stop::Steps, more, steps);
            }
        }
    }
}

/// How the row of the levels compares to another row.
// Apart and cold, so that what it needs takes no registers from the search's loop, where most runs have no such row.
#[cold]
#[inline(never)]
fn place_apart(levels: &[Level], until: &[u32]) -> Place
    ensures before { result ≡ Place.Before →
        (x : List ℕ) → precedes (map (λ l. l.begun) levels.now ++ x) until.now ≡ true }
    ensures begins { result ≡ Place.Begins → precedes (map (λ l. l.begun) levels.now) until.now ≡ true }
    ensures reached { result ≡ Place.Reached → precedes (map (λ l. l.begun) levels.now) until.now ≡ false }
{
    place_of(levels, until)
}

/// What a run came to.
// A call for its coldness alone: else the compiler takes the end of a run for as likely as a step of its loop.
#[cold]
#[inline(never)]
fn halted(stop: Stop, more: u64, steps: u64) -> Ran
    ensures { result ≡ record { stop = stop; more = more; steps = steps } }
{
    Ran { stop, more, steps }
}

/// Ends every level, the newest first, and undoes the moves that are left.
// A level ends as in `end_level`: written out here, so that the search's loop has the one call of that and takes it in.
#[inline(never)]
pub fn unwind<D: Dance>(position: &mut Position<D>, stack: &mut Stack)
    requires stacked { AreStacked position.old.puzzle position.old.trail stack.old.levels }
    ensures position { position.new ≡ record position.old { trail = []; undone = moves_made position.old } }
    ensures stack { stack.new ≡ record stack.old { levels = [] } }
{
    while let Some(level) = stack.top() {
        if level.tweaks > 0 {
            position.undo_to(level.base);
            position.undo_tweaks(level.tweaks as usize);
        }
        position.undo_to(level.mark);
        stack.pop();
    }
    position.undo_rest();
}
