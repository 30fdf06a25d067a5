//! Keys of the sweep option by option: the mark of item `i` stands at place `i`. That of a primary item is how often it
//! is held, that of a secondary item 0 where it is free, and else one more than the colour for which it is held.
ghost use Rattle.std.specs.Prelude.{ℕ, ◌≡◌, ◌≢◌, ◌+◌, ◌<◌, ◌≤◌, ◌⊎◌, List, Some, All, IfOk, IfSome, IfNone, OnOk};
ghost use Rattle.std.specs.Prelude.{slice_index, true, false};
ghost use Rattle.xc_input.specs.Problem.{IsItem, IsPrimary, high_at};
ghost use Rattle.xc_input.specs.Limits.{most_uses};
ghost use Rattle.xc_count.specs.inner.ByOption.{AtMost, ComeToSame, IsLost, all_met, mark_after, marks_in, may_hold};
ghost use Rattle.xc_count.specs.inner.ByOption.{may_take, taking, ways_from};

use crate::errors::CountError;
use xc_input::{Problem, Use};

/// The mark of an item.
fn mark_at(key: &[u32], item: u32) -> u32
    ensures { result ≡ slice_index key.now item }
{
    match key.get(item as usize) {
        Some(mark) => *mark,
        None => 0,
    }
}

/// Sets the mark of an item, after zeros where the key ends before.
fn put_mark(key: &mut Vec<u32>, item: u32, mark: u32) -> Result<(), CountError>
    ensures here { OnOk result (marks_in key.new.items item ≡ mark) }
    ensures there { OnOk result ((i : ℕ) → i ≢ item → marks_in key.new.items i ≡ marks_in key.old.items i) }
{
    let place = item as usize;
    while key.len() <= place {
        key.push(0)?;
    }
    key[place] = mark;
    Ok(())
}

/// The mark of a primary item that is held once more, if it may be.
fn held_again(problem: &Problem, mark: u32, item: u32) -> Option<u32>
    requires { IsPrimary problem.now.puzzle item }
    ensures some { IfSome result (λ m. (mark < high_at problem.now.puzzle item) × (m ≡ mark + 1)) }
    ensures none { IfNone result (high_at problem.now.puzzle item ≤ mark) }
{
    if mark < problem.item(item).bounds().high {
        Some(mark + 1)
    } else {
        None
    }
}

/// The mark of a use's item once it is held by it, if it may be.
fn held_mark(problem: &Problem, key: &[u32], u: Use) -> Option<u32>
    requires { IsItem problem.now.puzzle u.item × (u.colour ≤ most_uses) }
    ensures some { IfSome result (λ m. (may_hold problem.now.puzzle (marks_in key.now) u ≡ true)
        × (m ≡ mark_after problem.now.puzzle (marks_in key.now u.item) u)) }
    ensures none { IfNone result (may_hold problem.now.puzzle (marks_in key.now) u ≡ false) }
{
    let mark = mark_at(key, u.item);
    if u.item <= problem.primary() {
        return held_again(problem, mark, u.item);
    }
    if mark == 0 || (u.colour > 0 && mark - 1 == u.colour) {
        Some(u.colour + 1)
    } else {
        None
    }
}

/// Makes of a key the one once these uses are taken, if they may be.
pub fn take_uses(
    problem: &Problem,
    key: &[u32],
    taken: &mut Vec<u32>,
    uses: &[Use],
) -> Result<bool, CountError>
    requires { All (λ u. IsItem problem.now.puzzle u.item × (u.colour ≤ most_uses)) uses.now }
    ensures taken { IfOk result (λ fits. fits ≡ true → (may_take problem.now.puzzle (marks_in key.now) uses.now ≡ true)
        × ((i : ℕ) → marks_in taken.new.items i ≡ taking problem.now.puzzle uses.now (marks_in key.now) i)) }
    ensures refused { IfOk result (λ fits. fits ≡ false
        → may_take problem.now.puzzle (marks_in key.now) uses.now ≡ false) }
{
    taken.clear();
    taken.extend_from_slice(key)?;
    let mut place = uses.len();
    while place > 0 {
        place -= 1;
        let u = uses[place];
        let Some(mark) = held_mark(problem, key, u) else {
            return Ok(false);
        };
        put_mark(taken, u.item, mark)?;
    }
    Ok(true)
}

/// The mark that says as much of a primary item which so many options still may hold. None if its bounds can't be met.
fn least_count(mark: u32, left: u32, low: u32, high: u32) -> Option<u32>
    ensures some { IfSome result (λ m. (m ≡ mark)
        ⊎ ((low ≤ m) × (m + left ≤ high) × (low ≤ mark) × (mark + left ≤ high))) }
    ensures none { IfNone result (mark + left < low) }
    ensures live { IfSome result (λ _. low ≤ mark + left) }
    ensures low { low ≤ mark → mark + left ≤ high → result ≡ Some low }
{
    if mark < low {
        return if left < low - mark { None } else { Some(mark) };
    }
    if mark <= high && left <= high - mark {
        Some(low)
    } else {
        Some(mark)
    }
}

/// The mark that says as much of an item which so many options still may hold. None if its bounds can't be met.
fn least_mark(problem: &Problem, mark: u32, left: u32, item: u32) -> Option<u32>
    requires { IsItem problem.now.puzzle item }
    ensures some { IfSome result (λ m. ComeToSame problem.now.puzzle item left m mark) }
    ensures none { IfNone result (IsLost problem.now.puzzle item left mark) }
{
    if item <= problem.primary() {
        let bounds = problem.item(item).bounds();
        return least_count(mark, left, bounds.low, bounds.high);
    }
    if left == 0 { Some(0) } else { Some(mark) }
}

/// Makes of a key the one that says as much of what is left, where the items of these uses may say less. Returns
/// whether all their bounds can still be met.
pub fn forget(
    problem: &Problem,
    left: &[u32],
    key: &mut Vec<u32>,
    uses: &[Use],
) -> Result<bool, CountError>
    requires { All (λ u. IsItem problem.now.puzzle u.item) uses.now }
    ensures kept { IfOk result (λ live. live ≡ true → (os : List ℕ) → AtMost problem.now.puzzle os left.now
        → ways_from problem.now.puzzle os key.new.items ≡ ways_from problem.now.puzzle os key.old.items) }
    ensures lost { IfOk result (λ live. live ≡ false → (os : List ℕ) → AtMost problem.now.puzzle os left.now
        → ways_from problem.now.puzzle os key.old.items ≡ 0) }
{
    for u in uses {
        let mark = mark_at(key.as_slice(), u.item);
        let Some(mark) = least_mark(problem, mark, mark_at(left, u.item), u.item) else {
            return Ok(false);
        };
        put_mark(key, u.item, mark)?;
    }
    Ok(true)
}

/// Whether each primary item is held as often as its lower bound says.
pub fn are_met(problem: &Problem, key: &[u32]) -> bool
    ensures { result ≡ all_met problem.now.puzzle (marks_in key.now) }
{
    for i in 0..problem.primary() {
        if mark_at(key, i + 1) < problem.item(i + 1).bounds().low {
            return false;
        }
    }
    true
}
