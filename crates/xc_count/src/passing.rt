//! The solution of a number by a search that passes those before it.

ghost use Rattle.std.specs.Prelude.{◌≡◌, ◌<◌, Some, None, true, false, IfOk, IfSome, option_map};
ghost use Rattle.xc_input.specs.Problem.{numbered_get};
ghost use Rattle.xc_search.specs.Cover.{members};
ghost use Rattle.xc_search.specs.InSpan.{left_of};
ghost use Rattle.xc_search.specs.Listing.{whole};
ghost use Rattle.xc_search.specs.Nodes.{IsRowOf};

use crate::members::{all_members, pass};
use crate::metered::Metered;
use natural::Natural;
use std::alloc::Global;
use std::cell::Cell;
use xc_input::Problem;
use xc_search::{Choice, Span};
use xc_text::Memory;

/// How many solutions are passed at once.
const MANY: u64 = 1_000_000;

/// Passes solutions as long as the number is above `MANY`, and makes it the number among those that are left. Whether
/// there were as many.
fn pass_many<'a>(alloc: Global, span: &mut Span<'a, Metered<'a>>, number: &mut Natural) -> bool
    requires node { IfSome span.old.row (λ row. IsRowOf (whole span.old.puzzle) row) }
    ensures node { IfSome span.new.row (λ row. IsRowOf (whole span.new.puzzle) row) }
    ensures some { result ≡ true
        → numbered_get (left_of span.old) number.old ≡ numbered_get (left_of span.new) number.new }
    ensures none { result ≡ false → numbered_get (left_of span.old) number.old ≡ None }
    ensures above { 0 < number.old → 0 < number.new }
{
    let many = Natural::from_u64(alloc, MANY);
    while *number > many {
        if pass(span, MANY) < MANY {
            return false;
        }
        number.sub_assign(&many);
    }
    true
}

/// Goes on to the solution of a number. Whether there is one.
fn pass_to<'a>(alloc: Global, span: &mut Span<'a, Metered<'a>>, number: &mut Natural) -> bool
    requires node { IfSome span.old.row (λ row. IsRowOf (whole span.old.puzzle) row) }
    requires above { 0 < number.old }
    ensures some { result ≡ true → numbered_get (left_of span.old) number.old ≡ Some span.new.shown }
    ensures none { result ≡ false → numbered_get (left_of span.old) number.old ≡ None }
{
    let one = Natural::from_u64(alloc, 1);
    while !number.is_zero() {
        if pass(span, 1) == 0 {
            return false;
        }
        number.sub_assign(&one);
    }
    true
}

/// The solution of a number, from 1, among those that are left.
pub fn nth_left<'a>(
    alloc: Global,
    span: &mut Span<'a, Metered<'a>>,
    number: &mut Natural,
) -> Result<Option<Vec<Choice>>, Memory>
    requires node { IfSome span.old.row (λ row. IsRowOf (whole span.old.puzzle) row) }
    requires above { 0 < number.old }
    ensures { IfOk result (λ found. option_map (λ c. c.items) found
        ≡ numbered_get (left_of span.old) number.old) }
{
    if !pass_many(alloc, span, number) || !pass_to(alloc, span, number) {
        return Ok(None);
    }
    Ok(Some(span.choices().to_vec(alloc)?))
}

/// The solution of a number, from 1, by a search.
pub fn nth_by_search(
    alloc: Global,
    problem: &Problem,
    number: &Natural,
) -> Result<Option<Vec<Choice>>, Memory>
    ensures { IfOk result (λ found. option_map (λ c. c.items) found
        ≡ numbered_get (members problem.now.puzzle) number.now) }
{
    if number.is_zero() {
        return Ok(None);
    }
    let gone_over = Cell::new(0);
    let mut span = all_members(alloc, problem, &gone_over)?;
    let mut rest = number.clone()?;
    nth_left(alloc, &mut span, &mut rest)
}
