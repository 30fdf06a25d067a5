//! The kinds of clauses of a primary item: counting the options that hold it, along its list.
//!
//! Each is a clause of what is true of every cover, whatever the rows of the chain are. A row is the place of an
//! option in the list of its item.
ghost use Rattle.std.specs.Prelude.{ℕ, ◌≡◌, ◌+◌, ◌<◌, ◌≤◌, not, List, Some, nat_le, IfOk, if◌then◌else◌};
ghost use Rattle.xc_input.specs.Problem.{Puzzle, bounds_at};
ghost use Rattle.xc_input.specs.declared.problem.Bounds.{Bounds};
ghost use Rattle.xc_none.specs.Meanings.{is_chosen, held_up_to};
ghost use Rattle.xc_none.specs.inner.Claims.{is_claimed, OneHolds};
ghost use Rattle.xc_none.specs.inner.Holders.{IsHolder, AreOptionsOf, IsNextHolder};

use crate::claim::Claim;
use crate::errors::ClausesError;
use crate::meaning::Meaning;
use std::alloc::Global;

/// The chain of an item: its variables begin at a place, and each row has so many.
#[derive(Clone, Copy)]
pub struct Chain {
    pub item: u32,
    pub start: usize,
    pub columns: u32,
}

/// That an option is chosen, or that it isn't.
pub(crate) fn chosen(option: u32, so: bool) -> Claim
    ensures { (p : Puzzle) (s : List ℕ) → is_claimed p s result ≡ (if so then is_chosen s option else not
        (is_chosen s option)) }
{
    Claim {
        meaning: Meaning::Chosen(option),
        place: (option as usize).saturating_sub(1),
        so,
    }
}

/// That up to an option at least so many are chosen, or that they aren't.
fn at_least(chain: Chain, row: u32, option: u32, count: u32, so: bool) -> Claim
    ensures { (p : Puzzle) (s : List ℕ) → is_claimed p s result
        ≡ (if so then nat_le count (held_up_to p s chain.item option) else not (nat_le count
        (held_up_to p s chain.item option))) }
{
    let begin = (row as usize).saturating_mul(chain.columns as usize);
    let place = chain
        .start
        .saturating_add(begin)
        .saturating_add(count as usize)
        .saturating_sub(1);
    Claim {
        meaning: Meaning::AtLeast(chain.item, option, count),
        place,
        so,
    }
}

/// An option that is chosen is at least one.
pub(crate) fn first(chain: Chain, row: u32, option: u32) -> [Claim; 2]
    ensures { (p : Puzzle) → IsHolder p chain.item option → OneHolds p result }
{
    let x = chosen(option, false);
    let y = at_least(chain, row, option, 1, true);
    [x, y]
}

/// At least so many up to the option before are as many up to this one.
pub(crate) fn stay(chain: Chain, row: u32, before: u32, option: u32, count: u32) -> [Claim; 2]
    ensures { (p : Puzzle) → before ≤ option → OneHolds p result }
{
    let x = at_least(chain, row.saturating_sub(1), before, count, false);
    let y = at_least(chain, row, option, count, true);
    [x, y]
}

/// An option that is chosen is one more than those up to the option before.
pub(crate) fn up(chain: Chain, row: u32, before: u32, option: u32, count: u32) -> [Claim; 3]
    requires { count < 4294967295 }
    ensures { (p : Puzzle) → IsHolder p chain.item option → before < option → OneHolds p result }
{
    let x = chosen(option, false);
    let y = at_least(chain, row.saturating_sub(1), before, count, false);
    let z = at_least(chain, row, option, count + 1, true);
    [x, y, z]
}

/// No option is chosen behind as many as may be.
pub(crate) fn most(chain: Chain, row: u32, before: u32, option: u32, high: u32) -> [Claim; 2]
    ensures { (p : Puzzle) (b : Bounds) → IsHolder p chain.item option → before < option
        → bounds_at p chain.item ≡ Some b → b.high ≡ high → OneHolds p result }
{
    let x = chosen(option, false);
    let y = at_least(chain, row.saturating_sub(1), before, high, false);
    [x, y]
}

/// At least so many up to an option are as many up to the option before, or it is chosen.
pub(crate) fn down(chain: Chain, row: u32, before: u32, option: u32, count: u32) -> [Claim; 3]
    ensures { (p : Puzzle) → IsNextHolder p chain.item before option → OneHolds p result }
{
    let x = at_least(chain, row, option, count, false);
    let y = at_least(chain, row.saturating_sub(1), before, count, true);
    let z = chosen(option, true);
    [x, y, z]
}

/// One more than so many up to an option are so many up to the option before.
pub(crate) fn fewer(chain: Chain, row: u32, before: u32, option: u32, count: u32) -> [Claim; 2]
    requires { count < 4294967295 }
    ensures { (p : Puzzle) → IsNextHolder p chain.item before option → OneHolds p result }
{
    let x = at_least(chain, row, option, count + 1, false);
    let y = at_least(chain, row.saturating_sub(1), before, count, true);
    [x, y]
}

/// Where one up to the first option is chosen, that option is.
pub(crate) fn first_down(chain: Chain, option: u32) -> [Claim; 2]
    ensures { (p : Puzzle) → IsNextHolder p chain.item 0 option → OneHolds p result }
{
    let x = at_least(chain, 0, option, 1, false);
    let y = chosen(option, true);
    [x, y]
}

/// Up to the first option no more than one is chosen.
pub(crate) fn first_fewer(chain: Chain, option: u32, count: u32) -> [Claim; 1]
    requires { count < 4294967295 }
    ensures { (p : Puzzle) → IsNextHolder p chain.item 0 option → 1 ≤ count → OneHolds p result }
{
    let x = at_least(chain, 0, option, count + 1, false);
    [x]
}

/// Up to the last option at least as many are chosen as have to be.
pub(crate) fn least(chain: Chain, row: u32, option: u32, count: u32) -> [Claim; 1]
    ensures { (p : Puzzle) (b : Bounds) → ((x : ℕ) → IsHolder p chain.item x → x ≤ option)
        → bounds_at p chain.item ≡ Some b → count ≤ b.low → OneHolds p result }
{
    let x = at_least(chain, row, option, count, true);
    [x]
}

/// One of the options is chosen.
pub(crate) fn some(alloc: Global, options: &[u32]) -> Result<Vec<Claim>, ClausesError>
    ensures { IfOk result (λ v. (p : Puzzle) (i : ℕ) (b : Bounds) → AreOptionsOf p i options.now
        → bounds_at p i ≡ Some b → 1 ≤ b.low → OneHolds p v.items) }
{
    let mut claims = Vec::with_capacity(alloc, options.len())?;
    for option in options {
        claims.push(chosen(*option, true))?;
    }
    Ok(claims)
}
