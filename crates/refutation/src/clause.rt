//! What a clause comes to where some literals are true.
ghost use Rattle.std.specs.Prelude.{◌≡◌, ◌<◌, ◌⊎◌, false, length, Contains, IfOk, MatchOption};
ghost use Rattle.refutation.specs.Refutation.{negated as opposite};
ghost use Rattle.refutation.specs.inner.Steps.{AreFalseBeside, Leads, is_false};

use crate::trail::Trail;
use std::alloc::AllocError;

/// What a clause comes to where some literals are true.
pub(crate) enum Status {
    /// Two literals aren't false, this one and that which was given.
    Open(u32),
    /// The given literal is true.
    Settled,
    /// All literals are false.
    False,
}

/// Whether a literal isn't false, nor the given one.
#[inline(always)]
fn is_open_beside(trail: &Trail, literal: u32, other: u32) -> bool
    ensures { result ≡ false → (literal ≡ other) ⊎ Contains trail.now (opposite literal) }
{
    literal != other && !trail.is_false(literal)
}

/// The first literal of a clause that isn't false, nor the given one.
#[inline(always)]
#[tactic(auto, using(crate::proofs::ClauseLemmas::besides))]
fn open_beside(trail: &Trail, clause: &[u32], other: u32) -> Option<u32>
    ensures { MatchOption result (AreFalseBeside trail.now other clause.now) (λ _. Unit {0}) }
{
    for literal in clause {
        if is_open_beside(trail, *literal, other) {
            return Some(*literal);
        }
    }
    None
}

/// Looks for a literal that isn't false beside the given one, which becomes true if there is none.
#[inline(always)]
#[tactic(auto, using(crate::proofs::ClauseLemmas::leads_same))]
pub(crate) fn settle(trail: &mut Trail, clause: &[u32], other: u32) -> Result<Status, AllocError>
    requires { 0 < length clause.now }
    ensures { IfOk result (λ status. Leads clause.now trail.old (is_false status) trail.new) }
{
    if trail.is_true(other) {
        return Ok(Status::Settled);
    }
    match open_beside(trail, clause, other) {
        Some(literal) => Ok(Status::Open(literal)),
        None => {
            if trail.is_false(other) {
                return Ok(Status::False);
            }
            trail.push(other)?;
            Ok(Status::Settled)
        }
    }
}
