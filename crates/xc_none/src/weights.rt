//! Whether weights of items show that a problem has no cover.
//!
//! Each item has a weight. A cover has of the weights above zero what its items have to be held at least, and loses by
//! those below zero what its items may be held at most: so if the first is more, its options have the difference, each
//! once, and no set of options has more than all that have more than zero. Uses with a colour lose nothing, since an
//! item may be held so any number of times.
ghost use Rattle.std.specs.Prelude.{◌≡◌, ◌≤◌, ℕ, List, true, sum_by, IfSome};
ghost use Rattle.xc_input.specs.Cover.{IsCover};
ghost use Rattle.xc_input.specs.Named.{IsSound};
ghost use Rattle.xc_input.specs.Problem.{IsItem, item_count, option_count};
ghost use Rattle.xc_none.specs.inner.Weights.{allows, asks, excess, gain_of, gains, limits_of, loss_of, losses, upto};
ghost use Rattle.xc_none.specs.inner.Weights.{weight_of};

use xc_input::{Bounds, Problem, Use};

/// The weight of an item, 0 where there is none.
fn weight_at(weights: &[i64], item: u32) -> i64
    ensures { result ≡ weight_of weights.now item }
{
    let place = item.saturating_sub(1) as usize;
    match weights.get(place) {
        Some(weight) => *weight,
        None => 0,
    }
}

/// What an option gains by an item that it holds.
fn gain_of(weights: &[i64], item: u32) -> u64
    ensures { result ≡ gain_of weights.now item }
{
    let weight = weight_at(weights, item);
    if weight > 0 { weight.unsigned_abs() } else { 0 }
}

/// What an option loses by an item that it holds without a colour.
fn loss_of(weights: &[i64], item: u32) -> u64
    ensures { result ≡ loss_of weights.now item }
{
    let weight = weight_at(weights, item);
    if weight < 0 { weight.unsigned_abs() } else { 0 }
}

/// What an option gains by its uses.
fn gains(weights: &[i64], uses: &[Use]) -> Option<u64>
    ensures { IfSome result (λ sum. sum ≡ gains weights.now uses.now) }
{
    let mut sum: u64 = 0;
    for u in uses {
        sum = sum.checked_add(gain_of(weights, u.item))?;
    }
    Some(sum)
}

/// What an option loses by its uses.
fn losses(weights: &[i64], uses: &[Use]) -> Option<u64>
    ensures { IfSome result (λ sum. sum ≡ losses weights.now uses.now) }
{
    let mut sum: u64 = 0;
    for u in uses {
        let loss = if u.colour == 0 {
            loss_of(weights, u.item)
        } else {
            0
        };
        sum = sum.checked_add(loss)?;
    }
    Some(sum)
}

/// What all options have beyond 0.
#[tactic(auto, using(crate::proofs::WeightsLemmas::next))]
fn beyond(problem: &Problem, weights: &[i64]) -> Option<u64>
    ensures { IfSome result (λ sum. sum
        ≡ sum_by (excess weights.now problem.now.puzzle) (upto (option_count problem.now.puzzle))) }
{
    let mut sum: u64 = 0;
    for o in 0..problem.options() {
        let uses = problem.option(o + 1);
        let excess = gains(weights, uses)?.saturating_sub(losses(weights, uses)?);
        sum = sum.checked_add(excess)?;
    }
    Some(sum)
}

/// How often an item may be held without a colour.
fn limits(problem: &Problem, item: u32) -> Bounds
    requires { IsItem problem.now.puzzle item }
    ensures { result ≡ limits_of problem.now.puzzle item }
{
    problem.item(item).bounds()
}

/// What covers gain at least.
#[tactic(auto, using(crate::proofs::WeightsLemmas::next))]
fn asked(problem: &Problem, weights: &[i64]) -> Option<u64>
    ensures sum { IfSome result (λ sum. sum
        ≡ sum_by (asks weights.now problem.now.puzzle) (upto (item_count problem.now.puzzle))) }
    ensures whole { IsSound problem.now }
{
    let mut sum: u64 = 0;
    for i in 0..problem.items() {
        let low = u64::from(limits(problem, i + 1).low);
        sum = sum.checked_add(gain_of(weights, i + 1).checked_mul(low)?)?;
    }
    Some(sum)
}

/// What covers lose at most.
#[tactic(auto, using(crate::proofs::WeightsLemmas::next))]
fn allowed(problem: &Problem, weights: &[i64]) -> Option<u64>
    ensures { IfSome result (λ sum. sum
        ≡ sum_by (allows weights.now problem.now.puzzle) (upto (item_count problem.now.puzzle))) }
{
    let mut sum: u64 = 0;
    for i in 0..problem.items() {
        let high = u64::from(limits(problem, i + 1).high);
        sum = sum.checked_add(loss_of(weights, i + 1).checked_mul(high)?)?;
    }
    Some(sum)
}

/// Whether these weights, one for each item in order, show that the problem has no cover. No says nothing, and so do
/// sums that don't fit. The time is that of going once through the problem's uses.
pub fn is_refuted(problem: &Problem, weights: &[i64]) -> bool
    ensures { result ≡ true → (s : List ℕ) → IsCover problem.now.puzzle s → ⊥ }
{
    let Some(least) = asked(problem, weights) else {
        return false;
    };
    let Some(most) = allowed(problem, weights) else {
        return false;
    };
    let Some(beyond) = beyond(problem, weights) else {
        return false;
    };
    most < least && beyond < least - most
}
