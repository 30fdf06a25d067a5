//! What options cost.
ghost use Rattle.std.specs.Prelude.{◌≡◌, ◌≤ℤ◌, true, IfSome};
ghost use Rattle.xc_least.specs.Least.{cost_at, total_cost};
ghost use Rattle.xc_least.specs.inner.Regions.{newest, taken_of};

use crate::steps::Step;

/// What an option costs.
pub fn cost_at(costs: &[i64], option: u32) -> i64
    ensures { result ≡ cost_at costs.now option }
{
    if option == 0 {
        return 0;
    }
    match costs.get(option as usize - 1) {
        Some(cost) => *cost,
        None => 0,
    }
}

/// What options cost together, if that is within 64 bits.
pub fn cost_of(costs: &[i64], options: &[u32]) -> Option<i64>
    ensures { IfSome result (λ c. c ≡ total_cost costs.now options.now) }
{
    let mut sum: i64 = 0;
    for option in options {
        sum = sum.checked_add(cost_at(costs, *option))?;
    }
    Some(sum)
}

/// What the options that were taken cost together, if that is within 64 bits.
fn cost_of_taken(costs: &[i64], steps: &[Step]) -> Option<i64>
    ensures { IfSome result (λ c. c ≡ total_cost costs.now (taken_of (newest steps.now))) }
{
    let mut sum: i64 = 0;
    for step in steps {
        if step.taken {
            sum = sum.checked_add(cost_at(costs, step.option))?;
        }
    }
    Some(sum)
}

/// Whether the options that were taken cost at least this much.
pub fn is_dear(costs: &[i64], steps: &[Step], limit: i64) -> bool
    ensures { result ≡ true → limit ≤ℤ total_cost costs.now (taken_of (newest steps.now)) }
{
    match cost_of_taken(costs, steps) {
        Some(cost) => limit <= cost,
        None => false,
    }
}
