//! Whether options are a cover, item by item and two options at a time.
ghost use Rattle.std.specs.Prelude.{◌≡◌, ◌≢◌, ◌+◌, ◌<◌, ◌↔◌, ℕ, true, All, AllPairs, IsTrue, is_some};
ghost use Rattle.std.specs.List.{list_all};
ghost use Rattle.xc_input.specs.Problem.{IsOption, IsPrimary, IsValid, colour_in, primary_count, uses_of};
ghost use Rattle.xc_input.specs.Cover.{IsCover, times_held};
ghost use Rattle.xc_check.specs.inner.Classes.{is_use_met, are_uses_met, do_agree, is_held_within};

use xc_input::{Problem, Use};

/// Whether options with these numbers are a cover of the problem: each is one of the problem's, none
/// occurs twice, each primary item is held as often as its bounds say, and two options that hold the
/// same secondary item agree on its colour. It takes no memory, and reads the uses of the options
/// once for each primary item and once for each option. So it answers yes or no and nothing else; `check`, which
/// counts, judges many large sets faster.
pub fn is_cover(problem: &Problem, options: &[u32]) -> bool
    ensures { IsTrue result ↔ IsCover problem.now.puzzle options.now }
{
    if !are_options(problem, options) || !are_different(options) {
        return false;
    }
    are_held_within(problem, options) && all_agree(problem, options)
}

/// Whether the problem has these options.
fn are_options(problem: &Problem, options: &[u32]) -> bool
    ensures value { IsTrue result ↔ All (IsOption problem.now.puzzle) options.now }
    ensures valid { IsValid problem.now.puzzle }
{
    let many = problem.options();
    options.iter().all(|o| 1 <= *o && *o <= many)
}

/// Whether no number occurs twice.
fn are_different(options: &[u32]) -> bool
    ensures { IsTrue result ↔ AllPairs (λ a b. a ≢ b) options.now }
{
    let mut rest = options;
    while let Some((first, others)) = rest.split_first() {
        if others.contains(first) {
            return false;
        }
        rest = others;
    }
    true
}

/// The colour of an item in uses, 0 for none, if they hold it.
fn colour_in(uses: &[Use], item: u32) -> Option<u32>
    ensures { result ≡ colour_in uses.now item }
{
    for u in uses {
        if u.item == item {
            return Some(u.colour);
        }
    }
    None
}

/// Whether an option holds an item.
fn holds(problem: &Problem, option: u32, item: u32) -> bool
    requires { IsOption problem.now.puzzle option }
    ensures { result ≡ is_some (colour_in (uses_of problem.now.puzzle option) item) }
{
    colour_in(problem.option(option), item).is_some()
}

/// How many of these options hold an item.
fn times_held(problem: &Problem, item: u32, options: &[u32]) -> usize
    requires { All (IsOption problem.now.puzzle) options.now }
    ensures { result ≡ times_held problem.now.puzzle item options.now }
{
    options.iter().filter(|o| holds(problem, **o, item)).count()
}

/// Whether options hold a primary item as often as its bounds say.
fn is_held_within(problem: &Problem, item: u32, options: &[u32]) -> bool
    requires item { IsPrimary problem.now.puzzle item }
    requires options { All (IsOption problem.now.puzzle) options.now }
    ensures { result ≡ is_held_within problem.now.puzzle options.now item }
{
    let times = times_held(problem, item, options);
    let bounds = problem.item(item).bounds();
    bounds.low as usize <= times && times <= bounds.high as usize
}

/// Whether options hold each primary item as often as its bounds say.
fn are_held_within(problem: &Problem, options: &[u32]) -> bool
    requires { All (IsOption problem.now.puzzle) options.now }
    ensures { IsTrue result ↔ ((k : ℕ) → k < primary_count problem.now.puzzle
        → is_held_within problem.now.puzzle options.now (k + 1) ≡ true) }
{
    for i in 0..problem.primary() {
        if !is_held_within(problem, i + 1, options) {
            return false;
        }
    }
    true
}

/// Whether a use's item is primary, or isn't held by these uses of another option, or has the same
/// colour there.
fn is_use_met(primary: u32, others: &[Use], u: Use) -> bool
    ensures { result ≡ is_use_met primary others.now u }
{
    u.item <= primary
        || match colour_in(others, u.item) {
            Some(colour) => colour == u.colour && colour > 0,
            None => true,
        }
}

/// Whether each of these uses is met by those of another option.
fn are_uses_met(primary: u32, others: &[Use], uses: &[Use]) -> bool
    ensures { result ≡ are_uses_met primary others.now uses.now }
{
    uses.iter().all(|u| is_use_met(primary, others, *u))
}

/// Whether two options are one, or agree on the secondary items that both hold.
fn do_agree(problem: &Problem, a: u32, b: u32) -> bool
    requires first { IsOption problem.now.puzzle a }
    requires second { IsOption problem.now.puzzle b }
    ensures { result ≡ do_agree problem.now.puzzle a b }
{
    a == b || are_uses_met(problem.primary(), problem.option(b), problem.option(a))
}

/// Whether an option agrees with each of these.
fn agrees_with_all(problem: &Problem, option: u32, options: &[u32]) -> bool
    requires option { IsOption problem.now.puzzle option }
    requires options { All (IsOption problem.now.puzzle) options.now }
    ensures { result ≡ list_all (do_agree problem.now.puzzle option) options.now }
{
    options.iter().all(|o| do_agree(problem, option, *o))
}

/// Whether each two of these options agree.
fn all_agree(problem: &Problem, options: &[u32]) -> bool
    requires { All (IsOption problem.now.puzzle) options.now }
    ensures { result ≡ list_all (λ a. list_all (do_agree problem.now.puzzle a) options.now) options.now }
{
    options
        .iter()
        .all(|o| agrees_with_all(problem, *o, options))
}
