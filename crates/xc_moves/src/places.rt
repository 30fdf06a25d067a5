//! Where the nodes of options are, by the problem alone, for a keeper that has no nodes.
//!
//! Places are sums over the options before. A first form looked for the node that passes a test; each fact about it
//! needed a proof that no other node passes, 440 lines in all. Sum and search differ for an item that the option
//! doesn't use, and for a spacer after the last option; no contract depends on either.
ghost use Rattle.std.specs.Prelude.{ℕ, ◌≡◌, ◌<◌, ◌-◌, length};
ghost use Rattle.xc_input.specs.Problem.{IsOption, uses_of};
ghost use Rattle.xc_moves.specs.Places.{link_place};
ghost use Rattle.xc_moves.specs.Commits.{IsUseAt};
ghost use Rattle.xc_input.specs.UsePlaces.{place_in};
ghost use Rattle.xc_moves.specs.inner.Uses.{start_at};

use xc_input::{Problem, place_in};

/// The place of the node by which option `o` uses item `i`.
pub(crate) fn node_place(problem: &Problem, i: u32, o: u32) -> u32
    requires known { IsOption problem.now.puzzle o }
    requires holds { place_in i (uses_of problem.now.puzzle o) < length (uses_of problem.now.puzzle o) }
    ensures { result ≡ link_place problem.now.puzzle i o }
{
    first_place(problem, o) + place_in(problem.option(o), i) as u32
}

/// The place of the first node of option `o`: after the items' own nodes, a spacer, and the nodes of each option
/// before it, with the spacer after them.
#[tactic(auto, using(crate::proofs::PlaceLemmas::option_place))]
fn first_place(problem: &Problem, o: u32) -> u32
    requires { IsOption problem.now.puzzle o }
    ensures { result ≡ start_at problem.now.puzzle (o - 1) }
{
    let mut place = problem.items() + 2;
    for before in 0..o - 1 {
        place += problem.option(before + 1).len() as u32 + 1;
    }
    place
}

/// The option whose node is at this place: the first one with the spacer after it further on.
#[tactic(auto, using(crate::proofs::PlaceLemmas::option_place))]
pub(crate) fn number_at(problem: &Problem, place: u32) -> u32
    requires { (i x : ℕ) × IsUseAt problem.now.puzzle i x place }
    ensures { (i x : ℕ) → IsUseAt problem.now.puzzle i x place → result ≡ x }
{
    let mut spacer = problem.items() + 1;
    for before in 0..problem.options() {
        spacer += problem.option(before + 1).len() as u32 + 1;
        if place < spacer {
            return before + 1;
        }
    }
    unreachable!()
}
