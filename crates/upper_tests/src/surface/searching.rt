//! The calls and types of `xc_search`, each by its signature.
ghost use Rattle.std.specs.Prelude.{◌≡◌, ◌≤◌, []};
ghost use Rattle.xc_moves.specs.Moves.{IsOpenPrimary};
ghost use Rattle.xc_search.specs.Room.{room_for};

use std::alloc::Global;
use xc_dance::{Dance, Memory};
use xc_input::Problem;
use xc_search::{Choice, Search, Step, branches, choose};

fn branches_of<D: Dance>(dance: &D, problem: &Problem, i: u32) -> u32
    requires same { (D.state dance.now).puzzle ≡ problem.now.puzzle }
    requires open { IsOpenPrimary problem.now.puzzle (D.state dance.now).trail i }
{
    branches(dance, problem, i)
}

fn branch_item<D: Dance>(dance: &D, problem: &Problem) -> Option<(u32, u32)>
    requires { (D.state dance.now).puzzle ≡ problem.now.puzzle }
{
    choose(dance, problem)
}

fn parts_of_choice(choice: Choice) -> (u32, Option<u32>, u32, u32) {
    let Choice { item, option, k, n } = choice;
    (item, option, k, n)
}

fn new_search<'a, D: Dance>(
    alloc: Global,
    dance: D,
    problem: &'a Problem,
) -> Result<Search<'a, D>, (D, Memory)>
    requires same { (D.state dance).puzzle ≡ problem.now.puzzle }
    requires none { (D.state dance).trail ≡ [] }
    requires room { room_for problem.now.puzzle ≤ (D.state dance).room }
{
    Search::new(alloc, dance, problem)
}

fn next<'a, D: Dance>(search: &mut Search<'a, D>) -> Step {
    search.next()
}

fn choices<'b, 'a, D: Dance>(search: &'b Search<'a, D>) -> &'b [Choice] {
    search.choices()
}

fn close<'a, D: Dance>(search: Search<'a, D>) -> D {
    search.close()
}

fn is_solution(step: Step) -> bool {
    match step {
        Step::Solution => true,
        Step::Done => false,
    }
}
