//! Keepers with the room that a search needs.
ghost use Rattle.std.specs.Prelude.{◌≡◌, [], IfOk};
ghost use Rattle.xc_moves.specs.Dancing.{search_room};
ghost use Rattle.xc_dance.specs.Linked.{dancing_of};

use crate::{Links, Lists};
use std::alloc::Global;
use xc_input::Problem;
use xc_moves::most_moves;
use xc_text::Memory;

impl Links {
    /// The tables before any move, with the room that each search of the problem needs: `most_moves`. Else as `new`.
    pub fn for_search(alloc: Global, problem: &Problem) -> Result<Links, Memory>
        ensures { IfOk result (λ l. dancing_of l ≡ record {
          puzzle = problem.now.puzzle;
          trail = [];
          room = search_room problem.now.puzzle;
          undone = 0;
        }) }
    {
        Links::new(alloc, problem, most_moves(problem))
    }
}

impl Lists {
    /// The lists before any move, with the room that each search of the problem needs: `most_moves`. Else as `new`.
    pub fn for_search(alloc: Global, problem: &Problem) -> Result<Lists, Memory>
        ensures { IfOk result (λ d. d ≡ record {
          puzzle = problem.now.puzzle;
          trail = [];
          room = search_room problem.now.puzzle;
          undone = 0;
        }) }
    {
        Lists::new(alloc, problem, most_moves(problem))
    }
}
