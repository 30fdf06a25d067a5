//! The room for moves that a search needs.
ghost use Rattle.std.specs.Prelude.{◌≡◌};
ghost use Rattle.xc_input.specs.Problem.{IsValid};
ghost use Rattle.xc_moves.specs.Dancing.{search_room};

use xc_input::Problem;

/// How many moves a search of the problem has on its trail at most: twice the items and twice the uses. It is public,
/// so that a caller can give a dance the room that a search requires.
pub fn most_moves(problem: &Problem) -> usize
    ensures value { result ≡ search_room problem.now.puzzle }
    ensures valid { IsValid problem.now.puzzle }
{
    2 * problem.items() as usize + 2 * problem.uses()
}
