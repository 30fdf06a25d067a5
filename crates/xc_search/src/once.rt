//! Problems whose primary items are each to be held exactly once.
ghost use Rattle.std.specs.Prelude.{◌≡◌, true, false};
ghost use Rattle.xc_input.specs.Problem.{IsValid};
ghost use Rattle.xc_search.specs.Once.{IsOnce};

use xc_input::Problem;

/// Whether each primary item is to be held exactly once, as in problems for `dlx1` and `dlx2`. It goes over the items.
pub fn is_once(problem: &Problem) -> bool
    ensures once { result ≡ true → IsOnce problem.now.puzzle }
    ensures several { result ≡ false → IsOnce problem.now.puzzle → ⊥ }
    ensures valid { IsValid problem.now.puzzle }
{
    for i in 0..problem.primary() {
        let bounds = problem.item(i + 1).bounds();
        if bounds.low != 1 || bounds.high != 1 {
            return false;
        }
    }
    true
}
