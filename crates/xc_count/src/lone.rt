//! A search that goes on alone.
ghost use Rattle.std.specs.Prelude.{◌≡◌, length, option_map, IfOk};
ghost use Rattle.xc_input.specs.Problem.{numbered_get};
ghost use Rattle.xc_search.specs.Cover.{members};

use crate::passing::nth_by_search;
use crate::rival::Rival;
use natural::Natural;
use std::alloc::Global;
use std::marker::Model;
use xc_input::Problem;
use xc_search::Choice;
use xc_text::Memory;

/// A search that goes on alone from where it was when the states beside it took too much memory. That may take longer
/// than anybody waits, so it is handed to the caller.
#[derive(Drop)]
pub struct LoneSearch<'a> {
    rival: Rival<'a>,
    problem: &'a Problem,
}

impl<'a> Model for LoneSearch<'a> {
    ghost use Rattle.std.specs.Prelude.{◌≡◌};
    ghost use Rattle.xc_input.specs.Problem.{Puzzle};

    ghost Value = { Puzzle };

    ghost view = { λ s. s.problem.now.puzzle };

    ghost invariant = { λ s. s.rival.puzzle ≡ s.problem.now.puzzle };
}

/// The search of this problem, without a sweep beside it.
pub fn leave_alone<'a>(rival: Rival<'a>, problem: &'a Problem) -> LoneSearch<'a>
    requires { rival.puzzle ≡ problem.now.puzzle }
    ensures { result ≡ problem.now.puzzle }
{
    LoneSearch { rival, problem }
}

impl<'a> LoneSearch<'a> {
    /// Goes on to the end, and returns how many covers there are in all.
    ///
    /// # Errors
    /// `Memory` where there is none for the number.
    pub fn go_on_to_end(self, alloc: Global) -> Result<Natural, Memory>
        ensures { IfOk result (λ n. n ≡ length (members self.entry)) }
    {
        let LoneSearch { rival, problem: _ } = self;
        rival.finish(alloc)
    }

    /// Goes on to the solution of a number in the listing, from 1, and returns it; none where there are fewer.
    ///
    /// # Errors
    /// `Memory` where there is none for the solution.
    pub fn go_on_to(self, alloc: Global, number: &Natural) -> Result<Option<Vec<Choice>>, Memory>
        ensures { IfOk result (λ found. option_map (λ c. c.items) found
            ≡ numbered_get (members self.entry) number.now) }
    {
        let LoneSearch { rival, problem } = self;
        match rival.find(alloc, number)? {
            Some(found) => Ok(found),
            // It has passed that solution.
            None => nth_by_search(alloc, problem, number),
        }
    }
}
