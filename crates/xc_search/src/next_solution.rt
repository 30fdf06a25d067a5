//! The next solution as a value.
ghost use Rattle.std.specs.Prelude.{◌≡◌, [], drop, option_map, slice_get, ⊤};
ghost use mathlib.Core.Option.{none};
ghost use mir.Syntax.{named};
ghost use Rattle.std.specs.Borrow.{sem, follows_so};
ghost use Rattle.xc_search.specs.Outlook.{shown_after};
ghost use Rattle.xc_search.specs.Ends.{ends_after};
ghost use Rattle.xc_search.specs.contracts.search.Search.{the_row};

use crate::choice::Choice;
use crate::search::{Search, Step};
use xc_moves::Dance;

impl<'a, D: Dance> Search<'a, D> {
    /// Goes on to the next solution, and returns its choices, from the first level down; None where no solution is
    /// left, then and at each later call.
    pub fn next_solution(&mut self) -> Option<&[Choice]>
        ensures value { option_map (λ choices. choices.now) result ≡ slice_get self.old.to_come 0 }
        // The search is then as `pass` of one solution leaves it.
        ensures* went { sem 𝓛 (follows_so (the_row (record { mir = named 0; lft = [] }) D.row D.Dance)
            (the_row (record { mir = named 0; lft = [] }) D.row D.Dance) self.entry.ghost_name none (λ _ _. ⊤)
            (λ s. s ≡ record self.old {
              to_come = drop 1 self.old.to_come;
              shown = shown_after 1 self.old.to_come self.old.shown;
              ahead = ends_after 1 self.old.ahead;
              made = s.made;
            })) }
    {
        match self.next() {
            Step::Solution => Some(self.choices()),
            Step::Done => None,
        }
    }
}
