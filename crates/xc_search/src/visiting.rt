//! A call with each solution.
//!
//! The contract describes the calls by a relation (`Visits`): which solutions a closure was called with and what it
//! returned can only be said over its states. A caller proves only that the closure may be called.
ghost use Rattle.std.specs.Prelude.{◌≡◌, List};
ghost use Rattle.std.specs.Fn.{CalledAt};
ghost use Rattle.xc_search.specs.Outlook.{MakesFew};
ghost use Rattle.xc_search.specs.Visited.{Visits};

use crate::choice::Choice;
use crate::search::{Search, Step};
use xc_moves::Dance;

impl<'a, D: Dance> Search<'a, D> {
    /// Calls `visit` with the choices of each solution to come, in turn, until it returns false. It is
    /// true where no call did, and then no solution is left; else the search is at the last one.
    pub fn for_each<F: FnMut(&[Choice]) -> bool>(&mut self, visit: &mut F) -> bool
        requires { F.IsAlwaysCallable visit.old }
        ensures still { self.new ≡ record self.old
            { to_come = self.new.to_come; shown = self.new.shown; ahead = self.new.ahead; made = self.new.made } }
        ensures moves { MakesFew self.old self.new }
        ensures visits { Visits (λ f m more g. CalledAt F.FnMut f m more g) visit.old self.old.to_come
            result self.new.to_come self.new.shown visit.new }
    {
        while let Step::Solution = self.next() {
            if !visit(self.choices()) {
                return false;
            }
        }
        true
    }
}
