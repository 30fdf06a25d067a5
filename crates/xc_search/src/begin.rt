//! Beginning a search, with an error of its own.
ghost use Rattle.std.specs.Prelude.{◌≡◌, ◌≤◌, [], IfOk, IfErr};
ghost use Rattle.xc_moves.specs.Dancing.{moves_made};
ghost use Rattle.xc_search.specs.Listing.{whole};
ghost use Rattle.xc_search.specs.Ends.{ends};
ghost use Rattle.xc_search.specs.Room.{room_for};
ghost use Rattle.xc_search.specs.Cover.{members, EachMemberCovers, EachCoverIsListedOnce};

use crate::search::Search;
use std::alloc::Global;
use std::error::Error;
use std::fmt;
use xc_input::Problem;
use xc_moves::Dance;
use xc_text::Memory;

/// Why no search began: there was no memory for its levels. It holds the dance, as it was.
#[derive(Drop)]
pub struct NoSearch<D> {
    dance: D,
}

impl<D> NoSearch<D> {
    /// Returns the dance.
    pub fn into_dance(self) -> D
        ensures { result ≡ self.dance }
    {
        let NoSearch { dance } = self;
        dance
    }
}

impl<D> fmt::Debug for NoSearch<D> {
    ghost use Rattle.std.specs.Prelude.{Some, codes};

    ghost debug_output = { λ _. Some (codes "NoSearch") };

    fn fmt<W: fmt::Write>(&self, f: &mut fmt::Formatter<W>) -> fmt::Result {
        f.write_str("NoSearch")
    }
}

impl<D> fmt::Display for NoSearch<D> {
    ghost use Rattle.std.specs.Prelude.{Some, codes};

    ghost output = { λ _. Some (codes "out of memory") };

    fn fmt<W: fmt::Write>(&self, f: &mut fmt::Formatter<W>) -> fmt::Result {
        f.write_str("out of memory")
    }
}

impl<D: Drop> Error for NoSearch<D> {}

impl<D: Drop> From<NoSearch<D>> for Memory {
    fn from(_: NoSearch<D>) -> Memory {
        Memory
    }
}

impl<'a, D: Dance> Search<'a, D> {
    /// Does what `new` does, with an error that travels by `?`.
    pub fn begin(
        alloc: Global,
        dance: D,
        problem: &'a Problem,
    ) -> Result<Search<'a, D>, NoSearch<D>>
        requires same { (D.state dance).puzzle ≡ problem.now.puzzle }
        requires none { (D.state dance).trail ≡ [] }
        requires room { room_for problem.now.puzzle ≤ (D.state dance).room }
        ensures begun { IfOk result (λ s. s ≡ record {
          puzzle = problem.now.puzzle;
          to_come = members problem.now.puzzle;
          shown = [];
          ahead = ends (whole problem.now.puzzle);
          room = (D.state dance).room;
          made = moves_made (D.state dance);
        }) }
        ensures right { EachMemberCovers problem.now.puzzle }
        ensures complete { EachCoverIsListedOnce problem.now.puzzle }
        ensures back { IfErr result (λ e. e.dance ≡ dance) }
    {
        match Search::new(alloc, dance, problem) {
            Ok(search) => Ok(search),
            Err((dance, _)) => Err(NoSearch { dance }),
        }
    }
}
