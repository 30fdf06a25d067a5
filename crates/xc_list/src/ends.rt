//! How runs end, over a whole listing or a span of it.
ghost use Rattle.std.specs.Prelude.{◌≡◌};
ghost use Rattle.xc_list.specs.Runs.{solutions_found};

/// How a run ended, and at how many solutions.
#[derive(Clone, Copy, Debug, PartialEq, Eq)]
pub enum End {
    /// There are no more.
    Done(u64),
    /// The limit was met.
    Limit(u64),
    /// The text of this solution was not taken whole.
    WriteFailed(u64),
}

impl End {
    /// How many solutions the run had found when it ended.
    pub fn solutions(self) -> u64
        ensures { result ≡ solutions_found self }
    {
        match self {
            End::Done(found) | End::Limit(found) | End::WriteFailed(found) => found,
        }
    }
}

/// Why a span wasn't listed.
#[derive(Clone, Copy, Debug, PartialEq, Eq)]
pub enum SpanFault {
    /// There was no memory for its search.
    Memory,
    /// A write of its text failed.
    WriteFailed,
}
