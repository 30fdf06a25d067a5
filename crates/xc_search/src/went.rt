//! How far a search of a span went on.

ghost use Rattle.std.specs.Prelude.{◌≡◌};

/// Where a search of a span halted.
#[derive(Clone, Copy, Debug, PartialEq, Eq)]
pub enum Halt {
    /// It went on by as many members as it was to, and is at the last of them.
    Member,
    /// No member of the span is left.
    End,
    /// It ran out of steps, and is between two branches.
    Steps,
}

/// How far a search of a span went on.
#[derive(Clone, Copy, Debug, PartialEq, Eq)]
pub struct Went {
    pub halt: Halt,
    /// By how many members.
    pub members: u64,
    /// How many branches it began.
    pub steps: u64,
}

impl Went {
    /// It halted there, after so many members and steps.
    pub(crate) fn at(halt: Halt, members: u64, steps: u64) -> Went
        ensures { result ≡ record { halt = halt; members = members; steps = steps } }
    {
        Went {
            halt,
            members,
            steps,
        }
    }
}
