//! What a proof shows of clauses.

/// What a proof shows of clauses. Steps are numbered from 1, deletions too.
#[derive(Clone, Copy, Debug, PartialEq, Eq)]
pub enum Answer {
    /// No values of the variables make all clauses true.
    Refuted,
    /// Nothing: the proof ends before the empty clause.
    Unfinished,
    /// Nothing: the clause of this step doesn't follow from those before it by unit propagation.
    DoesNotFollow(u64),
    /// Nothing: what stands in the place of this step is none.
    NoStep(u64),
}
