//! What a run of the search came to.

/// Where a run halted.
#[derive(Clone, Copy)]
pub enum Stop {
    /// At a member.
    Member,
    /// Between two branches, since it has no more steps.
    Steps,
    /// At a branch whose row doesn't come before `until`.
    Row,
    /// All levels ended.
    Nothing,
}

/// What a run came to: of the members that it was to pass over, and of its steps, so many are left.
#[derive(Clone, Copy)]
pub struct Ran {
    pub stop: Stop,
    pub more: u64,
    pub steps: u64,
}
