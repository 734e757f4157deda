//! What became of a committed change.

/// What is asked of a change, in the order in which it is tried for each kind of change.
#[derive(Clone, Copy, Debug, PartialEq, Eq)]
pub enum Condition {
    /// Each removed contract is current.
    Removed,
    /// The added regions are disjoint, and together they are the removed ones.
    Regions,
    /// A contract with a primary goes on with the region of a removed one, whose primary is the same or none.
    Primary,
    /// An added contract, or a branch, has a new id, and a branch goes on from registered ones.
    IdNew,
    /// A current contract has the branch's region and tenure, and its maker as primary.
    Tenure,
    /// The current branches on the region are those that the maker knew.
    BasedOn,
}

/// What became of a committed change: each node comes to the same.
#[derive(Clone, Copy, Debug, PartialEq, Eq)]
pub enum Applied {
    Taken,
    /// The first condition that does not hold; nothing was changed.
    Skipped(Condition),
}
