//! What the moves answer.

/// Why `Serving::create` made nothing.
#[derive(Clone, Copy, Debug, PartialEq, Eq)]
pub enum CreateError {
    /// The number of faults is not in 1 to 333.
    BadFaults,
    /// The epoch is above 65535.
    BadEpoch,
    /// The owners are not `3f + 1` nodes below `3f + 1`, or the list of faulty shards does not
    /// ascend strictly below `3f + 1`, or it lacks a shard of a node of which it has one.
    BadCommittee,
    /// There is no memory.
    Memory,
}

/// Why `Serving::begin` did not begin.
#[derive(Clone, Copy, Debug, PartialEq, Eq)]
pub enum BeginError {
    /// The epoch is 65535.
    LastEpoch,
    /// The owners are not `3f + 1` nodes below `3f + 1`, or a list of shards does not ascend
    /// strictly below `3f + 1`, or the faulty ones lack a shard of a node of which they have one.
    BadCommittee,
    /// No entry fits any more.
    NoRoom,
}

/// Why `Moving::finish` did not finish.
#[derive(Clone, Copy, Debug, PartialEq, Eq)]
pub enum FinishError {
    /// Only so many shards are ready, which is no quorum.
    Waiting(u32),
    /// No entry fits any more.
    NoRoom,
}
