//! What the calls on a ledger answer.

/// What `register` answers.
#[derive(Clone, Copy, Debug, PartialEq, Eq)]
pub enum RegisterAnswer {
    /// The blob is registered, now until this epoch.
    Registered(u32),
    /// The registration does not exceed the writing epoch.
    Past,
    /// The blob is live and the epoch is changing.
    MovingExtension,
    /// No entry fits any more.
    NoRoom,
}

/// What `ack` answers.
#[derive(Clone, Copy, Debug, PartialEq, Eq)]
pub enum AckAnswer {
    /// So many shards have acknowledged the blob in this epoch, which is no quorum yet.
    Counted(u32),
    /// So many shards have, which is a quorum.
    Certified(u32),
    /// This shard had acknowledged the blob in this epoch.
    Already,
    /// The blob is not live.
    Unregistered,
    /// The blob is not kept beyond the writing epoch.
    Expires,
    /// No entry fits any more.
    NoRoom,
}

/// What `attest` answers.
#[derive(Clone, Copy, Debug, PartialEq, Eq)]
pub enum AttestAnswer {
    /// So many shards have attested in this epoch that the blob is invalid, which is no quorum yet.
    Counted(u32),
    /// So many shards have, which is a quorum.
    Invalid(u32),
    /// This shard had attested it in this epoch.
    Already,
    /// The blob is not live.
    Unregistered,
    /// The blob is not kept beyond the writing epoch.
    Expires,
    /// No entry fits any more.
    NoRoom,
}

/// What `ready` answers.
#[derive(Clone, Copy, Debug, PartialEq, Eq)]
pub enum ReadyAnswer {
    /// So many shards of the next committee are ready.
    Counted(u32),
    /// This shard was ready.
    Already,
    /// No entry fits any more.
    NoRoom,
}

/// What `ack` and `attest` have in common.
#[derive(Clone, Copy, Debug)]
pub(crate) enum ClaimAnswer {
    /// So many shards have said so, which is no quorum yet.
    Counted(u32),
    /// So many shards have, which is a quorum.
    Quorum(u32),
    /// This shard had said so.
    Already,
    /// The blob is not live.
    Unregistered,
    /// The blob is not kept beyond the writing epoch.
    Expires,
    /// No entry fits any more.
    NoRoom,
}
