//! What comes of a node's word on a blob.

/// What comes of a node's word on a blob, an acknowledgement or an attestation.
#[derive(Clone, Copy, Drop)]
pub enum Said {
    /// The blob is not live.
    Unregistered,
    /// The blob is not kept beyond the writing epoch.
    Expires,
    /// A shard of the node does not hold what backs it.
    Declined,
    /// The node was counted before.
    Already,
    /// So many shards count, which are no quorum.
    Counted(u32),
    /// So many shards count, which are a quorum.
    Quorum(u32),
}
