//! Whether a quorum of shards holds a blob.

use wal_shape::BlobId;

/// A quorum of shards acknowledged the blob.
#[derive(Clone, Copy, Debug, PartialEq, Eq)]
pub struct Certificate {
    /// The blob's identifier.
    pub id: BlobId,
    /// The least epoch in which a quorum did.
    pub epoch: u32,
    /// How many shards did in that epoch.
    pub count: u32,
}

/// There is no certificate yet: so many shards have acknowledged the blob in the writing epoch.
#[derive(Clone, Copy, Debug, PartialEq, Eq)]
pub struct Pending(pub u32);
