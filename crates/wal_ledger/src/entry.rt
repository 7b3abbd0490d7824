//! What stands in a ledger.

ghost use Rattle.std.specs.Prelude.{◌≡◌, ℕ, ◌+◌, ◌<◌, ◌≤◌, List, true};
ghost use Rattle.wal_ledger.specs.Ledger.{signs_for};

use crate::owners::same_node;
use wal_shape::{BlobId, Shards};

/// One entry of a ledger.
#[derive(Debug, Drop)]
pub struct Entry {
    /// The writing epoch when the entry was made.
    pub epoch: u32,
    /// What it says.
    pub body: Body,
}

/// What an entry says.
#[derive(Debug, Drop)]
pub enum Body {
    /// The blob is to be kept until that epoch begins.
    Register {
        /// The blob.
        id: BlobId,
        /// The first epoch in which it need not be kept.
        until: u32,
    },
    /// The shard holds its slivers of the blob.
    Ack {
        /// The shard.
        shard: u16,
        /// The blob.
        id: BlobId,
    },
    /// The shard has seen a proof that the blob is badly encoded.
    Attest {
        /// The shard.
        shard: u16,
        /// The blob.
        id: BlobId,
    },
    /// The shard of the next committee holds what it must.
    Ready {
        /// The shard.
        shard: u16,
    },
    /// The epoch begins to change.
    Begin {
        /// The node that runs each shard of the next committee, by the shard's number.
        owners: Shards,
    },
    /// The next epoch has begun.
    Finish,
}

/// What a shard says of a blob.
#[derive(Clone, Copy, Debug)]
pub enum Kind {
    /// It holds its slivers.
    Holds,
    /// The blob is badly encoded.
    Denies,
}

impl Kind {
    ghost use Rattle.wal_ledger.specs.Answers.{claim_of};

    /// The entry by which a shard says it.
    pub(crate) fn body(self, shard: u16, id: &BlobId) -> Body
        ensures { result ≡ claim_of self shard id.now }
    {
        match self {
            Kind::Holds => Body::Ack { shard, id: *id },
            Kind::Denies => Body::Attest { shard, id: *id },
        }
    }
}

impl Body {
    /// Whether a shard says this of a blob whose node, by these owners, runs this shard too.
    pub(crate) fn signs_for(&self, owners: &[u16], kind: Kind, by: u16) -> bool
        ensures { result ≡ signs_for owners.now kind by self.now }
    {
        match (kind, self) {
            (Kind::Holds, Body::Ack { shard, .. }) => same_node(owners, *shard, by),
            (Kind::Denies, Body::Attest { shard, .. }) => same_node(owners, *shard, by),
            (Kind::Holds, _) => false,
            (Kind::Denies, _) => false,
        }
    }
}
