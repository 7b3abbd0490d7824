//! Entries that name a blob by the place of its record.

use wal_shape::Shards;

/// What an entry says. A blob is named by the place of its record.
#[derive(Debug, Drop)]
pub enum Item {
    /// The blob is to be kept until that epoch begins.
    Register { blob: u32, until: u32 },
    /// The shard holds its slivers of the blob.
    Ack { blob: u32, shard: u16 },
    /// The shard has seen a proof that the blob is badly encoded.
    Attest { blob: u32, shard: u16 },
    /// The shard of the next committee holds what it must.
    Ready { shard: u16 },
    /// The epoch begins to change, to a committee whose shards these nodes run.
    Begin { owners: Shards },
    /// The next epoch has begun.
    Finish,
}
