//! Committees, and lists of their shards.

ghost use Rattle.std.specs.Prelude.{◌≡◌};
ghost use Rattle.wal_shape.specs.Owners.{among};

use wal_shape::Shards;

/// The committee of the next epoch.
#[derive(Debug, Drop)]
pub struct Committee {
    /// The node that runs each shard, by the shard's number.
    pub owners: Shards,
    /// Its faulty shards, ascending. With a shard they have every shard of the same node.
    pub faulty: Shards,
    /// The shards that their nodes keep in the next epoch, ascending.
    pub stays: Shards,
}

/// Whether the list has the shard.
pub(crate) fn among(shards: &Shards, shard: u16) -> bool
    ensures { result ≡ among shards.now shard }
{
    shards.as_slice().iter().any(|s| *s == shard)
}
