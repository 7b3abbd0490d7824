//! The law of what is served, as deeds of a network.

ghost use Rattle.wal_deeds.specs.Served.{EveryDeed};

use wal_tree::Hash32;

/// What the table of `serve` has for a put and for forgetting is a deed of a correct shard that has
/// applied this ledger and holds this, and a claim that it makes is backed, whoever owns the shards
/// and whether or not the epoch changes.
pub fn every_deed<H: Hash32>()
    ensures deed { EveryDeed H.digest }
{}
