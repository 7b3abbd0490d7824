//! The nodes that run the shards of a committee.

ghost use Rattle.std.specs.Prelude.{◌≡◌, ℕ, ◌≤◌, List, length};
ghost use Rattle.wal_ledger.specs.Shards.{count_below};
ghost use Rattle.wal_ledger.specs.Ledger.{same_node};
ghost use Rattle.wal_ledger.specs.inside.Kept.{StandAt};

use crate::entry::{Body, Entry};
use wal_shape::{Shards, node_of};

/// Whether one node runs both shards.
pub(crate) fn same_node(owners: &[u16], one: u16, other: u16) -> bool
    ensures { result ≡ same_node owners.now one other }
{
    node_of(owners, one) == node_of(owners, other)
}

/// How many shards the node of this shard runs.
pub(crate) fn node_size(owners: &[u16], shard: u16) -> u32
    requires { length owners.now ≤ 1000 }
    ensures { result ≡ count_below (length owners.now) (same_node owners.now shard) }
{
    let mut size = 0;
    for other in 0..owners.len() as u16 {
        if same_node(owners, shard, other) {
            size += 1;
        }
    }
    size
}

/// The owners that stand at a link: 0 for the first ones, else one more than the place of a
/// `Begin`.
pub(crate) fn owners_at<'a>(first: &'a Shards, entries: &'a [Entry], link: u32) -> &'a [u16]
    requires { (owners : List ℕ) × StandAt first.now entries.now link owners }
    ensures { (owners : List ℕ) → StandAt first.now entries.now link owners → result.now ≡ owners }
{
    if link == 0 {
        return first.as_slice();
    }
    match &entries[link as usize - 1].body {
        Body::Begin { owners } => owners.as_slice(),
        _ => unreachable!(),
    }
}
