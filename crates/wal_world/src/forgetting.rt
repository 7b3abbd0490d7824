//! A shard forgets a blob's slivers.

ghost use Rattle.std.specs.Prelude.{◌≡◌, ◌<◌, true};
ghost use Rattle.wal_ledger.specs.Shards.{committee_size};
ghost use Rattle.wal_store.specs.Contents.{Contents};
ghost use Rattle.wal_protocol.specs.State.{side_of, is_present, contents_of};
ghost use Rattle.wal_world.specs.inside.Network.{IsNetwork, world_of};
ghost use Rattle.wal_world.specs.inside.Placed.{Places, LetsGo};
ghost use Rattle.wal_protocol.specs.Step.{ForgetStep};

use crate::books::ledger_in;
use crate::network::Network;
use wal_event::ForgetWord;
use wal_shape::{BlobId, Side};
use wal_shard::Declined;
use wal_tree::Hash32;

impl<H: Hash32> Network<H> {
    /// What a shard of a side makes of a blob that it is to forget.
    fn forget_at(&mut self, at: Side, shard: u16, id: &BlobId) -> Result<(), Declined>
        requires network { IsNetwork self.old }
        requires present { is_present at (world_of self.old) ≡ true }
        requires shard { shard < committee_size (world_of self.old).log.f }
        ensures { (contents : Contents)
            × LetsGo (world_of self.old).log
            (contents_of (side_of at (world_of self.old)) shard) id.now result contents
            × Places at self.old shard contents self.new }
    {
        let ledger = ledger_in(&self.books);
        self.sides.of_mut(at).forget(ledger, shard, id)
    }

    /// A shard of a side forgets a blob's slivers, where it may.
    pub(crate) fn forget(&mut self, at: Side, shard: u16, id: &BlobId) -> ForgetWord
        requires network { IsNetwork self.old }
        requires shard { shard < committee_size (world_of self.old).log.f }
        ensures network { IsNetwork self.new }
        ensures books { self.new.books ≡ self.old.books }
        ensures step { ForgetStep (world_of self.old) at shard id.now result (world_of self.new) }
    {
        if !self.present(at) {
            return ForgetWord::Absent;
        }
        if self.faulty(at, shard) {
            return ForgetWord::Ignored;
        }
        match self.forget_at(at, shard, id) {
            Ok(()) => ForgetWord::Done,
            Err(_) => ForgetWord::Declined,
        }
    }
}
