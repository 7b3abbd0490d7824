//! What an entry is judged by beside the record of its blob.

ghost use Rattle.std.specs.Prelude.{◌≡◌, ℕ, ◌<◌, ◌≤◌, true, false};
ghost use Rattle.wal_ledger.specs.Shards.{committee_size, quorum_size};
ghost use Rattle.wal_shape.specs.Owners.{are_owners};
ghost use Rattle.wal_record.specs.Context.{turn, writers, writes};
ghost use Rattle.wal_record.specs.Questions.{ready, ready_count};
ghost use Rattle.wal_record.specs.Told.{IsFit, context_told};
ghost use Rattle.wal_ledger.specs.declared.entry.Body.TheVariants.{Begin, Finish};

use crate::set::ShardSet;
use std::alloc::Global;
use std::mem::replace;
use wal_ledger::ReadyAnswer;
use wal_shape::Shards;

/// The epoch of a ledger, and its committees.
#[derive(Debug, Drop)]
pub struct Epoch {
    /// The greatest number of faulty shards of a committee.
    pub f: u32,
    /// The reading epoch.
    pub epoch: u32,
    /// Whether the epoch is changing.
    pub moving: bool,
    /// The node of each shard of the reading epoch's committee.
    pub owners: Shards,
    /// The node of each shard of the next committee, while the epoch is changing.
    pub next: Shards,
    /// The shards that have been ready since the epoch last began to change.
    pub ready: ShardSet,
}

impl Epoch {
    /// The writing epoch.
    pub fn writing(&self) -> u32
        requires { IsFit self.now }
        ensures { result ≡ writes (context_told self.now) }
    {
        self.epoch + u32::from(self.moving)
    }

    /// The node of each shard of the writing epoch's committee.
    pub fn writers(&self) -> &[u16]
        ensures { result.now ≡ writers (context_told self.now) }
    {
        if self.moving {
            self.next.as_slice()
        } else {
            self.owners.as_slice()
        }
    }

    /// How many shards of the next committee are ready.
    pub fn ready_count(&self) -> u32
        requires { IsFit self.now }
        ensures { result ≡ ready_count (context_told self.now) }
    {
        self.ready.count(3 * self.f + 1)
    }

    /// Enters that a shard of the next committee is ready.
    pub fn enter_ready(&mut self, shard: u16) -> ReadyAnswer
        requires fit { IsFit self.old }
        requires moving { self.old.moving ≡ true }
        requires shard { shard < committee_size self.old.f }
        ensures { (result, context_told self.new) ≡ ready (context_told self.old) shard }
    {
        if self.ready.has(shard) {
            return ReadyAnswer::Already;
        }
        let mut ready = self.ready;
        ready.add_node(self.writers(), 3 * self.f + 1, shard);
        self.ready = ready;
        ReadyAnswer::Counted(self.ready_count())
    }

    /// Begins to change the epoch, to a committee whose shards these nodes run.
    pub fn begin(&mut self, owners: Shards)
        requires serving { self.old.moving ≡ false }
        requires last { self.old.epoch < 65535 }
        requires owners { are_owners (committee_size self.old.f) owners ≡ true }
        ensures { context_told self.new ≡ turn (context_told self.old) (Begin owners) }
    {
        self.moving = true;
        self.next = owners;
        self.ready = ShardSet::none();
    }

    /// Ends the change: the next epoch becomes the reading one.
    pub fn finish(&mut self, alloc: Global)
        requires fit { IsFit self.old }
        requires moving { self.old.moving ≡ true }
        requires quorum { quorum_size self.old.f ≤ ready_count (context_told self.old) }
        ensures { context_told self.new ≡ turn (context_told self.old) Finish }
    {
        self.epoch = self.writing();
        self.moving = false;
        self.owners = replace(&mut self.next, Shards::from_vec(Vec::new(alloc)));
    }
}
