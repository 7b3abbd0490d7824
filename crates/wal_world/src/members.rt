//! The shards of the two committees.

ghost use Rattle.std.specs.Prelude.{◌≡◌, ℕ, ◌<◌, true, List, None, Some, OnOk, length};
ghost use Rattle.std.specs.Borrow.{sem};
ghost use Rattle.wal_shape.specs.Metadata.{held_index};
ghost use Rattle.wal_shape.specs.MetaRef.{metadata_shown};
ghost use Rattle.wal_shape.specs.EncodingProof.{IsProof};
ghost use Rattle.wal_shape.specs.ProofRef.{proof_shown};
ghost use Rattle.wal_shape.specs.Spelling.{metadata_text};
ghost use Rattle.wal_commit.specs.Identifier.{Commits};
ghost use Rattle.wal_commit.specs.Held.{HoldsSliver};
ghost use Rattle.wal_evidence.specs.BadProof.{IsBadProof};
ghost use Rattle.wal_frame.specs.Shown.{frame_shown};
ghost use Rattle.wal_store.specs.Contents.{Contents, parts_at};
ghost use Rattle.wal_shard.specs.Keeping.{kept_sliver, kept_proof};
ghost use Rattle.wal_shard.specs.Putting.{CanBePut, PutsOrWants};
ghost use Rattle.wal_shard.specs.State.{desk_of};
ghost use Rattle.wal_world.specs.inside.Members.{LendsSide, members_of};
ghost use Rattle.wal_world.specs.inside.Network.{AreShards};
ghost use Rattle.wal_world.specs.inside.Placed.{contents_at, placed, LetsGo};

use std::alloc::AllocError;
use wal_frame::FrameRef;
use wal_ledger::Ledger;
use wal_matrix::Work;
use wal_shape::{Axis, BlobId, MetaRef, ProofRef, Side};
use wal_shard::{Declined, PutAnswer, Shard};
use wal_store::MapKeep;
use wal_tree::Hash32;

/// The shards of one committee, by their numbers.
#[derive(Drop)]
pub(crate) struct Members<H: Hash32> {
    /// The shards. There are none where the committee is absent.
    pub(crate) shards: Vec<Shard<H, MapKeep>>,
}

/// The shards of both sides.
#[derive(Drop)]
pub(crate) struct Sides<H: Hash32> {
    /// Those of the committee that serves.
    pub(crate) serving: Members<H>,
    /// Those of the next committee, while the epoch changes.
    pub(crate) next: Members<H>,
}

impl<H: Hash32> Sides<H> {
    /// Lends the shards of a side.
    pub(crate) fn of(&self, side: Side) -> &Members<H>
        ensures { result.now ≡ members_of side self.now }
    {
        match side {
            Side::Now => &self.serving,
            Side::Next => &self.next,
        }
    }

    /// Lends the shards of a side, to be changed.
    pub(crate) fn of_mut(&mut self, side: Side) -> &mut Members<H>
        ensures* lends { sem 𝓛 (LendsSide H.row H.Hash32 side self.entry result) }
        ensures value { result.now ≡ members_of side self.old }
    {
        match side {
            Side::Now => &mut self.serving,
            Side::Next => &mut self.next,
        }
    }
}

impl<H: Hash32> Members<H> {
    /// What one of the shards makes of a frame.
    pub(crate) fn put(
        &mut self,
        work: &mut Work,
        ledger: &Ledger,
        shard: u16,
        frame: &FrameRef<'_>,
    ) -> PutAnswer
        requires shards { AreShards ledger.now.log.f self.old.shards.items }
        requires shard { shard < length self.old.shards.items }
        requires part { CanBePut (frame_shown frame.now) }
        requires f { work.old.f ≡ ledger.now.log.f }
        ensures puts { (contents : Contents)
            × PutsOrWants H.digest true (desk_of ledger.now.log.f shard None ledger.now.log)
            (contents_at self.old.shards.items shard) (frame_shown frame.now) result contents
            × (self.new.shards.items
            ≡ placed ledger.now.log.f self.old.shards.items shard contents) }
        ensures f { work.new.f ≡ work.old.f }
    {
        self.shards[usize::from(shard)].put(work, ledger, frame)
    }

    /// What one of the shards makes of a blob that it is to forget.
    pub(crate) fn forget(
        &mut self,
        ledger: &Ledger,
        shard: u16,
        id: &BlobId,
    ) -> Result<(), Declined>
        requires shards { AreShards ledger.now.log.f self.old.shards.items }
        requires shard { shard < length self.old.shards.items }
        ensures { (contents : Contents)
            × LetsGo ledger.now.log (contents_at self.old.shards.items shard) id.now result contents
            × (self.new.shards.items
            ≡ placed ledger.now.log.f self.old.shards.items shard contents) }
    {
        self.shards[usize::from(shard)].forget(ledger, id)
    }

    /// One of the shards keeps metadata and a sliver of its own.
    pub(crate) fn keep_sliver(
        &mut self,
        shard: u16,
        id: &BlobId,
        m: MetaRef<'_>,
        axis: Axis,
        bytes: &[u8],
    ) -> Result<(), AllocError>
        requires shards { AreShards (metadata_shown m).f self.old.shards.items }
        requires shard { shard < length self.old.shards.items }
        requires commits { Commits H.digest id.now.0 (metadata_shown m) }
        requires same { (other : List ℕ)
            → (parts_at (contents_at self.old.shards.items shard) id.now).metadata ≡ Some other
            → other ≡ metadata_text (metadata_shown m) }
        requires holds { HoldsSliver H.digest (metadata_shown m) axis
            (held_index (metadata_shown m).format (metadata_shown m).f axis shard) bytes.now }
        ensures { (contents : Contents)
            × OnOk result
            (contents ≡ kept_sliver (contents_at self.old.shards.items shard)
            id.now (metadata_shown m.entry) axis bytes.now)
            × (self.new.shards.items
            ≡ placed (metadata_shown m.entry).f self.old.shards.items shard contents) }
    {
        self.shards[usize::from(shard)].keep_sliver(id, m, axis, bytes)
    }

    /// One of the shards keeps metadata and a proof that is bad for it.
    pub(crate) fn keep_proof(
        &mut self,
        shard: u16,
        id: &BlobId,
        m: MetaRef<'_>,
        p: &ProofRef<'_>,
    ) -> Result<(), AllocError>
        requires shards { AreShards (metadata_shown m).f self.old.shards.items }
        requires shard { shard < length self.old.shards.items }
        requires commits { Commits H.digest id.now.0 (metadata_shown m) }
        requires same { (other : List ℕ)
            → (parts_at (contents_at self.old.shards.items shard) id.now).metadata ≡ Some other
            → other ≡ metadata_text (metadata_shown m) }
        requires fit { IsProof (proof_shown p.now) }
        requires bad { IsBadProof H.digest (metadata_shown m) (proof_shown p.now) }
        ensures { (contents : Contents)
            × OnOk result
            (contents ≡ kept_proof (contents_at self.old.shards.items shard)
            id.now (metadata_shown m.entry) (proof_shown p.now))
            × (self.new.shards.items
            ≡ placed (metadata_shown m.entry).f self.old.shards.items shard contents) }
    {
        self.shards[usize::from(shard)].keep_proof(id, m, p)
    }
}
