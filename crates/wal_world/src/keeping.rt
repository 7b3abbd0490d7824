//! A shard of a network keeps what it recovered.

ghost use Rattle.std.specs.Prelude.{◌≡◌, ℕ, ◌<◌, true, List, Some, OnOk};
ghost use Rattle.wal_shape.specs.Metadata.{held_index};
ghost use Rattle.wal_shape.specs.MetaRef.{metadata_shown};
ghost use Rattle.wal_shape.specs.EncodingProof.{IsProof};
ghost use Rattle.wal_shape.specs.ProofRef.{proof_shown};
ghost use Rattle.wal_shape.specs.Spelling.{metadata_text};
ghost use Rattle.wal_commit.specs.Identifier.{Commits};
ghost use Rattle.wal_commit.specs.Held.{HoldsSliver};
ghost use Rattle.wal_evidence.specs.BadProof.{IsBadProof};
ghost use Rattle.wal_ledger.specs.Shards.{committee_size};
ghost use Rattle.wal_store.specs.Contents.{parts_at};
ghost use Rattle.wal_shard.specs.Keeping.{kept_sliver, kept_proof};
ghost use Rattle.wal_protocol.specs.State.{side_of, is_present, contents_of, keeps};
ghost use Rattle.wal_world.specs.inside.Network.{IsNetwork, world_of};

use crate::network::Network;
use std::alloc::AllocError;
use wal_shape::{Axis, BlobId, MetaRef, ProofRef, Side};
use wal_tree::Hash32;

impl<H: Hash32> Network<H> {
    /// A shard of a side keeps metadata and a sliver of its own.
    pub(crate) fn keep_sliver(
        &mut self,
        side: Side,
        shard: u16,
        id: &BlobId,
        m: MetaRef<'_>,
        axis: Axis,
        bytes: &[u8],
    ) -> Result<(), AllocError>
        requires network { IsNetwork self.old }
        requires present { is_present side (world_of self.old) ≡ true }
        requires shard { shard < committee_size (world_of self.old).log.f }
        requires f { (metadata_shown m).f ≡ (world_of self.old).log.f }
        requires commits { Commits H.digest id.now.0 (metadata_shown m) }
        requires same { (other : List ℕ)
            → (parts_at (contents_of (side_of side (world_of self.old)) shard) id.now).metadata
            ≡ Some other
            → other ≡ metadata_text (metadata_shown m) }
        requires holds { HoldsSliver H.digest (metadata_shown m) axis
            (held_index (metadata_shown m).format (metadata_shown m).f axis shard) bytes.now }
        ensures network { IsNetwork self.new }
        ensures books { self.new.books ≡ self.old.books }
        ensures keeps { OnOk result (world_of self.new ≡ keeps (world_of self.old) side shard
            (kept_sliver (contents_of (side_of side (world_of self.old)) shard)
            id.now (metadata_shown m.entry) axis bytes.now)) }
    {
        self.sides
            .of_mut(side)
            .keep_sliver(shard, id, m, axis, bytes)
    }

    /// A shard of a side keeps metadata and a proof that is bad for it.
    pub(crate) fn keep_proof(
        &mut self,
        side: Side,
        shard: u16,
        id: &BlobId,
        m: MetaRef<'_>,
        p: &ProofRef<'_>,
    ) -> Result<(), AllocError>
        requires network { IsNetwork self.old }
        requires present { is_present side (world_of self.old) ≡ true }
        requires shard { shard < committee_size (world_of self.old).log.f }
        requires f { (metadata_shown m).f ≡ (world_of self.old).log.f }
        requires commits { Commits H.digest id.now.0 (metadata_shown m) }
        requires same { (other : List ℕ)
            → (parts_at (contents_of (side_of side (world_of self.old)) shard) id.now).metadata
            ≡ Some other
            → other ≡ metadata_text (metadata_shown m) }
        requires fit { IsProof (proof_shown p.now) }
        requires bad { IsBadProof H.digest (metadata_shown m) (proof_shown p.now) }
        ensures network { IsNetwork self.new }
        ensures books { self.new.books ≡ self.old.books }
        ensures keeps { OnOk result (world_of self.new ≡ keeps (world_of self.old) side shard
            (kept_proof (contents_of (side_of side (world_of self.old)) shard)
            id.now (metadata_shown m.entry) (proof_shown p.now))) }
    {
        self.sides.of_mut(side).keep_proof(shard, id, m, p)
    }
}
