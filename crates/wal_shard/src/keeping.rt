//! What a shard keeps of a recovery, and what it lets go.

ghost use Rattle.std.specs.Prelude.{◌≡◌, ℕ, List, Some, ◌≤◌, None, OnOk, OnErr, length};
ghost use Rattle.wal_ledger.specs.Ledger.{is_live};
ghost use Rattle.wal_shape.specs.Shape.{most_bytes};
ghost use Rattle.wal_shape.specs.MetaRef.{metadata_shown};
ghost use Rattle.wal_shape.specs.Metadata.{held_index};
ghost use Rattle.wal_shape.specs.Spelling.{metadata_text};
ghost use Rattle.wal_shape.specs.EncodingProof.{IsProof};
ghost use Rattle.wal_shape.specs.ProofRef.{proof_shown};
ghost use Rattle.wal_shape.specs.declared.part.Part.TheVariants as parts;
ghost use Rattle.wal_store.specs.Contents.{part_at};
ghost use Rattle.wal_commit.specs.Identifier.{Commits};
ghost use Rattle.wal_commit.specs.Held.{HoldsSliver};
ghost use Rattle.wal_evidence.specs.BadProof.{IsBadProof};
ghost use Rattle.wal_shard.specs.Keeping.{kept, kept_sliver, kept_proof, IsKeptInPart};
ghost use Rattle.wal_shard.specs.Vouching.{MayForget, without_slivers, without_dead};
ghost use Rattle.wal_shard.specs.State.{AreSound, with_contents};

use crate::answers::Declined;
use crate::putting::sliver_part;
use crate::shard::Shard;
use std::alloc::AllocError;
use wal_ledger::Ledger;
use wal_shape::{Axis, BlobId, MetaRef, ProofRef};
use wal_store::{Choice, Keep, KeepError, Part, retain};
use wal_tree::Hash32;

/// What is live in a ledger.
#[derive(Drop)]
struct Live<'a> {
    ledger: &'a Ledger,
}

impl Choice for Live<'_> {
    ghost chooses = { λ l. is_live l.ledger.now.log };

    fn is_chosen(&self, id: &BlobId) -> bool {
        self.ledger.live(id)
    }
}

impl<H: Hash32, K: Keep> Shard<H, K> {
    /// Stores a part, where it is not held, in a keep without a limit.
    fn keep_part(&mut self, id: &BlobId, part: Part, bytes: &[u8]) -> Result<(), AllocError>
        requires limit { self.old.limit ≡ None }
        requires some { 1 ≤ length bytes.now }
        requires most { length bytes.now ≤ most_bytes }
        requires sound { AreSound H.digest self.old.f self.old.index
            (kept self.old.contents id.now part bytes.now) }
        ensures kept { OnOk result
            (self.new.contents ≡ kept self.old.contents id.now part bytes.now) }
        ensures refused { OnErr result (self.new.contents ≡ self.old.contents) }
        ensures place { self.new ≡ with_contents self.old self.new.contents }
    {
        if self.has(id, part) {
            return Ok(());
        }
        match self.keep.put(id, part, bytes) {
            Ok(()) => Ok(()),
            Err(KeepError::Memory) => Err(AllocError),
            Err(KeepError::Full { .. }) => unreachable!(),
        }
    }

    /// Lets both slivers of a blob go.
    fn drop_slivers(&mut self, id: &BlobId)
        ensures { self.new ≡ with_contents self.old (without_slivers self.old.contents id.now) }
    {
        self.keep.drop_part(id, Part::Primary);
        self.keep.drop_part(id, Part::Secondary);
    }

    /// Lets the slivers of a blob go that the ledger says is invalid and of which a proof is held.
    pub fn forget(&mut self, ledger: &Ledger, id: &BlobId) -> Result<(), Declined>
        ensures may { OnOk result (MayForget ledger.now.log self.old.contents id.now) }
        ensures gone { OnOk result
            (self.new ≡ with_contents self.old (without_slivers self.old.contents id.now)) }
        ensures declined { OnErr result (MayForget ledger.now.log self.old.contents id.now → ⊥) }
        ensures stays { OnErr result (self.new ≡ self.old) }
    {
        if ledger.invalid(id) && self.has(id, Part::Metadata) && self.has(id, Part::Proof) {
            self.drop_slivers(id);
            Ok(())
        } else {
            Err(Declined)
        }
    }

    /// Lets everything go that is not live.
    pub fn expire(&mut self, ledger: &Ledger)
        ensures { self.new
            ≡ with_contents self.old (without_dead ledger.now.log self.old.contents) }
    {
        retain(&mut self.keep, &Live { ledger });
    }

    /// Keeps metadata and a sliver of the shard's own that it commits. A part that is held stays.
    ///
    /// After want of memory nothing was changed, or only the metadata is kept.
    pub fn keep_sliver(
        &mut self,
        id: &BlobId,
        m: MetaRef<'_>,
        axis: Axis,
        bytes: &[u8],
    ) -> Result<(), AllocError>
        requires limit { self.old.limit ≡ None }
        requires commits { Commits H.digest id.now.0 (metadata_shown m) }
        requires f { (metadata_shown m).f ≡ self.old.f }
        requires same { (other : List ℕ)
            → part_at self.old.contents id.now parts.Metadata ≡ Some other
            → other ≡ metadata_text (metadata_shown m) }
        requires holds { HoldsSliver H.digest (metadata_shown m) axis
            (held_index (metadata_shown m).format (metadata_shown m).f axis self.old.index)
            bytes.now }
        ensures kept { OnOk result (self.new.contents
            ≡ kept_sliver self.old.contents id.now (metadata_shown m.entry) axis bytes.now) }
        // What is held after want of memory.
        ensures in_part { OnErr result
            (IsKeptInPart self.old.contents id.now (metadata_shown m.entry) self.new.contents) }
        ensures place { self.new ≡ with_contents self.old self.new.contents }
    {
        self.sound();
        self.keep_part(id, Part::Metadata, m.bytes())?;
        self.keep_part(id, sliver_part(axis), bytes)
    }

    /// Keeps metadata and a proof that is bad for it. A part that is held stays.
    ///
    /// After want of memory nothing was changed, or only the metadata is kept.
    pub fn keep_proof(
        &mut self,
        id: &BlobId,
        m: MetaRef<'_>,
        p: &ProofRef<'_>,
    ) -> Result<(), AllocError>
        requires limit { self.old.limit ≡ None }
        requires commits { Commits H.digest id.now.0 (metadata_shown m) }
        requires f { (metadata_shown m).f ≡ self.old.f }
        requires same { (other : List ℕ)
            → part_at self.old.contents id.now parts.Metadata ≡ Some other
            → other ≡ metadata_text (metadata_shown m) }
        requires fit { IsProof (proof_shown p.now) }
        requires bad { IsBadProof H.digest (metadata_shown m) (proof_shown p.now) }
        ensures kept { OnOk result (self.new.contents
            ≡ kept_proof self.old.contents id.now (metadata_shown m.entry) (proof_shown p.now)) }
        // What is held after want of memory.
        ensures in_part { OnErr result
            (IsKeptInPart self.old.contents id.now (metadata_shown m.entry) self.new.contents) }
        ensures place { self.new ≡ with_contents self.old self.new.contents }
    {
        self.sound();
        self.keep_part(id, Part::Metadata, m.bytes())?;
        self.keep_part(id, Part::Proof, p.bytes())
    }
}
