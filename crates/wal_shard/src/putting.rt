//! What a shard makes of metadata, slivers and proofs that are put to it.

ghost use Rattle.std.specs.Prelude.{◌≡◌, ◌↔◌, ◌≤◌, [], Some, None, IsTrue, IsSome, length};
ghost use Rattle.std.specs.Prelude.{unwrap_or};
ghost use Rattle.wal_commit.specs.Identifier.{AreDigestedFor, identifier_of};
ghost use Rattle.wal_shape.specs.Shape.{most_bytes};
ghost use Rattle.wal_shape.specs.Metadata.{BlobMetadata};
ghost use Rattle.wal_shape.specs.MetaRef.{metadata_shown};
ghost use Rattle.wal_shape.specs.Spelling.{metadata_text};
ghost use Rattle.wal_shape.specs.ProofRef.{proof_shown};
ghost use Rattle.wal_tree.specs.Collision.{IsCollision};
ghost use Rattle.wal_evidence.specs.BadProof.{IsBadProof};
ghost use Rattle.wal_shape.specs.declared.part.Part.TheVariants as parts;
ghost use Rattle.wal_store.specs.Parts.{with_part};
ghost use Rattle.wal_store.specs.Contents.{parts_at, part_at};
ghost use Rattle.wal_frame.specs.Frame.{Metadata, Sliver, Proof};
ghost use Rattle.wal_shape.specs.Part.{sliver_part};
ghost use Rattle.wal_shard.specs.Holding.{HoldsMetadata, IsSound};
ghost use Rattle.wal_shard.specs.Putting.{PutsOrWants, ShowsTexts, Stores, Compares, Verifies};
ghost use Rattle.wal_shard.specs.State.{desk, with_contents};

use crate::answers::PutAnswer;
use crate::holding::{MOST_METADATA, SHORT_METADATA, with_room};
use crate::shard::Shard;
use wal_commit::{collide_metadata, identify, sliver_holds};
use wal_evidence::is_bad_proof;
use wal_ledger::Ledger;
use wal_matrix::Work;
use wal_shape::{Axis, BlobId, MetaClash, MetaRef, ProofRef, SliverRef};
use wal_store::{Keep, KeepError, Part};
use wal_tree::Hash32;

/// Which part a sliver of an axis is.
pub(crate) fn sliver_part(axis: Axis) -> Part
    ensures { result ≡ sliver_part axis }
{
    match axis {
        Axis::Primary => Part::Primary,
        Axis::Secondary => Part::Secondary,
    }
}

impl<H: Hash32, K: Keep> Shard<H, K> {
    /// Stores a part that is not held, beside which what is held stays sound.
    fn store(&mut self, id: &BlobId, part: Part, bytes: &[u8]) -> PutAnswer
        requires absent { part_at self.old.contents id.now part ≡ None }
        requires some { 1 ≤ length bytes.now }
        requires most { length bytes.now ≤ most_bytes }
        requires sound { IsSound H.digest self.old.f id.now.0 self.old.index
            (with_part (parts_at self.old.contents id.now) part (Some bytes.now)) }
        ensures stores { Stores self.old.limit K.may_want self.old.contents
            id.now part bytes.now result self.new.contents }
        ensures place { self.new ≡ with_contents self.old self.new.contents }
    {
        match self.keep.put(id, part, bytes) {
            Ok(()) => PutAnswer::Stored,
            Err(KeepError::Full { needed, free }) => PutAnswer::Full { needed, free },
            Err(KeepError::Memory) => PutAnswer::Memory,
        }
    }

    /// Two texts with one digest, of a metadata and the other one that is held, whose size the room
    /// has.
    fn clash_in(&self, id: &BlobId, m: MetaRef<'_>, room: &mut [u8]) -> MetaClash
        requires held { IsSome (part_at self.now.contents id.now parts.Metadata) }
        requires size { length room.old
            ≡ length (unwrap_or (part_at self.now.contents id.now parts.Metadata) []) }
        requires other { part_at self.now.contents id.now parts.Metadata
            ≡ Some (metadata_text (metadata_shown m))
            → ⊥ }
        requires identifier { id.now.0 ≡ identifier_of H.digest (metadata_shown m) }
        ensures collision { IsCollision H.digest result.left result.right }
        ensures texts { (held : BlobMetadata)
            × HoldsMetadata (parts_at self.now.contents id.now) held
            × AreDigestedFor H.digest (metadata_shown m.entry) held result.left result.right }
    {
        self.copy_metadata(id, room);
        let other = self.held_metadata(id, room);
        collide_metadata::<H>(m, other)
    }

    /// What is made of a metadata beside the one that is held.
    fn compare(&self, id: &BlobId, m: MetaRef<'_>) -> PutAnswer
        requires held { IsSome (part_at self.now.contents id.now parts.Metadata) }
        requires identifier { id.now.0 ≡ identifier_of H.digest (metadata_shown m) }
        ensures { Compares H.digest (part_at self.now.contents id.now parts.Metadata)
            (metadata_shown m.entry) result }
    {
        if self.holds_bytes(id, Part::Metadata, m.bytes()) {
            return PutAnswer::Held;
        }
        let mut room = [0; MOST_METADATA];
        let size = self.metadata_size(id);
        PutAnswer::OtherMetadata(self.clash_in(id, m, &mut room[..size]))
    }

    /// Takes a metadata.
    pub(crate) fn put_metadata(&mut self, ledger: &Ledger, m: MetaRef<'_>) -> PutAnswer
        ensures puts { PutsOrWants H.digest K.may_want (desk self.old ledger.now.log)
            self.old.contents (Metadata (metadata_shown m.entry)) result self.new.contents }
        ensures texts { ShowsTexts H.digest self.old.contents
            (Metadata (metadata_shown m.entry)) result }
        ensures place { self.new ≡ with_contents self.old self.new.contents }
    {
        self.sound();
        let id = identify::<H>(m);
        if !ledger.live(&id) {
            return PutAnswer::Unregistered;
        }
        if m.f() != self.f {
            return PutAnswer::Unverified;
        }
        if self.has(&id, Part::Metadata) {
            return self.compare(&id, m);
        }
        self.store(&id, Part::Metadata, m.bytes())
    }

    /// Whether a sliver is the shard's own, and the metadata that is held, whose size the room has,
    /// commits it. One that is held is not hashed again.
    fn sliver_verifies_in(
        &self,
        work: &mut Work,
        id: &BlobId,
        sliver: &SliverRef<'_>,
        room: &mut [u8],
    ) -> bool
        requires held { IsSome (part_at self.now.contents id.now parts.Metadata) }
        requires size { length room.old
            ≡ length (unwrap_or (part_at self.now.contents id.now parts.Metadata) []) }
        requires f { work.old.f ≡ self.now.f }
        ensures verifies { IsTrue result
            ↔ Verifies H.digest self.now.f self.now.index (parts_at self.now.contents id.now)
            (Sliver id.now.0 sliver.now.axis sliver.now.index sliver.now.bytes.now) }
        ensures f { work.new.f ≡ work.old.f }
    {
        self.sound();
        self.copy_metadata(id, room);
        let m = self.held_metadata(id, room);
        let part = sliver_part(sliver.axis);
        sliver.index == m.held(sliver.axis, self.index)
            && (self.holds_bytes(id, part, sliver.bytes)
                || sliver_holds::<H>(work, m, sliver.axis, sliver.index, sliver.bytes))
    }

    /// Whether a sliver is the shard's own, and the metadata that is held commits it.
    fn sliver_verifies(&self, work: &mut Work, id: &BlobId, sliver: &SliverRef<'_>) -> bool
        requires held { IsSome (part_at self.now.contents id.now parts.Metadata) }
        requires f { work.old.f ≡ self.now.f }
        ensures verifies { IsTrue result
            ↔ Verifies H.digest self.now.f self.now.index (parts_at self.now.contents id.now)
            (Sliver id.now.0 sliver.now.axis sliver.now.index sliver.now.bytes.now) }
        ensures f { work.new.f ≡ work.old.f }
    {
        let size = self.metadata_size(id);
        with_room!(size, room => self.sliver_verifies_in(work, id, sliver, &mut room[..size]))
    }

    /// Takes a sliver.
    pub(crate) fn put_sliver(
        &mut self,
        work: &mut Work,
        ledger: &Ledger,
        id: &BlobId,
        sliver: &SliverRef<'_>,
    ) -> PutAnswer
        requires f { work.old.f ≡ self.old.f }
        ensures puts { PutsOrWants H.digest K.may_want
            (desk self.old ledger.now.log) self.old.contents
            (Sliver id.now.0 sliver.now.axis sliver.now.index sliver.now.bytes.now)
            result self.new.contents }
        ensures place { self.new ≡ with_contents self.old self.new.contents }
        ensures f { work.new.f ≡ work.old.f }
    {
        self.sound();
        if !ledger.live(id) {
            return PutAnswer::Unregistered;
        }
        if !self.has(id, Part::Metadata) {
            return PutAnswer::NoMetadata;
        }
        if !self.sliver_verifies(work, id, sliver) {
            return PutAnswer::Unverified;
        }
        let part = sliver_part(sliver.axis);
        if self.has(id, part) {
            return PutAnswer::Held;
        }
        self.store(id, part, sliver.bytes)
    }

    /// Whether a proof is bad for the metadata that is held, whose size the room has. One that is
    /// held is not checked.
    fn proof_verifies_in(
        &self,
        work: &mut Work,
        id: &BlobId,
        p: &ProofRef<'_>,
        room: &mut [u8],
    ) -> bool
        requires held { IsSome (part_at self.now.contents id.now parts.Metadata) }
        requires size { length room.old
            ≡ length (unwrap_or (part_at self.now.contents id.now parts.Metadata) []) }
        requires f { work.old.f ≡ self.now.f }
        ensures verifies { IsTrue result
            ↔ Verifies H.digest self.now.f self.now.index
            (parts_at self.now.contents id.now) (Proof id.now.0 (proof_shown p.now)) }
        ensures f { work.new.f ≡ work.old.f }
    {
        self.sound();
        self.copy_metadata(id, room);
        let m = self.held_metadata(id, room);
        self.holds_bytes(id, Part::Proof, p.bytes()) || is_bad_proof::<H>(work, m, p)
    }

    /// Whether a proof is bad for the metadata that is held.
    fn proof_verifies(&self, work: &mut Work, id: &BlobId, p: &ProofRef<'_>) -> bool
        requires held { IsSome (part_at self.now.contents id.now parts.Metadata) }
        requires f { work.old.f ≡ self.now.f }
        ensures verifies { IsTrue result
            ↔ Verifies H.digest self.now.f self.now.index
            (parts_at self.now.contents id.now) (Proof id.now.0 (proof_shown p.now)) }
        ensures f { work.new.f ≡ work.old.f }
    {
        let size = self.metadata_size(id);
        with_room!(size, room => self.proof_verifies_in(work, id, p, &mut room[..size]))
    }

    /// Takes a proof.
    pub(crate) fn put_proof(
        &mut self,
        work: &mut Work,
        ledger: &Ledger,
        id: &BlobId,
        p: &ProofRef<'_>,
    ) -> PutAnswer
        requires f { work.old.f ≡ self.old.f }
        ensures puts { PutsOrWants H.digest K.may_want
            (desk self.old ledger.now.log) self.old.contents
            (Proof id.now.0 (proof_shown p.now)) result self.new.contents }
        ensures place { self.new ≡ with_contents self.old self.new.contents }
        ensures f { work.new.f ≡ work.old.f }
    {
        self.sound();
        if !ledger.live(id) {
            return PutAnswer::Unregistered;
        }
        if !self.has(id, Part::Metadata) {
            return PutAnswer::NoMetadata;
        }
        if !self.proof_verifies(work, id, p) {
            return PutAnswer::Unverified;
        }
        if self.has(id, Part::Proof) {
            return PutAnswer::Held;
        }
        self.store(id, Part::Proof, p.bytes())
    }
}
