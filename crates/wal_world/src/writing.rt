//! An honest writer writes a blob.

ghost use Rattle.std.specs.Prelude.{◌≡◌, ◌<◌, ◌≤◌, ◌∷◌, ℕ, [], cond, length, ◌&&◌, Some, IsTrue};
ghost use Rattle.std.specs.Prelude.{is_some, true, IfOk, OnOk};
ghost use Rattle.std.specs.List.{AllByRecursion};
ghost use Rattle.wal_shape.specs.Owners.{is_ascending};
ghost use Rattle.wal_shape.specs.Shape.{most_bytes};
ghost use Rattle.wal_frame.specs.Frame.{IsFrame};
ghost use Rattle.wal_frame.specs.Shown.{frame_shown};
ghost use Rattle.wal_ledger.specs.Shards.{committee_size};
ghost use Rattle.wal_store.specs.Contents.{part_at};
ghost use Rattle.wal_shape.specs.declared.part.Part.TheVariants as parts;
ghost use Rattle.wal_shard.specs.Putting.{CanBePut};
ghost use Rattle.wal_writer.specs.Message.{messages_of};
ghost use Rattle.wal_protocol.specs.State.{held, is_correct, is_present, side_of, writing_side};
ghost use Rattle.wal_theorem.specs.Instance.{has_frames, rules_of};
ghost use Rattle.wal_world.specs.inside.Network.{IsNetwork, world_of};
ghost use Rattle.wal_world.specs.inside.Letters.{AreParts, IsStarted, PutsTo, SpellsPart};
ghost use Rattle.wal_world.specs.inside.Letters.{TellsClash, addressed, frame_in, letters_in};
ghost use Rattle.wal_world.specs.inside.Replies.{AreBacked};
ghost use Rattle.wal_protocol.specs.Step.{WriteCollides, WriteStep, letters, stored_at};
ghost use Rattle.wal_world.specs.inside.Taken.{IsAnswered, IsTaken};

use crate::network::Network;
use crate::taken::{Taken, clash_texts};
use std::alloc::{AllocError, Global};
use wal_frame::{FrameRef, read_frame};
use wal_protocol::First;
use wal_shape::{Axis, BlobId, Bytes, Collision, Side};
use wal_shard::{PutAnswer, Shard};
use wal_store::MapKeep;
use wal_tree::Hash32;
use wal_writer::{StartError, Write};

/// What became of a blob that was written.
#[derive(Clone, Copy)]
pub(crate) struct Stored {
    /// The blob's identifier.
    pub(crate) id: BlobId,
    /// How many correct ones of the shards hold what was sent to them.
    pub(crate) count: u32,
}

/// The frame that these bytes spell, which may be put.
fn frame_of(bytes: &[u8]) -> FrameRef<'_>
    requires { SpellsPart bytes.now }
    ensures value { frame_shown result ≡ frame_in bytes.now }
    ensures part { CanBePut (frame_shown result) }
    ensures frame { IsFrame (frame_shown result) }
{
    match read_frame(bytes) {
        Ok(frame) => frame,
        Err(_) => unreachable!(),
    }
}

/// The two texts with one digest that a shard's answer tells of.
fn clash_told(alloc: Global, answer: PutAnswer) -> Result<Option<Collision>, AllocError>
    requires { IsAnswered answer }
    ensures { IfOk result (TellsClash answer) }
{
    match answer {
        PutAnswer::OtherMetadata(clash) => Ok(Some(clash_texts(alloc, &clash)?)),
        PutAnswer::Stored
        | PutAnswer::Held
        | PutAnswer::Unregistered
        | PutAnswer::NoMetadata
        | PutAnswer::Unverified => Ok(None),
        PutAnswer::Full { .. } | PutAnswer::Memory => unreachable!(),
    }
}

/// Whether a shard holds slivers of both axes.
fn holds_slivers<H: Hash32>(holder: &Shard<H, MapKeep>, id: &BlobId) -> bool
    ensures { result
        ≡ (is_some (part_at holder.now.contents id.now parts.Primary)
        && is_some (part_at holder.now.contents id.now parts.Secondary)) }
{
    holder.holds_sliver(id, Axis::Primary) && holder.holds_sliver(id, Axis::Secondary)
}

impl<H: Hash32> Network<H> {
    /// Puts the frame that these bytes spell to a shard of a side. The result is two texts with one
    /// digest where the shard holds another metadata.
    fn put_text(
        &mut self,
        alloc: Global,
        at: Side,
        shard: u16,
        bytes: &[u8],
    ) -> Result<Option<Collision>, AllocError>
        requires network { IsNetwork self.old }
        requires present { is_present at (world_of self.old) ≡ true }
        requires shard { shard < committee_size (world_of self.old).log.f }
        requires spells { SpellsPart bytes.now }
        ensures network { OnOk result (IsNetwork self.new) }
        ensures books { OnOk result (self.new.books ≡ self.old.books) }
        ensures puts { IfOk result
            (λ clash. PutsTo H.digest (world_of self.old) at
            ((shard, frame_in bytes.now) ∷ []) clash (world_of self.new)) }
    {
        let frame = frame_of(bytes);
        match self.put_at(at, shard, &frame) {
            Ok(answer) => clash_told(alloc, answer),
            Err(e) => Err(e),
        }
    }

    /// Puts the frames that these texts spell to a shard of a side, up to the first that finds
    /// another metadata held.
    fn put_texts(
        &mut self,
        alloc: Global,
        at: Side,
        shard: u16,
        texts: &[Bytes],
    ) -> Result<Option<Collision>, AllocError>
        requires network { IsNetwork self.old }
        requires present { is_present at (world_of self.old) ≡ true }
        requires shard { shard < committee_size (world_of self.old).log.f }
        requires spell { AllByRecursion SpellsPart texts.now }
        ensures network { OnOk result (IsNetwork self.new) }
        ensures books { OnOk result (self.new.books ≡ self.old.books) }
        ensures puts { IfOk result
            (λ clash. PutsTo H.digest (world_of self.old) at
            (letters_in shard texts.now) clash (world_of self.new)) }
    {
        for text in texts {
            if let Some(clash) = self.put_text(alloc, at, shard, text.as_slice())? {
                return Ok(Some(clash));
            }
        }
        Ok(None)
    }

    /// Puts what a writer sends to a shard of a side, if that is correct.
    fn put_message(
        &mut self,
        alloc: Global,
        at: Side,
        shard: u16,
        write: &Write<H>,
    ) -> Result<Option<Collision>, AllocError>
        requires network { IsNetwork self.old }
        requires present { is_present at (world_of self.old) ≡ true }
        requires shard { shard < committee_size (world_of self.old).log.f }
        requires parts { AreParts write.now shard }
        requires faults { write.now.metadata.f ≡ (world_of self.old).log.f }
        ensures network { OnOk result (IsNetwork self.new) }
        ensures books { OnOk result (self.new.books ≡ self.old.books) }
        ensures puts { IfOk result (λ clash. PutsTo H.digest (world_of self.old) at
            (cond (is_correct at (world_of self.old) shard)
            (addressed shard (messages_of write.now shard)) [])
            clash (world_of self.new)) }
    {
        if !self.correct(at, shard) {
            return Ok(None);
        }
        let payloads = write.message(alloc, shard)?;
        self.put_texts(alloc, at, shard, payloads.as_slice())
    }

    /// Puts what a writer sends to the correct ones of these shards of a side.
    fn put_messages(
        &mut self,
        alloc: Global,
        at: Side,
        write: &Write<H>,
        to: &[u16],
    ) -> Result<Option<Collision>, AllocError>
        requires network { IsNetwork self.old }
        requires present { is_present at (world_of self.old) ≡ true }
        requires to { AllByRecursion (λ s. s < committee_size (world_of self.old).log.f) to.now }
        requires parts { (shard : ℕ) → shard < committee_size (world_of self.old).log.f
            → AreParts write.now shard }
        requires faults { write.now.metadata.f ≡ (world_of self.old).log.f }
        ensures network { OnOk result (IsNetwork self.new) }
        ensures books { OnOk result (self.new.books ≡ self.old.books) }
        ensures puts { IfOk result (λ clash. PutsTo H.digest (world_of self.old) at
            (letters (world_of self.old) at (messages_of write.now) to.now)
            clash (world_of self.new)) }
    {
        for shard in to {
            if let Some(clash) = self.put_message(alloc, at, *shard, write)? {
                return Ok(Some(clash));
            }
        }
        Ok(None)
    }

    /// Whether a shard of a side is correct and holds what a writer sent to it.
    fn stores(&self, at: Side, shard: u16, write: &Write<H>) -> bool
        requires network { IsNetwork self.now }
        requires present { is_present at (world_of self.now) ≡ true }
        requires shard { shard < committee_size (world_of self.now).log.f }
        ensures { result ≡ (is_correct at (world_of self.now) shard
            && has_frames (messages_of write.now shard)
            (held (side_of at (world_of self.now)) shard write.now.id)) }
    {
        if !self.correct(at, shard) {
            return false;
        }
        let id = write.id();
        let holder = self.shard(at, shard);
        holder.holds_metadata(&id, write.metadata().view()) && holds_slivers(holder, &id)
    }

    /// How many of these shards of a side are correct and hold what a writer sent to them.
    fn count_stored(&self, at: Side, write: &Write<H>, to: &[u16]) -> u32
        requires network { IsNetwork self.now }
        requires present { is_present at (world_of self.now) ≡ true }
        requires to { AllByRecursion (λ s. s < committee_size (world_of self.now).log.f) to.now }
        requires few { length to.now ≤ 1000 }
        ensures { result
            ≡ stored_at (rules_of H.digest (world_of self.now).log.f)
            (world_of self.now) at (messages_of write.now) to.now write.now.id }
    {
        let mut count = 0;
        for shard in to {
            if self.stores(at, *shard, write) {
                count += 1;
            }
        }
        count
    }

    /// Begins to write a blob, whose bounds are known to fit.
    fn start(&self, alloc: Global, blob: &[u8]) -> Result<Write<H>, AllocError>
        requires network { IsNetwork self.now }
        requires long { length blob.now ≤ most_bytes }
        ensures { IfOk result
            (IsStarted H.digest (world_of self.now).log.f (world_of self.now).format blob.now) }
    {
        match Write::<H>::start(alloc, self.f(), self.format, blob) {
            Ok(write) => Ok(write),
            Err(StartError::Memory) => Err(AllocError),
            Err(_) => unreachable!(),
        }
    }

    /// Puts what a writer sends for a blob, and compares the blob with the first completed answer.
    fn finish_write(
        &mut self,
        alloc: Global,
        write: &Write<H>,
        blob: &[u8],
        to: &[u16],
    ) -> Result<Taken<Stored>, AllocError>
        requires network { IsNetwork self.old }
        requires backed { AreBacked H.digest (world_of self.old) }
        requires long { length blob.now ≤ most_bytes }
        requires shards { IsTrue (is_ascending (committee_size (world_of self.old).log.f) to.now) }
        requires started { IsStarted H.digest (world_of self.old).log.f
            (world_of self.old).format blob.now write.now }
        ensures network { OnOk result (IsNetwork self.new) }
        ensures books { OnOk result (self.new.books ≡ self.old.books) }
        ensures step { IfOk result (IsTaken H.digest
            (λ s. WriteStep (rules_of H.digest (world_of self.old).log.f)
            (world_of self.old) blob.now to.now s.id s.count (world_of self.new))
            (WriteCollides (rules_of H.digest (world_of self.old).log.f)
            (world_of self.old) blob.now to.now (world_of self.new))) }
    {
        let at = self.writing_side();
        if let Some(clash) = self.put_messages(alloc, at, write, to)? {
            return Ok(Taken::Collision(clash));
        }
        let id = write.id();
        let copy = Bytes::from_vec(Vec::from_slice(alloc, blob)?);
        if let Some(clash) = self.complete(alloc, &id, First::Written(copy))? {
            return Ok(Taken::Collision(clash));
        }
        let count = self.count_stored(at, write, to);
        Ok(Taken::Word(Stored { id, count }))
    }

    /// An honest writer writes a blob to these shards of the committee that takes new blobs.
    pub(crate) fn write(
        &mut self,
        alloc: Global,
        blob: &[u8],
        to: &[u16],
    ) -> Result<Taken<Stored>, AllocError>
        requires network { IsNetwork self.old }
        requires backed { AreBacked H.digest (world_of self.old) }
        requires long { length blob.now ≤ most_bytes }
        requires shards { IsTrue (is_ascending (committee_size (world_of self.old).log.f) to.now) }
        ensures network { OnOk result (IsNetwork self.new) }
        ensures books { OnOk result (self.new.books ≡ self.old.books) }
        ensures step { IfOk result (IsTaken H.digest
            (λ s. WriteStep (rules_of H.digest (world_of self.old).log.f)
            (world_of self.old) blob.now to.now s.id s.count (world_of self.new))
            (WriteCollides (rules_of H.digest (world_of self.old).log.f)
            (world_of self.old) blob.now to.now (world_of self.new))) }
    {
        let write = self.start(alloc, blob)?;
        let written = self.finish_write(alloc, &write, blob, to);
        drop(write);
        written
    }
}
