//! The shard.

ghost use Rattle.std.specs.Prelude.{◌≡◌, ◌↔◌, ℕ, ◌+◌, ◌<◌, ◌≤◌, List, Some, IsTrue, IfOk, false};
ghost use Rattle.std.specs.Prelude.{is_some};
ghost use Rattle.std.specs.FinMap as map;
ghost use Rattle.wal_shape.specs.Shape.{shard_count};
ghost use Rattle.wal_shape.specs.MetaRef.{metadata_shown};
ghost use Rattle.wal_shape.specs.Spelling.{metadata_text};
ghost use Rattle.wal_shape.specs.declared.part.Part.TheVariants as parts;
ghost use Rattle.wal_shape.specs.Part.{sliver_part};
ghost use Rattle.wal_store.specs.Contents.{parts_at, part_at};
ghost use Rattle.wal_frame.specs.Shown.{frame_shown};
ghost use Rattle.wal_ledger.specs.declared.entry.Kind.TheVariants.{Holds, Denies};
ghost use Rattle.wal_ledger.specs.Ledger.{MustHold};
ghost use Rattle.wal_shard.specs.declared.answers.PutAnswer.TheVariants.{Unverified};
ghost use Rattle.wal_shard.specs.Holding.{IsSound, SymbolReplies, read_reply_of, settled};
ghost use Rattle.wal_shard.specs.Putting.{CanBePut, PutsOrWants, ShowsTexts};
ghost use Rattle.wal_shard.specs.Vouching.{Vouches, IsReady};
ghost use Rattle.wal_shard.specs.inside.Vouching.{MayVouch};
ghost use Rattle.wal_shard.specs.Replying.{WritesReply, room_of};
ghost use Rattle.wal_shard.specs.State.{ShardState, IsPlace, AreSound, desk, with_contents};

use crate::answers::{AckRefusal, PutAnswer};
use crate::putting::sliver_part;
use std::alloc::{AllocError, Global};
use std::marker::{Model, PhantomData};
use wal_frame::{FrameRef, OutBuf};
use wal_ledger::Ledger;
use wal_matrix::Work;
use wal_shape::{Axis, BlobId, MetaRef};
use wal_store::{Keep, MapKeep, Part};
use wal_tree::Hash32;

/// A shard of a committee: what it holds, all of which is verified.
///
/// What is held under an identifier is sound: a metadata of the committee's f that the identifier
/// commits, and only beside one, slivers of the shard's own indices that it commits and a proof
/// that is bad for it.
#[derive(Drop)]
pub struct Shard<H: Hash32, K: Keep> {
    pub(crate) f: u32,
    pub(crate) index: u16,
    pub(crate) keep: K,
    digest: PhantomData<H>,
}

impl<H: Hash32, K: Keep> Model for Shard<H, K> {
    ghost use Rattle.wal_shard.specs.State.{ShardState, IsPlace, AreSound};
    ghost use Rattle.wal_shard.specs.inside.State.{shard_code};

    ghost Value = { ShardState };

    ghost coded = { shard_code };

    ghost view = { λ s.
        record { f = s.f; index = s.index; contents = K.contents s.keep; limit = K.limit s.keep } };

    ghost invariant = { λ s. IsPlace s.f s.index
        × AreSound H.digest s.f s.index (K.contents s.keep) };
}

impl<H: Hash32, K: Keep> Shard<H, K> {
    /// A shard of a committee of `3f + 1`, with an empty keep. Takes no memory.
    pub fn create(f: u32, index: u16, keep: K) -> Shard<H, K>
        requires some { 1 ≤ f }
        requires few { f ≤ 333 }
        requires index { index < shard_count f }
        requires empty { K.contents keep ≡ map.empty }
        ensures { result
            ≡ record { f = f; index = index; contents = map.empty; limit = K.limit keep } }
    {
        Shard {
            f,
            index,
            keep,
            digest: PhantomData,
        }
    }

    /// The most faulty shards of the committee.
    pub fn f(&self) -> u32
        ensures value { result ≡ self.now.f }
        ensures place { IsPlace self.now.f self.now.index }
    {
        self.f
    }

    /// The shard's number.
    pub fn index(&self) -> u16
        ensures value { result ≡ self.now.index }
        ensures place { IsPlace self.now.f self.now.index }
    {
        self.index
    }

    /// Hands back the keep, with what it holds.
    pub fn close(self) -> K
        ensures contents { K.contents result ≡ self.contents }
        ensures limit { K.limit result ≡ self.limit }
        ensures sound { AreSound H.digest self.f self.index self.contents }
    {
        self.keep
    }

    /// Whether metadata is held, and both slivers or a proof.
    pub fn settled(&self, id: &BlobId) -> bool
        ensures value { result ≡ settled (parts_at self.now.contents id.now) }
        // What is held under the identifier is sound.
        ensures sound { IsSound H.digest self.now.f id.now.0
            self.now.index (parts_at self.now.contents id.now) }
    {
        self.sound();
        self.has(id, Part::Metadata)
            && (self.has(id, Part::Primary) && self.has(id, Part::Secondary)
                || self.has(id, Part::Proof))
    }

    /// Whether this metadata is held.
    pub fn holds_metadata(&self, id: &BlobId, m: MetaRef<'_>) -> bool
        ensures { IsTrue result
            ↔ (part_at self.now.contents id.now parts.Metadata
            ≡ Some (metadata_text (metadata_shown m.entry))) }
    {
        self.holds_bytes(id, Part::Metadata, m.bytes())
    }

    /// Whether a sliver of an axis is held.
    pub fn holds_sliver(&self, id: &BlobId, axis: Axis) -> bool
        ensures { result ≡ is_some (part_at self.now.contents id.now (sliver_part axis)) }
    {
        self.has(id, sliver_part(axis))
    }

    /// Whether the shard says that it holds its slivers of a blob.
    pub fn acknowledge(&self, ledger: &Ledger, id: &BlobId) -> Result<(), AckRefusal>
        ensures { Vouches Holds ledger.now.log self.now.contents id.now result }
    {
        may_claim(ledger, id)?;
        if self.has(id, Part::Metadata)
            && self.has(id, Part::Primary)
            && self.has(id, Part::Secondary)
        {
            Ok(())
        } else {
            Err(AckRefusal::Declined)
        }
    }

    /// Whether the shard says that a blob is badly encoded.
    pub fn attest(&self, ledger: &Ledger, id: &BlobId) -> Result<(), AckRefusal>
        ensures { Vouches Denies ledger.now.log self.now.contents id.now result }
    {
        may_claim(ledger, id)?;
        if self.has(id, Part::Metadata) && self.has(id, Part::Proof) {
            Ok(())
        } else {
            Err(AckRefusal::Declined)
        }
    }

    /// Takes metadata, a sliver or a proof, if it verifies over what is held. The first case that
    /// applies is answered: `Unregistered`, `NoMetadata`, `Unverified`, `OtherMetadata`, `Held`,
    /// `Full`, `Stored`; a keep that may want memory may have `Memory` in place of the last two. A
    /// frame that carries no part is `Unverified`, whatever it names.
    pub fn put(&mut self, work: &mut Work, ledger: &Ledger, frame: &FrameRef<'_>) -> PutAnswer
        requires f { work.old.f ≡ self.old.f }
        ensures puts { CanBePut (frame_shown frame.now)
            → PutsOrWants H.digest K.may_want (desk self.old ledger.now.log)
            self.old.contents (frame_shown frame.now) result self.new.contents }
        ensures unfit { (CanBePut (frame_shown frame.now) → ⊥)
            → (result ≡ Unverified) × (self.new ≡ self.old) }
        // The left text of a collision is the put metadata's, and the right one the held
        // metadata's.
        ensures texts { ShowsTexts H.digest self.old.contents (frame_shown frame.now) result }
        ensures place { self.new ≡ with_contents self.old self.new.contents }
        ensures f { work.new.f ≡ work.old.f }
    {
        match *frame {
            FrameRef::Metadata(m) | FrameRef::Metadata2(m) => self.put_metadata(ledger, m),
            FrameRef::Sliver { id, sliver } => self.put_sliver(work, ledger, &id, &sliver),
            FrameRef::Proof { id, body } => self.put_proof(work, ledger, &id, &body),
            _ => PutAnswer::Unverified,
        }
    }

    /// Whether a blob is not settled that must be held.
    fn owes(&self, ledger: &Ledger, id: &BlobId) -> bool
        ensures { IsTrue result
            ↔ (MustHold ledger.now.log id.now
            × (settled (parts_at self.now.contents id.now) ≡ false)) }
    {
        ledger.must_hold(id) && !self.settled(id)
    }

    /// Whether everything is settled that the next committee must hold.
    pub fn ready(&self, ledger: &Ledger) -> bool
        ensures { IsTrue result ↔ IsReady ledger.now.log self.now.contents }
    {
        for place in 0..ledger.live_count() {
            let id = ledger.live_at(place);
            if self.owes(ledger, &id) {
                return false;
            }
        }
        true
    }

    /// Appends what is held of metadata, primary sliver and proof, each in an envelope from this
    /// shard.
    /// The result is their number. Takes no memory.
    pub fn read_reply(&self, work: &mut Work, id: &BlobId, out: &mut OutBuf) -> u32
        requires f { work.old.f ≡ self.now.f }
        requires room { room_of self.now.f ≤ out.old.spare }
        ensures reply { WritesReply self.now.index out.old
            (read_reply_of id.now.0 self.now.index (parts_at self.now.contents id.now))
            result out.new }
        // No reply is longer.
        ensures room { out.old.spare ≤ out.new.spare + room_of self.now.f }
        ensures f { work.new.f ≡ work.old.f }
    {
        self.reply_metadata(id, out) + self.reply_primary(id, out) + self.reply_proof(id, out)
    }

    /// Appends the metadata that is held, the opening of the sliver of this axis and index that the
    /// shard's crossing sliver gives, and the proof that is held, each in an envelope from this
    /// shard. The result is their number. Takes no memory.
    pub fn symbol_reply(
        &self,
        work: &mut Work,
        id: &BlobId,
        axis: Axis,
        index: u16,
        out: &mut OutBuf,
    ) -> u32
        requires f { work.old.f ≡ self.now.f }
        requires room { room_of self.now.f ≤ out.old.spare }
        ensures reply { (payloads : List (List ℕ))
            × SymbolReplies H.digest id.now.0 self.now.index
            (parts_at self.now.contents id.now) axis index payloads
            × WritesReply self.now.index out.old payloads result out.new }
        // No reply is longer.
        ensures room { out.old.spare ≤ out.new.spare + room_of self.now.f }
        ensures f { work.new.f ≡ work.old.f }
    {
        self.reply_metadata(id, out)
            + self.reply_opening(work, id, axis, index, out)
            + self.reply_proof(id, out)
    }
}

impl<H: Hash32> Shard<H, MapKeep> {
    /// A shard of the same holdings, in memory of its own.
    pub fn duplicate(&self, alloc: Global) -> Result<Shard<H, MapKeep>, AllocError>
        ensures { IfOk result (λ copy. copy ≡ self.now) }
    {
        Ok(Shard {
            f: self.f,
            index: self.index,
            keep: self.keep.duplicate(alloc)?,
            digest: PhantomData,
        })
    }
}

/// Whether the ledger lets a shard say something of a blob.
fn may_claim(ledger: &Ledger, id: &BlobId) -> Result<(), AckRefusal>
    ensures { MayVouch ledger.now.log id.now result }
{
    match ledger.until(id) {
        None => Err(AckRefusal::Unregistered),
        Some(until) => {
            if until <= ledger.writing_epoch() {
                Err(AckRefusal::Expires)
            } else {
                Ok(())
            }
        }
    }
}
