//! What a writer sends to the shards.

ghost use Rattle.std.specs.Prelude.{◌≡◌, ◌*◌, ◌<◌, ◌≤◌, ◌↔◌, length, map, IfOk};
ghost use Rattle.std.specs.List.{AllByRecursion};
ghost use Rattle.wal_shape.specs.MetaRef.{metadata_shown};
ghost use Rattle.wal_shape.specs.Metadata.{IsMetadata};
ghost use Rattle.wal_shape.specs.Shape.{IsShape, shard_count, most_bytes};
ghost use Rattle.wal_shape.specs.declared.axis.Axis.TheVariants.{Primary, Secondary};
ghost use Rattle.wal_commit.specs.Identifier.{Commits, IsMetadataOf};
ghost use Rattle.wal_frame.specs.Frame.{Metadata as metadata_of_blob, Sliver as sliver_of_blob};
ghost use Rattle.wal_frame.specs.Frame.{frame_text};
ghost use Rattle.wal_frame.specs.Shown.{frame_shown, IsLentKind};
ghost use Rattle.wal_frame.specs.Stream.{IsPayload};
ghost use Rattle.wal_writer.specs.Message.{IsMessageOf, messages_of, sliver_for};
ghost use Rattle.wal_writer.specs.declared.write.StartError.TheVariants.{BadFaults, TooLong};

use std::alloc::{AllocError, Global};
use std::marker::{Model, PhantomData};
use wal_commit::{identify, metadata_of};
use wal_frame::{FrameRef, frame_bytes};
use wal_matrix::{Encoded, extend};
use wal_shape::{
    Axis, BlobId, Bytes, Format, MetaRef, Metadata, Payloads, Shape, ShapeError, SliverRef,
};
use wal_tree::Hash32;

/// Why a blob is not written.
#[derive(Clone, Copy, Debug, PartialEq, Eq)]
pub enum StartError {
    /// The number of faults is not from 1 to 333.
    BadFaults,
    /// The blob is longer than 16,777,216 bytes (16 MiB).
    TooLong,
    /// Memory ran out.
    Memory,
}

impl From<AllocError> for StartError {
    ghost use Rattle.std.specs.Prelude.{◌≡◌};
    ghost use Rattle.wal_writer.specs.declared.write.StartError.TheVariants.{Memory};

    ghost from_gives = { λ _ e. e ≡ Memory };

    fn from(_e: AllocError) -> StartError {
        StartError::Memory
    }
}

/// A blob that is written: its extended matrix, its metadata and its identifier.
#[derive(Drop)]
pub struct Write<H: Hash32> {
    encoded: Encoded,
    metadata: Metadata,
    id: BlobId,
    digest: PhantomData<H>,
}

impl<H: Hash32> Model for Write<H> {
    ghost use Rattle.wal_writer.specs.Message.{Written};
    ghost use Rattle.wal_writer.specs.inside.Message.{IsWritten};

    ghost Value = { Written };

    ghost view = { λ w. record { id = w.id; metadata = w.metadata; cells = w.encoded.cells } };

    ghost invariant = { λ w.
        IsWritten H.digest w.encoded.shape
        (record { id = w.id; metadata = w.metadata; cells = w.encoded.cells }) };
}

/// The shape of a blob.
fn shape_of(f: u32, format: Format, length: u64) -> Result<Shape, StartError>
    ensures shape { IfOk result
        (λ s. (s ≡ record { format = format; f = f; length = length }) × IsShape f length) }
    ensures bad_faults { (result ≡ Err BadFaults) ↔ ¬ ((1 ≤ f) × (f ≤ 333)) }
    ensures too_long { (result ≡ Err TooLong) ↔ ((1 ≤ f) × (f ≤ 333) × (most_bytes < length)) }
{
    match Shape::new(f, length) {
        Ok(shape) => Ok(shape.with_format(format)),
        Err(ShapeError::BadFaults) => Err(StartError::BadFaults),
        Err(ShapeError::TooLong) => Err(StartError::TooLong),
    }
}

/// The frame of a metadata.
fn lent_metadata<'a>(m: MetaRef<'a>) -> FrameRef<'a>
    ensures shown { frame_shown result ≡ metadata_of_blob (metadata_shown m.entry) }
    ensures kind { IsLentKind result }
{
    match m.format() {
        Format::One => FrameRef::Metadata(m),
        Format::Two => FrameRef::Metadata2(m),
    }
}

/// The frame of a sliver, as bytes.
#[tactic(auto, using(crate::proofs::Messages::sliver_payload))]
fn sliver_text(alloc: Global, id: BlobId, sliver: SliverRef<'_>) -> Result<Bytes, AllocError>
    requires index { sliver.index ≤ 999 }
    requires size { length sliver.bytes.now ≤ most_bytes }
    ensures text { IfOk result (λ text. text ≡ frame_text (sliver_of_blob
        id.0 sliver.entry.axis sliver.entry.index sliver.entry.bytes.now)) }
    ensures fits { IfOk result IsPayload }
{
    frame_bytes(alloc, &FrameRef::Sliver { id, sliver })
}

impl<H: Hash32> Write<H> {
    /// Begins to write a blob among `3f + 1` shards, of which at most `f` are faulty: its extended
    /// matrix, its metadata and its identifier.
    pub fn start(
        alloc: Global,
        f: u32,
        format: Format,
        bytes: &[u8],
    ) -> Result<Write<H>, StartError>
        ensures message { IfOk result
            (λ w. IsMessageOf H.digest f format bytes.now w.id (messages_of w)) }
        ensures metadata { IfOk result (λ w. IsMetadataOf H.digest format f bytes.now w.metadata) }
        ensures faults { IfOk result (λ w. w.metadata.f ≡ f) }
        ensures bad_faults { (result ≡ Err BadFaults) ↔ ¬ ((1 ≤ f) × (f ≤ 333)) }
        ensures too_long { (result ≡ Err TooLong)
            ↔ ((1 ≤ f) × (f ≤ 333) × (most_bytes < length bytes.now)) }
    {
        let shape = shape_of(f, format, bytes.len() as u64)?;
        let encoded = extend(alloc, &shape, bytes)?;
        let metadata = metadata_of::<H>(alloc, &encoded)?;
        let id = identify::<H>(metadata.view());
        Ok(Write {
            encoded,
            metadata,
            id,
            digest: PhantomData,
        })
    }

    /// The blob's identifier.
    pub fn id(&self) -> BlobId
        ensures value { result ≡ self.now.id }
        ensures commits { Commits H.digest self.now.id.0 self.now.metadata }
    {
        self.id
    }

    /// The blob's metadata.
    pub fn metadata(&self) -> &Metadata
        ensures value { result.now ≡ self.now.metadata }
        ensures metadata { IsMetadata self.now.metadata }
    {
        &self.metadata
    }

    /// The frames for a shard: the metadata, and the primary and the secondary sliver that the
    /// shard holds.
    pub fn message(&self, alloc: Global, shard: u16) -> Result<Payloads, AllocError>
        requires { shard < shard_count self.now.metadata.f }
        ensures frames { IfOk result
            (λ payloads. payloads ≡ map frame_text (messages_of self.now shard)) }
        // They fit in envelopes.
        ensures fit { IfOk result (λ payloads. AllByRecursion IsPayload payloads) }
    {
        let mut payloads = Vec::with_capacity(alloc, 3)?;
        payloads.push(self.metadata_text(alloc)?)?;
        payloads.push(self.primary_text(alloc, shard)?)?;
        payloads.push(self.secondary_text(alloc, shard)?)?;
        Ok(Payloads::from_vec(payloads))
    }

    /// The frame of the metadata.
    #[tactic(auto, using(crate::proofs::Messages::metadata_payload))]
    fn metadata_text(&self, alloc: Global) -> Result<Bytes, AllocError>
        ensures text { IfOk result
            (λ text. text ≡ frame_text (metadata_of_blob self.now.metadata)) }
        ensures fits { IfOk result IsPayload }
    {
        frame_bytes(alloc, &lent_metadata(self.metadata.view()))
    }

    /// The frame of the primary sliver that a shard holds.
    fn primary_text(&self, alloc: Global, shard: u16) -> Result<Bytes, AllocError>
        requires { shard < shard_count self.now.metadata.f }
        ensures text { IfOk result (λ text. text ≡ frame_text (sliver_for
            self.now.metadata self.now.id.0 self.now.cells Primary shard)) }
        ensures fits { IfOk result IsPayload }
    {
        let index = self.metadata.view().held(Axis::Primary, shard);
        let sliver = SliverRef {
            axis: Axis::Primary,
            index,
            bytes: self.encoded.primary(index),
        };
        sliver_text(alloc, self.id, sliver)
    }

    /// The frame of the secondary sliver that a shard holds.
    fn secondary_text(&self, alloc: Global, shard: u16) -> Result<Bytes, AllocError>
        requires { shard < shard_count self.now.metadata.f }
        ensures text { IfOk result (λ text. text ≡ frame_text (sliver_for
            self.now.metadata self.now.id.0 self.now.cells Secondary shard)) }
        ensures fits { IfOk result IsPayload }
    {
        let index = self.metadata.view().held(Axis::Secondary, shard);
        let size = self.encoded.shape().sliver_len(Axis::Secondary);
        let mut bytes = vec![in alloc; 0u8; size as usize]?;
        self.encoded.secondary(index, &mut bytes);
        let sliver = SliverRef {
            axis: Axis::Secondary,
            index,
            bytes: &bytes,
        };
        sliver_text(alloc, self.id, sliver)
    }
}
