//! What a shard answers to requests for what it holds.

ghost use Rattle.std.specs.Prelude.{◌≡◌, ℕ, ◌+◌, ◌*◌, ◌%◌, ◌<◌, ◌≤◌, List, [], ◌∷◌, ◌++◌, Some};
ghost use Rattle.std.specs.Prelude.{None, IsSome, length, unwrap_or};
ghost use Rattle.wal_kernel.specs.Region.{region};
ghost use Rattle.wal_shape.specs.MetadataReading.{spelled_format};
ghost use Rattle.wal_shape.specs.declared.part.Part.TheVariants as parts;
ghost use Rattle.wal_shape.specs.declared.opening.Opening as single;
ghost use Rattle.wal_shape.specs.MetaRef.{metadata_shown};
ghost use Rattle.wal_shape.specs.Opening.{IsBody, opening_shown};
ghost use Rattle.wal_shape.specs.Shape.{shard_count, symbol_size, crossing, most_bytes};
ghost use Rattle.wal_commit.specs.Held.{HoldsSliver, IsOpeningOf};
ghost use Rattle.wal_tree.specs.Path.{path_over};
ghost use Rattle.wal_matrix.specs.Tools.{longest_sliver};
ghost use Rattle.wal_store.specs.Parts.{part_of};
ghost use Rattle.wal_store.specs.Contents.{parts_at, part_at};
ghost use Rattle.wal_frame.specs.Buffer.{appended};
ghost use Rattle.wal_frame.specs.Frame.{Opening, envelope, frame_text, metadata_kind};
ghost use Rattle.wal_shape.specs.Part.{sliver_part};
ghost use Rattle.wal_shard.specs.Holding.{OpeningReply, metadata_reply, primary_reply, proof_reply};
ghost use Rattle.wal_shard.specs.Replying.{WritesReply, room_of, sliver_room};
ghost use Rattle.wal_shard.specs.inside.Replying.{metadata_room, proof_room};

use crate::holding::{MOST_METADATA, SHORT_METADATA, with_room};
use crate::putting::sliver_part;
use crate::shard::Shard;
use wal_frame::{FrameRef, OutBuf, sliver_head, write_frame, write_payload};
use wal_matrix::{Work, expand_loaded};
use wal_shape::{Axis, BlobId, MOST_BYTES, MetaRef, OpeningRef, Shape};
use wal_store::{Keep, Part};
use wal_tree::{Hash32, PathBuf, path};

/// The room for the longest reply of a shard.
pub fn reply_room(f: u32) -> u32
    requires some { 1 ≤ f }
    requires few { f ≤ 333 }
    ensures { result ≡ room_of f }
{
    let Ok(shape) = Shape::new(f, MOST_BYTES) else {
        unreachable!()
    };
    111 + 64 * shape.n() + shape.cols() * (2 * shape.symbol_size() + 327)
}

/// What stands before a proof in its frame: the kind and the identifier.
fn proof_head(id: &BlobId) -> [u8; 33]
    ensures { result ≡ 0x13 ∷ id.now.0 }
{
    let mut head = [0x13; 33];
    head[1..].copy_from_slice(&id.0);
    head
}

/// Appends the frame of an opening in an envelope.
fn append_opening(
    out: &mut OutBuf,
    shard: u16,
    id: BlobId,
    axis: Axis,
    index: u16,
    opening: OpeningRef<'_>,
)
    requires index { index ≤ 999 }
    requires body { IsBody (opening_shown opening) }
    requires room { 50 + length opening.symbol.now + length opening.path.now ≤ out.old.spare }
    ensures written { out.new
        ≡ appended out.old
        (envelope shard (frame_text (Opening id.0 axis index (opening_shown opening.entry)))) }
    ensures room { out.old.spare
        ≤ out.new.spare + (50 + length opening.entry.symbol.now + length opening.entry.path.now) }
{
    let frame = FrameRef::Opening {
        id,
        axis,
        index,
        opening,
    };
    write_frame(out, shard, &frame);
}

/// Appends the opening at a place of a codeword.
fn write_opening<H: Hash32>(
    word: &[u8],
    size: u32,
    shard: u16,
    id: BlobId,
    axis: Axis,
    index: u16,
    cross: u16,
    out: &mut OutBuf,
)
    requires piece { 1 ≤ size }
    requires whole { length word.now % size ≡ 0 }
    requires within { length word.now ≤ 1000 * size }
    requires place { size * index + size ≤ length word.now }
    requires index { index ≤ 999 }
    requires cross { cross ≤ 999 }
    requires most { size ≤ most_bytes }
    requires room { 370 + size ≤ out.old.spare }
    ensures written { out.new
        ≡ appended out.old (envelope shard (frame_text (Opening id.0 axis index
        (record {
          cross = cross;
          symbol = region size word.now index;
          path = path_over H.digest size word.now index;
        })))) }
    ensures room { out.old.spare ≤ out.new.spare + (370 + size) }
{
    let mut siblings = PathBuf::create();
    path::<H>(word, size, index, &mut siblings);
    let start = size as usize * index as usize;
    let opening = OpeningRef {
        cross,
        symbol: &word[start..start + size as usize],
        path: siblings.bytes(),
    };
    append_opening(out, shard, id, axis, index, opening);
}

/// Appends the opening that the loaded sliver gives, which the metadata must hold.
fn put_opening<H: Hash32>(
    work: &mut Work,
    m: MetaRef<'_>,
    shard: u16,
    id: &BlobId,
    axis: Axis,
    index: u16,
    cross: u16,
    out: &mut OutBuf,
)
    requires f { work.old.f ≡ (metadata_shown m).f }
    requires sliver { HoldsSliver H.digest (metadata_shown m)
        (crossing axis) cross work.old.loaded }
    requires index { index < shard_count (metadata_shown m).f }
    requires room { 370 + symbol_size (metadata_shown m).f (metadata_shown m).length
        ≤ out.old.spare }
    ensures opening { (o : single.Opening) × (o.cross ≡ cross)
        × IsOpeningOf H.digest (metadata_shown m.entry) axis index work.old.loaded o
        × (out.new
        ≡ appended out.old (envelope shard (frame_text (Opening id.now.0 axis index o)))) }
    ensures room { out.old.spare
        ≤ out.new.spare
        + (370 + symbol_size (metadata_shown m.entry).f (metadata_shown m.entry).length) }
    ensures f { work.new.f ≡ work.old.f }
{
    let size = m.shape().symbol_size();
    let word = expand_loaded(work, axis.crossing(), size);
    write_opening::<H>(word, size, shard, *id, axis, index, cross, out);
}

impl<H: Hash32, K: Keep> Shard<H, K> {
    /// Fills a payload with its head and the bytes of a part.
    fn fill(&self, id: &BlobId, part: Part, head: &[u8], payload: &mut [u8])
        requires held { IsSome (part_at self.now.contents id.now part) }
        requires size { length payload.old
            ≡ length head.now + length (unwrap_or (part_at self.now.contents id.now part) []) }
        ensures { payload.new ≡ head.now ++ unwrap_or (part_at self.now.contents id.now part) [] }
    {
        let (front, rest) = payload.split_at_mut(head.len());
        front.copy_from_slice(head);
        self.keep.copy(id, part, 0, rest);
    }

    /// Appends a payload, a head and the bytes of a part, in an envelope.
    fn write_held(&self, id: &BlobId, part: Part, head: &[u8], size: u32, out: &mut OutBuf)
        requires held { IsSome (part_at self.now.contents id.now part) }
        requires size { size ≡ length (unwrap_or (part_at self.now.contents id.now part) []) }
        requires head { length head.now ≤ 40 }
        requires most { size ≤ most_bytes }
        requires room { 7 + length head.now + size ≤ out.old.spare }
        ensures { out.new
            ≡ appended out.old (envelope self.now.index
            (head.now ++ unwrap_or (part_at self.now.contents id.now part) [])) }
    {
        let payload = write_payload(out, self.index, head.len() as u32 + size);
        self.fill(id, part, head, payload);
    }

    /// The same, and how much room is left.
    fn reply_held(&self, id: &BlobId, part: Part, head: &[u8], size: u32, out: &mut OutBuf)
        requires held { IsSome (part_at self.now.contents id.now part) }
        requires size { size ≡ length (unwrap_or (part_at self.now.contents id.now part) []) }
        requires head { length head.now ≤ 40 }
        requires most { size ≤ most_bytes }
        requires room { 7 + length head.now + size ≤ out.old.spare }
        ensures written { out.new
            ≡ appended out.old (envelope self.now.index
            (head.now ++ unwrap_or (part_at self.now.contents id.now part) [])) }
        ensures room { out.old.spare ≤ out.new.spare + (7 + length head.now + size) }
    {
        self.write_held(id, part, head, size, out);
    }

    /// The kind of a metadata's frame, by the first byte that is held.
    #[tactic(auto, unfolding(wal_shape::specs::MetadataReading::spelled_format))]
    fn held_kind(&self, id: &BlobId) -> u8
        requires held { IsSome (part_at self.now.contents id.now parts.Metadata) }
        requires some { 1
            ≤ length (unwrap_or (part_at self.now.contents id.now parts.Metadata) []) }
        ensures { result
            ≡ metadata_kind
            (spelled_format (unwrap_or (part_at self.now.contents id.now parts.Metadata) [])) }
    {
        let mut first = [0];
        self.keep.copy(id, Part::Metadata, 0, &mut first);
        if first[0] == 2 { 0x14 } else { 0x10 }
    }

    /// Appends the metadata, if it is held. The result is the number of frames.
    pub(crate) fn reply_metadata(&self, id: &BlobId, out: &mut OutBuf) -> u32
        requires room { metadata_room self.now.f ≤ out.old.spare }
        ensures reply { WritesReply self.now.index out.old
            (metadata_reply (parts_at self.now.contents id.now)) result out.new }
        ensures room { out.old.spare ≤ out.new.spare + metadata_room self.now.f }
        ensures most { result ≤ 1 }
    {
        self.sound();
        match self.keep.size(id, Part::Metadata) {
            Some(size) => {
                let head = [self.held_kind(id)];
                self.reply_held(id, Part::Metadata, &head, size, out);
                1
            }
            None => 0,
        }
    }

    /// Appends the primary sliver, if it is held. The result is the number of frames.
    pub(crate) fn reply_primary(&self, id: &BlobId, out: &mut OutBuf) -> u32
        requires room { sliver_room self.now.f ≤ out.old.spare }
        ensures reply { WritesReply self.now.index out.old
            (primary_reply id.now.0 self.now.index (parts_at self.now.contents id.now))
            result out.new }
        ensures room { out.old.spare ≤ out.new.spare + sliver_room self.now.f }
        ensures most { result ≤ 1 }
    {
        self.sound();
        match self.keep.size(id, Part::Primary) {
            Some(size) => {
                let head = sliver_head(id, Axis::Primary, self.index, size);
                self.reply_held(id, Part::Primary, &head, size, out);
                1
            }
            None => 0,
        }
    }

    /// Appends the proof, if it is held. The result is the number of frames.
    pub(crate) fn reply_proof(&self, id: &BlobId, out: &mut OutBuf) -> u32
        requires room { proof_room self.now.f ≤ out.old.spare }
        ensures reply { WritesReply self.now.index out.old
            (proof_reply id.now.0 (parts_at self.now.contents id.now)) result out.new }
        ensures room { out.old.spare ≤ out.new.spare + proof_room self.now.f }
        ensures most { result ≤ 1 }
    {
        self.sound();
        match self.keep.size(id, Part::Proof) {
            Some(size) => {
                let head = proof_head(id);
                self.reply_held(id, Part::Proof, &head, size, out);
                1
            }
            None => 0,
        }
    }

    /// Copies the part that a sliver of an axis is into the loaded bytes.
    fn load_sliver(&self, id: &BlobId, part: Part, size: u32, work: &mut Work)
        requires held { IsSome (part_at self.now.contents id.now part) }
        requires size { size ≡ length (unwrap_or (part_at self.now.contents id.now part) []) }
        requires most { size ≤ longest_sliver work.old.f }
        ensures loaded { work.new.loaded ≡ unwrap_or (part_at self.now.contents id.now part) [] }
        ensures f { work.new.f ≡ work.old.f }
    {
        self.keep.copy(id, part, 0, work.load(size));
    }

    /// Appends the opening of the sliver of this axis and index that the crossing sliver gives, if
    /// that is held. The result is the number of frames.
    pub(crate) fn reply_opening(
        &self,
        work: &mut Work,
        id: &BlobId,
        axis: Axis,
        index: u16,
        out: &mut OutBuf,
    ) -> u32
        requires f { work.old.f ≡ self.now.f }
        requires room { sliver_room self.now.f ≤ out.old.spare }
        ensures reply { (payloads : List (List ℕ))
            × OpeningReply H.digest id.now.0 self.now.index
            (parts_at self.now.contents id.now) axis index payloads
            × WritesReply self.now.index out.old payloads result out.new }
        ensures room { out.old.spare ≤ out.new.spare + sliver_room self.now.f }
        ensures f { work.new.f ≡ work.old.f }
        ensures most { result ≤ 1 }
    {
        self.sound();
        let part = sliver_part(axis.crossing());
        match self.keep.size(id, part) {
            Some(size) => {
                if u32::from(index) >= 3 * self.f + 1 {
                    return 0;
                }
                self.load_sliver(id, part, size, work);
                self.open_loaded(work, id, axis, index, out);
                1
            }
            None => 0,
        }
    }

    /// Appends the opening that the loaded sliver gives, by way of a room of the held metadata's
    /// size.
    fn open_loaded_in(
        &self,
        work: &mut Work,
        id: &BlobId,
        axis: Axis,
        index: u16,
        metadata: &mut [u8],
        out: &mut OutBuf,
    )
        requires f { work.old.f ≡ self.now.f }
        requires loaded { part_of (parts_at self.now.contents id.now) (sliver_part (crossing axis))
            ≡ Some work.old.loaded }
        requires index { index < shard_count self.now.f }
        requires held { IsSome (part_at self.now.contents id.now parts.Metadata) }
        requires size { length metadata.old
            ≡ length (unwrap_or (part_at self.now.contents id.now parts.Metadata) []) }
        requires room { sliver_room self.now.f ≤ out.old.spare }
        ensures reply { (payload : List ℕ)
            × OpeningReply H.digest id.now.0 self.now.index
            (parts_at self.now.contents id.now) axis index (payload ∷ [])
            × (out.new ≡ appended out.old (envelope self.now.index payload)) }
        ensures room { out.old.spare ≤ out.new.spare + sliver_room self.now.f }
        ensures f { work.new.f ≡ work.old.f }
    {
        self.sound();
        self.copy_metadata(id, metadata);
        let m = self.held_metadata(id, metadata);
        let cross = m.held(axis.crossing(), self.index);
        put_opening::<H>(work, m, self.index, id, axis, index, cross, out);
    }

    /// Appends the opening that the loaded sliver gives.
    fn open_loaded(&self, work: &mut Work, id: &BlobId, axis: Axis, index: u16, out: &mut OutBuf)
        requires f { work.old.f ≡ self.now.f }
        requires loaded { part_of (parts_at self.now.contents id.now) (sliver_part (crossing axis))
            ≡ Some work.old.loaded }
        requires index { index < shard_count self.now.f }
        requires room { sliver_room self.now.f ≤ out.old.spare }
        ensures reply { (payload : List ℕ)
            × OpeningReply H.digest id.now.0 self.now.index
            (parts_at self.now.contents id.now) axis index (payload ∷ [])
            × (out.new ≡ appended out.old (envelope self.now.index payload)) }
        ensures room { out.old.spare ≤ out.new.spare + sliver_room self.now.f }
        ensures f { work.new.f ≡ work.old.f }
    {
        self.sound();
        let size = self.metadata_size(id);
        with_room!(
            size,
            room => self.open_loaded_in(work, id, axis, index, &mut room[..size], out)
        );
    }
}
