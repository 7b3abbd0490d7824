//! What a shard reads of what it holds.

ghost use Rattle.std.specs.Prelude.{◌≡◌, ◌↔◌, ◌+◌, ◌≤◌, [], Some, None, IsTrue, IsSome, IfOk};
ghost use Rattle.std.specs.Prelude.{IfSome, IfNone, is_some, length, take, drop, unwrap_or};
ghost use Rattle.wal_shape.specs.Shape.{most_bytes};
ghost use Rattle.wal_shape.specs.Metadata.{BlobMetadata, IsMetadata};
ghost use Rattle.wal_shape.specs.Spelling.{metadata_text};
ghost use Rattle.wal_shape.specs.MetaRef.{metadata_shown};
ghost use Rattle.wal_shape.specs.declared.part.Part.TheVariants as parts;
ghost use Rattle.wal_store.specs.Contents.{parts_at, part_at};
ghost use Rattle.wal_shard.specs.State.{AreSound, IsOwnMetadata, IsPlace};

use crate::shard::Shard;
use std::alloc::{AllocError, Global};
use wal_shape::{BlobId, MetaRef, Metadata};
use wal_store::{Keep, Part};
use wal_tree::Hash32;

/// The bytes of the longest metadata: 11, and two roots for each of 1000 shards.
pub(crate) const MOST_METADATA: usize = 64011;

/// Room for the metadata of a committee with f of at most 20, which spares small ones the clearing
/// of more.
pub(crate) const SHORT_METADATA: usize = 4096;

/// An expression with room for so many bytes of a metadata.
macro_rules! with_room {
    ($size:ident, $room:ident => $answer:expr) => {
        if $size <= SHORT_METADATA {
            let mut $room = [0; SHORT_METADATA];
            $answer
        } else {
            let mut $room = [0; MOST_METADATA];
            $answer
        }
    };
}

pub(crate) use with_room;

/// So many bytes of a part are compared at a time.
const PIECE: usize = 512;

/// The metadata that these bytes spell.
fn read_metadata<'a>(bytes: &'a [u8]) -> MetaRef<'a>
    requires { (m : BlobMetadata) × IsMetadata m × (bytes.now ≡ metadata_text m) }
    ensures metadata { IsMetadata (metadata_shown result) }
    ensures spelled { metadata_text (metadata_shown result) ≡ bytes.now }
{
    match MetaRef::new(bytes) {
        Some(m) => m,
        None => unreachable!(),
    }
}

impl<H: Hash32, K: Keep> Shard<H, K> {
    /// Says that what is held is sound, which each method may rest on.
    pub(crate) fn sound(&self)
        ensures place { IsPlace self.now.f self.now.index }
        ensures sound { AreSound H.digest self.now.f self.now.index self.now.contents }
    {
        let _ = &self.keep;
    }

    /// Whether a part is held.
    pub(crate) fn has(&self, id: &BlobId, part: Part) -> bool
        ensures { result ≡ is_some (part_at self.now.contents id.now part) }
    {
        self.keep.size(id, part).is_some()
    }

    /// The number of bytes of a part that is held.
    fn part_size(&self, id: &BlobId, part: Part) -> u32
        requires { IsSome (part_at self.now.contents id.now part) }
        ensures { result ≡ length (unwrap_or (part_at self.now.contents id.now part) []) }
    {
        match self.keep.size(id, part) {
            Some(size) => size,
            None => unreachable!(),
        }
    }

    /// Whether so many bytes of a held part from a place on are those of these bytes.
    fn holds_piece(&self, id: &BlobId, part: Part, bytes: &[u8], at: usize, size: usize) -> bool
        requires held { IsSome (part_at self.now.contents id.now part) }
        requires few { size ≤ 512 }
        requires most { length bytes.now ≤ most_bytes }
        requires within { at + size ≤ length bytes.now }
        requires same { length (unwrap_or (part_at self.now.contents id.now part) [])
            ≡ length bytes.now }
        ensures { IsTrue result
            ↔ (take size (drop at (unwrap_or (part_at self.now.contents id.now part) []))
            ≡ take size (drop at bytes.now)) }
    {
        let mut room = [0; PIECE];
        let held = &mut room[..size];
        self.keep.copy(id, part, at as u32, held);
        let given = &bytes[at..at + size];
        *held == *given
    }

    /// Whether a held part of as many bytes is these.
    fn holds_pieces(&self, id: &BlobId, part: Part, bytes: &[u8]) -> bool
        requires held { IsSome (part_at self.now.contents id.now part) }
        requires size { length (unwrap_or (part_at self.now.contents id.now part) [])
            ≡ length bytes.now }
        requires most { length bytes.now ≤ most_bytes }
        ensures { IsTrue result
            ↔ (unwrap_or (part_at self.now.contents id.now part) [] ≡ bytes.now) }
    {
        let mut done = 0;
        'pieces: while done < bytes.len() {
            let size = (bytes.len() - done).min(PIECE);
            if !self.holds_piece(id, part, bytes, done, size) {
                return false;
            }
            done += size;
        }
        true
    }

    /// Whether a part is held that is these bytes, of which it compares some at a time.
    pub(crate) fn holds_bytes(&self, id: &BlobId, part: Part, bytes: &[u8]) -> bool
        ensures { IsTrue result ↔ (part_at self.now.contents id.now part ≡ Some bytes.now) }
    {
        match self.keep.size(id, part) {
            Some(size) => size as usize == bytes.len() && self.holds_pieces(id, part, bytes),
            None => false,
        }
    }

    /// The number of bytes of the metadata that is held under an identifier.
    pub(crate) fn metadata_size(&self, id: &BlobId) -> usize
        requires held { IsSome (part_at self.now.contents id.now parts.Metadata) }
        ensures size { result
            ≡ length (unwrap_or (part_at self.now.contents id.now parts.Metadata) []) }
        ensures most { result ≤ 64011 }
    {
        self.sound();
        self.part_size(id, Part::Metadata) as usize
    }

    /// Copies the metadata that is held under an identifier.
    pub(crate) fn copy_metadata(&self, id: &BlobId, room: &mut [u8])
        requires held { IsSome (part_at self.now.contents id.now parts.Metadata) }
        requires size { length room.old
            ≡ length (unwrap_or (part_at self.now.contents id.now parts.Metadata) []) }
        ensures { room.new ≡ unwrap_or (part_at self.now.contents id.now parts.Metadata) [] }
    {
        self.keep.copy(id, Part::Metadata, 0, room);
    }

    /// The metadata that is held under an identifier, whose bytes these are.
    pub(crate) fn held_metadata<'a>(&self, id: &BlobId, bytes: &'a [u8]) -> MetaRef<'a>
        requires held { IsSome (part_at self.now.contents id.now parts.Metadata) }
        requires bytes { bytes.now
            ≡ unwrap_or (part_at self.now.contents id.now parts.Metadata) [] }
        ensures { IsOwnMetadata H.digest self.now.f id.now.0
            (parts_at self.now.contents id.now) (metadata_shown result) }
    {
        self.sound();
        read_metadata(bytes)
    }

    /// A copy of the metadata that is held, in memory of its own, by way of a room of its size.
    fn own_metadata(
        &self,
        alloc: Global,
        id: &BlobId,
        room: &mut [u8],
    ) -> Result<Metadata, AllocError>
        requires held { IsSome (part_at self.now.contents id.now parts.Metadata) }
        requires size { length room.old
            ≡ length (unwrap_or (part_at self.now.contents id.now parts.Metadata) []) }
        ensures { IfOk result (λ m.
            IsOwnMetadata H.digest self.now.f id.now.0 (parts_at self.now.contents id.now) m) }
    {
        self.copy_metadata(id, room);
        Metadata::of(alloc, self.held_metadata(id, room))
    }

    /// A copy of the metadata that is held, in memory of its own.
    pub fn metadata(&self, alloc: Global, id: &BlobId) -> Result<Option<Metadata>, AllocError>
        ensures held { IfOk result (λ o. IfSome o (λ m.
            IsOwnMetadata H.digest self.now.f id.now.0 (parts_at self.now.contents id.now) m)) }
        ensures none { IfOk result
            (λ o. IfNone o (part_at self.now.contents id.now parts.Metadata ≡ None)) }
    {
        if !self.has(id, Part::Metadata) {
            return Ok(None);
        }
        let size = self.metadata_size(id);
        with_room!(size, room => Ok(Some(self.own_metadata(alloc, id, &mut room[..size])?)))
    }
}
