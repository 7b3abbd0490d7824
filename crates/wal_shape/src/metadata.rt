//! What identifies a blob and commits its slivers.

ghost use Rattle.std.specs.Prelude.{◌≡◌, ℕ, ◌+◌, ◌*◌, ◌<◌, ◌≤◌, ◌↔◌, length, take, drop, IsTrue};
ghost use Rattle.std.specs.Prelude.{IfSome, IfNone, IfOk, Some, slice_get};
ghost use Rattle.wal_shape.specs.Shape.{IsShape, shard_count};
ghost use Rattle.wal_shape.specs.Metadata.{BlobMetadata, IsMetadata, roots_of, held_index};
ghost use Rattle.wal_shape.specs.Spelling.{metadata_text, text_size};
ghost use Rattle.wal_shape.specs.MetadataReading.{behind_format, spelled_f, spelled_format};
ghost use Rattle.wal_shape.specs.MetadataReading.{spelled_length, spelled_metadata};
ghost use Rattle.wal_shape.specs.inside.MetadataReading.{SpellMetadata, AreNumbersAndRoots};
ghost use Rattle.wal_shape.specs.inside.MetadataReading.{root_place_of};

use crate::axis::Axis;
use crate::lists::Bytes;
use crate::shape::{Format, Shape};
use std::alloc::{AllocError, Global};
use std::marker::Model;

/// The identifier of a blob: the digest over its metadata's pair root, `f` and length.
#[derive(Clone, Copy, Debug, PartialEq, Eq, PartialOrd, Ord, Hash)]
pub struct BlobId(pub [u8; 32]);

/// The number of bytes of a root.
const ROOT_SIZE: usize = 32;

/// The number of bytes of `f` and the length, which stand before the roots.
const HEAD_SIZE: usize = 10;

/// The format, and the bytes behind it. Format two is the byte 2; in format one the first byte is
/// that of `f`, which is at most 1.
#[tactic(auto, unfolding(crate::specs::MetadataReading::spelled_format, crate::specs::MetadataReading::behind_format))]
fn split_format(bytes: &[u8]) -> (Format, &[u8])
    ensures format { result.0 ≡ spelled_format bytes.now }
    ensures behind { result.1.now ≡ behind_format bytes.now }
{
    match bytes.split_first() {
        Some((2, behind)) => (Format::Two, behind),
        _ => (Format::One, bytes),
    }
}

/// `f`, in the first two bytes.
#[tactic(auto, unfolding(crate::specs::MetadataReading::spelled_f))]
fn f_in(bytes: &[u8]) -> u16
    requires { 10 ≤ length bytes.now }
    ensures { result ≡ spelled_f bytes.now }
{
    let (f, _) = bytes.split_at(2);
    u16::from_be_bytes([f[0], f[1]])
}

/// The length, in the next eight bytes.
#[tactic(auto, unfolding(crate::specs::MetadataReading::spelled_length))]
fn length_in(bytes: &[u8]) -> u64
    requires { 10 ≤ length bytes.now }
    ensures { result ≡ spelled_length bytes.now }
{
    let (_, rest) = bytes.split_at(2);
    let (n, _) = rest.split_at(8);
    u64::from_be_bytes([n[0], n[1], n[2], n[3], n[4], n[5], n[6], n[7]])
}

/// Whether the numbers are fit, and all pairs of roots are there and nothing else.
fn are_numbers_and_roots(bytes: &[u8]) -> bool
    ensures { IsTrue result ↔ AreNumbersAndRoots bytes.now }
{
    if bytes.len() < HEAD_SIZE {
        return false;
    }
    match Shape::new(u32::from(f_in(bytes)), length_in(bytes)) {
        Ok(shape) => bytes.len() == HEAD_SIZE + 2 * ROOT_SIZE * shape.n() as usize,
        Err(_) => false,
    }
}

/// Whether the bytes are those of metadata of either format, and nothing else.
fn spells_metadata(bytes: &[u8]) -> bool
    ensures { IsTrue result ↔ SpellMetadata bytes.now }
{
    let (_, behind) = split_format(bytes);
    are_numbers_and_roots(behind)
}

/// Where a root of the pair at this index begins, behind the format: the primary one or the
/// secondary one.
fn root_place(axis: Axis, index: u16) -> usize
    ensures { result ≡ root_place_of axis index }
{
    let pair = HEAD_SIZE + 2 * ROOT_SIZE * usize::from(index);
    match axis {
        Axis::Primary => pair,
        Axis::Secondary => pair + ROOT_SIZE,
    }
}

/// The root that begins at this place.
fn root_at(bytes: &[u8], place: usize) -> &[u8]
    requires { place + 32 ≤ length bytes.now }
    ensures root { result.now ≡ take 32 (drop place bytes.now) }
    ensures size { length result.now ≡ 32 }
{
    let (_, rest) = bytes.split_at(place);
    let (root, _) = rest.split_at(ROOT_SIZE);
    root
}

/// Metadata that lie in lent bytes.
///
/// The bytes are `f` (two), the length (eight), and for each shard in turn the root of the primary
/// and that of the secondary sliver that it holds (32 each), numbers most significant byte first.
/// Format two has the byte 2 before them.
#[derive(Clone, Copy, Debug)]
pub struct MetaRef<'a> {
    bytes: &'a [u8],
    pub ghost whole: { SpellMetadata bytes.now },
    pub ghost spelled: { metadata_text (spelled_metadata bytes.now) ≡ bytes.now },
}

impl<'a> MetaRef<'a> {
    ghost use Rattle.wal_shape.specs.MetaRef.{metadata_shown};

    /// Reads metadata from the whole of the bytes.
    pub fn new(bytes: &'a [u8]) -> Option<MetaRef<'a>>
        ensures metadata { IfSome result (λ m. IsMetadata (metadata_shown m)) }
        ensures spelled { IfSome result (λ m. metadata_text (metadata_shown m) ≡ bytes.now) }
        ensures only { (m : BlobMetadata) → IsMetadata m → metadata_text m ≡ bytes.now
            → IfSome result (λ r. metadata_shown r ≡ m) }
        ensures none { IfNone result
            ((m : BlobMetadata) → IsMetadata m → metadata_text m ≡ bytes.now → ⊥) }
    {
        if spells_metadata(bytes) {
            Some(MetaRef { bytes })
        } else {
            None
        }
    }

    /// Lends the spelling.
    pub fn bytes(&self) -> &'a [u8]
        ensures spelling { result.now ≡ metadata_text (metadata_shown self.now) }
        ensures size { length result.now
            ≡ text_size (metadata_shown self.now).format (metadata_shown self.now).f }
        ensures metadata { IsMetadata (metadata_shown self.now) }
    {
        self.bytes
    }

    /// The format of the identifier.
    pub fn format(&self) -> Format
        ensures { result ≡ (metadata_shown self.now).format }
    {
        let (format, _) = split_format(self.bytes);
        format
    }

    /// The most shards that are faulty.
    pub fn f(&self) -> u32
        ensures value { result ≡ (metadata_shown self.now).f }
        ensures metadata { IsMetadata (metadata_shown self.now) }
    {
        let (_, behind) = split_format(self.bytes);
        u32::from(f_in(behind))
    }

    /// The number of bytes of the blob.
    pub fn length(&self) -> u64
        ensures value { result ≡ (metadata_shown self.now).length }
        ensures metadata { IsMetadata (metadata_shown self.now) }
    {
        let (_, behind) = split_format(self.bytes);
        length_in(behind)
    }

    /// The shape of the blob.
    pub fn shape(&self) -> Shape
        ensures value { result ≡ record {
          format = (metadata_shown self.now).format;
          f = (metadata_shown self.now).f;
          length = (metadata_shown self.now).length;
        } }
        ensures metadata { IsMetadata (metadata_shown self.now) }
    {
        match Shape::new(self.f(), self.length()) {
            Ok(shape) => shape.with_format(self.format()),
            Err(_) => unreachable!(),
        }
    }

    /// Lends the 32 bytes of the root of the sliver of this axis and index.
    pub fn root(&self, axis: Axis, index: u16) -> &'a [u8]
        requires { index < shard_count (metadata_shown self.now).f }
        ensures root { slice_get (roots_of axis (metadata_shown self.now)) index ≡ Some result.now }
        ensures size { length result.now ≡ 32 }
    {
        let (_, behind) = split_format(self.bytes);
        root_at(behind, root_place(axis, self.held(axis, index)))
    }

    /// The index of the sliver of this axis that a shard holds.
    pub fn held(&self, axis: Axis, shard: u16) -> u16
        requires { shard < shard_count (metadata_shown self.now).f }
        ensures value { result
            ≡ held_index (metadata_shown self.now).format (metadata_shown self.now).f axis shard }
        ensures within { result < shard_count (metadata_shown self.now).f }
    {
        match (self.format(), axis) {
            (Format::Two, Axis::Secondary) => (3 * self.f()) as u16 - shard,
            (Format::One, _) | (Format::Two, Axis::Primary) => shard,
        }
    }
}

/// Metadata that own their spelling, as `MetaRef` reads it.
#[derive(Debug, Drop)]
pub struct Metadata {
    bytes: Bytes,
}

impl Model for Metadata {
    ghost use Rattle.std.specs.Prelude.{◌≡◌};
    ghost use Rattle.wal_shape.specs.Metadata.{BlobMetadata};
    ghost use Rattle.wal_shape.specs.Spelling.{metadata_text};
    ghost use Rattle.wal_shape.specs.MetadataReading.{spelled_metadata};
    ghost use Rattle.wal_shape.specs.inside.MetadataReading.{SpellMetadata};

    ghost Value = { BlobMetadata };

    ghost view = { λ m. spelled_metadata m.bytes };

    ghost invariant = { λ m. SpellMetadata m.bytes
        × (metadata_text (spelled_metadata m.bytes) ≡ m.bytes) };
}

impl Metadata {
    ghost use Rattle.wal_shape.specs.MetaRef.{metadata_shown};

    /// Takes the bytes as the spelling of metadata, the whole of them. Takes no memory.
    pub fn create(bytes: Bytes) -> Option<Metadata>
        ensures metadata { IfSome result IsMetadata }
        ensures spelled { IfSome result (λ m. metadata_text m ≡ bytes) }
        ensures only { (m : BlobMetadata) → IsMetadata m → metadata_text m ≡ bytes
            → result ≡ Some m }
        ensures none { IfNone result
            ((m : BlobMetadata) → IsMetadata m → metadata_text m ≡ bytes → ⊥) }
    {
        match MetaRef::new(bytes.as_slice()) {
            Some(_) => Some(Metadata { bytes }),
            None => None,
        }
    }

    /// A copy of lent metadata, in memory of its own.
    pub fn of(alloc: Global, m: MetaRef<'_>) -> Result<Metadata, AllocError>
        ensures { IfOk result (λ x. x ≡ metadata_shown m.entry) }
    {
        Ok(Metadata {
            bytes: Bytes::from_vec(Vec::from_slice(alloc, m.bytes)?),
        })
    }

    /// Lends the metadata.
    pub fn view(&self) -> MetaRef<'_>
        ensures value { metadata_shown result ≡ self.now }
        ensures metadata { IsMetadata self.now }
    {
        MetaRef {
            bytes: self.bytes.as_slice(),
        }
    }
}
