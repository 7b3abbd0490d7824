//! Metadata and identifiers.

ghost use Rattle.std.specs.Prelude.{ℕ, ◌≡◌, ◌*◌, ◌<◌, ◌≤◌, ◌↔◌, ◌++◌, ◌+◌, List, length, IfOk};
ghost use Rattle.std.specs.Prelude.{OnOk, IsTrue};
ghost use Rattle.wal_shape.specs.MetaRef.{metadata_shown};
ghost use Rattle.wal_commit.specs.Identifier.{Commits, IsIdentifierOf, head_text, held_pairs};
ghost use Rattle.wal_commit.specs.Identifier.{identifier_tag, metadata_over};
ghost use Rattle.wal_commit.specs.inside.Identifier.{pair_over};
ghost use Rattle.wal_commit.specs.inside.Leaves.{AreLeafDigests};
ghost use Rattle.wal_shape.specs.declared.axis.Axis.TheVariants.{Secondary};
ghost use Rattle.wal_shape.specs.Metadata.{IsMetadata, held_index};
ghost use Rattle.wal_shape.specs.Shape.{IsShape, shard_count, symbol_size};
ghost use Rattle.wal_shape.specs.Spelling.{format_text, metadata_text};

use crate::leaves::{DIGEST, column_root, leaf_digests, row_root};
use crate::roots::blob_metadata;
use std::alloc::{AllocError, Global};
use wal_matrix::Encoded;
use wal_shape::{BlobId, Bytes, Format, MetaRef, Metadata, Shape};
use wal_tree::{Hash32, root};

/// The bytes of f and the blob's length, which stand before the pairs of roots in the spelling of a
/// metadata.
const NUMBERS: usize = 10;

/// The bytes of a pair of roots.
const PAIR: usize = 64;

/// The byte that an identifier's text begins with.
pub(crate) fn tag_of(format: Format) -> u8
    ensures { result ≡ identifier_tag format }
{
    match format {
        Format::One => 2,
        Format::Two => 3,
    }
}

/// The version that the spelling of a metadata begins with.
fn version_of(format: Format) -> &'static [u8]
    ensures { result.now ≡ format_text format }
{
    match format {
        Format::One => &[],
        Format::Two => &[2],
    }
}

/// The spelling of a metadata in two parts: what stands before the pairs of roots, and the pairs.
pub(crate) fn split_spelling<'a>(m: MetaRef<'a>) -> (&'a [u8], &'a [u8])
    ensures head { result.0.now
        ≡ head_text (metadata_shown m.entry).format
        (metadata_shown m.entry).f (metadata_shown m.entry).length }
    ensures pairs { result.1.now ≡ held_pairs (metadata_shown m.entry) }
    ensures size { length result.1.now ≡ 64 * shard_count (metadata_shown m.entry).f }
    ensures metadata { IsMetadata (metadata_shown m.entry) }
{
    let head = version_of(m.format()).len() + NUMBERS;
    m.bytes().split_at(head)
}

/// The identifier that the metadata commits.
pub fn identify<H: Hash32>(m: MetaRef<'_>) -> BlobId
    ensures { Commits H.digest result.0 (metadata_shown m.entry) }
{
    let (head, pairs) = split_spelling(m);
    let tag = [tag_of(m.format())];
    BlobId(H::hash3(&tag, head, &root::<H>(pairs, 64)))
}

/// Whether the identifier commits to the metadata.
pub fn metadata_holds<H: Hash32>(id: &BlobId, m: MetaRef<'_>) -> bool
    ensures { IsTrue result ↔ Commits H.digest id.now.0 (metadata_shown m.entry) }
{
    identify::<H>(m) == *id
}

/// The spelling of the metadata before its roots.
pub(crate) fn head_of(alloc: Global, shape: &Shape) -> Result<Vec<u8>, AllocError>
    ensures spelled { IfOk result
        (λ v. v.items ≡ head_text shape.now.format shape.now.f shape.now.length) }
    ensures fit { IsShape shape.now.f shape.now.length }
{
    let faults = shape.f() as u16;
    let version = version_of(shape.format());
    let size = version.len() + NUMBERS + PAIR * shape.n() as usize;
    let mut bytes = Vec::with_capacity(alloc, size)?;
    bytes.extend_from_slice(version)?;
    bytes.extend_from_slice(&faults.to_be_bytes())?;
    bytes.extend_from_slice(&shape.length().to_be_bytes())?;
    Ok(bytes)
}

/// The index of the column that a shard holds.
pub(crate) fn held_column(shape: &Shape, shard: u16) -> u16
    requires { shard < shard_count shape.now.f }
    ensures value { result ≡ held_index shape.now.format shape.now.f Secondary shard }
    ensures within { result < shard_count shape.now.f }
{
    match shape.format() {
        Format::One => shard,
        Format::Two => shape.n() as u16 - 1 - shard,
    }
}

/// Appends the roots of the row and of the column that a shard holds, over the leaf digests of a
/// matrix. The column is room for the digests of one column.
fn append_pair<H: Hash32>(
    bytes: &mut Vec<u8>,
    shape: &Shape,
    digests: &[u8],
    shard: u16,
    column: &mut [u8],
) -> Result<(), AllocError>
    requires index { shard < shard_count shape.now.f }
    requires long { length digests.now ≡ shard_count shape.now.f * shard_count shape.now.f * 32 }
    requires room { length column.old ≡ shard_count shape.now.f * 32 }
    ensures { OnOk result ((e : List ℕ)
        → AreLeafDigests H.digest (shard_count shape.now.f)
        (symbol_size shape.now.f shape.now.length) e digests.now
        → bytes.new.items ≡ bytes.old.items ++ pair_over H.digest shape.now e shard) }
{
    let held = held_column(shape, shard);
    bytes.extend_from_slice(&row_root::<H>(shape, digests, shard))?;
    bytes.extend_from_slice(&column_root::<H>(shape, digests, held, column))?;
    Ok(())
}

/// The spelling of the metadata of a matrix of this shape that has these leaf digests.
pub(crate) fn spelling_over<H: Hash32>(
    alloc: Global,
    shape: &Shape,
    digests: &[u8],
) -> Result<Vec<u8>, AllocError>
    requires { length digests.now ≡ shard_count shape.now.f * shard_count shape.now.f * 32 }
    ensures spelled { IfOk result (λ v. (e : List ℕ)
        → AreLeafDigests H.digest (shard_count shape.now.f)
        (symbol_size shape.now.f shape.now.length) e digests.now
        → v.items ≡ metadata_text (metadata_over H.digest shape.now e)) }
    ensures fit { IsShape shape.now.f shape.now.length }
{
    let count = shape.n() as u16;
    let mut bytes = head_of(alloc, shape)?;
    let mut column = vec![in alloc; 0u8; count as usize * DIGEST]?;
    for index in 0..count {
        append_pair::<H>(&mut bytes, shape, digests, index, &mut column)?;
    }
    Ok(bytes)
}

/// The spelling of the metadata of an extended matrix.
fn spelling_of<H: Hash32>(alloc: Global, e: &Encoded) -> Result<Vec<u8>, AllocError>
    ensures spelled { IfOk result
        (λ v. v.items ≡ metadata_text (metadata_over H.digest e.now.shape e.now.cells)) }
    ensures fit { IfOk result (λ v. IsShape e.now.shape.f e.now.shape.length) }
{
    let digests = leaf_digests::<H>(alloc, e)?;
    spelling_over::<H>(alloc, e.shape(), &digests)
}

/// The metadata of an extended matrix: its shape, and the root over the symbols of each row and of
/// each column (the Walrus paper, section "Vector commitments").
pub fn metadata_of<H: Hash32>(alloc: Global, e: &Encoded) -> Result<Metadata, AllocError>
    ensures { IfOk result (λ m. m ≡ metadata_over H.digest e.now.shape e.now.cells) }
{
    let bytes = spelling_of::<H>(alloc, e)?;
    match Metadata::create(Bytes::from_vec(bytes)) {
        Some(metadata) => Ok(metadata),
        None => unreachable!(),
    }
}

/// The identifier of a blob.
pub fn blob_id<H: Hash32>(alloc: Global, shape: &Shape, bytes: &[u8]) -> Result<BlobId, AllocError>
    requires { length bytes.now ≡ shape.now.length }
    ensures identifier { IfOk result
        (λ id. IsIdentifierOf H.digest shape.now.format shape.now.f bytes.now id.0) }
    // A blob has one identifier.
    ensures only { IfOk result (λ id. (other : List ℕ)
        → IsIdentifierOf H.digest shape.now.format shape.now.f bytes.now other → other ≡ id.0) }
{
    let metadata = blob_metadata::<H>(alloc, shape, bytes)?;
    Ok(identify::<H>(metadata.view()))
}
