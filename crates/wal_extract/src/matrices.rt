//! Two blobs that differ under one identifier.

ghost use Rattle.std.specs.Prelude.{◌≡◌, ◌≢◌, ℕ, ◌*◌, ◌<◌, IfOk, length};
ghost use Rattle.wal_matrix.specs.Matrix.{IsCodedMatrix, row_of, shards, symbol_bytes};
ghost use Rattle.wal_shape.specs.Shape.{IsShape};
ghost use Rattle.wal_tree.specs.Collision.{IsCollision};
ghost use Rattle.wal_commit.specs.Identifier.{metadata_over};
ghost use Rattle.wal_extract.specs.Blobs.{AreDigestedForBlobs, AreDigestedForRows};
ghost use Rattle.wal_extract.specs.Blobs.{HaveOneIdentifier};

use crate::identities::metadatas;
use std::alloc::{AllocError, Global};
use wal_commit::metadata_of;
use wal_matrix::{Encoded, extend};
use wal_shape::{Collision, Shape};
use wal_tree::{Hash32, collide_lists};

/// Two texts with one digest, from two blobs that differ and have one identifier, each for its
/// shape: the formats and the numbers of faults need not agree. They are those of the two metadata
/// if these differ, and else those of the first row of the extended matrices that differs.
///
/// It fails only for want of memory.
pub fn blobs<H: Hash32>(
    alloc: Global,
    a_shape: &Shape,
    a: &[u8],
    b_shape: &Shape,
    b: &[u8],
) -> Result<Collision, AllocError>
    requires fits_a { length a.now ≡ a_shape.now.length }
    requires fits_b { length b.now ≡ b_shape.now.length }
    requires differ { a.now ≢ b.now }
    requires one { HaveOneIdentifier H.digest a_shape.now a.now b_shape.now b.now }
    ensures collision { IfOk result (λ c. IsCollision H.digest c.left c.right) }
    // The left text is the first blob's, and the right one the other's.
    ensures texts { IfOk result
        (λ c. AreDigestedForBlobs H.digest a_shape.now a.now b_shape.now b.now c.left c.right) }
{
    let left = extend(alloc, a_shape, a)?;
    let right = extend(alloc, b_shape, b)?;
    let left_metadata = metadata_of::<H>(alloc, &left)?;
    let right_metadata = metadata_of::<H>(alloc, &right)?;
    if left_metadata.view().bytes() != right_metadata.view().bytes() {
        return metadatas::<H>(alloc, left_metadata.view(), right_metadata.view());
    }
    collide_rows::<H>(alloc, &left, &right)
}

/// Two texts with one digest, from two matrices of one metadata.
fn collide_rows<H: Hash32>(alloc: Global, a: &Encoded, b: &Encoded) -> Result<Collision, AllocError>
    requires shape { IsShape a.now.shape.f a.now.shape.length }
    requires coded_a { IsCodedMatrix a.now.shape.f (symbol_bytes a.now) a.now.cells }
    requires coded_b { IsCodedMatrix b.now.shape.f (symbol_bytes b.now) b.now.cells }
    requires differ { a.now.cells ≢ b.now.cells }
    requires one { metadata_over H.digest a.now.shape a.now.cells
        ≡ metadata_over H.digest b.now.shape b.now.cells }
    ensures collision { IfOk result (λ c. IsCollision H.digest c.left c.right) }
    ensures texts { IfOk result
        (λ c. AreDigestedForRows H.digest a.now.shape a.now.cells b.now.cells c.left c.right) }
{
    let index = first_row_apart(a, b);
    collide_lists::<H>(alloc, a.row(index), b.row(index), a.shape().symbol_size())
}

/// The index of the first row in which the matrices differ.
fn first_row_apart(a: &Encoded, b: &Encoded) -> u16
    requires differ { a.now.cells ≢ b.now.cells }
    requires shape { a.now.shape ≡ b.now.shape }
    requires long_a { length a.now.cells ≡ shards a.now * shards a.now * symbol_bytes a.now }
    requires long_b { length b.now.cells ≡ shards b.now * shards b.now * symbol_bytes b.now }
    ensures within { result < shards a.now }
    ensures apart { row_of (shards a.now) (symbol_bytes a.now) a.now.cells result
        ≢ row_of (shards b.now) (symbol_bytes b.now) b.now.cells result }
    ensures first { (i : ℕ) → i < result → row_of (shards a.now) (symbol_bytes a.now) a.now.cells i
        ≡ row_of (shards b.now) (symbol_bytes b.now) b.now.cells i }
{
    for index in 0..a.shape().n() as u16 {
        if a.row(index) != b.row(index) {
            return index;
        }
    }
    unreachable!()
}
