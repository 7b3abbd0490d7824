//! The leaf digests of a matrix, each of which is made once.

ghost use Rattle.std.specs.Prelude.{◌≡◌, ℕ, ◌*◌, ◌<◌, List, length, IfOk};
ghost use Rattle.wal_shape.specs.Shape.{shard_count, symbol_size};
ghost use Rattle.wal_commit.specs.inside.Leaves.{AreLeafDigests};
ghost use Rattle.wal_matrix.specs.Matrix.{column_of, row_of, shards, symbol_bytes};
ghost use Rattle.wal_tree.specs.Tree.{root_over};

use std::alloc::{AllocError, Global};
use wal_matrix::{Encoded, copy_column};
use wal_shape::Shape;
use wal_tree::{Digest, Hash32, root_of_leaves};

/// The bytes of a leaf digest.
pub const DIGEST: usize = 32;

/// The leaf digests of the symbols of an extended matrix, row by row. A symbol is a leaf of its
/// row's tree and of its column's, and has one digest in both.
pub fn leaf_digests<H: Hash32>(alloc: Global, e: &Encoded) -> Result<Vec<u8>, AllocError>
    ensures { IfOk result
        (λ v. AreLeafDigests H.digest (shards e.now) (symbol_bytes e.now) e.now.cells v.items) }
{
    let count = e.shape().n() as usize;
    let mut digests = vec![in alloc; 0u8; count * count * DIGEST]?;
    H::digest_pieces(0, e.cells(), e.shape().symbol_size() as usize, &mut digests);
    Ok(digests)
}

/// The root over the symbols of row `index`, from the leaf digests of a matrix of this shape.
pub fn row_root<H: Hash32>(shape: &Shape, digests: &[u8], index: u16) -> Digest
    requires index { index < shard_count shape.now.f }
    requires long { length digests.now ≡ shard_count shape.now.f * shard_count shape.now.f * 32 }
    ensures { let n = shard_count shape.now.f in let s = symbol_size shape.now.f shape.now.length in
        (e : List ℕ) → AreLeafDigests H.digest n s e digests.now
        → result ≡ root_over H.digest s (row_of n s e index) }
{
    let run = shape.n() as usize * DIGEST;
    let start = index as usize * run;
    root_of_leaves::<H>(&digests[start..start + run])
}

/// The root over the symbols of column `index`, from the leaf digests of a matrix of this shape.
/// The digests of the column are gathered in `column`.
pub fn column_root<H: Hash32>(
    shape: &Shape,
    digests: &[u8],
    index: u16,
    column: &mut [u8],
) -> Digest
    requires index { index < shard_count shape.now.f }
    requires long { length digests.now ≡ shard_count shape.now.f * shard_count shape.now.f * 32 }
    requires room { length column.old ≡ shard_count shape.now.f * 32 }
    ensures { let n = shard_count shape.now.f in let s = symbol_size shape.now.f shape.now.length in
        (e : List ℕ) → AreLeafDigests H.digest n s e digests.now
        → result ≡ root_over H.digest s (column_of n s e index) }
{
    let count = shape.n() as usize;
    copy_column(digests, count, count, DIGEST, index as usize, column);
    root_of_leaves::<H>(column)
}
