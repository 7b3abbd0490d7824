//! The leaf digests of a blob's extended matrix, of which a strip of each symbol stands at a time.

ghost use Rattle.std.specs.Prelude.{◌≡◌, ℕ, ◌*◌, ◌%◌, ◌^◌, ◌<◌, ◌≤◌, List, length, IfOk};
ghost use Rattle.wal_shape.specs.Shape.{IsShape, shard_count, symbol_size};
ghost use Rattle.wal_shape.specs.Spelling.{metadata_text};
ghost use Rattle.wal_matrix.specs.Matrix.{IsExtended};
ghost use Rattle.wal_commit.specs.Identifier.{metadata_over};
ghost use Rattle.wal_commit.specs.inside.Leaves.{AreLeafDigests};
ghost use Rattle.wal_commit.specs.inside.Laws.{symbol_sized};
ghost use Rattle.wal_commit.specs.inside.Strips.{IsSymbolAt, bytes_of_symbol, symbols_of};

use crate::identifier::spelling_over;
use crate::leaves::DIGEST;
use std::alloc::{AllocError, Global};
use std::marker::Model;
use wal_matrix::Strips;
use wal_shape::Shape;
use wal_tree::{Hash32, Pieces};

/// The strips of all symbols have about so many bytes, which stay in the cache.
const CACHED: usize = 524_288;

/// The bytes of a block of SHA-256: a strip has whole blocks of each symbol.
const BLOCK: usize = 64;

/// The symbols of a blob's extended matrix, row by row.
#[derive(Drop)]
struct MatrixPieces<'a> {
    strips: Strips,
    bytes: &'a [u8],
}

impl<'a> Model for MatrixPieces<'a> {
    ghost use Rattle.std.specs.Prelude.{◌≡◌, length};
    ghost use Rattle.wal_commit.specs.inside.Strips.{BlobState};

    ghost Value = { BlobState };

    ghost view = { λ v. record { shape = v.strips; bytes = v.bytes.now } };

    ghost invariant = { λ v. length v.bytes.now ≡ v.strips.length };
}

impl<'a> MatrixPieces<'a> {
    /// The symbols of the extended matrix of the blob with these bytes.
    fn create(alloc: Global, shape: &Shape, bytes: &'a [u8]) -> Result<MatrixPieces<'a>, AllocError>
        requires { length bytes.now ≡ shape.now.length }
        ensures { IfOk result (λ v. v ≡ record { shape = shape.now; bytes = bytes.now }) }
    {
        let strips = Strips::create(alloc, shape)?;
        Ok(MatrixPieces { strips, bytes })
    }
}

impl<'a> Pieces for MatrixPieces<'a> {
    ghost has = { IsSymbolAt };

    ghost count = { symbols_of };

    ghost size = { bytes_of_symbol };

    ghost sized = { symbol_sized };

    fn fill(&mut self, from: usize, long: usize, strip: &mut [u8]) {
        self.strips.fill(self.bytes, from, long, strip);
    }
}

/// The bytes of each of so many symbols in a strip.
fn strip_width(count: usize) -> usize
    requires some { 1 ≤ count }
    requires few { count ≤ 1000000 }
    ensures blocks { result % 64 ≡ 0 }
    ensures some { 64 ≤ result }
    ensures fits { count * result < 2 ^ 31 }
{
    (CACHED / count / BLOCK).max(1) * BLOCK
}

/// The leaf digests of the symbols of the blob's extended matrix, row by row. The matrix does not
/// stand at once.
fn strip_digests<H: Hash32>(
    alloc: Global,
    shape: &Shape,
    bytes: &[u8],
) -> Result<Vec<u8>, AllocError>
    requires { length bytes.now ≡ shape.now.length }
    ensures long { IfOk result
        (λ v. length v.items ≡ shard_count shape.now.f * shard_count shape.now.f * 32) }
    ensures digests { IfOk result (λ v. (e : List ℕ) → IsExtended shape.now.f bytes.now e
        → AreLeafDigests H.digest (shard_count shape.now.f)
        (symbol_size shape.now.f shape.now.length) e v.items) }
{
    let count = shape.n() as usize * shape.n() as usize;
    let size = shape.symbol_size() as usize;
    let mut pieces = MatrixPieces::create(alloc, shape, bytes)?;
    let mut digests = vec![in alloc; 0u8; count * DIGEST]?;
    H::digest_strips(
        alloc,
        0,
        &mut pieces,
        count,
        size,
        strip_width(count),
        &mut digests,
    )?;
    Ok(digests)
}

/// The spelling of the metadata of a blob, from strips of its symbols.
pub(crate) fn spelling_by_strips<H: Hash32>(
    alloc: Global,
    shape: &Shape,
    bytes: &[u8],
) -> Result<Vec<u8>, AllocError>
    requires { length bytes.now ≡ shape.now.length }
    ensures spelled { IfOk result (λ v. (e : List ℕ) → IsExtended shape.now.f bytes.now e
        → v.items ≡ metadata_text (metadata_over H.digest shape.now e)) }
    ensures fit { IfOk result (λ v. IsShape shape.now.f shape.now.length) }
{
    let digests = strip_digests::<H>(alloc, shape, bytes)?;
    spelling_over::<H>(alloc, shape, &digests)
}
