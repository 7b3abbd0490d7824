//! An opening that holds for a blob and shows another symbol than the blob's matrix has there.

ghost use Rattle.std.specs.Prelude.{◌≡◌, ◌≢◌, ◌+◌, ◌*◌, ◌<◌, ◌≤◌, IfOk, length};
ghost use Rattle.wal_kernel.specs.Region.{region};
ghost use Rattle.wal_shape.specs.Opening.{opening_shown};
ghost use Rattle.wal_shape.specs.Shape.{IsShape, crossing};
ghost use Rattle.wal_tree.specs.Collision.{IsCollision};
ghost use Rattle.wal_tree.specs.Path.{MeetOnPaths, path_over};
ghost use Rattle.wal_matrix.specs.Matrix.{column_of, line_of, shards, symbol_bytes};
ghost use Rattle.wal_commit.specs.Held.{HoldsOpening};
ghost use Rattle.wal_commit.specs.Identifier.{metadata_over};

use std::alloc::{AllocError, Global};
use wal_matrix::Encoded;
use wal_shape::{Axis, Collision, OpeningRef};
use wal_tree::{Hash32, PathBuf, collide_paths, path};

/// The run of `size` bytes at this place.
pub fn part_at(bytes: &[u8], size: usize, place: usize) -> &[u8]
    requires { size * place + size ≤ length bytes.now }
    ensures part { result.now ≡ region size bytes.now place }
    ensures size { length result.now ≡ size }
{
    let start = size * place;
    &bytes[start..start + size]
}

/// The column of this index, in memory.
fn column_in_memory(alloc: Global, matrix: &Encoded, index: u16) -> Result<Vec<u8>, AllocError>
    requires { index < shards matrix.now }
    ensures { IfOk result (λ v. v.items
        ≡ column_of (shards matrix.now) (symbol_bytes matrix.now) matrix.now.cells index) }
{
    let size = matrix.shape().n() as usize * matrix.shape().symbol_size() as usize;
    let mut column = vec![in alloc; 0u8; size]?;
    matrix.column(index, &mut column);
    Ok(column)
}

/// The line of this axis and index, in memory.
fn line_in_memory(
    alloc: Global,
    matrix: &Encoded,
    axis: Axis,
    index: u16,
) -> Result<Vec<u8>, AllocError>
    requires { index < shards matrix.now }
    ensures { IfOk result (λ v. v.items
        ≡ line_of axis matrix.now.shape.f (symbol_bytes matrix.now) matrix.now.cells index) }
{
    match axis {
        Axis::Primary => Vec::from_slice(alloc, matrix.row(index)),
        Axis::Secondary => column_in_memory(alloc, matrix, index),
    }
}

/// Two texts with one digest, from an opening that the metadata over a matrix commits for the line
/// of this axis and index, and whose symbol is not the line's: those of the leaf, or of the lowest
/// node above it, in which the opening's path and the path of the matrix's own symbol differ under
/// one digest.
///
/// It fails only for want of memory.
pub fn collide_opening<H: Hash32>(
    alloc: Global,
    matrix: &Encoded,
    axis: Axis,
    index: u16,
    opening: &OpeningRef<'_>,
) -> Result<Collision, AllocError>
    requires shape { IsShape matrix.now.shape.f matrix.now.shape.length }
    requires long { length matrix.now.cells
        ≡ shards matrix.now * shards matrix.now * symbol_bytes matrix.now }
    requires holds { HoldsOpening H.digest
        (metadata_over H.digest matrix.now.shape matrix.now.cells)
        axis index (opening_shown opening.now) }
    requires apart { opening.now.symbol.now
        ≢ region (symbol_bytes matrix.now)
        (line_of axis matrix.now.shape.f (symbol_bytes matrix.now) matrix.now.cells index)
        opening.now.cross }
    ensures collision { IfOk result (λ c. IsCollision H.digest c.left c.right) }
    // The left text is on the opening's path, and the right one on that of the symbol of the line
    // that crosses the target there.
    ensures texts { let line =
        line_of (crossing axis) matrix.now.shape.f
        (symbol_bytes matrix.now) matrix.now.cells opening.now.cross in
        IfOk result (λ c. MeetOnPaths H.digest index opening.now.symbol.now opening.now.path.now
        (region (symbol_bytes matrix.now) line index)
        (path_over H.digest (symbol_bytes matrix.now) line index) c.left c.right) }
{
    let line = line_in_memory(alloc, matrix, axis.crossing(), opening.cross)?;
    let size = matrix.shape().symbol_size();
    let mut siblings = PathBuf::create();
    path::<H>(&line, size, index, &mut siblings);
    let own = part_at(&line, size as usize, index as usize);
    let count = matrix.shape().n() as u16;
    collide_paths::<H>(
        alloc,
        count,
        index,
        opening.symbol,
        opening.path,
        own,
        siblings.bytes(),
    )
}
