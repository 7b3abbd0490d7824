//! The source block from any `f + 1` primary slivers.

ghost use Rattle.std.specs.Prelude.{◌≡◌, ℕ, ◌*◌, ◌%◌, ◌<◌, ◌≤◌, ◌^◌, List, length, All, IfOk};
ghost use Rattle.std.specs.Prelude.{slice_index, vec_len};
ghost use Rattle.wal_code.specs.Codeword.{Distinct, coefficient};
ghost use Rattle.wal_kernel.specs.Region.{region};
ghost use Rattle.wal_shape.specs.Shape.{shard_count, row_count, column_count, symbol_size};
ghost use Rattle.wal_matrix.specs.inside.Sum.{IsWeightedSum};
ghost use Rattle.wal_matrix.specs.Through.{IsMatrixThrough, source_of};

use crate::solving::solve_first;
use std::alloc::{AllocError, Global};
use wal_fft::scratch_size;
use wal_shape::{Bytes, Shape};

/// The first rows, from as many rows at the known indices, where each column is a codeword.
fn first_rows(
    alloc: Global,
    total: u16,
    rows: u16,
    size: usize,
    known: &[u16],
    joined: &[u8],
) -> Result<Vec<u8>, AllocError>
    requires few { total ≤ 1000 }
    requires enough { rows ≤ total }
    requires even { size % 2 ≡ 0 }
    requires count { length known.now ≡ rows }
    requires distinct { Distinct known.now }
    requires below { All (λ i. i < total) known.now }
    requires joined { length joined.now ≡ rows * size }
    requires fits { rows * size < 2 ^ 32 }
    ensures long { IfOk result (λ v. vec_len v ≡ rows * size) }
    ensures bytes { IfOk result (λ v. (i : ℕ) → slice_index v.items i < 256) }
    ensures sums { IfOk result (λ v. (r : ℕ) → r < rows
        → IsWeightedSum (λ k. coefficient known.now (slice_index known.now k) r)
        size joined.now rows
        (region size v.items r)) }
{
    let mut scratch = vec![in alloc; 0u8; scratch_size(total, size)]?;
    let mut block = vec![in alloc; 0u8; rows as usize * size]?;
    solve_first(known, total, rows, size, joined, &mut block, &mut scratch);
    Ok(block)
}

/// The source block of the one matrix whose rows at these indices begin with the joined primary
/// slivers, one after the other. Zeros after the blob are part of it.
///
/// Any `f + 1` rows determine each column, since a polynomial of degree at most f has as many
/// coefficients (Walrus paper, "Red Stuff").
pub fn decode_primaries(
    alloc: Global,
    shape: &Shape,
    indices: &[u16],
    joined: &[u8],
) -> Result<Bytes, AllocError>
    requires count { length indices.now ≡ row_count shape.now.f }
    requires distinct { Distinct indices.now }
    requires below { All (λ i. i < shard_count shape.now.f) indices.now }
    requires size { length joined.now ≡ row_count shape.now.f
        * (column_count shape.now.f * symbol_size shape.now.f shape.now.length) }
    ensures decoded { IfOk result (λ block. (e : List ℕ)
        × IsMatrixThrough shape.now.f
        (symbol_size shape.now.f shape.now.length) indices.now joined.now e
        × (block ≡ source_of shape.now.f (symbol_size shape.now.f shape.now.length) e)) }
    ensures only { IfOk result (λ block. (e : List ℕ)
        → IsMatrixThrough shape.now.f
        (symbol_size shape.now.f shape.now.length) indices.now joined.now e
        → source_of shape.now.f (symbol_size shape.now.f shape.now.length) e ≡ block) }
{
    let total = shape.n() as u16;
    let rows = shape.rows() as u16;
    let size = shape.cols() as usize * shape.symbol_size() as usize;
    let block = first_rows(alloc, total, rows, size, indices, joined)?;
    Ok(Bytes::from_vec(block))
}
