//! The extended matrix of a blob. That of short symbols is made by one extension for both
//! directions, of turned blocks.

ghost use Rattle.std.specs.Prelude.{◌≡◌, ℕ, ◌+◌, ◌-◌, ◌*◌, ◌%◌, ◌<◌, ◌≤◌, ◌^◌, length, IfOk};
ghost use Rattle.std.specs.Prelude.{slice_index, vec_len};
ghost use Rattle.wal_shape.specs.Shape.{shard_count, row_count, column_count};
ghost use Rattle.wal_matrix.specs.Matrix.{padded, IsMatrixOf, IsExtended};
ghost use Rattle.wal_matrix.specs.inside.Turned.{IsTurnedExtension};

use crate::rows::extended_rows;
use crate::transposition::transpose;
use std::alloc::{AllocError, Global};
use wal_fft::{extend_regions, scratch_size};
use wal_shape::Shape;

/// Symbols of so many bytes are long: a row of them is extended as it lies, and needs not be
/// turned.
const LONG: usize = 256;

/// Turns a block, and extends what were its rows.
fn turn_and_extend(
    block: &[u8],
    lines: u16,
    known: u16,
    total: u16,
    size: usize,
    turned: &mut [u8],
    scratch: &mut [u8],
)
    requires some { 1 ≤ known }
    requires fewer { known ≤ total }
    requires few { total ≤ 1000 }
    requires even { size % 2 ≡ 0 }
    requires filled { 0 < size }
    requires block { length block.now ≡ lines * known * size }
    requires room { length turned.old ≡ total * (lines * size) }
    requires scratch { 2048 ≤ length scratch.old }
    ensures turned { IsTurnedExtension lines known total size block.now turned.new }
    ensures bytes { (i : ℕ) → slice_index turned.new i < 256 }
{
    let run = lines as usize * size;
    let front = &mut turned[..known as usize * run];
    transpose(block, lines as usize, known as usize, size, front);
    extend_regions(known, total, run, turned, scratch);
}

/// A block of `lines` rows of `known` symbols, of which each row is extended to `total` symbols,
/// and which is turned: the result has `total` rows of `lines` symbols.
fn extended(
    alloc: Global,
    block: &[u8],
    lines: u16,
    known: u16,
    total: u16,
    size: usize,
    scratch: &mut [u8],
) -> Result<Vec<u8>, AllocError>
    requires some { 1 ≤ known }
    requires fewer { known ≤ total }
    requires few { total ≤ 1000 }
    requires even { size % 2 ≡ 0 }
    requires filled { 0 < size }
    requires block { length block.now ≡ lines * known * size }
    requires fits { total * (lines * size) < 2 ^ 32 }
    requires scratch { 2048 ≤ length scratch.old }
    ensures long { IfOk result (λ v. vec_len v ≡ total * (lines * size)) }
    ensures turned { IfOk result (λ v. IsTurnedExtension lines known total size block.now v.items) }
    ensures bytes { IfOk result (λ v. (i : ℕ) → slice_index v.items i < 256) }
{
    let mut turned = vec![in alloc; 0u8; total as usize * (lines as usize * size)]?;
    turn_and_extend(block, lines, known, total, size, &mut turned, scratch);
    Ok(turned)
}

/// The bytes of the matrix that has this source block.
fn extended_block(alloc: Global, f: u16, size: usize, block: &[u8]) -> Result<Vec<u8>, AllocError>
    requires some { 1 ≤ f }
    requires few { f ≤ 333 }
    requires even { size % 2 ≡ 0 }
    requires filled { 0 < size }
    requires block { length block.now ≡ row_count f * column_count f * size }
    requires fits { shard_count f * shard_count f * size < 2 ^ 32 }
    ensures { IfOk result (λ v. IsMatrixOf f size block.now v.items) }
{
    let rows = f + 1;
    let columns = 2 * f + 1;
    let shards = 3 * f + 1;
    let mut scratch = vec![in alloc; 0u8; scratch_size(shards, shards as usize * size)]?;
    let by_columns = extended(alloc, block, rows, columns, shards, size, &mut scratch)?;
    let cells = extended(alloc, &by_columns, shards, rows, shards, size, &mut scratch)?;
    Ok(cells)
}

/// The source block: the blob's bytes, and zeros after them.
fn source_block(alloc: Global, shape: &Shape, bytes: &[u8]) -> Result<Vec<u8>, AllocError>
    requires { length bytes.now ≡ shape.now.length }
    ensures { IfOk result (λ v. v.items ≡ padded shape.now.f bytes.now) }
{
    let size = shape.rows() * shape.cols() * shape.symbol_size();
    let mut block = Vec::with_capacity(alloc, size as usize)?;
    block.extend_from_slice(bytes)?;
    block.resize(size as usize, 0)?;
    Ok(block)
}

/// The bytes of the extended matrix, by a block that is turned before each extension.
pub(crate) fn turned_cells(
    alloc: Global,
    shape: &Shape,
    bytes: &[u8],
) -> Result<Vec<u8>, AllocError>
    requires { length bytes.now ≡ shape.now.length }
    ensures { IfOk result (λ v. IsExtended shape.now.f bytes.now v.items) }
{
    let faults = shape.f() as u16;
    let block = source_block(alloc, shape, bytes)?;
    extended_block(alloc, faults, shape.symbol_size() as usize, &block)
}

/// The bytes of the extended matrix.
pub(crate) fn extended_cells(
    alloc: Global,
    shape: &Shape,
    bytes: &[u8],
) -> Result<Vec<u8>, AllocError>
    requires { length bytes.now ≡ shape.now.length }
    ensures matrix { IfOk result (λ v. IsExtended shape.now.f bytes.now v.items) }
    ensures few { shape.now.f ≤ 333 }
{
    let faults = shape.f() as u16;
    let size = shape.symbol_size() as usize;
    if size < LONG {
        return turned_cells(alloc, shape, bytes);
    }
    extended_rows(alloc, faults, size, bytes)
}
