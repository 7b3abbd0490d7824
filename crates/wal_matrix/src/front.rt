//! The columns of a blob's extended matrix, made a few at a time, so that not the whole matrix
//! stands at once.

ghost use Rattle.std.specs.Prelude.{◌≡◌, ℕ, ◌+◌, ◌-◌, ◌*◌, ◌/◌, ◌%◌, ◌<◌, ◌≤◌, ◌^◌, ◌++◌, List};
ghost use Rattle.std.specs.Prelude.{length, take, drop, IfOk, OnOk, slice_index};
ghost use Rattle.wal_kernel.specs.Region.{region};
ghost use Rattle.wal_shape.specs.Shape.{shard_count, row_count, column_count, symbol_size};
ghost use Rattle.wal_matrix.specs.Matrix.{IsExtended, symbol};
ghost use Rattle.wal_matrix.specs.Front.{AreColumns, AreRedundant, IsFrontOf};
ghost use Rattle.wal_matrix.specs.inside.Front.{ArePut};

use crate::rows::{Code, add_row};
use crate::transposition::region;
use std::alloc::{AllocError, Global};
use std::marker::Model;
use wal_fft::{extend_regions, scratch_size};
use wal_shape::Shape;

/// The redundant symbols of the first `f + 1` rows of a blob's extended matrix: with them and the
/// blob's own bytes each column begins with symbols that are at hand.
#[derive(Drop)]
pub struct Front {
    shape: Shape,
    kept: Vec<u8>,
    scratch: Vec<u8>,
}

impl Model for Front {
    ghost use Rattle.std.specs.Prelude.{◌≤◌, length};
    ghost use Rattle.wal_matrix.specs.Front.{FrontState};

    ghost Value = { FrontState };

    ghost view = { λ v. record { shape = v.shape; kept = v.kept.items } };

    ghost invariant = { λ v. 2048 ≤ length v.scratch.items };
}

/// Copies the blob's bytes from `start` on, and zeros where it has none.
pub(crate) fn put_bytes(bytes: &[u8], start: usize, out: &mut [u8])
    requires place { start + length out.old < 2 ^ 32 }
    ensures long { length out.new ≡ length out.old }
    ensures bytes { (k : ℕ) → k < length out.old
        → slice_index out.new k ≡ slice_index bytes.now (start + k) }
{
    let from = start.min(bytes.len());
    let to = (start + out.len()).min(bytes.len());
    let held = to - from;
    out[..held].copy_from_slice(&bytes[from..to]);
    out[held..].fill(0);
}

/// Copies the symbol of a column at one of the first rows.
fn put_symbol(
    bytes: &[u8],
    kept: &[u8],
    faults: usize,
    size: usize,
    row: usize,
    column: usize,
    out: &mut [u8],
)
    requires size { size ≡ symbol_size faults (length bytes.now) }
    requires few { faults ≤ 333 }
    requires fits { shard_count faults * shard_count faults * size < 2 ^ 32 }
    requires kept { AreRedundant faults size bytes.now kept.now }
    requires row { row < row_count faults }
    requires column { column < shard_count faults }
    requires room { length out.old ≡ size }
    ensures long { length out.new ≡ size }
    ensures symbol { (e : List ℕ) → IsExtended faults bytes.now e
        → out.new ≡ symbol (shard_count faults) size e row column }
{
    let columns = 2 * faults + 1;
    if column < columns {
        put_bytes(bytes, (row * columns + column) * size, out);
    } else {
        out.copy_from_slice(region(kept, size, row * faults + (column - columns)));
    }
}

/// Copies the first symbols of `count` columns to the front of a block of these columns, which lies
/// row by row.
fn put_columns(
    bytes: &[u8],
    kept: &[u8],
    faults: usize,
    size: usize,
    first: usize,
    count: usize,
    block: &mut [u8],
)
    requires size { size ≡ symbol_size faults (length bytes.now) }
    requires few { faults ≤ 333 }
    requires fits { shard_count faults * shard_count faults * size < 2 ^ 32 }
    requires kept { AreRedundant faults size bytes.now kept.now }
    requires some { 1 ≤ count }
    requires columns { first + count ≤ shard_count faults }
    requires room { row_count faults * count * size ≤ length block.old }
    ensures long { length block.new ≡ length block.old }
    ensures put { ArePut faults size bytes.now first count (row_count faults * count) block.new }
{
    for place in 0..(faults + 1) * count {
        let out = &mut block[place * size..(place + 1) * size];
        put_symbol(
            bytes,
            kept,
            faults,
            size,
            place / count,
            first + place % count,
            out,
        );
    }
}

/// Extends the columns of a block of `count` columns, of which the first symbols are there.
fn extend_columns(faults: u16, size: usize, count: usize, block: &mut [u8], scratch: &mut [u8])
    requires few { faults ≤ 333 }
    requires even { size % 2 ≡ 0 }
    requires filled { 0 < size }
    requires fits { shard_count faults * shard_count faults * size < 2 ^ 32 }
    requires columns { count ≤ shard_count faults }
    requires room { length block.old ≡ shard_count faults * (count * size) }
    requires scratch { 2048 ≤ length scratch.old }
    ensures columns { (bytes : List ℕ) (first : ℕ) → size ≡ symbol_size faults (length bytes)
        → first + count ≤ shard_count faults
        → ArePut faults size bytes first count (row_count faults * count) block.old
        → AreColumns faults size bytes first count block.new }
{
    extend_regions(faults + 1, 3 * faults + 1, count * size, block, scratch);
}

/// Keeps the redundant symbols of a row.
fn keep_row(row: &[u8], width: usize, kept: &mut Vec<u8>) -> Result<(), AllocError>
    requires { width ≤ length row.now }
    ensures kept { OnOk result (kept.new.items ≡ kept.old.items ++ drop width row.now) }
    ensures bytes { (i : ℕ) → slice_index row.now i < 256 }
{
    kept.extend_from_slice(&row[width..])?;
    Ok(())
}

/// The redundant symbols of the first `f + 1` rows.
fn redundant_rows(
    alloc: Global,
    f: u16,
    size: usize,
    bytes: &[u8],
    scratch: &mut [u8],
) -> Result<Vec<u8>, AllocError>
    requires few { f ≤ 333 }
    requires even { size % 2 ≡ 0 }
    requires filled { 0 < size }
    requires size { size ≡ symbol_size f (length bytes.now) }
    requires fits { shard_count f * shard_count f * size < 2 ^ 32 }
    requires scratch { 2048 ≤ length scratch.old }
    ensures { IfOk result (λ v. AreRedundant f size bytes.now v.items) }
{
    let columns = 2 * f + 1;
    let shards = 3 * f + 1;
    let width = columns as usize * size;
    let code = Code {
        known: columns,
        total: shards,
        size,
    };
    let mut row = Vec::with_capacity(alloc, shards as usize * size)?;
    let mut kept = Vec::with_capacity(alloc, (f as usize + 1) * f as usize * size)?;
    for index in 0..f as usize + 1 {
        row.clear();
        add_row(&mut row, bytes, index * width, code, scratch)?;
        keep_row(&row, width, &mut kept)?;
    }
    Ok(kept)
}

impl Front {
    /// Keeps what is needed to make the columns of the blob's extended matrix.
    pub fn create(alloc: Global, shape: &Shape, bytes: &[u8]) -> Result<Front, AllocError>
        requires { length bytes.now ≡ shape.now.length }
        ensures shape { IfOk result (λ v. v.shape ≡ shape.now) }
        ensures front { IfOk result (IsFrontOf bytes.now) }
    {
        let faults = shape.f() as u16;
        let size = shape.symbol_size() as usize;
        let room = scratch_size(3 * faults + 1, shape.n() as usize * size);
        let mut scratch = vec![in alloc; 0u8; room]?;
        let kept = redundant_rows(alloc, faults, size, bytes, &mut scratch)?;
        Ok(Front {
            shape: *shape,
            kept,
            scratch,
        })
    }

    /// Fills a block with `count` columns of the extended matrix of the blob with these bytes, from
    /// column `first` on. The block lies row by row.
    pub fn columns(&mut self, bytes: &[u8], first: u16, count: u16, block: &mut [u8])
        requires front { IsFrontOf bytes.now self.old }
        requires some { 1 ≤ count }
        requires columns { first + count ≤ shard_count self.old.shape.f }
        requires room { length block.old
            ≡ shard_count self.old.shape.f
            * (count * symbol_size self.old.shape.f self.old.shape.length) }
        ensures front { self.new ≡ self.old }
        ensures long { length block.new ≡ length block.old }
        ensures columns { AreColumns self.old.shape.f
            (symbol_size self.old.shape.f self.old.shape.length)
            bytes.now first count block.new }
    {
        let faults = self.shape.f() as u16;
        let size = self.shape.symbol_size() as usize;
        put_columns(
            bytes,
            &self.kept,
            faults as usize,
            size,
            first as usize,
            count as usize,
            block,
        );
        extend_columns(faults, size, count as usize, block, &mut self.scratch);
    }
}
