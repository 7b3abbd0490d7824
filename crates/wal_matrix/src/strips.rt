//! A blob's extended matrix, made a strip of each symbol at a time, so that neither rows nor
//! columns of it stand whole.

ghost use Rattle.std.specs.Prelude.{◌≡◌, ℕ, ◌+◌, ◌*◌, ◌%◌, ◌<◌, ◌≤◌, ◌^◌, List, length, IfOk};
ghost use Rattle.wal_shape.specs.Shape.{shard_count, row_count, column_count, symbol_size};
ghost use Rattle.wal_matrix.specs.Strips.{IsMatrixStrip};
ghost use Rattle.wal_matrix.specs.inside.Strips.{AreSources, IsRowStrip, AreRowStrips};

use crate::front::put_bytes;
use std::alloc::{AllocError, Global};
use std::marker::Model;
use wal_fft::{extend_regions, scratch_size};
use wal_shape::Shape;

/// Strips of a blob's extended matrix: of each symbol the same bytes.
#[derive(Drop)]
pub struct Strips {
    shape: Shape,
    scratch: Vec<u8>,
}

impl Model for Strips {
    ghost use Rattle.std.specs.Prelude.{◌≤◌, length};
    ghost use Rattle.wal_shape.specs.Shape.{BlobShape};

    ghost Value = { BlobShape };

    ghost view = { λ v. v.shape };

    ghost invariant = { λ v. 2048 ≤ length v.scratch.items };
}

/// The part of each symbol that a strip holds.
#[derive(Clone, Copy)]
struct Cut {
    /// The bytes of a symbol.
    size: usize,
    /// The bytes of a symbol that come before the part.
    from: usize,
    /// The bytes of the part.
    long: usize,
}

/// Copies the strips of the source symbols of a row.
fn put_sources(bytes: &[u8], faults: usize, cut: Cut, row: usize, cells: &mut [u8])
    requires few { faults ≤ 333 }
    requires fits { shard_count faults * shard_count faults * cut.size < 2 ^ 32 }
    requires row { row < row_count faults }
    requires within { cut.from + cut.long ≤ cut.size }
    requires room { column_count faults * cut.long ≤ length cells.old }
    ensures long { length cells.new ≡ length cells.old }
    ensures sources { AreSources faults cut.size bytes.now row
        cut.from cut.long (column_count faults) cells.new }
{
    let columns = 2 * faults + 1;
    for column in 0..columns {
        let start = (row * columns + column) * cut.size + cut.from;
        let part = &mut cells[column * cut.long..(column + 1) * cut.long];
        put_bytes(bytes, start, part);
    }
}

/// Extends the strips of the source symbols of a row to those of all its symbols.
fn extend_sources(faults: u16, long: usize, cells: &mut [u8], scratch: &mut [u8])
    requires few { faults ≤ 333 }
    requires even { long % 2 ≡ 0 }
    requires room { length cells.old ≡ shard_count faults * long }
    requires scratch { 2048 ≤ length scratch.old }
    ensures row { (bytes : List ℕ) (size row from : ℕ) → size ≡ symbol_size faults (length bytes)
        → row < row_count faults → from % 2 ≡ 0 → from + long ≤ size
        → AreSources faults size bytes row from long (column_count faults) cells.old
        → IsRowStrip faults size bytes row from long cells.new }
{
    extend_regions(2 * faults + 1, 3 * faults + 1, long, cells, scratch);
}

/// Fills the strips of the symbols of one of the first rows.
fn fill_row(bytes: &[u8], faults: u16, cut: Cut, row: usize, cells: &mut [u8], scratch: &mut [u8])
    requires few { faults ≤ 333 }
    requires size { cut.size ≡ symbol_size faults (length bytes.now) }
    requires fits { shard_count faults * shard_count faults * cut.size < 2 ^ 32 }
    requires row { row < row_count faults }
    requires even { cut.long % 2 ≡ 0 }
    requires even_from { cut.from % 2 ≡ 0 }
    requires within { cut.from + cut.long ≤ cut.size }
    requires room { length cells.old ≡ shard_count faults * cut.long }
    requires scratch { 2048 ≤ length scratch.old }
    ensures long { length cells.new ≡ length cells.old }
    ensures row { IsRowStrip faults cut.size bytes.now row cut.from cut.long cells.new }
{
    put_sources(bytes, faults as usize, cut, row, cells);
    extend_sources(faults, cut.long, cells, scratch);
}

/// Fills the strips of the symbols of the first `f + 1` rows.
fn fill_rows(bytes: &[u8], faults: u16, cut: Cut, strip: &mut [u8], scratch: &mut [u8])
    requires few { faults ≤ 333 }
    requires size { cut.size ≡ symbol_size faults (length bytes.now) }
    requires fits { shard_count faults * shard_count faults * cut.size < 2 ^ 32 }
    requires even { cut.long % 2 ≡ 0 }
    requires even_from { cut.from % 2 ≡ 0 }
    requires within { cut.from + cut.long ≤ cut.size }
    requires room { length strip.old ≡ shard_count faults * (shard_count faults * cut.long) }
    requires scratch { 2048 ≤ length scratch.old }
    ensures long { length strip.new ≡ length strip.old }
    ensures rows { AreRowStrips faults cut.size bytes.now (row_count faults)
        cut.from cut.long strip.new }
{
    let run = (3 * faults as usize + 1) * cut.long;
    for row in 0..faults as usize + 1 {
        let cells = &mut strip[row * run..(row + 1) * run];
        fill_row(bytes, faults, cut, row, cells, scratch);
    }
}

/// Extends the strips of the first rows to those of all rows.
fn extend_rows(faults: u16, long: usize, strip: &mut [u8], scratch: &mut [u8])
    requires few { faults ≤ 333 }
    requires even { long % 2 ≡ 0 }
    requires room { length strip.old ≡ shard_count faults * (shard_count faults * long) }
    requires fits { shard_count faults * (shard_count faults * long) < 2 ^ 32 }
    requires scratch { 2048 ≤ length scratch.old }
    ensures strip { (bytes : List ℕ) (size from : ℕ) → size ≡ symbol_size faults (length bytes)
        → from % 2 ≡ 0 → from + long ≤ size
        → AreRowStrips faults size bytes (row_count faults) from long strip.old
        → IsMatrixStrip faults size bytes from long strip.new }
{
    let shards = 3 * faults + 1;
    extend_regions(faults + 1, shards, shards as usize * long, strip, scratch);
}

impl Strips {
    /// Takes the memory of all later calls.
    pub fn create(alloc: Global, shape: &Shape) -> Result<Strips, AllocError>
        ensures { IfOk result (λ v. v ≡ shape.now) }
    {
        let shards = shape.n();
        let room = scratch_size(
            shards as u16,
            shards as usize * shape.symbol_size() as usize,
        );
        let scratch = vec![in alloc; 0u8; room]?;
        Ok(Strips {
            shape: *shape,
            scratch,
        })
    }

    /// Fills a strip: `long` bytes of each symbol of the extended matrix of the blob with these
    /// bytes, from `from` on, row by row. Takes no memory.
    pub fn fill(&mut self, bytes: &[u8], from: usize, long: usize, strip: &mut [u8])
        requires blob { length bytes.now ≡ self.old.length }
        requires some { 2 ≤ long }
        requires even { long % 2 ≡ 0 }
        requires even_from { from % 2 ≡ 0 }
        requires within { from + long ≤ symbol_size self.old.f self.old.length }
        requires room { length strip.old ≡ shard_count self.old.f * shard_count self.old.f * long }
        ensures same { self.new ≡ self.old }
        ensures long { length strip.new ≡ length strip.old }
        ensures strip { IsMatrixStrip self.old.f (symbol_size self.old.f self.old.length)
            bytes.now from long strip.new }
    {
        let faults = self.shape.f() as u16;
        let cut = Cut {
            size: self.shape.symbol_size() as usize,
            from,
            long,
        };
        fill_rows(bytes, faults, cut, strip, &mut self.scratch);
        extend_rows(faults, long, strip, &mut self.scratch);
    }
}
