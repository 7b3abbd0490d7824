//! A blob's extended matrix, and its slivers.

ghost use Rattle.std.specs.Prelude.{◌≡◌, ℕ, ◌*◌, ◌<◌, List, length, IfOk};
ghost use Rattle.wal_shape.specs.Shape.{row_count, column_count};
ghost use Rattle.wal_matrix.specs.Matrix.{IsExtended, row_of, primary_of, column_of, secondary_of};
ghost use Rattle.wal_matrix.specs.Matrix.{shards, symbol_bytes};

use crate::blocks::extended_cells;
use crate::transposition::{copy_column, region};
use std::alloc::{AllocError, Global};
use std::marker::Model;
use wal_shape::Shape;

/// A blob's extended matrix (Walrus paper, "Red Stuff").
///
/// It has n rows and n columns of symbols, and lies row by row. The first `f + 1` rows and `2f + 1`
/// columns are the source block. Contracts see the shape and the bytes.
#[derive(Drop)]
pub struct Encoded {
    shape: Shape,
    cells: Vec<u8>,
}

impl Model for Encoded {
    ghost use Rattle.std.specs.Prelude.{◌≡◌, ◌*◌, length};
    ghost use Rattle.wal_shape.specs.Shape.{shard_count, symbol_size};
    ghost use Rattle.wal_matrix.specs.Matrix.{EncodedBlob};

    ghost Value = { EncodedBlob };

    ghost view = { λ e. record { shape = e.shape; cells = e.cells.items } };

    ghost invariant = { λ e. length e.cells.items
        ≡ shard_count e.shape.f * shard_count e.shape.f * symbol_size e.shape.f e.shape.length };
}

/// The extended matrix of a blob.
pub fn extend(alloc: Global, shape: &Shape, bytes: &[u8]) -> Result<Encoded, AllocError>
    requires { length bytes.now ≡ shape.now.length }
    ensures shape { IfOk result (λ e. e.shape ≡ shape.now) }
    ensures matrix { IfOk result (λ e. IsExtended shape.now.f bytes.now e.cells) }
    ensures only { IfOk result (λ e. (other : List ℕ) → IsExtended shape.now.f bytes.now other
        → other ≡ e.cells) }
{
    let cells = extended_cells(alloc, shape, bytes)?;
    Ok(Encoded {
        shape: *shape,
        cells,
    })
}

impl Encoded {
    /// The shape that the matrix was made for.
    pub fn shape(&self) -> &Shape
        ensures { result.now ≡ self.now.shape }
    {
        &self.shape
    }

    /// The bytes of the matrix, symbol by symbol and row by row.
    pub fn cells(&self) -> &[u8]
        ensures value { result.now ≡ self.now.cells }
        ensures long { length result.now
            ≡ shards self.now * shards self.now * symbol_bytes self.now }
    {
        &self.cells
    }

    /// Row i, which is primary sliver i extended to n symbols.
    pub fn row(&self, i: u16) -> &[u8]
        requires { i < shards self.now }
        ensures value { result.now
            ≡ row_of (shards self.now) (symbol_bytes self.now) self.now.cells i }
        ensures long { length result.now ≡ shards self.now * symbol_bytes self.now }
    {
        let run = self.shape.n() as usize * self.shape.symbol_size() as usize;
        region(&self.cells, run, i as usize)
    }

    /// Primary sliver i: the first `2f + 1` symbols of row i.
    pub fn primary(&self, i: u16) -> &[u8]
        requires { i < shards self.now }
        ensures value { result.now
            ≡ primary_of self.now.shape.f (symbol_bytes self.now) self.now.cells i }
        ensures long { length result.now ≡ column_count self.now.shape.f * symbol_bytes self.now }
    {
        let end = self.shape.cols() as usize * self.shape.symbol_size() as usize;
        &self.row(i)[..end]
    }

    /// Column j, which is secondary sliver j extended to n symbols.
    pub fn column(&self, j: u16, out: &mut [u8])
        requires place { j < shards self.now }
        requires room { length out.old ≡ shards self.now * symbol_bytes self.now }
        ensures { out.new ≡ column_of (shards self.now) (symbol_bytes self.now) self.now.cells j }
    {
        let count = self.shape.n() as usize;
        let size = self.shape.symbol_size() as usize;
        copy_column(&self.cells, count, count, size, j as usize, out);
    }

    /// Secondary sliver j: the first `f + 1` symbols of column j.
    pub fn secondary(&self, j: u16, out: &mut [u8])
        requires place { j < shards self.now }
        requires room { length out.old ≡ row_count self.now.shape.f * symbol_bytes self.now }
        ensures { out.new ≡ secondary_of self.now.shape.f (symbol_bytes self.now) self.now.cells j }
    {
        let rows = self.shape.rows() as usize;
        let count = self.shape.n() as usize;
        let size = self.shape.symbol_size() as usize;
        copy_column(&self.cells, rows, count, size, j as usize, out);
    }
}
