//! How a blob is laid out over the shards.

ghost use Rattle.std.specs.Prelude.{◌≡◌, ℕ, ◌+◌, ◌*◌, ◌^◌, ◌<◌, ◌≤◌, ◌↔◌, IfOk, IsOk};
ghost use Rattle.wal_shape.specs.Shape.{BlobShape, IsShape, IsSymbolSize, shard_count, row_count};
ghost use Rattle.wal_shape.specs.Shape.{column_count, symbol_size, sliver_symbols, most_bytes};
ghost use Rattle.wal_shape.specs.declared.shape.Format.TheVariants.{One};
ghost use Rattle.wal_shape.specs.declared.shape.ShapeError.TheVariants.{BadFaults, TooLong};

use crate::axis::Axis;
use std::marker::Model;

/// How an identifier is computed, and which sliver a shard holds.
#[derive(Clone, Copy, Debug, PartialEq, Eq)]
pub enum Format {
    /// Shard i holds primary sliver i and secondary sliver i.
    One,
    /// Shard i of n holds primary sliver i and secondary sliver `n - 1 - i`, and the identifier's
    /// text names the format.
    Two,
}

/// Why there is no such shape.
#[derive(Clone, Copy, Debug, PartialEq, Eq)]
pub enum ShapeError {
    /// The number of faults is not from 1 to 333.
    BadFaults,
    /// The blob is longer than 16,777,216 bytes (16 MiB).
    TooLong,
}

/// The most faulty shards.
const MOST_FAULTS: u32 = 333;

/// The most bytes of a blob, which is 16 MiB.
pub const MOST_BYTES: u64 = 16_777_216;

/// The numbers that a blob's matrix is laid out by.
///
/// A blob of `length` bytes is stored over `n = 3f + 1` shards, of which at most `f` are faulty. It
/// fills a source block of `f + 1` rows and `2f + 1` columns of symbols (Walrus paper, "Red
/// Stuff").
#[derive(Clone, Copy, Debug)]
pub struct Shape {
    format: Format,
    f: u32,
    length: u64,
}

impl Model for Shape {
    ghost use Rattle.wal_shape.specs.Shape.{BlobShape, IsShape};

    ghost Value = { BlobShape };

    ghost view = { λ s. record { format = s.format; f = s.f; length = s.length } };

    ghost invariant = { λ s. IsShape s.f s.length };

    ghost inverse = { λ v. record { format = v.format; f = v.f; length = v.length } };
}

impl Shape {
    /// The shape of format one for `f` faults and a blob of `length` bytes.
    pub fn new(f: u32, length: u64) -> Result<Shape, ShapeError>
        ensures ok { IfOk result
            (λ s. IsShape f length × (s ≡ record { format = One; f = f; length = length })) }
        ensures made { IsShape f length → IsOk result }
        ensures bad_faults { (result ≡ Err BadFaults) ↔ ¬ ((1 ≤ f) × (f ≤ 333)) }
        ensures too_long { (result ≡ Err TooLong) ↔ ((1 ≤ f) × (f ≤ 333) × (most_bytes < length)) }
    {
        if f < 1 || f > MOST_FAULTS {
            return Err(ShapeError::BadFaults);
        }
        if length > MOST_BYTES {
            return Err(ShapeError::TooLong);
        }
        Ok(Shape {
            format: Format::One,
            f,
            length,
        })
    }

    /// The same shape with this format.
    pub fn with_format(self, format: Format) -> Shape
        ensures { result ≡ record { format = format; f = self.f; length = self.length } }
    {
        Shape { format, ..self }
    }

    /// The format of the identifier.
    pub fn format(&self) -> Format
        ensures { result ≡ self.now.format }
    {
        self.format
    }

    /// The most shards that are faulty.
    pub fn f(&self) -> u32
        ensures value { result ≡ self.now.f }
        ensures shape { IsShape self.now.f self.now.length }
    {
        self.f
    }

    /// The number of bytes of the blob.
    pub fn length(&self) -> u64
        ensures value { result ≡ self.now.length }
        ensures shape { IsShape self.now.f self.now.length }
    {
        self.length
    }

    /// The number of shards.
    pub fn n(&self) -> u32
        ensures value { result ≡ shard_count self.now.f }
        ensures least { 4 ≤ result }
        ensures most { result ≤ 1000 }
    {
        3 * self.f + 1
    }

    /// The number of rows of the source block.
    pub fn rows(&self) -> u32
        ensures value { result ≡ row_count self.now.f }
        ensures least { 2 ≤ result }
        ensures most { result ≤ 334 }
    {
        self.f + 1
    }

    /// The number of columns of the source block.
    pub fn cols(&self) -> u32
        ensures value { result ≡ column_count self.now.f }
        ensures least { 3 ≤ result }
        ensures most { result ≤ 667 }
    {
        2 * self.f + 1
    }

    /// The number of bytes of a symbol.
    pub fn symbol_size(&self) -> u32
        ensures value { result ≡ symbol_size self.now.f self.now.length }
        ensures least { IsSymbolSize self.now.f self.now.length result }
        ensures matrix { shard_count self.now.f * shard_count self.now.f * result < 77497472 }
    {
        let words = 2 * u64::from(self.rows() * self.cols());
        2 * self.length.div_ceil(words).max(1) as u32
    }

    /// The number of bytes of a sliver.
    pub fn sliver_len(&self, axis: Axis) -> u32
        ensures value { result
            ≡ sliver_symbols axis self.now.f * symbol_size self.now.f self.now.length }
        ensures most { result < 77497472 }
    {
        let symbols = match axis {
            Axis::Primary => self.cols(),
            Axis::Secondary => self.rows(),
        };
        symbols * self.symbol_size()
    }
}
