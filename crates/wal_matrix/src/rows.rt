//! A matrix of long symbols: the rows are laid into the matrix itself, and extended in place.

ghost use Rattle.std.specs.Prelude.{◌≡◌, ℕ, ◌+◌, ◌-◌, ◌*◌, ◌%◌, ◌<◌, ◌≤◌, ◌^◌, ◌++◌, length, take};
ghost use Rattle.std.specs.Prelude.{drop, IfOk, OnOk, slice_index, vec_len};
ghost use Rattle.wal_code.specs.Codeword.{IsCodeword};
ghost use Rattle.wal_kernel.specs.Region.{word_at, region};
ghost use Rattle.wal_shape.specs.Shape.{shard_count, row_count, column_count, symbol_size};
ghost use Rattle.wal_matrix.specs.Matrix.{IsExtended};
ghost use Rattle.wal_matrix.specs.inside.Row.{laid_row, IsRowFrom};

use std::alloc::{AllocError, Global};
use wal_fft::{extend_regions, scratch_size};

/// The code of a row.
#[derive(Clone, Copy)]
pub(crate) struct Code {
    /// How many first symbols of a codeword determine the others.
    pub(crate) known: u16,
    /// How many symbols a codeword has.
    pub(crate) total: u16,
    /// The bytes of a symbol.
    pub(crate) size: usize,
}

/// Appends at most `width` bytes of the blob, from `start` on, and zeros to the end of the row of
/// `run` bytes.
fn lay_row(
    cells: &mut Vec<u8>,
    bytes: &[u8],
    start: usize,
    width: usize,
    run: usize,
) -> Result<(), AllocError>
    requires room { width ≤ run }
    requires fits { vec_len cells.old + run < 2 ^ 32 }
    requires place { start + width < 2 ^ 32 }
    ensures { OnOk result
        (cells.new.items ≡ cells.old.items ++ laid_row start width run bytes.now) }
{
    let end = cells.len() + run;
    let from = start.min(bytes.len());
    let to = (start + width).min(bytes.len());
    cells.extend_from_slice(&bytes[from..to])?;
    cells.resize(end, 0)?;
    Ok(())
}

/// Extends the row that begins at this place.
fn extend_row(cells: &mut [u8], place: usize, code: Code, scratch: &mut [u8])
    requires fewer { code.known ≤ code.total }
    requires few { code.total ≤ 1000 }
    requires even { code.size % 2 ≡ 0 }
    requires row { length cells.old ≡ place + code.total * code.size }
    requires scratch { 2048 ≤ length scratch.old }
    ensures kept { take (place + code.known * code.size) cells.new
        ≡ take (place + code.known * code.size) cells.old }
    ensures codeword { (w : ℕ) → 2 * w < code.size
        → IsCodeword code.known code.total
        (λ c. word_at (region code.size (drop place cells.new) c) w) }
{
    let row = &mut cells[place..];
    extend_regions(code.known, code.total, code.size, row, scratch);
}

/// Appends the row that begins with the bytes of the blob from `start` on.
pub(crate) fn add_row(
    cells: &mut Vec<u8>,
    bytes: &[u8],
    start: usize,
    code: Code,
    scratch: &mut [u8],
) -> Result<(), AllocError>
    requires fewer { code.known ≤ code.total }
    requires few { code.total ≤ 1000 }
    requires even { code.size % 2 ≡ 0 }
    requires fits { vec_len cells.old + code.total * code.size < 2 ^ 32 }
    requires place { start + code.known * code.size < 2 ^ 32 }
    requires scratch { 2048 ≤ length scratch.old }
    ensures long { OnOk result (vec_len cells.new ≡ vec_len cells.old + code.total * code.size) }
    ensures kept { OnOk result (take (vec_len cells.old) cells.new.items ≡ cells.old.items) }
    ensures row { OnOk result (IsRowFrom code.known code.total code.size bytes.now start
        (drop (vec_len cells.old) cells.new.items)) }
{
    let place = cells.len();
    let width = code.known as usize * code.size;
    let run = code.total as usize * code.size;
    lay_row(cells, bytes, start, width, run)?;
    extend_row(cells, place, code, scratch);
    Ok(())
}

/// The first `f + 1` rows, with room for all.
fn first_rows(
    alloc: Global,
    f: u16,
    size: usize,
    bytes: &[u8],
    scratch: &mut [u8],
) -> Result<Vec<u8>, AllocError>
    requires few { f ≤ 333 }
    requires even { size % 2 ≡ 0 }
    requires fits { shard_count f * shard_count f * size < 2 ^ 32 }
    requires scratch { 2048 ≤ length scratch.old }
    ensures long { IfOk result (λ v. vec_len v ≡ row_count f * (shard_count f * size)) }
    ensures rows { IfOk result (λ v. (r : ℕ) → r < row_count f
        → IsRowFrom (column_count f) (shard_count f) size bytes.now (r * (column_count f * size))
        (region (shard_count f * size) v.items r)) }
{
    let columns = 2 * f + 1;
    let shards = 3 * f + 1;
    let width = columns as usize * size;
    let run = shards as usize * size;
    let code = Code {
        known: columns,
        total: shards,
        size,
    };
    let mut cells = Vec::with_capacity(alloc, shards as usize * run)?;
    for row in 0..f as usize + 1 {
        add_row(&mut cells, bytes, row * width, code, scratch)?;
    }
    Ok(cells)
}

/// Extends the first rows, of `run` bytes, to all.
fn extend_down(rows: u16, total: u16, run: usize, cells: &mut [u8], scratch: &mut [u8])
    requires fewer { rows ≤ total }
    requires few { total ≤ 1000 }
    requires even { run % 2 ≡ 0 }
    requires room { length cells.old ≡ total * run }
    requires scratch { 2048 ≤ length scratch.old }
    ensures same { take (rows * run) cells.new ≡ take (rows * run) cells.old }
    ensures codeword { (w : ℕ) → 2 * w < run
        → IsCodeword rows total (λ r. word_at (region run cells.new r) w) }
    ensures bytes { (i : ℕ) → slice_index cells.new i < 256 }
{
    extend_regions(rows, total, run, cells, scratch);
}

/// The bytes of the extended matrix, with no other copy of a row.
pub(crate) fn extended_rows(
    alloc: Global,
    f: u16,
    size: usize,
    bytes: &[u8],
) -> Result<Vec<u8>, AllocError>
    requires few { f ≤ 333 }
    requires even { size % 2 ≡ 0 }
    requires filled { 0 < size }
    requires size { size ≡ symbol_size f (length bytes.now) }
    requires fits { shard_count f * shard_count f * size < 2 ^ 32 }
    ensures { IfOk result (λ v. IsExtended f bytes.now v.items) }
{
    let shards = 3 * f + 1;
    let run = shards as usize * size;
    let mut scratch = vec![in alloc; 0u8; scratch_size(shards, run)]?;
    let mut cells = first_rows(alloc, f, size, bytes, &mut scratch)?;
    cells.resize(shards as usize * run, 0)?;
    extend_down(f + 1, shards, run, &mut cells, &mut scratch);
    Ok(cells)
}
