//! The source block that has given columns.

ghost use Rattle.std.specs.Prelude.{◌≡◌, ℕ, ◌+◌, ◌*◌, ◌<◌, ◌≤◌, ◌^◌, ◌++◌, List, length, replicate};
ghost use Rattle.std.specs.Prelude.{slice_index, vec_len, IfOk, OnOk};
ghost use Rattle.wal_kernel.specs.Region.{region};
ghost use Rattle.wal_shape.specs.Shape.{row_count, column_count, symbol_size};
ghost use Rattle.wal_matrix.specs.Matrix.{IsExtended, column_part, padded, secondary_of, symbol};
ghost use Rattle.wal_matrix.specs.Columns.{block_of_columns, row_of_columns};

use crate::transposition::copy_column;
use std::alloc::{AllocError, Global};

/// How the symbols of a block lie, row by row.
#[derive(Clone, Copy)]
struct Layout {
    /// How many rows the block has, and so how many symbols a column.
    rows: usize,
    /// How many symbols a row has.
    width: usize,
    /// The bytes of a symbol.
    size: usize,
}

/// Appends a row of a block: symbol `row` of each of the `given` columns, which lie one after the
/// other, and zeros up to the end of the row.
fn add_row_of_columns(
    block: &mut Vec<u8>,
    layout: Layout,
    columns: &[u8],
    given: usize,
    row: usize,
) -> Result<(), AllocError>
    requires filled { 0 < layout.size }
    requires place { row < layout.rows }
    requires fewer { given ≤ layout.width }
    requires columns { given * layout.rows * layout.size ≤ length columns.now }
    requires fits { vec_len block.old + layout.width * layout.size < 2 ^ 32 }
    ensures { OnOk result (block.new.items ≡ block.old.items
        ++ row_of_columns layout.rows layout.width layout.size columns.now given row) }
{
    let place = block.len();
    let end = place + given * layout.size;
    block.resize(place + layout.width * layout.size, 0)?;
    let front = &mut block[place..end];
    copy_column(columns, given, layout.rows, layout.size, row, front);
    Ok(())
}

/// The source block for f faults that has these columns: `given` columns of `f + 1` symbols of
/// `size` bytes, which lie one after the other. Symbol (r, c) of the block is symbol r of column c,
/// and the columns that are not given are zeros.
pub fn block_of_columns(
    alloc: Global,
    f: u16,
    size: usize,
    given: u16,
    columns: &[u8],
) -> Result<Vec<u8>, AllocError>
    requires few { f ≤ 333 }
    requires filled { 0 < size }
    requires fewer { given ≤ column_count f }
    requires columns { length columns.now ≡ given * (row_count f * size) }
    requires fits { row_count f * column_count f * size < 2 ^ 32 }
    ensures long { IfOk result (λ v. vec_len v ≡ row_count f * column_count f * size) }
    ensures block { IfOk result (λ v. v.items ≡ block_of_columns f size columns.now given) }
    ensures symbols { IfOk result (λ v. (r c : ℕ) → r < row_count f → c < given
        → symbol (column_count f) size v.items r c
        ≡ region size (region (row_count f * size) columns.now c) r) }
    ensures columns { IfOk result (λ v. (c : ℕ) → c < given
        → column_part (column_count f) size v.items (row_count f) c
        ≡ region (row_count f * size) columns.now c) }
    ensures rest { IfOk result (λ v. (c : ℕ) → given ≤ c → c < column_count f
        → column_part (column_count f) size v.items (row_count f) c
        ≡ replicate (row_count f * size) 0) }
{
    let rows = f as usize + 1;
    let width = 2 * f as usize + 1;
    let layout = Layout { rows, width, size };
    let mut block = Vec::with_capacity(alloc, rows * width * size)?;
    for row in 0..rows {
        add_row_of_columns(&mut block, layout, columns, given as usize, row)?;
    }
    Ok(block)
}

/// Each blob has an extended matrix.
pub fn blobs_have_matrices()
    ensures { (f : ℕ) (bytes : List ℕ) → f ≤ 333 → ((i : ℕ) → slice_index bytes i < 256)
        → (e : List ℕ) × IsExtended f bytes e }
{}

/// The first `2f + 1` secondary slivers of a blob's extended matrix are the columns of its source
/// block.
pub fn columns_are_slivers()
    ensures { (f : ℕ) (bytes e : List ℕ) → IsExtended f bytes e → (j : ℕ) → j < column_count f
        → secondary_of f (symbol_size f (length bytes)) e j
        ≡ column_part (column_count f) (symbol_size f (length bytes))
        (padded f bytes) (row_count f) j }
{}
