//! A block of symbols turned from rows to columns.

ghost use Rattle.std.specs.Prelude.{◌≡◌, ◌+◌, ◌*◌, ◌<◌, ◌≤◌, ◌^◌, ℕ, length};
ghost use Rattle.wal_kernel.specs.Region.{region};
ghost use Rattle.wal_matrix.specs.Matrix.{column_part, symbol};

/// The run of `size` bytes at this place.
#[tactic(auto, using(crate::proofs::Runs::region_long))]
pub(crate) fn region(bytes: &[u8], size: usize, place: usize) -> &[u8]
    requires { size * place + size ≤ length bytes.now }
    ensures run { result.now ≡ region size bytes.now place }
    ensures long { length result.now ≡ size }
{
    let start = size * place;
    &bytes[start..start + size]
}

/// Copies the first `rows` symbols of one column of a block that lies row by row, with `columns`
/// symbols of `size` bytes in each row.
pub fn copy_column(
    from: &[u8],
    rows: usize,
    columns: usize,
    size: usize,
    column: usize,
    into: &mut [u8],
)
    requires filled { 0 < size }
    requires place { column < columns }
    requires block { rows * columns * size ≤ length from.now }
    requires room { length into.old ≡ rows * size }
    ensures { into.new ≡ column_part columns size from.now rows column }
{
    for row in 0..rows {
        let symbol = region(from, size, row * columns + column);
        into[row * size..(row + 1) * size].copy_from_slice(symbol);
    }
}

/// Writes a block of rows and columns, which lies row by row, column by column: symbol (r, c) goes
/// to symbol (c, r).
pub(crate) fn transpose(from: &[u8], rows: usize, columns: usize, size: usize, into: &mut [u8])
    requires filled { 0 < size }
    requires some { 0 < columns }
    requires block { rows * columns * size ≤ length from.now }
    requires room { length into.old ≡ columns * rows * size }
    ensures { (r c : ℕ) → r < rows → c < columns
        → symbol rows size into.new c r ≡ symbol columns size from.now r c }
{
    let run = rows * size;
    for column in 0..columns {
        let line = &mut into[column * run..(column + 1) * run];
        copy_column(from, rows, columns, size, column, line);
    }
}
