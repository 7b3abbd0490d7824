//! The matrix of six words for one fault, as computed by hand: the last word of a row is the sum of
//! the other three, since the points 0 to 3 sum to zero, and a column of v and w goes on with v +
//! 2(v + w) and v + 3(v + w).

ghost use Rattle.std.specs.Prelude.{◌≡◌, ◌<◌, ◌≤◌, IfOk, length, All};
ghost use Rattle.wal_code.specs.Codeword.{Distinct};
ghost use Rattle.wal_matrix.specs.Tools.{longest_sliver};

use std::alloc::{AllocError, Global};
use std::test::Fail;
use wal_matrix::{
    Encoded, Strips, Work, block_of_columns, decode_primaries, expand, expand_loaded, extend, solve,
};
use wal_shape::{Axis, Shape};

const SIX_WORDS: [u8; 12] = [0, 1, 0, 2, 0, 3, 0, 4, 0, 5, 0, 6];

const CELLS: [u8; 32] = [
    0, 1, 0, 2, 0, 3, 0, 0, //
    0, 4, 0, 5, 0, 6, 0, 7, //
    0, 11, 0, 12, 0, 9, 0, 14, //
    0, 14, 0, 11, 0, 12, 0, 9,
];

fn six_words(alloc: Global) -> Result<Encoded, Fail>
    ensures { IfOk result (λ e. (e.shape.f ≡ 1) × (e.shape.length ≡ 12)) }
{
    let shape = Shape::new(1, 12)?;
    let matrix = extend(alloc, &shape, &SIX_WORDS)?;
    Ok(matrix)
}

/// Whether the last column, and the secondary sliver in it, are those of the six words.
fn has_last_column(alloc: Global) -> Result<bool, Fail> {
    let matrix = six_words(alloc)?;
    let mut column = [0; 8];
    matrix.column(3, &mut column);
    let mut secondary = [0; 4];
    matrix.secondary(3, &mut secondary);
    Ok(column == [0, 0, 0, 7, 0, 14, 0, 9] && secondary == [0, 0, 0, 7])
}

#[test]
fn the_matrix_of_six_words(rt: HostRuntime) -> Result<(), Fail> {
    let matrix = six_words(rt.alloc())?;
    assert!(rt; matrix.cells() == CELLS.as_slice() && has_last_column(rt.alloc())?);
    Ok(())
}

#[test]
fn a_row_of_six_words(rt: HostRuntime) -> Result<(), Fail> {
    let matrix = six_words(rt.alloc())?;
    assert!(rt; matrix.row(2) == &CELLS[16..24] && matrix.primary(2) == &CELLS[16..22]);
    Ok(())
}

/// Whether the blob of no bytes has a matrix of zeros.
fn is_empty_blob(alloc: Global) -> Result<bool, Fail> {
    let shape = Shape::new(1, 0)?;
    let matrix = extend(alloc, &shape, &[])?;
    Ok(matrix.cells() == [0; 32].as_slice() && matrix.shape().symbol_size() == 2)
}

#[test]
fn an_empty_blob_is_zeros(rt: HostRuntime) -> Result<(), Fail> {
    assert!(rt; is_empty_blob(rt.alloc())?);
    Ok(())
}

/// Whether the first slivers are expanded to the first row and column.
fn are_expanded(alloc: Global) -> Result<bool, AllocError> {
    let mut work = Work::create(alloc, 1)?;
    let row = expand(&mut work, Axis::Primary, 2, &[0, 1, 0, 2, 0, 3]) == &CELLS[..8];
    let column = expand(&mut work, Axis::Secondary, 2, &[0, 1, 0, 4]);
    Ok(row && column == [0, 1, 0, 4, 0, 11, 0, 14].as_slice())
}

fn load_words(work: &mut Work, words: &[u8; 4])
    requires { 4 ≤ longest_sliver work.old.f }
    ensures loaded { work.new.loaded ≡ words.now }
    ensures f { work.new.f ≡ work.old.f }
{
    work.load(4).copy_from_slice(words);
}

/// Whether loaded words are lent, and expanded to the first column.
fn are_loaded(alloc: Global) -> Result<bool, AllocError> {
    let mut work = Work::create(alloc, 1)?;
    load_words(&mut work, &[0, 1, 0, 4]);
    let lent = work.loaded() == [0, 1, 0, 4].as_slice() && work.f() == 1;
    let column = expand_loaded(&mut work, Axis::Secondary, 2);
    Ok(lent && column == [0, 1, 0, 4, 0, 11, 0, 14].as_slice())
}

/// Whether two symbols of the last column give all four.
fn are_solved(alloc: Global) -> Result<bool, Fail> {
    let shape = Shape::new(1, 12)?;
    let mut work = Work::create(alloc, 1)?;
    load_words(&mut work, &[0, 7, 0, 14]);
    let column = solve(&mut work, &shape, Axis::Secondary, &[1, 2]);
    Ok(column == [0, 0, 0, 7, 0, 14, 0, 9].as_slice())
}

#[test]
fn slivers_are_expanded_and_solved(rt: HostRuntime) -> Result<(), Fail> {
    let alloc = rt.alloc();
    assert!(rt; are_expanded(alloc)? && are_loaded(alloc)? && are_solved(alloc)?);
    Ok(())
}

/// Whether the two primary slivers of these indices give the six words.
fn are_decoded(alloc: Global, indices: &[u16], joined: &[u8]) -> Result<bool, Fail>
    requires count { length indices.now ≡ 2 }
    requires distinct { Distinct indices.now }
    requires below { All (λ i. i < 4) indices.now }
    requires size { length joined.now ≡ 12 }
{
    let shape = Shape::new(1, 12)?;
    let block = decode_primaries(alloc, &shape, indices, joined)?;
    Ok(block.as_slice() == SIX_WORDS.as_slice())
}

// From both redundant slivers, and from the last and the first.
#[test]
fn six_words_from_two_slivers(rt: HostRuntime) -> Result<(), Fail> {
    let alloc = rt.alloc();
    let redundant = [0, 11, 0, 12, 0, 9, 0, 14, 0, 11, 0, 12];
    let turned = [0, 14, 0, 11, 0, 12, 0, 1, 0, 2, 0, 3];
    assert!(rt; are_decoded(alloc, &[2, 3], &redundant)? && are_decoded(alloc, &[3, 0], &turned)?);
    Ok(())
}

/// Two columns of two symbols, 1 4 and 2 5, and a third one of zeros.
fn lays_two_columns(alloc: Global) -> Result<bool, AllocError> {
    let block = block_of_columns(alloc, 1, 2, 2, &[0, 1, 0, 4, 0, 2, 0, 5])?;
    Ok(block.as_slice() == [0, 1, 0, 2, 0, 0, 0, 4, 0, 5, 0, 0].as_slice())
}

#[test]
fn columns_are_laid_side_by_side(rt: HostRuntime) -> Result<(), Fail> {
    assert!(rt; lays_two_columns(rt.alloc())?);
    Ok(())
}

/// Whether the strips of symbols of two words are those of their first and of their second words.
fn are_strips(alloc: Global) -> Result<bool, Fail> {
    let bytes = [
        0, 4, 0, 1, 0, 5, 0, 2, 0, 6, 0, 3, 0, 1, 0, 4, 0, 2, 0, 5, 0, 3, 0, 6,
    ];
    let shape = Shape::new(1, 24)?;
    if shape.symbol_size() != 4 {
        return Ok(false);
    }
    let mut strips = Strips::create(alloc, &shape)?;
    let mut strip = [7; 32];
    strips.fill(&bytes, 2, 2, &mut strip);
    let second = strip == CELLS;
    strips.fill(&bytes, 0, 2, &mut strip);
    Ok(second && strip[..16] == [0, 4, 0, 5, 0, 6, 0, 7, 0, 1, 0, 2, 0, 3, 0, 0])
}

#[test]
fn strips_of_two_words(rt: HostRuntime) -> Result<(), Fail> {
    assert!(rt; are_strips(rt.alloc())?);
    Ok(())
}
