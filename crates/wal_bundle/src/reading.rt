//! Reading the index of a bundle.

ghost use Rattle.std.specs.Prelude.{◌≡◌, ℕ, ◌+◌, ◌*◌, ◌^◌, ◌<◌, ◌≤◌, ◌↔◌, List, length, take, IfOk};
ghost use Rattle.std.specs.Prelude.{IfSome, IfNone, IsTrue};
ghost use Rattle.wal_shape.specs.Shape.{IsShape, symbol_size};
ghost use Rattle.wal_shape.specs.MetaRef.{metadata_shown};
ghost use Rattle.wal_bundle.specs.Layout.{IsBundleSize, column_bytes, index_bytes, index_text};
ghost use Rattle.wal_bundle.specs.Columns.{IsColumn};
ghost use Rattle.wal_bundle.specs.Member.{IsIndex, count_in};
ghost use Rattle.wal_bundle.specs.inside.Reading.{TellsIndex, spelled_length, spelled_lengths};

use crate::columns::{add_columns, column_in};
use crate::index::index_text;
use crate::layout::{index_columns, is_bundle_size};
use std::alloc::{AllocError, Global};
use wal_matrix::Work;
use wal_shape::{Axis, BlobId, MetaRef, Payloads};
use wal_tree::Hash32;

/// What the columns of the index tell.
#[derive(Drop)]
pub(crate) enum IndexAnswer {
    /// The first one that is missing.
    Missing(u32),
    /// It is the index of no members.
    Bad,
    /// The lengths of the members.
    Lengths(Vec<u32>),
}

/// The number of members, which column 0 begins with.
#[tactic(auto, unfolding(crate::specs::Member::count_in))]
fn count_in(column: &[u8]) -> u16
    requires { 2 ≤ length column.now }
    ensures { result ≡ count_in column.now }
{
    let (front, _) = column.split_at(2);
    u16::from_be_bytes([front[0], front[1]])
}

/// The length in entry k of an index.
#[tactic(auto, unfolding(crate::specs::inside::Reading::spelled_length))]
fn length_in(index: &[u8], k: usize) -> u32
    requires { 8 + 6 * k ≤ length index.now }
    ensures { result ≡ spelled_length index.now k }
{
    let start = 4 + 6 * k;
    let field = &index[start..start + 4];
    u32::from_be_bytes([field[0], field[1], field[2], field[3]])
}

/// The lengths in the first `count` entries of an index.
fn lengths_in(alloc: Global, index: &[u8], count: u16) -> Result<Vec<u32>, AllocError>
    requires { index_bytes count ≤ length index.now }
    ensures { IfOk result (λ lengths. lengths.items ≡ spelled_lengths index.now count) }
{
    let mut lengths = Vec::with_capacity(alloc, usize::from(count))?;
    for k in 0..usize::from(count) {
        lengths.push(length_in(index, k))?;
    }
    Ok(lengths)
}

/// Whether columns begin with the index of members of these lengths, for which twice `half` is the
/// least size of a symbol.
fn is_index(
    alloc: Global,
    f: u32,
    half: u64,
    lengths: &[u32],
    columns: &[u8],
) -> Result<bool, AllocError>
    requires few { f ≤ 333 }
    requires members { length lengths.now ≤ 666 }
    requires some { 1 ≤ half }
    requires most { half < 2 ^ 32 }
    requires long { index_bytes (length lengths.now) ≤ length columns.now }
    ensures { IfOk result (λ is. IsTrue is ↔ (IsBundleSize f lengths.now (2 * half)
        × (take (index_bytes (length lengths.now)) columns.now
        ≡ index_text (column_bytes f (2 * half)) lengths.now))) }
{
    if !is_bundle_size(f, lengths, half) {
        return Ok(false);
    }
    let size = (u64::from(f) + 1) * (2 * half);
    let index = index_text(alloc, size, lengths)?;
    Ok(columns[..2 + 6 * lengths.len()] == index[..])
}

/// The lengths of the members by the index that the columns begin with.
fn settle_index(
    alloc: Global,
    m: MetaRef<'_>,
    columns: &[u8],
) -> Result<Option<Vec<u32>>, AllocError>
    requires few { count_in columns.now ≤ 2 * (metadata_shown m).f }
    requires long { index_bytes (count_in columns.now) ≤ length columns.now }
    ensures some { IfOk result (λ found. IfSome found (λ lengths.
        IsIndex (metadata_shown m.entry).f
        (symbol_size (metadata_shown m.entry).f (metadata_shown m.entry).length)
        columns.now lengths.items)) }
    ensures none { IfOk result (λ found. IfNone found ((lengths : List ℕ)
        → IsIndex (metadata_shown m.entry).f
        (symbol_size (metadata_shown m.entry).f (metadata_shown m.entry).length) columns.now lengths
        → ⊥)) }
{
    let half = u64::from(m.shape().symbol_size()) / 2;
    let lengths = lengths_in(alloc, columns, count_in(columns))?;
    if is_index(alloc, m.f(), half, &lengths, columns)? {
        Ok(Some(lengths))
    } else {
        Ok(None)
    }
}

/// The bytes of a column.
pub(crate) fn column_size(m: MetaRef<'_>) -> u64
    ensures value { result
        ≡ column_bytes (metadata_shown m.entry).f
        (symbol_size (metadata_shown m.entry).f (metadata_shown m.entry).length) }
    ensures some { 4 ≤ result }
    ensures most { result < 77497472 }
    // The reference shows a metadata.
    ensures fit { IsShape (metadata_shown m.entry).f (metadata_shown m.entry).length }
{
    u64::from(m.shape().sliver_len(Axis::Secondary))
}

/// What the columns of the index tell, of which column 0 is there.
fn index_behind<H: Hash32>(
    alloc: Global,
    work: &mut Work,
    id: &BlobId,
    m: MetaRef<'_>,
    payloads: &Payloads,
    mut columns: Vec<u8>,
) -> Result<IndexAnswer, AllocError>
    requires f { work.old.f ≡ (metadata_shown m).f }
    requires first { IsColumn H.digest id.now.0 (metadata_shown m) payloads.now 0 columns.items }
    ensures told { IfOk result
        (TellsIndex (IsColumn H.digest id.now.0 (metadata_shown m.entry) payloads.now)
        (metadata_shown m.entry).f
        (symbol_size (metadata_shown m.entry).f (metadata_shown m.entry).length)) }
    ensures f { work.new.f ≡ work.old.f }
{
    let size = column_size(m);
    let count = count_in(&columns);
    if u32::from(count) > 2 * m.f() {
        return Ok(IndexAnswer::Bad);
    }
    let total = index_columns(size, usize::from(count)) as u16;
    match add_columns::<H>(alloc, work, id, m, 0, 1, total, payloads, &mut columns)? {
        Some(j) => Ok(IndexAnswer::Missing(u32::from(j))),
        None => match settle_index(alloc, m, &columns)? {
            Some(lengths) => Ok(IndexAnswer::Lengths(lengths)),
            None => Ok(IndexAnswer::Bad),
        },
    }
}

/// What the columns of the index tell.
pub(crate) fn read_index<H: Hash32>(
    alloc: Global,
    work: &mut Work,
    id: &BlobId,
    m: MetaRef<'_>,
    payloads: &Payloads,
) -> Result<IndexAnswer, AllocError>
    requires f { work.old.f ≡ (metadata_shown m).f }
    ensures told { IfOk result
        (TellsIndex (IsColumn H.digest id.now.0 (metadata_shown m.entry) payloads.now)
        (metadata_shown m.entry).f
        (symbol_size (metadata_shown m.entry).f (metadata_shown m.entry).length)) }
    ensures f { work.new.f ≡ work.old.f }
{
    match column_in::<H>(alloc, work, id, m, 0, payloads)? {
        Some(column) => index_behind::<H>(alloc, work, id, m, payloads, column.into_vec()),
        None => Ok(IndexAnswer::Missing(0)),
    }
}
