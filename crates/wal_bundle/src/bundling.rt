//! Making a bundle.

ghost use Rattle.std.specs.Prelude.{◌≡◌, ◌≢◌, ℕ, ◌*◌, ◌<◌, ◌≤◌, ◌%◌, ◌^◌, List, Result, length};
ghost use Rattle.std.specs.Prelude.{IfOk};
ghost use Rattle.wal_kernel.specs.Region.{region};
ghost use Rattle.wal_shape.specs.Shape.{cell_count, most_bytes, symbol_size};
ghost use Rattle.wal_matrix.specs.Matrix.{IsExtended, secondary_of};
ghost use Rattle.wal_bundle.specs.Layout.{Bundles, IsBundleSize, bundle_text, column_bytes};
ghost use Rattle.wal_bundle.specs.Layout.{columns_text, lengths_of, used_columns};
ghost use Rattle.wal_bundle.specs.declared.answer.BundleError.{BundleError};
ghost use Rattle.wal_bundle.specs.declared.answer.BundleError.TheVariants.{Memory};

use crate::answer::BundleError;
use crate::index::index_text;
use crate::laying::columns_text;
use crate::layout::{least_half, used_columns};
use crate::lengths::lengths_of;
use std::alloc::{AllocError, Global};
use wal_matrix::block_of_columns;
use wal_shape::{Bytes, MOST_BYTES, Payloads};

/// Half of the longest symbol of a blob.
fn most_half(f: u32) -> u64
    requires { f ≤ 333 }
    ensures within { cell_count f * (2 * result) ≤ most_bytes }
    ensures most { (t : ℕ) → 2 * result < t → t % 2 ≡ 0 → most_bytes < cell_count f * t }
    ensures short { result < 2 ^ 31 }
{
    let cells = (u64::from(f) + 1) * (2 * u64::from(f) + 1);
    MOST_BYTES / (2 * cells)
}

/// The bundle for symbols of `2 * half` bytes.
fn laid(
    alloc: Global,
    f: u32,
    half: u64,
    lengths: &[u32],
    members: &[Bytes],
) -> Result<Bytes, AllocError>
    requires faults { f ≤ 333 }
    requires few { length lengths.now ≤ 666 }
    requires lengths { lengths.now ≡ lengths_of members.now }
    requires size { IsBundleSize f lengths.now (2 * half) }
    requires fits { cell_count f * (2 * half) ≤ most_bytes }
    ensures { IfOk result (λ bytes. bytes ≡ bundle_text f (2 * half) members.now) }
{
    let size = (u64::from(f) + 1) * (2 * half);
    let used = used_columns(size, lengths);
    let index = index_text(alloc, size, lengths)?;
    let columns = columns_text(alloc, size, used * size, &index, members)?;
    let block = block_of_columns(alloc, f as u16, (2 * half) as usize, used as u16, &columns)?;
    Ok(Bytes::from_vec(block))
}

/// The bundle of the members, or why there is none.
fn make(alloc: Global, f: u32, members: &Payloads) -> Result<Bytes, BundleError>
    ensures { Bundles f members.now result }
{
    if f < 1 || f > 333 {
        return Err(BundleError::BadFaults);
    }
    let members = members.as_slice();
    if members.len() > 2 * f as usize {
        return Err(BundleError::TooMany);
    }
    match lengths_of(alloc, members)? {
        Some(lengths) => bundle_of(alloc, f, &lengths, members),
        None => Err(BundleError::TooLong),
    }
}

/// The bundle of members of these lengths.
fn bundle_of(
    alloc: Global,
    f: u32,
    lengths: &[u32],
    members: &[Bytes],
) -> Result<Bytes, BundleError>
    requires some { 1 ≤ f }
    requires faults { f ≤ 333 }
    requires few { length members.now ≤ 2 * f }
    requires lengths { lengths.now ≡ lengths_of members.now }
    ensures { Bundles f members.now result }
{
    let most = most_half(f);
    let half = least_half(f, lengths, most);
    if half > most {
        return Err(BundleError::TooLong);
    }
    Ok(laid(alloc, f, half, lengths, members)?)
}

/// The bundle of these members for f faults: the blob whose source block has the columns of the
/// index and of the members, row by row.
///
/// Column 0 begins with the index: the number of members in two bytes, and for each its first
/// column in two and its length in four, most significant first. A member begins with a column of
/// its own, behind those of the index and of the members before it, and an empty one names the
/// column of the next. What the columns have besides is zero. A symbol has the least even number of
/// bytes, at least 2, for which all of this has room in `2f + 1` columns of `f + 1` symbols.
pub fn bundle(alloc: Global, f: u32, members: &Payloads) -> Result<Bytes, BundleError>
    ensures bundled { Bundles f members.now result }
    // There is no other answer, but for want of memory.
    ensures only { (other : Result (List ℕ) BundleError) → Bundles f members.now other
        → other ≢ Err Memory → result ≢ Err Memory → other ≡ result }
    // It fills its source block, so that the symbols of its matrix have the size that it was laid
    // out for.
    ensures long { IfOk result (λ bytes. (s : ℕ) → IsBundleSize f (lengths_of members.now) s
        → (length bytes ≡ cell_count f * s) × (symbol_size f (length bytes) ≡ s)) }
{
    make(alloc, f, members)
}

/// A column of a bundle that is used is the secondary sliver of its index, in the extended matrix.
pub fn bundle_columns_are_slivers()
    ensures { (f s : ℕ) (members : List (List ℕ)) (e : List ℕ)
        → IsBundleSize f (lengths_of members) s → IsExtended f (bundle_text f s members) e
        → (j : ℕ) → j < used_columns (column_bytes f s) (lengths_of members)
        → secondary_of f s e j
        ≡ region (column_bytes f s) (columns_text (column_bytes f s) members) j }
{}
