//! The columns of a bundle that payloads show.

ghost use Rattle.std.specs.Prelude.{◌≡◌, ℕ, ◌+◌, ◌*◌, ◌<◌, ◌≤◌, ◌^◌, List, length, IfOk, IfSome};
ghost use Rattle.std.specs.Prelude.{IfNone};
ghost use Rattle.wal_shape.specs.declared.axis.Axis.TheVariants.{Secondary};
ghost use Rattle.wal_shape.specs.Shape.{IsShape, symbol_size};
ghost use Rattle.wal_shape.specs.MetaRef.{metadata_shown};
ghost use Rattle.wal_reader.specs.Carried.{NoHeldSliver};
ghost use Rattle.wal_recover.specs.declared.outcome.Recovered.TheVariants.{Sliver};
ghost use Rattle.wal_bundle.specs.Layout.{column_bytes};
ghost use Rattle.wal_bundle.specs.Columns.{AreColumns, IsColumn, IsFirstMissing, IsMissing};

use std::alloc::{AllocError, Global};
use wal_matrix::Work;
use wal_reader::{openings_in, sliver_in};
use wal_recover::{Recovered, recover};
use wal_shape::{Axis, BlobId, Bytes, MetaRef, Payloads};
use wal_tree::Hash32;

/// The sliver that was recovered, if one was.
fn sliver_of(outcome: Recovered) -> Option<Bytes>
    ensures some { IfSome result (λ bytes. outcome ≡ Sliver bytes) }
    ensures none { IfNone result ((bytes : List ℕ) → outcome ≡ Sliver bytes → ⊥) }
{
    match outcome {
        Recovered::Sliver(bytes) => Some(bytes),
        Recovered::Inconsistent(_) => None,
        Recovered::Short(_) => None,
    }
}

/// The bytes of column j that its openings give, where no payload carries a held sliver of it.
fn recovered_in<H: Hash32>(
    alloc: Global,
    work: &mut Work,
    id: &BlobId,
    m: MetaRef<'_>,
    j: u16,
    payloads: &Payloads,
) -> Result<Option<Bytes>, AllocError>
    requires f { work.old.f ≡ (metadata_shown m).f }
    requires none { NoHeldSliver H.digest id.now.0 (metadata_shown m) Secondary j payloads.now }
    ensures there { IfOk result (λ found. IfSome found (λ bytes.
        IsColumn H.digest id.now.0 (metadata_shown m.entry) payloads.now j bytes)) }
    ensures missing { IfOk result (λ found. IfNone found (IsMissing
        (IsColumn H.digest id.now.0 (metadata_shown m.entry) payloads.now) j)) }
    ensures f { work.new.f ≡ work.old.f }
{
    let openings = openings_in(alloc, id, Axis::Secondary, j, payloads)?;
    let recovery = recover::<H>(alloc, work, m, Axis::Secondary, j, &openings)?;
    Ok(sliver_of(recovery.outcome))
}

/// The bytes of column j, where it is there: those of the first held secondary sliver of this
/// index, or where there is none those of the sliver that its openings give.
pub(crate) fn column_in<H: Hash32>(
    alloc: Global,
    work: &mut Work,
    id: &BlobId,
    m: MetaRef<'_>,
    j: u16,
    payloads: &Payloads,
) -> Result<Option<Bytes>, AllocError>
    requires { work.old.f ≡ (metadata_shown m).f }
    ensures there { IfOk result (λ found. IfSome found (λ bytes.
        IsColumn H.digest id.now.0 (metadata_shown m.entry) payloads.now j bytes)) }
    ensures missing { IfOk result (λ found. IfNone found (IsMissing
        (IsColumn H.digest id.now.0 (metadata_shown m.entry) payloads.now) j)) }
    ensures f { work.new.f ≡ work.old.f }
{
    match sliver_in::<H>(work, id, m, Axis::Secondary, j, payloads) {
        Some(sliver) => Ok(Some(Bytes::from_vec(Vec::from_slice(alloc, sliver.bytes)?))),
        None => recovered_in::<H>(alloc, work, id, m, j, payloads),
    }
}

/// Appends the columns from `start` on that are wanted, up to `total` of them, behind the `have`
/// that are there. The answer is the first that is missing, if one is.
pub(crate) fn add_columns<H: Hash32>(
    alloc: Global,
    work: &mut Work,
    id: &BlobId,
    m: MetaRef<'_>,
    start: u16,
    have: u16,
    total: u16,
    payloads: &Payloads,
    columns: &mut Vec<u8>,
) -> Result<Option<u16>, AllocError>
    requires f { work.old.f ≡ (metadata_shown m).f }
    requires shape { IsShape (metadata_shown m).f (metadata_shown m).length }
    requires order { have ≤ total }
    requires last { start + total < 2 ^ 16 }
    requires columns { AreColumns (IsColumn H.digest id.now.0 (metadata_shown m) payloads.now)
        (column_bytes (metadata_shown m).f
        (symbol_size (metadata_shown m).f (metadata_shown m).length))
        start have columns.old.items }
    ensures missing { IfOk result (λ found. IfSome found (IsFirstMissing
        (IsColumn H.digest id.now.0 (metadata_shown m.entry) payloads.now)
        (start + have) (start + total))) }
    ensures there { IfOk result (λ found.
        IfNone found (AreColumns (IsColumn H.digest id.now.0 (metadata_shown m.entry) payloads.now)
        (column_bytes (metadata_shown m.entry).f
        (symbol_size (metadata_shown m.entry).f (metadata_shown m.entry).length))
        start total columns.new.items)) }
    ensures f { work.new.f ≡ work.old.f }
{
    for place in have..total {
        match column_in::<H>(alloc, work, id, m, start + place, payloads)? {
            Some(column) => columns.extend_from_slice(column.as_slice())?,
            None => return Ok(Some(start + place)),
        }
    }
    Ok(None)
}
