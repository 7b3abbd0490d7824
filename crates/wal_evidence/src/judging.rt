//! The verdict on what a reader holds.

ghost use Rattle.std.specs.Prelude.{◌≡◌, ◌⊎◌, ℕ, ◌≤◌, List, length, take, IfOk};
ghost use Rattle.wal_shape.specs.Shape.{most_bytes};
ghost use Rattle.wal_shape.specs.MetaRef.{metadata_shown};
ghost use Rattle.wal_evidence.specs.declared.evidence.Verdict.{Verdict};
ghost use Rattle.wal_evidence.specs.declared.evidence.Verdict.TheVariants as told;
ghost use Rattle.wal_evidence.specs.Evidence.{AreHeld, CommitsMatrix, HasFalseSliver, IsHeldBy};
ghost use Rattle.wal_evidence.specs.Evidence.{IsVerdictOn, Judges, IsJudgedBy};

use crate::evidence::{Basis, Evidence, Verdict};
use std::alloc::{AllocError, Global};
use wal_commit::{blob_id, metadata_holds};
use wal_matrix::{Work, decode_primaries};
use wal_shape::{Bytes, MetaRef};
use wal_tree::Hash32;

/// The bytes without the padding behind them.
fn without_padding(block: Bytes, length: u64) -> Bytes
    requires { length ≤ most_bytes }
    ensures { result ≡ take length block }
{
    let mut bytes = block.into_vec();
    bytes.truncate(length as usize);
    Bytes::from_vec(bytes)
}

/// The verdict on a blob that was decoded: it is encoded again, and its identifier compared.
fn judge_blob<H: Hash32>(alloc: Global, m: MetaRef<'_>, blob: Bytes) -> Result<Verdict, AllocError>
    requires { length blob ≡ (metadata_shown m).length }
    ensures { IfOk result (IsVerdictOn H.digest (metadata_shown m.entry) blob) }
{
    let id = blob_id::<H>(alloc, &m.shape(), blob.as_slice())?;
    if metadata_holds::<H>(&id, m) {
        Ok(Verdict::Bytes(blob))
    } else {
        Ok(Verdict::Reject)
    }
}

/// The verdict on held primary slivers.
fn judge<H: Hash32>(
    alloc: Global,
    m: MetaRef<'_>,
    indices: &[u16],
    joined: &[u8],
) -> Result<Verdict, AllocError>
    requires { AreHeld H.digest (metadata_shown m) indices.now joined.now }
    ensures judged { IfOk result (Judges H.digest (metadata_shown m.entry) indices.now joined.now) }
    ensures only { IfOk result (λ verdict. (other : Verdict)
        → Judges H.digest (metadata_shown m.entry) indices.now joined.now other → other ≡ verdict) }
{
    let shape = m.shape();
    let block = decode_primaries(alloc, &shape, indices, joined)?;
    let blob = without_padding(block, shape.length());
    judge_blob::<H>(alloc, m, blob)
}

/// The verdict on evidence, from its metadata and basis alone, so it is the same for whoever has
/// them.
///
/// From slivers the blob is decoded and encoded again (the Walrus paper, "Red Stuff", reading). A
/// proof of bad encoding is a rejection.
pub fn verdict<H: Hash32>(
    alloc: Global,
    work: &mut Work,
    e: &Evidence,
) -> Result<Verdict, AllocError>
    requires f { work.old.f ≡ e.now.metadata.f }
    requires held { IsHeldBy H.digest e.now.metadata e.now.basis }
    ensures judged { IfOk result (IsJudgedBy H.digest e.now.metadata e.now.basis) }
    // A committed blob is the verdict, or one of the slivers or openings is not the matrix's though
    // it has the same root.
    ensures committed { IfOk result
        (λ verdict. (blob matrix : List ℕ) → CommitsMatrix H.digest e.now.metadata blob matrix
        → (verdict ≡ told.Bytes blob) ⊎ HasFalseSliver H.digest e.now.metadata matrix e.now.basis) }
    // There is no other verdict.
    ensures only { IfOk result (λ verdict. (other : Verdict)
        → IsJudgedBy H.digest e.now.metadata e.now.basis other → other ≡ verdict) }
    ensures f { work.new.f ≡ work.old.f }
{
    let m = e.metadata.view();
    match &e.basis {
        Basis::Slivers { indices, joined } => {
            judge::<H>(alloc, m, indices.as_slice(), joined.as_slice())
        }
        Basis::Proof(_) => Ok(Verdict::Reject),
    }
}
