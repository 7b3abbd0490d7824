//! Evidence that contradicts a blob, or other evidence.

ghost use Rattle.std.specs.Prelude.{◌≡◌, ℕ, List, IfOk, length};
ghost use Rattle.wal_shape.specs.MetaRef.{metadata_shown};
ghost use Rattle.wal_shape.specs.Metadata.{IsMetadata};
ghost use Rattle.wal_tree.specs.Collision.{IsCollision};
ghost use Rattle.wal_matrix.specs.Matrix.{symbol_bytes};
ghost use Rattle.wal_evidence.specs.declared.evidence.Verdict.{Verdict};
ghost use Rattle.wal_evidence.specs.declared.evidence.Verdict.TheVariants.{Bytes};
ghost use Rattle.wal_evidence.specs.Evidence.{CommitsMatrix, IsHeldBy, IsJudgedBy};
ghost use Rattle.wal_extract.specs.Contrary.{AreContrary, AreDigestedForBasis};
ghost use Rattle.wal_extract.specs.Contrary.{AreDigestedForEvidence, AreDigestedForEvidences};
ghost use Rattle.wal_extract.specs.Contrary.{ContradictsBlob};

use crate::false_parts::{collide_held, collide_openings};
use crate::identities::metadatas;
use std::alloc::{AllocError, Global};
use wal_commit::metadata_of;
use wal_evidence::{Basis, Evidence, Verdict, verdict};
use wal_matrix::{Encoded, Work, extend};
use wal_shape::{Collision, MetaRef, Shape};
use wal_tree::Hash32;

/// Two texts with one digest, from what a metadata of this matrix is judged by, where that does not
/// lead to the matrix's blob.
fn collide_basis<H: Hash32>(
    alloc: Global,
    m: MetaRef<'_>,
    matrix: &Encoded,
    basis: &Basis,
) -> Result<Collision, AllocError>
    requires shape { matrix.now.shape ≡ record {
      format = (metadata_shown m).format;
      f = (metadata_shown m).f;
      length = (metadata_shown m).length;
    } }
    requires fit { IsMetadata (metadata_shown m) }
    requires held { IsHeldBy H.digest (metadata_shown m) basis.now }
    requires other { (blob : List ℕ)
        × CommitsMatrix H.digest (metadata_shown m) blob matrix.now.cells
        × (IsJudgedBy H.digest (metadata_shown m) basis.now (Bytes blob) → ⊥) }
    ensures collision { IfOk result (λ c. IsCollision H.digest c.left c.right) }
    ensures texts { IfOk result
        (λ c. AreDigestedForBasis H.digest matrix.now.shape.f
        (symbol_bytes matrix.now) matrix.now.cells basis.now c.left c.right) }
{
    match basis {
        Basis::Slivers { indices, joined } => {
            collide_held::<H>(alloc, matrix, indices.as_slice(), joined.as_slice())
        }
        Basis::Proof(proof) => collide_openings::<H>(alloc, matrix, &proof.view()),
    }
}

/// Two texts with one digest, from a blob and evidence for its identifier that does not lead to it:
/// those of the two metadata if these differ, and else those that a false sliver or a false
/// opening of the evidence has with the blob's own.
///
/// So `f + 1` held primary slivers of distinct indices give back the blob that was encoded
/// correctly under their identifier, or this call gives two texts with one digest. It fails only
/// for want of memory.
pub fn blob_and_evidence<H: Hash32>(
    alloc: Global,
    shape: &Shape,
    bytes: &[u8],
    e: &Evidence,
) -> Result<Collision, AllocError>
    requires fits { length bytes.now ≡ shape.now.length }
    requires contrary { ContradictsBlob H.digest shape.now bytes.now e.now }
    ensures collision { IfOk result (λ c. IsCollision H.digest c.left c.right) }
    // Of two metadata the left text is the blob's, and of slivers and openings it is the
    // evidence's.
    ensures texts { IfOk result
        (λ c. AreDigestedForEvidence H.digest shape.now bytes.now e.now c.left c.right) }
{
    let matrix = extend(alloc, shape, bytes)?;
    let metadata = metadata_of::<H>(alloc, &matrix)?;
    let m = e.metadata.view();
    if metadata.view().bytes() != m.bytes() {
        return metadatas::<H>(alloc, metadata.view(), m);
    }
    collide_basis::<H>(alloc, m, &matrix, &e.basis)
}

/// The verdict on evidence, with memory of its own for the work.
fn judged<H: Hash32>(alloc: Global, e: &Evidence) -> Result<Verdict, AllocError>
    requires { IsHeldBy H.digest e.now.metadata e.now.basis }
    ensures judged { IfOk result (IsJudgedBy H.digest e.now.metadata e.now.basis) }
    ensures only { IfOk result (λ verdict. (other : Verdict)
        → IsJudgedBy H.digest e.now.metadata e.now.basis other → other ≡ verdict) }
{
    let mut work = Work::create(alloc, e.metadata.view().f())?;
    verdict::<H>(alloc, &mut work, e)
}

/// Two texts with one digest, from evidence for one identifier that leads to two verdicts. Of two
/// verdicts one is a blob with that identifier, so they are those of [`blob_and_evidence`] on it
/// and the other evidence.
///
/// It fails only for want of memory.
pub fn evidences<H: Hash32>(
    alloc: Global,
    a: &Evidence,
    b: &Evidence,
) -> Result<Collision, AllocError>
    requires { AreContrary H.digest a.now b.now }
    ensures collision { IfOk result (λ c. IsCollision H.digest c.left c.right) }
    ensures texts { IfOk result (λ c. AreDigestedForEvidences H.digest a.now b.now c.left c.right) }
{
    let left = judged::<H>(alloc, a)?;
    let right = judged::<H>(alloc, b)?;
    if let Verdict::Bytes(blob) = left {
        let shape = a.metadata.view().shape();
        return blob_and_evidence::<H>(alloc, &shape, blob.as_slice(), b);
    }
    if let Verdict::Bytes(blob) = right {
        let shape = b.metadata.view().shape();
        return blob_and_evidence::<H>(alloc, &shape, blob.as_slice(), a);
    }
    unreachable!()
}
