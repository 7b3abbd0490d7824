//! The first completed answer for a blob, and one that is not the same.

ghost use Rattle.std.specs.Prelude.{◌≡◌, ◌≢◌, ◌↔◌, ◌≤◌, Some, None, IsTrue, IfOk, IfSome, IfNone};
ghost use Rattle.std.specs.Prelude.{length};
ghost use Rattle.wal_shape.specs.declared.shape.Format.{Format};
ghost use Rattle.wal_shape.specs.Shape.{most_bytes};
ghost use Rattle.wal_tree.specs.Collision.{IsCollision};
ghost use Rattle.wal_commit.specs.Identifier.{IsIdentifierOf};
ghost use Rattle.wal_evidence.specs.declared.evidence.Verdict.TheVariants as told;
ghost use Rattle.wal_evidence.specs.Evidence.{IsEvidence, IsJudgedBy};
ghost use Rattle.wal_protocol.specs.State.{verdict_of};
ghost use Rattle.wal_theorem.specs.Instance.{IsBackedBy};

use std::alloc::{AllocError, Global};
use wal_commit::blob_id;
use wal_evidence::{Evidence, Verdict, verdict};
use wal_extract::{blob_and_evidence, blobs, evidences};
use wal_matrix::Work;
use wal_protocol::First;
use wal_shape::{BlobId, Collision, Format, Shape};
use wal_tree::Hash32;

/// The bytes that a completed answer gives. It gives none where it is a rejection.
fn bytes_of(answer: &First) -> Option<&[u8]>
    ensures some { IfSome result (λ bytes. verdict_of answer.now ≡ told.Bytes bytes.now) }
    ensures none { IfNone result (verdict_of answer.now ≡ told.Reject) }
{
    match answer {
        First::Judged(_, verdict) => match verdict {
            Verdict::Bytes(bytes) => Some(bytes.as_slice()),
            Verdict::Reject => None,
        },
        First::Written(bytes) => Some(bytes.as_slice()),
    }
}

/// Whether two completed answers give the same.
fn agree(a: &First, b: &First) -> bool
    ensures { IsTrue result ↔ (verdict_of a.now ≡ verdict_of b.now) }
{
    match bytes_of(a) {
        Some(bytes) => match bytes_of(b) {
            Some(other) => bytes == other,
            None => false,
        },
        None => bytes_of(b).is_none(),
    }
}

/// The shape of a blob that is not too long.
fn shape_of(f: u32, format: Format, blob: &[u8]) -> Shape
    requires some { 1 ≤ f }
    requires few { f ≤ 333 }
    requires long { length blob.now ≤ most_bytes }
    ensures { result ≡ record { format = format; f = f; length = length blob.now } }
{
    match Shape::new(f, blob.len() as u64) {
        Ok(shape) => shape.with_format(format),
        Err(_) => unreachable!(),
    }
}

/// The shape of a blob, in the format in which this is its identifier.
fn shape_for<H: Hash32>(
    alloc: Global,
    f: u32,
    blob: &[u8],
    id: &BlobId,
) -> Result<Shape, AllocError>
    requires some { 1 ≤ f }
    requires few { f ≤ 333 }
    requires identifier { (format : Format) × IsIdentifierOf H.digest format f blob.now id.now.0 }
    ensures fits { IfOk result (λ shape. length blob.now ≡ shape.length) }
    ensures identifier { IfOk result
        (λ shape. IsIdentifierOf H.digest shape.format shape.f blob.now id.now.0) }
{
    let one = shape_of(f, Format::One, blob);
    if blob_id::<H>(alloc, &one, blob)? == *id {
        Ok(one)
    } else {
        Ok(one.with_format(Format::Two))
    }
}

/// Two texts with one digest, from a blob and evidence for its identifier with another verdict.
fn collide_evidence<H: Hash32>(
    alloc: Global,
    f: u32,
    id: &BlobId,
    blob: &[u8],
    e: &Evidence,
    verdict_on: &Verdict,
) -> Result<Collision, AllocError>
    requires some { 1 ≤ f }
    requires few { f ≤ 333 }
    requires identifier { (format : Format) × IsIdentifierOf H.digest format f blob.now id.now.0 }
    requires evidence { IsEvidence H.digest id.now.0 e.now }
    requires judged { IsJudgedBy H.digest e.now.metadata e.now.basis verdict_on.now }
    requires differ { verdict_on.now ≢ told.Bytes blob.now }
    ensures { IfOk result (λ c. IsCollision H.digest c.left c.right) }
{
    let shape = shape_for::<H>(alloc, f, blob, id)?;
    let mut work = Work::create(alloc, e.metadata.view().f())?;
    let _only = verdict::<H>(alloc, &mut work, e)?;
    blob_and_evidence::<H>(alloc, &shape, blob, e)
}

/// Two texts with one digest, from two blobs of one identifier.
fn collide_blobs<H: Hash32>(
    alloc: Global,
    f: u32,
    id: &BlobId,
    a: &[u8],
    b: &[u8],
) -> Result<Collision, AllocError>
    requires some { 1 ≤ f }
    requires few { f ≤ 333 }
    requires one { (format : Format) × IsIdentifierOf H.digest format f a.now id.now.0 }
    requires other { (format : Format) × IsIdentifierOf H.digest format f b.now id.now.0 }
    requires differ { a.now ≢ b.now }
    ensures { IfOk result (λ c. IsCollision H.digest c.left c.right) }
{
    let left = shape_for::<H>(alloc, f, a, id)?;
    let right = shape_for::<H>(alloc, f, b, id)?;
    blobs::<H>(alloc, &left, a, &right, b)
}

/// Two texts with one digest, from two completed answers that give different ones.
fn collide<H: Hash32>(
    alloc: Global,
    f: u32,
    id: &BlobId,
    a: &First,
    b: &First,
) -> Result<Collision, AllocError>
    requires some { 1 ≤ f }
    requires few { f ≤ 333 }
    requires one { IsBackedBy H.digest f id.now a.now }
    requires other { IsBackedBy H.digest f id.now b.now }
    requires differ { verdict_of a.now ≢ verdict_of b.now }
    ensures { IfOk result (λ c. IsCollision H.digest c.left c.right) }
{
    match a {
        First::Judged(e, told) => match b {
            First::Judged(other, _) => evidences::<H>(alloc, e, other),
            First::Written(bytes) => {
                collide_evidence::<H>(alloc, f, id, bytes.as_slice(), e, told)
            }
        },
        First::Written(bytes) => match b {
            First::Judged(e, told) => {
                collide_evidence::<H>(alloc, f, id, bytes.as_slice(), e, told)
            }
            First::Written(other) => {
                collide_blobs::<H>(alloc, f, id, bytes.as_slice(), other.as_slice())
            }
        },
    }
}

/// Compares a completed answer with the first one. The result is two texts with one digest where
/// they give different ones.
pub(crate) fn compare<H: Hash32>(
    alloc: Global,
    f: u32,
    id: &BlobId,
    first: &First,
    answer: &First,
) -> Result<Option<Collision>, AllocError>
    requires some { 1 ≤ f }
    requires few { f ≤ 333 }
    requires one { IsBackedBy H.digest f id.now first.now }
    requires other { IsBackedBy H.digest f id.now answer.now }
    ensures same { IfOk result (λ o. IfNone o (verdict_of first.now ≡ verdict_of answer.now)) }
    ensures collides { IfOk result (λ o. IfSome o (λ c. IsCollision H.digest c.left c.right
        × (verdict_of first.now ≢ verdict_of answer.now))) }
{
    if agree(first, answer) {
        return Ok(None);
    }
    Ok(Some(collide::<H>(alloc, f, id, first, answer)?))
}
