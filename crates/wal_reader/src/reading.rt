//! Reading a blob.

ghost use Rattle.std.specs.Prelude.{◌≡◌, ◌≤◌, length, IfOk, None};
ghost use Rattle.wal_shape.specs.Shape.{row_count};
ghost use Rattle.wal_shape.specs.EncodingProof.{IsProof};
ghost use Rattle.wal_shape.specs.Metadata.{BlobMetadata};
ghost use Rattle.wal_shape.specs.MetaRef.{metadata_shown};
ghost use Rattle.wal_shape.specs.ProofRef.{proof_shown};
ghost use Rattle.wal_evidence.specs.Evidence.{IsHeldBy};
ghost use Rattle.wal_reader.specs.Outcome.{Collects, HasEnough, HasEvidence, HoldsFew, IsAnswer};
ghost use Rattle.wal_reader.specs.Outcome.{IsVerdict, IsMetadataIn, IsOutcome, SameOutcome};
ghost use Rattle.wal_reader.specs.inside.Outcome.{IsAnswerOf};
ghost use Rattle.wal_reader.specs.declared.outcome.Outcome.{Outcome};

use crate::bad_proof::bad_proof_in;
use crate::collecting::{Collected, collect};
use crate::finding::{FoundMetadata, metadata_in};
use crate::outcome::{Outcome, ReadAnswer};
use std::alloc::{AllocError, Global};
use wal_commit::collide_metadata;
use wal_evidence::{Basis, Evidence, Verdict, verdict};
use wal_matrix::Work;
use wal_shape::{BadProof, BlobId, Bytes, MetaRef, Metadata, Payloads, ProofRef, Shards};
use wal_tree::Hash32;

/// An answer that is no verdict.
pub(crate) fn without_evidence(outcome: Outcome) -> ReadAnswer
    ensures { result ≡ record { outcome = outcome; evidence = None } }
{
    ReadAnswer {
        outcome,
        evidence: None,
    }
}

/// The verdict on evidence, and the evidence itself.
pub(crate) fn judged<H: Hash32>(
    alloc: Global,
    work: &mut Work,
    evidence: Evidence,
) -> Result<ReadAnswer, AllocError>
    requires f { work.old.f ≡ evidence.metadata.f }
    requires held { IsHeldBy H.digest evidence.metadata evidence.basis }
    ensures { IfOk result (IsAnswerOf H.digest evidence) }
{
    let outcome = match verdict::<H>(alloc, work, &evidence)? {
        Verdict::Bytes(bytes) => Outcome::Bytes(bytes),
        Verdict::Reject => Outcome::Reject,
    };
    Ok(ReadAnswer {
        outcome,
        evidence: Some(evidence),
    })
}

/// The answer where too few slivers are held: a rejection by the first bad proof, or the number of
/// slivers.
fn unsettled<H: Hash32>(
    alloc: Global,
    work: &mut Work,
    id: &BlobId,
    m: MetaRef<'_>,
    payloads: &Payloads,
    have: u32,
) -> Result<ReadAnswer, AllocError>
    requires f { work.old.f ≡ (metadata_shown m).f }
    requires metadata { IsMetadataIn H.digest id.now.0 payloads.now (metadata_shown m) }
    requires few { HoldsFew H.digest id.now.0 (metadata_shown m) payloads.now have }
    ensures { IfOk result (IsAnswer H.digest id.now.0 payloads.now) }
{
    match bad_proof_in::<H>(work, id, m, payloads) {
        Some(p) => {
            let basis = Basis::Proof(BadProof::copied(alloc, p)?);
            let metadata = Metadata::of(alloc, m)?;
            judged::<H>(alloc, work, Evidence { metadata, basis })
        }
        None => {
            let need = m.f() + 1;
            Ok(without_evidence(Outcome::Short { have, need }))
        }
    }
}

/// The answer from the slivers that were collected, which are enough.
fn settled<H: Hash32>(
    alloc: Global,
    work: &mut Work,
    id: &BlobId,
    m: MetaRef<'_>,
    payloads: &Payloads,
    collected: Collected,
) -> Result<ReadAnswer, AllocError>
    requires f { work.old.f ≡ (metadata_shown m).f }
    requires metadata { IsMetadataIn H.digest id.now.0 payloads.now (metadata_shown m) }
    requires collects { Collects H.digest id.now.0 (metadata_shown m)
        payloads.now collected.indices.items collected.joined.items }
    requires enough { row_count (metadata_shown m).f ≤ length collected.indices.items }
    ensures { IfOk result (IsAnswer H.digest id.now.0 payloads.now) }
{
    let Collected { indices, joined } = collected;
    let basis = Basis::Slivers {
        indices: Shards::from_vec(indices),
        joined: Bytes::from_vec(joined),
    };
    let metadata = Metadata::of(alloc, m)?;
    judged::<H>(alloc, work, Evidence { metadata, basis })
}

/// The answer for the one metadata among the payloads.
fn read_one<H: Hash32>(
    alloc: Global,
    id: &BlobId,
    m: MetaRef<'_>,
    payloads: &Payloads,
) -> Result<ReadAnswer, AllocError>
    requires { IsMetadataIn H.digest id.now.0 payloads.now (metadata_shown m) }
    ensures { IfOk result (IsAnswer H.digest id.now.0 payloads.now) }
{
    let mut work = Work::create(alloc, m.f())?;
    let collected = collect::<H>(alloc, &mut work, id, m, payloads.as_slice())?;
    let have = collected.indices.len() as u32;
    if have <= m.f() {
        unsettled::<H>(alloc, &mut work, id, m, payloads, have)
    } else {
        settled::<H>(alloc, &mut work, id, m, payloads, collected)
    }
}

/// The answer for the payloads.
fn answer<H: Hash32>(
    alloc: Global,
    id: &BlobId,
    payloads: &Payloads,
) -> Result<ReadAnswer, AllocError>
    ensures { IfOk result (IsAnswer H.digest id.now.0 payloads.now) }
{
    match metadata_in::<H>(id, payloads) {
        FoundMetadata::Absent => Ok(without_evidence(Outcome::NoMetadata)),
        FoundMetadata::One(m) => read_one::<H>(alloc, id, m, payloads),
        FoundMetadata::Two(a, b) => {
            let clash = collide_metadata::<H>(a, b);
            Ok(without_evidence(Outcome::Collision(clash)))
        }
    }
}

/// Reads a blob from what shards sent (the Walrus paper, "Red Stuff", reading).
///
/// Payloads that are no frames, or frames of another identifier or kind, are passed over, and so
/// are slivers that the metadata does not commit and proofs that are not bad for it. The first case
/// that applies over the whole list is the outcome: two metadata of the identifier differ; there is
/// none; `f + 1` primary slivers of distinct indices hold, and the first of them are judged; a
/// proof is bad, and the blob is rejected; there are fewer slivers.
pub fn read<H: Hash32>(
    alloc: Global,
    id: &BlobId,
    payloads: &Payloads,
) -> Result<ReadAnswer, AllocError>
    ensures outcome { IfOk result
        (λ answer. IsOutcome H.digest id.now.0 payloads.now answer.outcome) }
    // There is no other outcome; the texts of a collision are not compared.
    ensures only { IfOk result (λ answer. (other : Outcome)
        → IsOutcome H.digest id.now.0 payloads.now other → SameOutcome other answer.outcome) }
    ensures evidence { IfOk result
        (λ answer. HasEvidence H.digest id.now.0 payloads.now answer.outcome answer.evidence) }
    // One metadata and enough slivers lead to a verdict, whatever else the payloads are.
    ensures enough { IfOk result
        (λ answer. (m : BlobMetadata) → IsMetadataIn H.digest id.now.0 payloads.now m
        → HasEnough H.digest id.now.0 m payloads.now → IsVerdict answer.outcome) }
{
    answer::<H>(alloc, id, payloads)
}
