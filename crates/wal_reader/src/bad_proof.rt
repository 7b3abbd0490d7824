//! The proofs of bad encoding among the payloads.

ghost use Rattle.std.specs.Prelude.{◌≡◌, IfSome, IfNone};
ghost use Rattle.wal_shape.specs.EncodingProof.{EncodingProof, IsProof};
ghost use Rattle.wal_shape.specs.MetaRef.{metadata_shown};
ghost use Rattle.wal_shape.specs.ProofRef.{proof_shown};
ghost use Rattle.wal_reader.specs.Carried.{CarriesBadProof, IsFirstBadProof, IsFirstProof};
ghost use Rattle.wal_reader.specs.Carried.{NoBadProof, NoProof};

use crate::carried::proof_of;
use wal_evidence::is_bad_proof;
use wal_matrix::Work;
use wal_shape::{BlobId, MetaRef, Payloads, ProofRef};
use wal_tree::Hash32;

/// The first proof of this identifier that the payloads carry, whatever a check of it says. Takes
/// no memory.
pub fn proof_in<'a>(id: &BlobId, payloads: &'a Payloads) -> Option<ProofRef<'a>>
    ensures first { IfSome result (λ p. IsFirstProof id.now.0 payloads.now (proof_shown p)) }
    ensures proof { IfSome result (λ p. IsProof (proof_shown p)) }
    ensures none { IfNone result (NoProof id.now.0 payloads.now) }
{
    for payload in payloads.as_slice() {
        if let Some(p) = proof_of(id, payload.as_slice()) {
            return Some(p);
        }
    }
    None
}

/// The proof of this identifier that the payload carries, where it is bad for the metadata.
pub(crate) fn bad_proof_of<'a, H: Hash32>(
    work: &mut Work,
    id: &BlobId,
    m: MetaRef<'_>,
    payload: &'a [u8],
) -> Option<ProofRef<'a>>
    requires { work.old.f ≡ (metadata_shown m).f }
    ensures some { IfSome result (λ p.
        CarriesBadProof H.digest id.now.0 (metadata_shown m.entry) payload.now (proof_shown p)) }
    ensures proof { IfSome result (λ p. IsProof (proof_shown p)) }
    ensures none { IfNone result ((p : EncodingProof)
        → CarriesBadProof H.digest id.now.0 (metadata_shown m.entry) payload.now p → ⊥) }
    ensures f { work.new.f ≡ work.old.f }
{
    match proof_of(id, payload) {
        Some(p) => {
            if is_bad_proof::<H>(work, m, &p) {
                Some(p)
            } else {
                None
            }
        }
        None => None,
    }
}

/// The first proof of this identifier that the payloads carry and that is bad for the metadata.
/// Takes no memory.
pub fn bad_proof_in<'a, H: Hash32>(
    work: &mut Work,
    id: &BlobId,
    m: MetaRef<'_>,
    payloads: &'a Payloads,
) -> Option<ProofRef<'a>>
    requires { work.old.f ≡ (metadata_shown m).f }
    ensures first { IfSome result (λ p.
        IsFirstBadProof H.digest id.now.0 (metadata_shown m.entry) payloads.now (proof_shown p)) }
    ensures proof { IfSome result (λ p. IsProof (proof_shown p)) }
    ensures none { IfNone result
        (NoBadProof H.digest id.now.0 (metadata_shown m.entry) payloads.now) }
    ensures f { work.new.f ≡ work.old.f }
{
    for payload in payloads.as_slice() {
        if let Some(p) = bad_proof_of::<H>(work, id, m, payload.as_slice()) {
            return Some(p);
        }
    }
    None
}
