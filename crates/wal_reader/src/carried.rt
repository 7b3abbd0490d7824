//! What a single payload carries.

ghost use Rattle.std.specs.Prelude.{◌≡◌, ◌%◌, ℕ, List, [], ◌∷◌, length, Ok, IfSome, IfNone};
ghost use Rattle.wal_shape.specs.EncodingProof.{EncodingProof, IsProof};
ghost use Rattle.wal_shape.specs.Metadata.{BlobMetadata};
ghost use Rattle.wal_shape.specs.MetaRef.{metadata_shown};
ghost use Rattle.wal_shape.specs.Opening.{opening_shown};
ghost use Rattle.wal_shape.specs.ProofRef.{proof_shown};
ghost use Rattle.wal_frame.specs.Frame.{Metadata, Sliver};
ghost use Rattle.wal_frame.specs.Reading.{read_of};
ghost use Rattle.wal_reader.specs.Carried.{CarriesProof, claim_for, opening_for};

use wal_frame::{FrameRef, read_frame};
use wal_shape::{Axis, BlobId, MetaRef, OpeningRef, ProofRef, SliverRef};

/// The metadata that the payload carries, of either format.
pub(crate) fn metadata_of(payload: &[u8]) -> Option<MetaRef<'_>>
    ensures some { IfSome result (λ m. read_of payload.now ≡ Ok (Metadata (metadata_shown m))) }
    ensures none { IfNone result ((m : BlobMetadata) → read_of payload.now ≡ Ok (Metadata m) → ⊥) }
{
    match read_frame(payload) {
        Ok(FrameRef::Metadata(m) | FrameRef::Metadata2(m)) => Some(m),
        _ => None,
    }
}

/// The sliver of this identifier and axis that the payload carries.
pub(crate) fn sliver_of<'a>(id: &BlobId, axis: Axis, payload: &'a [u8]) -> Option<SliverRef<'a>>
    ensures some { IfSome result
        (λ sliver. read_of payload.now ≡ Ok (Sliver id.now.0 axis sliver.index sliver.bytes.now)) }
    ensures axis { IfSome result (λ sliver. sliver.axis ≡ axis) }
    ensures none { IfNone result ((index : ℕ) (bytes : List ℕ)
        → read_of payload.now ≡ Ok (Sliver id.now.0 axis index bytes) → ⊥) }
{
    match read_frame(payload) {
        Ok(FrameRef::Sliver { id: other, sliver }) => {
            if other == *id && sliver.axis == axis {
                Some(sliver)
            } else {
                None
            }
        }
        _ => None,
    }
}

/// An opening that is lent, with its target.
#[derive(Clone, Copy)]
pub(crate) struct ClaimRef<'a> {
    pub(crate) axis: Axis,
    pub(crate) index: u16,
    pub(crate) opening: OpeningRef<'a>,
}

/// The opening of this identifier that the payload carries, with its target.
pub(crate) fn claim_of<'a>(id: &BlobId, payload: &'a [u8]) -> Option<ClaimRef<'a>>
    ensures some { IfSome result (λ c. claim_for id.now.0 (read_of payload.now)
        ≡ record { axis = c.axis; index = c.index; opening = opening_shown c.opening } ∷ []) }
    ensures whole { IfSome result (λ c. length c.opening.path.now % 32 ≡ 0) }
    ensures none { IfNone result (claim_for id.now.0 (read_of payload.now) ≡ []) }
{
    match read_frame(payload) {
        Ok(
            FrameRef::Opening {
                id: of,
                axis,
                index,
                opening,
            },
        ) => {
            if of == *id {
                Some(ClaimRef {
                    axis,
                    index,
                    opening,
                })
            } else {
                None
            }
        }
        _ => None,
    }
}

/// The opening of this identifier, axis and index that the payload carries.
pub(crate) fn opening_of<'a>(
    id: &BlobId,
    axis: Axis,
    index: u16,
    payload: &'a [u8],
) -> Option<OpeningRef<'a>>
    ensures some { IfSome result
        (λ o. opening_for id.now.0 axis index (read_of payload.now) ≡ opening_shown o ∷ []) }
    ensures whole { IfSome result (λ o. length o.path.now % 32 ≡ 0) }
    ensures none { IfNone result (opening_for id.now.0 axis index (read_of payload.now) ≡ []) }
{
    match read_frame(payload) {
        Ok(
            FrameRef::Opening {
                id: of,
                axis: along,
                index: at,
                opening,
            },
        ) => {
            if of == *id && along == axis && at == index {
                Some(opening)
            } else {
                None
            }
        }
        _ => None,
    }
}

/// The proof of bad encoding of this identifier that the payload carries.
pub(crate) fn proof_of<'a>(id: &BlobId, payload: &'a [u8]) -> Option<ProofRef<'a>>
    ensures some { IfSome result (λ p. CarriesProof id.now.0 payload.now (proof_shown p)) }
    ensures proof { IfSome result (λ p. IsProof (proof_shown p)) }
    ensures none { IfNone result ((p : EncodingProof) → CarriesProof id.now.0 payload.now p → ⊥) }
{
    match read_frame(payload) {
        Ok(FrameRef::Proof { id: other, body }) => { if other == *id { Some(body) } else { None } }
        _ => None,
    }
}
