//! What is held for the one metadata of an identifier while its payloads come one by one.

ghost use Rattle.std.specs.Prelude.{◌≡◌, ◌↔◌, ◌++◌, ◌∷◌, ℕ, List, [], IsTrue, IsOk, IfOk, OnOk};
ghost use Rattle.wal_shape.specs.MetaRef.{metadata_shown};
ghost use Rattle.wal_reader.specs.Heard.{HasParts, IsEnough, IsProofFound, Sifts};
ghost use Rattle.wal_reader.specs.Outcome.{Collects};

use crate::bad_proof::bad_proof_of;
use crate::collecting::{Collected, add_sliver};
use std::alloc::{AllocError, Global};
use wal_matrix::Work;
use wal_shape::{Axis, BadProof, BlobId, Bytes, MetaRef, Metadata};
use wal_tree::Hash32;

/// The metadata, its held primary slivers so far, and as long as these are too few, the first bad
/// proof.
#[derive(Drop)]
pub(crate) struct Known {
    pub(crate) metadata: Metadata,
    pub(crate) work: Work,
    pub(crate) collected: Collected,
    pub(crate) proof: Option<BadProof>,
}

/// What is held before any payload, with room for all slivers that are needed.
fn known_of(alloc: Global, m: MetaRef<'_>) -> Result<Known, AllocError>
    ensures metadata { IfOk result (λ k. k.metadata ≡ metadata_shown m.entry) }
    ensures f { IfOk result (λ k. k.work.f ≡ k.metadata.f) }
    ensures nothing { IfOk result
        (λ k. (digest : List ℕ → List ℕ) (id : List ℕ) → HasParts digest id k []) }
{
    let need = m.f() as usize + 1;
    let size = m.shape().sliver_len(Axis::Primary) as usize;
    let collected = Collected {
        indices: Vec::with_capacity(alloc, need)?,
        joined: Vec::with_capacity(alloc, need * size)?,
    };
    Ok(Known {
        metadata: Metadata::of(alloc, m)?,
        work: Work::create(alloc, m.f())?,
        collected,
        proof: None,
    })
}

/// Whether as many slivers are held as are needed.
pub(crate) fn has_enough(known: &Known) -> bool
    ensures { IsTrue result ↔ IsEnough known.now }
{
    known.collected.indices.len() == known.metadata.view().f() as usize + 1
}

/// Takes the sliver that the payload carries, where it is held and its index is new.
fn take_sliver<H: Hash32>(id: &BlobId, known: &mut Known, payload: &[u8]) -> Result<(), AllocError>
    requires { known.old.work.f ≡ known.old.metadata.f }
    ensures added { (payloads : List (List ℕ))
        → Collects H.digest id.now.0 known.old.metadata payloads
        known.old.collected.indices.items known.old.collected.joined.items
        → OnOk result (Collects H.digest id.now.0 known.old.metadata (payloads ++ payload.now ∷ [])
        known.new.collected.indices.items known.new.collected.joined.items) }
    ensures metadata { known.new.metadata ≡ known.old.metadata }
    ensures f { known.new.work.f ≡ known.old.work.f }
    ensures proof { known.new.proof ≡ known.old.proof }
{
    add_sliver::<H>(
        &mut known.work,
        id,
        known.metadata.view(),
        payload,
        &mut known.collected,
    )
}

/// Takes a copy of the bad proof that the payload carries, where there is none yet.
fn take_proof<H: Hash32>(
    alloc: Global,
    id: &BlobId,
    known: &mut Known,
    payload: &[u8],
) -> Result<(), AllocError>
    requires { known.old.work.f ≡ known.old.metadata.f }
    ensures found { (payloads : List (List ℕ))
        → IsProofFound H.digest id.now.0 known.old.metadata payloads known.old.proof
        → OnOk result (IsProofFound H.digest id.now.0 known.old.metadata
        (payloads ++ payload.now ∷ []) known.new.proof) }
    ensures metadata { known.new.metadata ≡ known.old.metadata }
    ensures f { known.new.work.f ≡ known.old.work.f }
    ensures collected { known.new.collected ≡ known.old.collected }
{
    if known.proof.is_none() {
        if let Some(p) = bad_proof_of::<H>(&mut known.work, id, known.metadata.view(), payload) {
            known.proof = Some(BadProof::copied(alloc, p)?);
        }
    }
    Ok(())
}

/// Takes what the payload carries for the metadata. Takes no memory once enough slivers are held,
/// and looks at no payload from then on.
pub(crate) fn take_part<H: Hash32>(
    alloc: Global,
    id: &BlobId,
    known: &mut Known,
    payload: &[u8],
) -> Result<(), AllocError>
    requires { known.old.work.f ≡ known.old.metadata.f }
    ensures taken { (payloads : List (List ℕ)) → HasParts H.digest id.now.0 known.old payloads
        → OnOk result (HasParts H.digest id.now.0 known.new (payloads ++ payload.now ∷ [])) }
    ensures metadata { known.new.metadata ≡ known.old.metadata }
    ensures f { known.new.work.f ≡ known.new.metadata.f }
    ensures enough { IsEnough known.old → IsOk result × IsEnough known.new }
{
    if has_enough(known) {
        return Ok(());
    }
    take_sliver::<H>(id, known, payload)?;
    if has_enough(known) {
        known.proof = None;
        return Ok(());
    }
    take_proof::<H>(alloc, id, known, payload)
}

/// What is held for a metadata that came behind these parts of the payloads.
pub(crate) fn known_from<H: Hash32>(
    alloc: Global,
    id: &BlobId,
    m: MetaRef<'_>,
    parts: &[Bytes],
) -> Result<Known, AllocError>
    ensures metadata { IfOk result (λ k. k.metadata ≡ metadata_shown m.entry) }
    ensures parts { (payloads : List (List ℕ)) → Sifts id.now.0 parts.now payloads
        → IfOk result (λ k. HasParts H.digest id.now.0 k payloads) }
{
    let mut known = known_of(alloc, m)?;
    for part in parts {
        take_part::<H>(alloc, id, &mut known, part.as_slice())?;
    }
    Ok(known)
}
