//! What is kept of the payloads of an identifier, which come one by one.

ghost use Rattle.std.specs.Prelude.{◌≡◌, ◌↔◌, ◌++◌, ◌∷◌, ℕ, List, [], IsTrue, IfOk, IsOkAnd};
ghost use Rattle.wal_shape.specs.Metadata.{BlobMetadata};
ghost use Rattle.wal_commit.specs.Identifier.{Commits};
ghost use Rattle.wal_reader.specs.Heard.{CarriesNoPart, HasKept, HasKnown, IsEnough, IsSettledKept};
ghost use Rattle.wal_reader.specs.Heard.{Sifts};
ghost use Rattle.wal_reader.specs.Outcome.{HasMetadata};

use crate::carried::{proof_of, sliver_of};
use crate::finding::{committed_in, other_in};
use crate::known::{Known, has_enough, known_from, take_part};
use std::alloc::{AllocError, Global};
use wal_commit::collide_metadata;
use wal_shape::{Axis, BlobId, Bytes, MetaClash};
use wal_tree::Hash32;

/// What of the payloads so far can still matter.
#[derive(Drop)]
pub(crate) enum Kept {
    /// There is no metadata yet: the payloads that carry a primary sliver or a proof.
    Waiting(Vec<Bytes>),
    /// There is one metadata.
    One(Known),
    /// There are two that differ: two texts of one digest.
    Two(MetaClash),
}

/// Whether the payload carries neither a primary sliver nor a proof of this identifier.
fn carries_no_part(id: &BlobId, payload: &[u8]) -> bool
    ensures { IsTrue result ↔ CarriesNoPart id.now.0 payload.now }
{
    sliver_of(id, Axis::Primary, payload).is_none() && proof_of(id, payload).is_none()
}

/// The parts with a copy of the payload, where it carries one.
fn wait(
    alloc: Global,
    id: &BlobId,
    mut parts: Vec<Bytes>,
    payload: &[u8],
) -> Result<Vec<Bytes>, AllocError>
    ensures { (payloads : List (List ℕ)) → Sifts id.now.0 parts.items payloads
        → IfOk result (λ more. Sifts id.now.0 more.items (payloads ++ payload.now ∷ [])) }
{
    if carries_no_part(id, payload) {
        return Ok(parts);
    }
    parts.push(Bytes::from_vec(Vec::from_slice(alloc, payload)?))?;
    Ok(parts)
}

/// What is kept with one more payload, where there was no metadata.
fn after_none<H: Hash32>(
    alloc: Global,
    id: &BlobId,
    parts: Vec<Bytes>,
    payload: &[u8],
) -> Result<Kept, AllocError>
    ensures { (payloads : List (List ℕ))
        → ((m : BlobMetadata) → HasMetadata H.digest id.now.0 payloads m → ⊥)
        → Sifts id.now.0 parts.items payloads
        → IfOk result (λ k. HasKept H.digest id.now.0 k (payloads ++ payload.now ∷ [])) }
{
    match committed_in::<H>(id, payload) {
        Some(m) => Ok(Kept::One(known_from::<H>(alloc, id, m, &parts)?)),
        None => Ok(Kept::Waiting(wait(alloc, id, parts, payload)?)),
    }
}

/// What is kept with one more payload, where there was one metadata.
fn after_one<H: Hash32>(
    alloc: Global,
    id: &BlobId,
    mut known: Known,
    payload: &[u8],
) -> Result<Kept, AllocError>
    requires f { known.work.f ≡ known.metadata.f }
    requires committed { Commits H.digest id.now.0 known.metadata }
    ensures heard { (payloads : List (List ℕ)) → HasKnown H.digest id.now.0 known payloads
        → IfOk result (λ k. HasKept H.digest id.now.0 k (payloads ++ payload.now ∷ [])) }
    ensures memory { IsEnough known → IsOkAnd result IsSettledKept }
{
    match other_in::<H>(id, payload, known.metadata.view()) {
        Some(other) => {
            let clash = collide_metadata::<H>(known.metadata.view(), other);
            Ok(Kept::Two(clash))
        }
        None => {
            take_part::<H>(alloc, id, &mut known, payload)?;
            Ok(Kept::One(known))
        }
    }
}

impl Kept {
    /// What is kept with one more payload. Takes no memory where this is settled.
    pub(crate) fn after<H: Hash32>(
        self,
        alloc: Global,
        id: &BlobId,
        payload: &[u8],
    ) -> Result<Kept, AllocError>
        requires { (payloads : List (List ℕ)) × HasKept H.digest id.now.0 self payloads }
        ensures heard { (payloads : List (List ℕ)) → HasKept H.digest id.now.0 self payloads
            → IfOk result (λ k. HasKept H.digest id.now.0 k (payloads ++ payload.now ∷ [])) }
        ensures memory { IsSettledKept self → IsOkAnd result IsSettledKept }
    {
        match self {
            Kept::Waiting(parts) => after_none::<H>(alloc, id, parts, payload),
            Kept::One(known) => after_one::<H>(alloc, id, known, payload),
            Kept::Two(clash) => Ok(Kept::Two(clash)),
        }
    }

    /// Whether enough slivers are held, or two metadata differ.
    pub(crate) fn is_settled(&self) -> bool
        ensures { IsTrue result ↔ IsSettledKept self.now }
    {
        match self {
            Kept::Waiting(_) => false,
            Kept::One(known) => has_enough(known),
            Kept::Two(_) => true,
        }
    }
}
