//! The openings among the payloads.

ghost use Rattle.std.specs.Prelude.{◌≡◌, ℕ, ◌%◌, ◌++◌, List, length, IfOk, OnOk};
ghost use Rattle.std.specs.List.{flat_map};
ghost use Rattle.wal_shape.specs.declared.axis.Axis.{Axis};
ghost use Rattle.wal_shape.specs.Opening.{opening_shown};
ghost use Rattle.wal_frame.specs.Reading.{read_of};
ghost use Rattle.wal_reader.specs.Carried.{claim_for, claims_in, opening_at, opening_for};
ghost use Rattle.wal_reader.specs.Carried.{openings_in};

use crate::carried::{claim_of, opening_of};
use std::alloc::{AllocError, Global};
use wal_shape::{
    Axis, BlobId, Bytes, Claim, Claims, Opening, OpeningRef, Openings, Path, Payloads,
};

/// A copy of the opening.
fn owned(alloc: Global, o: OpeningRef<'_>) -> Result<Opening, AllocError>
    requires { length o.path.now % 32 ≡ 0 }
    ensures { IfOk result (λ copy. copy ≡ opening_shown o.entry) }
{
    Ok(Opening {
        cross: o.cross,
        symbol: Bytes::from_vec(Vec::from_slice(alloc, o.symbol)?),
        path: Path::from_vec(Vec::from_slice(alloc, o.path)?),
    })
}

/// Appends a copy of the opening that the payload carries, where it is one of the sliver.
fn add_opening(
    alloc: Global,
    id: &BlobId,
    axis: Axis,
    index: u16,
    payload: &[u8],
    openings: &mut Vec<Opening>,
) -> Result<(), AllocError>
    ensures { OnOk result (openings.new.items
        ≡ openings.old.items ++ opening_for id.now.0 axis index (read_of payload.now)) }
{
    if let Some(opening) = opening_of(id, axis, index, payload) {
        openings.push(owned(alloc, opening)?)?;
    }
    Ok(())
}

/// Copies of the openings of the sliver of this identifier, axis and index that the payloads carry,
/// in order. Whether one holds is not looked at.
pub fn openings_in(
    alloc: Global,
    id: &BlobId,
    axis: Axis,
    index: u16,
    payloads: &Payloads,
) -> Result<Openings, AllocError>
    ensures { IfOk result (λ openings. openings ≡ openings_in id.now.0 axis index payloads.now) }
{
    let mut openings = Vec::new(alloc);
    for payload in payloads.as_slice() {
        add_opening(alloc, id, axis, index, payload.as_slice(), &mut openings)?;
    }
    Ok(Openings::from_vec(openings))
}

/// Appends a copy of the opening that the payload carries, with its target.
fn add_claim(
    alloc: Global,
    id: &BlobId,
    payload: &[u8],
    claims: &mut Vec<Claim>,
) -> Result<(), AllocError>
    ensures { OnOk result
        (claims.new.items ≡ claims.old.items ++ claim_for id.now.0 (read_of payload.now)) }
{
    if let Some(claim) = claim_of(id, payload) {
        claims.push(Claim {
            axis: claim.axis,
            index: claim.index,
            opening: owned(alloc, claim.opening)?,
        })?;
    }
    Ok(())
}

/// Copies of all openings of this identifier that the payloads carry, with their targets, in order.
/// Whether one holds is not looked at.
pub fn claims_in(alloc: Global, id: &BlobId, payloads: &Payloads) -> Result<Claims, AllocError>
    ensures { IfOk result (λ claims. claims ≡ claims_in id.now.0 payloads.now) }
{
    let mut claims = Vec::new(alloc);
    for payload in payloads.as_slice() {
        add_claim(alloc, id, payload.as_slice(), &mut claims)?;
    }
    Ok(Claims::from_vec(claims))
}

/// The openings of a sliver among payloads are those of the claims whose target it is.
pub fn openings_are_claims()
    ensures { (id : List ℕ) (axis : Axis) (index : ℕ) (payloads : List (List ℕ))
        → flat_map (opening_at axis index) (claims_in id payloads)
        ≡ openings_in id axis index payloads }
{}
