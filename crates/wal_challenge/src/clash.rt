//! A claim that holds for a blob and shows another symbol than the blob's matrix has there.

ghost use Rattle.std.specs.Prelude.{◌≡◌, ℕ, All, IfOk, List, length};
ghost use Rattle.wal_shape.specs.declared.claim.Claim.{Claim as ClaimOf};
ghost use Rattle.wal_shape.specs.Shape.{BlobShape, IsShape};
ghost use Rattle.wal_tree.specs.Collision.{CanCollide, IsCollision};
ghost use Rattle.wal_tree.specs.Digests.{IsByte};
ghost use Rattle.wal_challenge.specs.Verdict.{AreDigestedForClaim, IsFalseClaim};

use std::alloc::{AllocError, Global};
use wal_commit::collide_opening;
use wal_matrix::extend;
use wal_shape::{Claim, Collision, Shape};
use wal_tree::Hash32;

/// Two texts with one digest, from the bytes of a blob and a claim that its metadata commits and
/// whose symbol is not the one of its matrix: those of the leaf, or of the lowest node above it, in
/// which the claim's path and the matrix's own differ under one digest. The blob is extended.
///
/// It fails only for want of memory.
pub fn claim_collision<H: Hash32>(
    alloc: Global,
    shape: &Shape,
    bytes: &[u8],
    claim: &Claim,
) -> Result<Collision, AllocError>
    requires long { length bytes.now ≡ shape.now.length }
    requires false_claim { IsFalseClaim H.digest shape.now bytes.now claim.now }
    ensures collision { IfOk result (λ c. IsCollision H.digest c.left c.right) }
    // The left text is on the claim's path, and the right one on that of the blob's own symbol.
    ensures texts { IfOk result
        (λ c. AreDigestedForClaim H.digest shape.now bytes.now claim.now c.left c.right) }
{
    let matrix = extend(alloc, shape, bytes)?;
    let opening = claim.opening.view();
    collide_opening::<H>(alloc, &matrix, claim.axis, claim.index, &opening)
}

/// A claim that is false of a blob makes it impossible that no two texts of bytes have one digest.
/// Computes nothing.
pub fn false_claims_collide<H: Hash32>()
    ensures { (shape : BlobShape) (bytes : List ℕ) (claim : ClaimOf) → IsShape shape.f shape.length
        → length bytes ≡ shape.length
        → IsFalseClaim H.digest shape bytes claim → All IsByte claim.opening.symbol
        → All IsByte claim.opening.path → CanCollide H.digest }
{}
