//! Two slivers that differ under one root.

ghost use Rattle.std.specs.Prelude.{◌≡◌, ◌≢◌, ℕ, ◌*◌, ◌^◌, ◌<◌, ◌≤◌, List, IfOk};
ghost use Rattle.wal_shape.specs.declared.axis.Axis.{Axis};
ghost use Rattle.wal_shape.specs.Metadata.{BlobMetadata, IsMetadata};
ghost use Rattle.wal_shape.specs.Shape.{sliver_symbols};
ghost use Rattle.wal_tree.specs.Collision.{IsCollision};
ghost use Rattle.wal_commit.specs.Held.{HoldsSliver};
ghost use Rattle.wal_extract.specs.Slivers.{AreDigestedForSlivers, HaveOneRoot};

use std::alloc::{AllocError, Global};
use wal_matrix::{Work, codeword_of};
use wal_shape::{Axis, Collision};
use wal_tree::{Hash32, collide_lists};

/// The number of bytes of a symbol of a sliver of this length.
fn symbol_bytes(f: u32, axis: Axis, long: usize) -> u32
    requires few { f ≤ 333 }
    requires whole { (size : ℕ) × (size < 2 ^ 32) × (long ≡ sliver_symbols axis f * size) }
    ensures { (size : ℕ) → long ≡ sliver_symbols axis f * size → result ≡ size }
{
    let symbols = match axis {
        Axis::Primary => 2 * f + 1,
        Axis::Secondary => f + 1,
    };
    (long / symbols as usize) as u32
}

/// Two texts with one digest, from two different slivers of this axis whose codewords have one
/// root: those of the leaf of the first symbol that differs, or of the lowest node above it, which
/// differ under one digest.
///
/// It fails only for want of memory.
pub fn slivers<H: Hash32>(
    alloc: Global,
    f: u32,
    axis: Axis,
    a: &[u8],
    b: &[u8],
) -> Result<Collision, AllocError>
    requires some { 1 ≤ f }
    requires few { f ≤ 333 }
    requires differ { a.now ≢ b.now }
    requires one { HaveOneRoot H.digest f axis a.now b.now }
    ensures collision { IfOk result (λ c. IsCollision H.digest c.left c.right) }
    // The left text is the first sliver's, and the right one the other's.
    ensures texts { IfOk result
        (λ c. AreDigestedForSlivers H.digest f axis a.now b.now c.left c.right) }
{
    let size = symbol_bytes(f, axis, a.len());
    let mut work = Work::create(alloc, f)?;
    let left = codeword_of(alloc, &mut work, axis, size, a)?;
    let right = codeword_of(alloc, &mut work, axis, size, b)?;
    collide_lists::<H>(alloc, &left, &right, size)
}

/// Slivers of one axis and index that a metadata commits have one root, whatever their bytes: if
/// they differ, [`slivers`] gives two texts.
pub fn held_slivers_meet<H: Hash32>()
    ensures { (m : BlobMetadata) (axis : Axis) (index : ℕ) (a b : List ℕ) → IsMetadata m
        → HoldsSliver H.digest m axis index a
        → HoldsSliver H.digest m axis index b → HaveOneRoot H.digest m.f axis a b }
{}
