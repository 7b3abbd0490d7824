//! Answers on a member that contradict the bundle, or each other, show two texts with one digest.

ghost use Rattle.std.specs.Prelude.{◌≡◌, ◌≢◌, ℕ, ◌*◌, ◌<◌, All, List, length, IfOk, IfSome, IfNone};
ghost use Rattle.wal_shape.specs.declared.axis.Axis.TheVariants.{Secondary};
ghost use Rattle.wal_shape.specs.Shape.{BlobShape, IsShape, row_count, shard_count, symbol_size};
ghost use Rattle.wal_shape.specs.MetaRef.{metadata_shown};
ghost use Rattle.wal_shape.specs.Metadata.{IsMetadata};
ghost use Rattle.wal_tree.specs.Collision.{CanCollide, IsCollision};
ghost use Rattle.wal_tree.specs.Digests.{IsByte};
ghost use Rattle.wal_matrix.specs.Matrix.{IsCodedMatrix, secondary_of, symbol_bytes};
ghost use Rattle.wal_commit.specs.Held.{HoldsSliver};
ghost use Rattle.wal_commit.specs.Identifier.{metadata_over};
ghost use Rattle.wal_bundle.specs.Layout.{IsBundle};
ghost use Rattle.wal_bundle.specs.Columns.{IsColumn, IsOwnColumn};
ghost use Rattle.wal_bundle.specs.Contradictions.{AgreeBelow, AreContraryMembers};
ghost use Rattle.wal_bundle.specs.Contradictions.{AreDigestedForBundle, AreDigestedForColumns};
ghost use Rattle.wal_bundle.specs.Contradictions.{AreDigestedForMembers, ContradictsBundle};

use crate::answer::BundleError;
use crate::bundling::bundle;
use crate::columns::column_in;
use std::alloc::{AllocError, Global};
use wal_commit::metadata_of;
use wal_extract::{metadatas, slivers};
use wal_matrix::{Encoded, Work, extend};
use wal_reader::{FoundMetadata, metadata_in};
use wal_shape::{Axis, BlobId, Bytes, Collision, MetaRef, Payloads, Shape};
use wal_tree::Hash32;

/// The bytes of column j, where it is there and is not this one.
fn other_column<H: Hash32>(
    alloc: Global,
    work: &mut Work,
    id: &BlobId,
    m: MetaRef<'_>,
    j: u16,
    payloads: &Payloads,
    own: &[u8],
) -> Result<Option<Bytes>, AllocError>
    requires f { work.old.f ≡ (metadata_shown m).f }
    requires shape { IsShape (metadata_shown m).f (metadata_shown m).length }
    ensures column { IfOk result (λ found. IfSome found (λ bytes.
        IsColumn H.digest id.now.0 (metadata_shown m.entry) payloads.now j bytes)) }
    ensures apart { IfOk result (λ found. IfSome found (λ bytes. bytes ≢ own.now)) }
    ensures none { IfOk result (λ found. IfNone found ((bytes : List ℕ)
        → IsColumn H.digest id.now.0 (metadata_shown m.entry) payloads.now j bytes
        → bytes ≡ own.now)) }
    ensures f { work.new.f ≡ work.old.f }
{
    match column_in::<H>(alloc, work, id, m, j, payloads)? {
        Some(column) => {
            if column.as_slice() != own {
                Ok(Some(column))
            } else {
                Ok(None)
            }
        }
        None => Ok(None),
    }
}

/// Column j of the matrix, in memory.
fn own_column(alloc: Global, matrix: &Encoded, j: u16) -> Result<Vec<u8>, AllocError>
    requires { j < shard_count matrix.now.shape.f }
    ensures { IfOk result (λ own. own.items
        ≡ secondary_of matrix.now.shape.f (symbol_bytes matrix.now) matrix.now.cells j) }
{
    let size = matrix.shape().sliver_len(Axis::Secondary) as usize;
    let mut own = vec![in alloc; 0u8; size]?;
    matrix.secondary(j, &mut own);
    Ok(own)
}

/// Two texts with one digest, from a column that is not the matrix's own, though the metadata
/// commits both.
fn collide_own<H: Hash32>(
    alloc: Global,
    id: &BlobId,
    m: MetaRef<'_>,
    matrix: &Encoded,
    payloads: &Payloads,
) -> Result<Collision, AllocError>
    requires metadata { metadata_shown m
        ≡ metadata_over H.digest matrix.now.shape matrix.now.cells }
    requires coded { IsCodedMatrix matrix.now.shape.f (symbol_bytes matrix.now) matrix.now.cells }
    requires apart { AgreeBelow (shard_count (metadata_shown m).f)
        (IsColumn H.digest id.now.0 (metadata_shown m) payloads.now)
        (IsOwnColumn matrix.now.shape.f (symbol_bytes matrix.now) matrix.now.cells) → ⊥ }
    ensures collision { IfOk result (λ c. IsCollision H.digest c.left c.right) }
    ensures texts { IfOk result
        (λ c. AreDigestedForColumns H.digest (metadata_shown m.entry).f
        (IsColumn H.digest id.now.0 (metadata_shown m.entry) payloads.now)
        (IsOwnColumn matrix.now.shape.f (symbol_bytes matrix.now) matrix.now.cells)
        c.left c.right) }
{
    let mut work = Work::create(alloc, m.f())?;
    for j in 0..matrix.shape().n() as u16 {
        let own = own_column(alloc, matrix, j)?;
        if let Some(column) = other_column::<H>(alloc, &mut work, id, m, j, payloads, &own)? {
            return slivers::<H>(alloc, m.f(), Axis::Secondary, column.as_slice(), &own);
        }
    }
    unreachable!()
}

/// The bundle of members that have one.
fn bundle_again(alloc: Global, f: u32, members: &Payloads) -> Result<Bytes, AllocError>
    requires { (bytes : List ℕ) × IsBundle f members.now bytes × IsShape f (length bytes) }
    ensures { IfOk result (IsBundle f members.now) }
{
    match bundle(alloc, f, members) {
        Ok(bytes) => Ok(bytes),
        Err(BundleError::BadFaults) => unreachable!(),
        Err(BundleError::TooMany) => unreachable!(),
        Err(BundleError::TooLong) => unreachable!(),
        Err(BundleError::Memory) => Err(AllocError),
    }
}

/// Two texts with one digest, from payloads that tell of member k what is not so of the bundle with
/// this identifier: those of the two metadata if these differ, and else those that a column has
/// with the bundle's own.
///
/// It fails only for want of memory.
pub fn bundle_collision<H: Hash32>(
    alloc: Global,
    shape: &Shape,
    members: &Payloads,
    id: &BlobId,
    k: u32,
    payloads: &Payloads,
) -> Result<Collision, AllocError>
    requires { ContradictsBundle H.digest shape.now members.now id.now.0 k payloads.now }
    ensures collision { IfOk result (λ c. IsCollision H.digest c.left c.right) }
    // The left text is the bundle's where the metadata differ, and that of the payloads' column
    // else.
    ensures texts { IfOk result (λ c.
        AreDigestedForBundle H.digest shape.now members.now id.now.0 payloads.now c.left c.right) }
{
    let bytes = bundle_again(alloc, shape.f(), members)?;
    let matrix = extend(alloc, shape, bytes.as_slice())?;
    let metadata = metadata_of::<H>(alloc, &matrix)?;
    let FoundMetadata::One(m) = metadata_in::<H>(id, payloads) else {
        unreachable!()
    };
    if metadata.view().bytes() != m.bytes() {
        return metadatas::<H>(alloc, metadata.view(), m);
    }
    collide_own::<H>(alloc, id, m, &matrix, payloads)
}

/// Two different columns j, one by each of two lists of payloads, where there are such.
fn columns_apart<H: Hash32>(
    alloc: Global,
    work: &mut Work,
    id: &BlobId,
    m: MetaRef<'_>,
    j: u16,
    a: &Payloads,
    b: &Payloads,
) -> Result<Option<(Bytes, Bytes)>, AllocError>
    requires f { work.old.f ≡ (metadata_shown m).f }
    requires shape { IsShape (metadata_shown m).f (metadata_shown m).length }
    ensures left { IfOk result (λ found.
        IfSome found (λ two. IsColumn H.digest id.now.0 (metadata_shown m.entry) a.now j two.0)) }
    ensures right { IfOk result (λ found.
        IfSome found (λ two. IsColumn H.digest id.now.0 (metadata_shown m.entry) b.now j two.1)) }
    ensures apart { IfOk result (λ found. IfSome found (λ two. two.0 ≢ two.1)) }
    ensures none { IfOk result (λ found.
        IfNone found ((x y : List ℕ) → IsColumn H.digest id.now.0 (metadata_shown m.entry) a.now j x
        → IsColumn H.digest id.now.0 (metadata_shown m.entry) b.now j y → x ≡ y)) }
    ensures f { work.new.f ≡ work.old.f }
{
    let Some(left) = column_in::<H>(alloc, work, id, m, j, a)? else {
        return Ok(None);
    };
    match other_column::<H>(alloc, work, id, m, j, b, left.as_slice())? {
        Some(right) => Ok(Some((left, right))),
        None => Ok(None),
    }
}

/// Two texts with one digest, from two lists of payloads that show two different columns, though
/// one metadata commits both.
fn collide_columns<H: Hash32>(
    alloc: Global,
    id: &BlobId,
    m: MetaRef<'_>,
    a: &Payloads,
    b: &Payloads,
) -> Result<Collision, AllocError>
    requires { AgreeBelow (shard_count (metadata_shown m).f)
        (IsColumn H.digest id.now.0 (metadata_shown m) a.now)
        (IsColumn H.digest id.now.0 (metadata_shown m) b.now) → ⊥ }
    ensures collision { IfOk result (λ c. IsCollision H.digest c.left c.right) }
    ensures texts { IfOk result
        (λ c. AreDigestedForColumns H.digest (metadata_shown m.entry).f
        (IsColumn H.digest id.now.0 (metadata_shown m.entry) a.now)
        (IsColumn H.digest id.now.0 (metadata_shown m.entry) b.now) c.left c.right) }
{
    let mut work = Work::create(alloc, m.f())?;
    for j in 0..m.shape().n() as u16 {
        if let Some((left, right)) = columns_apart::<H>(alloc, &mut work, id, m, j, a, b)? {
            return slivers::<H>(
                alloc,
                m.f(),
                Axis::Secondary,
                left.as_slice(),
                right.as_slice(),
            );
        }
    }
    unreachable!()
}

/// Two texts with one digest, from two lists of payloads that tell two different members k of one
/// identifier: those of the two metadata if these differ, and else those that two different
/// columns have.
///
/// It fails only for want of memory.
pub fn member_collision<H: Hash32>(
    alloc: Global,
    id: &BlobId,
    k: u32,
    a: &Payloads,
    b: &Payloads,
) -> Result<Collision, AllocError>
    requires { AreContraryMembers H.digest id.now.0 k a.now b.now }
    ensures collision { IfOk result (λ c. IsCollision H.digest c.left c.right) }
    // The left text is of the first list of payloads, and the right one of the other.
    ensures texts { IfOk result
        (λ c. AreDigestedForMembers H.digest id.now.0 a.now b.now c.left c.right) }
{
    let FoundMetadata::One(left) = metadata_in::<H>(id, a) else {
        unreachable!()
    };
    let FoundMetadata::One(right) = metadata_in::<H>(id, b) else {
        unreachable!()
    };
    if left.bytes() != right.bytes() {
        return metadatas::<H>(alloc, left, right);
    }
    collide_columns::<H>(alloc, id, left, a, b)
}

/// Payloads of bytes that contradict a bundle, or each other, make it impossible that no two texts
/// of bytes have one digest. Computes nothing.
pub fn contrary_members_collide<H: Hash32>()
    ensures bundle { (shape : BlobShape) (members : List (List ℕ))
        (id : List ℕ) (k : ℕ) (payloads : List (List ℕ))
        → All (All IsByte) payloads
        → ContradictsBundle H.digest shape members id k payloads → CanCollide H.digest }
    ensures members { (id : List ℕ) (k : ℕ) (a b : List (List ℕ)) → All (All IsByte) a
        → All (All IsByte) b
        → AreContraryMembers H.digest id k a b → CanCollide H.digest }
{}
