//! Reading a member of a bundle.

ghost use Rattle.std.specs.Prelude.{◌≡◌, ◌⊎◌, ℕ, List, Some, IfOk, length, slice_get};
ghost use Rattle.wal_shape.specs.Shape.{BlobShape, symbol_size};
ghost use Rattle.wal_shape.specs.Metadata.{BlobMetadata};
ghost use Rattle.wal_shape.specs.MetaRef.{metadata_shown};
ghost use Rattle.wal_matrix.specs.Matrix.{IsExtended};
ghost use Rattle.wal_reader.specs.Outcome.{IsMetadataIn};
ghost use Rattle.wal_bundle.specs.Layout.{IsBundle, lengths_of};
ghost use Rattle.wal_bundle.specs.Columns.{IsColumn};
ghost use Rattle.wal_bundle.specs.Contradictions.{AreContraryMembers, ContradictsBundle};
ghost use Rattle.wal_bundle.specs.Contradictions.{IsBundleOf, IsTrueOf, SameMemberAnswer};
ghost use Rattle.wal_bundle.specs.Member.{HasIndex, IsMember, ShowsMember, Tells};
ghost use Rattle.wal_bundle.specs.declared.answer.MemberAnswer.{MemberAnswer};
ghost use Rattle.wal_bundle.specs.declared.answer.MemberAnswer.TheVariants.{Member};

use crate::answer::MemberAnswer;
use crate::columns::add_columns;
use crate::layout::{columns_for, first_column};
use crate::reading::{IndexAnswer, column_size, read_index};
use std::alloc::{AllocError, Global};
use wal_commit::collide_metadata;
use wal_matrix::Work;
use wal_reader::{FoundMetadata, metadata_in};
use wal_shape::{BlobId, Bytes, MetaRef, Payloads};
use wal_tree::Hash32;

/// Member k of members of these lengths.
fn member_by<H: Hash32>(
    alloc: Global,
    work: &mut Work,
    id: &BlobId,
    m: MetaRef<'_>,
    k: u32,
    payloads: &Payloads,
    lengths: &[u32],
) -> Result<MemberAnswer, AllocError>
    requires f { work.old.f ≡ (metadata_shown m).f }
    requires index { HasIndex
        (IsColumn H.digest id.now.0 (metadata_shown m) payloads.now) (metadata_shown m).f
        (symbol_size (metadata_shown m).f (metadata_shown m).length) lengths.now }
    ensures { IfOk result (Tells (IsColumn H.digest id.now.0 (metadata_shown m.entry) payloads.now)
        (metadata_shown m.entry).f
        (symbol_size (metadata_shown m.entry).f (metadata_shown m.entry).length) k) }
{
    let size = column_size(m);
    let count = lengths.len() as u32;
    if k >= count {
        return Ok(MemberAnswer::NoMember(count));
    }
    let first = first_column(size, lengths, k as usize) as u16;
    let length = lengths[k as usize];
    let total = columns_for(size, u64::from(length)) as u16;
    let mut columns = Vec::new(alloc);
    match add_columns::<H>(alloc, work, id, m, first, 0, total, payloads, &mut columns)? {
        Some(j) => Ok(MemberAnswer::Missing(u32::from(j))),
        None => {
            columns.truncate(length as usize);
            Ok(MemberAnswer::Member(Bytes::from_vec(columns)))
        }
    }
}

/// Member k by the one metadata among the payloads.
fn member_of<H: Hash32>(
    alloc: Global,
    id: &BlobId,
    m: MetaRef<'_>,
    k: u32,
    payloads: &Payloads,
) -> Result<MemberAnswer, AllocError>
    requires { IsMetadataIn H.digest id.now.0 payloads.now (metadata_shown m) }
    ensures { IfOk result (IsMember H.digest id.now.0 k payloads.now) }
{
    let mut work = Work::create(alloc, m.f())?;
    match read_index::<H>(alloc, &mut work, id, m, payloads)? {
        IndexAnswer::Missing(j) => Ok(MemberAnswer::Missing(j)),
        IndexAnswer::Bad => Ok(MemberAnswer::BadIndex),
        IndexAnswer::Lengths(lengths) => {
            member_by::<H>(alloc, &mut work, id, m, k, payloads, &lengths)
        }
    }
}

/// Member k among the payloads.
fn find<H: Hash32>(
    alloc: Global,
    id: &BlobId,
    k: u32,
    payloads: &Payloads,
) -> Result<MemberAnswer, AllocError>
    ensures { IfOk result (IsMember H.digest id.now.0 k payloads.now) }
{
    match metadata_in::<H>(id, payloads) {
        FoundMetadata::Absent => Ok(MemberAnswer::NoMetadata),
        FoundMetadata::One(m) => member_of::<H>(alloc, id, m, k, payloads),
        FoundMetadata::Two(a, b) => Ok(MemberAnswer::Collision(collide_metadata::<H>(a, b))),
    }
}

/// Member k, counted from 0, of the bundle with this identifier, from what shards sent.
///
/// Payloads that are no frames, or frames of another identifier or kind, are passed over, and so
/// are slivers and openings that the metadata does not commit. Column j is secondary sliver j: the
/// first held one, or else what its openings give, as in a recovery. Only the columns of the index
/// and of the member are looked for. The first case that applies is the answer: two metadata of the
/// identifier differ; there is none; column 0 is missing; it tells of more than `2f` members, a bad
/// index; a further column of the index is missing; the index is that of no members; it has no
/// member k; a column of the member is missing; the member's bytes.
pub fn member<H: Hash32>(
    alloc: Global,
    id: &BlobId,
    k: u32,
    payloads: &Payloads,
) -> Result<MemberAnswer, AllocError>
    ensures told { IfOk result (IsMember H.digest id.now.0 k payloads.now) }
    // There is no other answer; the texts of a collision are not compared.
    ensures only { IfOk result (λ answer. (other : MemberAnswer)
        → IsMember H.digest id.now.0 k payloads.now other → SameMemberAnswer other answer) }
    // Of a bundle with this identifier the answer is true, or `bundle_collision` gives two texts
    // with one digest.
    ensures bundle { IfOk result (λ answer. (shape : BlobShape) (members : List (List ℕ))
        → IsBundleOf H.digest shape members id.now.0
        → IsTrueOf members k answer
        ⊎ ContradictsBundle H.digest shape members id.now.0 k payloads.now) }
    // Whoever wrote it, other payloads tell the same member, or `member_collision` gives two texts
    // with one digest.
    ensures one { IfOk result (λ answer. (others : List (List ℕ)) (own bytes : List ℕ)
        → answer ≡ Member own → IsMember H.digest id.now.0 k others (Member bytes)
        → (bytes ≡ own) ⊎ AreContraryMembers H.digest id.now.0 k payloads.now others) }
{
    find::<H>(alloc, id, k, payloads)
}

/// Payloads tell a member of a bundle if they show its own columns of the index and of this member;
/// no other column is needed.
pub fn shown_member_is_told()
    ensures { (digest : List ℕ → List ℕ) (id : List ℕ) (k : ℕ) (payloads : List (List ℕ))
        (m : BlobMetadata) (members : List (List ℕ)) (bytes own e : List ℕ)
        → IsMetadataIn digest id payloads m → IsBundle m.f members bytes → length bytes ≡ m.length
        → IsExtended m.f bytes e → slice_get members k ≡ Some own
        → ShowsMember (IsColumn digest id m payloads) m.f
        (symbol_size m.f m.length) (lengths_of members) e k
        → IsMember digest id k payloads (Member own) }
{}
