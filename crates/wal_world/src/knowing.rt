//! What a shard that recovers a sliver knows of the blob's metadata.

ghost use Rattle.std.specs.Prelude.{◌≡◌, ◌≢◌, ℕ, IfOk, IfSome};
ghost use Rattle.wal_shape.specs.MetaRef.{metadata_shown};
ghost use Rattle.wal_tree.specs.Collision.{IsCollision};
ghost use Rattle.wal_commit.specs.Identifier.{Commits};
ghost use Rattle.wal_reader.specs.Outcome.{IsMetadataIn};
ghost use Rattle.wal_store.specs.Parts.{Parts};
ghost use Rattle.wal_world.specs.inside.Knowing.{AreKnown, IsHeldMetadata};

use crate::taken::clash_texts;
use std::alloc::{AllocError, Global};
use wal_commit::collide_metadata;
use wal_reader::{FoundMetadata, metadata_in};
use wal_shape::{BlobId, Collision, MetaRef, Metadata, Payloads};
use wal_tree::Hash32;

/// What is known of a blob's metadata.
#[derive(Drop)]
pub(crate) enum Known {
    /// None.
    Absent,
    /// One.
    One(Metadata),
    /// Two that differ: two texts with one digest.
    Two(Collision),
}

/// Two texts with one digest, from two metadata of one identifier.
fn collide<H: Hash32>(
    alloc: Global,
    id: &BlobId,
    a: MetaRef<'_>,
    b: MetaRef<'_>,
) -> Result<Collision, AllocError>
    requires one { Commits H.digest id.now.0 (metadata_shown a) }
    requires other { Commits H.digest id.now.0 (metadata_shown b) }
    requires differ { metadata_shown a ≢ metadata_shown b }
    ensures { IfOk result (λ c. IsCollision H.digest c.left c.right) }
{
    clash_texts(alloc, &collide_metadata::<H>(a, b))
}

/// What is known where the payloads carry one metadata.
fn known_beside<H: Hash32>(
    alloc: Global,
    id: &BlobId,
    own: Option<Metadata>,
    payloads: &Payloads,
    m: MetaRef<'_>,
) -> Result<Known, AllocError>
    requires own { IfSome own (λ m. Commits H.digest id.now.0 m) }
    requires one { IsMetadataIn H.digest id.now.0 payloads.now (metadata_shown m) }
    requires commits { Commits H.digest id.now.0 (metadata_shown m) }
    ensures { IfOk result
        (λ known. (f : ℕ) (parts : Parts) → IsHeldMetadata H.digest f id.now.0 parts own
        → AreKnown H.digest id.now parts payloads.now known) }
{
    match own {
        Some(own) => {
            if own.view().bytes() == m.bytes() {
                Ok(Known::One(own))
            } else {
                Ok(Known::Two(collide::<H>(alloc, id, m, own.view())?))
            }
        }
        None => Ok(Known::One(Metadata::of(alloc, m)?)),
    }
}

/// What is known by the payloads, and by what a shard holds.
pub(crate) fn known_in<H: Hash32>(
    alloc: Global,
    id: &BlobId,
    own: Option<Metadata>,
    payloads: &Payloads,
) -> Result<Known, AllocError>
    requires own { IfSome own (λ m. Commits H.digest id.now.0 m) }
    ensures { IfOk result
        (λ known. (f : ℕ) (parts : Parts) → IsHeldMetadata H.digest f id.now.0 parts own
        → AreKnown H.digest id.now parts payloads.now known) }
{
    match metadata_in::<H>(id, payloads) {
        FoundMetadata::Absent => match own {
            Some(own) => Ok(Known::One(own)),
            None => Ok(Known::Absent),
        },
        FoundMetadata::One(m) => known_beside::<H>(alloc, id, own, payloads, m),
        FoundMetadata::Two(a, b) => Ok(Known::Two(collide::<H>(alloc, id, a, b)?)),
    }
}
