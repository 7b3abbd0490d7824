//! Two metadata that differ under one identifier.

ghost use Rattle.std.specs.Prelude.{◌≡◌, ◌≢◌, IfOk};
ghost use Rattle.wal_shape.specs.MetaRef.{metadata_shown};
ghost use Rattle.wal_tree.specs.Collision.{IsCollision};
ghost use Rattle.wal_commit.specs.Identifier.{AreDigestedFor, identifier_of};

use std::alloc::{AllocError, Global};
use wal_commit::collide_metadata;
use wal_shape::{Collision, MetaRef};
use wal_tree::{Hash32, copy_clash};

/// The two texts with one digest that [`collide_metadata`] gives, from two different metadata of
/// one identifier.
///
/// It fails only for want of memory.
pub fn metadatas<H: Hash32>(
    alloc: Global,
    a: MetaRef<'_>,
    b: MetaRef<'_>,
) -> Result<Collision, AllocError>
    requires differ { metadata_shown a ≢ metadata_shown b }
    requires one { identifier_of H.digest (metadata_shown a)
        ≡ identifier_of H.digest (metadata_shown b) }
    ensures collision { IfOk result (λ c. IsCollision H.digest c.left c.right) }
    // The left text is the first metadata's, and the right one the other's.
    ensures texts { IfOk result (λ c.
        AreDigestedFor H.digest (metadata_shown a.entry) (metadata_shown b.entry) c.left c.right) }
{
    copy_clash(alloc, &collide_metadata::<H>(a, b))
}
