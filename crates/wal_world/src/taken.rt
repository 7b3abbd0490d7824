//! What an event comes to that may end in a collision.

ghost use Rattle.std.specs.Prelude.{◌≡◌, IfOk};

use std::alloc::{AllocError, Global};
use wal_shape::{Bytes, Collision, MetaClash};

/// The word of the event's line, or two texts with one digest.
#[derive(Drop)]
pub(crate) enum Taken<W> {
    /// The word.
    Word(W),
    /// The two texts.
    Collision(Collision),
}

/// The two texts that two metadata differ in, in memory of their own.
pub(crate) fn clash_texts(alloc: Global, clash: &MetaClash) -> Result<Collision, AllocError>
    ensures left { IfOk result (λ c. c.left ≡ clash.now.left) }
    ensures right { IfOk result (λ c. c.right ≡ clash.now.right) }
{
    Ok(Collision {
        left: Bytes::from_vec(Vec::from_slice(alloc, clash.left.bytes())?),
        right: Bytes::from_vec(Vec::from_slice(alloc, clash.right.bytes())?),
    })
}
