//! The lengths of members.

ghost use Rattle.std.specs.Prelude.{◌≡◌, ◌<◌, ℕ, length, slice_index, IfOk, IfSome, IfNone};
ghost use Rattle.wal_shape.specs.Shape.{most_bytes};
ghost use Rattle.wal_bundle.specs.Layout.{lengths_of};

use std::alloc::{AllocError, Global};
use wal_shape::{Bytes, MOST_BYTES};

/// The lengths of members, if none is longer than a blob.
pub(crate) fn lengths_of(alloc: Global, members: &[Bytes]) -> Result<Option<Vec<u32>>, AllocError>
    ensures some { IfOk result
        (λ found. IfSome found (λ lengths. lengths.items ≡ lengths_of members.now)) }
    ensures none { IfOk result (λ found. IfNone found ((k : ℕ) × (k < length members.now)
        × (most_bytes < slice_index (lengths_of members.now) k))) }
{
    let mut lengths = Vec::with_capacity(alloc, members.len())?;
    for member in members {
        let length = member.as_slice().len();
        if length as u64 > MOST_BYTES {
            return Ok(None);
        }
        lengths.push(length as u32)?;
    }
    Ok(Some(lengths))
}
