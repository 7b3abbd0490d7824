//! A range of a blob's bytes.

ghost use Rattle.std.specs.Prelude.{◌≡◌, ◌≤◌, length, IfOk};
ghost use Rattle.wal_gateway.specs.Getting.{range_of};

use crate::answer::Found;
use crate::checked::CheckedBlob;
use std::alloc::{AllocError, Global};
use wal_shape::Bytes;

/// So many bytes from a place on, in memory of their own, or the blob's length where it ends
/// before.
pub(crate) fn range_in(
    alloc: Global,
    blob: &CheckedBlob,
    from: u32,
    size: u32,
) -> Result<Found, AllocError>
    requires { length blob.now.bytes ≡ blob.now.shape.length }
    ensures { IfOk result (λ found. found ≡ range_of from size blob.now.bytes) }
{
    let bytes = blob.bytes.as_slice();
    let start = from as usize;
    let end = start + size as usize;
    if end <= bytes.len() {
        let range = Vec::from_slice(alloc, &bytes[start..end])?;
        Ok(Found::Range(Bytes::from_vec(range)))
    } else {
        Ok(Found::OutOfRange(blob.shape.length() as u32))
    }
}
