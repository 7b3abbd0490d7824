//! The command that writes a blob's identifier.

ghost use Rattle.std.specs.Prelude.{◌≡◌, ◌≤◌, ◌++◌, ◌∷◌, [], length};
ghost use Rattle.hex.specs.Hex.{encode_lower};
ghost use Rattle.wal_shape.specs.Shape.{most_bytes};
ghost use Rattle.wal_run.specs.Command.{IsResult};
ghost use Rattle.wal_run.specs.Identifying.{identifying};
ghost use Rattle.wal_run.specs.inside.Answers.{Says};

use crate::answer::Answer;
use crate::finish::shape_of;
use crate::refusal::Refusal;
use std::alloc::Global;
use wal_commit::blob_id;
use wal_shape::{BlobId, Bytes, Format};
use wal_tree::Hash32;

/// The identifier as 64 lower-case digits, and a newline.
fn identifier_line(id: &BlobId) -> [u8; 65]
    ensures { result ≡ encode_lower id.now.0 ++ 10 ∷ [] }
{
    let mut line = [b'\n'; 65];
    let Ok(()) = hex::encode_to_slice(id.0.as_slice(), &mut line[..64]) else {
        unreachable!()
    };
    line
}

/// The identifier of the blob in this format.
pub fn identify<H: Hash32>(
    alloc: Global,
    faults: u32,
    format: Format,
    blob: &[u8],
) -> Result<Answer, Refusal>
    requires least { 1 ≤ faults }
    requires most { faults ≤ 333 }
    requires small { length blob.now ≤ most_bytes }
    ensures { Says result (IsResult H.digest (identifying H.digest faults format) blob.now) }
{
    let shape = shape_of(faults, format, blob);
    let id = blob_id::<H>(alloc, &shape, blob)?;
    let line = Vec::from_slice(alloc, &identifier_line(&id))?;
    Ok(Answer::Bytes(Bytes::from_vec(line)))
}
