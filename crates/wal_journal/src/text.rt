//! Records without their gates, with a closed gate behind them.

ghost use Rattle.std.specs.Prelude.{◌≡◌, ◌+◌, ◌++◌, ◌≤◌, vec_len, [], ◌∷◌, length, IfOk};
ghost use Rattle.wal_shape.specs.Shape.{most_bytes};
ghost use Rattle.wal_store.specs.Calls.{Put, DropPart, DropId};
ghost use Rattle.wal_journal.specs.Record.{part_byte, spelling, size_text};

use std::alloc::{AllocError, Global};
use wal_shape::{BlobId, Part};

// The number of a part in a record.
fn part_number(part: Part) -> u8
    ensures { result ≡ part_byte part }
{
    match part {
        Part::Metadata => 0,
        Part::Primary => 1,
        Part::Secondary => 2,
        Part::Proof => 3,
    }
}

// The record of a put.
#[tactic(auto, unfolding(crate::specs::Record::size_text))]
pub(crate) fn put_text(
    alloc: Global,
    id: BlobId,
    part: Part,
    bytes: &[u8],
) -> Result<Vec<u8>, AllocError>
    requires { length bytes.now ≤ most_bytes }
    ensures text { IfOk result (λ text. text.items ≡ spelling (Put id part bytes.now) ++ 0 ∷ []) }
    ensures size { IfOk result (λ text. vec_len text ≡ 39 + length bytes.now) }
    ensures id { length id.0 ≡ 32 }
{
    let mut text = Vec::with_capacity(alloc, 39 + bytes.len())?;
    text.push(1)?;
    text.extend_from_slice(&id.0)?;
    text.push(part_number(part))?;
    text.extend_from_slice(&(bytes.len() as u32).to_be_bytes())?;
    text.extend_from_slice(bytes)?;
    text.push(0)?;
    Ok(text)
}

// The record of a drop: its kind, the identifier, the part, the size 0, and the gate.
#[tactic(auto, unfolding(crate::specs::Record::size_text))]
fn drop_text(kind: u8, id: BlobId, part: u8) -> [u8; 39]
    ensures text { result ≡ kind ∷ (id.0 ++ (part ∷ (size_text 0 ++ []))) ++ 0 ∷ [] }
    ensures id { length id.0 ≡ 32 }
{
    let mut text = [0u8; 39];
    text[0] = kind;
    text[1..33].copy_from_slice(&id.0);
    text[33] = part;
    text
}

// The record of a drop of a part.
pub(crate) fn drop_part_text(id: BlobId, part: Part) -> [u8; 39]
    ensures text { result ≡ spelling (DropPart id part) ++ 0 ∷ [] }
    ensures id { length id.0 ≡ 32 }
{
    drop_text(2, id, part_number(part))
}

// The record of a drop of an identifier.
pub(crate) fn drop_id_text(id: BlobId) -> [u8; 39]
    ensures text { result ≡ spelling (DropId id) ++ 0 ∷ [] }
    ensures id { length id.0 ≡ 32 }
{
    drop_text(3, id, 0)
}
