//! The columns of a bundle, one after the other.

ghost use Rattle.std.specs.Prelude.{◌≡◌, ◌*◌, ◌+◌, ◌<◌, ◌≤◌, ◌^◌, ◌++◌, ℕ, List, All, length};
ghost use Rattle.std.specs.Prelude.{vec_len, IfOk, OnOk};
ghost use Rattle.wal_bundle.specs.Layout.{columns_for, columns_text, index_text, lengths_of};
ghost use Rattle.wal_bundle.specs.Layout.{used_columns, whole_columns};

use crate::layout::columns_for;
use std::alloc::{AllocError, Global};
use wal_shape::Bytes;

/// Appends bytes, and zeros up to the end of their last column.
fn add_whole(columns: &mut Vec<u8>, size: u64, bytes: &[u8]) -> Result<(), AllocError>
    requires some { 0 < size }
    requires room { vec_len columns.old + columns_for size (length bytes.now) * size < 2 ^ 63 }
    ensures { OnOk result (columns.new.items ≡ columns.old.items ++ whole_columns size bytes.now) }
{
    let end = columns.len() + (columns_for(size, bytes.len() as u64) * size) as usize;
    columns.extend_from_slice(bytes)?;
    columns.resize(end, 0)?;
    Ok(())
}

/// The columns that the index and the members fill, `total` bytes in all.
pub(crate) fn columns_text(
    alloc: Global,
    size: u64,
    total: u64,
    index: &[u8],
    members: &[Bytes],
) -> Result<Vec<u8>, AllocError>
    requires some { 0 < size }
    requires index { index.now ≡ index_text size (lengths_of members.now) }
    requires total { total ≡ used_columns size (lengths_of members.now) * size }
    requires fits { total < 2 ^ 32 }
    ensures { IfOk result (λ columns. columns.items ≡ columns_text size members.now) }
{
    let mut columns = Vec::with_capacity(alloc, total as usize)?;
    add_whole(&mut columns, size, index)?;
    for member in members {
        add_whole(&mut columns, size, member.as_slice())?;
    }
    Ok(columns)
}
