//! The index of a bundle, as text.

ghost use Rattle.std.specs.Prelude.{◌≡◌, ◌*◌, ◌+◌, ◌<◌, ◌≤◌, ◌++◌, ◌^◌, length, take, slice_index};
ghost use Rattle.std.specs.Prelude.{IfOk, OnOk};
ghost use Rattle.std.specs.Int.{w16, w32};
ghost use Rattle.wal_shape.specs.Spelling.{number_text};
ghost use Rattle.wal_bundle.specs.Layout.{column_bytes, columns_for, first_column, index_bytes};
ghost use Rattle.wal_bundle.specs.Layout.{index_text, used_columns};

use crate::layout::{columns_for, index_columns};
use std::alloc::{AllocError, Global};

/// Appends the entry of a member: its first column, and its length.
fn add_entry(text: &mut Vec<u8>, first: u16, length: u32) -> Result<(), AllocError>
    ensures { OnOk result
        (text.new.items ≡ text.old.items ++ (number_text w16 first ++ number_text w32 length)) }
{
    text.extend_from_slice(&first.to_be_bytes())?;
    text.extend_from_slice(&length.to_be_bytes())?;
    Ok(())
}

/// The index of members of these lengths, for columns of `size` bytes.
pub(crate) fn index_text(alloc: Global, size: u64, lengths: &[u32]) -> Result<Vec<u8>, AllocError>
    requires some { 0 < size }
    requires few { length lengths.now ≤ 666 }
    requires used { used_columns size lengths.now ≤ 667 }
    ensures { IfOk result (λ text. text.items ≡ index_text size lengths.now) }
{
    let count = lengths.len();
    let mut text = Vec::with_capacity(alloc, 2 + 6 * count)?;
    text.extend_from_slice(&(count as u16).to_be_bytes())?;
    let mut first = index_columns(size, count);
    for length in lengths {
        add_entry(&mut text, first as u16, *length)?;
        first += columns_for(size, u64::from(*length));
    }
    Ok(text)
}
