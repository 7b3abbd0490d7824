//! A blob that was checked.

use wal_shape::{Bytes, Shape};

/// A blob that was checked: its shape and its bytes.
#[derive(Debug, Drop)]
pub struct CheckedBlob {
    pub shape: Shape,
    pub bytes: Bytes,
}
