//! The first completed answer for a blob.

use wal_evidence::{Evidence, Verdict};
use wal_shape::Bytes;

/// The first completed answer for a blob, with what it rests on.
#[derive(Debug, Drop)]
pub enum First {
    /// A read came to this verdict, by this evidence.
    Judged(Evidence, Verdict),
    /// An honest writer wrote these bytes.
    Written(Bytes),
}
