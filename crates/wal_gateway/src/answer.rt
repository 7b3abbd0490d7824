//! What a get answers.

use wal_shape::{Bytes, MetaClash};

/// What is found where bytes of a blob are asked for.
#[derive(Debug, Drop)]
pub enum Found {
    /// The bytes.
    Range(Bytes),
    /// The blob ends before; this is its length.
    OutOfRange(u32),
    /// The metadata commits no blob that the held slivers belong to; or too few are held, and a
    /// proof shows that the blob was badly encoded.
    Reject,
    /// The number of held primary slivers, and how many are needed.
    Short { have: u32, need: u32 },
    /// No payload is a metadata of the identifier.
    NoMetadata,
    /// Two texts with one digest, from two metadata of the identifier.
    Collision(MetaClash),
}

/// What a get answers: what is found, and whether the blob was in the cache.
#[derive(Debug, Drop)]
pub struct GetAnswer {
    pub hit: bool,
    pub found: Found,
}
