//! What a read comes to.

use wal_evidence::Evidence;
use wal_shape::{Bytes, MetaClash};

/// What a read comes to.
#[derive(Debug, Drop)]
pub enum Outcome {
    /// The blob's bytes.
    Bytes(Bytes),
    /// The metadata commits no blob that the held slivers belong to.
    Reject,
    /// The number of held primary slivers, and how many are needed.
    Short { have: u32, need: u32 },
    /// No payload is a metadata of the identifier.
    NoMetadata,
    /// Two texts with one digest, from two metadata of the identifier.
    Collision(MetaClash),
}

/// What a read comes to, and the evidence for it, where it is a verdict.
#[derive(Debug, Drop)]
pub struct ReadAnswer {
    pub outcome: Outcome,
    pub evidence: Option<Evidence>,
}
