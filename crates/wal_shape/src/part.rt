//! The parts that a shard holds of a blob.

/// One of the four parts of a holding.
#[derive(Clone, Copy, Debug, PartialEq, Eq, Drop)]
pub enum Part {
    /// The metadata of the blob.
    Metadata,
    /// The shard's primary sliver.
    Primary,
    /// The shard's secondary sliver.
    Secondary,
    /// A proof that the blob was encoded badly.
    Proof,
}
