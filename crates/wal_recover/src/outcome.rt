//! What a recovery comes to.

use wal_shape::{BadProof, Bytes, Shards};

/// What the openings of a sliver come to.
#[derive(Debug, Drop)]
pub enum Recovered {
    /// The sliver's bytes.
    Sliver(Bytes),
    /// The openings that were taken are a proof that the blob's writer encoded wrongly.
    Inconsistent(BadProof),
    /// The number of openings of distinct crosses that hold, where it is less than a sliver's
    /// number of symbols.
    Short(u32),
}

/// What a recovery comes to, and the crosses of the openings that were taken, in order.
#[derive(Debug, Drop)]
pub struct Recovery {
    pub outcome: Recovered,
    pub taken: Shards,
}
