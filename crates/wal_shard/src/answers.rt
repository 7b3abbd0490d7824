//! What a shard answers.

use wal_shape::MetaClash;

/// What a shard made of metadata, a sliver or a proof. All but `Stored` changes nothing.
#[derive(Debug, Drop)]
pub enum PutAnswer {
    /// The part is held from now on.
    Stored,
    /// The part was held already.
    Held,
    /// The identifier is not live.
    Unregistered,
    /// No metadata is held that a sliver or a proof could rest on.
    NoMetadata,
    /// A metadata of another f, a sliver not the shard's or that does not hold, a proof of nothing,
    /// or none of these.
    Unverified,
    /// Another metadata of the identifier is held: two texts with one digest.
    OtherMetadata(MetaClash),
    /// More pages are needed than are free.
    Full {
        /// The pages of the part, and one more for a new identifier.
        needed: u32,
        /// The limit less the pages of all holdings.
        free: u32,
    },
    /// There was no memory.
    Memory,
}

/// Why a shard neither acknowledges nor attests.
#[derive(Clone, Copy, Debug, PartialEq, Eq, Drop)]
pub enum AckRefusal {
    /// The identifier is not live.
    Unregistered,
    /// The identifier does not outlast the writing epoch.
    Expires,
    /// What the shard holds does not back it.
    Declined,
}

/// The slivers stay: the ledger does not say that the identifier is invalid, or no proof is held.
#[derive(Clone, Copy, Debug, PartialEq, Eq, Drop)]
pub struct Declined;
