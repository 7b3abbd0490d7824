//! Which symbol a shard is asked for.

use wal_shape::Axis;

/// A symbol of one of a shard's two slivers.
#[derive(Clone, Copy, Debug, PartialEq, Eq)]
pub struct Draw {
    /// The axis of the sliver.
    pub axis: Axis,
    /// The place of the symbol in the sliver's codeword of n symbols.
    pub place: u16,
}
