//! Codewords against the roots of a metadata.

ghost use Rattle.std.specs.Prelude.{◌≡◌, ◌↔◌, ◌*◌, ◌<◌, ◌≤◌, length, IsTrue};
ghost use Rattle.wal_shape.specs.Shape.{shard_count, sliver_symbols, symbol_size};
ghost use Rattle.wal_shape.specs.MetaRef.{metadata_shown};
ghost use Rattle.wal_evidence.specs.BadProof.{HasRoot};

use wal_shape::{Axis, MetaRef, Shape};
use wal_tree::{Hash32, root};

/// The number of symbols of a sliver.
pub fn symbol_count(shape: &Shape, axis: Axis) -> u16
    ensures value { result ≡ sliver_symbols axis shape.now.f }
    ensures least { 2 ≤ result }
    ensures most { result ≤ 667 }
{
    match axis {
        Axis::Primary => shape.cols() as u16,
        Axis::Secondary => shape.rows() as u16,
    }
}

/// Whether the root over the n symbols of a codeword is the metadata's root of this axis and index.
/// Takes no memory.
pub fn root_holds<H: Hash32>(m: MetaRef<'_>, axis: Axis, index: u16, word: &[u8]) -> bool
    requires index { index < shard_count (metadata_shown m).f }
    requires size { length word.now
        ≡ shard_count (metadata_shown m).f
        * symbol_size (metadata_shown m).f (metadata_shown m).length }
    ensures { IsTrue result ↔ HasRoot H.digest (metadata_shown m.entry) axis index word.now }
{
    let size = m.shape().symbol_size();
    root::<H>(word, size).as_slice() == m.root(axis, index)
}
