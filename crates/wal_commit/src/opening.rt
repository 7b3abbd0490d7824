//! Openings: whether a metadata commits one, and the opening that a held sliver gives.

ghost use Rattle.std.specs.Prelude.{◌≡◌, ℕ, ◌+◌, ◌*◌, ◌/◌, ◌%◌, ◌<◌, ◌≤◌, ◌↔◌, List, length};
ghost use Rattle.std.specs.Prelude.{IsTrue};
ghost use Rattle.wal_kernel.specs.Region.{region};
ghost use Rattle.wal_shape.specs.declared.axis.Axis.{Axis};
ghost use Rattle.wal_shape.specs.declared.opening.Opening.{Opening};
ghost use Rattle.wal_shape.specs.Metadata.{BlobMetadata, IsMetadata};
ghost use Rattle.wal_shape.specs.MetaRef.{metadata_shown};
ghost use Rattle.wal_shape.specs.Opening.{IsBody, opening_shown};
ghost use Rattle.wal_shape.specs.Shape.{shard_count, symbol_size, crossing};
ghost use Rattle.wal_tree.specs.Path.{path_over};
ghost use Rattle.wal_commit.specs.Held.{HoldsOpening, HoldsSliver, IsOpeningOf};

use wal_matrix::{Work, expand};
use wal_shape::{Axis, MetaRef, OpeningRef};
use wal_tree::{Digest, Hash32, PathBuf, path, path_holds};

/// Whether this is an opening of the sliver of this axis and index: its cross and the index are
/// below n, its symbol has the bytes of one, and its path leads from the symbol, at the place
/// `index`, to the committed root of the crossing sliver (the Walrus paper, section "Vector
/// commitments"). Takes no memory.
pub fn opening_holds<H: Hash32>(m: MetaRef<'_>, axis: Axis, index: u16, o: &OpeningRef<'_>) -> bool
    ensures { IsTrue result
        ↔ HoldsOpening H.digest (metadata_shown m.entry) axis index (opening_shown o.now) }
{
    let shape = m.shape();
    let count = shape.n();
    if u32::from(index) >= count || u32::from(o.cross) >= count {
        return false;
    }
    if o.symbol.len() != shape.symbol_size() as usize {
        return false;
    }
    let committed = digest_of(m.root(axis.crossing(), o.cross));
    path_holds::<H>(&committed, count as u16, index, o.symbol, o.path)
}

/// An opening that a metadata commits has its numbers and lengths in the range of a spelling.
pub fn openings_are_bodies<H: Hash32>()
    ensures { (m : BlobMetadata) (axis : Axis) (index : ℕ) (o : Opening) → IsMetadata m
        → HoldsOpening H.digest m axis index o → IsBody o }
{}

/// A root as a digest of its own.
fn digest_of(root: &[u8]) -> Digest
    requires { length root.now ≡ 32 }
    ensures { result ≡ root.now }
{
    let mut digest = [0; 32];
    digest.copy_from_slice(root);
    digest
}

/// The opening of the target of this axis and index that the crossing sliver of index `cross`
/// gives, which the metadata must hold: `symbol` is filled with the symbol at the place `index` of
/// the sliver's codeword, and `out` with the sibling digests of that place. The opening holds.
/// Takes no memory.
pub fn reveal<H: Hash32>(
    work: &mut Work,
    m: MetaRef<'_>,
    axis: Axis,
    index: u16,
    cross: u16,
    sliver: &[u8],
    symbol: &mut [u8],
    out: &mut PathBuf,
)
    requires f { work.old.f ≡ (metadata_shown m).f }
    requires sliver { HoldsSliver H.digest (metadata_shown m) (crossing axis) cross sliver.now }
    requires index { index < shard_count (metadata_shown m).f }
    requires symbol { length symbol.old
        ≡ symbol_size (metadata_shown m).f (metadata_shown m).length }
    ensures opening { IsOpeningOf H.digest (metadata_shown m.entry) axis index sliver.now
        (record { cross = cross; symbol = symbol.new; path = out.new }) }
    ensures holds { HoldsOpening H.digest (metadata_shown m.entry) axis index
        (record { cross = cross; symbol = symbol.new; path = out.new }) }
    ensures f { work.new.f ≡ work.old.f }
{
    let size = m.shape().symbol_size();
    let word = expand(work, axis.crossing(), size, sliver);
    open_at::<H>(word, size, index, symbol, out);
}

/// Fills the symbol at this place of a codeword, and the path of its siblings.
fn open_at<H: Hash32>(word: &[u8], size: u32, index: u16, symbol: &mut [u8], out: &mut PathBuf)
    requires piece { 1 ≤ size }
    requires whole { length word.now % size ≡ 0 }
    requires within { length word.now ≤ 1000 * size }
    requires place { size * index + size ≤ length word.now }
    requires symbol { length symbol.old ≡ size }
    ensures symbol { symbol.new ≡ region size word.now index }
    ensures siblings { out.new ≡ path_over H.digest size word.now index }
{
    let start = size as usize * index as usize;
    symbol.copy_from_slice(&word[start..start + size as usize]);
    path::<H>(word, size, index, out);
}
