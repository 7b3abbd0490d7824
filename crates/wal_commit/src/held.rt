//! Whether a sliver is the one that a metadata commits.

ghost use Rattle.std.specs.Prelude.{◌≡◌, ◌*◌, ◌%◌, ◌≤◌, ◌↔◌, length, IsTrue};
ghost use Rattle.wal_shape.specs.MetaRef.{metadata_shown};
ghost use Rattle.wal_tree.specs.Tree.{root_over};
ghost use Rattle.wal_commit.specs.Held.{HoldsSliver};

use wal_matrix::{Work, expand};
use wal_shape::{Axis, MetaRef};
use wal_tree::{Hash32, root};

/// Whether this is the sliver of this axis and index that the metadata commits: its symbols are as
/// many and as long as the shape says, and the root over its codeword's symbols is the committed
/// one (the Walrus paper, section "Vector commitments"). Takes no memory.
pub fn sliver_holds<H: Hash32>(
    work: &mut Work,
    m: MetaRef<'_>,
    axis: Axis,
    index: u16,
    sliver: &[u8],
) -> bool
    requires { work.old.f ≡ (metadata_shown m).f }
    ensures holds { IsTrue result
        ↔ HoldsSliver H.digest (metadata_shown m.entry) axis index sliver.now }
    ensures f { work.new.f ≡ work.old.f }
{
    let shape = m.shape();
    if u32::from(index) >= shape.n() || sliver.len() != shape.sliver_len(axis) as usize {
        return false;
    }
    let size = shape.symbol_size();
    let word = expand(work, axis, size, sliver);
    has_root::<H>(word, size, m.root(axis, index))
}

/// Whether this is the root over the symbols.
fn has_root<H: Hash32>(symbols: &[u8], size: u32, committed: &[u8]) -> bool
    requires piece { 1 ≤ size }
    requires whole { length symbols.now % size ≡ 0 }
    requires some { size ≤ length symbols.now }
    requires within { length symbols.now ≤ 1000 * size }
    ensures { IsTrue result ↔ root_over H.digest size symbols.now ≡ committed.now }
{
    root::<H>(symbols, size).as_slice() == committed
}
