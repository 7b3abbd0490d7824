ghost use Rattle.std.specs.Prelude.{◌≡◌, ◌*◌, ◌/◌, ◌≤◌, ◌↔◌, IsTrue, length};
ghost use Rattle.wal_tree.specs.Tree.{pieces};
ghost use Rattle.wal_tree.specs.Path.{IsPathTo, folded, height, parent};

use crate::hash::{Digest, Hash32};
use crate::node::leaf_digest;

/// Whether the path leads from the leaf with this content, at this place of `count` leaves, to the
/// root. It is false if the place is not below `count`, and if the path has not one digest of
/// 32 bytes for each level above the leaves.
pub fn path_holds<H: Hash32>(
    root: &Digest,
    count: u16,
    place: u16,
    leaf: &[u8],
    path: &[u8],
) -> bool
    requires some { 1 ≤ count }
    requires within { count ≤ 1000 }
    ensures { IsTrue result ↔ IsPathTo H.digest root.now count place leaf.now path.now }
{
    place < count
        && path.len() == 32 * levels_above(count)
        && top_of::<H>(leaf_digest::<H>(leaf), place, path) == *root
}

// How many levels stand above this many leaves.
fn levels_above(count: u16) -> usize
    requires { count ≤ 1000 }
    ensures exact { result ≡ height count }
    ensures few { result ≤ 10 }
{
    let mut width = count;
    let mut levels = 0;
    while width > 1 {
        width = (width + 1) / 2;
        levels += 1;
    }
    levels
}

// The entry to which the path leads from this one.
fn top_of<H: Hash32>(entry: Digest, place: u16, path: &[u8]) -> Digest
    ensures { result ≡ folded H.digest place entry (pieces (length path.now / 32) 32 path.now) }
{
    let mut entry = entry;
    let mut place = place;
    for sibling in path.chunks_exact(32) {
        entry = parent_of::<H>(place, &entry, sibling);
        place /= 2;
    }
    entry
}

// The parent of the entry at this place and its sibling.
fn parent_of<H: Hash32>(place: u16, entry: &Digest, sibling: &[u8]) -> Digest
    ensures { result ≡ parent H.digest place entry.now sibling.now }
{
    if place % 2 == 0 {
        H::hash3(&[1], entry, sibling)
    } else {
        H::hash3(&[1], sibling, entry)
    }
}
