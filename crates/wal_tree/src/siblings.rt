ghost use Rattle.std.specs.Prelude.{◌≡◌, ◌+◌, ◌*◌, ◌/◌, ◌%◌, ◌<◌, ◌≤◌, drop, length};
ghost use Rattle.std.specs.Prelude.{slice_index_or, take};
ghost use Rattle.wal_tree.specs.Tree.{empty_entry, leaves, root_over};
ghost use Rattle.wal_tree.specs.inside.Tree.{level_above};
ghost use Rattle.wal_tree.specs.Path.{IsPathTo, beside, path_over};
ghost use Rattle.wal_tree.specs.inside.Path.{width_of};

use crate::hash::{Digest, Hash32};
use crate::node::{EMPTY, join, leaf_digest};
use crate::path_buf::PathBuf;

/// The path from the leaf at `place` to the root of the tree that [`root`](crate::root) describes.
/// It replaces what the buffer held, and takes no memory.
pub fn path<H: Hash32>(content: &[u8], size: u32, place: u16, out: &mut PathBuf)
    requires piece { 1 ≤ size }
    requires whole { length content.now % size ≡ 0 }
    requires some { size ≤ length content.now }
    requires within { length content.now ≤ 1000 * size }
    requires place { place < length content.now / size }
    ensures siblings { out.new ≡ path_over H.digest size content.now place }
    ensures holds { IsPathTo H.digest (root_over H.digest size content.now)
        (length content.now / size) place (take size (drop (place * size) content.now)) out.new }
{
    out.clear();
    let size = size as usize;
    let mut width = content.len() / size;
    let mut at = place as usize;
    let mut level = 0;
    while width > 1 {
        out.push(&entry::<H>(content, size, level, place_beside(at)));
        at /= 2;
        width = (width + 1) / 2;
        level += 1;
    }
}

// The entry at this index of a level, or the empty entry past its end. It computes what stands
// below the entry and no more.
fn entry<H: Hash32>(content: &[u8], size: usize, level: usize, index: usize) -> Digest
    requires piece { 1 ≤ size }
    requires within { length content.now / size ≤ 1000 }
    ensures { let count = length content.now / size in
        result ≡ slice_index_or
        (level_above H.digest level (leaves H.digest count size content.now)) index empty_entry }
{
    if index >= width_above(content.len() / size, level) {
        return EMPTY;
    }
    if level == 0 {
        return leaf_digest::<H>(&content[index * size..(index + 1) * size]);
    }
    let left = entry::<H>(content, size, level - 1, 2 * index);
    let right = entry::<H>(content, size, level - 1, 2 * index + 1);
    join::<H>(&left, &right)
}

// How many entries stand this many levels above the leaves.
fn width_above(count: usize, levels: usize) -> usize
    requires { count ≤ 1000 }
    ensures exact { result ≡ width_of levels count }
    ensures few { result ≤ 1000 }
{
    let mut width = count;
    for _level in 0..levels {
        width = (width + 1) / 2;
    }
    width
}

// The place beside this one, under one parent.
fn place_beside(place: usize) -> usize
    requires { place < 1000 }
    ensures { result ≡ beside place }
{
    if place % 2 == 0 { place + 1 } else { place - 1 }
}
