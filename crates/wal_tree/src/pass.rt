ghost use Rattle.std.specs.Prelude.{◌≡◌, ◌+◌, ◌*◌, ◌/◌, ◌%◌, ◌<◌, ◌≤◌, length};
ghost use Rattle.wal_tree.specs.Tree.{pieces, root_of, root_over};

use crate::hash::{Digest, Hash32};
use crate::node::EMPTY;
use crate::parts::put;
use crate::stack::Stack;
use crate::upwards::{put_leaves, root_above};

// A tree with fewer leaves is made one leaf after the other: so few do not fill the lanes of a
// digest of many.
const FEW: usize = 4;

// A tree of at most so many leaves is made in little room, which is soon cleared.
const SMALL: usize = 16;

// The bytes of so many leaves, and of the level above them.
const SMALL_LEVEL: usize = 32 * SMALL;

const SMALL_ABOVE: usize = 16 * SMALL;

// The bytes of the most entries that a level has, and of the level above them.
const LARGE_LEVEL: usize = 32_000;

const LARGE_ABOVE: usize = 16_000;

/// The root of the tree whose leaves are the pieces of `size` bytes of the content, level by level
/// and with no memory.
///
/// A leaf has the digest of `0x00` and its piece, an inner node that of `0x01` and its two
/// children.
/// A level of odd length above one is completed with one entry of 32 zero bytes, and the root of
/// one leaf is that leaf's digest. The tree is that of Merkle, "A Digital Signature Based on a
/// Conventional Encryption Function" (1987), with the prefixes of RFC 6962, section 2.1.
pub fn root<H: Hash32>(content: &[u8], size: u32) -> Digest
    requires piece { 1 ≤ size }
    requires whole { length content.now % size ≡ 0 }
    requires some { size ≤ length content.now }
    requires within { length content.now ≤ 1000 * size }
    ensures { result ≡ root_over H.digest size content.now }
{
    let size = size as usize;
    let count = content.len() / size;
    if count < FEW {
        return root_of_few::<H>(content, size);
    }
    if count <= SMALL {
        return root_in_room::<H, SMALL_LEVEL, SMALL_ABOVE>(content, size);
    }
    root_in_room::<H, LARGE_LEVEL, LARGE_ABOVE>(content, size)
}

// The same, with one leaf after the other.
fn root_of_few<H: Hash32>(content: &[u8], size: usize) -> Digest
    requires piece { 1 ≤ size }
    requires whole { length content.now ≡ length content.now / size * size }
    requires some { 1 ≤ length content.now / size }
    requires few { length content.now / size < 4 }
    ensures { result ≡ root_over H.digest size content.now }
{
    let mut digests = [0; 32 * FEW];
    put_leaves::<H>(content, size, &mut digests);
    root_by_stack::<H>(&digests[..content.len() / size * 32])
}

// The same, level by level, with so many bytes for the leaves and for the level above them. It is a
// function of its own so that large room is cleared for a large tree alone.
#[inline(never)]
fn root_in_room<H: Hash32, const LEVEL: usize, const ABOVE: usize>(
    content: &[u8],
    size: usize,
) -> Digest
    requires piece { 1 ≤ size }
    requires whole { length content.now ≡ length content.now / size * size }
    requires some { 1 ≤ length content.now / size }
    requires few { length content.now / size ≤ 1000 }
    requires level { (length content.now / size + 1) / 2 * 64 ≤ LEVEL }
    requires most_level { LEVEL ≤ 32000 }
    requires above { (length content.now / size + 1) / 2 * 32 ≤ ABOVE }
    requires most_above { ABOVE ≤ 16000 }
    ensures { result ≡ root_over H.digest size content.now }
{
    let mut level = [0; LEVEL];
    let mut above = [0; ABOVE];
    put_leaves::<H>(content, size, &mut level);
    root_above::<H>(&mut level, &mut above, content.len() / size)
}

/// The root of the tree over these leaf digests, which lie one after the other, 32 bytes each: the
/// tree that [`root`] describes, level by level and with no memory.
pub fn root_of_leaves<H: Hash32>(digests: &[u8]) -> Digest
    requires whole { length digests.now % 32 ≡ 0 }
    requires some { 32 ≤ length digests.now }
    requires within { length digests.now ≤ 1000 * 32 }
    ensures { result ≡ root_of H.digest (pieces (length digests.now / 32) 32 digests.now) }
{
    let count = digests.len() / 32;
    if count < FEW {
        return root_by_stack::<H>(digests);
    }
    if count <= SMALL {
        return root_of_leaves_in_room::<H, SMALL_LEVEL, SMALL_ABOVE>(digests);
    }
    root_of_leaves_in_room::<H, LARGE_LEVEL, LARGE_ABOVE>(digests)
}

/// The same, with one leaf after the other.
pub(crate) fn root_by_stack<H: Hash32>(digests: &[u8]) -> Digest
    requires whole { length digests.now % 32 ≡ 0 }
    requires some { 32 ≤ length digests.now }
    requires within { length digests.now ≤ 1000 * 32 }
    ensures { result ≡ root_of H.digest (pieces (length digests.now / 32) 32 digests.now) }
{
    let mut stack = Stack::new();
    for piece in digests.chunks_exact(32) {
        let mut digest = EMPTY;
        digest.copy_from_slice(piece);
        stack.push::<H>(digest);
    }
    stack.root::<H>()
}

// The same, level by level, as `root_in_room`.
#[inline(never)]
fn root_of_leaves_in_room<H: Hash32, const LEVEL: usize, const ABOVE: usize>(
    digests: &[u8],
) -> Digest
    requires whole { length digests.now % 32 ≡ 0 }
    requires some { 32 ≤ length digests.now }
    requires few { length digests.now ≤ 1000 * 32 }
    requires level { (length digests.now / 32 + 1) / 2 * 64 ≤ LEVEL }
    requires most_level { LEVEL ≤ 32000 }
    requires above { (length digests.now / 32 + 1) / 2 * 32 ≤ ABOVE }
    requires most_above { ABOVE ≤ 16000 }
    ensures { result ≡ root_of H.digest (pieces (length digests.now / 32) 32 digests.now) }
{
    let mut level = [0; LEVEL];
    let mut above = [0; ABOVE];
    put(&mut level, 0, digests);
    root_above::<H>(&mut level, &mut above, digests.len() / 32)
}
