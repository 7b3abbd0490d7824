ghost use Rattle.std.specs.Prelude.{◌≡◌, ℕ, ◌+◌, ◌*◌, ◌/◌, ◌<◌, ◌≤◌, List, length, take};
ghost use Rattle.wal_tree.specs.Tree.{leaves, pair_up, pieces, root_of};

use crate::hash::{Digest, Hash32};
use crate::node::EMPTY;
use crate::parts::put;

// Puts the empty entry behind a level of odd length, and says how many pairs there are.
fn complete(level: &mut [u8], width: usize) -> usize
    requires few { width ≤ 1000 }
    requires room { (width + 1) / 2 * 64 ≤ length level.old }
    ensures pairs { result ≡ (width + 1) / 2 }
    ensures room { length level.new ≡ length level.old }
    ensures same { (digest : List ℕ → List ℕ)
        → pair_up digest (pieces (2 * result) 32 level.new)
        ≡ pair_up digest (pieces width 32 level.old) }
{
    if width % 2 == 0 {
        return width / 2;
    }
    put(level, width * 32, &EMPTY);
    (width + 1) / 2
}

// The digests of the pairs of a level.
fn join_pairs<H: Hash32>(level: &[u8], above: &mut [u8], pairs: usize)
    requires level { length level.now ≡ pairs * 64 }
    requires above { length above.old ≡ pairs * 32 }
    ensures room { length above.new ≡ pairs * 32 }
    ensures joined { pieces pairs 32 above.new
        ≡ pair_up H.digest (pieces (2 * pairs) 32 level.now) }
{
    H::digest_pieces(1, level, 64, above);
}

// Puts the level above in place of a level, by way of `room`, and says how many entries it has.
fn go_up<H: Hash32>(level: &mut [u8], room: &mut [u8], width: usize) -> usize
    requires few { width ≤ 1000 }
    requires level { (width + 1) / 2 * 64 ≤ length level.old }
    requires room { (width + 1) / 2 * 32 ≤ length room.old }
    ensures width { result ≡ (width + 1) / 2 }
    ensures level { length level.new ≡ length level.old }
    ensures room { length room.new ≡ length room.old }
    ensures above { pieces result 32 level.new ≡ pair_up H.digest (pieces width 32 level.old) }
{
    let pairs = complete(level, width);
    let above = &mut room[..pairs * 32];
    join_pairs::<H>(&level[..pairs * 64], above, pairs);
    put(level, 0, above);
    pairs
}

/// The root over the entries that a level begins with. It changes them, and needs room for the
/// level above.
pub fn root_above<H: Hash32>(level: &mut [u8], room: &mut [u8], count: usize) -> Digest
    requires some { 1 ≤ count }
    requires few { count ≤ 1000 }
    requires level { (count + 1) / 2 * 64 ≤ length level.old }
    requires room { (count + 1) / 2 * 32 ≤ length room.old }
    ensures { result ≡ root_of H.digest (pieces count 32 level.old) }
{
    let mut width = count;
    'levels: while width > 1 {
        width = go_up::<H>(level, room, width);
    }
    first_of(level)
}

// The first entry of a level.
fn first_of(level: &[u8]) -> Digest
    requires { 32 ≤ length level.now }
    ensures { result ≡ take 32 level.now }
{
    let mut entry = EMPTY;
    entry.copy_from_slice(&level[..32]);
    entry
}

/// Puts the leaf digests of the pieces of a content at the front of a level.
pub fn put_leaves<H: Hash32>(content: &[u8], size: usize, level: &mut [u8])
    requires some { 1 ≤ size }
    requires whole { length content.now ≡ length content.now / size * size }
    requires room { length content.now / size * 32 ≤ length level.old }
    ensures room { length level.new ≡ length level.old }
    ensures leaves { pieces (length content.now / size) 32 level.new
        ≡ leaves H.digest (length content.now / size) size content.now }
{
    let front = &mut level[..content.len() / size * 32];
    H::digest_pieces(0, content, size, front);
}
