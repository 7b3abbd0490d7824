//! The levels of a hash tree, of which paths are copied.

ghost use Rattle.std.specs.Prelude.{◌≡◌, ◌+◌, ◌*◌, ◌/◌, ◌%◌, ◌<◌, ◌≤◌, ◌∷◌, ◌++◌, [], IfOk, OnOk};
ghost use Rattle.std.specs.Prelude.{length, take, drop};
ghost use Rattle.wal_tree.specs.Path.{beside, path_over};
ghost use Rattle.wal_tree.specs.Tree.{leaves, pair_up, pieces};
ghost use Rattle.wal_challenge.specs.inside.Levels.{AreLevels, evened};

use std::alloc::{AllocError, Global};
use wal_shape::Bytes;
use wal_tree::Hash32;

/// The bytes of a digest.
const DIGEST: usize = 32;

/// The bytes of two digests.
const PAIR: usize = 64;

/// The leaf digests of the pieces of `size` bytes of a content, one after the other.
fn leaf_digests<H: Hash32>(
    alloc: Global,
    content: &[u8],
    size: usize,
) -> Result<Vec<u8>, AllocError>
    requires some { 1 ≤ size }
    requires whole { length content.now ≡ length content.now / size * size }
    requires few { length content.now / size ≤ 1000 }
    ensures long { IfOk result (λ v. length v.items ≡ length content.now / size * 32) }
    ensures leaves { IfOk result (λ v. pieces (length content.now / size) 32 v.items
        ≡ leaves H.digest (length content.now / size) size content.now) }
{
    let mut digests = vec![in alloc; 0u8; content.len() / size * DIGEST]?;
    H::digest_pieces(0, content, size, &mut digests);
    Ok(digests)
}

/// The digests of the pairs of a level, one after the other.
fn join_pairs<H: Hash32>(alloc: Global, level: &[u8]) -> Result<Vec<u8>, AllocError>
    requires whole { length level.now % 64 ≡ 0 }
    requires few { length level.now ≤ 32000 }
    ensures long { IfOk result (λ v. length v.items ≡ length level.now / 64 * 32) }
    ensures joined { IfOk result (λ v. pieces (length level.now / 64) 32 v.items
        ≡ pair_up H.digest (pieces (2 * (length level.now / 64)) 32 level.now)) }
{
    let mut above = vec![in alloc; 0u8; level.len() / PAIR * DIGEST]?;
    H::digest_pieces(1, level, PAIR, &mut above);
    Ok(above)
}

/// Puts the empty entry behind an odd number of entries.
fn even(mut level: Vec<u8>) -> Result<Vec<u8>, AllocError>
    requires few { length level.items ≤ 32000 }
    ensures { IfOk result (λ v. v.items ≡ evened level.items) }
{
    let size = level.len() + level.len() % PAIR;
    level.resize(size, 0)?;
    Ok(level)
}

/// Adds a level to those below it, and answers the level above.
fn add_level<H: Hash32>(
    alloc: Global,
    levels: &mut Vec<Bytes>,
    level: Vec<u8>,
) -> Result<Vec<u8>, AllocError>
    requires whole { length level.items % 32 ≡ 0 }
    requires few { length level.items ≤ 32000 }
    ensures long { IfOk result (λ v. length v.items ≡ (length level.items / 32 + 1) / 2 * 32) }
    ensures above { IfOk result (λ v. pieces (length v.items / 32) 32 v.items
        ≡ pair_up H.digest (pieces (length level.items / 32) 32 level.items)) }
    ensures added { OnOk result (levels.new.items ≡ levels.old.items ++ evened level.items ∷ []) }
{
    let level = even(level)?;
    let above = join_pairs::<H>(alloc, &level)?;
    levels.push(Bytes::from_vec(level))?;
    Ok(above)
}

/// The levels of the tree over the pieces of `size` bytes of a content, from the leaves upwards and
/// without the root. Each piece is hashed once.
pub fn levels_over<H: Hash32>(
    alloc: Global,
    content: &[u8],
    size: usize,
) -> Result<Vec<Bytes>, AllocError>
    requires some { 1 ≤ size }
    requires whole { length content.now ≡ length content.now / size * size }
    requires few { length content.now / size ≤ 1000 }
    ensures { IfOk result (λ v. AreLevels H.digest size content.now v.items) }
{
    let mut levels = Vec::new(alloc);
    let mut level = leaf_digests::<H>(alloc, content, size)?;
    'rise: while level.len() > DIGEST {
        level = add_level::<H>(alloc, &mut levels, level)?;
    }
    Ok(levels)
}

/// The entry beside this place, of a level that has both.
fn sibling_in(level: &[u8], place: usize) -> &[u8]
    requires whole { length level.now % 64 ≡ 0 }
    requires place { 32 * place < length level.now }
    ensures { result.now ≡ take 32 (drop (32 * beside place) level.now) }
{
    let beside = if place % 2 == 0 { place + 1 } else { place - 1 };
    &level[DIGEST * beside..DIGEST * beside + DIGEST]
}

/// The path of a place of a content, from the levels of the tree over it: the siblings, one after
/// the other.
pub fn path_in<H: Hash32>(
    alloc: Global,
    levels: &[Bytes],
    content: &[u8],
    size: usize,
    place: usize,
) -> Result<Vec<u8>, AllocError>
    requires levels { AreLevels H.digest size content.now levels.now }
    requires place { place < length content.now / size }
    ensures { IfOk result (λ v. v.items ≡ path_over H.digest size content.now place) }
{
    let mut path = Vec::new(alloc);
    let mut at = place;
    'climb: for level in 0..levels.len() {
        path.extend_from_slice(sibling_in(levels[level].as_slice(), at))?;
        at /= 2;
    }
    Ok(path)
}
