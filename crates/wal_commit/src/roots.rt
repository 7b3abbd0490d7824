//! The roots of a blob's metadata in one pass over its extended matrix, of which only a few columns
//! stand at once.

ghost use Rattle.std.specs.Prelude.{◌≡◌, ℕ, ◌+◌, ◌*◌, ◌/◌, ◌%◌, ◌<◌, ◌≤◌, ◌++◌, List, length, IfOk};
ghost use Rattle.std.specs.Prelude.{OnOk};
ghost use Rattle.wal_shape.specs.Shape.{IsShape, shard_count, symbol_size};
ghost use Rattle.wal_shape.specs.Spelling.{metadata_text};
ghost use Rattle.wal_matrix.specs.Front.{IsFrontOf};
ghost use Rattle.wal_matrix.specs.Matrix.{IsExtended};
ghost use Rattle.wal_commit.specs.Identifier.{IsMetadataOf, metadata_over};
ghost use Rattle.wal_commit.specs.inside.Identifier.{pair_over};
ghost use Rattle.wal_commit.specs.inside.Seen.{AreLeaves, AreSeen, HasColumns};

use crate::identifier::{head_of, held_column};
use crate::leaves::DIGEST;
use crate::strips::spelling_by_strips;
use std::alloc::{AllocError, Global};
use wal_matrix::{Front, copy_column};
use wal_shape::{Bytes, Metadata, Shape};
use wal_tree::{Hash32, Stacks, root_of_leaves};

/// A block of columns has about so many bytes in a row where symbols are short: then the work on a
/// row is long.
const RUN: u32 = 2048;

/// And it has about so many symbols, that few lanes are left empty where the digests of eight are
/// made at a time.
const SYMBOLS: u32 = 32;

/// Of so many rows and columns at most, strips of all symbols stay in the cache.
const IN_STRIPS: u32 = 44;

/// Symbols of so many bytes are long enough for strips.
const LONG: u32 = 4096;

/// The columns of a block.
fn block_width(count: u32, size: u32) -> u32
    requires some { 1 ≤ count }
    requires few { count ≤ 1000 }
    requires filled { 1 ≤ size }
    ensures some { 1 ≤ result }
    ensures few { result ≤ count }
{
    (SYMBOLS / count + 1).max(RUN / size).min(count)
}

/// Takes the column at this place of a block of leaf digests: as the next leaves of the rows'
/// trees, and as a tree of its own, whose root is appended.
fn add_column<H: Hash32>(
    alloc: Global,
    trees: &mut Stacks,
    roots: &mut Vec<u8>,
    digests: &[u8],
    count: usize,
    width: usize,
    place: usize,
) -> Result<(), AllocError>
    requires some { 1 ≤ count }
    requires few { count ≤ 1000 }
    requires rows { trees.old.rows ≡ count }
    requires digests { length digests.now ≡ count * width * 32 }
    requires place { place < width }
    ensures rows { trees.new.rows ≡ count }
    ensures seen { OnOk result
        ((s first : ℕ) (e : List ℕ) → 0 < s → length e ≡ count * count * s → first + width ≤ count
        → AreLeaves H.digest count s e first width digests.now
        → AreSeen H.digest count s e (first + place) trees.old roots.old.items
        → AreSeen H.digest count s e (first + (place + 1)) trees.new roots.new.items) }
{
    let mut column = vec![in alloc; 0u8; count * DIGEST]?;
    copy_column(digests, count, width, DIGEST, place, &mut column);
    roots.extend_from_slice(&root_of_leaves::<H>(&column))?;
    trees.push::<H>(alloc, column)?;
    Ok(())
}

/// Takes a block of `width` columns, which lies row by row.
fn add_block<H: Hash32>(
    alloc: Global,
    trees: &mut Stacks,
    roots: &mut Vec<u8>,
    block: &[u8],
    count: usize,
    width: usize,
    size: usize,
    digests: &mut [u8],
) -> Result<(), AllocError>
    requires some { 1 ≤ count }
    requires few { count ≤ 1000 }
    requires filled { 1 ≤ size }
    requires rows { trees.old.rows ≡ count }
    requires block { length block.now ≡ count * width * size }
    requires digests { length digests.old ≡ count * width * 32 }
    ensures rows { trees.new.rows ≡ count }
    ensures room { length digests.new ≡ length digests.old }
    ensures seen { OnOk result
        ((first : ℕ) (e : List ℕ) → length e ≡ count * count * size → first + width ≤ count
        → HasColumns count size e first width block.now
        → AreSeen H.digest count size e first trees.old roots.old.items
        → AreSeen H.digest count size e (first + width) trees.new roots.new.items) }
{
    H::digest_pieces(0, block, size, digests);
    for place in 0..width {
        add_column::<H>(alloc, trees, roots, digests, count, width, place)?;
    }
    Ok(())
}

/// Takes `width` columns of the blob's extended matrix from column `first` on.
fn take_columns<H: Hash32>(
    alloc: Global,
    front: &mut Front,
    bytes: &[u8],
    first: u16,
    width: u16,
    block: &mut [u8],
    digests: &mut [u8],
    trees: &mut Stacks,
    roots: &mut Vec<u8>,
    shape: &Shape,
) -> Result<(), AllocError>
    requires front { IsFrontOf bytes.now front.old }
    requires shape { front.old.shape ≡ shape.now }
    requires rows { trees.old.rows ≡ shard_count shape.now.f }
    requires some { 1 ≤ width }
    requires columns { first + width ≤ shard_count shape.now.f }
    requires block { length block.old
        ≡ shard_count shape.now.f * width * symbol_size shape.now.f shape.now.length }
    requires digests { length digests.old ≡ shard_count shape.now.f * width * 32 }
    ensures front { front.new ≡ front.old }
    ensures rows { trees.new.rows ≡ shard_count shape.now.f }
    ensures block { length block.new ≡ length block.old }
    ensures digests { length digests.new ≡ length digests.old }
    ensures seen { OnOk result ((e : List ℕ) → IsExtended shape.now.f bytes.now e
        → AreSeen H.digest (shard_count shape.now.f)
        (symbol_size shape.now.f shape.now.length) e first
        trees.old roots.old.items
        → AreSeen H.digest (shard_count shape.now.f)
        (symbol_size shape.now.f shape.now.length) e (first + width)
        trees.new roots.new.items) }
{
    front.columns(bytes, first, width, block);
    add_block::<H>(
        alloc,
        trees,
        roots,
        block,
        shape.n() as usize,
        width as usize,
        shape.symbol_size() as usize,
        digests,
    )
}

/// Takes all columns of the blob's extended matrix, at most `most` at a time.
fn take_blocks<H: Hash32>(
    alloc: Global,
    front: &mut Front,
    bytes: &[u8],
    most: u16,
    block: &mut [u8],
    digests: &mut [u8],
    trees: &mut Stacks,
    roots: &mut Vec<u8>,
    shape: &Shape,
    count: u16,
    size: usize,
) -> Result<(), AllocError>
    requires front { IsFrontOf bytes.now front.old }
    requires shape { front.old.shape ≡ shape.now }
    requires rows { trees.old.rows ≡ shard_count shape.now.f }
    requires count { count ≡ shard_count shape.now.f }
    requires few { count ≤ 1000 }
    requires size { size ≡ symbol_size shape.now.f shape.now.length }
    requires some { 1 ≤ most }
    requires block { length block.old ≡ count * most * size }
    requires digests { length digests.old ≡ count * most * 32 }
    ensures rows { trees.new.rows ≡ shard_count shape.now.f }
    ensures seen { OnOk result ((e : List ℕ) → IsExtended shape.now.f bytes.now e
        → AreSeen H.digest (shard_count shape.now.f)
        (symbol_size shape.now.f shape.now.length) e 0 trees.old roots.old.items
        → AreSeen H.digest (shard_count shape.now.f) (symbol_size shape.now.f shape.now.length) e
        (shard_count shape.now.f) trees.new roots.new.items) }
{
    let mut first = 0;
    while first < count {
        let width = most.min(count - first);
        let symbols = count as usize * width as usize;
        take_columns::<H>(
            alloc,
            front,
            bytes,
            first,
            width,
            &mut block[..symbols * size],
            &mut digests[..symbols * DIGEST],
            trees,
            roots,
            shape,
        )?;
        first += width;
    }
    Ok(())
}

/// Takes all columns of the blob's extended matrix.
fn take_all<H: Hash32>(
    alloc: Global,
    shape: &Shape,
    bytes: &[u8],
    trees: &mut Stacks,
    roots: &mut Vec<u8>,
) -> Result<(), AllocError>
    requires length { length bytes.now ≡ shape.now.length }
    requires rows { trees.old.rows ≡ shard_count shape.now.f }
    ensures rows { trees.new.rows ≡ shard_count shape.now.f }
    ensures seen { OnOk result ((e : List ℕ) → IsExtended shape.now.f bytes.now e
        → AreSeen H.digest (shard_count shape.now.f)
        (symbol_size shape.now.f shape.now.length) e 0 trees.old roots.old.items
        → AreSeen H.digest (shard_count shape.now.f) (symbol_size shape.now.f shape.now.length) e
        (shard_count shape.now.f) trees.new roots.new.items) }
{
    let count = shape.n() as u16;
    let size = shape.symbol_size() as usize;
    let most = block_width(shape.n(), shape.symbol_size()) as u16;
    let symbols = count as usize * most as usize;
    let mut front = Front::create(alloc, shape, bytes)?;
    let mut block = vec![in alloc; 0u8; symbols * size]?;
    let mut digests = vec![in alloc; 0u8; symbols * DIGEST]?;
    take_blocks::<H>(
        alloc,
        &mut front,
        bytes,
        most,
        &mut block,
        &mut digests,
        trees,
        roots,
        shape,
        count,
        size,
    )
}

/// Appends the roots of the row and of the column that a shard holds.
fn append_roots<H: Hash32>(
    bytes: &mut Vec<u8>,
    shape: &Shape,
    trees: &Stacks,
    roots: &[u8],
    shard: u16,
) -> Result<(), AllocError>
    requires rows { trees.now.rows ≡ shard_count shape.now.f }
    requires shard { shard < shard_count shape.now.f }
    requires roots { length roots.now ≡ shard_count shape.now.f * 32 }
    ensures { OnOk result ((e : List ℕ)
        → length e ≡ shard_count shape.now.f * shard_count shape.now.f
        * symbol_size shape.now.f shape.now.length
        → AreSeen H.digest (shard_count shape.now.f) (symbol_size shape.now.f shape.now.length) e
        (shard_count shape.now.f) trees.now roots.now
        → bytes.new.items ≡ bytes.old.items ++ pair_over H.digest shape.now e shard) }
{
    let start = held_column(shape, shard) as usize * DIGEST;
    bytes.extend_from_slice(&trees.root::<H>(shard))?;
    bytes.extend_from_slice(&roots[start..start + DIGEST])?;
    Ok(())
}

/// The spelling of the metadata of a blob, from blocks of columns.
fn spelling_by_columns<H: Hash32>(
    alloc: Global,
    shape: &Shape,
    bytes: &[u8],
) -> Result<Vec<u8>, AllocError>
    requires { length bytes.now ≡ shape.now.length }
    ensures spelled { IfOk result (λ v. (e : List ℕ) → IsExtended shape.now.f bytes.now e
        → v.items ≡ metadata_text (metadata_over H.digest shape.now e)) }
    ensures fit { IsShape shape.now.f shape.now.length }
{
    let count = shape.n() as u16;
    let mut spelled = head_of(alloc, shape)?;
    let mut trees = Stacks::new(alloc, count);
    let mut roots = Vec::with_capacity(alloc, count as usize * DIGEST)?;
    take_all::<H>(alloc, shape, bytes, &mut trees, &mut roots)?;
    for shard in 0..count {
        append_roots::<H>(&mut spelled, shape, &trees, &roots, shard)?;
    }
    Ok(spelled)
}

/// Whether strips of all symbols stay in the cache, and are long runs of each.
fn comes_in_strips(shape: &Shape) -> bool {
    shape.n() <= IN_STRIPS && shape.symbol_size() >= LONG
}

/// The spelling of the metadata of a blob.
fn spelling_of_blob<H: Hash32>(
    alloc: Global,
    shape: &Shape,
    bytes: &[u8],
) -> Result<Vec<u8>, AllocError>
    requires { length bytes.now ≡ shape.now.length }
    ensures spelled { IfOk result (λ v. (e : List ℕ) → IsExtended shape.now.f bytes.now e
        → v.items ≡ metadata_text (metadata_over H.digest shape.now e)) }
    ensures fit { IfOk result (λ v. IsShape shape.now.f shape.now.length) }
{
    if comes_in_strips(shape) {
        return spelling_by_strips::<H>(alloc, shape, bytes);
    }
    spelling_by_columns::<H>(alloc, shape, bytes)
}

/// The metadata of a blob. While it is made, a strip of each symbol or a few columns of the
/// extended matrix stand at a time.
pub(crate) fn blob_metadata<H: Hash32>(
    alloc: Global,
    shape: &Shape,
    bytes: &[u8],
) -> Result<Metadata, AllocError>
    requires { length bytes.now ≡ shape.now.length }
    ensures { IfOk result (IsMetadataOf H.digest shape.now.format shape.now.f bytes.now) }
{
    let spelled = spelling_of_blob::<H>(alloc, shape, bytes)?;
    match Metadata::create(Bytes::from_vec(spelled)) {
        Some(metadata) => Ok(metadata),
        None => unreachable!(),
    }
}
