//! Under the toy digest the root over a codeword is 1 and zeros where its words sum to zero. For
//! one fault those of each codeword do, so all slivers of a size collide. For two faults they sum
//! to the value at 7 of the codeword's polynomial, so the multiples of the codeword 7 6 5 4 3 2 1
//! collide. The texts are worked out by hand: a digest takes the bytes of a text one place further
//! for each mark, and leaves out what stands in it twice.

ghost use Rattle.std.specs.Prelude.{◌≡◌, ℕ, ◌*◌, ◌≤◌, List, IfOk, length};
ghost use Rattle.wal_shape.specs.Shape.{sliver_symbols};
ghost use Rattle.wal_tree.specs.Tree.{root_over};
ghost use Rattle.wal_matrix.specs.Word.{IsWordOf};
ghost use Rattle.wal_tree.specs.Digests.{toy32};

use std::alloc::{AllocError, Global};
use std::test::Fail;
use wal_commit::{collide_metadata, identify};
use wal_evidence::symbol_count;
use wal_extract::{metadatas, slivers};
use wal_matrix::{Work, expand};
use wal_shape::{Axis, Collision, MetaClash, MetaRef, Shape};
use wal_tree::{Digest, Hash32, Toy32, root};

/// Whether these are two texts with one toy digest.
fn collide(c: &Collision) -> bool {
    let left = c.left.as_slice();
    let right = c.right.as_slice();
    left != right && Toy32::hash3(left, b"", b"") == Toy32::hash3(right, b"", b"")
}

/// The text of this mark and twice the digest that begins so and has zeros after it.
fn twice(mark: u8, digest: &[u8; 6]) -> [u8; 65] {
    let mut text = [0; 65];
    text[0] = mark;
    text[1..7].copy_from_slice(digest);
    text[33..39].copy_from_slice(digest);
    text
}

/// Whether these are two texts with one toy digest, of this mark and twice the digests that begin
/// so.
pub(crate) fn shows(found: Option<Collision>, mark: u8, left: &[u8; 6], right: &[u8; 6]) -> bool {
    match found {
        Some(c) => collide(&c)
            && c.left.as_slice() == twice(mark, left).as_slice()
            && c.right.as_slice() == twice(mark, right).as_slice(),
        None => false,
    }
}

/// The root over the codeword of a sliver whose symbols are words.
fn root_of_word(alloc: Global, f: u32, axis: Axis, sliver: &[u8]) -> Result<Digest, AllocError>
    requires some { 1 ≤ f }
    requires few { f ≤ 333 }
    requires long { length sliver.now ≡ sliver_symbols axis f * 2 }
    ensures { IfOk result
        (λ r. (word : List ℕ) × IsWordOf axis f 2 sliver.now word × (r ≡ root_over toy32 2 word)) }
{
    let mut work = Work::create(alloc, f)?;
    let digest = root::<Toy32>(expand(&mut work, axis, 2, sliver), 2);
    Ok(digest)
}

fn collision_of_slivers(
    alloc: Global,
    f: u32,
    axis: Axis,
    a: &[u8],
    b: &[u8],
) -> Result<Option<Collision>, Fail> {
    let long = 2 * usize::from(symbol_count(&Shape::new(f, 0)?, axis));
    if a.len() != long || b.len() != long {
        return Ok(None);
    }
    let left = root_of_word(alloc, f, axis, a)?;
    let right = root_of_word(alloc, f, axis, b)?;
    if a == b || left != right {
        return Ok(None);
    }
    Ok(Some(slivers::<Toy32>(alloc, f, axis, a, b)?))
}

#[test]
fn slivers_of_one_root_collide(rt: HostRuntime) -> Result<(), Fail> {
    let found = collision_of_slivers(rt.alloc(), 1, Axis::Primary, &[0, 1, 0, 2, 0, 3], &[0; 6])?;
    assert!(rt; shows(found, 1, &[1, 0, 0, 3, 0, 0], &[1, 0, 0, 0, 0, 0]));
    Ok(())
}

// The trees over the codewords meet in the node over the first four leaves.
#[test]
fn columns_for_two_faults_collide(rt: HostRuntime) -> Result<(), Fail> {
    let found = collision_of_slivers(rt.alloc(), 2, Axis::Secondary, &[0, 7, 0, 6, 0, 5], &[0; 6])?;
    assert!(rt; shows(found, 1, &[1, 0, 0, 1, 0, 0], &[1, 0, 0, 0, 0, 0]));
    Ok(())
}

fn collision_of_metadata(
    alloc: Global,
    left: &[u8],
    right: &[u8],
) -> Result<Option<Collision>, AllocError> {
    let (Some(a), Some(b)) = (MetaRef::new(left), MetaRef::new(right)) else {
        return Ok(None);
    };
    if a.bytes() == b.bytes() || identify::<Toy32>(a) != identify::<Toy32>(b) {
        return Ok(None);
    }
    Ok(Some(metadatas::<Toy32>(alloc, a, b)?))
}

/// The metadata of the worked blob: all roots are 1 and zeros.
fn toy_metadata() -> [u8; 266] {
    let mut bytes = [0; 266];
    bytes[1] = 1;
    bytes[9] = 12;
    for root in 0..8 {
        bytes[10 + 32 * root] = 1;
    }
    bytes
}

// With zeros for the first pair of roots the leaf of that pair has the digest zero too.
#[test]
fn metadata_with_a_zeroed_pair_collide(rt: HostRuntime) -> Result<(), Fail> {
    let left = toy_metadata();
    let mut right = left;
    right[10] = 0;
    right[42] = 0;
    let found = collision_of_metadata(rt.alloc(), &left, &right)?;
    assert!(rt; shows(found, 0, &[1, 0, 0, 0, 0, 0], &[0; 6]));
    Ok(())
}

/// The clash of two metadata of one identifier.
fn clash_of(left: &[u8], right: &[u8]) -> Option<MetaClash> {
    let a = MetaRef::new(left)?;
    let b = MetaRef::new(right)?;
    if a.bytes() == b.bytes() || identify::<Toy32>(a) != identify::<Toy32>(b) {
        return None;
    }
    Some(collide_metadata::<Toy32>(a, b))
}

// The last byte of the length and that of the root over the pairs, which is byte 28 of the roots
// three levels below, stand 32 positions apart.
#[test]
fn texts_of_identifiers_collide(rt: HostRuntime) {
    let left = toy_metadata();
    let mut right = left;
    right[9] = 13;
    right[38] = 1;
    let mut left_text = [0; 43];
    left_text[0] = 2;
    left_text[2] = 1;
    left_text[10] = 12;
    left_text[11] = 1;
    let mut right_text = left_text;
    right_text[10] = 13;
    right_text[42] = 1;
    let shown = match clash_of(&left, &right) {
        Some(clash) => clash.left.bytes() == left_text.as_slice()
            && clash.right.bytes() == right_text.as_slice(),
        None => false,
    };
    assert!(rt; shown);
}
