//! Two leaves or two contents that differ under one root show two texts with one digest.

ghost use Rattle.std.specs.Prelude.{◌≡◌, ◌≢◌, ◌*◌, ◌/◌, ◌%◌, ◌<◌, ◌≤◌, ◌∷◌, ℕ, List, IfOk, drop};
ghost use Rattle.std.specs.Prelude.{length, take};
ghost use Rattle.wal_tree.specs.Collision.{IsCollision};
ghost use Rattle.wal_tree.specs.Path.{LeadToOneRoot, MeetAbove, MeetInTrees, MeetOnPaths, folded};
ghost use Rattle.wal_tree.specs.Tree.{pieces, root_over};

use crate::hash::{Digest, Hash32};
use crate::node::leaf_digest;
use crate::path_buf::PathBuf;
use crate::short::{parent_text_of, short_text};
use crate::siblings::path;
use std::alloc::{AllocError, Global};
use wal_shape::{Bytes, Collision, MetaClash, ShortText};

/// The bytes of a digest.
const DIGEST: usize = 32;

/// Two texts with one digest, from two different leaves whose paths lead from one place of `count`
/// to one root: the texts of the leaves, `0x00` and the content, or else those of the lowest nodes
/// above them whose digests agree.
///
/// It fails only for want of memory.
pub fn collide_paths<H: Hash32>(
    alloc: Global,
    count: u16,
    place: u16,
    leaf_a: &[u8],
    path_a: &[u8],
    leaf_b: &[u8],
    path_b: &[u8],
) -> Result<Collision, AllocError>
    requires within { count ≤ 1000 }
    requires one { LeadToOneRoot H.digest count place leaf_a.now path_a.now leaf_b.now path_b.now }
    requires differ { leaf_a.now ≢ leaf_b.now }
    ensures collision { IfOk result (λ c. IsCollision H.digest c.left c.right) }
    ensures texts { IfOk result (λ c.
        MeetOnPaths H.digest place leaf_a.now path_a.now leaf_b.now path_b.now c.left c.right) }
{
    let entry_a = leaf_digest::<H>(leaf_a);
    let entry_b = leaf_digest::<H>(leaf_b);
    if entry_a == entry_b {
        let left = leaf_text(alloc, leaf_a)?;
        let right = leaf_text(alloc, leaf_b)?;
        return Ok(Collision { left, right });
    }
    copy_clash(
        alloc,
        &collide_nodes::<H>(place, entry_a, entry_b, path_a, path_b),
    )
}

/// Two texts with one digest, from two different contents of whole pieces of `size` bytes that have
/// one length and one root: those that [`collide_paths`] gives at the first piece that differs.
///
/// It fails only for want of memory.
pub fn collide_lists<H: Hash32>(
    alloc: Global,
    a: &[u8],
    b: &[u8],
    size: u32,
) -> Result<Collision, AllocError>
    requires piece { 1 ≤ size }
    requires whole { length a.now % size ≡ 0 }
    requires some { size ≤ length a.now }
    requires within { length a.now ≤ 1000 * size }
    requires long { length b.now ≡ length a.now }
    requires one { root_over H.digest size a.now ≡ root_over H.digest size b.now }
    requires differ { a.now ≢ b.now }
    ensures collision { IfOk result (λ c. IsCollision H.digest c.left c.right) }
    ensures texts { IfOk result (λ c. MeetInTrees H.digest size a.now b.now c.left c.right) }
{
    let place = first_apart(a, b, size);
    let mut path_a = PathBuf::create();
    let mut path_b = PathBuf::create();
    path::<H>(a, size, place, &mut path_a);
    path::<H>(b, size, place, &mut path_b);
    collide_paths::<H>(
        alloc,
        count_of(a, size),
        place,
        piece_at(a, size, place),
        path_a.bytes(),
        piece_at(b, size, place),
        path_b.bytes(),
    )
}

/// What [`collide_lists`] gives for pieces of at most 64 bytes, with no memory.
pub fn collide_short_lists<H: Hash32>(a: &[u8], b: &[u8], size: u32) -> MetaClash
    requires short { size ≤ 64 }
    requires piece { 1 ≤ size }
    requires whole { length a.now % size ≡ 0 }
    requires some { size ≤ length a.now }
    requires within { length a.now ≤ 1000 * size }
    requires long { length b.now ≡ length a.now }
    requires one { root_over H.digest size a.now ≡ root_over H.digest size b.now }
    requires differ { a.now ≢ b.now }
    ensures collision { IsCollision H.digest result.left result.right }
    ensures texts { MeetInTrees H.digest size a.now b.now result.left result.right }
{
    let place = first_apart(a, b, size);
    let piece_a = piece_at(a, size, place);
    let piece_b = piece_at(b, size, place);
    let entry_a = leaf_digest::<H>(piece_a);
    let entry_b = leaf_digest::<H>(piece_b);
    if entry_a == entry_b {
        let left = short_text(0, piece_a, b"");
        let right = short_text(0, piece_b, b"");
        return MetaClash { left, right };
    }
    let mut path_a = PathBuf::create();
    let mut path_b = PathBuf::create();
    path::<H>(a, size, place, &mut path_a);
    path::<H>(b, size, place, &mut path_b);
    collide_nodes::<H>(place, entry_a, entry_b, path_a.bytes(), path_b.bytes())
}

// The texts of the lowest nodes with one digest above two different entries of one place, whose
// siblings lead to one root.
fn collide_nodes<H: Hash32>(
    place: u16,
    entry_a: Digest,
    entry_b: Digest,
    path_a: &[u8],
    path_b: &[u8],
) -> MetaClash
    requires whole { length path_a.now % 32 ≡ 0 }
    requires long { length path_b.now ≡ length path_a.now }
    requires differ { entry_a ≢ entry_b }
    requires one { folded H.digest place entry_a (pieces (length path_a.now / 32) 32 path_a.now)
        ≡ folded H.digest place entry_b (pieces (length path_b.now / 32) 32 path_b.now) }
    ensures collision { IsCollision H.digest result.left result.right }
    // From any two texts of which these are the digests.
    ensures texts { (x y : List ℕ) → H.digest x ≡ entry_a → H.digest y ≡ entry_b
        → MeetAbove H.digest place x (pieces (length path_a.now / 32) 32 path_a.now)
        y (pieces (length path_b.now / 32) 32 path_b.now) result.left result.right }
{
    let (sibling_a, rest_a) = path_a.split_at(DIGEST);
    let (sibling_b, rest_b) = path_b.split_at(DIGEST);
    let left = parent_text_of(place, &entry_a, sibling_a);
    let right = parent_text_of(place, &entry_b, sibling_b);
    let above_a = H::hash3(left.bytes(), b"", b"");
    let above_b = H::hash3(right.bytes(), b"", b"");
    if above_a == above_b {
        return MetaClash { left, right };
    }
    collide_nodes::<H>(place / 2, above_a, above_b, rest_a, rest_b)
}

// How many pieces the content has.
fn count_of(content: &[u8], size: u32) -> u16
    requires piece { 1 ≤ size }
    requires within { length content.now ≤ 1000 * size }
    ensures exact { result ≡ length content.now / size }
    ensures few { result ≤ 1000 }
{
    (content.len() / size as usize) as u16
}

// The piece at this place.
fn piece_at(content: &[u8], size: u32, place: u16) -> &[u8]
    requires piece { 1 ≤ size }
    requires place { place < length content.now / size }
    ensures piece { result.now ≡ take size (drop (place * size) content.now) }
    ensures size { length result.now ≡ size }
{
    let (_, rest) = content.split_at(place as usize * size as usize);
    let (piece, _) = rest.split_at(size as usize);
    piece
}

// The place of the first piece that differs.
fn first_apart(a: &[u8], b: &[u8], size: u32) -> u16
    requires piece { 1 ≤ size }
    requires whole { length a.now % size ≡ 0 }
    requires within { length a.now ≤ 1000 * size }
    requires long { length b.now ≡ length a.now }
    requires differ { a.now ≢ b.now }
    ensures place { result < length a.now / size }
    ensures first { take (result * size) a.now ≡ take (result * size) b.now }
    ensures apart { take size (drop (result * size) a.now)
        ≢ take size (drop (result * size) b.now) }
{
    for place in 0..count_of(a, size) {
        if piece_at(a, size, place) != piece_at(b, size, place) {
            return place;
        }
    }
    unreachable!()
}

// The text of the leaf with this content.
fn leaf_text(alloc: Global, content: &[u8]) -> Result<Bytes, AllocError>
    ensures { IfOk result (λ text. text ≡ 0 ∷ content.now) }
{
    let mut text = Vec::new(alloc);
    text.push(0)?;
    text.extend_from_slice(content)?;
    Ok(Bytes::from_vec(text))
}

/// The two short texts, in memory.
///
/// It fails only for want of memory.
pub fn copy_clash(alloc: Global, clash: &MetaClash) -> Result<Collision, AllocError>
    ensures { IfOk result (λ c. (c.left ≡ clash.now.left) × (c.right ≡ clash.now.right)) }
{
    let left = copied(alloc, &clash.left)?;
    let right = copied(alloc, &clash.right)?;
    Ok(Collision { left, right })
}

// The text, in memory.
fn copied(alloc: Global, text: &ShortText) -> Result<Bytes, AllocError>
    ensures { IfOk result (λ copy. copy ≡ text.now) }
{
    Ok(Bytes::from_vec(Vec::from_slice(alloc, text.bytes())?))
}
