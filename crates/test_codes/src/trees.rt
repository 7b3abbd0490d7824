//! Digests and trees: those of SHA-256 from FIPS 180-4 and from a script over Python's hashlib,
//! those of the toy digest worked by hand.

use std::alloc::{AllocError, Global};
use std::test::Fail;
use wal_lanes::digest_pieces;
use wal_shape::{Collision, MetaClash};
use wal_tree::{
    Digest, Hash32, PathBuf, Sha, Toy32, collide_lists, collide_paths, collide_short_lists,
    leaf_digest, path, path_holds, root, root_of_leaves,
};

// FIPS 180-4 gives these two in its examples: the digests of "abc", and of the 56 letters below.
const OF_ABC: Digest = [
    0xba, 0x78, 0x16, 0xbf, 0x8f, 0x01, 0xcf, 0xea, 0x41, 0x41, 0x40, 0xde, 0x5d, 0xae, 0x22, 0x23,
    0xb0, 0x03, 0x61, 0xa3, 0x96, 0x17, 0x7a, 0x9c, 0xb4, 0x10, 0xff, 0x61, 0xf2, 0x00, 0x15, 0xad,
];

const OF_LETTERS: Digest = [
    0x24, 0x8d, 0x6a, 0x61, 0xd2, 0x06, 0x38, 0xb8, 0xe5, 0xc0, 0x26, 0x93, 0x0c, 0x3e, 0x60, 0x39,
    0xa3, 0x3c, 0xe4, 0x59, 0x64, 0xff, 0x21, 0x67, 0xf6, 0xec, 0xed, 0xd4, 0x19, 0xdb, 0x06, 0xc1,
];

/// The letters behind the first.
const LETTERS: [u8; 55] = *b"bcdbcdecdefdefgefghfghighijhijkijkljklmklmnlmnomnopnopq";

/// Whether each of these pieces has this digest, behind the letter a.
fn have_digest(pieces: &[u8], size: usize, digest: &Digest) -> bool {
    if size == 0 || pieces.len() > 1000 || pieces.len() / size * size != pieces.len() {
        return false;
    }
    let mut out = [0; 32000];
    let room = &mut out[..pieces.len() / size * 32];
    digest_pieces(b'a', pieces, size, room);
    let mut all = true;
    for piece in room.chunks_exact(32) {
        all &= piece == digest.as_slice();
    }
    all
}

/// Eleven pieces, in two groups of lanes, eight, four, in a part of one, and three, one by one.
fn all_have_digest(pieces: &[u8; 605]) -> bool {
    have_digest(pieces, 55, &OF_LETTERS)
        && have_digest(&pieces[..440], 55, &OF_LETTERS)
        && have_digest(&pieces[..220], 55, &OF_LETTERS)
        && have_digest(&pieces[..165], 55, &OF_LETTERS)
}

#[test]
fn lanes_of_one_block_and_of_two(rt: HostRuntime) {
    let mut pieces = [0; 605];
    for lane in 0..11 {
        pieces[55 * lane..55 * lane + 55].copy_from_slice(&LETTERS);
    }
    assert!(rt; all_have_digest(&pieces) && have_digest(b"bcbcbcbcbcbcbcbcbcbcbc", 2, &OF_ABC));
}

/// Leaves of two bytes, and the root over so many of the first.
const CONTENT: [u8; 34] = [
    1, 2, 3, 4, 5, 6, 7, 8, 9, 10, 11, 12, 13, 14, 15, 16, 17, 18, 19, 20, 21, 22, 23, 24, 25, 26,
    27, 28, 29, 30, 31, 32, 33, 34,
];

const ROOTS: [(usize, Digest); 7] = [
    (
        1,
        [
            0xae, 0x4b, 0x32, 0x80, 0xe5, 0x6e, 0x2f, 0xaf, 0x83, 0xf4, 0x14, 0xa6, 0xe3, 0xda,
            0xbe, 0x9d, 0x5f, 0xbe, 0x18, 0x97, 0x65, 0x44, 0xc0, 0x5f, 0xed, 0x12, 0x1a, 0xcc,
            0xb8, 0x5b, 0x53, 0xfc,
        ],
    ),
    (2, ROOT_OF_2),
    (3, ROOT_OF_3),
    (
        4,
        [
            0x8d, 0x89, 0x7f, 0x1c, 0x3c, 0xe8, 0x33, 0x61, 0x70, 0xf0, 0x75, 0x7e, 0xae, 0x08,
            0x20, 0x6f, 0x35, 0xb8, 0x65, 0xaf, 0xc2, 0x91, 0xb3, 0xb3, 0xa6, 0x68, 0x45, 0xd5,
            0x3a, 0xb2, 0xa7, 0x32,
        ],
    ),
    (
        5,
        [
            0xcb, 0x9d, 0xca, 0xaa, 0xdb, 0xf2, 0xfc, 0x63, 0xa9, 0x27, 0xa1, 0xe7, 0x69, 0x67,
            0x9b, 0xba, 0xab, 0x82, 0x97, 0x3b, 0x8b, 0x5b, 0x21, 0xe6, 0xbf, 0x17, 0x53, 0x48,
            0x45, 0x52, 0x33, 0x39,
        ],
    ),
    (
        16,
        [
            0x47, 0x64, 0xe9, 0xb2, 0xaf, 0xa5, 0x2e, 0xf1, 0xcf, 0x22, 0xcd, 0xd2, 0x80, 0x5e,
            0xad, 0xef, 0x39, 0x13, 0x53, 0xa4, 0x7f, 0x9f, 0xa7, 0x11, 0x30, 0xdc, 0x02, 0x01,
            0x7b, 0x58, 0xe6, 0x80,
        ],
    ),
    (
        17,
        [
            0x38, 0x13, 0x6f, 0x96, 0xbc, 0xa8, 0x26, 0xfd, 0xa8, 0x6b, 0x2b, 0x79, 0x53, 0x02,
            0xd1, 0xe7, 0x69, 0x0b, 0xa7, 0xe8, 0xda, 0x80, 0xd8, 0xad, 0xdf, 0x4e, 0xfb, 0x7b,
            0xed, 0x45, 0x40, 0x37,
        ],
    ),
];

const ROOT_OF_2: Digest = [
    0x55, 0x64, 0x15, 0x5a, 0x2d, 0xa0, 0x76, 0xda, 0xa7, 0x66, 0x11, 0x9f, 0xb3, 0x86, 0x3b, 0x56,
    0xb4, 0x63, 0xfd, 0xe2, 0xb5, 0xca, 0x5f, 0x64, 0x4c, 0xed, 0x5f, 0xd4, 0x7a, 0x84, 0x88, 0xda,
];

const ROOT_OF_3: Digest = [
    0x2c, 0xb4, 0xc9, 0x94, 0xc4, 0x7e, 0xde, 0x38, 0xec, 0x65, 0x92, 0x4a, 0x44, 0x49, 0x3f, 0x59,
    0xfe, 0x5b, 0x9f, 0x93, 0xb4, 0xe6, 0x56, 0x56, 0x44, 0xea, 0xd2, 0xbe, 0xd2, 0xfe, 0xcf, 0xa3,
];

fn is_root(count: usize, wanted: &Digest) -> bool {
    if count == 0 || count > 17 {
        return false;
    }
    root::<Sha>(&CONTENT[..2 * count], 2) == *wanted
}

fn are_roots() -> bool {
    let mut all = true;
    for (count, wanted) in ROOTS {
        all &= is_root(count, &wanted);
    }
    all
}

#[test]
fn roots_of_sha_256(rt: HostRuntime) {
    assert!(rt; are_roots());
}

// The third leaf of three stands beside the empty entry, and its parent beside the root of the
// first two leaves.
#[test]
fn the_path_of_the_third_of_three_leaves(rt: HostRuntime) {
    let mut siblings = [0; 64];
    siblings[32..].copy_from_slice(&ROOT_OF_2);
    let mut out = PathBuf::create();
    path::<Sha>(&CONTENT[..6], 2, 2, &mut out);
    assert!(rt; out.bytes() == siblings.as_slice());
}

/// Whether the path of the third of three leaves holds there alone.
fn holds_there() -> bool {
    let mut siblings = [0; 64];
    siblings[32..].copy_from_slice(&ROOT_OF_2);
    path_holds::<Sha>(&ROOT_OF_3, 3, 2, &[5, 6], &siblings)
        && !path_holds::<Sha>(&ROOT_OF_3, 3, 1, &[5, 6], &siblings)
        && !path_holds::<Sha>(&ROOT_OF_3, 3, 3, &[5, 6], &siblings)
        && !path_holds::<Sha>(&ROOT_OF_3, 3, 2, &[5, 7], &siblings)
        && !path_holds::<Sha>(&ROOT_OF_3, 3, 2, &[5, 6], &ROOT_OF_2)
}

#[test]
fn a_path_holds_at_its_place_alone(rt: HostRuntime) {
    assert!(rt; holds_there());
}

/// The toy digest 1 and zeros.
const ONE: Digest = [
    1, 0, 0, 0, 0, 0, 0, 0, 0, 0, 0, 0, 0, 0, 0, 0, 0, 0, 0, 0, 0, 0, 0, 0, 0, 0, 0, 0, 0, 0, 0, 0,
];

/// The four leaf digests have 1, 2, 3, 0 at byte 2, and the two inner digests cancel but for the
/// prefix.
fn is_toy_root() -> bool {
    let mut digests = [0; 128];
    digests[2] = 1;
    digests[34] = 2;
    digests[66] = 3;
    root_of_leaves::<Toy32>(&digests) == ONE && root::<Toy32>(&[0, 1, 0, 2, 0, 3, 0, 0], 2) == ONE
}

/// Positions 0 and 32 are in one lane, and position 31 stands alone.
fn is_toy_digest() -> bool {
    let mut digest: Digest = [0; 32];
    digest[0] = 5 ^ 6;
    digest[31] = 9;
    let mut middle = [0; 31];
    middle[30] = 9;
    Toy32::hash3(&[5], &middle, &[6]) == digest
}

#[test]
fn toy_digests(rt: HostRuntime) {
    assert!(rt; is_toy_root() && is_toy_digest());
}

/// Four leaves of two bytes. The toy digests of the first two cancel, as those of zeros do.
const CANCEL: [u8; 8] = [0, 7, 0, 7, 0, 1, 0, 2];

const PLAIN: [u8; 8] = [0, 0, 0, 0, 0, 1, 0, 2];

/// Whether these are two texts with one toy digest.
fn collide(left: &[u8], right: &[u8]) -> bool {
    left != right && Toy32::hash3(left, b"", b"") == Toy32::hash3(right, b"", b"")
}

fn short_clash_of(a: &[u8; 8], b: &[u8; 8]) -> Option<MetaClash> {
    if a == b || root::<Toy32>(a, 2) != root::<Toy32>(b, 2) {
        return None;
    }
    Some(collide_short_lists::<Toy32>(a, b, 2))
}

fn clash_of(alloc: Global, a: &[u8; 8], b: &[u8; 8]) -> Result<Option<Collision>, AllocError> {
    if a == b || root::<Toy32>(a, 2) != root::<Toy32>(b, 2) {
        return Ok(None);
    }
    Ok(Some(collide_lists::<Toy32>(alloc, a, b, 2)?))
}

/// Whether texts of this length collide.
fn is_clash(clash: Option<Collision>, length: usize) -> bool {
    match clash {
        Some(c) => c.left.as_slice().len() == length
            && collide(c.left.as_slice(), c.right.as_slice()),
        None => false,
    }
}

#[test]
fn lists_collide_above_the_first_difference(rt: HostRuntime) -> Result<(), Fail> {
    let clash = clash_of(rt.alloc(), &CANCEL, &PLAIN)?;
    assert!(rt; is_clash(clash, 65));
    Ok(())
}

fn short_lists_collide() -> bool {
    match short_clash_of(&CANCEL, &PLAIN) {
        Some(c) => c.left.bytes().len() == 65 && collide(c.left.bytes(), c.right.bytes()),
        None => false,
    }
}

#[test]
fn short_lists_collide_above_the_first_difference(rt: HostRuntime) {
    assert!(rt; short_lists_collide());
}

/// A content whose second and last byte, of a leaf's text, are in one lane of the toy digest.
const LEAF: [u8; 33] = [
    5, 0, 0, 0, 0, 0, 0, 0, 0, 0, 0, 0, 0, 0, 0, 0, 0, 0, 0, 0, 0, 0, 0, 0, 0, 0, 0, 0, 0, 0, 0, 0,
    5,
];

fn leaf_clash_of(alloc: Global, a: &[u8], b: &[u8]) -> Result<Option<Collision>, AllocError> {
    let top = leaf_digest::<Toy32>(a);
    if a == b
        || !path_holds::<Toy32>(&top, 1, 0, a, b"")
        || !path_holds::<Toy32>(&top, 1, 0, b, b"")
    {
        return Ok(None);
    }
    Ok(Some(collide_paths::<Toy32>(alloc, 1, 0, a, b"", b, b"")?))
}

#[test]
fn leaves_of_one_digest_collide(rt: HostRuntime) -> Result<(), Fail> {
    let clash = leaf_clash_of(rt.alloc(), &LEAF, &[0; 33])?;
    assert!(rt; is_clash(clash, 34));
    Ok(())
}
