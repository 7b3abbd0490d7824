//! Answers on challenges, ranges and bundles that are not a blob's, and have its identifier under
//! the toy digest: for one fault all blobs of a length with symbols of at most 31 bytes have one
//! metadata there, whose roots are all 1 and zeros. The texts are worked out by hand, as those of
//! two slivers or of two paths.

ghost use Rattle.std.specs.Prelude.{◌≡◌, ◌*◌, IfSome, drop, take};
ghost use Rattle.wal_matrix.specs.Matrix.{row_of, shards, symbol_bytes};

use crate::collisions::shows;
use std::alloc::{AllocError, Global};
use std::test::Fail;
use test_data::SIX_WORDS;
use wal_bundle::{MemberAnswer, bundle, bundle_collision, member, member_collision};
use wal_challenge::claim_collision;
use wal_commit::{blob_id, metadata_of, opening_holds};
use wal_gateway::{Found, Gateway};
use wal_matrix::{Encoded, extend};
use wal_reader::{Outcome, read};
use wal_shape::{Axis, BlobId, Bytes, Claim, Collision, Opening, Path, Payloads, Shape};
use wal_tree::{Hash32, Toy32};

/// The symbol at a place of a row.
fn symbol_at(matrix: &Encoded, row: u16, place: u16) -> Option<&[u8]>
    ensures { IfSome result (λ symbol. symbol.now
        ≡ take (symbol_bytes matrix.now) (drop (symbol_bytes matrix.now * place)
        (row_of (shards matrix.now) (symbol_bytes matrix.now) matrix.now.cells row))) }
{
    if u32::from(row) >= matrix.shape().n() || u32::from(place) >= matrix.shape().n() {
        return None;
    }
    let size = matrix.shape().symbol_size() as usize;
    let start = size * usize::from(place);
    Some(&matrix.row(row)[start..start + size])
}

/// The texts for a claim on a row that the metadata of these bytes commits, and whose symbol is
/// another one.
fn collision_of_claim<H: Hash32>(
    alloc: Global,
    shape: &Shape,
    bytes: &[u8],
    claim: &Claim,
) -> Result<Option<Collision>, AllocError> {
    if bytes.len() as u64 != shape.length() || claim.axis != Axis::Primary {
        return Ok(None);
    }
    let matrix = extend(alloc, shape, bytes)?;
    let metadata = metadata_of::<H>(alloc, &matrix)?;
    let opening = claim.opening.view();
    let Some(own) = symbol_at(&matrix, claim.index, opening.cross) else {
        return Ok(None);
    };
    let holds = opening_holds::<H>(metadata.view(), claim.axis, claim.index, &opening);
    if !holds || opening.symbol == own {
        return Ok(None);
    }
    Ok(Some(claim_collision::<H>(alloc, shape, bytes, claim)?))
}

/// A claim that holds for twelve zero bytes: the symbol at place 0 of row 0, on the path of
/// column 0.
fn zero_claim(alloc: Global) -> Result<Claim, AllocError> {
    let mut path = [0; 64];
    path[32] = 1;
    Ok(Claim {
        axis: Axis::Primary,
        index: 0,
        opening: Opening {
            cross: 0,
            symbol: Bytes::from_vec(Vec::from_slice(alloc, &[0, 0])?),
            path: Path::from_vec(Vec::from_slice(alloc, &path)?),
        },
    })
}

#[test]
fn a_claim_of_another_blob_collides(rt: HostRuntime) -> Result<(), Fail> {
    let alloc = rt.alloc();
    let claim = zero_claim(alloc)?;
    let found = collision_of_claim::<Toy32>(alloc, &Shape::new(1, 12)?, &SIX_WORDS, &claim)?;
    assert!(rt; shows(found, 1, &[1, 0, 0, 0, 0, 0], &[1, 0, 0, 5, 0, 0]));
    Ok(())
}

/// The identifier of the blobs of this length.
fn toy_id(length: u8) -> [u8; 32] {
    let mut id = [0; 32];
    id[0] = 2;
    id[2] = 1;
    id[10] = length;
    id[11] = 1;
    id
}

/// The frame of their metadata.
fn metadata_frame(alloc: Global, length: u8) -> Result<Bytes, AllocError> {
    let mut frame = [0; 267];
    frame[0] = 0x10;
    frame[2] = 1;
    frame[10] = length;
    for root in 0..8 {
        frame[11 + 32 * root] = 1;
    }
    Ok(Bytes::from_vec(Vec::from_slice(alloc, &frame)?))
}

/// The frame of a sliver of such a blob: what follows the identifier is the axis (1 byte), the
/// index (2), the size (4), and the symbols.
fn sliver_frame(alloc: Global, length: u8, behind: &[u8]) -> Result<Bytes, AllocError> {
    let mut frame = Vec::from_slice(alloc, &[0x11])?;
    frame.extend_from_slice(&toy_id(length))?;
    frame.extend_from_slice(behind)?;
    Ok(Bytes::from_vec(frame))
}

/// The frames of their metadata and of two slivers.
fn payloads_of(
    alloc: Global,
    length: u8,
    first: &[u8],
    second: &[u8],
) -> Result<Payloads, AllocError> {
    let metadata = metadata_frame(alloc, length)?;
    let first = sliver_frame(alloc, length, first)?;
    let second = sliver_frame(alloc, length, second)?;
    Ok(Payloads::from_vec(vec![in alloc; metadata, first, second]?))
}

/// The texts for the blob of this identifier and of so many bytes that the gateway keeps, and
/// payloads that by themselves give another one.
fn collision_of_kept<H: Hash32>(
    alloc: Global,
    gateway: &mut Gateway<H>,
    id: &BlobId,
    size: u32,
    payloads: &Payloads,
) -> Result<Option<Collision>, AllocError> {
    let fresh = read::<H>(alloc, id, payloads)?;
    let answer = gateway.get(alloc, id, 0, size, payloads)?;
    let (Outcome::Bytes(bytes), Some(e), Found::Range(kept)) = (
        &fresh.outcome,
        &fresh.evidence,
        &answer.found,
    ) else {
        return Ok(None);
    };
    if !answer.hit
        || bytes.as_slice().len() != size as usize
        || kept.as_slice() == bytes.as_slice()
    {
        return Ok(None);
    }
    Ok(Some(gateway.collision(alloc, id, e)?))
}

/// The texts where the gateway has read the worked blob, and is then given twelve zero bytes.
fn collision_of_gets(alloc: Global) -> Result<Option<Collision>, AllocError> {
    let id = BlobId(toy_id(12));
    let six = payloads_of(
        alloc,
        12,
        &[0, 0, 0, 0, 0, 0, 6, 0, 1, 0, 2, 0, 3],
        &[0, 0, 1, 0, 0, 0, 6, 0, 4, 0, 5, 0, 6],
    )?;
    let zeros = payloads_of(
        alloc,
        12,
        &[0, 0, 0, 0, 0, 0, 6, 0, 0, 0, 0, 0, 0],
        &[0, 0, 1, 0, 0, 0, 6, 0, 0, 0, 0, 0, 0],
    )?;
    let mut gateway = Gateway::<Toy32>::create(alloc, 1)?;
    gateway.get(alloc, &id, 0, 12, &six)?;
    collision_of_kept::<Toy32>(alloc, &mut gateway, &id, 12, &zeros)
}

#[test]
fn a_kept_blob_and_another_collide(rt: HostRuntime) -> Result<(), Fail> {
    let found = collision_of_gets(rt.alloc())?;
    assert!(rt; shows(found, 1, &[1, 0, 0, 0, 0, 0], &[1, 0, 0, 3, 0, 0]));
    Ok(())
}

/// The members `aabb` and another of one byte.
fn members_of(alloc: Global, last: u8) -> Result<Payloads, AllocError> {
    let first = Bytes::from_vec(Vec::from_slice(alloc, &[0xaa, 0xbb])?);
    let second = Bytes::from_vec(Vec::from_slice(alloc, &[last])?);
    Ok(Payloads::from_vec(vec![in alloc; first, second]?))
}

/// The metadata of their bundle, and its columns 0 and 2: the index, and the second member.
fn columns_of(alloc: Global, last: u8) -> Result<Payloads, AllocError> {
    payloads_of(
        alloc,
        48,
        &[
            1, 0, 0, 0, 0, 0, 16, 0, 2, 0, 1, 0, 0, 0, 2, 0, 2, 0, 0, 0, 1, 0, 0,
        ],
        &[
            1, 0, 2, 0, 0, 0, 16, last, 0, 0, 0, 0, 0, 0, 0, 0, 0, 0, 0, 0, 0, 0, 0,
        ],
    )
}

/// The texts for the bundle of these members and payloads of its identifier that tell another
/// member k.
fn collision_of_bundle<H: Hash32>(
    alloc: Global,
    f: u32,
    members: &Payloads,
    k: u32,
    payloads: &Payloads,
) -> Result<Option<Collision>, Fail> {
    let Ok(bytes) = bundle(alloc, f, members) else {
        return Ok(None);
    };
    let shape = Shape::new(f, bytes.as_slice().len() as u64)?;
    let id = blob_id::<H>(alloc, &shape, bytes.as_slice())?;
    let MemberAnswer::Member(told) = member::<H>(alloc, &id, k, payloads)? else {
        return Ok(None);
    };
    match members.as_slice().get(k as usize) {
        Some(own) if own.as_slice() != told.as_slice() => {
            Ok(Some(bundle_collision::<H>(alloc, &shape, members, &id, k, payloads)?))
        }
        _ => Ok(None),
    }
}

#[test]
fn a_bundle_and_columns_of_another_collide(rt: HostRuntime) -> Result<(), Fail> {
    let alloc = rt.alloc();
    let members = members_of(alloc, 0xcc)?;
    let found = collision_of_bundle::<Toy32>(alloc, 1, &members, 1, &columns_of(alloc, 0xcd)?)?;
    assert!(rt; shows(found, 1, &[1, 0, 0xcd, 0, 0, 0], &[1, 0, 0xcc, 0, 0, 0]));
    Ok(())
}

/// The texts for two lists of payloads of one identifier that tell two members k.
fn collision_of_members<H: Hash32>(
    alloc: Global,
    id: &BlobId,
    k: u32,
    a: &Payloads,
    b: &Payloads,
) -> Result<Option<Collision>, AllocError> {
    let MemberAnswer::Member(left) = member::<H>(alloc, id, k, a)? else {
        return Ok(None);
    };
    let MemberAnswer::Member(right) = member::<H>(alloc, id, k, b)? else {
        return Ok(None);
    };
    if left.as_slice() == right.as_slice() {
        return Ok(None);
    }
    Ok(Some(member_collision::<H>(alloc, id, k, a, b)?))
}

#[test]
fn columns_of_two_bundles_collide(rt: HostRuntime) -> Result<(), Fail> {
    let alloc = rt.alloc();
    let left = columns_of(alloc, 0xcc)?;
    let right = columns_of(alloc, 0xcd)?;
    let found = collision_of_members::<Toy32>(alloc, &BlobId(toy_id(48)), 1, &left, &right)?;
    assert!(rt; shows(found, 1, &[1, 0, 0xcc, 0, 0, 0], &[1, 0, 0xcd, 0, 0, 0]));
    Ok(())
}
