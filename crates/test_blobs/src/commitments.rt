//! The metadata and the identifiers of the worked blob. Under the toy digest they are worked by
//! hand: the four words of each row and of each column sum to zero, so that the root over them is 1
//! and then zeros; the two roots of a pair cancel, and the root over the pairs is again 1 and then
//! zeros.

use sha2::{Digest, Sha256};
use std::alloc::Global;
use std::test::Fail;
use test_data::{FALSE_ID, ID, OPENED, SIX_WORDS, STREAM};
use wal_commit::{blob_id, identify, metadata_holds, metadata_of, reveal, sliver_holds};
use wal_matrix::{Work, extend};
use wal_shape::{Axis, BlobId, Format, Shape};
use wal_tree::{Hash32, PathBuf, Sha, Toy32};

/// Whether the metadata are those of the stream, with its identifier and no other.
fn is_committed(alloc: Global) -> Result<bool, Fail> {
    let shape = Shape::new(1, 12)?;
    let matrix = extend(alloc, &shape, &SIX_WORDS)?;
    let metadata = metadata_of::<Sha>(alloc, &matrix)?;
    let m = metadata.view();
    Ok(
        m.bytes() == &STREAM[8..274]
            && identify::<Sha>(m) == BlobId(ID)
            && metadata_holds::<Sha>(&BlobId(ID), m)
            && !metadata_holds::<Sha>(&BlobId(FALSE_ID), m),
    )
}

#[test]
fn the_metadata_of_six_words(rt: HostRuntime) -> Result<(), Fail> {
    assert!(rt; is_committed(rt.alloc())?);
    Ok(())
}

/// Whether this is the identifier in this format.
fn is_identifier<H: Hash32>(
    alloc: Global,
    format: Format,
    wanted: &[u8; 32],
) -> Result<bool, Fail> {
    let shape = Shape::new(1, 12)?.with_format(format);
    Ok(blob_id::<H>(alloc, &shape, &SIX_WORDS)?.0 == *wanted)
}

/// 2, f and the length, and the root over the pairs from byte 11 on.
const TOY_ID: [u8; 32] = [
    2, 0, 1, 0, 0, 0, 0, 0, 0, 0, 12, 1, 0, 0, 0, 0, 0, 0, 0, 0, 0, 0, 0, 0, 0, 0, 0, 0, 0, 0, 0, 0,
];

/// 3 and the version 2 before them in format two.
const SECOND_TOY_ID: [u8; 32] = [
    3, 2, 0, 1, 0, 0, 0, 0, 0, 0, 0, 12, 1, 0, 0, 0, 0, 0, 0, 0, 0, 0, 0, 0, 0, 0, 0, 0, 0, 0, 0, 0,
];

#[test]
fn identifiers_of_six_words(rt: HostRuntime) -> Result<(), Fail> {
    let alloc = rt.alloc();
    let toy = is_identifier::<Toy32>(alloc, Format::One, &TOY_ID)?
        && is_identifier::<Toy32>(alloc, Format::Two, &SECOND_TOY_ID)?;
    assert!(rt; toy && is_identifier::<Sha>(alloc, Format::One, &ID)?);
    Ok(())
}

/// The extended matrix of the six words, worked by hand: row 3 and column 3 follow from the sums of
/// the words before them.
const WORDS: [[u16; 4]; 4] = [[1, 2, 3, 0], [4, 5, 6, 7], [11, 12, 9, 14], [14, 11, 12, 9]];

/// The SHA-256 digest of a prefix and two parts, by the crate `sha2` alone.
fn sha_of(prefix: &[u8], left: &[u8], right: &[u8]) -> [u8; 32] {
    let mut hasher = Sha256::new();
    hasher.update(prefix);
    hasher.update(left);
    hasher.update(right);
    hasher.finalize()
}

/// The root over four leaves.
fn root_of(leaves: [[u8; 32]; 4]) -> [u8; 32] {
    let left = sha_of(&[1], &leaves[0], &leaves[1]);
    let right = sha_of(&[1], &leaves[2], &leaves[3]);
    sha_of(&[1], &left, &right)
}

/// The leaf of a symbol of one word.
fn leaf_of(word: u16) -> [u8; 32] {
    sha_of(&[0], &word.to_be_bytes(), &[])
}

/// The leaf of the two roots of a shard: of its row, and of its column.
fn pair_of(shard: usize) -> [u8; 32] {
    let mut row = [[0; 32]; 4];
    let mut column = [[0; 32]; 4];
    for place in 0..4 {
        row[place] = leaf_of(WORDS[shard % 4][place]);
        column[place] = leaf_of(WORDS[place][shard % 4]);
    }
    sha_of(&[0], &root_of(row), &root_of(column))
}

/// The identifier of the six words, from their matrix.
fn identifier_by_hand() -> [u8; 32] {
    let root = root_of([pair_of(0), pair_of(1), pair_of(2), pair_of(3)]);
    sha_of(&[2], &[0, 1, 0, 0, 0, 0, 0, 0, 0, 12], &root)
}

#[test]
fn an_identifier_by_the_crate_alone(rt: HostRuntime) -> Result<(), Fail> {
    let shape = Shape::new(1, 12)?;
    let id = blob_id::<Sha>(rt.alloc(), &shape, &SIX_WORDS)?;
    assert!(rt; identifier_by_hand() == ID && id == BlobId(ID));
    Ok(())
}

/// Whether row 1 of the six words gives the opening of secondary sliver 2 that is recorded.
fn is_revealed(alloc: Global) -> Result<bool, Fail> {
    let shape = Shape::new(1, 12)?;
    let matrix = extend(alloc, &shape, &SIX_WORDS)?;
    let metadata = metadata_of::<Sha>(alloc, &matrix)?;
    let m = metadata.view();
    let mut work = Work::create(alloc, m.f())?;
    let row = &[0, 4, 0, 5, 0, 6];
    if m.f() != 1 || m.shape().symbol_size() != 2 {
        return Ok(false);
    }
    if !sliver_holds::<Sha>(&mut work, m, Axis::Primary, 1, row) {
        return Ok(false);
    }
    let mut symbol = [0; 2];
    let mut path = PathBuf::create();
    reveal::<Sha>(
        &mut work,
        m,
        Axis::Secondary,
        2,
        1,
        row,
        &mut symbol,
        &mut path,
    );
    Ok(symbol[..] == OPENED[323..325] && path.bytes() == &OPENED[326..390])
}

#[test]
fn a_row_gives_an_opening(rt: HostRuntime) -> Result<(), Fail> {
    assert!(rt; is_revealed(rt.alloc())?);
    Ok(())
}
