//! One story on both keeps.

use std::alloc::{AllocError, Global};
use std::test::Fail;
use wal_shape::{BlobId, MOST_BYTES};
use wal_store::{Keep, KeepError, MapKeep, Part, PoolKeep};

fn id_of(first: u8) -> BlobId {
    BlobId([first; 32])
}

/// So many bytes, each its place modulo 251.
fn pattern(alloc: Global, size: usize) -> Result<Vec<u8>, AllocError> {
    let mut bytes = Vec::with_capacity(alloc, size)?;
    for place in 0..size {
        bytes.push((place % 251) as u8)?;
    }
    Ok(bytes)
}

/// Puts the first so many bytes for a part that is not held.
fn put<K: Keep>(
    keep: &mut K,
    id: u8,
    part: Part,
    bytes: &[u8],
    size: usize,
) -> Result<(), KeepError> {
    let id = id_of(id);
    if keep.size(&id, part).is_some()
        || size == 0
        || size as u64 > MOST_BYTES
        || size > bytes.len()
    {
        return Err(KeepError::Memory);
    }
    keep.put(&id, part, &bytes[..size])
}

/// Whether these bytes stand in a part from a place on.
fn stands<K: Keep>(keep: &K, id: u8, part: Part, at: u32, wanted: [u8; 4]) -> bool {
    let id = id_of(id);
    let mut found = [0u8; 4];
    match keep.size(&id, part) {
        Some(size) if size >= 4 && at <= size - 4 => {
            keep.copy(&id, part, at, &mut found);
            found == wanted
        }
        _ => false,
    }
}

/// The first byte of the identifier at a place.
fn first_at<K: Keep>(keep: &K, place: u32) -> Option<u8> {
    if place < keep.count() {
        Some(keep.id_at(place).0[0])
    } else {
        None
    }
}

/// Whether forty pages take these parts, and refuse one that needs two pages more than there are.
fn fills<K: Keep>(keep: &mut K, bytes: &[u8]) -> bool {
    let full = KeepError::Full {
        needed: 10,
        free: 8,
    };
    put(keep, 2, Part::Metadata, bytes, 1) == Ok(())
        && put(keep, 3, Part::Secondary, bytes, 4097) == Ok(())
        && put(keep, 1, Part::Primary, bytes, 4096) == Ok(())
        && put(keep, 2, Part::Proof, bytes, 100_000) == Ok(())
        && put(keep, 1, Part::Metadata, bytes, 40_000) == Err(full)
}

/// Whether it holds them. 4094 is 78 past a multiple of 251, and 99996 is 98 past one.
fn holds<K: Keep>(keep: &K) -> bool {
    first_at(keep, 0) == Some(1)
        && first_at(keep, 2) == Some(3)
        && first_at(keep, 3) == None
        && keep.size(&id_of(2), Part::Proof) == Some(100_000)
        && stands(keep, 2, Part::Proof, 4094, [78, 79, 80, 81])
        && stands(keep, 2, Part::Proof, 99_996, [98, 99, 100, 101])
}

/// Whether what was refused is taken once other parts are dropped.
fn makes_room<K: Keep>(keep: &mut K, bytes: &[u8]) -> bool {
    keep.drop_part(&id_of(1), Part::Secondary);
    keep.drop_part(&id_of(1), Part::Primary);
    keep.drop_id(&id_of(2));
    let alone = keep.count() == 1 && first_at(keep, 0) == Some(3);
    alone
        && put(keep, 1, Part::Metadata, bytes, 40_000) == Ok(())
        && stands(keep, 3, Part::Secondary, 4093, [77, 78, 79, 80])
}

/// Whether three pages refuse what needs more than is free, and are all free once the blob is
/// dropped.
fn has_three<K: Keep>(keep: &mut K, bytes: &[u8]) -> bool {
    let full = KeepError::Full { needed: 2, free: 1 };
    let filled = put(keep, 7, Part::Metadata, bytes, 266) == Ok(())
        && put(keep, 7, Part::Primary, bytes, 4500) == Err(full)
        && put(keep, 7, Part::Primary, bytes, 3000) == Ok(());
    keep.drop_id(&id_of(7));
    let empty = KeepError::Full { needed: 5, free: 3 };
    filled && put(keep, 8, Part::Proof, bytes, 16_384) == Err(empty)
}

#[test]
fn three_pages(rt: HostRuntime) -> Result<(), Fail> {
    let bytes = pattern(rt.alloc(), 16_384)?;
    let mut map = MapKeep::create(rt.alloc(), Some(3))?;
    let mut pool = PoolKeep::create(rt.alloc(), 3)?;
    let told = has_three(&mut map, &bytes) && has_three(&mut pool, &bytes);
    pool.close();
    assert!(rt; told);
    Ok(())
}

#[test]
fn a_map_of_forty_pages(rt: HostRuntime) -> Result<(), Fail> {
    let bytes = pattern(rt.alloc(), 100_000)?;
    let mut map = MapKeep::create(rt.alloc(), Some(40))?;
    let filled = fills(&mut map, &bytes);
    let copy = map.duplicate(rt.alloc())?;
    assert!(rt; filled && makes_room(&mut map, &bytes) && holds(&copy));
    Ok(())
}

#[test]
fn a_pool_of_forty_pages(rt: HostRuntime) -> Result<(), Fail> {
    let bytes = pattern(rt.alloc(), 100_000)?;
    let mut pool = PoolKeep::create(rt.alloc(), 40)?;
    let told = fills(&mut pool, &bytes) && holds(&pool) && makes_room(&mut pool, &bytes);
    pool.close();
    assert!(rt; told);
    Ok(())
}

// What no keep of forty pages takes fits where there is no limit.
#[test]
fn a_map_without_a_limit(rt: HostRuntime) -> Result<(), Fail> {
    let bytes = pattern(rt.alloc(), 300_000)?;
    let mut map = MapKeep::create(rt.alloc(), None)?;
    assert!(rt; put(&mut map, 1, Part::Metadata, &bytes, 300_000) == Ok(()));
    Ok(())
}
