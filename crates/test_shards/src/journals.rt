//! A journal over a disk whose calls fail one after the other, over what crashes leave, and over
//! payloads.

use std::alloc::Global;
use std::test::Fail;
use wal_journal::{ChangeRefusal, FlatDisk, Journal, MemDisk, OpenRefusal, Why, format, pack};
use wal_shape::{BlobId, Bytes, Part, Payloads};
use wal_store::{Keep, MapKeep, PoolKeep};
use wal_tree::Sha;

/// A journal over a disk that tells its crashes.
type Kept = Journal<MemDisk, MapKeep>;

/// The sizes of the primary and of the secondary part.
type Sizes = (Option<u32>, Option<u32>);

/// The identifier of all changes.
const ID: BlobId = BlobId([0xaa; 32]);

/// The disk of a change that was refused.
fn disk_of(refusal: ChangeRefusal<MemDisk, MapKeep>) -> MemDisk {
    match refusal {
        ChangeRefusal::Kept { journal, .. } => journal.close().0,
        ChangeRefusal::Stopped { disk, .. } => disk,
    }
}

/// The journal on a disk, or the disk where it is not opened.
fn open(alloc: Global, disk: MemDisk) -> Result<Kept, MemDisk> {
    let Ok(keep) = MapKeep::create(alloc, None) else {
        return Err(disk);
    };
    match Journal::open(alloc, disk, keep) {
        Ok(journal) => Ok(journal),
        Err(refusal) => Err(refusal.disk),
    }
}

/// Puts the bytes of a part that is not held.
fn put_part<K: Keep>(
    alloc: Global,
    journal: Journal<MemDisk, K>,
    part: Part,
    bytes: &[u8],
) -> Result<Journal<MemDisk, K>, ChangeRefusal<MemDisk, K>> {
    if bytes.is_empty() || bytes.len() > 4097 || journal.keep().size(&ID, part).is_some() {
        let why = Why::Memory;
        return Err(ChangeRefusal::Kept { journal, why });
    }
    journal.put(alloc, &ID, part, bytes)
}

/// The same over a map.
fn put(alloc: Global, journal: Kept, part: Part, bytes: &[u8]) -> Result<Kept, MemDisk> {
    match put_part(alloc, journal, part, bytes) {
        Ok(journal) => Ok(journal),
        Err(refusal) => Err(disk_of(refusal)),
    }
}

/// The journal after two puts, and after the first part went.
fn change(alloc: Global, disk: MemDisk) -> Result<Kept, MemDisk> {
    let journal = open(alloc, disk)?;
    let journal = put(alloc, journal, Part::Primary, &[1, 2, 3])?;
    let journal = put(alloc, journal, Part::Secondary, &[4, 5])?;
    match journal.drop_part(&ID, Part::Primary) {
        Ok(journal) => Ok(journal),
        Err(refusal) => Err(disk_of(refusal)),
    }
}

/// What is held on the disk after these changes, of whose calls one fails.
fn found(alloc: Global, fails: u32) -> Result<Option<Sizes>, Fail> {
    let bytes = vec![in alloc; 0u8; 200]?;
    let disk = MemDisk::create(alloc, bytes, 60, Vec::from_slice(alloc, &[fails])?)?;
    let disk = match change(alloc, disk) {
        Ok(journal) => journal.close().0,
        Err(disk) => disk,
    };
    Ok(match open(alloc, disk) {
        Ok(journal) => Some((
            journal.keep().size(&ID, Part::Primary),
            journal.keep().size(&ID, Part::Secondary),
        )),
        Err(_) => None,
    })
}

/// What is to be held: a call that syncs and one that reads open the disk, and each change makes
/// four calls, of which the third opens its gate.
fn wanted(fails: u32) -> Sizes {
    match fails {
        0..=5 => (None, None),
        6..=9 => (Some(3), None),
        10..=13 => (Some(3), Some(2)),
        _ => (None, Some(2)),
    }
}

#[test]
fn each_call_fails(rt: HostRuntime) -> Result<(), Fail> {
    let mut right: u32 = 0;
    for fails in 1..15 {
        if found(rt.alloc(), fails)? == Some(wanted(fails)) {
            right += 1;
        }
    }
    assert_eq!(rt; right, 14);
    Ok(())
}

/// The record of a put of six bytes with its gate, and the closed gate behind it, over zeros or
/// over old bytes.
const RECORD: [u8; 46] = [
    1, 1, 0xaa, 0xaa, 0xaa, 0xaa, 0xaa, 0xaa, 0xaa, 0xaa, 0xaa, 0xaa, 0xaa, 0xaa, 0xaa, 0xaa, 0xaa,
    0xaa, 0xaa, 0xaa, 0xaa, 0xaa, 0xaa, 0xaa, 0xaa, 0xaa, 0xaa, 0xaa, 0xaa, 0xaa, 0xaa, 0xaa, 0xaa,
    0xaa, 1, 0, 0, 0, 6, 1, 1, 1, 1, 1, 1, 0,
];

/// How many bytes of a part an image holds, if it is opened. The image has the words of the record
/// whose bits are set, old bytes for the others, and this gate.
fn opened(alloc: Global, words: u32, gate: u8) -> Result<Option<Option<u32>>, Fail> {
    let mut bytes = vec![in alloc; 1u8; 48]?;
    for place in 0..46 {
        if words >> (place as u32 / 8) & 1 == 1 {
            bytes[place] = RECORD[place];
        }
    }
    bytes[0] = gate;
    let keep = MapKeep::create(alloc, None)?;
    Ok(match Journal::open(alloc, FlatDisk::create(bytes), keep) {
        Ok(journal) => Some(journal.keep().size(&ID, Part::Primary)),
        Err(_) => None,
    })
}

#[test]
fn each_crash_within_a_put(rt: HostRuntime) -> Result<(), Fail> {
    let mut before: u32 = 0;
    for words in 0..64 {
        if opened(rt.alloc(), words, 0)? == Some(None) {
            before += 1;
        }
    }
    let after = opened(rt.alloc(), 63, 1)?;
    let broken = opened(rt.alloc(), 31, 1)?;
    assert!(rt; before == 64 && after == Some(Some(6)) && broken == None);
    Ok(())
}

/// What a put leaves whose write failed after so many bytes of its record: its gate is closed.
fn torn(alloc: Global, left: u32) -> Result<MemDisk, Fail> {
    let mut bytes = vec![in alloc; 0u8; 48]?;
    for place in 1..46 {
        if place as u32 <= left {
            bytes[place] = RECORD[place];
        }
    }
    Ok(MemDisk::create(alloc, bytes, 60, Vec::new(alloc))?)
}

/// The journal after a part was put on a disk where nothing was held, as a later start opens it.
fn put_on(alloc: Global, disk: MemDisk) -> Result<Kept, MemDisk> {
    let journal = open(alloc, disk)?;
    if journal.keep().count() != 0 {
        return Err(journal.close().0);
    }
    let journal = put(alloc, journal, Part::Primary, &[1; 6])?;
    open(alloc, journal.close().0)
}

#[test]
fn a_put_after_a_torn_write(rt: HostRuntime) -> Result<(), Fail> {
    let mut held: u32 = 0;
    for left in 0..46 {
        if let Ok(journal) = put_on(rt.alloc(), torn(rt.alloc(), left)?) {
            if journal.keep().size(&ID, Part::Primary) == Some(6) {
                held += 1;
            }
        }
    }
    assert_eq!(rt; held, 46);
    Ok(())
}

/// A journal over pages of a pool.
type Pooled = Journal<MemDisk, PoolKeep>;

/// Why a change of it was not made.
type PoolRefusal = ChangeRefusal<MemDisk, PoolKeep>;

/// The sizes that are held at the end.
fn end(journal: Pooled) -> Sizes {
    let sizes = (
        journal.keep().size(&ID, Part::Primary),
        journal.keep().size(&ID, Part::Secondary),
    );
    let (_disk, keep) = journal.close();
    keep.close();
    sizes
}

/// Gives the pages back after a refusal.
fn give_up(refusal: PoolRefusal) {
    match refusal {
        ChangeRefusal::Kept { journal, .. } => {
            let _sizes = end(journal);
        }
        ChangeRefusal::Stopped { keep, .. } => keep.close(),
    }
}

/// Two parts, which take three pages with that of their identifier.
fn fill(alloc: Global, journal: Pooled) -> Result<Pooled, PoolRefusal> {
    let journal = put_part(alloc, journal, Part::Primary, &[1, 2, 3])?;
    put_part(alloc, journal, Part::Secondary, &[4, 5])
}

/// The journal as before a third part, and whether it was full for it: no page is left.
fn overfill(alloc: Global, journal: Pooled) -> (bool, Result<Pooled, PoolRefusal>) {
    match put_part(alloc, journal, Part::Proof, &[6]) {
        Err(ChangeRefusal::Kept { journal, why }) => {
            (why == Why::Full { needed: 1, free: 0 }, Ok(journal))
        }
        other => (false, other),
    }
}

/// A part of two pages in place of all that is held.
fn exchange(alloc: Global, journal: Pooled, bytes: &[u8]) -> Result<Pooled, PoolRefusal> {
    let journal = journal.drop_id(&ID)?;
    put_part(alloc, journal, Part::Primary, bytes)
}

/// Both, one after the other.
fn fill_and_exchange(
    alloc: Global,
    journal: Pooled,
    bytes: &[u8],
) -> Result<(bool, Pooled), PoolRefusal> {
    let journal = fill(alloc, journal)?;
    let (full, journal) = overfill(alloc, journal);
    Ok((full, exchange(alloc, journal?, bytes)?))
}

/// What is held on three pages after that, and whether they were full before.
fn held_on_pages(alloc: Global) -> Result<Option<(bool, Sizes)>, Fail> {
    let long = vec![in alloc; 7u8; 4097]?;
    let disk = MemDisk::create(alloc, vec![in alloc; 0u8; 5000]?, 40, Vec::new(alloc))?;
    let keep = PoolKeep::create(alloc, 3)?;
    match Journal::open(alloc, disk, keep) {
        Ok(journal) => match fill_and_exchange(alloc, journal, &long) {
            Ok((full, journal)) => Ok(Some((full, end(journal)))),
            Err(refusal) => {
                give_up(refusal);
                Ok(None)
            }
        },
        Err(OpenRefusal { keep, .. }) => {
            keep.close();
            Ok(None)
        }
    }
}

#[test]
fn full_pages_are_given_back(rt: HostRuntime) -> Result<(), Fail> {
    assert!(rt; held_on_pages(rt.alloc())? == Some((true, (Some(4097), None))));
    Ok(())
}

/// The frame of a secondary sliver of four bytes.
fn payloads(alloc: Global) -> Result<Payloads, Fail> {
    let mut frame = Vec::from_slice(alloc, &[0x11])?;
    frame.extend_from_slice(&ID.0)?;
    frame.extend_from_slice(&[1, 0, 0, 0, 0, 0, 4, 0, 1, 0, 4])?;
    let mut items = Vec::new(alloc);
    items.push(Bytes::from_vec(frame))?;
    Ok(Payloads::from_vec(items))
}

/// What a put needed and what was free, where the disk was full.
fn lacking(why: Why) -> Option<Result<u64, (u64, u64)>> {
    match why {
        Why::DiskFull { needed, free } => Some(Err((needed, free))),
        Why::Full { .. } | Why::Memory => None,
    }
}

/// Where the gate stands after packing, or what was needed and free.
fn told(packed: Result<Kept, ChangeRefusal<MemDisk, MapKeep>>) -> Option<Result<u64, (u64, u64)>> {
    match packed {
        Ok(journal) => Some(Ok(journal.tail())),
        Err(ChangeRefusal::Kept { why, .. }) => lacking(why),
        Err(ChangeRefusal::Stopped { .. }) => None,
    }
}

/// What is told after the payload is packed on a formatted disk of so many bytes.
fn packed(alloc: Global, size: usize) -> Result<Option<Result<u64, (u64, u64)>>, Fail> {
    if size == 0 || size > 99 {
        return Ok(None);
    }
    let bytes = vec![in alloc; 0u8; size]?;
    let payloads = payloads(alloc)?;
    let disk = MemDisk::create(alloc, bytes, 60, Vec::new(alloc))?;
    let Ok(disk) = format(disk) else {
        return Ok(None);
    };
    match open(alloc, disk) {
        Ok(journal) => Ok(told(pack::<Sha, MemDisk, MapKeep>(alloc, journal, &payloads))),
        Err(_) => Ok(None),
    }
}

#[test]
fn a_sliver_in_44_bytes(rt: HostRuntime) -> Result<(), Fail> {
    let fits = packed(rt.alloc(), 44)? == Some(Ok(43));
    assert!(rt; fits && packed(rt.alloc(), 43)? == Some(Err((43, 42))));
    Ok(())
}
