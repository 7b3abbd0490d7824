//! The list of blobs that a gateway keeps.

use std::alloc::Global;
use std::test::Fail;
use test_data::{FALSE_ID, ID, STREAM};
use wal_frame::split;
use wal_gateway::{Found, Gateway, GetAnswer};
use wal_shape::{BlobId, Payloads};
use wal_tree::Sha;

/// Whether an answer is these bytes, from a blob in the list or not.
fn is_range(answer: &GetAnswer, hit: bool, bytes: &[u8]) -> bool {
    match &answer.found {
        Found::Range(range) => answer.hit == hit && range.as_slice() == bytes,
        _ => false,
    }
}

/// How many blobs there are, and whether the worked one and the false one are among them.
fn kept(gateway: &Gateway<Sha>) -> (usize, bool, bool) {
    let worked = gateway.contains(&BlobId(ID));
    (gateway.len(), worked, gateway.contains(&BlobId(FALSE_ID)))
}

/// Whether the worked blob enters a list of one and is served from there, and a blob of which
/// nothing is known does not.
fn is_kept(alloc: Global) -> Result<bool, Fail> {
    let Ok(payloads) = split(alloc, &STREAM) else {
        return Ok(false);
    };
    let none = Payloads::from_vec(Vec::new(alloc));
    let mut gateway = Gateway::<Sha>::create(alloc, 1)?;
    let empty = gateway.is_empty() && kept(&gateway) == (0, false, false);
    let miss = gateway.get(alloc, &BlobId(ID), 2, 4, &payloads)?;
    let entered = !gateway.is_empty() && kept(&gateway) == (1, true, false);
    let other = gateway.get(alloc, &BlobId(FALSE_ID), 0, 1, &payloads)?;
    let stayed = matches!(other.found, Found::NoMetadata) && kept(&gateway) == (1, true, false);
    let hit = gateway.get(alloc, &BlobId(ID), 10, 2, &none)?;
    Ok(
        empty
            && entered
            && stayed
            && is_range(&miss, false, &[0, 2, 0, 3])
            && is_range(&hit, true, &[0, 6]),
    )
}

#[test]
fn one_blob_is_kept(rt: HostRuntime) -> Result<(), Fail> {
    assert!(rt; is_kept(rt.alloc())?);
    Ok(())
}
