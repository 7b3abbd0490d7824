//! The copy of a list equals it.

use std::alloc::{AllocError, Global};
use std::test::Fail;
use wal_event::{Replies, Reply};
use wal_shape::{Axis, Bytes, Claim, Claims, Opening, Openings, Path, Payloads, Shards, Side};

fn two_bytes(alloc: Global) -> Result<Bytes, AllocError> {
    Ok(Bytes::from_vec(Vec::from_slice(alloc, &[1, 2])?))
}

fn copies_bytes(alloc: Global) -> Result<bool, AllocError> {
    let copy = two_bytes(alloc)?.duplicate(alloc)?;
    Ok(copy.as_slice() == [1, 2].as_slice())
}

fn copies_shards(alloc: Global) -> Result<bool, AllocError> {
    let shards = Shards::from_vec(Vec::from_slice(alloc, &[999, 0])?);
    Ok(shards.duplicate(alloc)?.as_slice() == [999, 0].as_slice())
}

fn copies_path(alloc: Global) -> Result<bool, AllocError> {
    let path = Path::from_vec(Vec::from_slice(alloc, &[7; 32])?);
    Ok(path.duplicate(alloc)?.as_slice() == [7; 32].as_slice())
}

fn copies_payloads(alloc: Global) -> Result<bool, AllocError> {
    let payloads = Payloads::from_vec(vec![in alloc; two_bytes(alloc)?]?);
    let copy = payloads.duplicate(alloc)?;
    Ok(match copy.as_slice().first() {
        Some(bytes) => bytes.as_slice() == [1, 2].as_slice(),
        None => false,
    })
}

fn opening(alloc: Global) -> Result<Opening, AllocError> {
    Ok(Opening {
        cross: 2,
        symbol: two_bytes(alloc)?,
        path: Path::from_vec(Vec::from_slice(alloc, &[7; 32])?),
    })
}

fn copies_openings(alloc: Global) -> Result<bool, AllocError> {
    let openings = Openings::from_vec(vec![in alloc; opening(alloc)?]?);
    let copy = openings.duplicate(alloc)?;
    Ok(match copy.as_slice().first() {
        Some(o) => o.cross == 2
            && o.symbol.as_slice() == [1, 2].as_slice()
            && o.path.as_slice() == [7; 32].as_slice(),
        None => false,
    })
}

fn copies_replies(alloc: Global) -> Result<bool, AllocError> {
    let reply = Reply::True {
        side: Side::Next,
        shard: 3,
    };
    let replies = Replies::from_vec(vec![in alloc; reply, Reply::Bytes(two_bytes(alloc)?)]?);
    let copy = replies.duplicate(alloc)?;
    Ok(match copy.as_slice() {
        [
            Reply::True {
                side: Side::Next,
                shard: 3,
            },
            Reply::Bytes(bytes),
        ] => { bytes.as_slice() == [1, 2].as_slice() }
        _ => false,
    })
}

#[test]
fn plain_lists(rt: HostRuntime) -> Result<(), Fail> {
    let alloc = rt.alloc();
    assert!(rt; copies_bytes(alloc)? && copies_shards(alloc)? && copies_path(alloc)?);
    Ok(())
}

#[test]
fn lists_of_lists(rt: HostRuntime) -> Result<(), Fail> {
    let alloc = rt.alloc();
    assert!(rt; copies_payloads(alloc)? && copies_openings(alloc)? && copies_replies(alloc)?);
    Ok(())
}

fn copies_claims(alloc: Global) -> Result<bool, AllocError> {
    let claim = Claim {
        axis: Axis::Secondary,
        index: 3,
        opening: opening(alloc)?,
    };
    let claims = Claims::from_vec(vec![in alloc; claim]?);
    let copy = claims.duplicate(alloc)?;
    Ok(match copy.as_slice().first() {
        Some(c) => c.axis == Axis::Secondary && c.index == 3 && c.opening.cross == 2,
        None => false,
    })
}

#[test]
fn openings_with_their_targets(rt: HostRuntime) -> Result<(), Fail> {
    assert!(rt; copies_claims(rt.alloc())?);
    Ok(())
}
