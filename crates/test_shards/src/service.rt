//! A shard of four that serves, from a map and from a pool of a few pages.

ghost use Rattle.std.specs.Prelude.{◌≡◌, ℕ, ◌<◌, IfOk};
ghost use Rattle.wal_shape.specs.declared.axis.Side.TheVariants.{Now};
ghost use Rattle.wal_shape.specs.Owners.{node_of};
ghost use Rattle.wal_ledger.specs.Ledger.{reading, owners_of};

use std::alloc::{AllocError, Global};
use std::test::Fail;
use wal_epoch::Serving;
use wal_frame::join;
use wal_matrix::Work;
use wal_port::{MemSink, MemSource};
use wal_serve::{Desk, ServeEnd, serve};
use wal_shape::{Format, Shards};
use wal_shard::Shard;
use wal_store::{Keep, MapKeep, PoolKeep};
use wal_tree::{Hash32, Sha, Toy32};
use wal_writer::Write;

/// A ledger of four shards, each of which is run by a node of its own.
fn ledger(alloc: Global) -> Result<Serving, Fail>
    ensures f { IfOk result (λ s. s.ledger.log.f ≡ 1) }
    ensures epoch { IfOk result (λ s. reading s.ledger.log ≡ 0) }
    ensures owners { IfOk result
        (λ s. (k : ℕ) → k < 4 → node_of (owners_of Now s.ledger.log) k ≡ k) }
{
    let owners = Shards::from_vec(Vec::from_slice(alloc, &[0, 1, 2, 3])?);
    let faulty = Shards::from_vec(Vec::new(alloc));
    let state = Serving::create(alloc, 1, 0, owners, faulty, 16)?;
    Ok(state)
}

/// How serving this input in pieces of so many bytes ends, if it is answered so.
fn served<H: Hash32, K: Keep>(
    alloc: Global,
    shard: &mut Shard<H, K>,
    piece: u32,
    input: &[u8],
    wanted: &[u8],
) -> Result<Option<ServeEnd>, Fail>
    requires shard { shard.old.f ≡ 1 }
{
    let mut state = ledger(alloc)?;
    let mut work = Work::create(alloc, 1)?;
    let mut desk = Desk::create(alloc, 1)?;
    let mut sink = MemSink::create(alloc, 8192, 1, Vec::new(alloc))?;
    let mut source = MemSource::create(
        Vec::from_slice(alloc, input)?,
        piece.max(1),
        Vec::new(alloc),
    );
    let end = serve(
        shard,
        &mut state,
        &mut work,
        &mut desk,
        &mut source,
        &mut sink,
    );
    Ok(if sink.bytes() == wanted {
        Some(end)
    } else {
        None
    })
}

/// How serving from a map of three pages ends, a byte at a time.
fn on_map<H: Hash32>(alloc: Global, input: &[u8], wanted: &[u8]) -> Result<Option<ServeEnd>, Fail> {
    let keep = MapKeep::create(alloc, Some(3))?;
    let mut shard = Shard::<H, MapKeep>::create(1, 0, keep);
    served(alloc, &mut shard, 1, input, wanted)
}

/// How serving from a pool of three pages ends, in long pieces.
fn on_pool<H: Hash32>(
    alloc: Global,
    input: &[u8],
    wanted: &[u8],
) -> Result<Option<ServeEnd>, Fail> {
    let keep = PoolKeep::create(alloc, 3)?;
    let mut shard = Shard::<H, PoolKeep>::create(1, 0, keep);
    let end = served(alloc, &mut shard, 4096, input, wanted);
    shard.close().close();
    end
}

/// The answers to a registration of a blob, its metadata and its two slivers, from a shard of three
/// pages: the primary sliver needs two pages of the one that is free, and the secondary one fits.
const STORED: [u8; 68] = [
    0x57, 0, 0, 0, 0, 0, 10, 0x30, 0, 0, 0, 0, 9, 0, 0, 0, 0, //
    0x57, 0, 0, 0, 0, 0, 10, 0x30, 0, 0, 0, 0, 0, 0, 0, 0, 0, //
    0x57, 0, 0, 0, 0, 0, 10, 0x30, 6, 0, 0, 0, 2, 0, 0, 0, 1, //
    0x57, 0, 0, 0, 0, 0, 10, 0x30, 0, 0, 0, 0, 0, 0, 0, 0, 0,
];

/// The registration of 9,000 zero bytes until 9, their metadata, and the two slivers of shard 0.
fn story(alloc: Global) -> Result<Vec<u8>, Fail> {
    let zeros = vec![in alloc; 0; 9000]?;
    let write = Write::<Sha>::start(alloc, 1, Format::One, &zeros)?;
    let payloads = write.message(alloc, 0)?;
    let envelopes = join(alloc, 5, &payloads)?;
    let mut stream = Vec::from_slice(alloc, &[0x57, 0, 5, 0, 0, 0, 37, 0x40])?;
    stream.extend_from_slice(&write.id().0)?;
    stream.extend_from_slice(&[0, 0, 0, 9])?;
    stream.extend_from_slice(envelopes.as_slice())?;
    Ok(stream)
}

#[test]
fn three_pages_of_a_map(rt: HostRuntime) -> Result<(), Fail> {
    let input = story(rt.alloc())?;
    let end = on_map::<Sha>(rt.alloc(), &input, &STORED)?;
    assert!(rt; matches!(end, Some(ServeEnd::Done)));
    Ok(())
}

#[test]
fn three_pages_of_a_pool(rt: HostRuntime) -> Result<(), Fail> {
    let input = story(rt.alloc())?;
    let end = on_pool::<Sha>(rt.alloc(), &input, &STORED)?;
    assert!(rt; matches!(end, Some(ServeEnd::Done)));
    Ok(())
}

/// The identifier and the metadata of six words under the toy digest.
const TOY_ID: [u8; 32] = [
    2, 0, 1, 0, 0, 0, 0, 0, 0, 0, 12, 1, 0, 0, 0, 0, 0, 0, 0, 0, 0, 0, 0, 0, 0, 0, 0, 0, 0, 0, 0, 0,
];

/// Appends the envelope of these metadata with this byte at the front of the first two roots.
fn put_metadata(stream: &mut Vec<u8>, first: u8) -> Result<(), AllocError> {
    stream.extend_from_slice(&[
        0x57, 0, 5, 0, 0, 1, 0x0b, 0x10, 0, 1, 0, 0, 0, 0, 0, 0, 0, 12,
    ])?;
    for root in 0..8 {
        stream.push(if root < 2 { first } else { 1 })?;
        stream.extend_from_slice(&[0; 31])?;
    }
    Ok(())
}

/// A registration until 9, two metadata of one identifier, and a request for what is held.
fn two_metadata(alloc: Global) -> Result<Vec<u8>, AllocError> {
    let mut stream = Vec::from_slice(alloc, &[0x57, 0, 5, 0, 0, 0, 37, 0x40])?;
    stream.extend_from_slice(&TOY_ID)?;
    stream.extend_from_slice(&[0, 0, 0, 9])?;
    put_metadata(&mut stream, 1)?;
    put_metadata(&mut stream, 0)?;
    stream.extend_from_slice(&[0x57, 0, 5, 0, 0, 0, 33, 0x20])?;
    stream.extend_from_slice(&TOY_ID)?;
    Ok(stream)
}

/// The answers: registered, stored, and the leaves of the two pairs, two texts of one digest.
/// Nothing behind them is answered.
fn two_texts() -> [u8; 174] {
    let mut wanted = [0; 174];
    wanted[..17].copy_from_slice(&STORED[..17]);
    wanted[17..34].copy_from_slice(&STORED[17..34]);
    wanted[34..44].copy_from_slice(&[0x57, 0, 0, 0, 0, 0, 0x85, 0x31, 65, 0]);
    wanted[108] = 65;
    wanted[110] = 1;
    wanted[142] = 1;
    wanted
}

#[test]
fn two_texts_of_one_digest(rt: HostRuntime) -> Result<(), Fail> {
    let input = two_metadata(rt.alloc())?;
    let end = on_map::<Toy32>(rt.alloc(), &input, &two_texts())?;
    assert!(rt; matches!(end, Some(ServeEnd::Collision(_))));
    Ok(())
}
