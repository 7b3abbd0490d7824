//! The sample: a schedule of one handover, whose faulty shards and whose bytes are drawn from a
//! number.

ghost use Rattle.std.specs.Prelude.{◌≡◌, ◌+◌, ◌*◌, ◌<◌, ◌≤◌, ◌/◌, ◌%◌, ◌^◌, ◌++◌, ◌∷◌, [], map};
ghost use Rattle.std.specs.Prelude.{length, IfOk, OnOk};
ghost use Rattle.std.specs.List.{flat_map, range_with_len};
ghost use Rattle.wal_shape.specs.declared.shape.Format.TheVariants.{One};
ghost use Rattle.wal_shape.specs.Shape.{most_bytes};
ghost use Rattle.wal_commit.specs.Identifier.{IsIdentifierOf};
ghost use Rattle.wal_event.specs.Event.{IsSchedule};
ghost use Rattle.wal_event.specs.declared.event.Event.TheVariants as event;
ghost use Rattle.wal_schedule.specs.Sample as sample;
ghost use Rattle.wal_schedule.specs.Sample.{AreBlobs, IsSample};

use std::alloc::{AllocError, Global};
use wal_commit::blob_id;
use wal_event::{Event, Events, Replies, Reply, Schedule};
use wal_shape::{Axis, BlobId, Bytes, Format, Shape, Shards, Side};
use wal_tree::Hash32;

/// The number of shards.
const SHARDS: u16 = 7;

/// The number of blobs.
const BLOBS: u32 = 32;

/// The most faulty shards.
const FAULTS: u32 = 2;

/// The epoch until which the blobs are kept.
const UNTIL: u32 = 10;

/// The state of the generator.
#[derive(Drop)]
struct Draws {
    state: u64,
}

impl Draws {
    /// One more draw, of 31 bits.
    #[tactic(auto, unfolding(crate::specs::Sample::next_state))]
    fn draw(&mut self) -> u64
        ensures state { self.new.state ≡ sample.next_state self.old.state }
        ensures value { result ≡ self.new.state / 2 ^ 33 }
    {
        let wide = u128::from(self.state) * 6_364_136_223_846_793_005 + 1_442_695_040_888_963_407;
        self.state = (wide % (1 << 64)) as u64;
        self.state / (1 << 33)
    }

    /// One of the seven shards.
    fn shard(&mut self) -> u16
        ensures below { result < 7 }
        ensures state { self.new.state ≡ sample.next_state self.old.state }
        ensures value { result ≡ self.new.state / 2 ^ 33 % 7 }
    {
        (self.draw() % u64::from(SHARDS)) as u16
    }
}

/// A blob with its identifier.
#[derive(Drop)]
struct SampleBlob {
    id: BlobId,
    bytes: Bytes,
}

/// The bytes of blob b.
fn bytes_of(alloc: Global, draws: &mut Draws, b: u32) -> Result<Bytes, AllocError>
    requires { b < 32 }
    ensures blob { IfOk result (λ blob. blob ≡ sample.blob_from draws.old.state b) }
    ensures size { IfOk result (λ blob. length blob ≤ 256) }
    ensures state { OnOk result
        (draws.new.state ≡ sample.state_after draws.old.state (8 * b + 7)) }
{
    let mut bytes = Vec::with_capacity(alloc, 8 * b as usize + 8)?;
    bytes.push(b as u8)?;
    for k in 0..8 * b + 7 {
        bytes.push((draws.draw() % 256) as u8)?;
    }
    Ok(Bytes::from_vec(bytes))
}

/// The identifier of a small blob.
fn small_id<H: Hash32>(alloc: Global, bytes: &[u8]) -> Result<BlobId, AllocError>
    requires { length bytes.now ≤ most_bytes }
    ensures { IfOk result (λ id. IsIdentifierOf H.digest One 2 bytes.now id.0) }
{
    match Shape::new(FAULTS, bytes.len() as u64) {
        Ok(shape) => blob_id::<H>(alloc, &shape, bytes),
        Err(_) => unreachable!(),
    }
}

/// The blobs, drawn one after the other.
fn blobs_of<H: Hash32>(alloc: Global, draws: &mut Draws) -> Result<Vec<SampleBlob>, AllocError>
    ensures blobs { IfOk result (λ blobs. AreBlobs H.digest draws.old.state 32 blobs.items) }
    ensures state { OnOk result (draws.new.state ≡ sample.state_before draws.old.state 32) }
{
    let mut blobs = Vec::with_capacity(alloc, BLOBS as usize)?;
    for b in 0..BLOBS {
        let bytes = bytes_of(alloc, draws, b)?;
        let id = small_id::<H>(alloc, bytes.as_slice())?;
        blobs.push(SampleBlob { id, bytes })?;
    }
    Ok(blobs)
}

/// The seven shards.
fn everyone(alloc: Global) -> Result<Shards, AllocError>
    ensures { IfOk result (λ shards. shards ≡ sample.everyone) }
{
    Ok(Shards::from_vec(Vec::from_slice(alloc, &[0, 1, 2, 3, 4, 5, 6])?))
}

/// The seven shards but one.
fn everyone_but(alloc: Global, leaving: u16) -> Result<Shards, AllocError>
    requires { leaving < 7 }
    ensures { IfOk result (λ shards. shards ≡ sample.everyone_but leaving) }
{
    let mut shards = everyone(alloc)?.into_vec();
    shards.remove(usize::from(leaving));
    Ok(Shards::from_vec(shards))
}

/// The true replies of all shards of the present committee.
fn truths(alloc: Global) -> Result<Replies, AllocError>
    ensures { IfOk result (λ replies. replies ≡ sample.truths) }
{
    let mut replies = Vec::new(alloc);
    for shard in 0..SHARDS {
        replies.push(Reply::True {
            side: Side::Now,
            shard,
        })?;
    }
    Ok(Replies::from_vec(replies))
}

/// One more event.
fn add_event(events: &mut Vec<Event>, more: Event) -> Result<(), AllocError>
    ensures { OnOk result (events.new.items ≡ events.old.items ++ more ∷ []) }
{
    Ok(events.push(more)?)
}

/// Every shard acknowledges the blob.
fn put_acks(events: &mut Vec<Event>, id: BlobId) -> Result<(), AllocError>
    ensures { OnOk result
        (events.new.items ≡ events.old.items ++ map (λ s. event.Ack s id) sample.everyone) }
{
    for shard in 0..SHARDS {
        add_event(events, Event::Ack { shard, id })?;
    }
    Ok(())
}

/// Every shard is ready.
fn put_readies(events: &mut Vec<Event>) -> Result<(), AllocError>
    ensures { OnOk result
        (events.new.items ≡ events.old.items ++ map (λ s. event.Ready s) sample.everyone) }
{
    for shard in 0..SHARDS {
        add_event(events, Event::Ready { shard })?;
    }
    Ok(())
}

/// The events by which a blob is stored.
fn put_stored(alloc: Global, events: &mut Vec<Event>, blob: &SampleBlob) -> Result<(), AllocError>
    ensures { OnOk result
        (events.new.items ≡ events.old.items ++ sample.stored_events blob.now) }
{
    let id = blob.id;
    add_event(events, Event::Register { id, until: UNTIL })?;
    let bytes = blob.bytes.duplicate(alloc)?;
    let to = everyone(alloc)?;
    add_event(events, Event::Write { blob: bytes, to })?;
    put_acks(events, id)?;
    let replies = truths(alloc)?;
    add_event(events, Event::Read { id, replies })
}

/// The events before the change of the epoch.
fn put_earlier(
    alloc: Global,
    events: &mut Vec<Event>,
    blobs: &[SampleBlob],
) -> Result<(), AllocError>
    ensures { OnOk result
        (events.new.items ≡ events.old.items ++ sample.earlier_events blobs.now) }
{
    for blob in blobs {
        put_stored(alloc, events, blob)?;
    }
    Ok(())
}

/// A shard of the next committee recovers its slivers of this axis.
fn put_recovered_by(
    alloc: Global,
    events: &mut Vec<Event>,
    axis: Axis,
    blobs: &[SampleBlob],
    shard: u16,
) -> Result<(), AllocError>
    ensures { OnOk result
        (events.new.items ≡ events.old.items ++ sample.recovered_by axis blobs.now shard) }
{
    for blob in blobs {
        let replies = truths(alloc)?;
        add_event(
            events,
            Event::Recover {
                at: Side::Next,
                shard,
                axis,
                id: blob.id,
                replies,
            },
        )?;
    }
    Ok(())
}

/// Every shard of the next committee does.
fn put_recovered(
    alloc: Global,
    events: &mut Vec<Event>,
    axis: Axis,
    blobs: &[SampleBlob],
) -> Result<(), AllocError>
    ensures { OnOk result
        (events.new.items ≡ events.old.items ++ sample.recovered_events axis blobs.now) }
{
    for shard in 0..SHARDS {
        put_recovered_by(alloc, events, axis, blobs, shard)?;
    }
    Ok(())
}

/// The questions about a blob.
fn put_asked_of(alloc: Global, events: &mut Vec<Event>, id: BlobId) -> Result<(), AllocError>
    ensures { OnOk result
        (events.new.items ≡ events.old.items ++ sample.asked_of id) }
{
    add_event(events, Event::Holders { id })?;
    let replies = truths(alloc)?;
    add_event(events, Event::Read { id, replies })
}

/// The questions about all blobs.
fn put_asked(alloc: Global, events: &mut Vec<Event>, blobs: &[SampleBlob]) -> Result<(), AllocError>
    ensures { OnOk result
        (events.new.items ≡ events.old.items ++ flat_map sample.asked_events blobs.now) }
{
    for blob in blobs {
        put_asked_of(alloc, events, blob.id)?;
    }
    Ok(())
}

/// The beginning of the change of the epoch.
fn put_begin(
    alloc: Global,
    events: &mut Vec<Event>,
    faulty: u16,
    leaving: u16,
) -> Result<(), AllocError>
    requires { leaving < 7 }
    ensures { OnOk result
        (events.new.items ≡ events.old.items
        ++ event.Begin sample.everyone (faulty ∷ []) (sample.everyone_but leaving) ∷ []) }
{
    let owners = everyone(alloc)?;
    let faulty = Shards::from_vec(Vec::from_slice(alloc, &[faulty])?);
    let stays = everyone_but(alloc, leaving)?;
    add_event(
        events,
        Event::Begin {
            owners,
            faulty,
            stays,
        },
    )
}

/// The events from the beginning of the change of the epoch on.
fn put_later(
    alloc: Global,
    events: &mut Vec<Event>,
    blobs: &[SampleBlob],
    faulty: u16,
    leaving: u16,
) -> Result<(), AllocError>
    requires { leaving < 7 }
    ensures { OnOk result
        (events.new.items ≡ events.old.items ++ sample.later_events blobs.now faulty leaving) }
{
    put_begin(alloc, events, faulty, leaving)?;
    put_recovered(alloc, events, Axis::Secondary, blobs)?;
    put_recovered(alloc, events, Axis::Primary, blobs)?;
    put_readies(events)?;
    add_event(events, Event::Finish)?;
    put_asked(alloc, events, blobs)
}

/// The schedule of these blobs and these three shards.
fn sample_with(
    alloc: Global,
    blobs: &[SampleBlob],
    first: u16,
    later: u16,
    leaving: u16,
) -> Result<Schedule, AllocError>
    requires { leaving < 7 }
    ensures { IfOk result (λ s. s ≡ sample.sample_with blobs.now first later leaving) }
{
    let mut events = Vec::new(alloc);
    put_earlier(alloc, &mut events, blobs)?;
    put_later(alloc, &mut events, blobs, later, leaving)?;
    Ok(Schedule {
        f: FAULTS,
        epoch: 0,
        format: Format::One,
        owners: everyone(alloc)?,
        faulty: Shards::from_vec(Vec::from_slice(alloc, &[first])?),
        events: Events::from_vec(events),
    })
}

/// The sample of a number: seven shards, of which one is faulty, and one of the next committee,
/// with the node of each shard its own number; 32 blobs of 8 to 256 bytes, which are stored and
/// read, then recovered by the next committee, and read again. There are 841 events.
///
/// Draws are from a state of 64 bits that begins as the number. A draw replaces the state x by
/// `x * 6364136223846793005 + 1442695040888963407` modulo `2^64` and gives its upper 31 bits.
pub fn sample<H: Hash32>(alloc: Global, number: u64) -> Result<Schedule, AllocError>
    ensures sample { IfOk result (IsSample H.digest number) }
    ensures range { IfOk result IsSchedule }
{
    let mut draws = Draws { state: number };
    let first = draws.shard();
    let blobs = blobs_of::<H>(alloc, &mut draws)?;
    let later = draws.shard();
    let leaving = draws.shard();
    sample_with(alloc, &blobs, first, later, leaving)
}
