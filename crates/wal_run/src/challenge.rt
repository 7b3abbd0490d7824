//! The command that answers a storage challenge from recorded slivers.

ghost use Rattle.std.specs.Prelude.{◌≡◌, ◌+◌, ◌<◌, ◌≤◌, ℕ, List, IfErr, IfNone, IfOk, IfSome};
ghost use Rattle.std.specs.Prelude.{length};
ghost use Rattle.wal_port.specs.Faults.{Rose};
ghost use Rattle.wal_shape.specs.MetaRef.{metadata_shown};
ghost use Rattle.wal_shape.specs.Shape.{shard_count, symbol_size};
ghost use Rattle.wal_commit.specs.Identifier.{identifier_of};
ghost use Rattle.wal_frame.specs.Stream.{IsStream};
ghost use Rattle.wal_challenge.specs.Answer.{AreWordsOf, HoldsBoth};
ghost use Rattle.wal_run.specs.Challenging.{HasNoSliver, IsOwnSliver, challenging};
ghost use Rattle.wal_run.specs.Command.{IsResult, MayLeave, MayOwe};
ghost use Rattle.wal_run.specs.inside.Challenging.{DoesAnswer, IsAnswer, IsReady};
ghost use Rattle.wal_run.specs.inside.Answers.{Refuses};
ghost use Rattle.wal_run.specs.inside.Command.{Told, recorded};
ghost use Rattle.wal_run.specs.inside.Writing.{Does, DoesTold, PutsPiece};

use crate::answer::refuse;
use crate::envelope::put_opening;
use crate::finish::{PutError, status_of};
use crate::recorded::{metadata_of, payloads_of};
use crate::refusal::Refusal;
use std::alloc::Global;
use wal_challenge::{Answerer, draw};
use wal_commit::identify;
use wal_frame::OutBuf;
use wal_matrix::Work;
use wal_port::Sink;
use wal_reader::sliver_in;
use wal_shape::{Axis, BlobId, MetaRef, Payloads};
use wal_tree::Hash32;
use wal_words::Audit;

/// How many bytes the envelope of an opening has at most more than its symbol.
const OPENING_EXTRA: u32 = 370;

/// Makes the opening that answers draw `d`, and writes its envelope with the target of the draw.
fn put_answer<H: Hash32, K: Sink>(
    alloc: Global,
    answerer: &Answerer<H>,
    m: MetaRef<'_>,
    id: &BlobId,
    audit: &Audit,
    d: u16,
    out: &mut OutBuf,
    sink: &mut K,
) -> Result<(), PutError>
    requires id { id.now.0 ≡ identifier_of H.digest (metadata_shown m) }
    requires shard { audit.now.shard < shard_count (metadata_shown m).f }
    requires words { (primary : List ℕ) × (secondary : List ℕ)
        × HoldsBoth H.digest (metadata_shown m) audit.now.shard primary secondary
        × AreWordsOf (metadata_shown m) primary secondary answerer.now }
    requires room { 370 + symbol_size (metadata_shown m).f (metadata_shown m).length
        ≤ out.old.spare + length out.old.bytes }
    ensures puts { (primary secondary : List ℕ)
        → AreWordsOf (metadata_shown m.entry) primary secondary answerer.now
        → PutsPiece (IsAnswer H.digest audit.now (metadata_shown m.entry) primary secondary d)
        (K.written sink.old) (K.written sink.new)
        (Rose (K.faults sink.old) (K.faults sink.new)) result }
    ensures later { K.faults sink.old ≤ K.faults sink.new }
    ensures buffer { out.new.spare + length out.new.bytes ≡ out.old.spare + length out.old.bytes }
{
    let n = m.shape().n() as u16;
    let draw = draw::<H>(&audit.beacon, id, n, audit.shard, d);
    let opening = answerer.open(alloc, m, audit.shard, draw)?;
    put_opening(
        sink,
        out,
        audit.shard,
        audit.id,
        draw.axis.crossing(),
        draw.place,
        opening.view(),
    )?;
    Ok(())
}

/// Writes the envelopes of all openings, each before the next is made.
fn put_answers<H: Hash32, K: Sink>(
    alloc: Global,
    answerer: &Answerer<H>,
    m: MetaRef<'_>,
    audit: &Audit,
    out: &mut OutBuf,
    sink: &mut K,
) -> u8
    requires shard { audit.now.shard < shard_count (metadata_shown m).f }
    requires words { (primary : List ℕ) × (secondary : List ℕ)
        × HoldsBoth H.digest (metadata_shown m) audit.now.shard primary secondary
        × AreWordsOf (metadata_shown m) primary secondary answerer.now }
    requires room { 370 + symbol_size (metadata_shown m).f (metadata_shown m).length
        ≤ out.old.spare + length out.old.bytes }
    ensures does { (primary secondary : List ℕ)
        → AreWordsOf (metadata_shown m.entry) primary secondary answerer.now
        → DoesAnswer H.digest audit.now (metadata_shown m.entry)
        primary secondary (K.written sink.old) (K.written sink.new)
        (Rose (K.faults sink.old) (K.faults sink.new)) result }
    ensures later { K.faults sink.old ≤ K.faults sink.new }
{
    let id = identify::<H>(m);
    'each: for d in 0..audit.count {
        if let Err(error) = put_answer(alloc, answerer, m, &id, audit, d, out, sink) {
            return status_of(error);
        }
    }
    0
}

/// What answers a challenge, and room for the envelope of an opening.
#[derive(Drop)]
struct Ready<H: Hash32> {
    answerer: Answerer<H>,
    out: OutBuf,
}

/// The first sliver of this axis that the payloads carry and the metadata commits for the shard.
fn own_sliver<'a, H: Hash32>(
    work: &mut Work,
    m: MetaRef<'_>,
    audit: &Audit,
    axis: Axis,
    payloads: &'a Payloads,
) -> Option<&'a [u8]>
    requires f { work.old.f ≡ (metadata_shown m).f }
    requires shard { audit.now.shard < shard_count (metadata_shown m).f }
    ensures own { IfSome result
        (λ bytes. IsOwnSliver H.digest audit.now
        (recorded payloads.now (metadata_shown m.entry)) axis bytes.now) }
    ensures none { IfNone result
        (HasNoSliver H.digest audit.now (recorded payloads.now (metadata_shown m.entry)) axis) }
    ensures f { work.new.f ≡ work.old.f }
{
    let index = m.held(axis, audit.shard);
    match sliver_in::<H>(work, &audit.id, m, axis, index, payloads) {
        Some(sliver) => Some(sliver.bytes),
        None => None,
    }
}

/// Takes the memory of all that is written, but for the openings, or says which sliver is lacking.
fn make_ready<H: Hash32>(
    alloc: Global,
    work: &mut Work,
    m: MetaRef<'_>,
    audit: &Audit,
    payloads: &Payloads,
) -> Result<Ready<H>, Refusal>
    requires f { work.old.f ≡ (metadata_shown m).f }
    requires shard { audit.now.shard < shard_count (metadata_shown m).f }
    ensures ready { IfOk result
        (λ r. IsReady H.digest audit.now
        (recorded payloads.now (metadata_shown m.entry)) r.answerer r.out) }
    ensures refusal { IfErr result (λ refusal. Refuses refusal (Told H.digest
        (challenging H.digest audit.now) (recorded payloads.now (metadata_shown m.entry)))) }
{
    let Some(primary) = own_sliver::<H>(work, m, audit, Axis::Primary, payloads) else {
        return Err(Refusal::NoPrimary);
    };
    let Some(secondary) = own_sliver::<H>(work, m, audit, Axis::Secondary, payloads) else {
        return Err(Refusal::NoSecondary);
    };
    Ok(Ready {
        answerer: Answerer::create(alloc, work, m, audit.shard, primary, secondary)?,
        out: OutBuf::create(alloc, OPENING_EXTRA + m.shape().symbol_size())?,
    })
}

/// The same of a shard that may be none of the blob's.
fn ready_under<H: Hash32>(
    alloc: Global,
    m: MetaRef<'_>,
    audit: &Audit,
    payloads: &Payloads,
) -> Result<Ready<H>, Refusal>
    ensures ready { IfOk result
        (λ r. IsReady H.digest audit.now
        (recorded payloads.now (metadata_shown m.entry)) r.answerer r.out) }
    ensures refusal { IfErr result (λ refusal. Refuses refusal (Told H.digest
        (challenging H.digest audit.now) (recorded payloads.now (metadata_shown m.entry)))) }
{
    if u32::from(audit.shard) >= m.shape().n() {
        return Err(Refusal::NoShard);
    }
    let mut work = Work::create(alloc, m.f())?;
    make_ready::<H>(alloc, &mut work, m, audit, payloads)
}

/// Writes the answer of the shard under this metadata.
fn challenge_under<H: Hash32, K: Sink>(
    alloc: Global,
    m: MetaRef<'_>,
    audit: &Audit,
    payloads: &Payloads,
    sink: &mut K,
) -> u8
    ensures does { DoesTold H.digest (challenging H.digest audit.now)
        (recorded payloads.now (metadata_shown m.entry)) (K.written sink.old)
        (K.written sink.new) (Rose (K.faults sink.old) (K.faults sink.new)) result }
    ensures later { K.faults sink.old ≤ K.faults sink.new }
{
    match ready_under::<H>(alloc, m, audit, payloads) {
        Ok(mut ready) => put_answers(alloc, &ready.answerer, m, audit, &mut ready.out, sink),
        Err(refusal) => refuse(alloc, &refusal, sink),
    }
}

/// Writes the answer of the shard from the payloads.
fn challenge_in<H: Hash32, K: Sink>(
    alloc: Global,
    audit: &Audit,
    payloads: &Payloads,
    sink: &mut K,
) -> u8
    ensures does { (input : List ℕ) → IsStream payloads.now input
        → Does (IsResult H.digest (challenging H.digest audit.now) input)
        (MayLeave H.digest (challenging H.digest audit.now) input)
        (MayOwe H.digest (challenging H.digest audit.now) input) (K.written sink.old)
        (K.written sink.new) (Rose (K.faults sink.old) (K.faults sink.new)) result }
    ensures later { K.faults sink.old ≤ K.faults sink.new }
{
    match metadata_of::<H>(&audit.id, payloads) {
        Ok(m) => challenge_under::<H, K>(alloc, m, audit, payloads, sink),
        Err(refusal) => refuse(alloc, &refusal, sink),
    }
}

/// Writes what the shard answers to the challenge from the slivers in the envelopes of the stream,
/// or what is lacking.
pub fn challenge_shard<H: Hash32, K: Sink>(
    alloc: Global,
    audit: &Audit,
    stream: &[u8],
    sink: &mut K,
) -> u8
    ensures does { Does (IsResult H.digest (challenging H.digest audit.now) stream.now)
        (MayLeave H.digest (challenging H.digest audit.now) stream.now)
        (MayOwe H.digest (challenging H.digest audit.now) stream.now) (K.written sink.old)
        (K.written sink.new) (Rose (K.faults sink.old) (K.faults sink.new)) result }
    ensures later { K.faults sink.old ≤ K.faults sink.new }
{
    match payloads_of(alloc, stream) {
        Ok(payloads) => challenge_in::<H, K>(alloc, audit, &payloads, sink),
        Err(refusal) => refuse(alloc, &refusal, sink),
    }
}
