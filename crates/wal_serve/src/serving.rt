//! The loop that serves.

ghost use Rattle.std.specs.Prelude.{◌≡◌, ℕ, ◌<◌, ◌≤◌, ◌^◌, List, Option, false, OnErr};
ghost use Rattle.wal_shape.specs.declared.text.MetaClash.{MetaClash};
ghost use Rattle.wal_port.specs.Faults.{Rose};
ghost use Rattle.wal_ledger.specs.Ledger.{reading, owners_of};
ghost use Rattle.wal_shape.specs.declared.axis.Side.TheVariants.{Now};
ghost use Rattle.wal_shape.specs.Owners.{node_of};
ghost use Rattle.wal_ledger.specs.Shards.{committee_size};
ghost use Rattle.wal_serve.specs.State.{SamePlace, state_of};
ghost use Rattle.wal_serve.specs.Answers.{AnswersRequest};
ghost use Rattle.wal_serve.specs.Saying.{sent};
ghost use Rattle.wal_serve.specs.Room.{desk_room};
ghost use Rattle.wal_serve.specs.inside.Room.{answer_room, room_in};
ghost use Rattle.wal_serve.specs.Determined.{AnswersOnce, HasOneServing};
ghost use Rattle.wal_serve.specs.Serving.{EndsAtKnown, IsServed, NeverWants};
ghost use Rattle.wal_serve.specs.inside.Serving.{AnswersInto, SendsOne, end_without};
ghost use Rattle.wal_serve.specs.inside.Session.{Answers, Stays, served};

use crate::desk::Desk;
use crate::envelopes::{Lack, take_envelope};
use crate::payload::Payload;
use crate::reply::{unfit, write_outcome};
use crate::session::Session;
use wal_epoch::Serving;
use wal_frame::OutBuf;
use wal_matrix::Work;
use wal_port::{Sink, Source, WriteFault, put_all};
use wal_shape::MetaClash;
use wal_shard::Shard;
use wal_store::Keep;
use wal_tree::Hash32;

/// The most bytes that serving takes.
const LIMIT: u64 = 1_073_741_824;

/// How serving ended.
#[derive(Debug, Drop)]
pub enum ServeEnd {
    /// The input ended behind whole envelopes, all of which were answered.
    Done,
    /// A read failed. The whole envelopes before were answered.
    ReadFault,
    /// A write failed.
    WriteFault,
    /// At this place no whole envelope begins. The whole envelopes before were answered.
    Malformed(u64),
    /// The input is longer than 1,073,741,824 bytes. The whole envelopes before were answered.
    TooLong,
    /// A metadata was put beside another one of the same identifier. The last frame shows two texts
    /// of one digest.
    Collision(MetaClash),
}

/// How serving ends where no further envelope was taken whole, behind so many bytes.
fn end_without(lack: Lack, taken: u64) -> ServeEnd
    ensures { result ≡ end_without lack taken }
{
    match lack {
        Lack::Nothing => ServeEnd::Done,
        Lack::Wrong => ServeEnd::Malformed(taken),
        Lack::Cut => ServeEnd::Malformed(taken),
        Lack::TooLong => ServeEnd::TooLong,
        Lack::Failed => ServeEnd::ReadFault,
    }
}

impl<H: Hash32, K: Keep> Session<'_, H, K> {
    /// What is answered to a payload of this size, which is in the buffer if there is room for it.
    fn answer_in(&mut self, buffer: &Payload, size: u32, out: &mut OutBuf) -> Option<MetaClash>
        requires room { answer_room self.old.shard.now.f ≤ out.old.spare }
        ensures answers { Answers (AnswersInto (AnswersRequest H.digest K.may_want) buffer.now size)
            self.old out.old result self.new out.new }
        ensures stays { Stays self.old self.new }
    {
        if size > buffer.room() {
            return write_outcome(out, self.shard.index(), Ok(unfit(7)));
        }
        self.answer(buffer.bytes(), out)
    }

    /// Answers one payload, and writes the answer. The result is what ends serving.
    fn serve_one<T: Sink>(
        &mut self,
        buffer: &Payload,
        size: u32,
        out: &mut OutBuf,
        sink: &mut T,
    ) -> Result<Option<MetaClash>, WriteFault>
        requires room { answer_room self.old.shard.now.f ≤ room_in out.old }
        ensures serves { (clash : Option MetaClash) × (frames : List (List ℕ))
            × AnswersInto (AnswersRequest H.digest K.may_want) buffer.now
            size (served self.old) frames clash (served self.new)
            × SendsOne (T.written sink.old) (T.written sink.new)
            (sent self.old.shard.now.index frames) clash result }
        ensures fault { OnErr result (Rose (T.faults sink.old) (T.faults sink.new)) }
        ensures later { T.faults sink.old ≤ T.faults sink.new }
        ensures room { room_in out.new ≡ room_in out.old }
        ensures stays { Stays self.old self.new }
    {
        out.clear();
        let clash = self.answer_in(buffer, size, out);
        match put_all(sink, out.bytes()) {
            Ok(()) => Ok(clash),
            Err(fault) => Err(fault),
        }
    }

    /// Serves until the input ends, or serving ends before, where at most so many bytes may be
    /// taken.
    fn serve_in<S: Source, T: Sink>(
        &mut self,
        buffer: &mut Payload,
        out: &mut OutBuf,
        source: &mut S,
        sink: &mut T,
        limit: u64,
    ) -> ServeEnd
        requires some { 0 < buffer.old.room }
        requires room { answer_room self.old.shard.now.f ≤ room_in out.old }
        requires limit { limit < 2 ^ 31 }
        ensures served { IsServed (AnswersRequest H.digest K.may_want) buffer.old.room
            limit self.old.shard.now.index (served self.old) (served self.new)
            (S.left source.old) (S.left source.new)
            (Rose (S.faults source.old) (S.faults source.new))
            (T.written sink.old) (T.written sink.new)
            (Rose (T.faults sink.old) (T.faults sink.new)) result }
        ensures later { (S.faults source.old ≤ S.faults source.new)
            × (T.faults sink.old ≤ T.faults sink.new) }
        ensures payload { buffer.new.room ≡ buffer.old.room }
        ensures room { room_in out.new ≡ room_in out.old }
        ensures stays { Stays self.old self.new }
    {
        let mut taken: u64 = 0;
        'envelopes: loop {
            let size = match take_envelope(source, buffer, limit - taken) {
                Ok(size) => size,
                Err(lack) => return end_without(lack, taken),
            };
            match self.serve_one(buffer, size, out, sink) {
                Ok(None) => taken += 7 + u64::from(size),
                Ok(Some(clash)) => return ServeEnd::Collision(clash),
                Err(_) => return ServeEnd::WriteFault,
            }
        }
    }
}

/// Serves: takes envelopes of the source, and answers each before the next one is taken, until the
/// input ends or serving ends before. Takes no memory, but where the keep does.
///
/// | Request | What is done | Answers |
/// |---|---|---|
/// | metadata, sliver, proof | it is put to the shard | one reply, or a clash that ends serving |
/// | read, symbol | nothing | what the shard holds of it in frames, and a reply with their number |
/// | ack, attest | the shard is asked, and then the ledger for this shard | one reply |
/// | forget | the shard is asked | one reply |
/// | register entry, ack entry, attest entry | the ledger is asked | one reply |
/// | anything else, or longer than `desk_room` | nothing | one reply |
pub fn serve<H: Hash32, K: Keep, S: Source, T: Sink>(
    shard: &mut Shard<H, K>,
    state: &mut Serving,
    work: &mut Work,
    desk: &mut Desk,
    source: &mut S,
    sink: &mut T,
) -> ServeEnd
    // One number of faults throughout, at epoch 0, and each shard is run by a node of its own.
    requires ledger { state.old.ledger.log.f ≡ shard.old.f }
    requires work { work.old.f ≡ shard.old.f }
    requires desk { desk.old ≡ shard.old.f }
    requires epoch { reading state.old.ledger.log ≡ 0 }
    requires owners { (s : ℕ) → s < committee_size shard.old.f
        → node_of (owners_of Now state.old.ledger.log) s ≡ s }
    // What was taken, answered and written, what the shard and the ledger are then, and how it
    // ended.
    ensures served { IsServed (AnswersRequest H.digest K.may_want) (desk_room shard.old.f)
        1073741824 shard.old.index (state_of shard.old state.old) (state_of shard.new state.new)
        (S.left source.old) (S.left source.new) (Rose (S.faults source.old) (S.faults source.new))
        (T.written sink.old) (T.written sink.new)
        (Rose (T.faults sink.old) (T.faults sink.new)) result }
    // Where the source tells its bytes, `Done` is behind a stream, and `Malformed` where the input
    // is.
    ensures ends { EndsAtKnown result (S.left source.old) }
    // The bytes of a source are served in one way, but for faults and the two texts of a collision,
    // if the keep never wants memory.
    ensures only { K.may_want ≡ false → (input : List ℕ)
        → HasOneServing (AnswersRequest H.digest K.may_want)
        (desk_room shard.old.f) 1073741824 (state_of shard.old state.old) input }
    // What was taken is answered in one way, by whatever serving ended.
    ensures once { K.may_want ≡ false
        → AnswersOnce (AnswersRequest H.digest K.may_want)
        (desk_room shard.old.f) 1073741824 (state_of shard.old state.old) }
    // Nor is any frame then the answer that there was no memory.
    ensures never { K.may_want ≡ false
        → NeverWants (AnswersRequest H.digest K.may_want)
        (desk_room shard.old.f) 1073741824 (state_of shard.old state.old) }
    // Serving may go on from here: the epoch is as it was, and so is who runs each shard.
    ensures epoch { reading state.new.ledger.log ≡ 0 }
    ensures owners { (s : ℕ) → s < committee_size shard.new.f
        → node_of (owners_of Now state.new.ledger.log) s ≡ s }
    ensures later { (S.faults source.old ≤ S.faults source.new)
        × (T.faults sink.old ≤ T.faults sink.new) }
    ensures place { SamePlace shard.old shard.new }
    ensures ledger { state.new.ledger.log.f ≡ state.old.ledger.log.f }
    ensures faulty { state.new.faulty ≡ state.old.faulty }
    ensures work { work.new.f ≡ work.old.f }
    ensures desk { desk.new ≡ desk.old }
{
    Session::new(shard, state, work).serve_in(&mut desk.payload, &mut desk.out, source, sink, LIMIT)
}
