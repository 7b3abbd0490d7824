//! What is answered to one payload.

ghost use Rattle.std.specs.Prelude.{◌<◌, ◌≤◌, ◌^◌, None, length};
ghost use Rattle.wal_frame.specs.Frame.{Read, Symbol};
ghost use Rattle.wal_frame.specs.Shown.{frame_shown};
ghost use Rattle.wal_serve.specs.Answers.{AnswersFrame, AnswersRead};
ghost use Rattle.wal_frame.specs.Reading.{read_of};
ghost use Rattle.wal_serve.specs.inside.Room.{answer_room};
ghost use Rattle.wal_serve.specs.inside.Session.{Answers, Stays};

use crate::reply::{done, malformed, write_outcome, write_reply};
use crate::requests::refuse;
use crate::session::Session;
use wal_frame::{FrameRef, OutBuf, read_frame};
use wal_shape::{Axis, BlobId, MetaClash};
use wal_store::Keep;
use wal_tree::Hash32;

impl<H: Hash32, K: Keep> Session<'_, H, K> {
    /// What the shard holds of a blob, and the number of these frames.
    fn answer_read(&mut self, id: &BlobId, out: &mut OutBuf)
        requires room { answer_room self.old.shard.now.f ≤ out.old.spare }
        ensures answers { Answers (AnswersFrame H.digest K.may_want (Read id.now.0))
            self.old out.old None self.new out.new }
        ensures stays { Stays self.old self.new }
    {
        let count = self.shard.read_reply(self.work, id, out);
        write_reply(out, self.shard.index(), done(count));
    }

    /// What the shard holds of use to recover a sliver, and the number of these frames.
    fn answer_symbol(&mut self, id: &BlobId, axis: Axis, index: u16, out: &mut OutBuf)
        requires room { answer_room self.old.shard.now.f ≤ out.old.spare }
        ensures answers { Answers (AnswersFrame H.digest K.may_want (Symbol id.now.0 axis index))
            self.old out.old None self.new out.new }
        ensures stays { Stays self.old self.new }
    {
        let count = self.shard.symbol_reply(self.work, id, axis, index, out);
        write_reply(out, self.shard.index(), done(count));
    }

    /// What is answered to a frame.
    fn answer_frame(&mut self, frame: &FrameRef<'_>, out: &mut OutBuf) -> Option<MetaClash>
        requires room { answer_room self.old.shard.now.f ≤ out.old.spare }
        ensures answers { Answers (AnswersFrame H.digest K.may_want (frame_shown frame.now))
            self.old out.old result self.new out.new }
        ensures stays { Stays self.old self.new }
    {
        let own = self.shard.index();
        match *frame {
            FrameRef::Metadata(_)
            | FrameRef::Metadata2(_)
            | FrameRef::Sliver { .. }
            | FrameRef::Proof { .. } => write_outcome(out, own, self.put(frame)),
            FrameRef::Read { id } => {
                self.answer_read(&id, out);
                None
            }
            FrameRef::Symbol { id, axis, index } => {
                self.answer_symbol(&id, axis, index, out);
                None
            }
            FrameRef::Ack { id } => write_outcome(out, own, Ok(self.acknowledge(&id))),
            FrameRef::Attest { id } => write_outcome(out, own, Ok(self.attest(&id))),
            FrameRef::Forget { id } => write_outcome(out, own, Ok(self.forget(&id))),
            FrameRef::RegisterEntry { id, until } => {
                write_outcome(out, own, Ok(self.register(&id, until)))
            }
            FrameRef::AckEntry { shard, id } => {
                write_outcome(out, own, Ok(self.enter_ack(shard, &id)))
            }
            FrameRef::AttestEntry { shard, id } => {
                write_outcome(out, own, Ok(self.enter_attest(shard, &id)))
            }
            FrameRef::Opening { .. } | FrameRef::Answer { .. } | FrameRef::Clash { .. } => {
                write_outcome(out, own, Ok(refuse(frame)))
            }
        }
    }

    /// What is answered to a payload.
    pub(crate) fn answer(&mut self, payload: &[u8], out: &mut OutBuf) -> Option<MetaClash>
        requires size { length payload.now < 2 ^ 32 }
        requires room { answer_room self.old.shard.now.f ≤ out.old.spare }
        ensures answers { Answers (AnswersRead H.digest K.may_want (read_of payload.now))
            self.old out.old result self.new out.new }
        ensures stays { Stays self.old self.new }
    {
        match read_frame(payload) {
            Ok(frame) => self.answer_frame(&frame, out),
            Err(fault) => write_outcome(out, self.shard.index(), Ok(malformed(fault))),
        }
    }
}
