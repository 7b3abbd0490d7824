//! A reader has replies, and what they come to is compared with the first completed answer.

ghost use Rattle.std.specs.Prelude.{◌≡◌, ℕ, ◌+◌, ◌<◌, ◌≤◌, ◌++◌, List, [], Some, true, IfOk, OnOk};
ghost use Rattle.std.specs.Prelude.{length};
ghost use Rattle.std.specs.List.{flat_map};
ghost use Rattle.wal_ledger.specs.Shards.{committee_size};
ghost use Rattle.wal_evidence.specs.Evidence.{IsEvidence, IsJudgedBy};
ghost use Rattle.wal_evidence.specs.declared.evidence.Verdict.TheVariants as told;
ghost use Rattle.wal_event.specs.declared.line.ReadWord.TheVariants as reading;
ghost use Rattle.wal_event.specs.Event.{IsReply, AreRepliesWithin};
ghost use Rattle.wal_frame.specs.Frame.{envelope};
ghost use Rattle.wal_shard.specs.Holding.{read_reply_of};
ghost use Rattle.wal_reader.specs.Outcome.{HasEvidence, IsOutcome};
ghost use Rattle.wal_protocol.specs.declared.first.First.TheVariants.{Judged};
ghost use Rattle.wal_protocol.specs.State.{held, side_of, is_present};
ghost use Rattle.wal_theorem.specs.Instance.{IsBackedBy, rules_of};
ghost use Rattle.wal_world.specs.inside.Network.{IsNetwork, world_of};
ghost use Rattle.wal_world.specs.inside.Replies.{AreBacked, CollidesOn, IsCompared, IsLike, IsTold};
ghost use Rattle.wal_world.specs.inside.Replies.{ReadsOn};
ghost use Rattle.wal_protocol.specs.Step.{ReadStep, ReadCollides, reply_payloads, read_payloads};
ghost use Rattle.wal_world.specs.inside.Taken.{IsTaken};

use crate::answering::compare;
use crate::network::Network;
use crate::taken::{Taken, clash_texts};
use std::alloc::{AllocError, Global};
use wal_event::{ReadWord, Reply};
use wal_evidence::{Evidence, Verdict};
use wal_frame::{OutBuf, SplitError, split};
use wal_protocol::First;
use wal_reader::{Outcome, ReadAnswer, read};
use wal_shape::{BlobId, Bytes, Collision, Payloads, Side};
use wal_tree::Hash32;

/// Takes the payloads out of the envelopes of a buffer, which is empty then.
pub(crate) fn take_payloads(alloc: Global, buffer: &mut OutBuf) -> Result<Payloads, AllocError>
    requires { (sender : ℕ) × (payloads : List (List ℕ))
        × (buffer.old.bytes ≡ flat_map (envelope sender) payloads) }
    ensures payloads { IfOk result (λ got. (sender : ℕ) (payloads : List (List ℕ))
        → buffer.old.bytes ≡ flat_map (envelope sender) payloads → got ≡ payloads) }
    ensures empty { buffer.new.bytes ≡ [] }
    ensures room { buffer.old.spare ≤ buffer.new.spare }
    ensures spare { buffer.new.spare ≡ buffer.old.spare + length buffer.old.bytes }
{
    let payloads = split(alloc, buffer.bytes());
    buffer.clear();
    // The room is a number of 32 bits, and so the payloads are no longer than an envelope can say.
    let _room = buffer.spare();
    match payloads {
        Ok(payloads) => Ok(payloads),
        Err(fault) => match fault {
            SplitError::Memory => Err(AllocError),
            SplitError::Malformed(_) => unreachable!(),
        },
    }
}

/// Appends payloads.
pub(crate) fn add_payloads(payloads: &mut Vec<Bytes>, more: Payloads) -> Result<(), AllocError>
    ensures { OnOk result (payloads.new.items ≡ payloads.old.items ++ more) }
{
    let mut items = more.into_vec();
    payloads.append(&mut items)
}

impl<H: Hash32> Network<H> {
    /// Writes what a shard of a side replies to a reader.
    fn write_reply(&mut self, side: Side, shard: u16, id: &BlobId)
        requires network { IsNetwork self.old }
        requires present { is_present side (world_of self.old) ≡ true }
        requires shard { shard < committee_size (world_of self.old).log.f }
        ensures like { IsLike self.old self.new }
        ensures written { self.new.buffer.bytes
            ≡ flat_map (envelope shard)
            (read_reply_of id.now.0 shard (held (side_of side (world_of self.old)) shard id.now)) }
        ensures room { self.old.buffer.spare
            ≤ self.new.buffer.spare + length self.new.buffer.bytes }
    {
        let place = usize::from(shard);
        let members = self.sides.of(side);
        members.shards[place].read_reply(&mut self.work, id, &mut self.buffer);
    }

    /// What a shard of a side replies to a reader.
    fn true_reply(
        &mut self,
        alloc: Global,
        side: Side,
        shard: u16,
        id: &BlobId,
    ) -> Result<Payloads, AllocError>
        requires network { IsNetwork self.old }
        requires present { is_present side (world_of self.old) ≡ true }
        requires shard { shard < committee_size (world_of self.old).log.f }
        ensures network { IsNetwork self.new }
        ensures like { IsLike self.old self.new }
        ensures payloads { IfOk result (λ payloads. payloads
            ≡ read_reply_of id.now.0 shard (held (side_of side (world_of self.old)) shard id.now)) }
    {
        self.write_reply(side, shard, id);
        take_payloads(alloc, &mut self.buffer)
    }

    /// Appends the payloads of a reply to a reader.
    fn add_reply(
        &mut self,
        alloc: Global,
        id: &BlobId,
        reply: &Reply,
        payloads: &mut Vec<Bytes>,
    ) -> Result<(), AllocError>
        requires network { IsNetwork self.old }
        requires reply { IsReply (committee_size (world_of self.old).log.f) reply.now }
        ensures network { IsNetwork self.new }
        ensures like { IsLike self.old self.new }
        ensures payloads { OnOk result (payloads.new.items ≡ payloads.old.items
            ++ reply_payloads (rules_of H.digest (world_of self.old).log.f)
            (world_of self.old) id.now reply.now) }
    {
        match reply {
            Reply::True { side, shard } => {
                if self.correct(*side, *shard) {
                    let more = self.true_reply(alloc, *side, *shard, id)?;
                    add_payloads(payloads, more)
                } else {
                    Ok(())
                }
            }
            Reply::Bytes(bytes) => {
                payloads.push(bytes.duplicate(alloc)?)?;
                Ok(())
            }
        }
    }

    /// The payloads of replies to a reader.
    fn gather(
        &mut self,
        alloc: Global,
        id: &BlobId,
        replies: &[Reply],
    ) -> Result<Payloads, AllocError>
        requires network { IsNetwork self.old }
        requires replies { AreRepliesWithin (committee_size (world_of self.old).log.f) replies.now }
        ensures network { IsNetwork self.new }
        ensures like { IsLike self.old self.new }
        ensures payloads { IfOk result (λ payloads. payloads
            ≡ read_payloads (rules_of H.digest (world_of self.old).log.f)
            (world_of self.old) id.now replies.now) }
    {
        let mut payloads = Vec::new(alloc);
        for reply in replies {
            self.add_reply(alloc, id, reply, &mut payloads)?;
        }
        Ok(Payloads::from_vec(payloads))
    }

    /// Compares a completed answer with the first one, which it is where there is none. The result
    /// is two texts with one digest where the first one gives another one.
    pub(crate) fn complete(
        &mut self,
        alloc: Global,
        id: &BlobId,
        answer: First,
    ) -> Result<Option<Collision>, AllocError>
        requires network { IsNetwork self.old }
        requires backed { AreBacked H.digest (world_of self.old) }
        requires answer { IsBackedBy H.digest (world_of self.old).log.f id.now answer }
        ensures network { OnOk result (IsNetwork self.new) }
        ensures books { OnOk result (self.new.books ≡ self.old.books) }
        ensures compared { IfOk result (λ clash.
            IsCompared H.digest (world_of self.old) id.now answer clash (world_of self.new)) }
    {
        let f = self.f();
        if let Some(first) = self.answers.get(id) {
            let clash = compare::<H>(alloc, f, id, first, &answer);
            drop(answer);
            return clash;
        }
        match self.answers.insert(*id, answer) {
            Ok(old) => {
                drop(old);
                Ok(None)
            }
            Err(_) => Err(AllocError),
        }
    }

    /// The word of a read that completed with this answer.
    fn read_answer(
        &mut self,
        alloc: Global,
        id: &BlobId,
        answer: First,
        word: ReadWord,
    ) -> Result<Taken<ReadWord>, AllocError>
        requires network { IsNetwork self.old }
        requires backed { AreBacked H.digest (world_of self.old) }
        requires answer { IsBackedBy H.digest (world_of self.old).log.f id.now answer }
        ensures network { OnOk result (IsNetwork self.new) }
        ensures books { OnOk result (self.new.books ≡ self.old.books) }
        ensures word { IfOk result
            (IsTold H.digest (world_of self.old) id.now answer word (world_of self.new)) }
    {
        match self.complete(alloc, id, answer) {
            Ok(Some(clash)) => Ok(Taken::Collision(clash)),
            Ok(None) => Ok(Taken::Word(word)),
            Err(e) => Err(e),
        }
    }

    /// The word of a read that gave bytes.
    fn read_bytes(
        &mut self,
        alloc: Global,
        id: &BlobId,
        e: Evidence,
        bytes: Bytes,
    ) -> Result<Taken<ReadWord>, AllocError>
        requires network { IsNetwork self.old }
        requires backed { AreBacked H.digest (world_of self.old) }
        requires evidence { IsEvidence H.digest id.now.0 e }
        requires judged { IsJudgedBy H.digest e.metadata e.basis (told.Bytes bytes) }
        ensures network { OnOk result (IsNetwork self.new) }
        ensures books { OnOk result (self.new.books ≡ self.old.books) }
        ensures word { IfOk result (IsTold H.digest (world_of self.old) id.now
            (Judged e (told.Bytes bytes)) (reading.Bytes bytes) (world_of self.new)) }
    {
        let copy = bytes.duplicate(alloc)?;
        let answer = First::Judged(e, Verdict::Bytes(copy));
        self.read_answer(alloc, id, answer, ReadWord::Bytes(bytes))
    }

    /// The word of what a read came to.
    fn read_word(
        &mut self,
        alloc: Global,
        id: &BlobId,
        payloads: &Payloads,
        answer: ReadAnswer,
    ) -> Result<Taken<ReadWord>, AllocError>
        requires network { IsNetwork self.old }
        requires backed { AreBacked H.digest (world_of self.old) }
        requires outcome { IsOutcome H.digest id.now.0 payloads.now answer.outcome }
        requires evidence { HasEvidence H.digest id.now.0
            payloads.now answer.outcome answer.evidence }
        ensures network { OnOk result (IsNetwork self.new) }
        ensures books { OnOk result (self.new.books ≡ self.old.books) }
        ensures word { IfOk result (IsTaken H.digest
            (λ word. ReadsOn (rules_of H.digest (world_of self.old).log.f)
            (world_of self.old) id.now payloads.now word (world_of self.new))
            (CollidesOn (rules_of H.digest (world_of self.old).log.f)
            (world_of self.old) id.now payloads.now
            × (world_of self.new ≡ world_of self.old))) }
    {
        match (answer.outcome, answer.evidence) {
            (Outcome::Bytes(bytes), Some(e)) => self.read_bytes(alloc, id, e, bytes),
            (Outcome::Reject, Some(e)) => {
                let answer = First::Judged(e, Verdict::Reject);
                self.read_answer(alloc, id, answer, ReadWord::Reject)
            }
            (Outcome::Short { have, need }, _) => Ok(Taken::Word(ReadWord::Short { have, need })),
            (Outcome::NoMetadata, _) => Ok(Taken::Word(ReadWord::NoMetadata)),
            (Outcome::Collision(clash), _) => Ok(Taken::Collision(clash_texts(alloc, &clash)?)),
            _ => unreachable!(),
        }
    }

    /// A reader has these replies for a blob.
    pub(crate) fn read(
        &mut self,
        alloc: Global,
        id: &BlobId,
        replies: &[Reply],
    ) -> Result<Taken<ReadWord>, AllocError>
        requires network { IsNetwork self.old }
        requires backed { AreBacked H.digest (world_of self.old) }
        requires replies { AreRepliesWithin (committee_size (world_of self.old).log.f) replies.now }
        ensures network { OnOk result (IsNetwork self.new) }
        ensures books { OnOk result (self.new.books ≡ self.old.books) }
        ensures step { IfOk result (IsTaken H.digest
            (λ word. ReadStep (rules_of H.digest (world_of self.old).log.f)
            (world_of self.old) id.now replies.now word (world_of self.new))
            (ReadCollides (rules_of H.digest (world_of self.old).log.f)
            (world_of self.old) id.now replies.now
            × (world_of self.new ≡ world_of self.old))) }
    {
        let payloads = self.gather(alloc, id, replies)?;
        let answer = read::<H>(alloc, id, &payloads)?;
        self.read_word(alloc, id, &payloads, answer)
    }
}
