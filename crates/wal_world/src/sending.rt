//! Bytes are sent to a shard, which takes them if they are a frame that verifies.

ghost use Rattle.std.specs.Prelude.{◌≡◌, ◌↔◌, ◌<◌, true, None, IsTrue, IfOk, OnOk, IfSome, IfNone};
ghost use Rattle.wal_frame.specs.Frame.{Frame, IsFrame};
ghost use Rattle.wal_frame.specs.Shown.{frame_shown};
ghost use Rattle.wal_ledger.specs.Shards.{committee_size};
ghost use Rattle.wal_store.specs.Contents.{Contents};
ghost use Rattle.wal_shard.specs.Putting.{CanBePut};
ghost use Rattle.wal_protocol.specs.State.{side_of, is_present, contents_of};
ghost use Rattle.wal_theorem.specs.Instance.{IsPutFrame, PutsFrame, rules_of};
ghost use Rattle.wal_world.specs.inside.Network.{IsNetwork, world_of};
ghost use Rattle.wal_world.specs.inside.Placed.{Places};
ghost use Rattle.wal_world.specs.inside.Taken.{IsAnswered, IsTaken, Tells};
ghost use Rattle.wal_protocol.specs.Step.{SendStep, SendCollides};

use crate::books::ledger_in;
use crate::network::Network;
use crate::taken::{Taken, clash_texts};
use std::alloc::{AllocError, Global};
use wal_event::SendWord;
use wal_frame::{FrameRef, read_frame};
use wal_shape::Side;
use wal_shard::PutAnswer;
use wal_tree::Hash32;

/// Whether a frame may be put.
fn is_part(frame: &FrameRef<'_>) -> bool
    ensures { IsTrue result ↔ CanBePut (frame_shown frame.now) }
{
    match frame {
        FrameRef::Metadata(_)
        | FrameRef::Metadata2(_)
        | FrameRef::Sliver { .. }
        | FrameRef::Proof { .. } => true,
        _ => false,
    }
}

/// The frame that the bytes are, if it may be put.
fn part_of(bytes: &[u8]) -> Option<FrameRef<'_>>
    ensures some { IfSome result (λ frame. IsPutFrame bytes.now (frame_shown frame)) }
    ensures fit { IfSome result (λ frame. IsFrame (frame_shown frame)) }
    ensures none { IfNone result ((frame : Frame) → IsPutFrame bytes.now frame → ⊥) }
{
    match read_frame(bytes) {
        Ok(frame) => { if is_part(&frame) { Some(frame) } else { None } }
        Err(_) => None,
    }
}

/// What is said of a shard's answer.
fn sent(alloc: Global, answer: PutAnswer) -> Result<Taken<SendWord>, AllocError>
    requires { IsAnswered answer }
    ensures { IfOk result (Tells answer) }
{
    match answer {
        PutAnswer::Stored => Ok(Taken::Word(SendWord::Stored)),
        PutAnswer::Held => Ok(Taken::Word(SendWord::Held)),
        PutAnswer::Unregistered => Ok(Taken::Word(SendWord::Unregistered)),
        PutAnswer::NoMetadata => Ok(Taken::Word(SendWord::NoMetadata)),
        PutAnswer::Unverified => Ok(Taken::Word(SendWord::Unverified)),
        PutAnswer::OtherMetadata(clash) => Ok(Taken::Collision(clash_texts(alloc, &clash)?)),
        PutAnswer::Full { .. } | PutAnswer::Memory => unreachable!(),
    }
}

impl<H: Hash32> Network<H> {
    /// What a shard of a side makes of a frame.
    pub(crate) fn put_at(
        &mut self,
        at: Side,
        shard: u16,
        frame: &FrameRef<'_>,
    ) -> Result<PutAnswer, AllocError>
        requires network { IsNetwork self.old }
        requires present { is_present at (world_of self.old) ≡ true }
        requires shard { shard < committee_size (world_of self.old).log.f }
        requires part { CanBePut (frame_shown frame.now) }
        requires frame { IsFrame (frame_shown frame.now) }
        ensures puts { IfOk result (λ answer. (contents : Contents)
            × PutsFrame H.digest (world_of self.old).log.f (world_of self.old).log
            shard (contents_of (side_of at (world_of self.old)) shard)
            (frame_shown frame.now) answer contents
            × Places at self.old shard contents self.new) }
        ensures answered { IfOk result IsAnswered }
    {
        let ledger = ledger_in(&self.books);
        match self
            .sides
            .of_mut(at)
            .put(&mut self.work, ledger, shard, frame)
        {
            PutAnswer::Memory => Err(AllocError),
            answer => Ok(answer),
        }
    }

    /// Bytes are sent to a shard of a side.
    pub(crate) fn send(
        &mut self,
        alloc: Global,
        at: Side,
        shard: u16,
        bytes: &[u8],
    ) -> Result<Taken<SendWord>, AllocError>
        requires network { IsNetwork self.old }
        requires shard { shard < committee_size (world_of self.old).log.f }
        ensures network { OnOk result (IsNetwork self.new) }
        ensures books { OnOk result (self.new.books ≡ self.old.books) }
        ensures step { IfOk result (IsTaken H.digest
            (λ word. SendStep (rules_of H.digest (world_of self.old).log.f)
            (world_of self.old) at shard bytes.now word (world_of self.new))
            (SendCollides (rules_of H.digest (world_of self.old).log.f)
            (world_of self.old) at shard bytes.now (world_of self.new))) }
    {
        if !self.present(at) {
            return Ok(Taken::Word(SendWord::Absent));
        }
        if self.faulty(at, shard) {
            return Ok(Taken::Word(SendWord::Ignored));
        }
        match part_of(bytes) {
            Some(frame) => match self.put_at(at, shard, &frame) {
                Ok(answer) => sent(alloc, answer),
                Err(e) => Err(e),
            },
            None => Ok(Taken::Word(SendWord::Malformed)),
        }
    }
}
