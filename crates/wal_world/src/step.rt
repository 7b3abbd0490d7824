//! What comes of one event.

ghost use Rattle.std.specs.Prelude.{◌≡◌, ◌<◌, ◌≤◌, ◌+◌, length, IsTrue, OnOk, IfOk};
ghost use Rattle.wal_event.specs.Event.{AreRepliesWithin, IsEventWithin};
ghost use Rattle.wal_event.specs.declared.event.Event.TheVariants as event;
ghost use Rattle.wal_ledger.specs.Shards.{committee_size};
ghost use Rattle.wal_shape.specs.Owners.{is_ascending, is_committee};
ghost use Rattle.wal_shape.specs.Shape.{most_bytes};
ghost use Rattle.wal_protocol.specs.Facts.{Facts};
ghost use Rattle.wal_theorem.specs.Instance.{rules_of};
ghost use Rattle.wal_world.specs.inside.Network.{IsNetwork, world_of, spare_of, capacity_of};
ghost use Rattle.wal_protocol.specs.Step.{Steps};

use crate::network::Network;
use crate::taken::Taken;
use std::alloc::{AllocError, Global};
use wal_event::{Event, HoldersWord, Line, Reply, WriteWord};
use wal_shape::{Axis, BlobId, Bytes, Collision, Shards, Side};
use wal_tree::Hash32;

impl<H: Hash32> Network<H> {
    /// Takes an honest write, and tells its line.
    fn write_line(&mut self, alloc: Global, blob: &Bytes, to: &[u16]) -> Result<Line, AllocError>
        requires network { IsNetwork self.old }
        requires facts { Facts (rules_of H.digest (world_of self.old).log.f) (world_of self.old) }
        requires length { length blob.now ≤ most_bytes }
        requires shards { IsTrue (is_ascending (committee_size (world_of self.old).log.f) to.now) }
        ensures network { OnOk result (IsNetwork self.new) }
        ensures step { IfOk result
            (λ line. Steps (rules_of H.digest (world_of self.old).log.f)
            (world_of self.old) (event.Write blob.now to.now) line (world_of self.new)) }
        ensures books { OnOk result (self.new.books ≡ self.old.books) }
    {
        let bytes = blob.duplicate(alloc)?;
        match self.write(alloc, blob.as_slice(), to)? {
            Taken::Word(word) => Ok(Line::Write {
                id: word.id,
                word: WriteWord::Stored {
                    count: word.count,
                    bytes,
                },
            }),
            Taken::Collision(Collision { left, right }) => Ok(Line::Collision { left, right }),
        }
    }

    /// Takes bytes that are sent to a shard, and tells the line.
    fn send_line(
        &mut self,
        alloc: Global,
        at: Side,
        shard: u16,
        bytes: &[u8],
    ) -> Result<Line, AllocError>
        requires network { IsNetwork self.old }
        requires shard { shard < committee_size (world_of self.old).log.f }
        ensures network { OnOk result (IsNetwork self.new) }
        ensures step { IfOk result
            (λ line. Steps (rules_of H.digest (world_of self.old).log.f)
            (world_of self.old) (event.Send at shard bytes.now) line (world_of self.new)) }
        ensures books { OnOk result (self.new.books ≡ self.old.books) }
    {
        match self.send(alloc, at, shard, bytes)? {
            Taken::Word(word) => Ok(Line::Send { shard, word }),
            Taken::Collision(Collision { left, right }) => Ok(Line::Collision { left, right }),
        }
    }

    /// Takes a read of replies, and tells its line.
    fn read_line(
        &mut self,
        alloc: Global,
        id: &BlobId,
        replies: &[Reply],
    ) -> Result<Line, AllocError>
        requires network { IsNetwork self.old }
        requires facts { Facts (rules_of H.digest (world_of self.old).log.f) (world_of self.old) }
        requires replies { AreRepliesWithin (committee_size (world_of self.old).log.f) replies.now }
        ensures network { OnOk result (IsNetwork self.new) }
        ensures step { IfOk result
            (λ line. Steps (rules_of H.digest (world_of self.old).log.f)
            (world_of self.old) (event.Read id.now replies.now) line (world_of self.new)) }
        ensures books { OnOk result (self.new.books ≡ self.old.books) }
    {
        match self.read(alloc, id, replies)? {
            Taken::Word(word) => Ok(Line::Read { id: *id, word }),
            Taken::Collision(Collision { left, right }) => Ok(Line::Collision { left, right }),
        }
    }

    /// Takes a recovery from replies, and tells its line.
    fn recover_line(
        &mut self,
        alloc: Global,
        at: Side,
        shard: u16,
        axis: Axis,
        id: &BlobId,
        replies: &[Reply],
    ) -> Result<Line, AllocError>
        requires network { IsNetwork self.old }
        requires shard { shard < committee_size (world_of self.old).log.f }
        requires replies { AreRepliesWithin (committee_size (world_of self.old).log.f) replies.now }
        ensures network { OnOk result (IsNetwork self.new) }
        ensures step { IfOk result
            (λ line. Steps (rules_of H.digest (world_of self.old).log.f) (world_of self.old)
            (event.Recover at shard axis id.now replies.now) line (world_of self.new)) }
        ensures books { OnOk result (self.new.books ≡ self.old.books) }
    {
        match self.recover(alloc, at, shard, axis, id, replies)? {
            Taken::Word(word) => Ok(Line::Recover {
                shard,
                axis,
                id: *id,
                word,
            }),
            Taken::Collision(Collision { left, right }) => Ok(Line::Collision { left, right }),
        }
    }

    /// Takes an event, and tells its line.
    pub(crate) fn take(&mut self, alloc: Global, event: &Event) -> Result<Line, AllocError>
        requires network { IsNetwork self.old }
        requires facts { Facts (rules_of H.digest (world_of self.old).log.f) (world_of self.old) }
        requires fits { IsEventWithin (committee_size (world_of self.old).log.f) event.now }
        requires room { 0 < spare_of self.old }
        ensures network { OnOk result (IsNetwork self.new) }
        ensures step { IfOk result
            (λ line. Steps (rules_of H.digest (world_of self.old).log.f)
            (world_of self.old) event.now line (world_of self.new)) }
        ensures spare { OnOk result (spare_of self.old ≤ spare_of self.new + 1) }
        ensures capacity { OnOk result (capacity_of self.new ≡ capacity_of self.old) }
    {
        match event {
            Event::Write { blob, to } => self.write_line(alloc, blob, to.as_slice()),
            Event::Send { at, shard, bytes } => self.send_line(
                alloc,
                *at,
                *shard,
                bytes.as_slice(),
            ),
            Event::Read { id, replies } => self.read_line(alloc, id, replies.as_slice()),
            Event::Recover {
                at,
                shard,
                axis,
                id,
                replies,
            } => { self.recover_line(alloc, *at, *shard, *axis, id, replies.as_slice()) }
            Event::Begin {
                owners,
                faulty,
                stays,
            } => {
                let word = self.begin(alloc, owners, faulty, stays)?;
                Ok(Line::Begin { word })
            }
            Event::Register { id, until } => {
                let word = self.register(id, *until);
                Ok(Line::Register { id: *id, word })
            }
            Event::Ack { shard, id } => {
                let word = self.ack(*shard, id);
                Ok(Line::Ack {
                    shard: *shard,
                    id: *id,
                    word,
                })
            }
            Event::Attest { shard, id } => {
                let word = self.attest(*shard, id);
                Ok(Line::Attest {
                    shard: *shard,
                    id: *id,
                    word,
                })
            }
            Event::Forget { at, shard, id } => {
                let word = self.forget(*at, *shard, id);
                Ok(Line::Forget {
                    shard: *shard,
                    id: *id,
                    word,
                })
            }
            Event::Ready { shard } => {
                let word = self.ready(*shard);
                Ok(Line::Ready {
                    shard: *shard,
                    word,
                })
            }
            Event::Finish => {
                let word = self.finish(alloc);
                Ok(Line::Finish { word })
            }
            Event::Certificate { id } => {
                let word = self.certificate(id);
                Ok(Line::Certificate { id: *id, word })
            }
            Event::Holders { id } => {
                let count = self.holders(id);
                Ok(Line::Holders {
                    id: *id,
                    word: HoldersWord::Count(count),
                })
            }
        }
    }
}
