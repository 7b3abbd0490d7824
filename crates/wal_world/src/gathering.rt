//! What shards reply to one that recovers a sliver.

ghost use Rattle.std.specs.Prelude.{◌≡◌, ℕ, ◌+◌, ◌<◌, ◌≤◌, true, List, [], ◌∷◌, None, IfOk, IfSome};
ghost use Rattle.std.specs.Prelude.{IfNone, length};
ghost use Rattle.std.specs.List.{flat_map};
ghost use Rattle.wal_ledger.specs.Shards.{committee_size};
ghost use Rattle.wal_event.specs.Event.{IsReply};
ghost use Rattle.wal_event.specs.Event as event;
ghost use Rattle.wal_frame.specs.Frame.{envelope};
ghost use Rattle.wal_shard.specs.Holding.{SymbolReplies};
ghost use Rattle.wal_shard.specs.State.{IsOwnMetadata};
ghost use Rattle.wal_protocol.specs.State.{held, side_of, is_present};
ghost use Rattle.wal_theorem.specs.Instance.{SymbolReply, rules_of};
ghost use Rattle.wal_world.specs.inside.Network.{IsNetwork, world_of};
ghost use Rattle.wal_world.specs.inside.Replies.{IsLike};
ghost use Rattle.wal_protocol.specs.Step.{AreReplies, IsReplyOf};

use crate::network::Network;
use crate::reading::{add_payloads, take_payloads};
use std::alloc::{AllocError, Global};
use wal_event::Reply;
use wal_shape::{Axis, BlobId, Bytes, Metadata, Payloads, Side};
use wal_tree::Hash32;

/// A copy of a payload, alone.
fn one_payload(alloc: Global, bytes: &Bytes) -> Result<Payloads, AllocError>
    ensures { IfOk result (λ payloads. payloads ≡ bytes.now ∷ []) }
{
    let mut payloads = Vec::new(alloc);
    payloads.push(bytes.duplicate(alloc)?)?;
    Ok(Payloads::from_vec(payloads))
}

/// No payloads.
fn no_payloads(alloc: Global) -> Payloads
    ensures { result ≡ [] }
{
    Payloads::from_vec(Vec::new(alloc))
}

impl<H: Hash32> Network<H> {
    /// A copy of the metadata that a shard of a side holds.
    pub(crate) fn own_metadata(
        &self,
        alloc: Global,
        side: Side,
        shard: u16,
        id: &BlobId,
    ) -> Result<Option<Metadata>, AllocError>
        requires network { IsNetwork self.now }
        requires present { is_present side (world_of self.now) ≡ true }
        requires shard { shard < committee_size (world_of self.now).log.f }
        ensures held { IfOk result (λ o.
            IfSome o (λ m. IsOwnMetadata H.digest (world_of self.now).log.f
            id.now.0 (held (side_of side (world_of self.now)) shard id.now) m)) }
        ensures none { IfOk result (λ o.
            IfNone o ((held (side_of side (world_of self.now)) shard id.now).metadata ≡ None)) }
    {
        self.shard(side, shard).metadata(alloc, id)
    }

    /// Writes what a shard of a side replies to one that recovers the sliver of this axis and
    /// index.
    fn write_symbols(&mut self, side: Side, shard: u16, id: &BlobId, axis: Axis, index: u16)
        requires network { IsNetwork self.old }
        requires present { is_present side (world_of self.old) ≡ true }
        requires shard { shard < committee_size (world_of self.old).log.f }
        ensures like { IsLike self.old self.new }
        ensures written { (payloads : List (List ℕ))
            × SymbolReplies H.digest id.now.0 shard
            (held (side_of side (world_of self.old)) shard id.now) axis index payloads
            × (self.new.buffer.bytes ≡ flat_map (envelope shard) payloads) }
        ensures room { self.old.buffer.spare
            ≤ self.new.buffer.spare + length self.new.buffer.bytes }
    {
        let place = usize::from(shard);
        let members = self.sides.of(side);
        members.shards[place].symbol_reply(&mut self.work, id, axis, index, &mut self.buffer);
    }

    /// What a shard of a side replies to one that recovers the sliver of this axis and index.
    fn true_symbols(
        &mut self,
        alloc: Global,
        side: Side,
        shard: u16,
        id: &BlobId,
        axis: Axis,
        index: u16,
    ) -> Result<Payloads, AllocError>
        requires network { IsNetwork self.old }
        requires present { is_present side (world_of self.old) ≡ true }
        requires shard { shard < committee_size (world_of self.old).log.f }
        ensures network { IsNetwork self.new }
        ensures like { IsLike self.old self.new }
        ensures payloads { IfOk result (SymbolReplies H.digest id.now.0 shard
            (held (side_of side (world_of self.old)) shard id.now) axis index) }
    {
        self.write_symbols(side, shard, id, axis, index);
        take_payloads(alloc, &mut self.buffer)
    }

    /// What a shard of a side replies to another one that recovers its sliver of an axis.
    fn symbols_for(
        &mut self,
        alloc: Global,
        side: Side,
        helper: u16,
        id: &BlobId,
        axis: Axis,
        shard: u16,
    ) -> Result<Payloads, AllocError>
        requires network { IsNetwork self.old }
        requires present { is_present side (world_of self.old) ≡ true }
        requires helper { helper < committee_size (world_of self.old).log.f }
        requires shard { shard < committee_size (world_of self.old).log.f }
        ensures network { IsNetwork self.new }
        ensures like { IsLike self.old self.new }
        ensures payloads { IfOk result (SymbolReply H.digest id.now helper
            (held (side_of side (world_of self.old)) helper id.now) axis shard) }
    {
        match self.own_metadata(alloc, side, helper, id) {
            Ok(Some(m)) => {
                self.true_symbols(alloc, side, helper, id, axis, m.view().held(axis, shard))
            }
            Ok(None) => Ok(no_payloads(alloc)),
            Err(e) => Err(e),
        }
    }

    /// The payloads of a reply to a shard that recovers its sliver of an axis.
    fn symbols_in(
        &mut self,
        alloc: Global,
        id: &BlobId,
        axis: Axis,
        shard: u16,
        reply: &Reply,
    ) -> Result<Payloads, AllocError>
        requires network { IsNetwork self.old }
        requires reply { IsReply (committee_size (world_of self.old).log.f) reply.now }
        requires shard { shard < committee_size (world_of self.old).log.f }
        ensures network { IsNetwork self.new }
        ensures like { IsLike self.old self.new }
        ensures payloads { IfOk result (IsReplyOf (rules_of H.digest (world_of self.old).log.f)
            (world_of self.old) id.now axis shard reply.now) }
    {
        match reply {
            Reply::True {
                side,
                shard: helper,
            } => {
                if self.correct(*side, *helper) {
                    self.symbols_for(alloc, *side, *helper, id, axis, shard)
                } else {
                    Ok(no_payloads(alloc))
                }
            }
            Reply::Bytes(bytes) => one_payload(alloc, bytes),
        }
    }

    /// The payloads of replies to a shard that recovers its sliver of an axis.
    pub(crate) fn gather_symbols(
        &mut self,
        alloc: Global,
        id: &BlobId,
        axis: Axis,
        shard: u16,
        replies: &[Reply],
    ) -> Result<Payloads, AllocError>
        requires network { IsNetwork self.old }
        requires replies { event.AreRepliesWithin
            (committee_size (world_of self.old).log.f) replies.now }
        requires shard { shard < committee_size (world_of self.old).log.f }
        ensures network { IsNetwork self.new }
        ensures like { IsLike self.old self.new }
        ensures payloads { IfOk result (AreReplies (rules_of H.digest (world_of self.old).log.f)
            (world_of self.old) id.now axis shard replies.now) }
    {
        let mut payloads = Vec::new(alloc);
        for reply in replies {
            let more = self.symbols_in(alloc, id, axis, shard, reply)?;
            add_payloads(&mut payloads, more)?;
        }
        Ok(Payloads::from_vec(payloads))
    }
}
