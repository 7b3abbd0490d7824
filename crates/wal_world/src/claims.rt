//! Acknowledgements and attestations: what a node says of a blob.

ghost use Rattle.std.specs.Prelude.{◌≡◌, ℕ, ◌+◌, ◌<◌, ◌≤◌, true, false, OnErr, OnOk, IfErr, IfOk};
ghost use Rattle.wal_ledger.specs.Answers.{IsOpen};
ghost use Rattle.wal_ledger.specs.Ledger.{owners_of, same_node};
ghost use Rattle.wal_ledger.specs.Shards.{committee_size};
ghost use Rattle.wal_ledger.specs.declared.entry.Kind.{Kind};
ghost use Rattle.wal_ledger.specs.declared.entry.Kind.TheVariants.{Denies, Holds};
ghost use Rattle.wal_shape.specs.declared.axis.Side.TheVariants.{Next};
ghost use Rattle.wal_shape.specs.declared.metadata.BlobId.{BlobId};
ghost use Rattle.wal_shard.specs.Vouching.{backs};
ghost use Rattle.wal_world.specs.inside.Network.{IsNetwork, capacity_of, spare_of, world_of};
ghost use Rattle.wal_protocol.specs.inside.Saying.{Says};
ghost use Rattle.wal_protocol.specs.State.{World, held, side_of, writing_side};
ghost use Rattle.wal_protocol.specs.Step.{AckStep, AttestStep, Declines, MayPost};

use crate::books::{ack_in, attest_in};
use crate::network::Network;
use wal_event::{AckWord, AttestWord};
use wal_ledger::{AckAnswer, AttestAnswer, Kind};
use wal_protocol::Said;
use wal_shape::BlobId;
use wal_tree::Hash32;

/// The word of an acknowledgement, by what came of it.
fn acked(said: Said) -> AckWord
    ensures { (old new : World) (shard : ℕ) (id : BlobId) → Says Holds old shard id said new
        → AckStep old shard id result new }
{
    match said {
        Said::Unregistered => AckWord::Unregistered,
        Said::Expires => AckWord::Expires,
        Said::Declined => AckWord::Declined,
        Said::Already => AckWord::Already,
        Said::Counted(count) => AckWord::Counted(count),
        Said::Quorum(count) => AckWord::Certified(count),
    }
}

/// The word of an attestation, by what came of it.
fn attested(said: Said) -> AttestWord
    ensures { (old new : World) (shard : ℕ) (id : BlobId) → Says Denies old shard id said new
        → AttestStep old shard id result new }
{
    match said {
        Said::Unregistered => AttestWord::Unregistered,
        Said::Expires => AttestWord::Expires,
        Said::Declined => AttestWord::Declined,
        Said::Already => AttestWord::Already,
        Said::Counted(count) => AttestWord::Counted(count),
        Said::Quorum(count) => AttestWord::Invalid(count),
    }
}

impl<H: Hash32> Network<H> {
    /// Whether the ledger takes words on a blob.
    fn open(&self, id: &BlobId) -> Result<(), Said>
        requires { IsNetwork self.now }
        ensures open { IfOk result (λ _. IsOpen (world_of self.now).log id.now) }
        ensures closed { IfErr result (λ said. (kind : Kind) (shard : ℕ)
            → Says kind (world_of self.now) shard id.now said (world_of self.now)) }
    {
        let ledger = self.ledger();
        match ledger.until(id) {
            None => Err(Said::Unregistered),
            Some(until) => {
                if until <= ledger.writing_epoch() {
                    Err(Said::Expires)
                } else {
                    Ok(())
                }
            }
        }
    }

    /// Whether one node runs both shards of the writing side.
    pub(crate) fn writes_with(&self, shard: u16, other: u16) -> bool
        requires network { IsNetwork self.now }
        requires shard { shard < committee_size (world_of self.now).log.f }
        requires other { other < committee_size (world_of self.now).log.f }
        ensures { result ≡ same_node (owners_of Next (world_of self.now).log) shard other }
    {
        let ledger = self.ledger();
        let side = self.writing_side();
        ledger.node(side, shard) == ledger.node(side, other)
    }

    /// Whether a shard of the writing side holds what backs a word on an open blob.
    fn backs(&self, kind: Kind, shard: u16, id: &BlobId) -> bool
        requires network { IsNetwork self.now }
        requires open { IsOpen (world_of self.now).log id.now }
        requires shard { shard < committee_size (world_of self.now).log.f }
        ensures { result
            ≡ backs kind
            (held (side_of (writing_side (world_of self.now)) (world_of self.now)) shard id.now) }
    {
        let ledger = self.ledger();
        let keeper = self.shard(self.writing_side(), shard);
        match kind {
            Kind::Holds => keeper.acknowledge(ledger, id).is_ok(),
            Kind::Denies => keeper.attest(ledger, id).is_ok(),
        }
    }

    /// Whether the node of a shard may say so of an open blob: the shard is faulty, or each shard
    /// of the node holds what backs it.
    fn may_post(&self, kind: Kind, shard: u16, id: &BlobId) -> bool
        requires network { IsNetwork self.now }
        requires open { IsOpen (world_of self.now).log id.now }
        requires shard { shard < committee_size (world_of self.now).log.f }
        ensures may { result ≡ true → MayPost (world_of self.now) kind shard id.now }
        ensures declines { result ≡ false → Declines (world_of self.now) kind shard id.now }
    {
        if !self.correct(self.writing_side(), shard) {
            return true;
        }
        for other in 0..self.size() {
            if self.writes_with(shard, other) && !self.backs(kind, other, id) {
                return false;
            }
        }
        true
    }

    /// Enters an acknowledgement, if it is the node's first in this epoch.
    #[tactic(auto, using(crate::proofs::Entering::entered_is, crate::proofs::Entering::entered_world, crate::proofs::Entering::same_world, crate::proofs::Entering::room_taken))]
    fn enter_ack(&mut self, shard: u16, id: &BlobId) -> Said
        requires network { IsNetwork self.old }
        requires room { 0 < spare_of self.old }
        requires shard { shard < committee_size (world_of self.old).log.f }
        requires may { MayPost (world_of self.old) Holds shard id.now }
        ensures says { Says Holds (world_of self.old) shard id.now result (world_of self.new) }
        ensures network { IsNetwork self.new }
        ensures spare { spare_of self.old ≤ spare_of self.new + 1 }
        ensures capacity { capacity_of self.new ≡ capacity_of self.old }
    {
        match ack_in(&mut self.books, shard, id) {
            AckAnswer::Unregistered => Said::Unregistered,
            AckAnswer::Expires => Said::Expires,
            AckAnswer::Already => Said::Already,
            AckAnswer::Counted(count) => Said::Counted(count),
            AckAnswer::Certified(count) => Said::Quorum(count),
            AckAnswer::NoRoom => unreachable!(),
        }
    }

    /// Enters an attestation, if it is the node's first in this epoch.
    #[tactic(auto, using(crate::proofs::Entering::entered_is, crate::proofs::Entering::entered_world, crate::proofs::Entering::same_world, crate::proofs::Entering::room_taken))]
    fn enter_attestation(&mut self, shard: u16, id: &BlobId) -> Said
        requires network { IsNetwork self.old }
        requires room { 0 < spare_of self.old }
        requires shard { shard < committee_size (world_of self.old).log.f }
        requires may { MayPost (world_of self.old) Denies shard id.now }
        ensures says { Says Denies (world_of self.old) shard id.now result (world_of self.new) }
        ensures network { IsNetwork self.new }
        ensures spare { spare_of self.old ≤ spare_of self.new + 1 }
        ensures capacity { capacity_of self.new ≡ capacity_of self.old }
    {
        match attest_in(&mut self.books, shard, id) {
            AttestAnswer::Unregistered => Said::Unregistered,
            AttestAnswer::Expires => Said::Expires,
            AttestAnswer::Already => Said::Already,
            AttestAnswer::Counted(count) => Said::Counted(count),
            AttestAnswer::Invalid(count) => Said::Quorum(count),
            AttestAnswer::NoRoom => unreachable!(),
        }
    }

    /// What comes of the word of a shard's node.
    fn say(&mut self, kind: Kind, shard: u16, id: &BlobId) -> Said
        requires network { IsNetwork self.old }
        requires room { 0 < spare_of self.old }
        requires shard { shard < committee_size (world_of self.old).log.f }
        ensures says { Says kind (world_of self.old) shard id.now result (world_of self.new) }
        ensures network { IsNetwork self.new }
        ensures spare { spare_of self.old ≤ spare_of self.new + 1 }
        ensures capacity { capacity_of self.new ≡ capacity_of self.old }
    {
        match self.open(id) {
            Err(said) => return said,
            Ok(()) => (),
        }
        if !self.may_post(kind, shard, id) {
            return Said::Declined;
        }
        match kind {
            Kind::Holds => self.enter_ack(shard, id),
            Kind::Denies => self.enter_attestation(shard, id),
        }
    }

    /// An acknowledgement by a shard of the writing side.
    pub(crate) fn ack(&mut self, shard: u16, id: &BlobId) -> AckWord
        requires network { IsNetwork self.old }
        requires room { 0 < spare_of self.old }
        requires shard { shard < committee_size (world_of self.old).log.f }
        ensures step { AckStep (world_of self.old) shard id.now result (world_of self.new) }
        ensures network { IsNetwork self.new }
        ensures spare { spare_of self.old ≤ spare_of self.new + 1 }
        ensures capacity { capacity_of self.new ≡ capacity_of self.old }
    {
        acked(self.say(Kind::Holds, shard, id))
    }

    /// An attestation by a shard of the writing side.
    pub(crate) fn attest(&mut self, shard: u16, id: &BlobId) -> AttestWord
        requires network { IsNetwork self.old }
        requires room { 0 < spare_of self.old }
        requires shard { shard < committee_size (world_of self.old).log.f }
        ensures step { AttestStep (world_of self.old) shard id.now result (world_of self.new) }
        ensures network { IsNetwork self.new }
        ensures spare { spare_of self.old ≤ spare_of self.new + 1 }
        ensures capacity { capacity_of self.new ≡ capacity_of self.old }
    {
        attested(self.say(Kind::Denies, shard, id))
    }
}
