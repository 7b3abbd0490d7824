//! The step of a record by one entry, and what it answers.

ghost use Rattle.std.specs.Prelude.{◌≡◌, ℕ, ◌<◌, ◌≤◌};
ghost use Rattle.wal_ledger.specs.Kept.{IsOfCommittee};
ghost use Rattle.wal_ledger.specs.Shards.{committee_size};
ghost use Rattle.wal_record.specs.Questions.{certificate_in, claim, count_now, home_in, is_before};
ghost use Rattle.wal_record.specs.Questions.{is_invalid_in, lives, must_hold_in, register, tally};
ghost use Rattle.wal_record.specs.Follow.{enter};
ghost use Rattle.wal_record.specs.Told.{IsFit, context_told, quorum_told, record_told, votes_told};

use crate::context::Epoch;
use crate::outcome::{Answer, Said};
use crate::record::{Quorum, Row, Tally};
use wal_ledger::{Body, Kind, RegisterAnswer};
use wal_shape::Side;

/// How many shards signed in the writing epoch.
fn count_now(epoch: &Epoch, tally: &Tally) -> u32
    requires { IsFit epoch.now }
    ensures { result ≡ count_now (context_told epoch.now) (votes_told tally.now) }
{
    if tally.epoch == epoch.writing() {
        tally.count(epoch.f)
    } else {
        0
    }
}

/// Whether there is a quorum, of an epoch before this one.
fn is_before(epoch: u32, quorum: Option<Quorum>) -> bool
    ensures { result ≡ is_before epoch (quorum_told quorum) }
{
    match quorum {
        Some(quorum) => quorum.epoch < epoch,
        None => false,
    }
}

/// What so many shards are answered.
fn answer_of(f: u32, count: u32) -> Said
    requires { f ≤ 333 }
    ensures { result ≡ tally f count }
{
    if count < 2 * f + 1 {
        Said::Counted(count)
    } else {
        Said::Quorum(count)
    }
}

impl Row {
    /// Whether the blob is live.
    pub fn live(&self, epoch: &Epoch) -> bool
        ensures { result ≡ lives (context_told epoch.now) (record_told self.now) }
    {
        epoch.epoch < self.until
    }

    /// The least epoch in which a quorum acknowledged the blob, if it is live, and which shards did.
    pub fn certificate(&self, epoch: &Epoch) -> Option<Quorum>
        requires { IsFit epoch.now }
        ensures { quorum_told result ≡ certificate_in (context_told epoch.now) (record_told self.now) }
    {
        if self.live(epoch) {
            self.holds.first_quorum(epoch.f)
        } else {
            None
        }
    }

    /// Whether the blob is live, and a quorum attested in one epoch that it is invalid.
    pub fn invalid(&self, epoch: &Epoch) -> bool
        requires { IsFit epoch.now }
        ensures { result ≡ is_invalid_in (context_told epoch.now) (record_told self.now) }
    {
        self.live(epoch) && self.denies.first_quorum(epoch.f).is_some()
    }

    /// The committee that answers for the blob.
    pub fn home(&self, epoch: &Epoch) -> Side
        requires { IsFit epoch.now }
        ensures { result ≡ home_in (context_told epoch.now) (record_told self.now) }
    {
        if epoch.moving && 2 * epoch.f + 1 <= count_now(epoch, &self.holds) {
            Side::Next
        } else {
            Side::Now
        }
    }

    /// Whether a shard of the next committee must hold the blob to be ready.
    pub fn must_hold(&self, epoch: &Epoch) -> bool
        requires { IsFit epoch.now }
        ensures { result ≡ must_hold_in (context_told epoch.now) (record_told self.now) }
    {
        let writing = epoch.writing();
        epoch.moving && writing < self.until && is_before(writing, self.holds.first_quorum(epoch.f))
    }

    /// Registers the blob until an epoch, or extends its registration.
    pub fn register(&mut self, epoch: &Epoch, until: u32) -> RegisterAnswer
        requires { IsFit epoch.now }
        ensures { (result, record_told self.new)
            ≡ register (context_told epoch.now) (record_told self.old) until }
    {
        if until <= epoch.writing() {
            return RegisterAnswer::Past;
        }
        if epoch.moving && self.live(epoch) {
            return RegisterAnswer::MovingExtension;
        }
        *self = self.registered(epoch.epoch, until);
        RegisterAnswer::Registered(self.until)
    }

    /// Enters what a shard of the writing epoch's committee says of the blob.
    pub fn claim(&mut self, epoch: &Epoch, kind: Kind, shard: u16) -> Said
        requires fit { IsFit epoch.now }
        requires shard { shard < committee_size epoch.now.f }
        ensures { (result, record_told self.new)
            ≡ claim kind (context_told epoch.now) (record_told self.old) shard }
    {
        let writing = epoch.writing();
        if self.until <= epoch.epoch {
            return Said::Unregistered;
        }
        if self.until <= writing {
            return Said::Expires;
        }
        let tally = self.tally(kind);
        if tally.has(writing, shard) {
            return Said::Already;
        }
        let voted = tally.voted(epoch.f, writing, epoch.writers(), shard);
        *self = self.with(kind, voted);
        answer_of(epoch.f, voted.count(epoch.f))
    }
}

/// Enters an entry of a blob, by the epoch and the blob's record, and answers as the ledger does
/// that has room.
pub fn enter(epoch: &Epoch, row: &mut Row, body: &Body) -> Answer
    requires fit { IsFit epoch.now }
    requires shard { IsOfCommittee (committee_size epoch.now.f) body.now }
    ensures { (result, record_told row.new)
        ≡ enter (context_told epoch.now) (record_told row.old) body.now }
{
    match body {
        Body::Register { until, .. } => Answer::Registration(row.register(epoch, *until)),
        Body::Ack { shard, .. } => {
            Answer::Acknowledgement(row.claim(epoch, Kind::Holds, *shard).of_ack())
        }
        Body::Attest { shard, .. } => {
            Answer::Attestation(row.claim(epoch, Kind::Denies, *shard).of_attest())
        }
        _ => Answer::Nothing,
    }
}
