//! The state while the epoch changes.

ghost use Rattle.std.specs.Prelude.{◌≡◌, ℕ, ◌<◌, List, true};
ghost use Rattle.wal_ledger.specs.Shards.{committee_size};
ghost use Rattle.wal_ledger.specs.Kept.{IsLawful, SameEpoch};
ghost use Rattle.wal_ledger.specs.Answers.{Registers, Acks, Attests, Readies};
ghost use Rattle.wal_shape.specs.Owners.{among};
ghost use Rattle.wal_epoch.specs.States.{MovingState, IsMoving, faulty_of, is_carried_in};
ghost use Rattle.wal_epoch.specs.Moves.{FinishesEpoch};

use crate::answers::FinishError;
use crate::committee::among;
use crate::serving::Serving;
use std::marker::Model;
use wal_ledger::{AckAnswer, AttestAnswer, Ledger, ReadyAnswer, RegisterAnswer};
use wal_shape::{BlobId, Shards, Side};

/// The epoch changes: the ledger, the faulty shards of both committees, and the shards that stay.
///
/// No call takes memory.
#[derive(Debug, Drop)]
pub struct Moving {
    ledger: Ledger,
    faulty_now: Shards,
    faulty_next: Shards,
    stays: Shards,
}

impl Model for Moving {
    ghost Value = { MovingState };

    ghost view = { λ m. record {
      ledger = m.ledger;
      faulty_now = m.faulty_now;
      faulty_next = m.faulty_next;
      stays = m.stays;
    } };

    ghost invariant = { λ m. IsMoving m.ledger.log m.faulty_now m.faulty_next m.stays };
}

impl Moving {
    /// The state with these parts.
    pub(crate) fn of(
        ledger: Ledger,
        faulty_now: Shards,
        faulty_next: Shards,
        stays: Shards,
    ) -> Moving
        requires { IsMoving ledger.log faulty_now faulty_next stays }
        ensures { result ≡ record {
          ledger = ledger;
          faulty_now = faulty_now;
          faulty_next = faulty_next;
          stays = stays;
        } }
    {
        Moving {
            ledger,
            faulty_now,
            faulty_next,
            stays,
        }
    }

    /// Lends the ledger.
    pub fn ledger(&self) -> &Ledger
        ensures value { result.now ≡ self.now.ledger }
        ensures moves { IsMoving self.now.ledger.log
            self.now.faulty_now self.now.faulty_next self.now.stays }
        ensures lawful { IsLawful self.now.ledger.log }
    {
        &self.ledger
    }

    /// The most faulty shards of a committee.
    pub fn f(&self) -> u32
        ensures value { result ≡ self.now.ledger.log.f }
        ensures lawful { IsLawful self.now.ledger.log }
    {
        self.ledger.f()
    }

    /// Whether a shard of a side is faulty.
    pub fn faulty(&self, side: Side, shard: u16) -> bool
        ensures value { result ≡ among (faulty_of side self.now) shard }
        ensures lawful { IsLawful self.now.ledger.log }
    {
        match side {
            Side::Now => among(&self.faulty_now, shard),
            Side::Next => among(&self.faulty_next, shard),
        }
    }

    /// Whether a shard takes what it holds into the next epoch: it stays, is correct in both
    /// committees, and has the same node in both.
    pub fn carried(&self, shard: u16) -> bool
        ensures value { result ≡ is_carried_in self.now shard }
        ensures lawful { IsLawful self.now.ledger.log }
    {
        if !among(&self.stays, shard) {
            return false;
        }
        let correct = !among(&self.faulty_now, shard) && !among(&self.faulty_next, shard);
        correct && self.ledger.node(Side::Now, shard) == self.ledger.node(Side::Next, shard)
    }

    /// The ledger's `register`.
    pub fn register(&mut self, id: &BlobId, until: u32) -> RegisterAnswer
        ensures answer { Registers self.old.ledger id.now until result self.new.ledger }
        ensures same { SameEpoch self.old.ledger.log self.new.ledger.log }
        ensures rest { self.new ≡ record self.old { ledger = self.new.ledger } }
        ensures lawful { IsLawful self.new.ledger.log }
    {
        self.ledger.register(id, until)
    }

    /// The ledger's `ack`.
    pub fn ack(&mut self, shard: u16, id: &BlobId) -> AckAnswer
        requires { shard < committee_size self.old.ledger.log.f }
        ensures answer { Acks self.old.ledger shard id.now result self.new.ledger }
        ensures same { SameEpoch self.old.ledger.log self.new.ledger.log }
        ensures rest { self.new ≡ record self.old { ledger = self.new.ledger } }
        ensures lawful { IsLawful self.new.ledger.log }
    {
        self.ledger.ack(shard, id)
    }

    /// The ledger's `attest`.
    pub fn attest(&mut self, shard: u16, id: &BlobId) -> AttestAnswer
        requires { shard < committee_size self.old.ledger.log.f }
        ensures answer { Attests self.old.ledger shard id.now result self.new.ledger }
        ensures same { SameEpoch self.old.ledger.log self.new.ledger.log }
        ensures rest { self.new ≡ record self.old { ledger = self.new.ledger } }
        ensures lawful { IsLawful self.new.ledger.log }
    {
        self.ledger.attest(shard, id)
    }

    /// The ledger's `ready`.
    pub fn ready(&mut self, shard: u16) -> ReadyAnswer
        requires { shard < committee_size self.old.ledger.log.f }
        ensures answer { Readies self.old.ledger shard result self.new.ledger }
        ensures same { SameEpoch self.old.ledger.log self.new.ledger.log }
        ensures rest { self.new ≡ record self.old { ledger = self.new.ledger } }
        ensures lawful { IsLawful self.new.ledger.log }
    {
        self.ledger.ready(shard)
    }

    /// Ends the change: the next committee serves.
    ///
    /// The first that applies: `Waiting` if fewer than `2f + 1` shards are ready, `NoRoom`, with
    /// the same state.
    pub fn finish(self) -> Result<Serving, (Moving, FinishError)>
        ensures { FinishesEpoch self result }
    {
        let ready = self.ledger.ready_count();
        if ready < 2 * self.ledger.f() + 1 {
            return Err((self, FinishError::Waiting(ready)));
        }
        if self.ledger.spare() == 0 {
            return Err((self, FinishError::NoRoom));
        }
        let Moving {
            mut ledger,
            faulty_next,
            ..
        } = self;
        ledger.finish();
        Ok(Serving::of(ledger, faulty_next))
    }
}
