//! The state between two changes of the epoch.

ghost use Rattle.std.specs.Prelude.{◌≡◌, ℕ, ◌<◌, List, false};
ghost use Rattle.wal_ledger.specs.Shards.{committee_size};
ghost use Rattle.wal_ledger.specs.Ledger.{is_moving};
ghost use Rattle.wal_ledger.specs.Kept.{IsLawful, SameEpoch};
ghost use Rattle.wal_ledger.specs.Answers.{Registers, Acks, Attests};
ghost use Rattle.wal_shape.specs.Owners.{among};
ghost use Rattle.wal_epoch.specs.States.{ServingState, IsServing};
ghost use Rattle.wal_epoch.specs.Moves.{Creates, Begins};

use crate::answers::{BeginError, CreateError};
use crate::committee::{Committee, among};
use crate::moving::Moving;
use std::alloc::Global;
use std::marker::Model;
use wal_ledger::{AckAnswer, AttestAnswer, Ledger, RegisterAnswer};
use wal_shape::{BlobId, Shards, is_ascending, is_committee};

/// The last epoch.
const LAST_EPOCH: u32 = 65535;

/// One committee serves: the ledger, and the committee's faulty shards.
///
/// Only `create` takes memory.
#[derive(Debug, Drop)]
pub struct Serving {
    ledger: Ledger,
    faulty: Shards,
}

impl Model for Serving {
    ghost Value = { ServingState };

    ghost view = { λ s. record { ledger = s.ledger; faulty = s.faulty } };

    ghost invariant = { λ s. IsServing s.ledger.log s.faulty };
}

impl Serving {
    /// An empty ledger with room for so many entries, in this epoch, and its committee: the node
    /// that runs each shard, and the faulty shards.
    ///
    /// The first that applies: `BadFaults`, `BadEpoch`, `BadCommittee`, `Memory`.
    pub fn create(
        alloc: Global,
        f: u32,
        epoch: u32,
        owners: Shards,
        faulty: Shards,
        room: u32,
    ) -> Result<Serving, CreateError>
        ensures { Creates f epoch owners faulty room result }
    {
        if f < 1 || f > 333 {
            return Err(CreateError::BadFaults);
        }
        if epoch > LAST_EPOCH {
            return Err(CreateError::BadEpoch);
        }
        if !is_committee(&owners, &faulty, 3 * f + 1) {
            return Err(CreateError::BadCommittee);
        }
        match Ledger::create(alloc, f, epoch, owners, room) {
            Ok(ledger) => Ok(Serving { ledger, faulty }),
            Err(_) => Err(CreateError::Memory),
        }
    }

    /// The state with these parts.
    pub(crate) fn of(ledger: Ledger, faulty: Shards) -> Serving
        requires { IsServing ledger.log faulty }
        ensures { result ≡ record { ledger = ledger; faulty = faulty } }
    {
        Serving { ledger, faulty }
    }

    /// Lends the ledger.
    pub fn ledger(&self) -> &Ledger
        ensures value { result.now ≡ self.now.ledger }
        ensures serves { IsServing self.now.ledger.log self.now.faulty }
        ensures lawful { IsLawful self.now.ledger.log }
    {
        &self.ledger
    }

    /// The most faulty shards of a committee.
    pub fn f(&self) -> u32
        ensures value { result ≡ self.now.ledger.log.f }
        ensures lawful { IsLawful self.now.ledger.log }
    {
        self.ledger.f()
    }

    /// Whether a shard is faulty.
    pub fn faulty(&self, shard: u16) -> bool
        ensures value { result ≡ among self.now.faulty shard }
        ensures lawful { IsLawful self.now.ledger.log }
    {
        among(&self.faulty, shard)
    }

    /// The ledger's `register`.
    pub fn register(&mut self, id: &BlobId, until: u32) -> RegisterAnswer
        ensures answer { Registers self.old.ledger id.now until result self.new.ledger }
        ensures same { SameEpoch self.old.ledger.log self.new.ledger.log }
        ensures faulty { self.new.faulty ≡ self.old.faulty }
        ensures lawful { IsLawful self.new.ledger.log }
    {
        self.ledger.register(id, until)
    }

    /// The ledger's `ack`.
    pub fn ack(&mut self, shard: u16, id: &BlobId) -> AckAnswer
        requires { shard < committee_size self.old.ledger.log.f }
        ensures answer { Acks self.old.ledger shard id.now result self.new.ledger }
        ensures same { SameEpoch self.old.ledger.log self.new.ledger.log }
        ensures faulty { self.new.faulty ≡ self.old.faulty }
        ensures lawful { IsLawful self.new.ledger.log }
    {
        self.ledger.ack(shard, id)
    }

    /// The ledger's `attest`.
    pub fn attest(&mut self, shard: u16, id: &BlobId) -> AttestAnswer
        requires { shard < committee_size self.old.ledger.log.f }
        ensures answer { Attests self.old.ledger shard id.now result self.new.ledger }
        ensures same { SameEpoch self.old.ledger.log self.new.ledger.log }
        ensures faulty { self.new.faulty ≡ self.old.faulty }
        ensures lawful { IsLawful self.new.ledger.log }
    {
        self.ledger.attest(shard, id)
    }

    /// Begins to change the epoch to a next committee.
    ///
    /// The first that applies: `LastEpoch`, `BadCommittee`, `NoRoom`, with the same state.
    pub fn begin(self, committee: Committee) -> Result<Moving, (Serving, BeginError)>
        ensures { Begins self committee.owners committee.faulty committee.stays result }
    {
        if self.ledger.epoch() == LAST_EPOCH {
            return Err((self, BeginError::LastEpoch));
        }
        let n = 3 * self.ledger.f() + 1;
        if !is_committee(&committee.owners, &committee.faulty, n)
            || !is_ascending(&committee.stays, n)
        {
            return Err((self, BeginError::BadCommittee));
        }
        if self.ledger.spare() == 0 {
            return Err((self, BeginError::NoRoom));
        }
        let Serving { mut ledger, faulty } = self;
        let Committee {
            owners,
            faulty: faulty_next,
            stays,
        } = committee;
        ledger.begin(owners);
        Ok(Moving::of(ledger, faulty, faulty_next, stays))
    }
}
