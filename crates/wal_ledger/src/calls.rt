//! The calls that enter something.

ghost use Rattle.std.specs.Prelude.{◌≡◌, ℕ, ◌+◌, ◌<◌, ◌≤◌, true, false};
ghost use Rattle.wal_ledger.specs.Shards.{committee_size, quorum_size};
ghost use Rattle.wal_ledger.specs.Ledger.{reading, writing, is_moving, owners_of, is_live, signers};
ghost use Rattle.wal_ledger.specs.Ledger.{ready_shards, ready_total, takes_in};
ghost use Rattle.wal_ledger.specs.Kept.{IsLawful, SameEpoch};
ghost use Rattle.wal_ledger.specs.Answers.{claim_of, Registers, Claims, Acks, Attests, Readies};
ghost use Rattle.wal_ledger.specs.declared.entry.Body.TheVariants.{Register, Ready, Begin, Finish};
ghost use Rattle.wal_shape.specs.declared.axis.Side.TheVariants.{Now, Next};
ghost use Rattle.wal_shape.specs.Owners.{are_owners};

use crate::answers::{AckAnswer, AttestAnswer, ClaimAnswer, ReadyAnswer, RegisterAnswer};
use crate::entry::{Body, Entry, Kind};
use crate::ledger::Ledger;
use wal_shape::{BlobId, Shards};

impl Ledger {
    /// Enters what a shard of the committee says of a live blob, for the first time for its node in
    /// this epoch.
    fn enter_claim(&mut self, kind: Kind, shard: u16, id: &BlobId)
        requires shard { shard < committee_size self.old.log.f }
        requires live { is_live self.old.log id.now ≡ true }
        requires first_time { signers self.old.log id.now kind (writing self.old.log) shard
            ≡ false }
        requires room { 0 < self.old.spare }
        ensures entered { self.new ≡ takes_in self.old (claim_of kind shard id.now) }
        ensures same { SameEpoch self.old.log self.new.log }
        ensures lawful { IsLawful self.new.log }
    {
        let epoch = self.writing_epoch();
        let row = self.table.find(id);
        let tally = row.tally(kind);
        let place = self.book.entries().len() as u32;
        let size = self.node_size(shard);
        self.table.set(id, row.with(kind, tally.after(self.f, epoch, place, size)));
        self.book.push(
            Entry {
                epoch,
                body: kind.body(shard, id),
            },
            tally.link_in(epoch),
        );
    }

    /// Enters that a shard is ready, for the first time for its node since the last `Begin`.
    fn enter_ready(&mut self, shard: u16)
        requires shard { shard < committee_size self.old.log.f }
        requires first_time { ready_shards self.old.log shard ≡ false }
        requires room { 0 < self.old.spare }
        ensures entered { self.new ≡ takes_in self.old (Ready shard) }
        ensures same { SameEpoch self.old.log self.new.log }
        ensures lawful { IsLawful self.new.log }
    {
        let epoch = self.writing_epoch();
        let node = self.writer(shard);
        let size = self.node_size(shard);
        self.ready.raise(node);
        self.total += size;
        self.book.push(
            Entry {
                epoch,
                body: Body::Ready { shard },
            },
            0,
        );
    }

    /// Enters a registration.
    fn enter_registration(&mut self, id: &BlobId, until: u32)
        requires room { 0 < self.old.spare }
        requires beyond { writing self.old.log < until }
        ensures entered { self.new ≡ takes_in self.old (Register id.now until) }
        ensures same { SameEpoch self.old.log self.new.log }
        ensures lawful { IsLawful self.new.log }
    {
        let epoch = self.writing_epoch();
        let row = self.table.find(id).registered(self.epoch, until);
        self.table.put(id, row);
        self.book.push(
            Entry {
                epoch,
                body: Body::Register { id: *id, until },
            },
            0,
        );
    }

    /// Registers a blob until an epoch, or extends its registration.
    ///
    /// The first that applies: `Past` if `until` does not exceed the writing epoch,
    /// `MovingExtension` if the epoch is changing and the blob is live, `NoRoom`. A refusal
    /// changes nothing.
    pub fn register(&mut self, id: &BlobId, until: u32) -> RegisterAnswer
        ensures answer { Registers self.old id.now until result self.new }
        ensures same { SameEpoch self.old.log self.new.log }
        ensures lawful { IsLawful self.new.log }
    {
        if until <= self.writing_epoch() {
            return RegisterAnswer::Past;
        }
        if self.moving() && self.live(id) {
            return RegisterAnswer::MovingExtension;
        }
        if self.spare() == 0 {
            return RegisterAnswer::NoRoom;
        }
        self.enter_registration(id, until);
        RegisterAnswer::Registered(self.row(id).until)
    }

    /// Enters what a shard says of a blob, in the writing epoch.
    fn claim(&mut self, kind: Kind, shard: u16, id: &BlobId) -> ClaimAnswer
        requires { shard < committee_size self.old.log.f }
        ensures answer { Claims kind self.old shard id.now result self.new }
        ensures same { SameEpoch self.old.log self.new.log }
        ensures lawful { IsLawful self.new.log }
    {
        let row = self.row(id);
        if row.until <= self.epoch {
            return ClaimAnswer::Unregistered;
        }
        if row.until <= self.writing_epoch() {
            return ClaimAnswer::Expires;
        }
        if self.is_signer(kind, shard, id) {
            return ClaimAnswer::Already;
        }
        if self.spare() == 0 {
            return ClaimAnswer::NoRoom;
        }
        self.enter_claim(kind, shard, id);
        let count = self.count(kind, id);
        if count < self.quorum() {
            ClaimAnswer::Counted(count)
        } else {
            ClaimAnswer::Quorum(count)
        }
    }

    /// Enters, by a shard of the writing epoch's committee, that its node holds the slivers of a
    /// blob for all of its shards. Each of them counts.
    ///
    /// The first that applies: `Unregistered` if the blob is not live, `Expires` if it is not
    /// kept beyond the writing epoch, `Already` if this node acknowledged it in this epoch,
    /// `NoRoom`.
    pub fn ack(&mut self, shard: u16, id: &BlobId) -> AckAnswer
        requires { shard < committee_size self.old.log.f }
        ensures answer { Acks self.old shard id.now result self.new }
        ensures same { SameEpoch self.old.log self.new.log }
        ensures lawful { IsLawful self.new.log }
    {
        match self.claim(Kind::Holds, shard, id) {
            ClaimAnswer::Counted(count) => AckAnswer::Counted(count),
            ClaimAnswer::Quorum(count) => AckAnswer::Certified(count),
            ClaimAnswer::Already => AckAnswer::Already,
            ClaimAnswer::Unregistered => AckAnswer::Unregistered,
            ClaimAnswer::Expires => AckAnswer::Expires,
            ClaimAnswer::NoRoom => AckAnswer::NoRoom,
        }
    }

    /// Enters, by a shard of the writing epoch's committee, that its node has seen a proof that a
    /// blob is badly encoded. Each of the node's shards counts.
    ///
    /// The refusals are those of `ack`.
    pub fn attest(&mut self, shard: u16, id: &BlobId) -> AttestAnswer
        requires { shard < committee_size self.old.log.f }
        ensures answer { Attests self.old shard id.now result self.new }
        ensures same { SameEpoch self.old.log self.new.log }
        ensures lawful { IsLawful self.new.log }
    {
        match self.claim(Kind::Denies, shard, id) {
            ClaimAnswer::Counted(count) => AttestAnswer::Counted(count),
            ClaimAnswer::Quorum(count) => AttestAnswer::Invalid(count),
            ClaimAnswer::Already => AttestAnswer::Already,
            ClaimAnswer::Unregistered => AttestAnswer::Unregistered,
            ClaimAnswer::Expires => AttestAnswer::Expires,
            ClaimAnswer::NoRoom => AttestAnswer::NoRoom,
        }
    }

    /// Enters, by a shard of the next committee, that its node holds what it must for all of its
    /// shards. Each of them counts.
    ///
    /// The first that applies: `Already` if this node is ready, `NoRoom`.
    pub fn ready(&mut self, shard: u16) -> ReadyAnswer
        requires moving { is_moving self.old.log ≡ true }
        requires shard { shard < committee_size self.old.log.f }
        ensures answer { Readies self.old shard result self.new }
        ensures same { SameEpoch self.old.log self.new.log }
        ensures lawful { IsLawful self.new.log }
    {
        if self.is_ready(shard) {
            return ReadyAnswer::Already;
        }
        if self.spare() == 0 {
            return ReadyAnswer::NoRoom;
        }
        self.enter_ready(shard);
        ReadyAnswer::Counted(self.ready_count())
    }

    /// Begins to change the epoch, to a committee whose shards these nodes run. Takes no memory.
    pub fn begin(&mut self, owners: Shards)
        requires serving { is_moving self.old.log ≡ false }
        requires last { reading self.old.log < 65535 }
        requires room { 0 < self.old.spare }
        requires owners { are_owners (committee_size self.old.log.f) owners ≡ true }
        ensures entered { self.new ≡ takes_in self.old (Begin owners) }
        ensures moving { is_moving self.new.log ≡ true }
        ensures epoch { reading self.new.log ≡ reading self.old.log }
        ensures now { owners_of Now self.new.log ≡ owners_of Now self.old.log }
        ensures next { owners_of Next self.new.log ≡ owners }
        ensures lawful { IsLawful self.new.log }
    {
        let epoch = self.writing_epoch();
        self.moving = true;
        self.writes_at = self.book.entries().len() as u32 + 1;
        self.ready.clear();
        self.total = 0;
        self.book.push(
            Entry {
                epoch,
                body: Body::Begin { owners },
            },
            0,
        );
    }

    /// Ends the change: the next epoch becomes the reading one.
    pub fn finish(&mut self)
        requires moving { is_moving self.old.log ≡ true }
        requires quorum { quorum_size self.old.log.f ≤ ready_total self.old.log }
        requires room { 0 < self.old.spare }
        ensures entered { self.new ≡ takes_in self.old Finish }
        ensures serving { is_moving self.new.log ≡ false }
        ensures epoch { reading self.new.log ≡ reading self.old.log + 1 }
        ensures owners { owners_of Now self.new.log ≡ owners_of Next self.old.log }
        ensures lawful { IsLawful self.new.log }
    {
        let epoch = self.writing_epoch();
        self.epoch += 1;
        self.table.retire(self.epoch);
        self.moving = false;
        self.reads_at = self.writes_at;
        self.book.push(
            Entry {
                epoch,
                body: Body::Finish,
            },
            0,
        );
    }
}
