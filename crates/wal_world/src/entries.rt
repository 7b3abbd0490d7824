//! Registrations, and what the ledger tells of a blob.

ghost use Rattle.std.specs.Prelude.{◌≡◌, ℕ, ◌+◌, ◌<◌, ◌≤◌, true};
ghost use Rattle.wal_ledger.specs.Answers.{Registers};
ghost use Rattle.wal_ledger.specs.Shards.{committee_size};
ghost use Rattle.wal_world.specs.inside.Books.{ledger_of};
ghost use Rattle.wal_world.specs.inside.Network.{IsNetwork, capacity_of, spare_of, world_of};
ghost use Rattle.wal_protocol.specs.State.{holders, is_present, settled_in, side_of};
ghost use Rattle.wal_protocol.specs.Step.{CertificateStep, RegisterStep};

use crate::books::register_in;
use crate::network::Network;
use wal_event::{CertificateWord, RegisterWord};
use wal_ledger::RegisterAnswer;
use wal_shape::{BlobId, Side};
use wal_tree::Hash32;

impl<H: Hash32> Network<H> {
    /// Enters a registration, if the ledger allows it.
    #[tactic(auto, using(crate::proofs::Entering::entered_is, crate::proofs::Entering::entered_world))]
    fn enter_registration(&mut self, id: &BlobId, until: u32) -> RegisterAnswer
        requires { IsNetwork self.old }
        ensures answer { Registers (ledger_of self.old.books)
            id.now until result (ledger_of self.new.books) }
        ensures network { IsNetwork self.new }
        ensures world { world_of self.new
            ≡ record (world_of self.old) { log = (ledger_of self.new.books).log } }
    {
        register_in(&mut self.books, id, until)
    }

    /// A registration.
    #[tactic(auto, using(crate::proofs::Entering::same_world, crate::proofs::Entering::room_taken))]
    pub(crate) fn register(&mut self, id: &BlobId, until: u32) -> RegisterWord
        requires network { IsNetwork self.old }
        requires room { 0 < spare_of self.old }
        ensures step { RegisterStep (world_of self.old) id.now until result (world_of self.new) }
        ensures network { IsNetwork self.new }
        ensures spare { spare_of self.old ≤ spare_of self.new + 1 }
        ensures capacity { capacity_of self.new ≡ capacity_of self.old }
    {
        match self.enter_registration(id, until) {
            RegisterAnswer::Registered(most) => RegisterWord::Until(most),
            RegisterAnswer::Past => RegisterWord::RefusedPast,
            RegisterAnswer::MovingExtension => RegisterWord::RefusedMoving,
            RegisterAnswer::NoRoom => unreachable!(),
        }
    }

    /// The certificate of a blob.
    pub(crate) fn certificate(&self, id: &BlobId) -> CertificateWord
        requires { IsNetwork self.now }
        ensures { CertificateStep (world_of self.now) id.now result }
    {
        let ledger = self.ledger();
        match ledger.certificate(id) {
            Some((epoch, count)) => CertificateWord::Certified { epoch, count },
            None => CertificateWord::Pending(ledger.acks(id)),
        }
    }

    /// The number of shards of a committee.
    pub(crate) fn size(&self) -> u16
        requires { IsNetwork self.now }
        ensures value { result ≡ committee_size (world_of self.now).log.f }
        ensures most { result ≤ 1000 }
    {
        (3 * self.f() + 1) as u16
    }

    /// Whether a shard is correct and settled for a blob.
    #[tactic(auto, using(wal_protocol::proofs::Lookups::held_is))]
    fn holds(&self, side: Side, shard: u16, id: &BlobId) -> bool
        requires network { IsNetwork self.now }
        requires present { is_present side (world_of self.now) ≡ true }
        requires shard { shard < committee_size (world_of self.now).log.f }
        ensures { result ≡ settled_in (side_of side (world_of self.now)) id.now shard }
    {
        !self.faulty(side, shard) && self.shard(side, shard).settled(id)
    }

    /// How many shards of the home committee hold a blob.
    pub(crate) fn holders(&self, id: &BlobId) -> u32
        requires { IsNetwork self.now }
        ensures { result ≡ holders (world_of self.now) id.now }
    {
        let home = self.ledger().home(id);
        let mut count = 0;
        for shard in 0..self.size() {
            if self.holds(home, shard, id) {
                count += 1;
            }
        }
        count
    }
}
