//! The network: the ledger, what the shards of each committee hold, and the first completed
//! answers.

ghost use Rattle.std.specs.Prelude.{◌≡◌, ◌<◌, ◌≤◌, true};
ghost use Rattle.wal_ledger.specs.Shards.{committee_size};
ghost use Rattle.wal_shape.specs.Owners.{among};
ghost use Rattle.wal_protocol.specs.State.{side_of, is_present, is_correct, writing_side};
ghost use Rattle.wal_world.specs.inside.Books.{ledger_of};
ghost use Rattle.wal_world.specs.inside.Network.{IsNetwork, IsShardOf, world_of};

use crate::books::{Books, faulty_in, ledger_in};
use crate::members::Sides;
use std::collections::BTreeMap;
use wal_frame::OutBuf;
use wal_ledger::Ledger;
use wal_matrix::Work;
use wal_protocol::First;
use wal_shape::{BlobId, Format, Side};
use wal_shard::Shard;
use wal_store::MapKeep;
use wal_tree::Hash32;

/// The ledger, the shards of each committee, and the first completed answer for each blob.
///
/// A faulty shard has a place in its committee, and holds nothing there.
#[derive(Drop)]
pub(crate) struct Network<H: Hash32> {
    /// The format in which blobs are written.
    pub(crate) format: Format,
    /// What the ledger says. It is absent only while the epoch begins to change, or has changed.
    pub(crate) books: Option<Books>,
    /// Whether each committee so far has had at most f faulty shards.
    pub(crate) few: bool,
    /// The shards of both sides.
    pub(crate) sides: Sides<H>,
    /// The first completed answers.
    pub(crate) answers: BTreeMap<BlobId, First>,
    /// The tables and buffers of the calls on slivers.
    pub(crate) work: Work,
    /// Where shards write their replies. It is empty between two events.
    pub(crate) buffer: OutBuf,
}

impl<H: Hash32> Network<H> {
    /// Lends the ledger.
    pub(crate) fn ledger(&self) -> &Ledger
        requires { IsNetwork self.now }
        ensures value { result.now ≡ ledger_of self.now.books }
        ensures log { result.now.log ≡ (world_of self.now).log }
    {
        ledger_in(&self.books)
    }

    /// The most faulty shards of a committee for which all is safe.
    pub(crate) fn f(&self) -> u32
        requires { IsNetwork self.now }
        ensures value { result ≡ (world_of self.now).log.f }
        ensures some { 1 ≤ result }
        ensures few { result ≤ 333 }
    {
        self.ledger().f()
    }

    /// Whether there is a committee of a side.
    pub(crate) fn present(&self, side: Side) -> bool
        requires { IsNetwork self.now }
        ensures { result ≡ is_present side (world_of self.now) }
    {
        match side {
            Side::Now => true,
            Side::Next => self.ledger().moving(),
        }
    }

    /// The committee that takes new blobs.
    pub(crate) fn writing_side(&self) -> Side
        requires { IsNetwork self.now }
        ensures { result ≡ writing_side (world_of self.now) }
    {
        if self.ledger().moving() {
            Side::Next
        } else {
            Side::Now
        }
    }

    /// Whether a shard of a side is faulty.
    pub(crate) fn faulty(&self, side: Side, shard: u16) -> bool
        requires { IsNetwork self.now }
        ensures { result ≡ among (side_of side (world_of self.now)).faulty shard }
    {
        faulty_in(&self.books, side, shard)
    }

    /// Whether a shard of a side is there and correct.
    pub(crate) fn correct(&self, side: Side, shard: u16) -> bool
        requires { IsNetwork self.now }
        ensures { result ≡ is_correct side (world_of self.now) shard }
    {
        self.present(side) && !self.faulty(side, shard)
    }

    /// Lends a shard of a side.
    pub(crate) fn shard(&self, side: Side, shard: u16) -> &Shard<H, MapKeep>
        requires network { IsNetwork self.now }
        requires present { is_present side (world_of self.now) ≡ true }
        requires shard { shard < committee_size (world_of self.now).log.f }
        ensures { IsShardOf side self.now shard result.now }
    {
        let shards = self.sides.of(side).shards.as_slice();
        &shards[usize::from(shard)]
    }
}
