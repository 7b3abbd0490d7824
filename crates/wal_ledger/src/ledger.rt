//! The ledger and its queries.

ghost use Rattle.std.specs.Prelude.{◌≡◌, ℕ, ◌+◌, ◌^◌, ◌<◌, ◌≤◌, ◌↔◌, List, [], cond, IsTrue, IfOk};
ghost use Rattle.std.specs.Prelude.{IfSome, IfNone, Contains, Some, None, true, length, slice_get};
ghost use Rattle.wal_ledger.specs.Shards.{committee_size, count_below, quorum_size};
ghost use Rattle.wal_ledger.specs.Ledger.{LedgerState, acknowledgers, reading, writing, is_moving};
ghost use Rattle.wal_ledger.specs.Ledger.{owners_at, owners_of, is_live, until_of, own_entries};
ghost use Rattle.wal_ledger.specs.Ledger.{signer_count, signers, ready_shards, ready_total};
ghost use Rattle.wal_ledger.specs.Ledger.{live_ids, home_of, IsCertified, IsInvalid, MustHold};
ghost use Rattle.wal_ledger.specs.Kept.{IsLawful};
ghost use Rattle.wal_ledger.specs.inside.Kept.{IsKept, log_of};
ghost use Rattle.wal_ledger.specs.declared.entry.Kind.TheVariants.{Holds};
ghost use Rattle.wal_ledger.specs.Answers.{IsCertificate};
ghost use Rattle.wal_ledger.specs.Order.{Ascends};
ghost use Rattle.wal_ledger.specs.inside.Tally.{node_size};
ghost use Rattle.wal_shape.specs.declared.metadata.BlobId.{BlobId};
ghost use Rattle.wal_shape.specs.declared.axis.Side.TheVariants.{Now, Next};
ghost use Rattle.wal_shape.specs.Owners.{are_owners, node_of};

use crate::book::Book;
use crate::entry::Kind;
use crate::flags::Flags;
use crate::owners::{node_size, owners_at};
use crate::rows::{Row, Table};
use std::alloc::{AllocError, Global};
use std::marker::Model;
use wal_shape::{BlobId, Shards, Side, node_of};

/// The list of entries, and what is kept beside it.
///
/// Only `create` takes memory.
#[derive(Debug, Drop)]
pub struct Ledger {
    pub(crate) f: u32,
    pub(crate) first: u32,
    /// The node that runs each shard of the first committee.
    pub(crate) owners: Shards,
    /// The reading epoch.
    pub(crate) epoch: u32,
    pub(crate) moving: bool,
    /// Where the owners of the reading epoch stand: one more than the place of their `Begin`, or 0.
    pub(crate) reads_at: u32,
    /// Where the owners of the writing epoch stand.
    pub(crate) writes_at: u32,
    pub(crate) book: Book,
    /// Every identifier that was registered, with what its own entries tell.
    pub(crate) table: Table,
    /// The nodes that have been ready since the last `Begin`.
    pub(crate) ready: Flags,
    /// How many shards they run.
    pub(crate) total: u32,
}

impl Model for Ledger {
    ghost Value = { LedgerState };

    ghost view = { λ l. record { log = log_of l.f l.first l.owners l.book; spare = l.book.spare } };

    ghost invariant = { λ l.
        IsKept (log_of l.f l.first l.owners l.book) l.book.spare l.book.links
        l.epoch l.moving l.reads_at l.writes_at l.table l.ready l.total };
}

impl Ledger {
    ghost use Rattle.wal_ledger.specs.inside.Rows.{IsRow};

    /// An empty ledger that begins to serve in this epoch, by these nodes of the shards of its
    /// committee, and has room for so many entries.
    pub fn create(
        alloc: Global,
        f: u32,
        epoch: u32,
        owners: Shards,
        room: u32,
    ) -> Result<Ledger, AllocError>
        requires some_faults { 1 ≤ f }
        requires few_faults { f ≤ 333 }
        requires epoch { epoch ≤ 65535 }
        requires owners { are_owners (committee_size f) owners ≡ true }
        ensures value { IfOk result (λ ledger. ledger ≡ record {
          log = record { f = f; first = epoch; owners = owners; entries = [] };
          spare = room;
        }) }
        ensures lawful { IfOk result (λ ledger. IsLawful ledger.log) }
    {
        Ok(Ledger {
            f,
            first: epoch,
            owners,
            epoch,
            moving: false,
            reads_at: 0,
            writes_at: 0,
            book: Book::create(alloc, room)?,
            table: Table::create(alloc, room)?,
            ready: Flags::create(alloc, 3 * f + 1)?,
            total: 0,
        })
    }

    /// The most faulty shards of a committee.
    pub fn f(&self) -> u32
        ensures value { result ≡ self.now.log.f }
        ensures lawful { IsLawful self.now.log }
    {
        self.f
    }

    /// How many more entries fit.
    pub fn spare(&self) -> u32
        ensures value { result ≡ self.now.spare }
        ensures lawful { IsLawful self.now.log }
    {
        self.book.spare()
    }

    /// The reading epoch.
    pub fn epoch(&self) -> u32
        ensures value { result ≡ reading self.now.log }
        ensures lawful { IsLawful self.now.log }
    {
        self.epoch
    }

    /// Whether the epoch is changing.
    pub fn moving(&self) -> bool
        ensures value { result ≡ is_moving self.now.log }
        ensures lawful { IsLawful self.now.log }
    {
        self.moving
    }

    /// The writing epoch: the next one while the epoch is changing, else the reading one.
    pub fn writing_epoch(&self) -> u32
        ensures value { result ≡ writing self.now.log }
        ensures lawful { IsLawful self.now.log }
    {
        self.epoch + u32::from(self.moving)
    }

    /// The nodes that run the shards of the reading epoch's committee.
    fn readers(&self) -> &[u16]
        ensures value { result.now ≡ owners_of Now self.now.log }
        ensures owned { are_owners (committee_size self.now.log.f) result.now ≡ true }
        ensures lawful { IsLawful self.now.log }
    {
        owners_at(&self.owners, self.book.entries(), self.reads_at)
    }

    /// The nodes that run the shards of the writing epoch's committee.
    fn writers(&self) -> &[u16]
        ensures value { result.now ≡ owners_of Next self.now.log }
        ensures owned { are_owners (committee_size self.now.log.f) result.now ≡ true }
        ensures few { length result.now ≤ 1000 }
        ensures lawful { IsLawful self.now.log }
    {
        owners_at(&self.owners, self.book.entries(), self.writes_at)
    }

    /// The node that runs a shard of a side's committee.
    pub fn node(&self, side: Side, shard: u16) -> u16
        requires shard { shard < committee_size self.now.log.f }
        requires moving { side ≡ Next → is_moving self.now.log ≡ true }
        ensures value { result ≡ node_of (owners_of side self.now.log) shard }
        ensures lawful { IsLawful self.now.log }
    {
        match side {
            Side::Now => node_of(self.readers(), shard),
            Side::Next => node_of(self.writers(), shard),
        }
    }

    /// The node that runs a shard of the writing epoch's committee.
    pub(crate) fn writer(&self, shard: u16) -> u16
        requires { shard < committee_size self.now.log.f }
        ensures value { result ≡ node_of (owners_of Next self.now.log) shard }
        ensures below { result < committee_size self.now.log.f }
    {
        node_of(self.writers(), shard)
    }

    /// How many shards of the writing epoch's committee the node of this shard runs.
    pub(crate) fn node_size(&self, shard: u16) -> u32
        ensures { result ≡ node_size self.now.log.f (owners_of Next self.now.log) shard }
    {
        node_size(self.writers(), shard)
    }

    /// What is kept of a blob.
    pub(crate) fn row(&self, id: &BlobId) -> Row
        ensures until { result.until ≡ until_of self.now.log id.now }
        ensures row { (links : List ℕ)
            × IsRow self.now.log.f (owners_at self.now.log)
            (own_entries self.now.log id.now) self.now.log.entries links result }
    {
        self.table.find(id)
    }

    /// How many shards say this of a blob in the writing epoch.
    pub(crate) fn count(&self, kind: Kind, id: &BlobId) -> u32
        ensures value { result ≡ signer_count self.now.log id.now kind (writing self.now.log) }
        ensures lawful { IsLawful self.now.log }
    {
        let row = self.table.find(id);
        row.tally(kind).count_in(self.writing_epoch())
    }

    /// Whether a shard's node says this of a blob in the writing epoch.
    pub(crate) fn is_signer(&self, kind: Kind, shard: u16, id: &BlobId) -> bool
        ensures { result ≡ signers self.now.log id.now kind (writing self.now.log) shard }
    {
        let row = self.table.find(id);
        row.tally(kind).is_signer(
            self.book.entries(),
            self.book.links(),
            self.writers(),
            kind,
            self.writing_epoch(),
            shard,
        )
    }

    /// How many shards are a quorum.
    pub(crate) fn quorum(&self) -> u32
        ensures { result ≡ quorum_size self.now.log.f }
    {
        2 * self.f + 1
    }

    /// Whether the blob is live: registered until after the reading epoch.
    pub fn live(&self, id: &BlobId) -> bool
        ensures value { result ≡ is_live self.now.log id.now }
        ensures lawful { IsLawful self.now.log }
    {
        self.row(id).until > self.epoch
    }

    /// The epoch until which a live blob is registered.
    pub fn until(&self, id: &BlobId) -> Option<u32>
        ensures value { result
            ≡ cond (is_live self.now.log id.now) (Some (until_of self.now.log id.now)) None }
        ensures lawful { IsLawful self.now.log }
    {
        let until = self.row(id).until;
        if until > self.epoch {
            Some(until)
        } else {
            None
        }
    }

    /// How many shards have acknowledged the blob in the writing epoch.
    pub fn acks(&self, id: &BlobId) -> u32
        ensures value { result
            ≡ count_below (committee_size self.now.log.f)
            (acknowledgers self.now.log id.now (writing self.now.log)) }
        ensures lawful { IsLawful self.now.log }
    {
        self.count(Kind::Holds, id)
    }

    /// The least epoch in which a quorum acknowledged a live blob, and how many shards did.
    pub fn certificate(&self, id: &BlobId) -> Option<(u32, u32)>
        ensures some { IfSome result (λ found. IsCertificate self.now.log id.now found.0 found.1) }
        ensures none { IfNone result (IsCertified self.now.log id.now → ⊥) }
        ensures lawful { IsLawful self.now.log }
    {
        let row = self.row(id);
        if row.until <= self.epoch {
            return None;
        }
        row.holds.least_quorum()
    }

    /// Whether a quorum attested in one epoch that a live blob is invalid.
    pub fn invalid(&self, id: &BlobId) -> bool
        ensures value { IsTrue result ↔ IsInvalid self.now.log id.now }
        ensures lawful { IsLawful self.now.log }
    {
        let row = self.row(id);
        row.until > self.epoch && row.denies.has_quorum()
    }

    /// Which committee answers for the blob.
    pub fn home(&self, id: &BlobId) -> Side
        ensures value { result ≡ home_of self.now.log id.now }
        ensures lawful { IsLawful self.now.log }
    {
        if self.moving && self.count(Kind::Holds, id) >= self.quorum() {
            Side::Next
        } else {
            Side::Now
        }
    }

    /// Whether a shard of the next committee needs the blob's slivers to be ready.
    pub fn must_hold(&self, id: &BlobId) -> bool
        ensures value { IsTrue result ↔ MustHold self.now.log id.now }
        ensures lawful { IsLawful self.now.log }
    {
        if !self.moving {
            return false;
        }
        let epoch = self.writing_epoch();
        let row = self.row(id);
        row.until > epoch && row.holds.has_quorum_before(epoch)
    }

    /// Whether a shard's node has been ready since the last `Begin`.
    pub(crate) fn is_ready(&self, shard: u16) -> bool
        requires { shard < committee_size self.now.log.f }
        ensures value { result ≡ ready_shards self.now.log shard }
        ensures lawful { IsLawful self.now.log }
    {
        self.ready.is_up(self.writer(shard))
    }

    /// How many shards have been ready since the last `Begin`.
    pub fn ready_count(&self) -> u32
        ensures value { result ≡ ready_total self.now.log }
        ensures lawful { IsLawful self.now.log }
    {
        self.total
    }

    /// How many blobs are live.
    pub fn live_count(&self) -> u32
        ensures value { result ≡ length (live_ids self.now.log) }
        ensures ascends { Ascends (live_ids self.now.log) }
        ensures complete { (id : BlobId) → is_live self.now.log id ≡ true
            → Contains (live_ids self.now.log) id }
        ensures lawful { IsLawful self.now.log }
    {
        self.table.live_len()
    }

    /// The live blob at this place, in ascending order of the 32 bytes from the first on.
    pub fn live_at(&self, place: u32) -> BlobId
        requires { place < length (live_ids self.now.log) }
        ensures value { slice_get (live_ids self.now.log) place ≡ Some result }
        ensures lawful { IsLawful self.now.log }
    {
        self.table.live_at(place as usize)
    }
}
