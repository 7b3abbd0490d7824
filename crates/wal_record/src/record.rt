//! The record of one blob.

ghost use Rattle.std.specs.Prelude.{◌≡◌, ℕ, ◌<◌, ◌≤◌, true};
ghost use Rattle.wal_ledger.specs.Shards.{committee_size};
ghost use Rattle.wal_shape.specs.Owners.{are_owners};
ghost use Rattle.wal_record.specs.Bits.{member};
ghost use Rattle.wal_record.specs.Context.{count_of, first_quorum, registered, signed_in, turned, voted};
ghost use Rattle.wal_record.specs.Questions.{votes_in, with_votes};
ghost use Rattle.wal_record.specs.Record.{no_record, no_votes, reached};
ghost use Rattle.wal_record.specs.Told.{quorum_told, record_told, votes_told};

use crate::set::ShardSet;
use wal_ledger::Kind;

/// An epoch in which a quorum signed.
#[derive(Clone, Copy, Debug)]
pub struct Quorum {
    /// The epoch.
    pub epoch: u32,
    /// The shards of the nodes that signed in it.
    pub signed: ShardSet,
}

/// What nodes say of a blob in one way.
#[derive(Clone, Copy, Debug)]
pub struct Tally {
    /// The last epoch in which a node signed, or 0.
    pub epoch: u32,
    /// The shards of the nodes that signed in it.
    pub signed: ShardSet,
    /// The shards of the nodes that signed in the epoch before it.
    pub before: ShardSet,
    /// The first epoch before it in which a quorum signed.
    pub earlier: Option<Quorum>,
}

/// What is kept of a blob.
#[derive(Clone, Copy, Debug)]
pub struct Row {
    /// The epoch until which it is registered, or 0.
    pub until: u32,
    /// Who said that its node holds the blob.
    pub holds: Tally,
    /// Who said that the blob is badly encoded.
    pub denies: Tally,
}

/// An epoch, if those who signed in it are a quorum.
fn reached(f: u32, epoch: u32, signed: &ShardSet) -> Option<Quorum>
    requires { f ≤ 333 }
    ensures { quorum_told result ≡ reached f epoch (member signed.now.words) }
{
    if 2 * f + 1 <= signed.count(3 * f + 1) {
        Some(Quorum {
            epoch,
            signed: *signed,
        })
    } else {
        None
    }
}

impl Tally {
    /// Nobody has signed.
    pub fn none() -> Tally
        ensures { votes_told result ≡ no_votes }
    {
        Tally {
            epoch: 0,
            signed: ShardSet::none(),
            before: ShardSet::none(),
            earlier: None,
        }
    }

    /// How many shards signed in the last epoch.
    pub fn count(&self, f: u32) -> u32
        requires { f ≤ 333 }
        ensures { result ≡ count_of f (votes_told self.now) }
    {
        self.signed.count(3 * f + 1)
    }

    /// The first epoch in which a quorum signed.
    pub fn first_quorum(&self, f: u32) -> Option<Quorum>
        requires { f ≤ 333 }
        ensures { quorum_told result ≡ first_quorum f (votes_told self.now) }
    {
        match self.earlier {
            Some(quorum) => Some(quorum),
            None => reached(f, self.epoch, &self.signed),
        }
    }

    /// Whether a shard's node signed in an epoch, as far as that is the last one.
    pub fn has(&self, epoch: u32, shard: u16) -> bool
        ensures { result ≡ signed_in (votes_told self.now) epoch shard }
    {
        self.epoch == epoch && self.signed.has(shard)
    }

    /// The tally for one more epoch, or the same one.
    fn in_epoch(&self, f: u32, epoch: u32) -> Tally
        requires { f ≤ 333 }
        ensures { votes_told result ≡ turned f epoch (votes_told self.now) }
    {
        if self.epoch == epoch {
            return *self;
        }
        let before = if epoch > 0 && self.epoch == epoch - 1 {
            self.signed
        } else {
            ShardSet::none()
        };
        Tally {
            epoch,
            signed: ShardSet::none(),
            before,
            earlier: self.first_quorum(f),
        }
    }

    /// The tally after the node of a shard signed in an epoch.
    pub fn voted(&self, f: u32, epoch: u32, owners: &[u16], shard: u16) -> Tally
        requires faults { f ≤ 333 }
        requires owners { are_owners (committee_size f) owners.now ≡ true }
        requires shard { shard < committee_size f }
        ensures { votes_told result ≡ voted f epoch owners.now shard (votes_told self.now) }
    {
        let mut tally = self.in_epoch(f, epoch);
        tally.signed.add_node(owners, 3 * f + 1, shard);
        tally
    }
}

impl Row {
    /// Of a blob without entries.
    pub fn none() -> Row
        ensures { record_told result ≡ no_record }
    {
        Row {
            until: 0,
            holds: Tally::none(),
            denies: Tally::none(),
        }
    }

    /// The record after a registration in a reading epoch.
    pub fn registered(&self, epoch: u32, until: u32) -> Row
        ensures { record_told result ≡ registered epoch until (record_told self.now) }
    {
        if self.until <= epoch {
            Row {
                until,
                ..Row::none()
            }
        } else {
            Row {
                until: self.until.max(until),
                ..*self
            }
        }
    }

    /// The tally of a kind.
    pub fn tally(&self, kind: Kind) -> Tally
        ensures { votes_told result ≡ votes_in kind (record_told self.now) }
    {
        match kind {
            Kind::Holds => self.holds,
            Kind::Denies => self.denies,
        }
    }

    /// The record with another tally of a kind.
    pub fn with(&self, kind: Kind, tally: Tally) -> Row
        ensures { record_told result ≡ with_votes kind (votes_told tally) (record_told self.now) }
    {
        match kind {
            Kind::Holds => Row {
                holds: tally,
                ..*self
            },
            Kind::Denies => Row {
                denies: tally,
                ..*self
            },
        }
    }
}
