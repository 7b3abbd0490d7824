//! What nodes say of one blob in one way, counted by their shards.

ghost use Rattle.std.specs.Prelude.{◌≡◌, ℕ, ◌+◌, ◌^◌, ◌<◌, ◌≤◌, ◌↔◌, List, [], ◌∷◌, ◌++◌, length};
ghost use Rattle.std.specs.Prelude.{All, IsTrue, IfSome, IfNone, cond, nat_eq};
ghost use Rattle.wal_ledger.specs.Shards.{committee_size, quorum_size};
ghost use Rattle.wal_ledger.specs.Ledger.{is_signer_among};
ghost use Rattle.wal_ledger.specs.inside.Claims.{count_among, IsLeastQuorum};
ghost use Rattle.wal_ledger.specs.Within.{IsWithin};
ghost use Rattle.wal_ledger.specs.inside.Tally.{Chain, HasChain, IsTally, Tells, Grows, no_tally};
ghost use Rattle.wal_ledger.specs.inside.Tally.{link_in, quorum_after, tally_after};
ghost use Rattle.wal_shape.specs.Owners.{has_neighbour};

use crate::entry::{Entry, Kind};

/// An epoch in which a quorum signed, and how many shards did.
#[derive(Clone, Copy, Debug)]
pub(crate) struct Quorum {
    pub(crate) epoch: u32,
    pub(crate) count: u32,
}

/// What shards say of one blob in one way.
#[derive(Clone, Copy, Debug)]
pub(crate) struct Tally {
    /// The last epoch in which some node signed, or 0.
    pub(crate) epoch: u32,
    /// How many shards these nodes run.
    pub(crate) count: u32,
    /// One more than the place of the newest of their entries, or 0.
    pub(crate) last: u32,
    /// The least epoch in which a quorum signed.
    pub(crate) quorum: Option<Quorum>,
}

impl Tally {
    /// The tally of a blob of which no shard has said anything.
    pub(crate) fn none() -> Tally
        ensures { result ≡ no_tally }
    {
        Tally {
            epoch: 0,
            count: 0,
            last: 0,
            quorum: None,
        }
    }

    /// How many shards signed in the last epoch so far.
    pub(crate) fn count_in(&self, epoch: u32) -> u32
        ensures value { result ≡ cond (nat_eq self.now.epoch epoch) self.now.count 0 }
        ensures counted { (f first : ℕ) (owners : ℕ → List ℕ) (own : List Entry)
            (kind : Kind) (entries : List Entry) (links : List ℕ)
            → IsTally f owners own kind entries links self.now → All (IsWithin first epoch) own
            → result ≡ count_among f owners own kind epoch }
    {
        if self.epoch == epoch { self.count } else { 0 }
    }

    /// The link of one more entry in the last epoch so far.
    pub(crate) fn link_in(&self, epoch: u32) -> u32
        ensures { result ≡ link_in epoch self.now }
    {
        if self.epoch == epoch { self.last } else { 0 }
    }

    /// Whether a shard's node signed in the last epoch so far, by the owners of that epoch.
    pub(crate) fn is_signer(
        &self,
        entries: &[Entry],
        links: &[u32],
        owners: &[u16],
        kind: Kind,
        epoch: u32,
        shard: u16,
    ) -> bool
        requires { HasChain entries.now links.now kind self.now.last }
        ensures { (f first : ℕ) (owns : ℕ → List ℕ) (own : List Entry)
            → IsTally f owns own kind entries.now links.now self.now
            → All (IsWithin first epoch) own → owns epoch ≡ owners.now
            → result ≡ is_signer_among owners.now own kind epoch shard }
    {
        if self.epoch != epoch {
            return false;
        }
        is_linked(entries, links, owners, kind, self.last, shard)
    }

    /// The least quorum after so many shards signed in the last epoch so far.
    fn quorum_after(&self, f: u32, epoch: u32, count: u32) -> Option<Quorum>
        requires { f ≤ 333 }
        ensures { result ≡ quorum_after f epoch count self.now.quorum }
    {
        match self.quorum {
            Some(quorum) if quorum.epoch != epoch => Some(quorum),
            None if count < 2 * f + 1 => None,
            _ => Some(Quorum { epoch, count }),
        }
    }

    /// The tally after one more node of so many shards signed in the last epoch so far, by an entry
    /// at this place.
    pub(crate) fn after(&self, f: u32, epoch: u32, place: u32, size: u32) -> Tally
        requires faults { f ≤ 333 }
        requires few { self.now.count ≤ committee_size f }
        requires part { size ≤ committee_size f }
        requires place { place + 1 < 2 ^ 32 }
        ensures value { result ≡ tally_after f epoch place size self.now }
        ensures signed { Grows f epoch place size self.now result }
    {
        let count = self.count_in(epoch) + size;
        Tally {
            epoch,
            count,
            last: place + 1,
            quorum: self.quorum_after(f, epoch, count),
        }
    }

    /// The least epoch in which a quorum signed, and how many shards did.
    pub(crate) fn least_quorum(&self) -> Option<(u32, u32)>
        ensures some { Tells self.now (λ f owners own kind.
            IfSome result (λ found. IsLeastQuorum f owners own kind found.0 found.1)) }
        ensures none { Tells self.now (λ f owners own kind.
            IfNone result ((e : ℕ) → count_among f owners own kind e < quorum_size f)) }
    {
        match self.quorum {
            Some(quorum) => Some((quorum.epoch, quorum.count)),
            None => None,
        }
    }

    /// Whether in some epoch a quorum signed.
    pub(crate) fn has_quorum(&self) -> bool
        ensures { Tells self.now (λ f owners own kind. IsTrue result
            ↔ ((e : ℕ) × (quorum_size f ≤ count_among f owners own kind e))) }
    {
        self.quorum.is_some()
    }

    /// Whether in some epoch before this one a quorum signed.
    pub(crate) fn has_quorum_before(&self, epoch: u32) -> bool
        ensures { Tells self.now (λ f owners own kind. IsTrue result
            ↔ ((e : ℕ) × ((e < epoch) × (quorum_size f ≤ count_among f owners own kind e)))) }
    {
        match self.quorum {
            Some(quorum) => quorum.epoch < epoch,
            None => false,
        }
    }
}

/// Whether an entry from a link on, down the links, is by a shard of this shard's node.
fn is_linked(
    entries: &[Entry],
    links: &[u32],
    owners: &[u16],
    kind: Kind,
    link: u32,
    shard: u16,
) -> bool
    requires { HasChain entries.now links.now kind link }
    ensures { (shards : List ℕ) → Chain entries.now links.now kind link shards
        → result ≡ has_neighbour owners.now shards shard }
{
    let mut next = link as usize;
    while next > 0 {
        let place = next - 1;
        if entries[place].body.signs_for(owners, kind, shard) {
            return true;
        }
        next = links[place] as usize;
    }
    false
}
