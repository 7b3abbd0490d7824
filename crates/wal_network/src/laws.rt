//! Laws of every network.

ghost use Rattle.std.specs.Prelude.{ℕ, ◌≤◌};
ghost use Rattle.wal_theorem.specs.Instance.{rules_of};
ghost use Rattle.wal_network.specs.Network.{Network, IsHistory};
ghost use Rattle.wal_network.specs.AsRun.{IsRunOfWorld};
ghost use Rattle.wal_network.specs.Promised.{AnswersAgree, CanCertify, IsSafeNetwork};

use wal_tree::Hash32;

/// A network in which correct shards act by what they know, and in which each entry that counts is
/// backed where it lands, is safe at each of its prefixes, whatever faulty shards and writers do
/// and in whatever order; and it is a run of the world of schedules.
pub fn every_network<H: Hash32>()
    ensures safe { (network : Network) (size : ℕ)
        → IsHistory (rules_of H.digest network.start.f) network size
        → IsSafeNetwork (rules_of H.digest network.start.f) network size }
    ensures run { (network : Network) (size : ℕ)
        → IsHistory (rules_of H.digest network.start.f) network size
        → IsRunOfWorld (rules_of H.digest network.start.f) network size }
{}

/// Completed answers for one blob, of reads of whatever was heard anywhere and of honest writes,
/// agree, or what they rest on contradicts itself: it is what `evidences`, `blob_and_evidence` and
/// `blobs` of `wal_extract` take, and make two texts with one digest of.
pub fn every_answer<H: Hash32>()
    ensures agree { (f : ℕ) → AnswersAgree H.digest f }
{}

/// Each blob has a history in which it is certified and no shard is faulty: so what is said of the
/// certified blobs of every history is not said of none.
pub fn every_blob<H: Hash32>()
    ensures certified { (f : ℕ) → 1 ≤ f → f ≤ 333 → CanCertify (rules_of H.digest f) }
{}
