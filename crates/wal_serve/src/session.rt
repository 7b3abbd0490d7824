//! A session: one shard that is served, the ledger beside it, and the memory for its work.

ghost use Rattle.std.specs.Prelude.{◌≡◌};

use wal_epoch::Serving;
use wal_matrix::Work;
use wal_shard::Shard;
use wal_store::Keep;
use wal_tree::Hash32;

/// What serves one shard: the shard, the ledger beside it, and the memory for its work, all of one
/// number of faults.
#[derive(Drop)]
pub(crate) struct Session<'a, H: Hash32, K: Keep> {
    pub(crate) shard: &'a mut Shard<H, K>,
    pub(crate) state: &'a mut Serving,
    pub(crate) work: &'a mut Work,
    ghost of_ledger: { state.now.ledger.log.f ≡ shard.now.f },
    ghost of_work: { work.now.f ≡ shard.now.f },
}

impl<'a, H: Hash32, K: Keep> Session<'a, H, K> {
    /// Lends all three to a session, at one lifetime.
    pub(crate) fn new(
        shard: &'a mut Shard<H, K>,
        state: &'a mut Serving,
        work: &'a mut Work,
    ) -> Session<'a, H, K>
        requires ledger { state.old.ledger.log.f ≡ shard.old.f }
        requires work { work.old.f ≡ shard.old.f }
        ensures shard { (result.shard.ghost_name ≡ shard.entry.ghost_name)
            × (result.shard.now ≡ shard.old) }
        ensures state { (result.state.ghost_name ≡ state.entry.ghost_name)
            × (result.state.now ≡ state.old) }
        ensures work { (result.work.ghost_name ≡ work.entry.ghost_name)
            × (result.work.now ≡ work.old) }
    {
        Session { shard, state, work }
    }
}
