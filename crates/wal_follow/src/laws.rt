//! What is kept follows the ledger.

ghost use Rattle.std.specs.Prelude.{ℕ, ◌<◌, List, length};
ghost use Rattle.wal_shape.specs.declared.metadata.BlobId.{BlobId};
ghost use Rattle.wal_ledger.specs.declared.entry.Body.{Body};
ghost use Rattle.wal_ledger.specs.Kept.{IsLawful};
ghost use Rattle.wal_ledger.specs.Ledger.{LedgerState};
ghost use Rattle.wal_ledger.specs.Shards.{committee_size};
ghost use Rattle.wal_follow.specs.declared.item.Item.{Item};
ghost use Rattle.wal_follow.specs.Enter.{IsOf, entered};
ghost use Rattle.wal_follow.specs.Ledger.{AreApart, KeepsUp, Says, kept_of};

/// Where the context and the records are those of a ledger that has room, an entry makes of them
/// those of the ledger after it, and comes to what that ledger answers.
pub fn keeps_up()
    ensures { (ids : List BlobId) (old : LedgerState) (item : Item) (body : Body)
        → IsLawful old.log → 0 < old.spare → AreApart ids → Says ids item body
        → IsOf (committee_size old.log.f) (length ids) item
        → KeepsUp ids old body (entered (kept_of ids old.log) item) }
{}
