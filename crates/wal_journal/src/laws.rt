//! What follows of the definitions that the contracts cite. These functions compute nothing: their
//! contracts are the laws.

ghost use Rattle.std.specs.Prelude.{◌≡◌, ℕ, true, List};
ghost use Rattle.wal_store.specs.Calls.{Call};
ghost use Rattle.wal_journal.specs.Record.{StandsOnce};
ghost use Rattle.wal_journal.specs.Reading.{RoomInParts};
ghost use Rattle.wal_journal.specs.Crash.{GoesOnAfter, Holds, EachKeeps, last_of};

use crate::disk::Disk;

/// An image stands for one list of changes at most.
pub fn stands_once()
    ensures { StandsOnce }
{}

/// If a keep had room for changes, and for more behind them, it had room for all.
pub fn room_in_parts()
    ensures { RoomInParts }
{}

/// What is acknowledged stays. If each crash of a disk goes on after some changes, so does each
/// crash at any moment since, over any calls of which each keeps what was held:
/// [`crate::Journal::open`], and every call of a journal.
pub fn acknowledged_stays<D: Disk>()
    ensures { D.tells ≡ true → (first : D) (disks : List D) → EachKeeps D.clock D.since first disks
        → (changes : List Call) → Holds D.clock D.since first changes
        → (image : List ℕ) → D.since (last_of first disks) (D.clock first) image
        → GoesOnAfter changes image }
{}
