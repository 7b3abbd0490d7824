//! Opening a disk: its records are read into a keep.

ghost use Rattle.std.specs.Prelude.{◌≡◌, ℕ, ◌≤◌, true, List, IfOk, IfErr};
ghost use Rattle.wal_store.specs.Calls.{Call, no_contents};
ghost use Rattle.wal_journal.specs.declared.open.OpenFault.TheVariants.{DiskFault, BadRecord, Full};
ghost use Rattle.wal_journal.specs.declared.open.OpenFault.TheVariants.{Memory};
ghost use Rattle.wal_journal.specs.Record.{Accepts};
ghost use Rattle.wal_journal.specs.Held.{IsJournal};
ghost use Rattle.wal_journal.specs.Disk.{Agrees};
ghost use Rattle.wal_journal.specs.Crash.{LeavesOnly, Holds, Keeps};
ghost use Rattle.wal_journal.specs.Opening.{opened_disk, opened_keep, IsOpening};
ghost use Rattle.wal_journal.specs.inside.Opening.{fault_of};
ghost use Rattle.wal_journal.specs.Reading.{HadRoomForPuts, HasSynced, IsSynced};
ghost use Rattle.wal_journal.specs.Journal.{disk_of, keep_of, tail_of};
ghost use Rattle.wal_port.specs.Faults.{Rose};

use crate::disk::Disk;
use crate::journal::Journal;
use crate::reading::read_disk;
use std::alloc::{AllocError, Global};
use wal_port::Failed;
use wal_store::{Keep, KeepError};

/// Why a disk was not opened: the first cause in the order of reading.
#[derive(Clone, Copy, Debug, PartialEq, Eq, Drop)]
pub enum OpenFault {
    /// A call of the disk failed.
    DiskFault,
    /// The record at this offset has an open gate, and is no record of a lawful change with a byte
    /// behind it.
    BadRecord(u64),
    /// The keep is full.
    Full {
        /// The pages that are needed.
        needed: u32,
        /// The pages that are free.
        free: u32,
    },
    /// There was no memory.
    Memory,
}

impl From<Failed> for OpenFault {
    ghost from_gives = { λ _ e. e ≡ DiskFault };

    fn from(_e: Failed) -> OpenFault {
        OpenFault::DiskFault
    }
}

impl From<AllocError> for OpenFault {
    ghost from_gives = { λ _ e. e ≡ Memory };

    fn from(_e: AllocError) -> OpenFault {
        OpenFault::Memory
    }
}

impl From<KeepError> for OpenFault {
    ghost from_gives = { λ e f. f ≡ fault_of e };

    fn from(error: KeepError) -> OpenFault {
        match error {
            KeepError::Full { needed, free } => OpenFault::Full { needed, free },
            KeepError::Memory => OpenFault::Memory,
        }
    }
}

/// A disk that was not opened, and the keep with the changes of the records that were read before.
#[derive(Drop)]
pub struct OpenRefusal<D: Disk, K: Keep> {
    /// Why.
    pub why: OpenFault,
    /// The disk.
    pub disk: D,
    /// The keep.
    pub keep: K,
}

impl<D: Disk, K: Keep> Journal<D, K> {
    /// Syncs, and reads the records of a disk into an empty keep. It changes no byte of the disk.
    pub fn open(alloc: Global, disk: D, keep: K) -> Result<Journal<D, K>, OpenRefusal<D, K>>
        requires { K.contents keep ≡ no_contents }

        // What was read, and why no more.
        ensures opening { IsOpening (K.limit keep) K.may_want K.contents (D.now disk) result }
        ensures opened { IfOk result (λ journal. (changes : List Call)
            × IsJournal (D.now (disk_of journal)) (tail_of journal)
            (K.contents (keep_of journal)) changes) }
        ensures same { D.now (opened_disk result) ≡ D.now disk }
        ensures limit { K.limit (opened_keep result) ≡ K.limit keep }

        // Where the disk accepts some changes the journal is theirs, and no record is bad.
        ensures gives { (changes : List Call) → Accepts (D.now disk) changes
            → IfOk result (λ journal.
            IsJournal (D.now (disk_of journal)) (tail_of journal)
            (K.contents (keep_of journal)) changes) }
        ensures never_bad { (changes : List Call) → Accepts (D.now disk) changes
            → IfErr result (λ refusal. (at : ℕ) → refusal.why ≡ BadRecord at → ⊥) }

        // Where a keep of this limit had room for them, this one has: it is not full.
        ensures fits { (changes : List Call) → Accepts (D.now disk) changes
            → HadRoomForPuts (K.limit keep) no_contents changes
            → IfErr result (λ refusal. (needed free : ℕ) → refusal.why ≡ Full needed free → ⊥) }

        ensures failed { IfErr result (λ refusal. refusal.why ≡ DiskFault
            → Rose (D.faults disk) (D.faults refusal.disk)) }
        ensures later { D.faults disk ≤ D.faults (opened_disk result) }

        // The journal comes after a sync, and so does a refusal, unless the disk failed.
        ensures settled { D.tells ≡ true → IfOk result (λ journal.
            HasSynced D.pending D.clock disk (disk_of journal)) }
        ensures synced { D.tells ≡ true → IfErr result (λ refusal.
            IsSynced D.pending D.clock disk refusal.disk refusal.why) }

        // A crash at any moment of the call leaves what one before it might have left.
        ensures any_moment { D.tells ≡ true → LeavesOnly D.clock D.since disk (opened_disk result)
            (Agrees (D.pending disk) (D.now disk)) }

        // After `Ok` each crash leaves an image that goes on after these changes.
        ensures acknowledged { D.tells ≡ true → (changes : List Call) → Accepts (D.now disk) changes
            → IfOk result (λ journal. Holds D.clock D.since (disk_of journal) changes) }

        // What each crash held before, each crash holds after.
        ensures keeps { D.tells ≡ true → Keeps D.clock D.since disk (opened_disk result) }
    {
        let mut disk = disk;
        let mut keep = keep;
        match read_disk(alloc, &mut disk, &mut keep) {
            Ok(tail) => Ok(Journal { disk, keep, tail }),
            Err(why) => Err(OpenRefusal { why, disk, keep }),
        }
    }
}
