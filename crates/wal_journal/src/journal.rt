//! The journal: a keep, and the disk on which each change stands before it is acknowledged.

ghost use Rattle.std.specs.Prelude.{◌≡◌, ◌+◌, ◌-◌, ◌<◌, ◌≤◌, ◌↔◌, ◌++◌, true, List, [], ◌∷◌};
ghost use Rattle.std.specs.Prelude.{length, None, IfOk};
ghost use Rattle.wal_shape.specs.Shape.{most_bytes};
ghost use Rattle.wal_store.specs.Contents.{part_at, free_of, needed_for};
ghost use Rattle.wal_store.specs.Answer.{HasRoom};
ghost use Rattle.wal_store.specs.Calls.{Call, Put, DropPart, DropId, no_contents, after_calls};
ghost use Rattle.wal_journal.specs.Record.{records, Accepts, EitherWay};
ghost use Rattle.wal_journal.specs.Held.{IsJournal};
ghost use Rattle.wal_journal.specs.inside.Held.{FitsSome};
ghost use Rattle.wal_journal.specs.Reading.{HadRoomForPuts};
ghost use Rattle.wal_journal.specs.Crash.{LeavesOnly, Holds, Keeps};

use crate::disk::Disk;
use crate::finish::finish;
use crate::text::{drop_id_text, drop_part_text, put_text};
use std::alloc::Global;
use wal_shape::{BlobId, Part};
use wal_store::{Keep, KeepError};

/// A keep whose changes are on a disk first.
///
/// The keep holds what the changes make that the disk stands for. After a call that hands the
/// journal back, nothing on the disk is pending.
#[derive(Drop)]
pub struct Journal<D: Disk, K: Keep> {
    pub(crate) disk: D,
    pub(crate) keep: K,
    // Where the closed gate stands, behind the last record.
    pub(crate) tail: u64,
    ghost stands: { ∥
        ((changes : List Call) × IsJournal (D.now disk) tail (K.contents keep) changes) ∥₁ },
    ghost settled: { D.tells ≡ true → D.pending disk ≡ [] },
    ghost within: { tail < length (D.now disk) },
    ghost fits: { ∥ FitsSome (D.now disk) (K.limit keep) ∥₁ },
}

/// Why a change was not made, with the journal as before it, or with the disk and the keep.
#[derive(Drop)]
pub enum ChangeRefusal<D: Disk, K: Keep> {
    /// The change was refused, and nothing of it was made. Of several, those before it are made.
    Kept {
        /// The journal as before this change.
        journal: Journal<D, K>,
        /// Why.
        why: Why,
    },
    /// The disk failed. It has to be opened again, over an empty keep: this one no longer speaks
    /// for it.
    Stopped {
        /// The disk.
        disk: D,
        /// The keep, which holds the change already.
        keep: K,
    },
}

/// Why a change was refused.
#[derive(Clone, Copy, Debug, PartialEq, Eq, Drop)]
pub enum Why {
    /// The record does not fit on the disk.
    DiskFull {
        /// The bytes of the record and of the gate behind it, but for the gate that is there.
        needed: u64,
        /// The bytes behind the closed gate.
        free: u64,
    },
    /// The keep is full.
    Full {
        /// The pages that are needed.
        needed: u32,
        /// The pages that are free.
        free: u32,
    },
    /// There was no memory.
    Memory,
}

impl From<KeepError> for Why {
    ghost use Rattle.wal_journal.specs.inside.Why.{why_of};

    ghost from_gives = { λ e w. w ≡ why_of e };

    fn from(error: KeepError) -> Why {
        match error {
            KeepError::Full { needed, free } => Why::Full { needed, free },
            KeepError::Memory => Why::Memory,
        }
    }
}

impl<D: Disk, K: Keep> Journal<D, K> {
    ghost use Rattle.wal_journal.specs.Journal.{disk_of, keep_of, tail_of, disk_after};
    ghost use Rattle.wal_journal.specs.Journal.{FitsEitherWay, IsDiskFull, IsPutWhy, IsDropWhy};
    ghost use Rattle.wal_journal.specs.Journal.{IsTried, EndsChange};

    /// Stores the bytes of a part, which are on the disk when it answers `Ok`.
    pub fn put(
        self,
        alloc: Global,
        id: &BlobId,
        part: Part,
        bytes: &[u8],
    ) -> Result<Journal<D, K>, ChangeRefusal<D, K>>
        requires absent { part_at (K.contents (keep_of self)) id.now part ≡ None }
        requires some { 1 ≤ length bytes.now }
        requires most { length bytes.now ≤ most_bytes }

        // The disk is full exactly where more bytes are needed than are free.
        ensures full { IsDiskFull result
            ↔ (length (D.now (disk_of self)) - tail_of self - 1 < 39 + length bytes.now) }

        // What has changed, and why it was refused.
        ensures ends { EndsChange D.now D.faults K.contents K.limit
            (IsPutWhy (length (D.now (disk_of self)))
            (tail_of self) (K.limit (keep_of self)) K.may_want
            (K.contents (keep_of self)) id.now bytes.now)
            (Put id.now part bytes.now) self result }

        // Where it was not refused the keep had room.
        ensures room { IsTried result
            → HasRoom (free_of (K.limit (keep_of self)) (K.contents (keep_of self)))
            (needed_for (K.contents (keep_of self)) id.now bytes.now) }

        // A crash at any moment of the call leaves the changes from before it, without this one, or
        // with it where the keep had room.
        ensures any_moment { D.tells ≡ true → (changes : List Call)
            → Accepts (D.now (disk_of self)) changes
            → LeavesOnly D.clock D.since (disk_of self) (disk_after result)
            (FitsEitherWay (K.limit (keep_of self))
            (K.contents (keep_of self)) changes (Put id.now part bytes.now)) }

        // After `Ok` each crash leaves an image that goes on after this change.
        ensures acknowledged { D.tells ≡ true → (changes : List Call)
            → Accepts (D.now (disk_of self)) changes
            → IfOk result (λ journal.
            Holds D.clock D.since (disk_of journal) (changes ++ Put id.now part bytes.now ∷ [])) }

        // What each crash held before, each crash holds after.
        ensures keeps { D.tells ≡ true → Keeps D.clock D.since (disk_of self) (disk_after result) }

        ensures later { D.faults (disk_of self) ≤ D.faults (disk_after result) }
    {
        let Journal {
            disk,
            mut keep,
            tail,
        } = self;
        let needed = 39 + bytes.len() as u64;
        let free = disk.len() - tail - 1;
        if free < needed {
            let why = Why::DiskFull { needed, free };
            return Err(ChangeRefusal::Kept {
                journal: Journal { disk, keep, tail },
                why,
            });
        }
        let Ok(text) = put_text(alloc, *id, part, bytes) else {
            let why = Why::Memory;
            return Err(ChangeRefusal::Kept {
                journal: Journal { disk, keep, tail },
                why,
            });
        };
        match keep.put(id, part, bytes) {
            Ok(()) => finish(disk, keep, tail, &text),
            Err(error) => {
                let why = Why::from(error);
                Err(ChangeRefusal::Kept {
                    journal: Journal { disk, keep, tail },
                    why,
                })
            }
        }
    }

    /// Lets a part go. What is not held stays so.
    pub fn drop_part(self, id: &BlobId, part: Part) -> Result<Journal<D, K>, ChangeRefusal<D, K>>
        // The disk is full exactly where more bytes are needed than are free.
        ensures full { IsDiskFull result ↔ (length (D.now (disk_of self)) - tail_of self - 1 < 39) }

        // What has changed, and why it was refused.
        ensures ends { EndsChange D.now D.faults K.contents K.limit
            (IsDropWhy (length (D.now (disk_of self))) (tail_of self))
            (DropPart id.now part) self result }

        // A crash at any moment of the call leaves the changes from before it, with this one or
        // without.
        ensures any_moment { D.tells ≡ true → (changes : List Call)
            → Accepts (D.now (disk_of self)) changes
            → LeavesOnly D.clock D.since (disk_of self) (disk_after result)
            (EitherWay changes (DropPart id.now part)) }

        // After `Ok` each crash leaves an image that goes on after this change.
        ensures acknowledged { D.tells ≡ true → (changes : List Call)
            → Accepts (D.now (disk_of self)) changes
            → IfOk result (λ journal.
            Holds D.clock D.since (disk_of journal) (changes ++ DropPart id.now part ∷ [])) }

        // What each crash held before, each crash holds after.
        ensures keeps { D.tells ≡ true → Keeps D.clock D.since (disk_of self) (disk_after result) }

        ensures later { D.faults (disk_of self) ≤ D.faults (disk_after result) }
    {
        let Journal {
            disk,
            mut keep,
            tail,
        } = self;
        let free = disk.len() - tail - 1;
        if free < 39 {
            let why = Why::DiskFull { needed: 39, free };
            return Err(ChangeRefusal::Kept {
                journal: Journal { disk, keep, tail },
                why,
            });
        }
        keep.drop_part(id, part);
        finish(disk, keep, tail, &drop_part_text(*id, part))
    }

    /// Lets all parts of an identifier go.
    pub fn drop_id(self, id: &BlobId) -> Result<Journal<D, K>, ChangeRefusal<D, K>>
        // The disk is full exactly where more bytes are needed than are free.
        ensures full { IsDiskFull result ↔ (length (D.now (disk_of self)) - tail_of self - 1 < 39) }

        // What has changed, and why it was refused.
        ensures ends { EndsChange D.now D.faults K.contents K.limit
            (IsDropWhy (length (D.now (disk_of self))) (tail_of self)) (DropId id.now) self result }

        // A crash at any moment of the call leaves the changes from before it, with this one or
        // without.
        ensures any_moment { D.tells ≡ true → (changes : List Call)
            → Accepts (D.now (disk_of self)) changes
            → LeavesOnly D.clock D.since (disk_of self)
            (disk_after result) (EitherWay changes (DropId id.now)) }

        // After `Ok` each crash leaves an image that goes on after this change.
        ensures acknowledged { D.tells ≡ true → (changes : List Call)
            → Accepts (D.now (disk_of self)) changes
            → IfOk result
            (λ journal. Holds D.clock D.since (disk_of journal) (changes ++ DropId id.now ∷ [])) }

        // What each crash held before, each crash holds after.
        ensures keeps { D.tells ≡ true → Keeps D.clock D.since (disk_of self) (disk_after result) }

        ensures later { D.faults (disk_of self) ≤ D.faults (disk_after result) }
    {
        let Journal {
            disk,
            mut keep,
            tail,
        } = self;
        let free = disk.len() - tail - 1;
        if free < 39 {
            let why = Why::DiskFull { needed: 39, free };
            return Err(ChangeRefusal::Kept {
                journal: Journal { disk, keep, tail },
                why,
            });
        }
        keep.drop_id(id);
        finish(disk, keep, tail, &drop_id_text(*id))
    }

    /// The keep. It holds what the accepted changes make, an empty one of its limit has room for
    /// them, and each crash goes on after them.
    pub fn keep(&self) -> &K
        ensures value { result.now ≡ keep_of self.now }
        ensures stands { ∥
            ((changes : List Call) × IsJournal (D.now (disk_of self.now)) (tail_of self.now)
            (K.contents result.now) changes) ∥₁ }
        ensures holds { (changes : List Call) → Accepts (D.now (disk_of self.now)) changes
            → K.contents result.now ≡ after_calls no_contents changes }
        ensures room { (changes : List Call) → Accepts (D.now (disk_of self.now)) changes
            → HadRoomForPuts (K.limit result.now) no_contents changes }
        ensures acknowledged { D.tells ≡ true → (changes : List Call)
            → Accepts (D.now (disk_of self.now)) changes
            → Holds D.clock D.since (disk_of self.now) changes }
    {
        &self.keep
    }

    /// Where the closed gate stands: as many bytes as the records of the accepted changes have.
    pub fn tail(&self) -> u64
        ensures value { result ≡ tail_of self.now }
        ensures records { (changes : List Call) → Accepts (D.now (disk_of self.now)) changes
            → length (records changes) ≡ result }
        ensures within { result < length (D.now (disk_of self.now)) }
        ensures settled { D.tells ≡ true → D.pending (disk_of self.now) ≡ [] }
    {
        self.tail
    }

    /// The disk and the keep.
    pub fn close(self) -> (D, K)
        ensures disk { result.0 ≡ disk_of self }
        ensures keep { result.1 ≡ keep_of self }
        ensures settled { D.tells ≡ true → D.pending result.0 ≡ [] }
    {
        let Journal { disk, keep, .. } = self;
        (disk, keep)
    }
}
