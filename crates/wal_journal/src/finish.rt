//! The end of a change: its record is written.

ghost use Rattle.std.specs.Prelude.{◌≡◌, ◌+◌, ◌<◌, ◌≤◌, ◌^◌, ◌++◌, true, List, [], ◌∷◌, length};
ghost use Rattle.std.specs.Prelude.{IfOk, IfErr};
ghost use Rattle.wal_store.specs.Calls.{Call};
ghost use Rattle.wal_journal.specs.Record.{EitherWay};
ghost use Rattle.wal_journal.specs.inside.Held.{IsReady, WithOne, FitsWithOne};
ghost use Rattle.wal_journal.specs.Crash.{LeavesOnly};
ghost use Rattle.wal_journal.specs.Journal.{disk_of, disk_after};
ghost use Rattle.wal_journal.specs.inside.Journal.{IsStopped, IsWritten};

use crate::disk::Disk;
use crate::journal::{ChangeRefusal, Journal};
use crate::write::append;
use wal_store::Keep;

// Writes a record for a change that the keep holds already.
pub(crate) fn finish<D: Disk, K: Keep>(
    disk: D,
    keep: K,
    tail: u64,
    text: &[u8],
) -> Result<Journal<D, K>, ChangeRefusal<D, K>>
    requires room { tail + 1 + length text.now ≤ length (D.now disk) }
    requires range { tail + 1 + length text.now < 2 ^ 64 }
    requires settled { D.tells ≡ true → D.pending disk ≡ [] }
    requires taken { ∥ WithOne (D.now disk) tail text.now (K.contents keep) ∥₁ }
    requires fits { ∥ FitsWithOne (D.now disk) tail text.now (K.limit keep) ∥₁ }
    ensures written { IfOk result (IsWritten D.now (D.now disk) tail text.now keep) }
    ensures settled { D.tells ≡ true → IfOk result (λ journal. D.pending (disk_of journal) ≡ []) }
    ensures stopped { IfErr result (IsStopped D.now D.faults disk tail text.now keep) }
    ensures later { D.faults disk ≤ D.faults (disk_after result) }
    ensures any_moment { D.tells ≡ true → (changes : List Call) (c : Call)
        → IsReady (D.now disk) tail text.now changes c
        → LeavesOnly D.clock D.since disk (disk_after result) (EitherWay changes c) }
{
    let mut disk = disk;
    match append(&mut disk, tail, text) {
        Ok(()) => Ok(Journal {
            disk,
            keep,
            tail: tail + text.len() as u64,
        }),
        Err(_) => Err(ChangeRefusal::Stopped { disk, keep }),
    }
}
