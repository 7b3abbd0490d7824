//! A disk that stands for nothing yet.

ghost use Rattle.std.specs.Prelude.{◌≡◌, ◌≤◌, true, [], ◌∷◌, IfOk, IfErr};
ghost use Rattle.wal_journal.specs.Disk.{Agrees, put_at, disk_in};
ghost use Rattle.wal_journal.specs.Crash.{LeavesOnly};
ghost use Rattle.wal_journal.specs.Record.{Accepts};
ghost use Rattle.wal_port.specs.Faults.{Rose};

use crate::disk::Disk;
use crate::write::write_synced;

/// Closes the first gate, so that the disk stands for no change.
pub fn format<D: Disk>(disk: D) -> Result<D, D>
    ensures accepts { IfOk result (λ formatted. Accepts (D.now formatted) []) }
    ensures written { IfOk result (λ formatted. D.now formatted ≡ put_at 0 (0 ∷ []) (D.now disk)) }
    ensures settled { D.tells ≡ true → IfOk result (λ formatted. D.pending formatted ≡ []) }
    ensures torn { IfErr result (λ stopped. Agrees ((0, 1) ∷ []) (D.now disk) (D.now stopped)) }
    // A crash at any moment of the call leaves every byte but the first and those that were
    // pending.
    ensures any_moment { D.tells ≡ true → LeavesOnly D.clock D.since disk (disk_in result)
        (Agrees ((0, 1) ∷ D.pending disk) (D.now disk)) }
    ensures later { D.faults disk ≤ D.faults (disk_in result) }
    ensures failed { IfErr result (λ stopped. Rose (D.faults disk) (D.faults stopped)) }
{
    let mut disk = disk;
    // A disk has at least one byte.
    if disk.len() == 0 {
        unreachable!()
    }
    match write_synced(&mut disk, 0, &[0]) {
        Ok(()) => Ok(disk),
        Err(_) => Err(disk),
    }
}
