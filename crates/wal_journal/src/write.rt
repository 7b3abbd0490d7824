//! A record on the disk: all of it but its gate, a sync, the gate alone, and a sync.

ghost use Rattle.std.specs.Prelude.{◌≡◌, ℕ, ◌+◌, ◌<◌, ◌≤◌, ◌^◌, ◌⊎◌, true, List, [], ◌∷◌, length};
ghost use Rattle.std.specs.Prelude.{OnOk, OnErr};
ghost use Rattle.wal_journal.specs.Disk.{Agrees, put_at};
ghost use Rattle.wal_journal.specs.Crash.{LeavesOnly};
ghost use Rattle.wal_journal.specs.inside.Append.{BeforeGate};
ghost use Rattle.wal_port.specs.Faults.{Rose};

use crate::disk::Disk;
use wal_port::Failed;

// Writes bytes and syncs. A crash leaves what was there but for the range and for what was pending.
pub(crate) fn write_synced<D: Disk>(disk: &mut D, at: u64, bytes: &[u8]) -> Result<(), Failed>
    requires { at + length bytes.now ≤ length (D.now disk.old) }
    ensures written { OnOk result (D.now disk.new ≡ put_at at bytes.now (D.now disk.old)) }
    ensures torn { OnErr result
        (Agrees ((at, length bytes.now) ∷ []) (D.now disk.old) (D.now disk.new)) }
    ensures settled { D.tells ≡ true → OnOk result (D.pending disk.new ≡ []) }
    ensures any_moment { D.tells ≡ true → LeavesOnly D.clock D.since disk.old disk.new
        (Agrees ((at, length bytes.now) ∷ D.pending disk.old) (D.now disk.old)) }
    ensures failed { OnErr result (Rose (D.faults disk.old) (D.faults disk.new)) }
    ensures later { D.faults disk.old ≤ D.faults disk.new }
{
    disk.write_at(at, bytes)?;
    disk.sync()
}

// Writes a text behind a gate that is closed, and opens the gate.
pub(crate) fn append<D: Disk>(disk: &mut D, tail: u64, text: &[u8]) -> Result<(), Failed>
    requires room { (tail + 1) + length text.now ≤ length (D.now disk.old) }
    requires range { tail + 1 < 2 ^ 64 }
    ensures written { OnOk result (D.now disk.new
        ≡ put_at tail (1 ∷ []) (put_at (tail + 1) text.now (D.now disk.old))) }
    ensures torn { OnErr result (BeforeGate tail text.now (D.now disk.old) (D.now disk.new)) }
    ensures settled { D.tells ≡ true → OnOk result (D.pending disk.new ≡ []) }
    ensures any_moment { D.tells ≡ true → D.pending disk.old ≡ []
        → LeavesOnly D.clock D.since disk.old disk.new (BeforeGate tail text.now (D.now disk.old)) }
    ensures failed { OnErr result (Rose (D.faults disk.old) (D.faults disk.new)) }
    ensures later { D.faults disk.old ≤ D.faults disk.new }
{
    write_synced(disk, tail + 1, text)?;
    write_synced(disk, tail, &[1])
}
