//! The records of a disk, in the order of reading.

ghost use Rattle.std.specs.Prelude.{◌≡◌, ◌+◌, ◌<◌, ◌≤◌, true, [], length, take, drop, get_or, None};
ghost use Rattle.std.specs.Prelude.{IsTrue, IsErrOf, IfErr, OnOk};
ghost use Rattle.wal_store.specs.Contents.{part_at};
ghost use Rattle.wal_store.specs.Calls.{no_contents};
ghost use Rattle.wal_journal.specs.Reading.{HasSynced, IsSynced, Opens};
ghost use Rattle.wal_journal.specs.inside.Reading.{head_text, IsHead, Steps, Still};
ghost use Rattle.wal_journal.specs.Disk.{Agrees};
ghost use Rattle.wal_journal.specs.Crash.{LeavesOnly, Keeps};
ghost use Rattle.wal_port.specs.Faults.{Rose};

use crate::disk::Disk;
use crate::open::OpenFault;
use crate::record::{Change, Head, bytes_at, change_of, gate_at, read_head};
use std::alloc::Global;
use wal_shape::{BlobId, Part};
use wal_store::Keep;

// Whether a part is held.
fn is_held<K: Keep>(keep: &K, id: &BlobId, part: Part) -> bool
    ensures held { IsTrue result → part_at (K.contents keep.now) id.now part ≡ None → ⊥ }
    ensures absent { (IsTrue result → ⊥) → part_at (K.contents keep.now) id.now part ≡ None }
{
    keep.size(id, part).is_some()
}

// Reads the bytes of a put, and puts them.
fn take_put<D: Disk, K: Keep>(
    alloc: Global,
    disk: &mut D,
    keep: &mut K,
    tail: u64,
    head: Head,
    id: BlobId,
    part: Part,
) -> Result<Option<u64>, OpenFault>
    requires within { tail + 39 + head.size < length (D.now disk.old) }
    requires range { tail + 39 + head.size < 18446744073709551616 }
    requires gate { get_or (D.now disk.old) tail 0 ≡ 1 }
    requires head { take 38 (drop (tail + 1) (D.now disk.old)) ≡ head_text head }
    requires is { IsHead head (Change.Put id part head.size) }
    ensures steps { Steps (K.limit keep.old) K.may_want (D.now disk.old) tail
        (K.contents keep.old) (K.contents keep.new) result }
    ensures limit { K.limit keep.new ≡ K.limit keep.old }
    ensures now { D.now disk.new ≡ D.now disk.old }
    ensures still { D.tells ≡ true → Still D.now D.pending D.clock D.since disk.old disk.new }
    ensures failed { IsErrOf result OpenFault.DiskFault
        → Rose (D.faults disk.old) (D.faults disk.new) }
    ensures later { D.faults disk.old ≤ D.faults disk.new }
{
    if is_held(keep, &id, part) {
        return Err(OpenFault::BadRecord(tail));
    }
    let bytes = bytes_at(alloc, disk, tail + 39, head.size)?;
    match keep.put(&id, part, &bytes) {
        Ok(()) => Ok(Some(tail + 39 + head.size as u64)),
        Err(error) => Err(OpenFault::from(error)),
    }
}

// Carries out the change of a record whose head was read.
fn take_record<D: Disk, K: Keep>(
    alloc: Global,
    disk: &mut D,
    keep: &mut K,
    tail: u64,
    head: Head,
    change: Change,
) -> Result<Option<u64>, OpenFault>
    requires within { tail + 39 + head.size < length (D.now disk.old) }
    requires range { tail + 39 + head.size < 18446744073709551616 }
    requires gate { get_or (D.now disk.old) tail 0 ≡ 1 }
    requires head { take 38 (drop (tail + 1) (D.now disk.old)) ≡ head_text head }
    requires is { IsHead head change }
    ensures steps { Steps (K.limit keep.old) K.may_want (D.now disk.old) tail
        (K.contents keep.old) (K.contents keep.new) result }
    ensures limit { K.limit keep.new ≡ K.limit keep.old }
    ensures now { D.now disk.new ≡ D.now disk.old }
    ensures still { D.tells ≡ true → Still D.now D.pending D.clock D.since disk.old disk.new }
    ensures failed { IsErrOf result OpenFault.DiskFault
        → Rose (D.faults disk.old) (D.faults disk.new) }
    ensures later { D.faults disk.old ≤ D.faults disk.new }
{
    match change {
        Change::Put(id, part, _) => take_put(alloc, disk, keep, tail, head, id, part),
        Change::DropPart(id, part) => {
            keep.drop_part(&id, part);
            Ok(Some(tail + 39))
        }
        Change::DropId(id) => {
            keep.drop_id(&id);
            Ok(Some(tail + 39))
        }
    }
}

// Reads the record behind those that end at a place, if its gate is open, and carries out its
// change.
fn read_record<D: Disk, K: Keep>(
    alloc: Global,
    disk: &mut D,
    keep: &mut K,
    len: u64,
    tail: u64,
) -> Result<Option<u64>, OpenFault>
    requires len { len ≡ length (D.now disk.old) }
    requires within { tail < length (D.now disk.old) }
    ensures steps { Steps (K.limit keep.old) K.may_want (D.now disk.old) tail
        (K.contents keep.old) (K.contents keep.new) result }
    ensures limit { K.limit keep.new ≡ K.limit keep.old }
    ensures now { D.now disk.new ≡ D.now disk.old }
    ensures still { D.tells ≡ true → Still D.now D.pending D.clock D.since disk.old disk.new }
    ensures failed { IsErrOf result OpenFault.DiskFault
        → Rose (D.faults disk.old) (D.faults disk.new) }
    ensures later { D.faults disk.old ≤ D.faults disk.new }
{
    if gate_at(disk, tail)? != 1 {
        return Ok(None);
    }
    let left = len - tail - 1;
    if left < 39 {
        return Err(OpenFault::BadRecord(tail));
    }
    let head = read_head(disk, tail + 1)?;
    let Some(change) = change_of(head) else {
        return Err(OpenFault::BadRecord(tail));
    };
    if left < 39 + head.size as u64 {
        return Err(OpenFault::BadRecord(tail));
    }
    take_record(alloc, disk, keep, tail, head, change)
}

// Reads all records, up to the first gate that is closed.
fn read_records<D: Disk, K: Keep>(
    alloc: Global,
    disk: &mut D,
    keep: &mut K,
    len: u64,
) -> Result<u64, OpenFault>
    requires empty { K.contents keep.old ≡ no_contents }
    requires len { len ≡ length (D.now disk.old) }
    requires some { 1 ≤ len }
    ensures opens { Opens (K.limit keep.old) K.may_want
        (D.now disk.old) (K.contents keep.new) result }
    ensures limit { K.limit keep.new ≡ K.limit keep.old }
    ensures now { D.now disk.new ≡ D.now disk.old }
    ensures still { D.tells ≡ true → Still D.now D.pending D.clock D.since disk.old disk.new }
    ensures failed { IsErrOf result OpenFault.DiskFault
        → Rose (D.faults disk.old) (D.faults disk.new) }
    ensures later { D.faults disk.old ≤ D.faults disk.new }
{
    let mut tail = 0;
    'records: loop {
        let Some(next) = read_record(alloc, disk, keep, len, tail)? else {
            return Ok(tail);
        };
        tail = next;
    }
}

// Syncs, and reads all records.
pub(crate) fn read_disk<D: Disk, K: Keep>(
    alloc: Global,
    disk: &mut D,
    keep: &mut K,
) -> Result<u64, OpenFault>
    requires { K.contents keep.old ≡ no_contents }
    ensures opens { Opens (K.limit keep.old) K.may_want
        (D.now disk.old) (K.contents keep.new) result }
    ensures limit { K.limit keep.new ≡ K.limit keep.old }
    ensures now { D.now disk.new ≡ D.now disk.old }
    ensures settled { D.tells ≡ true → OnOk result (HasSynced D.pending D.clock disk.old disk.new) }
    ensures synced { D.tells ≡ true → IfErr result (IsSynced D.pending D.clock disk.old disk.new) }
    ensures any_moment { D.tells ≡ true → LeavesOnly D.clock D.since disk.old disk.new
        (Agrees (D.pending disk.old) (D.now disk.old)) }
    ensures keeps { D.tells ≡ true → Keeps D.clock D.since disk.old disk.new }
    ensures failed { IsErrOf result OpenFault.DiskFault
        → Rose (D.faults disk.old) (D.faults disk.new) }
    ensures later { D.faults disk.old ≤ D.faults disk.new }
{
    let len = disk.len();
    disk.sync()?;
    read_records(alloc, disk, keep, len)
}
