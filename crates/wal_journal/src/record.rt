//! Reading a record: its head, and its bytes.

ghost use Rattle.std.specs.Prelude.{◌≡◌, ◌+◌, ◌<◌, ◌≤◌, true, length, take, drop, get_or, None};
ghost use Rattle.std.specs.Prelude.{Some, IfOk, IfErr, IfSome, IsNone, IsErrOf, OnErr};
ghost use Rattle.wal_store.specs.Calls.{Call};
ghost use Rattle.wal_journal.specs.Record.{part_byte, size_text, IsWholeRecord};
ghost use Rattle.wal_journal.specs.inside.Reading.{head_text, HasHead, IsHead, IsReadFault, Still};
ghost use Rattle.wal_port.specs.Faults.{Rose};

use crate::disk::Disk;
use crate::open::OpenFault;
use std::alloc::Global;
use wal_port::Failed;
use wal_shape::{BlobId, MOST_BYTES, Part};

// The number of bytes of a record without its gate and its bytes.
pub(crate) const HEAD_SIZE: usize = 38;

// What a record says behind its gate, but for its bytes.
#[derive(Clone, Copy)]
pub(crate) struct Head {
    pub kind: u8,
    pub id: BlobId,
    pub part: u8,
    pub size: u32,
}

// What a record says, but for the bytes of a put.
#[derive(Clone, Copy, Drop)]
pub(crate) enum Change {
    Put(BlobId, Part, u32),
    DropPart(BlobId, Part),
    DropId(BlobId),
}

// The byte at a place.
pub(crate) fn gate_at<D: Disk>(disk: &mut D, at: u64) -> Result<u8, Failed>
    requires { at < length (D.now disk.old) }
    ensures value { IfOk result (λ gate. gate ≡ get_or (D.now disk.old) at 0) }
    ensures now { D.now disk.new ≡ D.now disk.old }
    ensures still { D.tells ≡ true → Still D.now D.pending D.clock D.since disk.old disk.new }
    ensures failed { OnErr result (Rose (D.faults disk.old) (D.faults disk.new)) }
    ensures later { D.faults disk.old ≤ D.faults disk.new }
{
    let mut gate = [0u8; 1];
    disk.read(at, &mut gate)?;
    Ok(gate[0])
}

// The head in 38 bytes.
#[tactic(auto, unfolding(crate::specs::Record::size_text))]
fn head_of(text: &[u8]) -> Head
    requires { length text.now ≡ 38 }
    ensures { text.now ≡ head_text result }
{
    let mut id = [0u8; 32];
    id.copy_from_slice(&text[1..33]);
    Head {
        kind: text[0],
        id: BlobId(id),
        part: text[33],
        size: u32::from_be_bytes([text[34], text[35], text[36], text[37]]),
    }
}

// The head from a place on.
pub(crate) fn read_head<D: Disk>(disk: &mut D, at: u64) -> Result<Head, Failed>
    requires { at + 38 ≤ length (D.now disk.old) }
    ensures value { IfOk result (λ head. take 38 (drop at (D.now disk.old)) ≡ head_text head) }
    ensures now { D.now disk.new ≡ D.now disk.old }
    ensures still { D.tells ≡ true → Still D.now D.pending D.clock D.since disk.old disk.new }
    ensures failed { OnErr result (Rose (D.faults disk.old) (D.faults disk.new)) }
    ensures later { D.faults disk.old ≤ D.faults disk.new }
{
    let mut text = [0u8; HEAD_SIZE];
    disk.read(at, &mut text)?;
    Ok(head_of(&text))
}

// The part of a number, if it is one.
fn part_of(number: u8) -> Option<Part>
    ensures some { IfSome result (λ part. number ≡ part_byte part) }
    ensures none { IsNone result → 4 ≤ number }
{
    match number {
        0 => Some(Part::Metadata),
        1 => Some(Part::Primary),
        2 => Some(Part::Secondary),
        3 => Some(Part::Proof),
        _ => None,
    }
}

// The kind of change that a head is of, if it is of one.
pub(crate) fn change_of(head: Head) -> Option<Change>
    ensures some { IfSome result (λ change. IsHead head change) }
    ensures none { IsNone result → (c : Call) → IsWholeRecord c → HasHead head c → ⊥ }
{
    let id = head.id;
    match head.kind {
        1 if head.size >= 1 && u64::from(head.size) <= MOST_BYTES => {
            part_of(head.part).map(|part| Change::Put(id, part, head.size))
        }
        2 if head.size == 0 => part_of(head.part).map(|part| Change::DropPart(id, part)),
        3 if head.size == 0 && head.part == 0 => Some(Change::DropId(id)),
        _ => None,
    }
}

// The bytes from a place on.
pub(crate) fn bytes_at<D: Disk>(
    alloc: Global,
    disk: &mut D,
    at: u64,
    size: u32,
) -> Result<Vec<u8>, OpenFault>
    requires { at + size ≤ length (D.now disk.old) }
    ensures value { IfOk result (λ bytes. bytes.items ≡ take size (drop at (D.now disk.old))) }
    ensures causes { IfErr result IsReadFault }
    ensures now { D.now disk.new ≡ D.now disk.old }
    ensures still { D.tells ≡ true → Still D.now D.pending D.clock D.since disk.old disk.new }
    ensures failed { IsErrOf result OpenFault.DiskFault
        → Rose (D.faults disk.old) (D.faults disk.new) }
    ensures later { D.faults disk.old ≤ D.faults disk.new }
{
    let mut bytes = vec![in alloc; 0u8; size as usize]?;
    disk.read(at, &mut bytes)?;
    Ok(bytes)
}
