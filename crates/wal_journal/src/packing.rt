//! The parts that payloads carry are put into a journal.

ghost use Rattle.std.specs.Prelude.{◌≡◌, ◌≤◌, ◌++◌, true, List, [], ◌∷◌, length, IfOk, IfSome};
ghost use Rattle.std.specs.Option.{option_map};
ghost use Rattle.wal_frame.specs.Reading.{read_of};
ghost use Rattle.wal_frame.specs.Shown.{frame_shown};
ghost use Rattle.wal_shape.specs.Part.{sliver_part};
ghost use Rattle.wal_store.specs.Calls.{Call, Put};
ghost use Rattle.wal_journal.specs.Record.{Accepts};
ghost use Rattle.wal_journal.specs.Crash.{LeavesOnly, Holds, Keeps};
ghost use Rattle.wal_journal.specs.Journal.{disk_of, keep_of, disk_after};
ghost use Rattle.wal_journal.specs.Packing.{put_of, put_in, is_lawful, puts_of, AcceptsFront};
ghost use Rattle.wal_journal.specs.Packing.{Packs};

use crate::disk::Disk;
use crate::journal::{ChangeRefusal, Journal};
use std::alloc::Global;
use wal_commit::identify;
use wal_frame::{FrameRef, read_frame};
use wal_shape::{Axis, BlobId, MOST_BYTES, Part, Payloads};
use wal_store::Keep;
use wal_tree::Hash32;

// A part that a frame carries, and the identifier under which it is put.
#[derive(Clone, Copy)]
struct Carried<'a> {
    id: BlobId,
    part: Part,
    bytes: &'a [u8],
}

// Which part a sliver of an axis is.
fn part_of(axis: Axis) -> Part
    ensures { result ≡ sliver_part axis }
{
    match axis {
        Axis::Primary => Part::Primary,
        Axis::Secondary => Part::Secondary,
    }
}

// The part that a frame carries.
fn carried_by<'a, H: Hash32>(frame: FrameRef<'a>) -> Option<Carried<'a>>
    ensures is { put_of H.digest (frame_shown frame.entry)
        ≡ option_map (λ c. Put c.id c.part c.bytes.now) result }
    ensures id { IfSome result (λ c. length c.id.0 ≡ 32) }
{
    match frame {
        FrameRef::Metadata(m) | FrameRef::Metadata2(m) => Some(Carried {
            id: identify::<H>(m),
            part: Part::Metadata,
            bytes: m.bytes(),
        }),
        FrameRef::Sliver { id, sliver } => Some(Carried {
            id,
            part: part_of(sliver.axis),
            bytes: sliver.bytes,
        }),
        FrameRef::Proof { id, body } => Some(Carried {
            id,
            part: Part::Proof,
            bytes: body.bytes(),
        }),
        FrameRef::Opening { .. }
        | FrameRef::Read { .. }
        | FrameRef::Symbol { .. }
        | FrameRef::Ack { .. }
        | FrameRef::Attest { .. }
        | FrameRef::Forget { .. }
        | FrameRef::Answer { .. }
        | FrameRef::Clash { .. }
        | FrameRef::RegisterEntry { .. }
        | FrameRef::AckEntry { .. }
        | FrameRef::AttestEntry { .. } => None,
    }
}

// The part that a payload carries.
fn carried_in<H: Hash32>(payload: &[u8]) -> Option<Carried<'_>>
    ensures is { put_in H.digest (read_of payload.now)
        ≡ option_map (λ c. Put c.id c.part c.bytes.now) result }
    ensures id { IfSome result (λ c. length c.id.0 ≡ 32) }
{
    match read_frame(payload) {
        Ok(frame) => carried_by::<H>(frame),
        Err(_) => None,
    }
}

// Whether a keep takes a part: it is not held, and has as many bytes as a part may have.
fn is_taken<K: Keep>(keep: &K, carried: &Carried<'_>) -> bool
    ensures { result
        ≡ is_lawful (K.contents keep.now)
        (Put carried.now.id carried.now.part carried.now.bytes.now) }
{
    keep.size(&carried.id, carried.part).is_none()
        && (!carried.bytes.is_empty() && carried.bytes.len() as u64 <= MOST_BYTES)
}

// Puts the part that a payload carries.
fn pack_payload<H: Hash32, D: Disk, K: Keep>(
    alloc: Global,
    journal: Journal<D, K>,
    payload: &[u8],
) -> Result<Journal<D, K>, ChangeRefusal<D, K>>
    ensures packs { Packs D.now D.faults D.tells D.clock
        D.since K.contents K.limit K.may_want journal
        (puts_of H.digest (K.contents (keep_of journal)) (payload.now ∷ [])) result }
    ensures any_moment { D.tells ≡ true → (changes : List Call)
        → Accepts (D.now (disk_of journal)) changes
        → LeavesOnly D.clock D.since (disk_of journal) (disk_after result)
        (AcceptsFront (K.limit (keep_of journal)) (K.contents (keep_of journal)) changes
        (puts_of H.digest (K.contents (keep_of journal)) (payload.now ∷ []))) }
    ensures keeps { D.tells ≡ true → Keeps D.clock D.since (disk_of journal) (disk_after result) }
    ensures later { D.faults (disk_of journal) ≤ D.faults (disk_after result) }
{
    match carried_in::<H>(payload) {
        None => Ok(journal),
        Some(carried) => {
            if is_taken(&journal.keep, &carried) {
                journal.put(alloc, &carried.id, carried.part, carried.bytes)
            } else {
                Ok(journal)
            }
        }
    }
}

/// Puts the part of each frame that carries one, in order, under its identifier: a metadata under
/// the one that it commits, a sliver and a proof under the one that they name. It passes over a
/// part that is held, and one of no bytes or of more than 16,777,216, since no keep takes it.
///
/// A refusal is that of the first put that is refused. The puts before it are made, and so are
/// those before the one in which the disk failed.
pub fn pack<H: Hash32, D: Disk, K: Keep>(
    alloc: Global,
    journal: Journal<D, K>,
    payloads: &Payloads,
) -> Result<Journal<D, K>, ChangeRefusal<D, K>>
    // Which puts are made, for which the keep had room, and why one is refused. Where the disk
    // failed in one, each crash leaves an image that goes on after those before it.
    ensures packs { Packs D.now D.faults D.tells D.clock
        D.since K.contents K.limit K.may_want journal
        (puts_of H.digest (K.contents (keep_of journal)) payloads.now) result }

    // A crash at any moment of the call leaves the changes from before it, and a front of the puts,
    // for which the keep had room.
    ensures any_moment { D.tells ≡ true → (changes : List Call)
        → Accepts (D.now (disk_of journal)) changes
        → LeavesOnly D.clock D.since (disk_of journal) (disk_after result)
        (AcceptsFront (K.limit (keep_of journal)) (K.contents (keep_of journal)) changes
        (puts_of H.digest (K.contents (keep_of journal)) payloads.now)) }

    // After `Ok` each crash leaves an image that goes on after all of them.
    ensures acknowledged { D.tells ≡ true → (changes : List Call)
        → Accepts (D.now (disk_of journal)) changes
        → IfOk result (λ packed. Holds D.clock D.since (disk_of packed)
        (changes ++ puts_of H.digest (K.contents (keep_of journal)) payloads.now)) }

    // What each crash held before, each crash holds after.
    ensures keeps { D.tells ≡ true → Keeps D.clock D.since (disk_of journal) (disk_after result) }

    ensures later { D.faults (disk_of journal) ≤ D.faults (disk_after result) }
{
    let mut journal = journal;
    for payload in payloads.as_slice() {
        match pack_payload::<H, D, K>(alloc, journal, payload.as_slice()) {
            Ok(packed) => journal = packed,
            Err(refusal) => return Err(refusal),
        }
    }
    Ok(journal)
}
