//! The command that writes an image of the parts that envelopes carry.

ghost use Rattle.std.specs.Prelude.{◌≡◌, ◌≤◌, [], replicate, None, IfSome};
ghost use Rattle.wal_journal.specs.FlatDisk.{flat_bytes};
ghost use Rattle.wal_journal.specs.Held.{IsJournal};
ghost use Rattle.wal_journal.specs.Journal.{disk_of, keep_of, tail_of};
ghost use Rattle.wal_run.specs.Command.{IsResult};
ghost use Rattle.wal_run.specs.Imaging.{imaging};
ghost use Rattle.wal_run.specs.inside.Answers.{Says};
ghost use Rattle.wal_run.specs.inside.Command.{Told};

use crate::answer::Answer;
use crate::front::Front;
use crate::recorded::payloads_of;
use crate::refusal::Refusal;
use std::alloc::Global;
use wal_journal::{ChangeRefusal, FlatDisk, Journal, Why, pack};
use wal_shape::Payloads;
use wal_store::MapKeep;
use wal_tree::Hash32;

/// A journal of nothing, on a disk of so many zero bytes.
fn blank_journal(alloc: Global, size: u32) -> Option<Journal<FlatDisk, MapKeep>>
    requires { 1 ≤ size }
    ensures zeros { IfSome result (λ journal. flat_bytes (disk_of journal) ≡ replicate size 0) }
    ensures blank { IfSome result (λ journal.
        IsJournal (flat_bytes (disk_of journal)) (tail_of journal) (keep_of journal).contents []) }
    ensures limit { IfSome result (λ journal. (keep_of journal).limit ≡ None) }
{
    let Ok(bytes) = vec![in alloc; 0u8; size as usize] else {
        return None;
    };
    let Ok(keep) = MapKeep::create(alloc, None) else {
        return None;
    };
    match Journal::open(alloc, FlatDisk::create(bytes), keep) {
        Ok(journal) => Some(journal),
        Err(_) => None,
    }
}

/// The image of the parts that the payloads carry.
fn make_image<H: Hash32>(alloc: Global, size: u32, payloads: &Payloads) -> Result<Answer, Refusal>
    requires { 1 ≤ size }
    ensures { Says result (Told H.digest (imaging H.digest size) payloads.now) }
{
    let Some(journal) = blank_journal(alloc, size) else {
        return Err(Refusal::Memory);
    };
    match pack::<H, FlatDisk, MapKeep>(alloc, journal, payloads) {
        Ok(journal) => {
            let size = journal.tail() + 1;
            let (disk, _) = journal.close();
            Ok(Answer::Image(Front::create(disk, size)))
        }
        Err(
            ChangeRefusal::Kept {
                why: Why::DiskFull { needed, free },
                ..
            },
        ) => Err(Refusal::DiskFull { needed, free }),
        Err(
            ChangeRefusal::Kept {
                why: Why::Memory,
                ..
            },
        ) => Err(Refusal::Memory),
        // A keep without a limit is never full, and this disk never fails.
        Err(
            ChangeRefusal::Kept {
                why: Why::Full { .. },
                ..
            },
        ) => unreachable!(),
        Err(ChangeRefusal::Stopped { .. }) => unreachable!(),
    }
}

/// The image of a disk of so many bytes with the parts that the envelopes of the stream carry.
pub fn image_parts<H: Hash32>(alloc: Global, size: u32, stream: &[u8]) -> Result<Answer, Refusal>
    requires { 1 ≤ size }
    ensures { Says result (IsResult H.digest (imaging H.digest size) stream.now) }
{
    let payloads = payloads_of(alloc, stream)?;
    make_image::<H>(alloc, size, &payloads)
}
