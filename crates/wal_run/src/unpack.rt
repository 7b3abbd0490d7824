//! The command that lists the parts that an image holds.

ghost use Rattle.std.specs.Prelude.{◌≡◌, ◌++◌, IfOk, OnOk};
ghost use Rattle.wal_store.specs.Contents.{parts_at, part_at};
ghost use Rattle.wal_run.specs.Command.{IsResult};
ghost use Rattle.wal_run.specs.Unpacking.{part_word, part_line, part_text, holding_text};
ghost use Rattle.wal_run.specs.Unpacking.{contents_text, unpacking};
ghost use Rattle.wal_run.specs.inside.Answers.{Says};

use crate::answer::Answer;
use crate::lines::add_number;
use crate::refusal::Refusal;
use std::alloc::{AllocError, Global};
use wal_journal::{FlatDisk, Journal, OpenFault, OpenRefusal};
use wal_shape::{BlobId, Bytes, Part};
use wal_store::{Keep, MapKeep};
use wal_tree::Hash32;

/// The word of a part.
fn word_of(part: Part) -> &'static [u8]
    ensures { result.now ≡ part_word part }
{
    match part {
        Part::Metadata => b"metadata",
        Part::Primary => b"primary",
        Part::Secondary => b"secondary",
        Part::Proof => b"proof",
    }
}

/// Appends the line of a part of this size.
fn add_line(text: &mut Vec<u8>, id: &BlobId, part: Part, size: u32) -> Result<(), AllocError>
    ensures { OnOk result (text.new.items ≡ text.old.items ++ part_line id.now part size) }
{
    let mut digits = [0u8; 64];
    let Ok(()) = hex::encode_to_slice(id.0.as_slice(), &mut digits) else {
        unreachable!()
    };
    text.extend_from_slice(&digits)?;
    text.extend_from_slice(b" ")?;
    text.extend_from_slice(word_of(part))?;
    add_number(text, b" ", u64::from(size))
}

/// Appends the line of a part, where it is held.
fn add_part<K: Keep>(
    text: &mut Vec<u8>,
    keep: &K,
    id: &BlobId,
    part: Part,
) -> Result<(), AllocError>
    ensures { OnOk result (text.new.items
        ≡ text.old.items ++ part_text id.now part (part_at (K.contents keep.now) id.now part)) }
{
    match keep.size(id, part) {
        Some(size) => add_line(text, id, part, size),
        None => Ok(()),
    }
}

/// Appends the lines of the parts under an identifier.
fn add_holding<K: Keep>(text: &mut Vec<u8>, keep: &K, id: &BlobId) -> Result<(), AllocError>
    ensures { OnOk result (text.new.items
        ≡ text.old.items ++ holding_text id.now (parts_at (K.contents keep.now) id.now)) }
{
    add_part(text, keep, id, Part::Metadata)?;
    add_part(text, keep, id, Part::Primary)?;
    add_part(text, keep, id, Part::Secondary)?;
    add_part(text, keep, id, Part::Proof)
}

/// The lines of all parts that a keep holds.
fn contents_lines<K: Keep>(alloc: Global, keep: &K) -> Result<Vec<u8>, AllocError>
    ensures { IfOk result (λ text. text.items ≡ contents_text (K.contents keep.now)) }
{
    let mut text = Vec::new(alloc);
    let mut last = None;
    while let Some(id) = keep.next_id(last) {
        add_holding(&mut text, keep, &id)?;
        last = Some(id);
    }
    Ok(text)
}

/// The lines of the parts that an image holds, or where it is malformed.
pub fn unpack_image<H: Hash32>(alloc: Global, image: &[u8]) -> Result<Answer, Refusal>
    ensures { Says result (IsResult H.digest unpacking image.now) }
{
    if image.is_empty() {
        return Err(Refusal::Malformed(0));
    }
    let bytes = Vec::from_slice(alloc, image)?;
    let keep = MapKeep::create(alloc, None)?;
    match Journal::open(alloc, FlatDisk::create(bytes), keep) {
        Ok(journal) => {
            let text = contents_lines(alloc, journal.keep())?;
            Ok(Answer::Bytes(Bytes::from_vec(text)))
        }
        Err(
            OpenRefusal {
                why: OpenFault::BadRecord(at),
                ..
            },
        ) => Err(Refusal::Malformed(at)),
        Err(
            OpenRefusal {
                why: OpenFault::Memory,
                ..
            },
        ) => Err(Refusal::Memory),
        // A keep without a limit is never full, and this disk never fails.
        Err(
            OpenRefusal {
                why: OpenFault::Full { .. } | OpenFault::DiskFault,
                ..
            },
        ) => unreachable!(),
    }
}
