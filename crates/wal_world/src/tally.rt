//! What is counted of the lines of a run.

ghost use Rattle.std.specs.Prelude.{◌≡◌, ◌+◌, ◌<◌, ◌≤◌, ◌++◌, [], cond, is_some, length, min, List};
ghost use Rattle.std.specs.Prelude.{OnOk, option_map, option_to_list};
ghost use Rattle.std.specs.BTreeSet.{IsFromIterResult, btree_set_len};
ghost use Rattle.std.specs.List.{reduce};
ghost use Rattle.wal_event.specs.declared.line.Line.{Line};
ghost use Rattle.wal_shape.specs.Identifiers.{id_cmp};
ghost use Rattle.wal_shape.specs.declared.metadata.BlobId.{BlobId};
ghost use Rattle.wal_world.specs.Summary.{IsSummary, bytes_in, certified_in, holders_in, sliver_in};
ghost use Rattle.wal_world.specs.inside.Tally.{Counts, IsTally, collision_in};

use crate::summary::Summary;
use std::alloc::{AllocError, Global};
use std::collections::BTreeSet;
use wal_event::{AckWord, HoldersWord, Line, ReadWord, RecoverWord};
use wal_shape::{BlobId, Collision};

/// What is counted of the lines so far.
#[derive(Drop)]
pub(crate) struct Tally {
    /// The number of lines.
    events: u32,
    /// The identifiers with a line that says they are certified.
    certified: BTreeSet<BlobId>,
    /// The number of lines that tell the bytes of a read.
    reads: u32,
    /// The sum of their bytes.
    bytes: u64,
    /// The number of lines that tell a recovered sliver.
    recovered: u32,
    /// The least number of holders that a line tells.
    least_holders: Option<u32>,
}

/// The identifier that a line says is certified.
fn certified_of(line: &Line) -> Option<BlobId>
    ensures { result ≡ certified_in line.now }
{
    match line {
        Line::Ack { id, word, .. } => match word {
            AckWord::Certified(_) => Some(*id),
            _ => None,
        },
        _ => None,
    }
}

/// The number of bytes that a line says were read.
fn size_of_read(line: &Line) -> Option<u64>
    ensures { result ≡ option_map length (bytes_in line.now) }
{
    match line {
        Line::Read { word, .. } => match word {
            ReadWord::Bytes(bytes) => Some(bytes.as_slice().len() as u64),
            _ => None,
        },
        _ => None,
    }
}

/// Whether a line tells a recovered sliver.
fn has_sliver(line: &Line) -> bool
    ensures { result ≡ is_some (sliver_in line.now) }
{
    match line {
        Line::Recover { word, .. } => match word {
            RecoverWord::Sliver(_) => true,
            _ => false,
        },
        _ => false,
    }
}

/// How many holders a line tells.
fn holders_of(line: &Line) -> Option<u32>
    ensures { result ≡ holders_in line.now }
{
    match line {
        Line::Holders { word, .. } => match word {
            HoldersWord::Count(count) => Some(*count),
        },
        _ => None,
    }
}

/// The two texts of a line that is a collision.
pub(crate) fn collision_of(line: Line) -> Option<Collision>
    ensures { result ≡ collision_in line }
{
    match line {
        Line::Collision { left, right } => Some(Collision { left, right }),
        _ => None,
    }
}

/// A count, and one more where there is one.
fn one_more(count: u32, more: bool) -> u32
    requires { count < 65536 }
    ensures { result ≡ count + cond more 1 0 }
{
    if more { count + 1 } else { count }
}

/// The least number so far, and another where there is one.
fn lesser(least: Option<u32>, other: Option<u32>) -> Option<u32>
    ensures { result ≡ reduce min (option_to_list least ++ option_to_list other) }
{
    match least {
        Some(least) => match other {
            Some(other) => Some(least.min(other)),
            None => Some(least),
        },
        None => other,
    }
}

/// Puts an identifier among others, where there is one.
fn put_id(ids: &mut BTreeSet<BlobId>, id: Option<BlobId>) -> Result<(), AllocError>
    ensures { (seen : List BlobId) → IsFromIterResult id_cmp seen ids.old
        → OnOk result (IsFromIterResult id_cmp (seen ++ option_to_list id) ids.new) }
{
    match id {
        Some(id) => {
            ids.insert(id)?;
            Ok(())
        }
        None => Ok(()),
    }
}

impl Tally {
    /// The tally of no lines.
    pub(crate) fn create(alloc: Global) -> Tally
        ensures { IsTally [] result }
    {
        Tally {
            events: 0,
            certified: BTreeSet::new(alloc),
            reads: 0,
            bytes: 0,
            recovered: 0,
            least_holders: None,
        }
    }

    /// Counts one more line.
    pub(crate) fn add(&mut self, line: &Line) -> Result<(), AllocError>
        requires events { self.old.events < 65536 }
        requires reads { self.old.reads < 65536 }
        requires recovered { self.old.recovered < 65536 }
        ensures { OnOk result (Counts line.now self.old self.new) }
    {
        put_id(&mut self.certified, certified_of(line))?;
        let size = size_of_read(line);
        self.events += 1;
        self.reads = one_more(self.reads, size.is_some());
        self.bytes = self.bytes.saturating_add(size.unwrap_or(0));
        self.recovered = one_more(self.recovered, has_sliver(line));
        self.least_holders = lesser(self.least_holders, holders_of(line));
        Ok(())
    }

    /// The summary of the lines.
    pub(crate) fn summary(&self) -> Summary
        requires { btree_set_len self.now.certified ≤ 65536 }
        ensures { (lines : List Line) → IsTally lines self.now → IsSummary lines result }
    {
        Summary {
            events: self.events,
            certified: self.certified.len() as u32,
            reads: self.reads,
            bytes: self.bytes,
            recovered: self.recovered,
            least_holders: self.least_holders.unwrap_or(0),
        }
    }
}
