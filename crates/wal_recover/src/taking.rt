//! The openings that hold, the first of each cross.

ghost use Rattle.std.specs.Prelude.{◌≡◌, ◌↔◌, ◌<◌, length, slice_index_or, IfOk, OnOk, IsTrue};
ghost use Rattle.std.specs.Prelude.{false};
ghost use Rattle.wal_shape.specs.MetaRef.{metadata_shown};
ghost use Rattle.wal_commit.specs.Held.{HoldsOpening};
ghost use Rattle.wal_evidence.specs.BadProof.{crosses_of};
ghost use Rattle.wal_evidence.specs.inside.Marks.{Marks};
ghost use Rattle.wal_evidence.specs.FirstOfEach.{Adds};
ghost use Rattle.wal_recover.specs.Recovery.{GivesOpening, Takes};

use std::alloc::{AllocError, Global};
use wal_commit::opening_holds;
use wal_shape::{Axis, MetaRef, Opening};
use wal_tree::Hash32;

/// The most shards.
const MOST_SHARDS: usize = 1000;

/// Copies of the openings that were taken, and a flag for each of their crosses.
#[derive(Drop)]
struct Collected {
    taken: Vec<Opening>,
    seen: [bool; MOST_SHARDS],
}

/// Whether no opening of this cross was seen, and this one holds. Nothing is hashed for a cross
/// that was seen.
fn is_new<H: Hash32>(
    m: MetaRef<'_>,
    axis: Axis,
    index: u16,
    opening: &Opening,
    seen: &[bool],
) -> bool
    requires { length seen.now ≡ 1000 }
    ensures new { IsTrue result ↔ ((IsTrue (slice_index_or seen.now opening.now.cross false) → ⊥)
        × HoldsOpening H.digest (metadata_shown m.entry) axis index opening.now) }
    ensures small { HoldsOpening H.digest (metadata_shown m.entry) axis index opening.now
        → opening.now.cross < 1000 }
{
    let cross = opening.cross;
    u32::from(cross) < m.shape().n()
        && !seen[cross as usize]
        && opening_holds::<H>(m, axis, index, &opening.view())
}

/// Takes the opening, where it is to be taken.
fn add_opening<H: Hash32>(
    alloc: Global,
    m: MetaRef<'_>,
    axis: Axis,
    index: u16,
    most: u16,
    opening: &Opening,
    collected: &mut Collected,
) -> Result<(), AllocError>
    requires { Marks collected.old.seen (crosses_of collected.old.taken.items) }
    ensures added { OnOk result (Adds (GivesOpening H.digest (metadata_shown m.entry) axis index)
        (λ o. o.cross) most opening.now collected.old.taken.items collected.new.taken.items) }
    ensures marks { OnOk result (Marks collected.new.seen (crosses_of collected.new.taken.items)) }
{
    if collected.taken.len() < most as usize
        && is_new::<H>(m, axis, index, opening, &collected.seen)
    {
        collected.taken.push(opening.duplicate(alloc)?)?;
        collected.seen[opening.cross as usize] = true;
    }
    Ok(())
}

/// Copies of the openings that hold, in order, the first of each cross, up to `most`.
pub(crate) fn take_openings<H: Hash32>(
    alloc: Global,
    m: MetaRef<'_>,
    axis: Axis,
    index: u16,
    most: u16,
    openings: &[Opening],
) -> Result<Vec<Opening>, AllocError>
    ensures { IfOk result
        (λ v. Takes H.digest (metadata_shown m.entry) axis index openings.now most v.items) }
{
    let mut collected = Collected {
        taken: Vec::new(alloc),
        seen: [false; MOST_SHARDS],
    };
    for opening in openings {
        add_opening::<H>(alloc, m, axis, index, most, opening, &mut collected)?;
    }
    Ok(collected.taken)
}

/// The cross of each opening.
pub(crate) fn copy_crosses(alloc: Global, openings: &[Opening]) -> Result<Vec<u16>, AllocError>
    ensures { IfOk result (λ v. v.items ≡ crosses_of openings.now) }
{
    let mut crosses = Vec::with_capacity(alloc, openings.len())?;
    for opening in openings {
        crosses.push(opening.cross)?;
    }
    Ok(crosses)
}
