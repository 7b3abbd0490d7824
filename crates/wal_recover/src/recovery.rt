//! Recovering a sliver.

ghost use Rattle.std.specs.Prelude.{◌≡◌, ℕ, List, length, IfOk};
ghost use Rattle.wal_shape.specs.Shape.{sliver_symbols};
ghost use Rattle.wal_shape.specs.MetaRef.{metadata_shown};
ghost use Rattle.wal_evidence.specs.BadProof.{crosses_of};
ghost use Rattle.wal_evidence.specs.Evidence.{CommitsMatrix};
ghost use Rattle.wal_evidence.specs.inside.FirstOfEach.{AreTaken};
ghost use Rattle.wal_commit.specs.Held.{HoldsOpening};
ghost use Rattle.wal_recover.specs.Recovery.{AreCrosses, TakenComeTo, HasCommittedSliver, IsCount};
ghost use Rattle.wal_recover.specs.Recovery.{IsOwnOrFalse, OpeningsComeTo};
ghost use Rattle.wal_recover.specs.declared.outcome.Recovered.{Recovered};

use crate::outcome::{Recovered, Recovery};
use crate::solving::solved;
use crate::taking::{copy_crosses, take_openings};
use std::alloc::{AllocError, Global};
use wal_evidence::symbol_count;
use wal_matrix::Work;
use wal_shape::{Axis, MetaRef, Opening, Openings, Shards};
use wal_tree::Hash32;

/// What the openings that were taken come to.
fn settle<H: Hash32>(
    alloc: Global,
    work: &mut Work,
    m: MetaRef<'_>,
    axis: Axis,
    index: u16,
    crosses: &[u16],
    taken: Vec<Opening>,
) -> Result<Recovered, AllocError>
    requires f { work.old.f ≡ (metadata_shown m).f }
    requires taken { AreTaken (HoldsOpening H.digest (metadata_shown m) axis index)
        (λ o. o.cross) (sliver_symbols axis (metadata_shown m).f) taken.items }
    requires crosses { crosses.now ≡ crosses_of taken.items }
    ensures comes { IfOk result
        (TakenComeTo H.digest (metadata_shown m.entry) axis index taken.items) }
    ensures f { work.new.f ≡ work.old.f }
{
    let need = u32::from(symbol_count(&m.shape(), axis));
    let count = taken.len() as u32;
    if count < need {
        return Ok(Recovered::Short(count));
    }
    solved::<H>(
        alloc,
        work,
        m,
        axis,
        index,
        crosses,
        &Openings::from_vec(taken),
    )
}

/// Recovers the sliver of this axis and index (the Walrus paper, "Red Stuff", recovery).
///
/// The first opening of each cross that holds is taken, in order, up to the number of symbols of a
/// sliver. If there are fewer, the answer is their number. If the codeword through them has
/// the metadata's root, it is the sliver; else the openings that were taken are a proof of bad
/// encoding.
pub fn recover<H: Hash32>(
    alloc: Global,
    work: &mut Work,
    m: MetaRef<'_>,
    axis: Axis,
    index: u16,
    openings: &Openings,
) -> Result<Recovery, AllocError>
    requires { work.old.f ≡ (metadata_shown m).f }
    ensures recovery { IfOk result
        (λ r. OpeningsComeTo H.digest (metadata_shown m.entry) axis index openings.now r.outcome) }
    // There is no other outcome.
    ensures only { IfOk result (λ r. (other : Recovered)
        → OpeningsComeTo H.digest (metadata_shown m.entry) axis index openings.now other
        → other ≡ r.outcome) }
    ensures taken { IfOk result
        (λ r. AreCrosses H.digest (metadata_shown m.entry) axis index openings.now r.taken) }
    ensures count { IfOk result
        (λ r. IsCount axis (metadata_shown m.entry).f r.outcome (length r.taken)) }
    // A recovered sliver is the one that the metadata commits.
    ensures committed { IfOk result
        (λ r. HasCommittedSliver H.digest (metadata_shown m.entry) axis index r.outcome) }
    ensures f { work.new.f ≡ work.old.f }
    // Of a committed blob: the sliver is the matrix's own, or another one though the metadata
    // commits both; a proof has an opening that the metadata commits, though its symbol is not the
    // matrix's.
    ensures own { IfOk result
        (λ r. (blob matrix : List ℕ) → CommitsMatrix H.digest (metadata_shown m.entry) blob matrix
        → IsOwnOrFalse H.digest (metadata_shown m.entry) axis index matrix r.outcome) }
{
    let most = symbol_count(&m.shape(), axis);
    let taken = take_openings::<H>(alloc, m, axis, index, most, openings.as_slice())?;
    let crosses = copy_crosses(alloc, &taken)?;
    let outcome = settle::<H>(alloc, work, m, axis, index, &crosses, taken)?;
    Ok(Recovery {
        outcome,
        taken: Shards::from_vec(crosses),
    })
}
