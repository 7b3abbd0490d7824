//! The held primary slivers among the payloads.

ghost use Rattle.std.specs.Prelude.{◌≡◌, ◌↔◌, ◌<◌, ◌++◌, ◌∷◌, ℕ, List, [], length, IfOk, OnOk};
ghost use Rattle.std.specs.Prelude.{IsTrue, Contains};
ghost use Rattle.wal_shape.specs.declared.axis.Axis.TheVariants.{Primary};
ghost use Rattle.wal_shape.specs.MetaRef.{metadata_shown};
ghost use Rattle.wal_commit.specs.Held.{HoldsSliver};
ghost use Rattle.wal_shape.specs.Shape.{row_count};
ghost use Rattle.wal_reader.specs.Outcome.{Collects};

use crate::carried::sliver_of;
use std::alloc::{AllocError, Global};
use wal_commit::sliver_holds;
use wal_matrix::Work;
use wal_shape::{Axis, BlobId, Bytes, MetaRef, SliverRef};
use wal_tree::Hash32;

/// Slivers that were collected: their indices, and their bytes one after the other.
#[derive(Drop)]
pub(crate) struct Collected {
    pub(crate) indices: Vec<u16>,
    pub(crate) joined: Vec<u8>,
}

/// Whether the index is among these.
fn is_known(indices: &[u16], index: u16) -> bool
    ensures { IsTrue result ↔ Contains indices.now index }
{
    indices.contains(&index)
}

/// Whether this sliver is to be taken: more are needed, its index is new, and the metadata commits
/// it. The length is looked at before the bytes, so that no more is done than the sliver is long.
fn is_wanted<H: Hash32>(
    work: &mut Work,
    m: MetaRef<'_>,
    sliver: &SliverRef<'_>,
    indices: &[u16],
) -> bool
    requires { work.old.f ≡ (metadata_shown m).f }
    ensures wanted { IsTrue result
        ↔ ((length indices.now < row_count (metadata_shown m.entry).f)
        × (Contains indices.now sliver.now.index → ⊥)
        × HoldsSliver H.digest (metadata_shown m.entry)
        Primary sliver.now.index sliver.now.bytes.now) }
    ensures f { work.new.f ≡ work.old.f }
{
    indices.len() <= m.f() as usize
        && sliver.bytes.len() == m.shape().sliver_len(Axis::Primary) as usize
        && !is_known(indices, sliver.index)
        && sliver_holds::<H>(work, m, Axis::Primary, sliver.index, sliver.bytes)
}

/// Appends the sliver that the payload carries, where it is to be taken.
pub(crate) fn add_sliver<H: Hash32>(
    work: &mut Work,
    id: &BlobId,
    m: MetaRef<'_>,
    payload: &[u8],
    collected: &mut Collected,
) -> Result<(), AllocError>
    requires { work.old.f ≡ (metadata_shown m).f }
    ensures added { (payloads : List (List ℕ))
        → Collects H.digest id.now.0 (metadata_shown m.entry) payloads
        collected.old.indices.items collected.old.joined.items
        → OnOk result (Collects H.digest id.now.0 (metadata_shown m.entry)
        (payloads ++ payload.now ∷ []) collected.new.indices.items collected.new.joined.items) }
    ensures f { work.new.f ≡ work.old.f }
{
    if let Some(sliver) = sliver_of(id, Axis::Primary, payload) {
        if is_wanted::<H>(work, m, &sliver, &collected.indices) {
            collected.indices.push(sliver.index)?;
            collected.joined.extend_from_slice(sliver.bytes)?;
        }
    }
    Ok(())
}

/// Collects the held primary slivers, in order, the first of each index, up to as many as are
/// needed.
pub(crate) fn collect<H: Hash32>(
    alloc: Global,
    work: &mut Work,
    id: &BlobId,
    m: MetaRef<'_>,
    payloads: &[Bytes],
) -> Result<Collected, AllocError>
    requires { work.old.f ≡ (metadata_shown m).f }
    ensures collects { IfOk result
        (λ c. Collects H.digest id.now.0 (metadata_shown m.entry)
        payloads.now c.indices.items c.joined.items) }
    ensures f { work.new.f ≡ work.old.f }
{
    let need = m.f() as usize + 1;
    let mut collected = Collected {
        indices: Vec::new(alloc),
        joined: Vec::new(alloc),
    };
    for payload in payloads {
        if collected.indices.len() == need {
            return Ok(collected);
        }
        add_sliver::<H>(work, id, m, payload.as_slice(), &mut collected)?;
    }
    Ok(collected)
}
