//! The held sliver of an axis and index among the payloads.

ghost use Rattle.std.specs.Prelude.{◌≡◌, ◌↔◌, ℕ, List, IsTrue, IfSome, IfNone};
ghost use Rattle.wal_shape.specs.MetaRef.{metadata_shown};
ghost use Rattle.wal_commit.specs.Held.{HoldsSliver};
ghost use Rattle.wal_reader.specs.Carried.{CarriesHeldSliver, IsFirstHeldSliver, NoHeldSliver};

use crate::carried::sliver_of;
use wal_commit::sliver_holds;
use wal_matrix::Work;
use wal_shape::{Axis, BlobId, MetaRef, Payloads, SliverRef};
use wal_tree::Hash32;

/// Whether this is the sliver of this index, and the metadata commits it.
fn is_held<H: Hash32>(
    work: &mut Work,
    m: MetaRef<'_>,
    axis: Axis,
    index: u16,
    sliver: &SliverRef<'_>,
) -> bool
    requires { work.old.f ≡ (metadata_shown m).f }
    ensures held { IsTrue result ↔ ((sliver.now.index ≡ index)
        × HoldsSliver H.digest (metadata_shown m.entry) axis index sliver.now.bytes.now) }
    ensures f { work.new.f ≡ work.old.f }
{
    sliver.index == index && sliver_holds::<H>(work, m, axis, index, sliver.bytes)
}

/// The sliver of this identifier, axis and index that the payload carries, where the metadata
/// commits it.
fn held_sliver_of<'a, H: Hash32>(
    work: &mut Work,
    id: &BlobId,
    m: MetaRef<'_>,
    axis: Axis,
    index: u16,
    payload: &'a [u8],
) -> Option<SliverRef<'a>>
    requires { work.old.f ≡ (metadata_shown m).f }
    ensures some { IfSome result
        (λ s. CarriesHeldSliver H.digest id.now.0
        (metadata_shown m.entry) axis index payload.now s.bytes.now) }
    ensures axis { IfSome result (λ s. s.axis ≡ axis) }
    ensures index { IfSome result (λ s. s.index ≡ index) }
    ensures none { IfNone result ((bytes : List ℕ)
        → CarriesHeldSliver H.digest id.now.0 (metadata_shown m.entry) axis index payload.now bytes
        → ⊥) }
    ensures f { work.new.f ≡ work.old.f }
{
    match sliver_of(id, axis, payload) {
        Some(sliver) => {
            if is_held::<H>(work, m, axis, index, &sliver) {
                Some(sliver)
            } else {
                None
            }
        }
        None => None,
    }
}

/// The first sliver of this identifier, axis and index that the payloads carry and that the
/// metadata commits. Takes no memory.
pub fn sliver_in<'a, H: Hash32>(
    work: &mut Work,
    id: &BlobId,
    m: MetaRef<'_>,
    axis: Axis,
    index: u16,
    payloads: &'a Payloads,
) -> Option<SliverRef<'a>>
    requires { work.old.f ≡ (metadata_shown m).f }
    ensures first { IfSome result
        (λ s. IsFirstHeldSliver H.digest id.now.0
        (metadata_shown m.entry) axis index payloads.now s.bytes.now) }
    ensures axis { IfSome result (λ s. s.axis ≡ axis) }
    ensures index { IfSome result (λ s. s.index ≡ index) }
    ensures none { IfNone result
        (NoHeldSliver H.digest id.now.0 (metadata_shown m.entry) axis index payloads.now) }
    ensures f { work.new.f ≡ work.old.f }
{
    for payload in payloads.as_slice() {
        if let Some(sliver) = held_sliver_of::<H>(work, id, m, axis, index, payload.as_slice()) {
            return Some(sliver);
        }
    }
    None
}
