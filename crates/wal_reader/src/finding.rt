//! The metadata of an identifier among the payloads.

ghost use Rattle.std.specs.Prelude.{◌≡◌, ◌≢◌, IfSome, IfNone};
ghost use Rattle.wal_shape.specs.Metadata.{BlobMetadata};
ghost use Rattle.wal_shape.specs.MetaRef.{metadata_shown};
ghost use Rattle.wal_reader.specs.Found.{AreFirst, Finds};
ghost use Rattle.wal_reader.specs.Outcome.{CarriesMetadata, HasMetadata, IsFirstMetadata};
ghost use Rattle.wal_reader.specs.Outcome.{IsFirstOther};

use crate::carried::metadata_of;
use wal_commit::metadata_holds;
use wal_shape::{BlobId, Bytes, MetaRef, Payloads};
use wal_tree::Hash32;

/// The metadata of an identifier that payloads carry.
#[derive(Clone, Copy, Debug)]
pub enum FoundMetadata<'a> {
    /// None.
    Absent,
    /// One, which several payloads may carry.
    One(MetaRef<'a>),
    /// Two that differ: the first one, and the first that differs from it.
    Two(MetaRef<'a>, MetaRef<'a>),
}

/// The metadata that the payload carries, where the identifier commits it.
pub(crate) fn committed_in<'a, H: Hash32>(id: &BlobId, payload: &'a [u8]) -> Option<MetaRef<'a>>
    ensures some { IfSome result
        (λ m. CarriesMetadata H.digest id.now.0 (metadata_shown m) payload.now) }
    ensures none { IfNone result
        ((m : BlobMetadata) → CarriesMetadata H.digest id.now.0 m payload.now → ⊥) }
{
    match metadata_of(payload) {
        Some(m) => {
            if metadata_holds::<H>(id, m) {
                Some(m)
            } else {
                None
            }
        }
        None => None,
    }
}

/// The metadata that the payload carries, where it is not this one and the identifier commits it.
pub(crate) fn other_in<'a, H: Hash32>(
    id: &BlobId,
    payload: &'a [u8],
    m: MetaRef<'_>,
) -> Option<MetaRef<'a>>
    ensures some { IfSome result
        (λ other. CarriesMetadata H.digest id.now.0 (metadata_shown other) payload.now) }
    ensures apart { IfSome result (λ other. metadata_shown other ≢ metadata_shown m.entry) }
    ensures none { IfNone result ((other : BlobMetadata)
        → CarriesMetadata H.digest id.now.0 other payload.now → other ≡ metadata_shown m.entry) }
{
    match metadata_of(payload) {
        Some(other) => {
            if other.bytes() != m.bytes() && metadata_holds::<H>(id, other) {
                Some(other)
            } else {
                None
            }
        }
        None => None,
    }
}

/// The first metadata that the identifier commits.
fn first_metadata<'a, H: Hash32>(id: &BlobId, payloads: &'a [Bytes]) -> Option<MetaRef<'a>>
    ensures some { IfSome result
        (λ m. IsFirstMetadata H.digest id.now.0 payloads.now (metadata_shown m)) }
    ensures none { IfNone result
        ((m : BlobMetadata) → HasMetadata H.digest id.now.0 payloads.now m → ⊥) }
{
    for payload in payloads {
        if let Some(m) = committed_in::<H>(id, payload.as_slice()) {
            return Some(m);
        }
    }
    None
}

/// The first metadata that the identifier commits and that differs from this one.
fn other_metadata<'a, H: Hash32>(
    id: &BlobId,
    payloads: &'a [Bytes],
    m: MetaRef<'_>,
) -> Option<MetaRef<'a>>
    ensures some { IfSome result
        (λ other. IsFirstOther H.digest id.now.0 payloads.now
        (metadata_shown m.entry) (metadata_shown other)) }
    ensures none { IfNone result ((other : BlobMetadata)
        → HasMetadata H.digest id.now.0 payloads.now other → other ≡ metadata_shown m.entry) }
{
    for payload in payloads {
        if let Some(other) = other_in::<H>(id, payload.as_slice(), m) {
            return Some(other);
        }
    }
    None
}

/// The metadata that the identifier commits among the payloads. Payloads that carry others are
/// passed over. Takes no memory.
pub fn metadata_in<'a, H: Hash32>(id: &BlobId, payloads: &'a Payloads) -> FoundMetadata<'a>
    ensures found { Finds H.digest id.now.0 payloads.now result }
    // Which two, where there are more.
    ensures first { AreFirst H.digest id.now.0 payloads.now result }
{
    let list = payloads.as_slice();
    match first_metadata::<H>(id, list) {
        Some(m) => match other_metadata::<H>(id, list, m) {
            Some(other) => FoundMetadata::Two(m, other),
            None => FoundMetadata::One(m),
        },
        None => FoundMetadata::Absent,
    }
}
