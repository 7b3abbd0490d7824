//! Recorded envelopes, and the metadata of an identifier among them.

ghost use Rattle.std.specs.Prelude.{◌≡◌, ℕ, List, IfErr, IfOk};
ghost use Rattle.wal_frame.specs.Stream.{IsStream};
ghost use Rattle.wal_reader.specs.Outcome.{IsMetadataIn};
ghost use Rattle.wal_shape.specs.MetaRef.{metadata_shown};
ghost use Rattle.wal_run.specs.inside.Answers.{IsBroken, LacksMetadata, Refuses};

use crate::refusal::Refusal;
use std::alloc::Global;
use wal_commit::collide_metadata;
use wal_frame::{SplitError, split};
use wal_reader::{FoundMetadata, metadata_in};
use wal_shape::{BlobId, MetaRef, Payloads};
use wal_tree::Hash32;

/// The payloads of a stream of envelopes, or where it is malformed.
pub fn payloads_of(alloc: Global, stream: &[u8]) -> Result<Payloads, Refusal>
    ensures payloads { IfOk result (λ payloads. IsStream payloads stream.now) }
    ensures refusal { IfErr result (λ refusal. Refuses refusal (IsBroken stream.now)) }
{
    match split(alloc, stream) {
        Ok(payloads) => Ok(payloads),
        Err(SplitError::Malformed(place)) => Err(Refusal::Malformed(place)),
        Err(SplitError::Memory) => Err(Refusal::Memory),
    }
}

/// The one metadata of the identifier that the payloads carry, or why there is none. Takes no
/// memory.
pub fn metadata_of<'a, H: Hash32>(
    id: &BlobId,
    payloads: &'a Payloads,
) -> Result<MetaRef<'a>, Refusal>
    ensures one { IfOk result
        (λ m. IsMetadataIn H.digest id.now.0 payloads.now (metadata_shown m)) }
    ensures refusal { (input : List ℕ) → IsStream payloads.now input
        → IfErr result (λ refusal. Refuses refusal (LacksMetadata H.digest id.now input)) }
{
    match metadata_in::<H>(id, payloads) {
        FoundMetadata::One(m) => Ok(m),
        FoundMetadata::Absent => Err(Refusal::NoMetadata),
        FoundMetadata::Two(first, second) => {
            let clash = collide_metadata::<H>(first, second);
            Err(Refusal::MetadataClash(clash))
        }
    }
}
