//! The command that makes a bundle of the members in recorded envelopes.

ghost use Rattle.std.specs.Prelude.{◌≤◌};
ghost use Rattle.wal_run.specs.Bundling.{bundling};
ghost use Rattle.wal_run.specs.Command.{IsResult};
ghost use Rattle.wal_run.specs.inside.Answers.{Says};
ghost use Rattle.wal_run.specs.inside.Command.{Told};

use crate::answer::Answer;
use crate::recorded::payloads_of;
use crate::refusal::Refusal;
use std::alloc::Global;
use wal_bundle::{BundleError, bundle};
use wal_shape::Payloads;
use wal_tree::Hash32;

/// The bundle of the members, or why there is none.
fn bundled<H: Hash32>(alloc: Global, faults: u32, members: &Payloads) -> Result<Answer, Refusal>
    requires least { 1 ≤ faults }
    requires most { faults ≤ 333 }
    ensures { Says result (Told H.digest (bundling faults) members.now) }
{
    match bundle(alloc, faults, members) {
        Ok(bytes) => Ok(Answer::Bytes(bytes)),
        Err(BundleError::BadFaults) => unreachable!(),
        Err(BundleError::TooMany) => Err(Refusal::TooManyMembers),
        Err(BundleError::TooLong) => Err(Refusal::BundleTooLong),
        Err(BundleError::Memory) => Err(Refusal::Memory),
    }
}

/// The bundle of the payloads of the envelopes of the stream, or why there is none.
pub fn bundle_members<H: Hash32>(
    alloc: Global,
    faults: u32,
    stream: &[u8],
) -> Result<Answer, Refusal>
    requires least { 1 ≤ faults }
    requires most { faults ≤ 333 }
    ensures { Says result (IsResult H.digest (bundling faults) stream.now) }
{
    let members = payloads_of(alloc, stream)?;
    bundled::<H>(alloc, faults, &members)
}
