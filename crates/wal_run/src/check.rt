//! The command that checks the first proof of bad encoding among recorded envelopes.

ghost use Rattle.wal_shape.specs.MetaRef.{metadata_shown};
ghost use Rattle.wal_run.specs.Checking.{checking};
ghost use Rattle.wal_run.specs.Command.{IsResult};
ghost use Rattle.wal_run.specs.inside.Answers.{Says};
ghost use Rattle.wal_run.specs.inside.Command.{Told, recorded};

use crate::answer::Answer;
use crate::recorded::{metadata_of, payloads_of};
use crate::refusal::Refusal;
use std::alloc::Global;
use wal_evidence::proof_check;
use wal_matrix::Work;
use wal_reader::proof_in;
use wal_shape::{BlobId, MetaRef, Payloads};
use wal_tree::Hash32;

/// What the first proof among the payloads shows under this metadata. A verdict is never a success.
fn check_under<H: Hash32>(
    alloc: Global,
    id: &BlobId,
    payloads: &Payloads,
    m: MetaRef<'_>,
) -> Result<Answer, Refusal>
    ensures { Says result (Told H.digest (checking H.digest id.now)
        (recorded payloads.now (metadata_shown m.entry))) }
{
    let Some(proof) = proof_in(id, payloads) else {
        return Err(Refusal::NoProof);
    };
    let mut work = Work::create(alloc, m.f())?;
    Err(Refusal::Checked(proof_check::<H>(&mut work, m, &proof)))
}

/// The verdict on the first proof of this identifier in the envelopes of the stream, or why there
/// is none.
pub fn check_proof<H: Hash32>(alloc: Global, id: &BlobId, stream: &[u8]) -> Result<Answer, Refusal>
    ensures { Says result (IsResult H.digest (checking H.digest id.now) stream.now) }
{
    let payloads = payloads_of(alloc, stream)?;
    let m = metadata_of::<H>(id, &payloads)?;
    check_under::<H>(alloc, id, &payloads, m)
}
