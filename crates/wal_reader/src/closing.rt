//! The answer from what is kept of the payloads.

ghost use Rattle.std.specs.Prelude.{◌≡◌, ℕ, List, IfOk};
ghost use Rattle.wal_evidence.specs.BadProof.{IsBadProof};
ghost use Rattle.wal_evidence.specs.Evidence.{AreHeld};
ghost use Rattle.wal_evidence.specs.declared.evidence.Basis.TheVariants.{Proof, Slivers};
ghost use Rattle.wal_reader.specs.Heard.{HasKept, HasKnown};
ghost use Rattle.wal_reader.specs.Outcome.{IsAnswer};
ghost use Rattle.wal_reader.specs.inside.Outcome.{IsAnswerOf};

use crate::collecting::Collected;
use crate::kept::Kept;
use crate::known::Known;
use crate::outcome::{Outcome, ReadAnswer};
use crate::reading::{judged, without_evidence};
use std::alloc::{AllocError, Global};
use wal_evidence::{Basis, Evidence};
use wal_matrix::Work;
use wal_shape::{BadProof, Bytes, Metadata, Shards};
use wal_tree::Hash32;

/// The verdict on enough slivers.
fn from_slivers<H: Hash32>(
    alloc: Global,
    metadata: Metadata,
    mut work: Work,
    collected: Collected,
) -> Result<ReadAnswer, AllocError>
    requires f { work.f ≡ metadata.f }
    requires held { AreHeld H.digest metadata collected.indices.items collected.joined.items }
    ensures { IfOk result (IsAnswerOf H.digest (record {
      metadata = metadata;
      basis = Slivers collected.indices.items collected.joined.items;
    })) }
{
    let Collected { indices, joined } = collected;
    let basis = Basis::Slivers {
        indices: Shards::from_vec(indices),
        joined: Bytes::from_vec(joined),
    };
    judged::<H>(alloc, &mut work, Evidence { metadata, basis })
}

/// The rejection by a bad proof.
fn from_proof<H: Hash32>(
    alloc: Global,
    metadata: Metadata,
    mut work: Work,
    p: BadProof,
) -> Result<ReadAnswer, AllocError>
    requires f { work.f ≡ metadata.f }
    requires held { IsBadProof H.digest metadata p }
    ensures { IfOk result (IsAnswerOf H.digest (record { metadata = metadata; basis = Proof p })) }
{
    let basis = Basis::Proof(p);
    judged::<H>(alloc, &mut work, Evidence { metadata, basis })
}

/// The answer for the one metadata.
fn answer_one<H: Hash32>(alloc: Global, known: Known) -> Result<ReadAnswer, AllocError>
    requires { (id : List ℕ) × (payloads : List (List ℕ)) × HasKnown H.digest id known payloads }
    ensures { (id : List ℕ) (payloads : List (List ℕ)) → HasKnown H.digest id known payloads
        → IfOk result (IsAnswer H.digest id payloads) }
{
    let Known {
        metadata,
        work,
        collected,
        proof,
    } = known;
    let need = metadata.view().f() + 1;
    let have = collected.indices.len() as u32;
    if need <= have {
        return from_slivers::<H>(alloc, metadata, work, collected);
    }
    match proof {
        Some(p) => from_proof::<H>(alloc, metadata, work, p),
        None => Ok(without_evidence(Outcome::Short { have, need })),
    }
}

/// The answer for the payloads that this was kept of.
pub(crate) fn answer_kept<H: Hash32>(alloc: Global, kept: Kept) -> Result<ReadAnswer, AllocError>
    requires { (id : List ℕ) × (payloads : List (List ℕ)) × HasKept H.digest id kept payloads }
    ensures { (id : List ℕ) (payloads : List (List ℕ)) → HasKept H.digest id kept payloads
        → IfOk result (IsAnswer H.digest id payloads) }
{
    match kept {
        Kept::Waiting(_) => Ok(without_evidence(Outcome::NoMetadata)),
        Kept::One(known) => answer_one::<H>(alloc, known),
        Kept::Two(clash) => Ok(without_evidence(Outcome::Collision(clash))),
    }
}
