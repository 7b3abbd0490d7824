//! The command that recovers a sliver from recorded openings.

ghost use Rattle.std.specs.Prelude.{◌≡◌, ◌≤◌, ◌+◌, ℕ, length, IfOk};
ghost use Rattle.wal_shape.specs.Shape.{sliver_symbols, most_bytes};
ghost use Rattle.wal_shape.specs.EncodingProof.{IsProof};
ghost use Rattle.wal_shape.specs.MetaRef.{metadata_shown};
ghost use Rattle.wal_shape.specs.Spelling.{proof_text};
ghost use Rattle.wal_frame.specs.Frame.{Proof, envelope, frame_text, sliver_frame};
ghost use Rattle.wal_reader.specs.Carried.{openings_in};
ghost use Rattle.wal_recover.specs.Recovery.{OpeningsComeTo};
ghost use Rattle.wal_run.specs.Command.{IsResult};
ghost use Rattle.wal_run.specs.Recovering.{recovering};
ghost use Rattle.wal_run.specs.inside.Answers.{Says};
ghost use Rattle.wal_run.specs.inside.Command.{Told, recorded};
ghost use Rattle.wal_run.specs.inside.Recovering.{Fits, recovered_status, recovered_text};

use crate::answer::Answer;
use crate::envelope::frame_envelope;
use crate::recorded::{metadata_of, payloads_of};
use crate::refusal::Refusal;
use std::alloc::{AllocError, Global};
use wal_evidence::symbol_count;
use wal_frame::{FrameRef, OutBuf};
use wal_matrix::Work;
use wal_reader::openings_in;
use wal_recover::{Recovered, recover};
use wal_shape::{Axis, BadProof, BlobId, MetaRef, Payloads, SliverRef};
use wal_tree::Hash32;

/// How many bytes an envelope has more than the sliver that it carries.
const SLIVER_EXTRA: u32 = 47;

/// How many bytes an envelope has more than the proof that it carries.
const PROOF_EXTRA: u32 = 40;

/// The envelope of a recovered sliver.
fn sliver_envelope(
    alloc: Global,
    id: BlobId,
    axis: Axis,
    index: u16,
    bytes: &[u8],
) -> Result<OutBuf, AllocError>
    requires index { index ≤ 999 }
    requires size { length bytes.now ≤ most_bytes }
    ensures { IfOk result
        (λ out. out.bytes ≡ envelope index (sliver_frame id.0 axis index bytes.now)) }
{
    let sliver = SliverRef { axis, index, bytes };
    let room = SLIVER_EXTRA + bytes.len() as u32;
    frame_envelope(alloc, room, index, &FrameRef::Sliver { id, sliver })
}

/// The envelope of the proof that a sliver was encoded badly.
fn proof_envelope(
    alloc: Global,
    id: BlobId,
    index: u16,
    proof: &BadProof,
) -> Result<OutBuf, AllocError>
    requires size { IsProof proof.now → length (proof_text proof.now) ≤ 33554432 }
    ensures { IfOk result (λ out. out.bytes ≡ envelope index (frame_text (Proof id.0 proof.now))) }
{
    let body = proof.view();
    let room = PROOF_EXTRA + body.bytes().len() as u32;
    frame_envelope(alloc, room, index, &FrameRef::Proof { id, body })
}

/// What openings come to, of which a sliver of the axis needs so many.
fn recovered_answer(
    alloc: Global,
    id: &BlobId,
    need: u32,
    axis: Axis,
    index: u16,
    recovered: &Recovered,
) -> Result<Answer, Refusal>
    requires index { index ≤ 999 }
    requires fits { Fits recovered.now }
    ensures { (f : ℕ) → need ≡ sliver_symbols axis f
        → Says result (λ s text. (s ≡ recovered_status recovered.now)
        × (text ≡ recovered_text id.now.0 f axis index recovered.now)) }
{
    match recovered {
        Recovered::Sliver(bytes) => {
            let out = sliver_envelope(alloc, *id, axis, index, bytes.as_slice())?;
            Ok(Answer::Sliver(out))
        }
        Recovered::Inconsistent(proof) => {
            let out = proof_envelope(alloc, *id, index, proof)?;
            Ok(Answer::Proof(out))
        }
        Recovered::Short(have) => Err(Refusal::Short { have: *have, need }),
    }
}

/// What the openings of a sliver among the payloads come to.
fn recovered<H: Hash32>(
    alloc: Global,
    id: &BlobId,
    axis: Axis,
    index: u16,
    payloads: &Payloads,
    m: MetaRef<'_>,
) -> Result<Recovered, AllocError>
    ensures recovery { IfOk result (OpeningsComeTo H.digest (metadata_shown m.entry)
        axis index (openings_in id.now.0 axis index payloads.now)) }
    ensures fits { IfOk result Fits }
{
    let openings = openings_in(alloc, id, axis, index, payloads)?;
    let mut work = Work::create(alloc, m.f())?;
    let recovery = recover::<H>(alloc, &mut work, m, axis, index, &openings)?;
    Ok(recovery.outcome)
}

/// What the openings of a sliver come to under this metadata.
fn recover_under<H: Hash32>(
    alloc: Global,
    id: &BlobId,
    axis: Axis,
    index: u16,
    payloads: &Payloads,
    m: MetaRef<'_>,
) -> Result<Answer, Refusal>
    requires index { index ≤ 999 }
    ensures { Says result (Told H.digest (recovering H.digest id.now axis index)
        (recorded payloads.now (metadata_shown m.entry))) }
{
    let need = symbol_count(&m.shape(), axis) as u32;
    let outcome = recovered::<H>(alloc, id, axis, index, payloads, m)?;
    recovered_answer(alloc, id, need, axis, index, &outcome)
}

/// The sliver of this identifier, axis and index, the proof that it was encoded badly, or why
/// neither is there, from the envelopes of the stream.
pub fn recover_sliver<H: Hash32>(
    alloc: Global,
    id: &BlobId,
    axis: Axis,
    index: u16,
    stream: &[u8],
) -> Result<Answer, Refusal>
    requires index { index ≤ 999 }
    ensures { Says result (IsResult H.digest (recovering H.digest id.now axis index) stream.now) }
{
    let payloads = payloads_of(alloc, stream)?;
    let m = metadata_of::<H>(id, &payloads)?;
    recover_under::<H>(alloc, id, axis, index, &payloads, m)
}
