//! The command that verifies the answer to a storage challenge.

ghost use Rattle.std.specs.Prelude.{◌≡◌, ◌≤◌};
ghost use Rattle.wal_shape.specs.MetaRef.{metadata_shown};
ghost use Rattle.wal_run.specs.Command.{IsResult};
ghost use Rattle.wal_run.specs.Verifying.{verdict_text, verifying};
ghost use Rattle.wal_run.specs.inside.Answers.{Says};
ghost use Rattle.wal_run.specs.inside.Command.{Told, recorded};
ghost use Rattle.wal_run.specs.inside.Verifying.{verdict_status};

use crate::answer::Answer;
use crate::recorded::{metadata_of, payloads_of};
use crate::refusal::Refusal;
use std::alloc::Global;
use wal_challenge::{AnswerVerdict, check_answer};
use wal_reader::claims_in;
use wal_shape::{Bytes, MetaRef, Payloads};
use wal_tree::Hash32;
use wal_words::Audit;

/// What a verdict on the openings in answer to so many draws says.
fn verdict_answer(alloc: Global, draws: u16, verdict: AnswerVerdict) -> Result<Answer, Refusal>
    ensures { Says result
        (λ s text. (s ≡ verdict_status verdict) × (text ≡ verdict_text draws verdict)) }
{
    match verdict {
        AnswerVerdict::WrongCount(have) => Err(Refusal::WrongCount { have, draws }),
        AnswerVerdict::Wrong(place) => Err(Refusal::Wrong(place)),
        AnswerVerdict::Accepted => {
            let line = Vec::from_slice(alloc, b"accepted\n")?;
            Ok(Answer::Bytes(Bytes::from_vec(line)))
        }
    }
}

/// The verdict on the openings among the payloads under this metadata.
fn verify_under<H: Hash32>(
    alloc: Global,
    audit: &Audit,
    payloads: &Payloads,
    m: MetaRef<'_>,
) -> Result<Answer, Refusal>
    requires least { 1 ≤ audit.now.count }
    requires most { audit.now.count ≤ 1000 }
    ensures { Says result (Told H.digest (verifying H.digest audit.now)
        (recorded payloads.now (metadata_shown m.entry))) }
{
    if u32::from(audit.shard) >= m.shape().n() {
        return Err(Refusal::NoShard);
    }
    let claims = claims_in(alloc, &audit.id, payloads)?;
    let verdict = check_answer::<H>(m, audit.shard, &audit.beacon, audit.count, &claims);
    verdict_answer(alloc, audit.count, verdict)
}

/// Whether the openings in the envelopes of the stream answer the challenge.
pub fn verify_answer<H: Hash32>(
    alloc: Global,
    audit: &Audit,
    stream: &[u8],
) -> Result<Answer, Refusal>
    requires least { 1 ≤ audit.now.count }
    requires most { audit.now.count ≤ 1000 }
    ensures { Says result (IsResult H.digest (verifying H.digest audit.now) stream.now) }
{
    let payloads = payloads_of(alloc, stream)?;
    let m = metadata_of::<H>(&audit.id, &payloads)?;
    verify_under::<H>(alloc, audit, &payloads, m)
}
