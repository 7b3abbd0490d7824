//! The command that reads a member of a bundle from recorded envelopes.

ghost use Rattle.std.specs.Prelude.{◌≡◌};
ghost use Rattle.wal_run.specs.Command.{IsResult};
ghost use Rattle.wal_run.specs.Unbundling.{unbundling};
ghost use Rattle.wal_run.specs.inside.Answers.{Says};
ghost use Rattle.wal_run.specs.inside.Unbundling.{member_status, member_text};

use crate::answer::Answer;
use crate::recorded::payloads_of;
use crate::refusal::Refusal;
use std::alloc::Global;
use wal_bundle::{MemberAnswer, member};
use wal_shape::BlobId;
use wal_tree::Hash32;

/// What payloads tell of a member.
fn member_answer(answer: MemberAnswer) -> Result<Answer, Refusal>
    ensures { Says result (λ s text. (s ≡ member_status answer) × (text ≡ member_text answer)) }
{
    match answer {
        MemberAnswer::Member(bytes) => Ok(Answer::Bytes(bytes)),
        MemberAnswer::BadIndex => Err(Refusal::BadIndex),
        MemberAnswer::Missing(j) => Err(Refusal::MissingColumn(j)),
        MemberAnswer::NoMember(count) => Err(Refusal::NoMember(count)),
        MemberAnswer::NoMetadata => Err(Refusal::NoMetadata),
        MemberAnswer::Collision(clash) => Err(Refusal::MetadataClash(clash)),
    }
}

/// Member k of the bundle with this identifier, or why it is not there, from the envelopes of the
/// stream.
pub fn read_member<H: Hash32>(
    alloc: Global,
    id: &BlobId,
    k: u16,
    stream: &[u8],
) -> Result<Answer, Refusal>
    ensures { Says result (IsResult H.digest (unbundling H.digest id.now k) stream.now) }
{
    let payloads = payloads_of(alloc, stream)?;
    let answer = member::<H>(alloc, id, u32::from(k), &payloads)?;
    member_answer(answer)
}
