//! Replies: what the shard and the ledger answer, as a code and two numbers.

ghost use Rattle.std.specs.Prelude.{◌≡◌, ◌^◌, ◌≤◌, length};
ghost use Rattle.wal_frame.specs.Reading.{IsPlaceBelow};
ghost use Rattle.wal_frame.specs.Buffer.{appended};
ghost use Rattle.wal_frame.specs.Frame.{envelope};
ghost use Rattle.wal_ledger.specs.declared.answers.RegisterAnswer.TheVariants.{MovingExtension};
ghost use Rattle.wal_serve.specs.Reply.{reply, done, refused, malformed, put_reply, refusal_reply};
ghost use Rattle.wal_serve.specs.Reply.{ack_reply, attest_reply, IsRegisterReply, reply_text};
ghost use Rattle.wal_serve.specs.Reply.{clash_text, outcome_text, clash_in};
ghost use Rattle.wal_serve.specs.inside.Reply.{HasCode};

use wal_frame::{FrameError, FrameRef, OutBuf, write_frame};
use wal_ledger::{AckAnswer, AttestAnswer, RegisterAnswer};
use wal_shape::MetaClash;
use wal_shard::{AckRefusal, PutAnswer};

/// A reply: a code, and two numbers that the code gives a meaning.
///
/// | Code | Meaning | a | b |
/// |---|---|---|---|
/// | 0 | done | the resulting `until`, or the number of frames, else 0 | 0 |
/// | 1 | the blob is not registered | 0 | 0 |
/// | 2 | what was put does not verify | 0 | 0 |
/// | 3 | no metadata is held | 0 | 0 |
/// | 5 | what is held does not back it | 0 | 0 |
/// | 6 | there are too few free pages | needed | free |
/// | 7 | there was no memory | 0 | 0 |
/// | 8 | the blob is not kept beyond the epoch | 0 | 0 |
/// | 9 | malformed | 1 to 4 by fault, 5 no request, 6 no shard, 7 too long | a bad field's place |
/// | 10 | the ledger has no room | 0 | 0 |
/// | 11 | the part is held | 0 | 0 |
/// | 12 | the shard's node said so before | 0 | 0 |
/// | 13 | so many shards said so | their number | 0 |
/// | 14 | so many shards said so, a quorum | their number | 0 |
/// | 15 | the registration does not exceed the epoch | 0 | 0 |
#[derive(Clone, Copy, Debug, Drop)]
pub(crate) struct Reply {
    pub(crate) code: u8,
    pub(crate) a: u32,
    pub(crate) b: u32,
}

/// What was asked is done.
pub(crate) fn done(a: u32) -> Reply
    ensures value { result ≡ done a }
    ensures code { result.code ≤ 15 }
{
    Reply { code: 0, a, b: 0 }
}

/// A refusal without numbers.
pub(crate) fn refused(code: u8) -> Reply
    requires { code ≤ 15 }
    ensures value { result ≡ refused code }
    ensures code { result.code ≤ 15 }
{
    Reply { code, a: 0, b: 0 }
}

/// A payload that no request is made of.
pub(crate) fn unfit(a: u32) -> Reply
    ensures value { result ≡ reply 9 a 0 }
    ensures code { result.code ≤ 15 }
{
    Reply { code: 9, a, b: 0 }
}

/// A payload that is no frame.
pub(crate) fn malformed(fault: FrameError) -> Reply
    requires { IsPlaceBelow (2 ^ 32) fault }
    ensures value { result ≡ malformed fault }
    ensures code { result.code ≤ 15 }
{
    match fault {
        FrameError::Truncated => unfit(1),
        FrameError::BadKind => unfit(2),
        FrameError::BadField(place) => Reply {
            code: 9,
            a: 3,
            b: place as u32,
        },
        FrameError::Trailing => unfit(4),
    }
}

/// What `put` answered: a reply, or two texts of one digest.
pub(crate) fn put_reply(answer: PutAnswer) -> Result<Reply, MetaClash>
    ensures value { result ≡ put_reply answer }
    ensures code { HasCode result }
{
    match answer {
        PutAnswer::Stored => Ok(done(0)),
        PutAnswer::Held => Ok(refused(11)),
        PutAnswer::Unregistered => Ok(refused(1)),
        PutAnswer::NoMetadata => Ok(refused(3)),
        PutAnswer::Unverified => Ok(refused(2)),
        PutAnswer::OtherMetadata(clash) => Err(clash),
        PutAnswer::Full { needed, free } => Ok(Reply {
            code: 6,
            a: needed,
            b: free,
        }),
        PutAnswer::Memory => Ok(refused(7)),
    }
}

/// Why the shard neither acknowledges nor attests.
pub(crate) fn refusal_reply(refusal: AckRefusal) -> Reply
    ensures value { result ≡ refusal_reply refusal }
    ensures code { result.code ≤ 15 }
{
    match refusal {
        AckRefusal::Unregistered => refused(1),
        AckRefusal::Expires => refused(8),
        AckRefusal::Declined => refused(5),
    }
}

/// So many shards said so.
fn counted(code: u8, count: u32) -> Reply
    requires { code ≤ 15 }
    ensures value { result ≡ reply code count 0 }
    ensures code { result.code ≤ 15 }
{
    Reply {
        code,
        a: count,
        b: 0,
    }
}

/// What the ledger's `ack` answered.
pub(crate) fn ack_reply(answer: AckAnswer) -> Reply
    ensures value { result ≡ ack_reply answer }
    ensures code { result.code ≤ 15 }
{
    match answer {
        AckAnswer::Counted(count) => counted(13, count),
        AckAnswer::Certified(count) => counted(14, count),
        AckAnswer::Already => refused(12),
        AckAnswer::Unregistered => refused(1),
        AckAnswer::Expires => refused(8),
        AckAnswer::NoRoom => refused(10),
    }
}

/// What the ledger's `attest` answered.
pub(crate) fn attest_reply(answer: AttestAnswer) -> Reply
    ensures value { result ≡ attest_reply answer }
    ensures code { result.code ≤ 15 }
{
    match answer {
        AttestAnswer::Counted(count) => counted(13, count),
        AttestAnswer::Invalid(count) => counted(14, count),
        AttestAnswer::Already => refused(12),
        AttestAnswer::Unregistered => refused(1),
        AttestAnswer::Expires => refused(8),
        AttestAnswer::NoRoom => refused(10),
    }
}

/// What the ledger's `register` answered, whose epoch is not changing.
pub(crate) fn register_reply(answer: RegisterAnswer) -> Reply
    requires { answer ≡ MovingExtension → ⊥ }
    ensures value { IsRegisterReply answer result }
    ensures code { result.code ≤ 15 }
{
    match answer {
        RegisterAnswer::Registered(until) => done(until),
        RegisterAnswer::Past => refused(15),
        RegisterAnswer::NoRoom => refused(10),
        RegisterAnswer::MovingExtension => unreachable!(),
    }
}

/// Appends a reply in an envelope from this shard.
pub(crate) fn write_reply(out: &mut OutBuf, own: u16, reply: Reply)
    requires code { reply.code ≤ 15 }
    requires room { 17 ≤ out.old.spare }
    ensures written { out.new ≡ appended out.old (envelope own (reply_text reply)) }
    ensures fits { length (envelope own (reply_text reply)) ≤ out.old.spare }
{
    let Reply { code, a, b } = reply;
    write_frame(out, own, &FrameRef::Answer { code, a, b });
}

/// Appends two texts of one digest in an envelope from this shard.
fn write_clash(out: &mut OutBuf, own: u16, clash: &MetaClash)
    requires room { 140 ≤ out.old.spare }
    ensures written { out.new ≡ appended out.old (envelope own (clash_text clash.now)) }
    ensures fits { length (envelope own (clash_text clash.now)) ≤ out.old.spare }
{
    let left = clash.left.bytes();
    let right = clash.right.bytes();
    write_frame(out, own, &FrameRef::Clash { left, right });
}

/// Appends the one frame that is answered. The result is what ends serving.
pub(crate) fn write_outcome(
    out: &mut OutBuf,
    own: u16,
    outcome: Result<Reply, MetaClash>,
) -> Option<MetaClash>
    requires code { HasCode outcome }
    requires room { 140 ≤ out.old.spare }
    ensures clash { result ≡ clash_in outcome }
    ensures written { out.new ≡ appended out.old (envelope own (outcome_text outcome)) }
    ensures fits { length (envelope own (outcome_text outcome)) ≤ out.old.spare }
{
    match outcome {
        Ok(reply) => {
            write_reply(out, own, reply);
            None
        }
        Err(clash) => {
            write_clash(out, own, &clash);
            Some(clash)
        }
    }
}
