//! The text of a line.

ghost use Rattle.std.specs.Prelude.{◌≡◌, ◌++◌, codes, decimal, string_bytes, IfOk, OnOk};
ghost use Rattle.wal_event.specs.Report as text;
ghost use Rattle.wal_event.specs.declared.line.Line.TheVariants as kind;

use crate::line::{
    AckWord, AttestWord, BeginWord, CertificateWord, FinishWord, ForgetWord, HoldersWord, Line,
    ReadWord, ReadyWord, RecoverWord, RegisterWord, SendWord, WriteWord,
};
use itoa::Buffer;
use std::alloc::{AllocError, Global};
use wal_shape::{Axis, BlobId};

/// Appends a text.
fn put(line: &mut String, more: &str) -> Result<(), AllocError>
    ensures { OnOk result (string_bytes line.new ≡ string_bytes line.old ++ more.now) }
{
    line.push_str(more)
}

/// Appends a number in decimal digits.
fn put_number(line: &mut String, number: u32) -> Result<(), AllocError>
    ensures { OnOk result (string_bytes line.new ≡ string_bytes line.old ++ decimal number) }
{
    let mut digits = Buffer::new();
    put(line, digits.format(number))
}

/// Appends a text and a number.
fn put_count(line: &mut String, before: &str, number: u32) -> Result<(), AllocError>
    ensures { OnOk result
        (string_bytes line.new ≡ string_bytes line.old ++ (before.now ++ decimal number)) }
{
    put(line, before)?;
    put_number(line, number)
}

/// Appends a text and the number of a shard.
fn put_shard(line: &mut String, before: &str, shard: u16) -> Result<(), AllocError>
    ensures { OnOk result
        (string_bytes line.new ≡ string_bytes line.old ++ (before.now ++ decimal shard)) }
{
    put_count(line, before, u32::from(shard))
}

/// Appends a text and an identifier in digits.
fn put_id(alloc: Global, line: &mut String, before: &str, id: BlobId) -> Result<(), AllocError>
    ensures { OnOk result
        (string_bytes line.new ≡ string_bytes line.old ++ (before.now ++ text.id_text id)) }
{
    put(line, before)?;
    let digits = hex::encode(alloc, id.0)?;
    put(line, digits.as_str())
}

/// Appends bytes in lower-case digits, and a dash where there are none.
fn put_digits(alloc: Global, line: &mut String, bytes: &[u8]) -> Result<(), AllocError>
    ensures { OnOk result
        (string_bytes line.new ≡ string_bytes line.old ++ text.hex_text bytes.now) }
{
    match bytes {
        [] => put(line, "-"),
        [_, ..] => {
            let digits = hex::encode(alloc, bytes)?;
            put(line, digits.as_str())
        }
    }
}

/// Appends a text and bytes in digits.
fn put_bytes(alloc: Global, line: &mut String, before: &str, bytes: &[u8]) -> Result<(), AllocError>
    ensures { OnOk result
        (string_bytes line.new ≡ string_bytes line.old ++ (before.now ++ text.hex_text bytes.now)) }
{
    put(line, before)?;
    put_digits(alloc, line, bytes)
}

/// Appends how many there are, and how many are needed.
fn put_short(line: &mut String, have: u32, need: u32) -> Result<(), AllocError>
    ensures { OnOk result
        (string_bytes line.new ≡ string_bytes line.old ++ text.short_of have need) }
{
    put_count(line, "short ", have)?;
    put_count(line, " of ", need)
}

/// The name of an axis.
fn axis_name(axis: Axis) -> &'static str
    ensures { result.now ≡ text.axis_text axis }
{
    match axis {
        Axis::Primary => "primary",
        Axis::Secondary => "secondary",
    }
}

/// The word of a message that was sent.
fn send_name(word: SendWord) -> &'static str
    ensures { result.now ≡ text.send_text word }
{
    match word {
        SendWord::Absent => "absent",
        SendWord::Ignored => "ignored",
        SendWord::Malformed => "malformed",
        SendWord::Unregistered => "unregistered",
        SendWord::NoMetadata => "no-metadata",
        SendWord::Unverified => "unverified",
        SendWord::Held => "held",
        SendWord::Stored => "stored",
    }
}

/// The word of forgetting.
fn forget_name(word: ForgetWord) -> &'static str
    ensures { result.now ≡ text.forget_text word }
{
    match word {
        ForgetWord::Absent => "absent",
        ForgetWord::Ignored => "ignored",
        ForgetWord::Declined => "declined",
        ForgetWord::Done => "done",
    }
}

/// Appends what a shard said of a blob: a name, the shard, the blob and a space.
fn put_saying(
    alloc: Global,
    line: &mut String,
    name: &str,
    shard: u16,
    id: BlobId,
) -> Result<(), AllocError>
    ensures { OnOk result
        (string_bytes line.new
        ≡ string_bytes line.old
        ++ (name.now ++ decimal shard ++ codes " " ++ text.id_text id ++ codes " ")) }
{
    put_shard(line, name, shard)?;
    put_id(alloc, line, " ", id)?;
    put(line, " ")
}

/// Appends what was asked of a blob: a name, the blob and a space.
fn put_asking(alloc: Global, line: &mut String, name: &str, id: BlobId) -> Result<(), AllocError>
    ensures { OnOk result
        (string_bytes line.new
        ≡ string_bytes line.old ++ (name.now ++ text.id_text id ++ codes " ")) }
{
    put_id(alloc, line, name, id)?;
    put(line, " ")
}

/// The word of a registration.
fn put_registered(line: &mut String, word: RegisterWord) -> Result<(), AllocError>
    ensures { OnOk result
        (string_bytes line.new ≡ string_bytes line.old ++ text.register_text word) }
{
    match word {
        RegisterWord::Until(epoch) => put_count(line, "until ", epoch),
        RegisterWord::RefusedPast => put(line, "refused past"),
        RegisterWord::RefusedMoving => put(line, "refused moving"),
    }
}

/// What came of a registration.
fn put_register(
    alloc: Global,
    line: &mut String,
    id: BlobId,
    word: RegisterWord,
) -> Result<(), AllocError>
    ensures { OnOk result
        (string_bytes line.new ≡ string_bytes line.old ++ text.line_body (kind.Register id word)) }
{
    put_asking(alloc, line, "register ", id)?;
    put_registered(line, word)
}

/// What came of a write.
fn put_write(
    alloc: Global,
    line: &mut String,
    id: BlobId,
    word: &WriteWord,
) -> Result<(), AllocError>
    ensures { OnOk result
        (string_bytes line.new ≡ string_bytes line.old ++ text.line_body (kind.Write id word.now)) }
{
    put_asking(alloc, line, "write ", id)?;
    match word {
        WriteWord::Stored { count, bytes } => {
            put_count(line, "stored ", *count)?;
            put_bytes(alloc, line, " bytes ", bytes.as_slice())
        }
    }
}

/// What came of sending.
fn put_send(line: &mut String, shard: u16, word: SendWord) -> Result<(), AllocError>
    ensures { OnOk result
        (string_bytes line.new ≡ string_bytes line.old ++ text.line_body (kind.Send shard word)) }
{
    put_shard(line, "send ", shard)?;
    put(line, " ")?;
    put(line, send_name(word))
}

/// What came of an acknowledgement.
fn put_ack(
    alloc: Global,
    line: &mut String,
    shard: u16,
    id: BlobId,
    word: AckWord,
) -> Result<(), AllocError>
    ensures { OnOk result
        (string_bytes line.new ≡ string_bytes line.old ++ text.line_body (kind.Ack shard id word)) }
{
    put_saying(alloc, line, "ack ", shard, id)?;
    match word {
        AckWord::Unregistered => put(line, "unregistered"),
        AckWord::Expires => put(line, "expires"),
        AckWord::Declined => put(line, "declined"),
        AckWord::Already => put(line, "already"),
        AckWord::Counted(count) => put_count(line, "counted ", count),
        AckWord::Certified(count) => put_count(line, "certified ", count),
    }
}

/// What came of an attestation.
fn put_attest(
    alloc: Global,
    line: &mut String,
    shard: u16,
    id: BlobId,
    word: AttestWord,
) -> Result<(), AllocError>
    ensures { OnOk result
        (string_bytes line.new
        ≡ string_bytes line.old ++ text.line_body (kind.Attest shard id word)) }
{
    put_saying(alloc, line, "attest ", shard, id)?;
    match word {
        AttestWord::Unregistered => put(line, "unregistered"),
        AttestWord::Expires => put(line, "expires"),
        AttestWord::Declined => put(line, "declined"),
        AttestWord::Already => put(line, "already"),
        AttestWord::Counted(count) => put_count(line, "counted ", count),
        AttestWord::Invalid(count) => put_count(line, "invalid ", count),
    }
}

/// What a read came to.
fn put_read(alloc: Global, line: &mut String, id: BlobId, word: &ReadWord) -> Result<(), AllocError>
    ensures { OnOk result
        (string_bytes line.new ≡ string_bytes line.old ++ text.line_body (kind.Read id word.now)) }
{
    put_asking(alloc, line, "read ", id)?;
    match word {
        ReadWord::Bytes(bytes) => put_bytes(alloc, line, "bytes ", bytes.as_slice()),
        ReadWord::Reject => put(line, "reject"),
        ReadWord::Short { have, need } => put_short(line, *have, *need),
        ReadWord::NoMetadata => put(line, "no-metadata"),
    }
}

/// The word of a recovery.
fn put_recovered(alloc: Global, line: &mut String, word: &RecoverWord) -> Result<(), AllocError>
    ensures { OnOk result
        (string_bytes line.new ≡ string_bytes line.old ++ text.recover_text word.now) }
{
    match word {
        RecoverWord::Absent => put(line, "absent"),
        RecoverWord::Ignored => put(line, "ignored"),
        RecoverWord::Unregistered => put(line, "unregistered"),
        RecoverWord::NoMetadata => put(line, "no-metadata"),
        RecoverWord::Sliver(bytes) => put_bytes(alloc, line, "sliver ", bytes.as_slice()),
        RecoverWord::Inconsistent => put(line, "inconsistent"),
        RecoverWord::Proof => put(line, "proof"),
        RecoverWord::Short { have, need } => put_short(line, *have, *need),
    }
}

/// What came of a recovery.
fn put_recover(
    alloc: Global,
    line: &mut String,
    shard: u16,
    axis: Axis,
    id: BlobId,
    word: &RecoverWord,
) -> Result<(), AllocError>
    ensures { OnOk result
        (string_bytes line.new
        ≡ string_bytes line.old ++ text.line_body (kind.Recover shard axis id word.now)) }
{
    put_shard(line, "recover ", shard)?;
    put(line, " ")?;
    put(line, axis_name(axis))?;
    put_asking(alloc, line, " ", id)?;
    put_recovered(alloc, line, word)
}

/// What came of forgetting.
fn put_forget(
    alloc: Global,
    line: &mut String,
    shard: u16,
    id: BlobId,
    word: ForgetWord,
) -> Result<(), AllocError>
    ensures { OnOk result
        (string_bytes line.new
        ≡ string_bytes line.old ++ text.line_body (kind.Forget shard id word)) }
{
    put_saying(alloc, line, "forget ", shard, id)?;
    put(line, forget_name(word))
}

/// What came of the change's beginning.
fn put_begin(line: &mut String, word: BeginWord) -> Result<(), AllocError>
    ensures { OnOk result
        (string_bytes line.new ≡ string_bytes line.old ++ text.line_body (kind.Begin word)) }
{
    match word {
        BeginWord::Epoch(epoch) => put_count(line, "begin epoch ", epoch),
        BeginWord::RefusedMoving => put(line, "begin refused moving"),
        BeginWord::RefusedLastEpoch => put(line, "begin refused last-epoch"),
    }
}

/// The word of a shard's readiness.
fn put_readied(line: &mut String, word: ReadyWord) -> Result<(), AllocError>
    ensures { OnOk result (string_bytes line.new ≡ string_bytes line.old ++ text.ready_text word) }
{
    match word {
        ReadyWord::RefusedNotMoving => put(line, "refused not-moving"),
        ReadyWord::Declined => put(line, "declined"),
        ReadyWord::Already => put(line, "already"),
        ReadyWord::Counted(count) => put_count(line, "counted ", count),
    }
}

/// What came of a shard's readiness.
fn put_ready(line: &mut String, shard: u16, word: ReadyWord) -> Result<(), AllocError>
    ensures { OnOk result
        (string_bytes line.new ≡ string_bytes line.old ++ text.line_body (kind.Ready shard word)) }
{
    put_shard(line, "ready ", shard)?;
    put(line, " ")?;
    put_readied(line, word)
}

/// What came of the change's end.
fn put_finish(line: &mut String, word: FinishWord) -> Result<(), AllocError>
    ensures { OnOk result
        (string_bytes line.new ≡ string_bytes line.old ++ text.line_body (kind.Finish word)) }
{
    match word {
        FinishWord::Epoch(epoch) => put_count(line, "finish epoch ", epoch),
        FinishWord::Waiting(count) => put_count(line, "finish waiting ", count),
        FinishWord::RefusedNotMoving => put(line, "finish refused not-moving"),
    }
}

/// What came of asking for a certificate.
fn put_certificate(
    alloc: Global,
    line: &mut String,
    id: BlobId,
    word: CertificateWord,
) -> Result<(), AllocError>
    ensures { OnOk result
        (string_bytes line.new
        ≡ string_bytes line.old ++ text.line_body (kind.Certificate id word)) }
{
    put_asking(alloc, line, "certificate ", id)?;
    match word {
        CertificateWord::Certified { epoch, count } => {
            put_count(line, "epoch ", epoch)?;
            put_count(line, " count ", count)
        }
        CertificateWord::Pending(count) => put_count(line, "pending ", count),
    }
}

/// How many shards hold a blob.
fn put_holders(
    alloc: Global,
    line: &mut String,
    id: BlobId,
    word: HoldersWord,
) -> Result<(), AllocError>
    ensures { OnOk result
        (string_bytes line.new ≡ string_bytes line.old ++ text.line_body (kind.Holders id word)) }
{
    put_asking(alloc, line, "holders ", id)?;
    match word {
        HoldersWord::Count(count) => put_number(line, count),
    }
}

/// Two texts with one digest.
fn put_collision(
    alloc: Global,
    line: &mut String,
    left: &[u8],
    right: &[u8],
) -> Result<(), AllocError>
    ensures { OnOk result
        (string_bytes line.new
        ≡ string_bytes line.old ++ text.line_body (kind.Collision left.now right.now)) }
{
    put_bytes(alloc, line, "collision ", left)?;
    put_bytes(alloc, line, " ", right)
}

/// Appends the line without its end.
fn put_body(alloc: Global, whole: &mut String, line: &Line) -> Result<(), AllocError>
    ensures { OnOk result
        (string_bytes whole.new ≡ string_bytes whole.old ++ text.line_body line.now) }
{
    match line {
        Line::Register { id, word } => put_register(alloc, whole, *id, *word),
        Line::Write { id, word } => put_write(alloc, whole, *id, word),
        Line::Send { shard, word } => put_send(whole, *shard, *word),
        Line::Ack { shard, id, word } => put_ack(alloc, whole, *shard, *id, *word),
        Line::Attest { shard, id, word } => put_attest(alloc, whole, *shard, *id, *word),
        Line::Read { id, word } => put_read(alloc, whole, *id, word),
        Line::Recover {
            shard,
            axis,
            id,
            word,
        } => put_recover(alloc, whole, *shard, *axis, *id, word),
        Line::Forget { shard, id, word } => put_forget(alloc, whole, *shard, *id, *word),
        Line::Begin { word } => put_begin(whole, *word),
        Line::Ready { shard, word } => put_ready(whole, *shard, *word),
        Line::Finish { word } => put_finish(whole, *word),
        Line::Certificate { id, word } => put_certificate(alloc, whole, *id, *word),
        Line::Holders { id, word } => put_holders(alloc, whole, *id, *word),
        Line::Collision { left, right } => {
            put_collision(alloc, whole, left.as_slice(), right.as_slice())
        }
    }
}

/// The text of a line, which ends with a newline: the name of the event, what the line shows of it,
/// and the word, with a space between. Numbers are decimal, bytes are in lower-case digits, with a
/// dash if there are none.
#[tactic(auto, unfolding(crate::specs::Report::line_text))]
pub fn line_text(alloc: Global, line: &Line) -> Result<String, AllocError>
    ensures { IfOk result (λ t. string_bytes t ≡ text.line_text line.now) }
{
    let mut text = String::new(alloc);
    put_body(alloc, &mut text, line)?;
    put(&mut text, "\n")?;
    Ok(text)
}
