//! Writing frames.

ghost use Rattle.std.specs.Prelude.{◌≡◌, ℕ, ◌+◌, ◌-◌, ◌≤◌, List, [], ◌∷◌, ◌++◌, length, take, IfOk};
ghost use Rattle.std.specs.Prelude.{Ok};
ghost use Rattle.std.specs.Int.{w16, w32};
ghost use Rattle.wal_shape.specs.Shape.{most_bytes};
ghost use Rattle.wal_shape.specs.Metadata.{IsMetadata};
ghost use Rattle.wal_shape.specs.Opening.{IsBody, opening_shown};
ghost use Rattle.wal_shape.specs.Spelling.{number_text, axis_number, metadata_text, body_text};
ghost use Rattle.wal_shape.specs.Spelling.{proof_text};
ghost use Rattle.wal_shape.specs.MetaRef.{metadata_shown};
ghost use Rattle.wal_shape.specs.ProofRef.{proof_shown};
ghost use Rattle.wal_frame.specs.Frame.{Frame, IsFrame, target_text, sliver_front, sliver_frame};
ghost use Rattle.wal_frame.specs.Frame.{frame_text, envelope};
ghost use Rattle.wal_frame.specs.Shown.{frame_shown, IsLentKind};
ghost use Rattle.wal_frame.specs.Reading.{read_of};
ghost use Rattle.wal_frame.specs.Stream.{stream_of, behind};
ghost use Rattle.wal_frame.specs.Buffer.{Buffer, appended};

use crate::buffer::{OutBuf, Room};
use crate::frame::FrameRef;
use crate::reading::{
    ACK, ACK_ENTRY, ANSWER, ATTEST, ATTEST_ENTRY, CLASH, FORGET, METADATA, METADATA2, OPENING,
    PROOF, READ, REGISTER_ENTRY, SLIVER, SYMBOL,
};
use std::alloc::{AllocError, Global};
use wal_shape::{Axis, BlobId, Bytes, MetaRef, OpeningRef, ProofRef, SliverRef};

/// The number of bytes of a digest.
const DIGEST_SIZE: usize = 32;

/// Writes a kind and an identifier.
fn put_name(out: &mut Room, kind: u8, id: BlobId)
    requires { 33 ≤ out.old.spare }
    ensures text { out.new ≡ appended out.old (kind ∷ id.0) }
    ensures room { out.new.spare ≡ out.old.spare - 33 }
    ensures size { length id.0 ≡ 32 }
{
    out.put(&[kind]);
    out.put(&id.0);
}

/// Writes a kind, an identifier, an axis and an index.
fn put_target(out: &mut Room, kind: u8, id: BlobId, axis: Axis, index: u16)
    requires { 36 ≤ out.old.spare }
    ensures text { out.new ≡ appended out.old (kind ∷ target_text id.0 axis index) }
    ensures room { out.new.spare ≡ out.old.spare - 36 }
    ensures size { length id.0 ≡ 32 }
{
    put_name(out, kind, id);
    out.put(&[axis.number()]);
    out.put(&index.to_be_bytes());
}

/// Writes a metadata behind its kind.
fn put_metadata(out: &mut Room, kind: u8, metadata: MetaRef<'_>)
    requires metadata { IsMetadata (metadata_shown metadata) }
    requires room { 1 + length (metadata_text (metadata_shown metadata)) ≤ out.old.spare }
    ensures { out.new ≡ appended out.old (kind ∷ metadata_text (metadata_shown metadata.entry)) }
{
    out.put(&[kind]);
    out.put(metadata.bytes());
}

/// Writes a sliver.
fn put_sliver(out: &mut Room, id: BlobId, sliver: SliverRef<'_>)
    requires size { length sliver.bytes.now ≤ most_bytes }
    requires room { 40 + length sliver.bytes.now ≤ out.old.spare }
    ensures { out.new
        ≡ appended out.old
        (sliver_frame id.0 sliver.entry.axis sliver.entry.index sliver.entry.bytes.now) }
{
    let size = sliver.bytes.len() as u32;
    put_target(out, SLIVER, id, sliver.axis, sliver.index);
    out.put(&size.to_be_bytes());
    out.put(sliver.bytes);
}

/// Writes the cross and the symbol of an opening.
fn put_symbol(out: &mut Room, cross: u16, symbol: &[u8])
    requires size { length symbol.now ≤ most_bytes }
    requires room { 6 + length symbol.now ≤ out.old.spare }
    ensures text { out.new
        ≡ appended out.old
        (number_text w16 cross ++ number_text w32 (length symbol.now) ++ symbol.now) }
    ensures room { out.new.spare ≡ out.old.spare - 6 - length symbol.now }
{
    let size = symbol.len() as u32;
    out.put(&cross.to_be_bytes());
    out.put(&size.to_be_bytes());
    out.put(symbol);
}

/// Writes an opening body.
fn put_body(out: &mut Room, opening: OpeningRef<'_>)
    requires opening { IsBody (opening_shown opening) }
    requires room { 7 + length opening.symbol.now + length opening.path.now ≤ out.old.spare }
    ensures { out.new ≡ appended out.old (body_text (opening_shown opening.entry)) }
{
    let count = (opening.path.len() / DIGEST_SIZE) as u8;
    put_symbol(out, opening.cross, opening.symbol);
    out.put(&[count]);
    out.put(opening.path);
}

/// Writes an opening.
fn put_opening(out: &mut Room, id: BlobId, axis: Axis, index: u16, opening: OpeningRef<'_>)
    requires opening { IsBody (opening_shown opening) }
    requires room { 43 + length opening.symbol.now + length opening.path.now ≤ out.old.spare }
    ensures { out.new
        ≡ appended out.old
        (0x12 ∷ (target_text id.0 axis index ++ body_text (opening_shown opening.entry))) }
{
    put_target(out, OPENING, id, axis, index);
    put_body(out, opening);
}

/// Writes a proof.
fn put_proof(out: &mut Room, id: BlobId, body: ProofRef<'_>)
    requires { 33 + length (proof_text (proof_shown body)) ≤ out.old.spare }
    ensures { out.new ≡ appended out.old (0x13 ∷ (id.0 ++ proof_text (proof_shown body.entry))) }
{
    put_name(out, PROOF, id);
    out.put(body.bytes());
}

/// Writes an answer.
fn put_answer(out: &mut Room, code: u8, a: u32, b: u32)
    requires { 10 ≤ out.old.spare }
    ensures { out.new
        ≡ appended out.old (0x30 ∷ (code ∷ [] ++ number_text w32 a ++ number_text w32 b)) }
{
    out.put(&[ANSWER, code]);
    out.put(&a.to_be_bytes());
    out.put(&b.to_be_bytes());
}

/// Writes a text behind its size.
fn put_text(out: &mut Room, text: &[u8])
    requires size { length text.now ≤ 65 }
    requires room { 1 + length text.now ≤ out.old.spare }
    ensures text { out.new ≡ appended out.old (length text.now ∷ text.now) }
    ensures room { out.new.spare ≡ out.old.spare - 1 - length text.now }
{
    out.put(&[text.len() as u8]);
    out.put(text);
}

/// Writes two texts.
fn put_clash(out: &mut Room, left: &[u8], right: &[u8])
    requires left { length left.now ≤ 65 }
    requires right { length right.now ≤ 65 }
    requires room { 3 + length left.now + length right.now ≤ out.old.spare }
    ensures { out.new
        ≡ appended out.old (0x31 ∷ (length left.now ∷ left.now ++ length right.now ∷ right.now)) }
{
    out.put(&[CLASH]);
    put_text(out, left);
    put_text(out, right);
}

/// Writes a registration.
fn put_register(out: &mut Room, id: BlobId, until: u32)
    requires { 37 ≤ out.old.spare }
    ensures { out.new ≡ appended out.old (0x40 ∷ (id.0 ++ number_text w32 until)) }
{
    put_name(out, REGISTER_ENTRY, id);
    out.put(&until.to_be_bytes());
}

/// Writes a kind, a shard and an identifier.
fn put_entry(out: &mut Room, kind: u8, shard: u16, id: BlobId)
    requires { 35 ≤ out.old.spare }
    ensures text { out.new ≡ appended out.old (kind ∷ (number_text w16 shard ++ id.0)) }
    ensures size { length id.0 ≡ 32 }
{
    out.put(&[kind]);
    out.put(&shard.to_be_bytes());
    out.put(&id.0);
}

/// Appends a frame.
pub(crate) fn put_frame(out: &mut Room, frame: &FrameRef<'_>)
    requires frame { IsFrame (frame_shown frame.now) }
    requires kind { IsLentKind frame.now }
    requires room { length (frame_text (frame_shown frame.now)) ≤ out.old.spare }
    ensures { out.new ≡ appended out.old (frame_text (frame_shown frame.now)) }
{
    match *frame {
        FrameRef::Metadata(metadata) => put_metadata(out, METADATA, metadata),
        FrameRef::Sliver { id, sliver } => put_sliver(out, id, sliver),
        FrameRef::Opening {
            id,
            axis,
            index,
            opening,
        } => put_opening(out, id, axis, index, opening),
        FrameRef::Proof { id, body } => put_proof(out, id, body),
        FrameRef::Metadata2(metadata) => put_metadata(out, METADATA2, metadata),
        FrameRef::Read { id } => put_name(out, READ, id),
        FrameRef::Symbol { id, axis, index } => put_target(out, SYMBOL, id, axis, index),
        FrameRef::Ack { id } => put_name(out, ACK, id),
        FrameRef::Attest { id } => put_name(out, ATTEST, id),
        FrameRef::Forget { id } => put_name(out, FORGET, id),
        FrameRef::Answer { code, a, b } => put_answer(out, code, a, b),
        FrameRef::Clash { left, right } => put_clash(out, left, right),
        FrameRef::RegisterEntry { id, until } => put_register(out, id, until),
        FrameRef::AckEntry { shard, id } => put_entry(out, ACK_ENTRY, shard, id),
        FrameRef::AttestEntry { shard, id } => put_entry(out, ATTEST_ENTRY, shard, id),
    }
}

/// The number of bytes of a frame.
fn frame_size(frame: &FrameRef<'_>) -> usize
    requires { IsFrame (frame_shown frame.now) }
    ensures { result ≡ length (frame_text (frame_shown frame.now)) }
{
    match *frame {
        FrameRef::Metadata(metadata) | FrameRef::Metadata2(metadata) => 1 + metadata.bytes().len(),
        FrameRef::Sliver { id: _, sliver } => 40 + sliver.bytes.len(),
        FrameRef::Opening { opening, .. } => 43 + opening.symbol.len() + opening.path.len(),
        FrameRef::Proof { id: _, body } => 33 + body.bytes().len(),
        FrameRef::Read { .. }
        | FrameRef::Ack { .. }
        | FrameRef::Attest { .. }
        | FrameRef::Forget { .. } => 33,
        FrameRef::Symbol { .. } => 36,
        FrameRef::Answer { .. } => 10,
        FrameRef::Clash { left, right } => 3 + left.len() + right.len(),
        FrameRef::RegisterEntry { .. } => 37,
        FrameRef::AckEntry { .. } | FrameRef::AttestEntry { .. } => 35,
    }
}

/// A frame as bytes, without an envelope.
pub fn frame_bytes(alloc: Global, frame: &FrameRef<'_>) -> Result<Bytes, AllocError>
    // The fields are in range.
    requires frame { IsFrame (frame_shown frame.now) }
    // The variant of a metadata is that of its format.
    requires kind { IsLentKind frame.now }
    ensures { IfOk result (λ bytes. bytes ≡ frame_text (frame_shown frame.now)) }
{
    let mut out = Room::create(alloc, frame_size(frame))?;
    put_frame(&mut out, frame);
    Ok(out.into_bytes())
}

/// Writes a part of a text from a place on.
fn put_part(text: &mut [u8], at: usize, part: &[u8])
    requires { at + length part.now ≤ length text.old }
    ensures written { take (at + length part.now) text.new ≡ take at text.old ++ part.now }
    ensures size { length text.new ≡ length text.old }
{
    text[at..at + part.len()].copy_from_slice(part);
}

/// The kind, the identifier, the axis, the index and the size of a sliver's frame.
fn sliver_fields(id: &BlobId, axis: Axis, index: u16, size: u32) -> [u8; 40]
    ensures { result ≡ sliver_front id.now.0 axis index size }
{
    let mut head = [0; 40];
    put_part(&mut head, 0, &[SLIVER]);
    put_part(&mut head, 1, &id.0);
    put_part(&mut head, 33, &[axis.number()]);
    put_part(&mut head, 34, &index.to_be_bytes());
    put_part(&mut head, 36, &size.to_be_bytes());
    head
}

/// The front of a sliver's frame: the kind, the identifier, the axis, the index and the size.
pub fn sliver_head(id: &BlobId, axis: Axis, index: u16, size: u32) -> [u8; 40]
    ensures head { result ≡ sliver_front id.now.0 axis index size }
    // The sliver's bytes behind it are the whole frame.
    ensures joins { (bytes : List ℕ) → length bytes ≡ size
        → result ++ bytes ≡ sliver_frame id.now.0 axis index bytes }
{
    sliver_fields(id, axis, index, size)
}

/// Appends a frame in an envelope from this sender, as `read_frame` and `split` describe them.
/// Takes no memory.
pub fn write_frame(out: &mut OutBuf, sender: u16, frame: &FrameRef<'_>)
    // The fields are in range.
    requires frame { IsFrame (frame_shown frame.now) }
    // The variant of a metadata is that of its format.
    requires kind { IsLentKind frame.now }
    // There is room.
    requires room { length (envelope sender (frame_text (frame_shown frame.now))) ≤ out.old.spare }
    ensures written { out.new
        ≡ appended out.old (envelope sender (frame_text (frame_shown frame.now))) }
    // The frame is read again.
    ensures read { read_of (frame_text (frame_shown frame.now)) ≡ Ok (frame_shown frame.now) }
    // Its envelope is split again, whatever follows.
    ensures again { (rest : List ℕ)
        → stream_of (envelope sender (frame_text (frame_shown frame.now)) ++ rest)
        ≡ behind (frame_text (frame_shown frame.now) ∷ [])
        (length (envelope sender (frame_text (frame_shown frame.now)))) (stream_of rest) }
{
    out.put_head(sender, frame_size(frame));
    out.put_frame(frame);
}
