//! The envelopes in which a blob's metadata and slivers are written: each is made in one buffer, or
//! only its front, where the bytes of a sliver are written from where they lie.

ghost use Rattle.std.specs.Prelude.{◌≡◌, ◌≤◌, ◌<◌, ◌+◌, ◌*◌, ◌∷◌, ◌++◌, List, ℕ, length, min, IfOk};
ghost use Rattle.std.specs.Prelude.{OnOk, OnErr};
ghost use Rattle.std.specs.Int.{w16, w32};
ghost use Rattle.std.specs.Io.KnownBytes.{Appends};
ghost use Rattle.wal_port.specs.Faults.{Rose};
ghost use Rattle.wal_port.specs.Appending.{AppendsPart};
ghost use Rattle.wal_shape.specs.Shape.{row_count, symbol_size, most_bytes};
ghost use Rattle.wal_shape.specs.Metadata.{IsMetadata};
ghost use Rattle.wal_shape.specs.MetaRef.{metadata_shown};
ghost use Rattle.wal_shape.specs.Spelling.{metadata_text, number_text};
ghost use Rattle.wal_shape.specs.Opening.{IsBody, opening_shown};
ghost use Rattle.wal_frame.specs.Frame.{IsFrame, Metadata, Opening, envelope, frame_text};
ghost use Rattle.wal_frame.specs.Frame.{metadata_frame, sliver_frame};
ghost use Rattle.wal_frame.specs.Shown.{IsLentKind, frame_shown};

use std::alloc::{AllocError, Global};
use wal_frame::{FrameRef, OutBuf, sliver_head, write_frame};
use wal_port::{Sink, WriteFault, put_all};
use wal_shape::{Axis, BlobId, Format, MetaRef, OpeningRef, Shape};

/// How many bytes an envelope has more than the metadata that it carries.
const METADATA_EXTRA: u32 = 8;

/// How many bytes an envelope has more than the sliver that it carries.
const SLIVER_EXTRA: u32 = 47;

/// How many bytes the frame of a sliver has more than the sliver.
const FRAME_EXTRA: u32 = 40;

/// The byte that an envelope begins with.
const ENVELOPE: u8 = 0x57;

/// Symbols of so many bytes are written from where they lie. Shorter ones of a column are laid one
/// after the other first, so that not each of them is a write.
pub const LONG: u32 = 8192;

/// Room for the first symbols of a column where they are short, and no less.
fn laid_room(shape: &Shape) -> u32
    ensures value { result
        ≡ row_count shape.now.f * min (symbol_size shape.now.f shape.now.length) 8192 }
    ensures most { result < 77497472 }
{
    if shape.symbol_size() < LONG {
        return shape.sliver_len(Axis::Secondary);
    }
    shape.rows() * LONG
}

/// Room for the envelope of a blob's metadata, and for that of the first symbols of a column if
/// they are short.
pub fn room_for(shape: &Shape, metadata: MetaRef<'_>) -> u32
    ensures metadata { 8 + length (metadata_text (metadata_shown metadata.entry)) ≤ result }
    ensures sliver { 47
        + row_count shape.now.f * min (symbol_size shape.now.f shape.now.length) 8192
        ≤ result }
    // The reference shows a metadata.
    ensures fit { IsMetadata (metadata_shown metadata.entry) }
{
    let of_metadata = METADATA_EXTRA + metadata.bytes().len() as u32;
    let of_column = SLIVER_EXTRA + laid_room(shape);
    of_metadata.max(of_column)
}

/// The envelope of a frame, for which there is so much room.
pub fn frame_envelope(
    alloc: Global,
    room: u32,
    sender: u16,
    frame: &FrameRef<'_>,
) -> Result<OutBuf, AllocError>
    requires frame { IsFrame (frame_shown frame.now) }
    requires kind { IsLentKind frame.now }
    requires room { length (envelope sender (frame_text (frame_shown frame.now))) ≤ room }
    ensures { IfOk result
        (λ out. out.bytes ≡ envelope sender (frame_text (frame_shown frame.now))) }
{
    let mut out = OutBuf::create(alloc, room)?;
    write_frame(&mut out, sender, frame);
    Ok(out)
}

/// Writes the envelope of a frame, for which the emptied buffer has room.
fn put_frame<K: Sink>(
    sink: &mut K,
    out: &mut OutBuf,
    sender: u16,
    frame: &FrameRef<'_>,
) -> Result<(), WriteFault>
    requires frame { IsFrame (frame_shown frame.now) }
    requires kind { IsLentKind frame.now }
    requires buffer { length (envelope sender (frame_text (frame_shown frame.now)))
        ≤ out.old.spare + length out.old.bytes }
    ensures whole { OnOk result (Appends (K.written sink.old) (K.written sink.new)
        (envelope sender (frame_text (frame_shown frame.now)))) }
    ensures part { OnErr result (AppendsPart (K.written sink.old) (K.written sink.new)
        (envelope sender (frame_text (frame_shown frame.now)))) }
    ensures fault { OnErr result (Rose (K.faults sink.old) (K.faults sink.new)) }
    ensures later { K.faults sink.old ≤ K.faults sink.new }
    ensures buffer { out.new.spare + length out.new.bytes ≡ out.old.spare + length out.old.bytes }
{
    out.clear();
    write_frame(out, sender, frame);
    put_all(sink, out.bytes())
}

/// The frame of a metadata, whose format decides the kind.
fn frame_of(metadata: MetaRef<'_>) -> FrameRef<'_>
    ensures shown { frame_shown result ≡ Metadata (metadata_shown metadata.entry) }
    ensures kind { IsLentKind result }
{
    match metadata.format() {
        Format::One => FrameRef::Metadata(metadata),
        Format::Two => FrameRef::Metadata2(metadata),
    }
}

/// Writes the envelope of a metadata, which comes from no shard.
pub fn put_metadata<K: Sink>(
    sink: &mut K,
    out: &mut OutBuf,
    metadata: MetaRef<'_>,
) -> Result<(), WriteFault>
    requires metadata { IsMetadata (metadata_shown metadata) }
    requires buffer { 8 + length (metadata_text (metadata_shown metadata))
        ≤ out.old.spare + length out.old.bytes }
    ensures whole { OnOk result (Appends (K.written sink.old) (K.written sink.new)
        (envelope 0 (metadata_frame (metadata_shown metadata.entry)))) }
    ensures part { OnErr result (AppendsPart (K.written sink.old) (K.written sink.new)
        (envelope 0 (metadata_frame (metadata_shown metadata.entry)))) }
    ensures fault { OnErr result (Rose (K.faults sink.old) (K.faults sink.new)) }
    ensures later { K.faults sink.old ≤ K.faults sink.new }
    ensures buffer { out.new.spare + length out.new.bytes ≡ out.old.spare + length out.old.bytes }
{
    put_frame(sink, out, 0, &frame_of(metadata))
}

/// Puts what an envelope begins with into the emptied buffer: the byte, the sender and the size of
/// the payload.
fn begin(out: &mut OutBuf, sender: u16, size: u32)
    requires { 7 ≤ out.old.spare + length out.old.bytes }
    ensures text { out.new.bytes ≡ 0x57 ∷ (number_text w16 sender ++ number_text w32 size) }
    ensures buffer { out.new.spare + length out.new.bytes ≡ out.old.spare + length out.old.bytes }
{
    out.clear();
    out.put(&[ENVELOPE]);
    out.put(&sender.to_be_bytes());
    out.put(&size.to_be_bytes());
}

/// Puts what stands before a sliver's bytes in its envelope into the emptied buffer.
pub fn begin_sliver(out: &mut OutBuf, shard: u16, id: BlobId, axis: Axis, index: u16, size: u32)
    requires size { size ≤ most_bytes }
    requires buffer { 47 ≤ out.old.spare + length out.old.bytes }
    ensures joins { (bytes : List ℕ) → length bytes ≡ size
        → out.new.bytes ++ bytes ≡ envelope shard (sliver_frame id.0 axis index bytes) }
    ensures long { length out.new.bytes ≡ 47 }
    ensures buffer { out.new.spare + length out.new.bytes ≡ out.old.spare + length out.old.bytes }
{
    begin(out, shard, FRAME_EXTRA + size);
    out.put(&sliver_head(&id, axis, index, size));
}

/// Writes the envelope of an opening with its target.
pub fn put_opening<K: Sink>(
    sink: &mut K,
    out: &mut OutBuf,
    sender: u16,
    id: BlobId,
    axis: Axis,
    index: u16,
    opening: OpeningRef<'_>,
) -> Result<(), WriteFault>
    requires index { index ≤ 999 }
    requires opening { IsBody (opening_shown opening) }
    requires buffer { 50 + length opening.symbol.now + length opening.path.now
        ≤ out.old.spare + length out.old.bytes }
    ensures whole { OnOk result (Appends (K.written sink.old) (K.written sink.new)
        (envelope sender (frame_text (Opening id.0 axis index (opening_shown opening.entry))))) }
    ensures part { OnErr result (AppendsPart (K.written sink.old) (K.written sink.new)
        (envelope sender (frame_text (Opening id.0 axis index (opening_shown opening.entry))))) }
    ensures fault { OnErr result (Rose (K.faults sink.old) (K.faults sink.new)) }
    ensures later { K.faults sink.old ≤ K.faults sink.new }
    ensures buffer { out.new.spare + length out.new.bytes ≡ out.old.spare + length out.old.bytes }
{
    let frame = FrameRef::Opening {
        id,
        axis,
        index,
        opening,
    };
    put_frame(sink, out, sender, &frame)
}
