//! The command that writes a blob's metadata and slivers.

ghost use Rattle.std.specs.Prelude.{◌≡◌, ◌≤◌, ◌+◌, ◌*◌, length, min, IfOk, OnOk, OnErr};
ghost use Rattle.std.specs.Io.KnownBytes.{Appends};
ghost use Rattle.std.specs.List.{flat_map, range_with_len};
ghost use Rattle.wal_port.specs.Faults.{Rose};
ghost use Rattle.wal_port.specs.Appending.{AppendsPart};
ghost use Rattle.wal_shape.specs.Shape.{IsShape, row_count, most_bytes};
ghost use Rattle.wal_shape.specs.Metadata.{IsMetadata};
ghost use Rattle.wal_shape.specs.Spelling.{metadata_text};
ghost use Rattle.wal_matrix.specs.Matrix.{IsExtended, shards, symbol_bytes};
ghost use Rattle.wal_commit.specs.Identifier.{identifier_of, metadata_over};
ghost use Rattle.wal_run.specs.inside.Writing.{Performs};
ghost use Rattle.wal_run.specs.Command.{IsResult};
ghost use Rattle.wal_run.specs.Encoding.{encoding};
ghost use Rattle.wal_run.specs.Envelope.{all_envelopes};

use crate::envelope::{put_metadata, room_for};
use crate::finish::{NO_MEMORY, SINK_FAILED, shape_of};
use crate::slivers::put_slivers;
use std::alloc::{AllocError, Global};
use wal_commit::{identify, metadata_of};
use wal_frame::OutBuf;
use wal_matrix::{Encoded, extend};
use wal_port::{Sink, WriteFault};
use wal_shape::{BlobId, Format, Metadata, Shape};
use wal_tree::Hash32;

/// What is written, and the room that the writing needs.
#[derive(Drop)]
struct Parcel {
    encoded: Encoded,
    metadata: Metadata,
    id: BlobId,
    out: OutBuf,
}

/// Makes all that is written, so that the writing takes no memory.
fn parcel_of<H: Hash32>(alloc: Global, shape: &Shape, blob: &[u8]) -> Result<Parcel, AllocError>
    requires { length blob.now ≡ shape.now.length }
    ensures shape { IfOk result (λ p. p.encoded.shape ≡ shape.now) }
    ensures matrix { IfOk result (λ p. IsExtended shape.now.f blob.now p.encoded.cells) }
    ensures metadata { IfOk result
        (λ p. p.metadata ≡ metadata_over H.digest shape.now p.encoded.cells) }
    ensures id { IfOk result (λ p. p.id.0 ≡ identifier_of H.digest p.metadata) }
    ensures fit { IfOk result (λ p. IsMetadata p.metadata) }
    ensures metadata_room { IfOk result
        (λ p. 8 + length (metadata_text p.metadata) ≤ p.out.spare + length p.out.bytes) }
    ensures sliver_room { IfOk result
        (λ p. 47 + row_count p.encoded.shape.f * min (symbol_bytes p.encoded) 8192
        ≤ p.out.spare + length p.out.bytes) }
{
    let encoded = extend(alloc, shape, blob)?;
    let metadata = metadata_of::<H>(alloc, &encoded)?;
    let id = identify::<H>(metadata.view());
    let out = OutBuf::create(alloc, room_for(shape, metadata.view()))?;
    Ok(Parcel {
        encoded,
        metadata,
        id,
        out,
    })
}

/// Writes all envelopes: that of the metadata, and then those of each shard in turn.
fn put_parcel<K: Sink>(sink: &mut K, parcel: &mut Parcel) -> Result<(), WriteFault>
    requires faults { parcel.old.metadata.f ≡ parcel.old.encoded.shape.f }
    requires format { parcel.old.metadata.format ≡ parcel.old.encoded.shape.format }
    requires fit { IsShape parcel.old.encoded.shape.f parcel.old.encoded.shape.length }
    requires whole { length parcel.old.encoded.cells
        ≡ shards parcel.old.encoded * shards parcel.old.encoded * symbol_bytes parcel.old.encoded }
    requires metadata { IsMetadata parcel.old.metadata }
    requires metadata_room { 8 + length (metadata_text parcel.old.metadata)
        ≤ parcel.old.out.spare + length parcel.old.out.bytes }
    requires sliver_room { 47
        + row_count parcel.old.encoded.shape.f * min (symbol_bytes parcel.old.encoded) 8192
        ≤ parcel.old.out.spare + length parcel.old.out.bytes }
    ensures whole { OnOk result (Appends (K.written sink.old) (K.written sink.new) (all_envelopes
        parcel.old.id.0 parcel.old.metadata parcel.old.encoded.shape parcel.old.encoded.cells)) }
    ensures part { OnErr result
        (AppendsPart (K.written sink.old) (K.written sink.new) (all_envelopes parcel.old.id.0
        parcel.old.metadata parcel.old.encoded.shape parcel.old.encoded.cells)) }
    ensures fault { OnErr result (Rose (K.faults sink.old) (K.faults sink.new)) }
    ensures later { K.faults sink.old ≤ K.faults sink.new }
{
    let Parcel {
        encoded,
        metadata,
        id,
        out,
    } = parcel;
    put_metadata(sink, out, metadata.view())?;
    put_slivers(sink, out, encoded, metadata, id)
}

/// Writes the metadata and all slivers of a blob in this format, and gives the status.
pub fn encode<H: Hash32, K: Sink>(
    alloc: Global,
    faults: u32,
    format: Format,
    blob: &[u8],
    sink: &mut K,
) -> u8
    requires least { 1 ≤ faults }
    requires most { faults ≤ 333 }
    requires small { length blob.now ≤ most_bytes }
    ensures performs { Performs
        (IsResult H.digest (encoding H.digest faults format) blob.now) (K.written sink.old)
        (K.written sink.new) (Rose (K.faults sink.old) (K.faults sink.new)) result }
    ensures later { K.faults sink.old ≤ K.faults sink.new }
{
    let shape = shape_of(faults, format, blob);
    match parcel_of::<H>(alloc, &shape, blob) {
        Ok(mut parcel) => match put_parcel(sink, &mut parcel) {
            Ok(()) => 0,
            Err(_) => SINK_FAILED,
        },
        Err(_) => NO_MEMORY,
    }
}
