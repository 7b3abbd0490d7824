//! The slivers of each shard in turn, whose symbols are written from where they lie in the extended
//! matrix.

ghost use Rattle.std.specs.Prelude.{◌≡◌, ◌≤◌, ◌<◌, ◌+◌, ◌*◌, ◌++◌, length, min, OnOk, OnErr};
ghost use Rattle.std.specs.Io.KnownBytes.{Appends};
ghost use Rattle.std.specs.List.{flat_map, range_with_len};
ghost use Rattle.wal_port.specs.Faults.{Rose};
ghost use Rattle.wal_port.specs.Appending.{AppendsPart};
ghost use Rattle.wal_shape.specs.declared.axis.Axis.TheVariants.{Primary, Secondary};
ghost use Rattle.wal_shape.specs.Shape.{IsShape, row_count, shard_count, symbol_size};
ghost use Rattle.wal_matrix.specs.Matrix.{primary_of, secondary_of, symbol, shards, symbol_bytes};
ghost use Rattle.wal_frame.specs.Buffer.{appended};
ghost use Rattle.wal_frame.specs.Frame.{envelope, sliver_frame};
ghost use Rattle.wal_run.specs.Envelope.{shard_text};

use crate::envelope::{LONG, begin_sliver};
use wal_frame::OutBuf;
use wal_matrix::Encoded;
use wal_port::{Sink, WriteFault, put_all};
use wal_shape::{Axis, BlobId, Metadata};

/// The symbol at this row and column.
fn symbol_at(encoded: &Encoded, row: u16, column: u16) -> &[u8]
    requires row { row < shards encoded.now }
    requires column { column < shards encoded.now }
    ensures value { result.now
        ≡ symbol (shards encoded.now) (symbol_bytes encoded.now) encoded.now.cells row column }
    ensures long { length result.now ≡ symbol_bytes encoded.now }
{
    let size = encoded.shape().symbol_size() as usize;
    let start = column as usize * size;
    &encoded.row(row)[start..start + size]
}

/// Lays the first symbols of a column one after the other behind what the buffer holds.
fn lay_column(out: &mut OutBuf, encoded: &Encoded, index: u16)
    requires index { index < shards encoded.now }
    requires room { row_count encoded.now.shape.f * symbol_bytes encoded.now ≤ out.old.spare }
    ensures { out.new
        ≡ appended out.old
        (secondary_of encoded.now.shape.f (symbol_bytes encoded.now) encoded.now.cells index) }
{
    let rows = encoded.shape().rows() as u16;
    for row in 0..rows {
        out.put(symbol_at(encoded, row, index));
    }
}

/// Writes the first symbols of a column in turn.
fn put_column<K: Sink>(sink: &mut K, encoded: &Encoded, index: u16) -> Result<(), WriteFault>
    requires index { index < shards encoded.now }
    ensures whole { OnOk result (Appends (K.written sink.old) (K.written sink.new)
        (secondary_of encoded.now.shape.f (symbol_bytes encoded.now) encoded.now.cells index)) }
    ensures part { OnErr result (AppendsPart (K.written sink.old) (K.written sink.new)
        (secondary_of encoded.now.shape.f (symbol_bytes encoded.now) encoded.now.cells index)) }
    ensures fault { OnErr result (Rose (K.faults sink.old) (K.faults sink.new)) }
    ensures later { K.faults sink.old ≤ K.faults sink.new }
{
    let rows = encoded.shape().rows() as u16;
    for row in 0..rows {
        put_all(sink, symbol_at(encoded, row, index))?;
    }
    Ok(())
}

/// Writes what the buffer holds and the first symbols of a column, which are laid behind it.
fn put_laid<K: Sink>(
    sink: &mut K,
    out: &mut OutBuf,
    encoded: &Encoded,
    index: u16,
) -> Result<(), WriteFault>
    requires index { index < shards encoded.now }
    requires whole { length encoded.now.cells
        ≡ shards encoded.now * shards encoded.now * symbol_bytes encoded.now }
    requires room { row_count encoded.now.shape.f * symbol_bytes encoded.now ≤ out.old.spare }
    ensures whole { OnOk result (Appends (K.written sink.old) (K.written sink.new) (out.old.bytes
        ++ secondary_of encoded.now.shape.f (symbol_bytes encoded.now) encoded.now.cells index)) }
    ensures part { OnErr result
        (AppendsPart (K.written sink.old) (K.written sink.new) (out.old.bytes
        ++ secondary_of encoded.now.shape.f (symbol_bytes encoded.now) encoded.now.cells index)) }
    ensures fault { OnErr result (Rose (K.faults sink.old) (K.faults sink.new)) }
    ensures later { K.faults sink.old ≤ K.faults sink.new }
    ensures buffer { out.new.spare + length out.new.bytes ≡ out.old.spare + length out.old.bytes }
{
    lay_column(out, encoded, index);
    put_all(sink, out.bytes())
}

/// Writes what the buffer holds, and then the first symbols of a column from where they lie.
fn put_apart<K: Sink>(
    sink: &mut K,
    out: &OutBuf,
    encoded: &Encoded,
    index: u16,
) -> Result<(), WriteFault>
    requires index { index < shards encoded.now }
    ensures whole { OnOk result (Appends (K.written sink.old) (K.written sink.new) (out.now.bytes
        ++ secondary_of encoded.now.shape.f (symbol_bytes encoded.now) encoded.now.cells index)) }
    ensures part { OnErr result
        (AppendsPart (K.written sink.old) (K.written sink.new) (out.now.bytes
        ++ secondary_of encoded.now.shape.f (symbol_bytes encoded.now) encoded.now.cells index)) }
    ensures fault { OnErr result (Rose (K.faults sink.old) (K.faults sink.new)) }
    ensures later { K.faults sink.old ≤ K.faults sink.new }
{
    put_all(sink, out.bytes())?;
    put_column(sink, encoded, index)
}

/// Writes the envelope of a primary sliver.
fn put_primary<K: Sink>(
    sink: &mut K,
    out: &mut OutBuf,
    encoded: &Encoded,
    id: &BlobId,
    shard: u16,
    index: u16,
) -> Result<(), WriteFault>
    requires index { index < shards encoded.now }
    requires fit { IsShape encoded.now.shape.f encoded.now.shape.length }
    requires buffer { 47 ≤ out.old.spare + length out.old.bytes }
    ensures whole { OnOk result (Appends (K.written sink.old) (K.written sink.new)
        (envelope shard (sliver_frame id.now.0 Primary index
        (primary_of encoded.now.shape.f (symbol_bytes encoded.now) encoded.now.cells index)))) }
    ensures part { OnErr result (AppendsPart (K.written sink.old) (K.written sink.new)
        (envelope shard (sliver_frame id.now.0 Primary index
        (primary_of encoded.now.shape.f (symbol_bytes encoded.now) encoded.now.cells index)))) }
    ensures fault { OnErr result (Rose (K.faults sink.old) (K.faults sink.new)) }
    ensures later { K.faults sink.old ≤ K.faults sink.new }
    ensures buffer { out.new.spare + length out.new.bytes ≡ out.old.spare + length out.old.bytes }
{
    let size = encoded.shape().sliver_len(Axis::Primary);
    let bytes = encoded.primary(index);
    begin_sliver(out, shard, *id, Axis::Primary, index, size);
    put_all(sink, out.bytes())?;
    put_all(sink, bytes)
}

/// Writes the envelope of a secondary sliver.
fn put_secondary<K: Sink>(
    sink: &mut K,
    out: &mut OutBuf,
    encoded: &Encoded,
    id: &BlobId,
    shard: u16,
    index: u16,
) -> Result<(), WriteFault>
    requires index { index < shards encoded.now }
    requires fit { IsShape encoded.now.shape.f encoded.now.shape.length }
    requires whole { length encoded.now.cells
        ≡ shards encoded.now * shards encoded.now * symbol_bytes encoded.now }
    requires buffer { 47 + row_count encoded.now.shape.f * min (symbol_bytes encoded.now) 8192
        ≤ out.old.spare + length out.old.bytes }
    ensures whole { OnOk result (Appends (K.written sink.old) (K.written sink.new)
        (envelope shard (sliver_frame id.now.0 Secondary index
        (secondary_of encoded.now.shape.f (symbol_bytes encoded.now) encoded.now.cells index)))) }
    ensures part { OnErr result (AppendsPart (K.written sink.old) (K.written sink.new)
        (envelope shard (sliver_frame id.now.0 Secondary index
        (secondary_of encoded.now.shape.f (symbol_bytes encoded.now) encoded.now.cells index)))) }
    ensures fault { OnErr result (Rose (K.faults sink.old) (K.faults sink.new)) }
    ensures later { K.faults sink.old ≤ K.faults sink.new }
    ensures buffer { out.new.spare + length out.new.bytes ≡ out.old.spare + length out.old.bytes }
{
    let shape = encoded.shape();
    let size = shape.sliver_len(Axis::Secondary);
    begin_sliver(out, shard, *id, Axis::Secondary, index, size);
    if shape.symbol_size() < LONG {
        put_laid(sink, out, encoded, index)
    } else {
        put_apart(sink, out, encoded, index)
    }
}

/// Writes the two envelopes of one shard.
fn put_shard<K: Sink>(
    sink: &mut K,
    out: &mut OutBuf,
    encoded: &Encoded,
    metadata: &Metadata,
    id: &BlobId,
    shard: u16,
) -> Result<(), WriteFault>
    requires shard { shard < shard_count encoded.now.shape.f }
    requires faults { metadata.now.f ≡ encoded.now.shape.f }
    requires format { metadata.now.format ≡ encoded.now.shape.format }
    requires fit { IsShape encoded.now.shape.f encoded.now.shape.length }
    requires whole { length encoded.now.cells
        ≡ shards encoded.now * shards encoded.now * symbol_bytes encoded.now }
    requires buffer { 47 + row_count encoded.now.shape.f * min (symbol_bytes encoded.now) 8192
        ≤ out.old.spare + length out.old.bytes }
    ensures whole { OnOk result (Appends (K.written sink.old) (K.written sink.new)
        (shard_text id.now.0 encoded.now.shape encoded.now.cells shard)) }
    ensures part { OnErr result (AppendsPart (K.written sink.old) (K.written sink.new)
        (shard_text id.now.0 encoded.now.shape encoded.now.cells shard)) }
    ensures fault { OnErr result (Rose (K.faults sink.old) (K.faults sink.new)) }
    ensures later { K.faults sink.old ≤ K.faults sink.new }
    ensures buffer { out.new.spare + length out.new.bytes ≡ out.old.spare + length out.old.bytes }
{
    let primary = metadata.view().held(Axis::Primary, shard);
    put_primary(sink, out, encoded, id, shard, primary)?;
    let secondary = metadata.view().held(Axis::Secondary, shard);
    put_secondary(sink, out, encoded, id, shard, secondary)
}

/// Writes the envelopes of all shards in turn.
pub fn put_slivers<K: Sink>(
    sink: &mut K,
    out: &mut OutBuf,
    encoded: &Encoded,
    metadata: &Metadata,
    id: &BlobId,
) -> Result<(), WriteFault>
    requires faults { metadata.now.f ≡ encoded.now.shape.f }
    requires format { metadata.now.format ≡ encoded.now.shape.format }
    requires fit { IsShape encoded.now.shape.f encoded.now.shape.length }
    requires whole { length encoded.now.cells
        ≡ shards encoded.now * shards encoded.now * symbol_bytes encoded.now }
    requires buffer { 47 + row_count encoded.now.shape.f * min (symbol_bytes encoded.now) 8192
        ≤ out.old.spare + length out.old.bytes }
    ensures whole { OnOk result (Appends (K.written sink.old) (K.written sink.new)
        (flat_map (shard_text id.now.0 encoded.now.shape encoded.now.cells)
        (range_with_len 0 (shard_count encoded.now.shape.f)))) }
    ensures part { OnErr result (AppendsPart (K.written sink.old) (K.written sink.new)
        (flat_map (shard_text id.now.0 encoded.now.shape encoded.now.cells)
        (range_with_len 0 (shard_count encoded.now.shape.f)))) }
    ensures fault { OnErr result (Rose (K.faults sink.old) (K.faults sink.new)) }
    ensures later { K.faults sink.old ≤ K.faults sink.new }
    ensures buffer { out.new.spare + length out.new.bytes ≡ out.old.spare + length out.old.bytes }
{
    let count = encoded.shape().n() as u16;
    for shard in 0..count {
        put_shard(sink, out, encoded, metadata, id, shard)?;
    }
    Ok(())
}
