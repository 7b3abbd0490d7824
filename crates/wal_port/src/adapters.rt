//! Readers and writers of `std` as sources and sinks.

ghost use Rattle.std.specs.Prelude.{◌≡◌};

use crate::ports::{Failed, Sink, Source};
use std::io::{Read, Write};

/// A reader of `std` as a source. It tells the bytes that the reader tells: a reader of the runtime
/// tells none. Each error of the reader is a fault, `ErrorKind::Interrupted` too, and no read is
/// tried again. The count of faults stays at `u64::MAX` once it is there.
#[derive(Drop)]
pub struct StdSource<R> {
    reader: R,
    faults: u64,
}

impl<R: Read> StdSource<R> {
    ghost use Rattle.wal_port.specs.Adapters.{inner_reader, reader_faults};

    /// A source over `reader`, with no fault so far.
    pub fn create(reader: R) -> StdSource<R>
        ensures reader { inner_reader result ≡ reader }
        ensures faults { reader_faults result ≡ 0 }
    {
        StdSource { reader, faults: 0 }
    }
}

impl<R: Read> Source for StdSource<R> {
    ghost use Rattle.std.specs.Prelude.{◌≤◌, if◌then◌else◌, is_ok, OnErr};
    ghost use Rattle.std.specs.Io.{ReadsAtMost};
    ghost use Rattle.std.specs.Io.KnownBytes.{ReadConsumes};
    ghost use Rattle.wal_port.specs.Faults.{Rose, count_up};
    ghost use Rattle.wal_port.specs.Adapters.{inner_reader, reader_faults};

    ghost left = { λ s. R.remaining (inner_reader s) };

    ghost faults = { reader_faults };

    fn read(&mut self, into: &mut [u8]) -> Result<usize, Failed>
        ensures bound { ReadsAtMost result into.new }
        ensures bytes { ReadConsumes (R.remaining (inner_reader self.old))
            (R.remaining (inner_reader self.new)) result into.new }
        ensures failed { OnErr result (Rose (reader_faults self.old) (reader_faults self.new)) }
        ensures later { reader_faults self.old ≤ reader_faults self.new }
        ensures faults { reader_faults self.new ≡
            (if is_ok result then reader_faults self.old else count_up (reader_faults self.old)) }
    {
        match self.reader.read(into) {
            Ok(count) => Ok(count),
            Err(_) => {
                self.faults = self.faults.saturating_add(1);
                Err(Failed)
            }
        }
    }
}

/// A writer of `std` as a sink. It tells the bytes that the writer tells: a writer of the runtime
/// tells none. Each error of the writer is a fault, `ErrorKind::Interrupted` too, and so is a write
/// that takes nothing; no write is tried again. The count of faults stays at `u64::MAX` once it is
/// there. Nothing is flushed.
#[derive(Drop)]
pub struct StdSink<W> {
    writer: W,
    faults: u64,
}

impl<W: Write> StdSink<W> {
    ghost use Rattle.wal_port.specs.Adapters.{inner_writer, writer_faults};

    /// A sink over `writer`, with no fault so far.
    pub fn create(writer: W) -> StdSink<W>
        ensures writer { inner_writer result ≡ writer }
        ensures faults { writer_faults result ≡ 0 }
    {
        StdSink { writer, faults: 0 }
    }
}

impl<W: Write> Sink for StdSink<W> {
    ghost use Rattle.std.specs.Prelude.{◌<◌, ◌≤◌, if◌then◌else◌, is_ok, IfOk, OnErr};
    ghost use Rattle.std.specs.Io.{WritesAtMost};
    ghost use Rattle.std.specs.Io.KnownBytes.{WriteAppends};
    ghost use Rattle.wal_port.specs.Faults.{Rose, count_up};
    ghost use Rattle.wal_port.specs.Adapters.{inner_writer, writer_faults};

    ghost written = { λ s. W.contents (inner_writer s) };

    ghost faults = { writer_faults };

    fn write(&mut self, piece: &[u8]) -> Result<usize, Failed>
        ensures bound { WritesAtMost result piece.now }
        ensures some { IfOk result (λ k. 0 < k) }
        ensures bytes { WriteAppends (W.contents (inner_writer self.old))
            (W.contents (inner_writer self.new)) result piece.now }
        ensures failed { OnErr result (Rose (writer_faults self.old) (writer_faults self.new)) }
        ensures later { writer_faults self.old ≤ writer_faults self.new }
        ensures faults { writer_faults self.new ≡
            (if is_ok result then writer_faults self.old else count_up (writer_faults self.old)) }
    {
        match self.writer.write(piece) {
            Ok(count) if count > 0 => Ok(count),
            _ => {
                self.faults = self.faults.saturating_add(1);
                Err(Failed)
            }
        }
    }
}
