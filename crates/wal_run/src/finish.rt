//! What the commands have in common: the shape of their blob, and the one way in which an answer is
//! written.

ghost use Rattle.std.specs.Prelude.{◌≡◌, ◌≤◌, length};
ghost use Rattle.wal_port.specs.Faults.{Rose};
ghost use Rattle.wal_shape.specs.Shape.{most_bytes};
ghost use Rattle.wal_run.specs.inside.Writing.{Finishes, put_status};

use std::alloc::AllocError;
use wal_port::{Sink, WriteFault, put_all};
use wal_shape::{Format, Shape};

/// The status of a run whose words ask for nothing.
pub const USAGE: u8 = 2;

/// The status of a run that found something false: a writer who encoded wrongly, an index that is
/// none, an opening that was not drawn.
pub const REJECTED: u8 = 3;

/// The status of a run for which something is lacking, as too little was recorded or there is no
/// room, or whose proof shows nothing.
pub const SHORT: u8 = 4;

/// The status of a run for which there was no memory.
pub const NO_MEMORY: u8 = 5;

/// The status of a run whose source failed.
pub const SOURCE_FAILED: u8 = 6;

/// The status of a run whose sink failed.
pub const SINK_FAILED: u8 = 7;

/// The status of a run whose input is none of its command: no stream of envelopes, no schedule, no
/// image.
pub const MALFORMED: u8 = 8;

/// The status of a run whose input is longer than its limit.
pub const TOO_LONG: u8 = 9;

/// The status of a run that found two texts with one digest.
pub const COLLISION: u8 = 10;

/// Why a piece of a text was not written whole.
#[derive(Clone, Copy, Debug, PartialEq, Eq)]
pub enum PutError {
    /// There was no memory for it, and nothing was written of it.
    Memory,
    /// The sink failed.
    WriteFault,
}

impl From<AllocError> for PutError {
    ghost use Rattle.std.specs.Prelude.{◌≡◌};
    ghost use Rattle.wal_run.specs.declared.finish.PutError.TheVariants.{Memory};

    ghost from_gives = { λ _ e. e ≡ Memory };

    fn from(_e: AllocError) -> PutError {
        PutError::Memory
    }
}

impl From<WriteFault> for PutError {
    ghost use Rattle.std.specs.Prelude.{◌≡◌};
    ghost use Rattle.wal_run.specs.declared.finish.PutError.TheVariants as put;

    ghost from_gives = { λ _ e. e ≡ put.WriteFault };

    fn from(_e: WriteFault) -> PutError {
        PutError::WriteFault
    }
}

/// The status of a text that was not written whole.
pub fn status_of(error: PutError) -> u8
    ensures { result ≡ put_status error }
{
    match error {
        PutError::Memory => NO_MEMORY,
        PutError::WriteFault => SINK_FAILED,
    }
}

/// Writes the text and gives the status, or that of a sink that failed.
pub fn finish<K: Sink>(sink: &mut K, text: &[u8], status: u8) -> u8
    ensures finishes { Finishes (λ t. t ≡ text.now) (K.written sink.old)
        (K.written sink.new) (Rose (K.faults sink.old) (K.faults sink.new)) status result }
    ensures later { K.faults sink.old ≤ K.faults sink.new }
{
    match put_all(sink, text) {
        Ok(()) => status,
        Err(_) => SINK_FAILED,
    }
}

/// The shape of a blob for which a task was read and whose length was tested.
pub fn shape_of(faults: u32, format: Format, blob: &[u8]) -> Shape
    requires least { 1 ≤ faults }
    requires most { faults ≤ 333 }
    requires small { length blob.now ≤ most_bytes }
    ensures { result ≡ record { format = format; f = faults; length = length blob.now } }
{
    match Shape::new(faults, blob.len() as u64) {
        Ok(shape) => shape.with_format(format),
        Err(_) => unreachable!(),
    }
}
