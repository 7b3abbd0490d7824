//! Whole inputs and whole outputs.

ghost use Rattle.std.specs.Prelude.{◌≡◌, ℕ, ◌+◌, ◌^◌, ◌<◌, ◌≤◌, ◌↔◌, List, length, take, unwrap_or};
ghost use Rattle.std.specs.Prelude.{[], IfOk, IfSome, OnOk, OnErr, IsErrOf};
ghost use Rattle.std.specs.Io.KnownBytes.{Consumes, Appends, IsAtEnd};
ghost use Rattle.wal_port.specs.Faults.{Rose};
ghost use Rattle.wal_port.specs.declared.transfers.TakeError.TheVariants.{ReadFault, Memory};

use crate::ports::{Failed, Sink, Source};
use std::alloc::{AllocError, Global};

// How many bytes one read asks for at most: the size of the buffers of std.
const CHUNK: usize = 8192;

/// Why an input was not taken.
#[derive(Clone, Copy, Debug, PartialEq, Eq)]
pub enum TakeError {
    /// A read failed.
    ReadFault,
    /// The input has more bytes than the limit.
    TooLong,
    /// No memory was left for the bytes.
    Memory,
}

impl From<Failed> for TakeError {
    ghost from_gives = { λ _ e. e ≡ ReadFault };

    fn from(_e: Failed) -> TakeError {
        TakeError::ReadFault
    }
}

impl From<AllocError> for TakeError {
    ghost from_gives = { λ _ e. e ≡ Memory };

    fn from(_e: AllocError) -> TakeError {
        TakeError::Memory
    }
}

/// A write failed, so that not all bytes were written.
#[derive(Clone, Copy, Debug, PartialEq, Eq)]
pub struct WriteFault;

impl From<Failed> for WriteFault {
    fn from(_e: Failed) -> WriteFault {
        WriteFault
    }
}

/// All bytes of a source up to its end, if they are at most `limit`. It asks for one byte past the
/// limit, and no more. After an error the source has lost the bytes that it gave.
pub fn take_all<S: Source>(alloc: Global, source: &mut S, limit: u64) -> Result<Vec<u8>, TakeError>
    requires { limit < 2 ^ 31 }

    // All bytes up to the end.
    ensures whole { IfOk result
        (λ bytes. Consumes (S.left source.old) (S.left source.new) bytes.items) }
    ensures ended { OnOk result (IsAtEnd (S.left source.new)) }
    ensures within { IfOk result (λ bytes. length bytes.items ≤ limit) }

    // Too long exactly where one byte more than the limit was taken.
    ensures too_long { IsErrOf result TakeError.TooLong → (taken : List ℕ)
        × Consumes (S.left source.old) (S.left source.new) taken × (length taken ≡ limit + 1) }
    ensures short { (IsErrOf result TakeError.TooLong → ⊥) → (taken : List ℕ)
        × Consumes (S.left source.old) (S.left source.new) taken × (length taken ≤ limit) }
    ensures lost { (taken : List ℕ)
        × Consumes (S.left source.old) (S.left source.new) taken × (length taken ≤ limit + 1) }

    ensures fault { IsErrOf result TakeError.ReadFault
        → Rose (S.faults source.old) (S.faults source.new) }
    ensures later { S.faults source.old ≤ S.faults source.new }

    // Where the source tells its bytes.
    ensures told { IfSome (S.left source.old) (λ xs. IfOk result (λ bytes. bytes.items ≡ xs)) }
    ensures told_long { IfSome (S.left source.old)
        (λ xs. IsErrOf result TakeError.TooLong → limit < length xs) }
    ensures exact { IfSome (S.left source.old) (λ xs. IsErrOf result TakeError.TooLong
        ↔ (length xs ≡ (limit + 1) + length (unwrap_or (S.left source.new) []))) }
{
    let most = limit as usize;
    let mut bytes = Vec::new(alloc);
    let mut chunk = [0u8; CHUNK];
    'reads: loop {
        let room = CHUNK.min(most + 1 - bytes.len());
        let count = source.read(&mut chunk[..room])?;
        if count == 0 {
            return Ok(bytes);
        }
        if bytes.len() + count > most {
            return Err(TakeError::TooLong);
        }
        bytes.extend_from_slice(&chunk[..count])?;
    }
}

/// Writes all bytes, in as many writes as the sink needs. After an error a prefix was written.
pub fn put_all<K: Sink>(sink: &mut K, bytes: &[u8]) -> Result<(), WriteFault>
    ensures whole { OnOk result (Appends (K.written sink.old) (K.written sink.new) bytes.now) }
    ensures part { OnErr result ((count : ℕ) × (count < length bytes.now)
        × Appends (K.written sink.old) (K.written sink.new) (take count bytes.now)) }
    ensures fault { OnErr result (Rose (K.faults sink.old) (K.faults sink.new)) }
    ensures later { K.faults sink.old ≤ K.faults sink.new }
{
    let mut done = 0;
    'writes: while done < bytes.len() {
        done += sink.write(&bytes[done..])?;
    }
    Ok(())
}
