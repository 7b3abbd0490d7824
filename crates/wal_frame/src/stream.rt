//! Streams of envelopes.

ghost use Rattle.std.specs.Prelude.{◌≡◌, ℕ, ◌<◌, ◌^◌, List, ◌++◌, length, Ok, Err, IfOk, IfErr};
ghost use Rattle.std.specs.Prelude.{OnOk, option_map};
ghost use Rattle.std.specs.List.{flat_map, AllByRecursion};
ghost use Rattle.wal_frame.specs.Frame.{envelope};
ghost use Rattle.wal_frame.specs.Stream.{IsPayload, IfMalformed, IsMalformed, IsStream};
ghost use Rattle.wal_frame.specs.Stream.{envelope_at, stream_of, behind, Splits};

use crate::number::u32_in;
use std::alloc::{AllocError, AllocFailed, Global};
use wal_shape::{Bytes, Payloads};

/// The byte that an envelope begins with.
pub(crate) const ENVELOPE: u8 = 0x57;

/// The number of bytes before the payload: the first byte, the sender (two) and the length (four).
const HEAD_SIZE: usize = 7;

/// Why a stream was not split.
#[derive(Clone, Copy, Debug, PartialEq, Eq)]
pub enum SplitError {
    /// At this place, which is not the end, no whole envelope begins. Whole envelopes fill the
    /// bytes before it.
    Malformed(u64),
    /// Memory ran out.
    Memory,
}

impl From<AllocError> for SplitError {
    ghost use Rattle.std.specs.Prelude.{◌≡◌};
    ghost use Rattle.wal_frame.specs.declared.stream.SplitError.TheVariants.{Memory};

    ghost from_gives = { λ _ e. e ≡ Memory };

    fn from(_e: AllocError) -> SplitError {
        SplitError::Memory
    }
}

impl<T: Drop> From<AllocFailed<T>> for SplitError {
    ghost use Rattle.std.specs.Prelude.{◌≡◌};
    ghost use Rattle.wal_frame.specs.declared.stream.SplitError.TheVariants.{Memory};

    ghost from_gives = { λ _ e. e ≡ Memory };

    fn from(_e: AllocFailed<T>) -> SplitError {
        SplitError::Memory
    }
}

/// The payload of the envelope that the bytes begin with, and the bytes after the envelope.
#[tactic(auto, unfolding(crate::specs::Stream::envelope_at))]
pub(crate) fn envelope_of(bytes: &[u8]) -> Option<(&[u8], &[u8])>
    ensures { option_map (λ x. (x.0.now, x.1.now)) result ≡ envelope_at bytes.now }
{
    if bytes.len() < HEAD_SIZE {
        return None;
    }
    if bytes[0] != ENVELOPE {
        return None;
    }
    let size = u32_in(&bytes[3..]) as usize;
    let (_, rest) = bytes.split_at(HEAD_SIZE);
    if rest.len() < size {
        return None;
    }
    Some(rest.split_at(size))
}

/// The payloads of a stream, or the place where no whole envelope begins.
fn payloads_of(alloc: Global, stream: &[u8]) -> Result<Payloads, SplitError>
    ensures { Splits result (stream_of stream.now) }
{
    let mut payloads = Vec::new(alloc);
    let mut rest = stream;
    while !rest.is_empty() {
        match envelope_of(rest) {
            Some((payload, after)) => {
                payloads.push(Bytes::from_vec(Vec::from_slice(alloc, payload)?))?;
                rest = after;
            }
            None => return Err(SplitError::Malformed((stream.len() - rest.len()) as u64)),
        }
    }
    Ok(Payloads::from_vec(payloads))
}

/// The payloads of a stream, which is envelopes one after the other up to its end.
///
/// An envelope is the byte `57`, the sender (two bytes), the payload's length (four) and the
/// payload, numbers most significant byte first. A payload may be any bytes.
pub fn split(alloc: Global, stream: &[u8]) -> Result<Payloads, SplitError>
    // The bytes are the envelopes of these payloads.
    ensures payloads { IfOk result (λ payloads. IsStream payloads stream.now) }
    // Whole envelopes end at this place, and no other follows.
    ensures malformed { IfErr result (λ e. IfMalformed e (λ place. IsMalformed place stream.now)) }
    // Envelopes are split, unless memory ran out.
    ensures only { (payloads : List (List ℕ)) → IsStream payloads stream.now
        → Splits result (Ok payloads) }
    // A stream that is malformed is refused, unless memory ran out.
    ensures refused { (place : ℕ) → IsMalformed place stream.now → Splits result (Err place) }
    // Which payloads or which place it is, unless memory ran out.
    ensures exact { Splits result (stream_of stream.now) }
{
    payloads_of(alloc, stream)
}

/// The envelopes of these payloads from this sender, one after the other, as `split` describes
/// them.
pub fn join(alloc: Global, sender: u16, payloads: &Payloads) -> Result<Bytes, AllocError>
    requires { AllByRecursion IsPayload payloads.now }
    ensures text { IfOk result (λ bytes. bytes ≡ flat_map (envelope sender) payloads.now) }
    // What is written is split again, whatever follows.
    ensures again { IfOk result (λ bytes. (rest : List ℕ)
        → stream_of (bytes ++ rest) ≡ behind payloads.now (length bytes) (stream_of rest)) }
{
    let mut out = Vec::new(alloc);
    for payload in payloads.as_slice() {
        put_envelope(&mut out, sender, payload.as_slice())?;
    }
    Ok(Bytes::from_vec(out))
}

/// Appends an envelope.
fn put_envelope(out: &mut Vec<u8>, sender: u16, payload: &[u8]) -> Result<(), AllocError>
    requires { IsPayload payload.now }
    ensures { OnOk result (out.new.items ≡ out.old.items ++ envelope sender payload.now) }
{
    out.push(ENVELOPE)?;
    out.extend_from_slice(&sender.to_be_bytes())?;
    out.extend_from_slice(&(payload.len() as u32).to_be_bytes())?;
    out.extend_from_slice(payload)?;
    Ok(())
}
