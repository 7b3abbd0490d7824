//! Taking one envelope of a source: exactly its bytes, and none behind it.

ghost use Rattle.std.specs.Prelude.{◌≡◌, ℕ, ◌<◌, ◌≤◌, List, ◌∷◌, ◌++◌, length};
ghost use Rattle.std.specs.Int.{w16, w32};
ghost use Rattle.wal_port.specs.Faults.{Rose};
ghost use Rattle.wal_serve.specs.declared.taking.Took.TheVariants.{Whole};
ghost use Rattle.wal_serve.specs.inside.Taking.{Takes};
ghost use Rattle.wal_serve.specs.inside.Envelopes.{IsHead, TakesFirst, TakesHead, TakesEnvelope};
ghost use Rattle.wal_serve.specs.inside.Envelopes.{lack_of};

use crate::payload::Payload;
use crate::taking::{Took, fill};
use wal_frame::size_in;
use wal_port::Source;

/// The byte that an envelope begins with.
const ENVELOPE: u8 = 0x57;

/// Why no whole envelope was taken.
#[derive(Clone, Copy, Debug, PartialEq, Eq)]
pub(crate) enum Lack {
    /// The source has no more bytes.
    Nothing,
    /// The first byte begins no envelope.
    Wrong,
    /// The source ends in the envelope.
    Cut,
    /// The source had one byte more than may be taken.
    TooLong,
    /// A read failed.
    Failed,
}

/// What ends an envelope where bytes behind its first one were taken so.
fn lack_of(took: Took) -> Option<Lack>
    ensures { result ≡ lack_of took }
{
    match took {
        Took::Whole => None,
        Took::Ended => Some(Lack::Cut),
        Took::TooLong => Some(Lack::TooLong),
        Took::Failed => Some(Lack::Failed),
    }
}

/// The first byte of an envelope.
fn take_first<S: Source>(source: &mut S, most: u64) -> Result<(), Lack>
    ensures takes { (got : List ℕ)
        × TakesFirst (S.left source.old) (S.left source.new)
        (Rose (S.faults source.old) (S.faults source.new)) most result got }
    ensures later { S.faults source.old ≤ S.faults source.new }
{
    let mut first = [0];
    match fill(source, &mut first, most) {
        Took::Whole => {
            if first[0] == ENVELOPE {
                Ok(())
            } else {
                Err(Lack::Wrong)
            }
        }
        Took::Ended => Err(Lack::Nothing),
        Took::TooLong => Err(Lack::TooLong),
        Took::Failed => Err(Lack::Failed),
    }
}

/// The length of the payload, as the fields say that stand behind the first byte.
fn size_of(fields: &[u8]) -> u32
    requires { length fields.now ≡ 6 }
    ensures { IsHead result (0x57 ∷ fields.now) }
{
    let mut head = [ENVELOPE; 7];
    head[1..].copy_from_slice(fields);
    size_in(&head)
}

/// The head of an envelope, which says how long its payload is.
fn take_head<S: Source>(source: &mut S, most: u64) -> Result<u32, Lack>
    ensures takes { (got : List ℕ)
        × TakesHead (S.left source.old) (S.left source.new)
        (Rose (S.faults source.old) (S.faults source.new)) most result got }
    ensures later { S.faults source.old ≤ S.faults source.new }
{
    take_first(source, most)?;
    let mut fields = [0; 6];
    match lack_of(fill(source, &mut fields, most - 1)) {
        None => Ok(size_of(&fields)),
        Some(lack) => Err(lack),
    }
}

/// A payload of this size: into the buffer if there is room for it, else past it.
fn take_payload<S: Source>(source: &mut S, buffer: &mut Payload, size: u32, most: u64) -> Took
    requires { 0 < buffer.old.room }
    ensures takes { (got : List ℕ)
        × Takes (S.left source.old) (S.left source.new)
        (Rose (S.faults source.old) (S.faults source.new)) size most result got
        × (result ≡ Whole → size ≤ buffer.new.room → buffer.new.bytes ≡ got) }
    ensures room { buffer.new.room ≡ buffer.old.room }
    ensures later { S.faults source.old ≤ S.faults source.new }
{
    if size <= buffer.room() {
        buffer.fill(source, size, most)
    } else {
        buffer.skip(source, size, most)
    }
}

/// An envelope, of which at most `most` bytes may be taken. The result is the size of its payload,
/// which is in the buffer if there is room for it.
pub(crate) fn take_envelope<S: Source>(
    source: &mut S,
    buffer: &mut Payload,
    most: u64,
) -> Result<u32, Lack>
    requires { 0 < buffer.old.room }
    ensures takes { (got : List ℕ)
        × TakesEnvelope (S.left source.old) (S.left source.new)
        (Rose (S.faults source.old) (S.faults source.new)) most buffer.new result got }
    ensures room { buffer.new.room ≡ buffer.old.room }
    ensures later { S.faults source.old ≤ S.faults source.new }
{
    let size = take_head(source, most)?;
    match lack_of(take_payload(source, buffer, size, most - 7)) {
        None => Ok(size),
        Some(lack) => Err(lack),
    }
}
