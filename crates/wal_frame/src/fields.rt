//! Reading the fields of frames from left to right.

ghost use Rattle.std.specs.Prelude.{◌≡◌, ◌<◌, length, IfOk};
ghost use Rattle.wal_shape.specs.Opening.{IsBody, opening_shown};
ghost use Rattle.wal_shape.specs.ProofReading.{axis_of};
ghost use Rattle.wal_shape.specs.FieldReading.{Gives};
ghost use Rattle.wal_frame.specs.Reading.{bytes_at, axis_at, target_at, faults_at, text_at};
ghost use Rattle.wal_frame.specs.Reading.{opening_at, fault_from};

use crate::frame::FrameError;
use wal_shape::{Axis, BlobId, BodyFault, OpeningRef, bytes_of, read_body, u8_at, u16_at};

/// The most faulty shards.
const MOST_FAULTS: u16 = 333;

/// The most for the index of a sliver or a shard.
pub(crate) const MOST_INDEX: u16 = 999;

/// The most bytes of a text of which a digest is taken.
const MOST_TEXT: u8 = 65;

/// The number of bytes of an identifier.
const ID_SIZE: usize = 32;

/// An identifier, an axis and an index.
#[derive(Clone, Copy, Debug)]
pub(crate) struct Target {
    pub(crate) id: BlobId,
    pub(crate) axis: Axis,
    pub(crate) index: u16,
}

/// The number of faulty shards, which is at least 1.
#[tactic(auto, unfolding(crate::specs::Reading::faults_at))]
pub(crate) fn faults_of(bytes: &[u8], place: u32) -> Result<(u16, &[u8]), FrameError>
    ensures { Gives (λ x. (x.0, x.1.now)) result (faults_at place bytes.now) }
{
    let (f, rest) = u16_at(bytes, place, MOST_FAULTS)?;
    if f == 0 {
        return Err(FrameError::BadField(u64::from(place)));
    }
    Ok((f, rest))
}

/// The axis of this number.
fn axis_from(number: u8) -> Axis
    ensures { result ≡ axis_of number }
{
    match number {
        0 => Axis::Primary,
        _ => Axis::Secondary,
    }
}

/// The axis in the first byte.
#[tactic(auto, unfolding(crate::specs::Reading::axis_at))]
fn axis_in(bytes: &[u8], place: u32) -> Result<(Axis, &[u8]), FrameError>
    ensures { Gives (λ x. (x.0, x.1.now)) result (axis_at place bytes.now) }
{
    let (number, rest) = u8_at(bytes, place, 1)?;
    Ok((axis_from(number), rest))
}

/// The identifier that these bytes are.
fn id_from(bytes: &[u8]) -> BlobId
    requires { length bytes.now ≡ 32 }
    ensures { result.0 ≡ bytes.now }
{
    let mut id = [0; ID_SIZE];
    id.copy_from_slice(bytes);
    BlobId(id)
}

/// The identifier in the first 32 bytes.
pub(crate) fn id_of(bytes: &[u8]) -> Result<(BlobId, &[u8]), FrameError>
    ensures { Gives (λ x. (x.0.0, x.1.now)) result (bytes_at 32 bytes.now) }
{
    let (id, rest) = bytes_of(bytes, ID_SIZE)?;
    Ok((id_from(id), rest))
}

/// The identifier, the axis and the index behind the kind.
#[tactic(auto, unfolding(crate::specs::Reading::target_at))]
pub(crate) fn target_of(bytes: &[u8]) -> Result<(Target, &[u8]), FrameError>
    ensures { Gives (λ x. (x.0, x.1.now)) result (target_at bytes.now) }
{
    let (id, rest) = id_of(bytes)?;
    let (axis, rest) = axis_in(rest, 33)?;
    let (index, rest) = u16_at(rest, 34, MOST_INDEX)?;
    Ok((Target { id, axis, index }, rest))
}

/// A text behind its size.
#[tactic(auto, unfolding(crate::specs::Reading::text_at))]
pub(crate) fn text_of(bytes: &[u8], place: u32) -> Result<(&[u8], &[u8]), FrameError>
    ensures { Gives (λ x. (x.0.now, x.1.now)) result (text_at place bytes.now) }
{
    let (size, rest) = u8_at(bytes, place, MOST_TEXT)?;
    Ok(bytes_of(rest, usize::from(size))?)
}

/// The fault of a part that begins at this place.
fn fault_of(fault: BodyFault, start: u64) -> FrameError
    requires { start < 1099511627776 }
    ensures { result ≡ fault_from start fault }
{
    match fault {
        BodyFault::Truncated => FrameError::Truncated,
        BodyFault::BadField(place) => FrameError::BadField(start + u64::from(place)),
    }
}

/// The opening that the bytes begin with, and the bytes after its body.
pub(crate) fn opening_of(bytes: &[u8], start: u64) -> Result<(OpeningRef<'_>, &[u8]), FrameError>
    requires { start < 1099511627776 }
    ensures read { Gives (λ x. (opening_shown x.0, x.1.now)) result (opening_at start bytes.now) }
    ensures body { IfOk result (λ x. IsBody (opening_shown x.0)) }
{
    match read_body(bytes) {
        Ok(body) => {
            let (_, rest) = bytes.split_at(body.size as usize);
            Ok((body.opening, rest))
        }
        Err(fault) => Err(fault_of(fault, start)),
    }
}
