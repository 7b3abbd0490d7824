//! Reading fields from left to right: numbers, most significant byte first, and runs of bytes.
//!
//! What follows the field is answered beside it. A field of which bytes are missing is truncated; a
//! number above `most` is a bad field, at the place that the caller gives.

ghost use Rattle.std.specs.Int.{w8, w16, w32, w64};
ghost use Rattle.wal_shape.specs.FieldReading.{Gives, number_at, run_at};

use crate::body::BodyFault;

/// Reads a number of one byte.
pub fn u8_at(bytes: &[u8], place: u32, most: u8) -> Result<(u8, &[u8]), BodyFault>
    ensures { Gives (λ x. (x.0, x.1.now)) result (number_at w8 place most bytes.now) }
{
    if bytes.is_empty() {
        return Err(BodyFault::Truncated);
    }
    let (front, rest) = bytes.split_at(1);
    let number = front[0];
    if number > most {
        return Err(BodyFault::BadField(place));
    }
    Ok((number, rest))
}

/// Reads a number of two bytes.
pub fn u16_at(bytes: &[u8], place: u32, most: u16) -> Result<(u16, &[u8]), BodyFault>
    ensures { Gives (λ x. (x.0, x.1.now)) result (number_at w16 place most bytes.now) }
{
    if bytes.len() < 2 {
        return Err(BodyFault::Truncated);
    }
    let (front, rest) = bytes.split_at(2);
    let number = u16::from_be_bytes([front[0], front[1]]);
    if number > most {
        return Err(BodyFault::BadField(place));
    }
    Ok((number, rest))
}

/// Reads a number of four bytes.
pub fn u32_at(bytes: &[u8], place: u32, most: u32) -> Result<(u32, &[u8]), BodyFault>
    ensures { Gives (λ x. (x.0, x.1.now)) result (number_at w32 place most bytes.now) }
{
    if bytes.len() < 4 {
        return Err(BodyFault::Truncated);
    }
    let (front, rest) = bytes.split_at(4);
    let number = u32::from_be_bytes([front[0], front[1], front[2], front[3]]);
    if number > most {
        return Err(BodyFault::BadField(place));
    }
    Ok((number, rest))
}

/// Reads a number of eight bytes.
pub fn u64_at(bytes: &[u8], place: u32, most: u64) -> Result<(u64, &[u8]), BodyFault>
    ensures { Gives (λ x. (x.0, x.1.now)) result (number_at w64 place most bytes.now) }
{
    if bytes.len() < 8 {
        return Err(BodyFault::Truncated);
    }
    let (front, rest) = bytes.split_at(8);
    let number = u64::from_be_bytes([
        front[0], front[1], front[2], front[3], front[4], front[5], front[6], front[7],
    ]);
    if number > most {
        return Err(BodyFault::BadField(place));
    }
    Ok((number, rest))
}

/// Reads a run of bytes.
pub fn bytes_of(bytes: &[u8], size: usize) -> Result<(&[u8], &[u8]), BodyFault>
    ensures { Gives (λ x. (x.0.now, x.1.now)) result (run_at size bytes.now) }
{
    if bytes.len() < size {
        return Err(BodyFault::Truncated);
    }
    Ok(bytes.split_at(size))
}
