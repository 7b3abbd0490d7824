//! Numbers in frames and envelopes, most significant byte first.

ghost use Rattle.std.specs.Prelude.{◌≡◌, ◌≤◌, length, take};
ghost use Rattle.std.specs.Int.{w16, w32, from_be_bytes};
ghost use Rattle.wal_shape.specs.Spelling.{number_text};

use byteorder::{BigEndian, ByteOrder};

/// The number in the first two bytes.
pub(crate) fn u16_in(bytes: &[u8]) -> u16
    requires { 2 ≤ length bytes.now }
    ensures number { result ≡ from_be_bytes w16 (take 2 bytes.now) }
    // The number's bytes are the bytes that were read.
    ensures back { number_text w16 result ≡ take 2 bytes.now }
{
    BigEndian::read_u16(bytes)
}

/// The number in the first four bytes.
pub(crate) fn u32_in(bytes: &[u8]) -> u32
    requires { 4 ≤ length bytes.now }
    ensures number { result ≡ from_be_bytes w32 (take 4 bytes.now) }
    // The number's bytes are the bytes that were read.
    ensures back { number_text w32 result ≡ take 4 bytes.now }
{
    BigEndian::read_u32(bytes)
}
