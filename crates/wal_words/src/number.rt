//! Words that spell numbers and identifiers.

ghost use Rattle.std.specs.Prelude.{◌≡◌, ◌≢◌, ℕ, List, ◌<◌, ◌≤◌, ◌^◌, decimal, IfSome, IfNone};
ghost use Rattle.wal_words.specs.Task.{IsAxis, IsBeacon, IsFormat, IsIdentifier, IsNumber};
ghost use Rattle.wal_shape.specs.declared.axis.Axis.{Axis};
ghost use Rattle.wal_shape.specs.declared.shape.Format.{Format};

use hex::FromHex;
use itoa::Buffer;
use wal_shape::{Axis, BlobId, Format};

/// The number that the word spells in decimal digits, with neither a sign nor a leading zero.
fn any_number(word: &str) -> Option<u64>
    ensures found { IfSome result (λ n. word.now ≡ decimal n) }
    ensures none { IfNone result ((n : ℕ) → n < 2 ^ 64 → word.now ≢ decimal n) }
{
    let Ok(number) = word.parse::<u64>() else {
        return None;
    };
    let mut buffer = Buffer::new();
    if buffer.format(number) == word {
        Some(number)
    } else {
        None
    }
}

/// The number of this range that the word spells.
pub(crate) fn read_number(word: &str, least: u64, most: u64) -> Option<u64>
    ensures found { IfSome result (λ n. IsNumber least most word.now n) }
    ensures none { IfNone result ((n : ℕ) → IsNumber least most word.now n → ⊥) }
{
    let number = any_number(word)?;
    if least <= number && number <= most {
        Some(number)
    } else {
        None
    }
}

/// The number of this range that the word spells, of at most 32 bits.
pub(crate) fn read_small(word: &str, least: u32, most: u32) -> Option<u32>
    ensures found { IfSome result (λ n. IsNumber least most word.now n) }
    ensures none { IfNone result ((n : ℕ) → IsNumber least most word.now n → ⊥) }
{
    let number = read_number(word, u64::from(least), u64::from(most))?;
    Some(number as u32)
}

/// The number of this range that the word spells, of at most 16 bits.
pub(crate) fn read_short(word: &str, least: u16, most: u16) -> Option<u16>
    ensures found { IfSome result (λ n. IsNumber least most word.now n) }
    ensures none { IfNone result ((n : ℕ) → IsNumber least most word.now n → ⊥) }
{
    let number = read_number(word, u64::from(least), u64::from(most))?;
    Some(number as u16)
}

/// The identifier that the word spells: 64 hexadecimal digits of either case.
pub(crate) fn read_identifier(word: &str) -> Option<BlobId>
    ensures found { IfSome result (λ id. IsIdentifier word.now id.0) }
    ensures none { IfNone result ((id : List ℕ) → IsIdentifier word.now id → ⊥) }
{
    match <[u8; 32] as FromHex>::from_hex(word) {
        Ok(id) => Some(BlobId(id)),
        Err(_) => None,
    }
}

/// The beacon that the word spells: 64 hexadecimal digits of either case.
pub(crate) fn read_beacon(word: &str) -> Option<[u8; 32]>
    ensures found { IfSome result (λ beacon. IsBeacon word.now beacon) }
    ensures none { IfNone result ((beacon : List ℕ) → IsBeacon word.now beacon → ⊥) }
{
    match <[u8; 32] as FromHex>::from_hex(word) {
        Ok(beacon) => Some(beacon),
        Err(_) => None,
    }
}

/// The axis that the word names.
pub(crate) fn read_axis(word: &str) -> Option<Axis>
    ensures found { IfSome result (λ axis. IsAxis word.now axis) }
    ensures none { IfNone result ((axis : Axis) → IsAxis word.now axis → ⊥) }
{
    match word {
        "primary" => Some(Axis::Primary),
        "secondary" => Some(Axis::Secondary),
        _ => None,
    }
}

/// The format that the word names.
pub(crate) fn read_format(word: &str) -> Option<Format>
    ensures found { IfSome result (λ format. IsFormat word.now format) }
    ensures none { IfNone result ((format : Format) → IsFormat word.now format → ⊥) }
{
    match word {
        "1" => Some(Format::One),
        "2" => Some(Format::Two),
        _ => None,
    }
}
