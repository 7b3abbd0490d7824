//! Opening bodies: the spelling of one opening.

ghost use Rattle.std.specs.Prelude.{◌≡◌, ℕ, ◌+◌, ◌*◌, ◌^◌, ◌<◌, ◌≤◌, ◌++◌, List, length, drop};
ghost use Rattle.std.specs.Prelude.{IfOk, Ok};
ghost use Rattle.wal_shape.specs.declared.opening.Opening.{Opening};
ghost use Rattle.wal_shape.specs.Opening.{IsBody, opening_shown};
ghost use Rattle.wal_shape.specs.Spelling.{body_text};
ghost use Rattle.wal_shape.specs.FieldReading.{Gives};
ghost use Rattle.wal_shape.specs.BodyReading.{body_seen, body_at};

use crate::fields::{bytes_of, u8_at, u16_at, u32_at};
use crate::opening::OpeningRef;
use crate::shape::MOST_BYTES;

/// What is wrong with an opening body: the first fault from left to right.
#[derive(Clone, Copy, Debug, PartialEq, Eq)]
pub enum BodyFault {
    /// A field, or the run of bytes or digests that a field announces, is not all there.
    Truncated,
    /// A field is out of range: its place, counted from the body's first byte.
    BadField(u32),
}

/// An opening that was read, and the number of bytes that its body fills.
#[derive(Clone, Copy, Debug)]
pub struct BodyRef<'a> {
    pub opening: OpeningRef<'a>,
    pub size: u32,
}

/// The most for a shard's number or a sliver's index.
pub(crate) const MOST_INDEX: u16 = 999;

/// The most bytes of a symbol.
const MOST_SYMBOL: u32 = MOST_BYTES as u32;

/// The most digests of a path.
const MOST_DIGESTS: u8 = 10;

/// The number of bytes of a digest.
pub(crate) const DIGEST_SIZE: usize = 32;

/// The opening that the bytes begin with, and the bytes after its body.
#[tactic(auto, unfolding(crate::specs::BodyReading::body_at))]
pub(crate) fn split_body(bytes: &[u8]) -> Result<(OpeningRef<'_>, &[u8]), BodyFault>
    ensures { Gives (λ x. (opening_shown x.0, x.1.now)) result (body_at bytes.now) }
{
    let (cross, rest) = u16_at(bytes, 0, MOST_INDEX)?;
    let (size, rest) = u32_at(rest, 2, MOST_SYMBOL)?;
    let (symbol, rest) = bytes_of(rest, size as usize)?;
    let (count, rest) = u8_at(rest, 6 + size, MOST_DIGESTS)?;
    let (path, rest) = bytes_of(rest, DIGEST_SIZE * usize::from(count))?;
    let opening = OpeningRef {
        cross,
        symbol,
        path,
    };
    Ok((opening, rest))
}

/// Reads the opening body that the bytes begin with.
///
/// A body is the cross (two bytes), the symbol's size (four) and the symbol, the number of digests
/// (one) and the digests (32 bytes each), numbers most significant byte first. A range is checked
/// once the field is read, before what it announces.
pub fn read_body(bytes: &[u8]) -> Result<BodyRef<'_>, BodyFault>
    // What is read is an opening in the ranges, and the bytes begin with its body.
    ensures opening { IfOk result (λ b. IsBody (opening_shown b.opening)) }
    ensures spelled { IfOk result
        (λ b. bytes.now ≡ body_text (opening_shown b.opening) ++ drop b.size bytes.now) }
    ensures size { IfOk result (λ b. b.size ≡ length (body_text (opening_shown b.opening))) }
    // A body is read, whatever follows.
    ensures only { (o : Opening) (rest : List ℕ) → IsBody o → bytes.now ≡ body_text o ++ rest
        → Gives (body_seen bytes.now) result (Ok (o, rest)) }
    // Which fault it is.
    ensures exact { Gives (body_seen bytes.now) result (body_at bytes.now) }
{
    let (opening, _) = split_body(bytes)?;
    let size = 7 + (opening.symbol.len() + opening.path.len()) as u32;
    Ok(BodyRef { opening, size })
}
