//! Draws from a beacon.

ghost use Rattle.std.specs.Prelude.{◌≡◌, ◌%◌, ◌∷◌, ◌++◌, ◌<◌, ◌≤◌};
ghost use Rattle.std.specs.Int.{w16};
ghost use Rattle.wal_shape.specs.ProofReading.{axis_of};
ghost use Rattle.wal_shape.specs.Spelling.{number_text};
ghost use Rattle.wal_challenge.specs.Draw.{drawn};

use crate::drawing::Draw;
use wal_shape::{Axis, BlobId};
use wal_tree::{Digest, Hash32};

/// The byte that the text of a draw begins with.
const TAG: u8 = 4;

/// The tag, and the beacon behind it.
fn tagged(beacon: &Digest) -> [u8; 33]
    ensures { result ≡ 4 ∷ beacon.now }
{
    let mut head = [TAG; 33];
    head[1..].copy_from_slice(beacon);
    head
}

/// Two numbers, each in two bytes.
fn pair_of(shard: u16, d: u16) -> [u8; 4]
    ensures { result ≡ number_text w16 shard ++ number_text w16 d }
{
    let [a, b] = shard.to_be_bytes();
    let [c, e] = d.to_be_bytes();
    [a, b, c, e]
}

/// The axis that the lowest bit of a byte stands for.
fn axis_in(byte: u8) -> Axis
    ensures { result ≡ axis_of (byte % 2) }
{
    if byte % 2 == 0 {
        Axis::Primary
    } else {
        Axis::Secondary
    }
}

/// Draw `d` of a shard of `n`, for the blob of this identifier.
///
/// Its digest is that of 69 bytes: `0x04`, the beacon, the identifier, and the shard and `d` in two
/// bytes each, most significant first. The lowest bit of the digest's first byte is the axis, 0 for
/// primary, and its fourth and fifth byte are a number whose remainder by `n` is the place. Takes
/// no memory.
pub fn draw<H: Hash32>(beacon: &Digest, id: &BlobId, n: u16, shard: u16, d: u16) -> Draw
    requires least { 4 ≤ n }
    requires most { n ≤ 1000 }
    requires shard { shard < n }
    ensures drawn { result ≡ drawn H.digest beacon.now id.now.0 n shard d }
    ensures within { result.place < n }
{
    let digest = H::hash3(&tagged(beacon), &id.0, &pair_of(shard, d));
    Draw {
        axis: axis_in(digest[0]),
        place: u16::from_be_bytes([digest[3], digest[4]]) % n,
    }
}
