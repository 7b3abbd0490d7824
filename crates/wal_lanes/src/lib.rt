//! SHA-256 of eight equally long texts at a time, in the lanes of vectors of eight words.
#![tactic(auto)]

ghost use Rattle.std.specs.Prelude.{◌≡◌, ◌*◌, ◌/◌, ◌≤◌, length};
ghost use Rattle.sha2.specs.Sha256.{sha256};
ghost use Rattle.wal_lanes.specs.Pieces.{AreDigests};

mod block;
mod bytes;
mod constants;
mod pieces;
mod strips;
mod texts;
mod words;

use crate::pieces::{write_each, write_lanes};
pub use strips::{Pieces, digest_strips};

/// Fewer pieces are hashed one by one. With vectors of eight words two pieces would be enough, with
/// vectors of four words five are: four take half the time with the first, and a tenth more with
/// the second.
const FEW: usize = 4;

/// The SHA-256 digests of equally long pieces of a content, each behind a prefix byte.
///
/// The digests lie in `out` one after the other, 32 bytes each. Takes no memory. The leaves of a
/// tree are such pieces, behind the prefix 0; so are the nodes of a level, each 64 bytes behind the
/// prefix 1.
pub fn digest_pieces(prefix: u8, content: &[u8], size: usize, out: &mut [u8])
    requires some { 1 ≤ size }
    requires whole { length content.now ≡ length content.now / size * size }
    requires room { length out.old ≡ length content.now / size * 32 }
    ensures { AreDigests sha256 prefix size content.now (length content.now / size) out.new }
{
    let count = content.len() / size;
    if count < FEW {
        write_each(prefix, content, size, count, out);
        return;
    }
    if count < 8 {
        write_lanes(prefix, content, size, 0, count, out);
        return;
    }
    'groups: for group in 0..count / 8 {
        write_lanes(prefix, content, size, 8 * group, 8, out);
    }
    // The last eight, some of them once more.
    if count % 8 > 0 {
        write_lanes(prefix, content, size, count - 8, 8, out);
    }
}
