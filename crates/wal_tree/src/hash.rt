ghost use Rattle.std.specs.Prelude.{◌≡◌, ℕ, ◌+◌, ◌*◌, ◌/◌, ◌%◌, ◌<◌, ◌≤◌, ◌^◌, ◌++◌, List, All};
ghost use Rattle.std.specs.Prelude.{OnOk, length, slice_index, bit_xor};
ghost use Rattle.sha2.specs.Sha256.{sha256};
ghost use Rattle.wal_lanes.specs.Pieces.{AreDigests};
ghost use Rattle.wal_lanes.specs.Strips.{AreDigestsOf};
ghost use Rattle.wal_tree.specs.Digests.{IsByte, lane_sum, toy32};
ghost use Rattle.wal_tree.specs.Laws.{sha256_bytes, sha256_size, toy32_bytes, toy32_size};

use crate::parts::{piece_at, put};
use sha2::{Digest as Hasher, Sha256};
use std::alloc::{AllocError, Global};
use wal_lanes::Pieces;

/// A digest: 32 bytes, in the order in which they are written.
pub type Digest = [u8; 32];

/// A hash function with digests of 32 bytes.
pub trait Hash32 {
    // The digest of a text.
    ghost digest: { List ℕ → List ℕ };

    /// The digest of the three texts joined, first to last.
    fn hash3(a: &[u8], b: &[u8], c: &[u8]) -> Digest
        ensures { result ≡ digest (a.now ++ b.now ++ c.now) };

    /// The digests of equally long pieces of a content, each behind a prefix byte, one after the
    /// other.
    fn digest_pieces(prefix: u8, content: &[u8], size: usize, out: &mut [u8])
        requires some { 1 ≤ size }
        requires whole { length content.now ≡ length content.now / size * size }
        requires room { length out.old ≡ length content.now / size * 32 }
        ensures { AreDigests digest prefix size content.now (length content.now / size) out.new }
    {
        let count = content.len() / size;
        'each: for place in 0..count {
            let digest = Self::hash3(b"", &[prefix], piece_at(content, size, place));
            put(out, place * 32, &digest);
        }
    }

    /// The digests of pieces that come strip by strip, each behind a prefix byte, one after the
    /// other. A strip has at most `width` bytes of each. Where memory is wanted, nothing is said of
    /// `out`.
    fn digest_strips<P: Pieces>(
        alloc: Global,
        prefix: u8,
        pieces: &mut P,
        count: usize,
        size: usize,
        width: usize,
        out: &mut [u8],
    ) -> Result<(), AllocError>
        requires count { P.count pieces.old ≡ count }
        requires size { P.size pieces.old ≡ size }
        requires some { 1 ≤ count }
        requires some_bytes { 2 ≤ size }
        requires even { size % 2 ≡ 0 }
        requires blocks { width % 64 ≡ 0 }
        requires wide { 64 ≤ width }
        requires fits { count * width < 2 ^ 31 }
        requires small { size < 2 ^ 31 }
        requires room { length out.old ≡ count * 32 }
        ensures same { pieces.new ≡ pieces.old }
        ensures digests { OnOk result
            (AreDigestsOf digest prefix (P.has pieces.old) count out.new) }
    {
        // One strip of all: another digest takes the pieces whole.
        let mut whole = vec![in alloc; 0u8; count * size]?;
        pieces.fill(0, size, &mut whole);
        Self::digest_pieces(prefix, &whole, size, out);
        Ok(())
    }

    // A digest has 32 bytes.
    ghost size: { (text : List ℕ) → length (digest text) ≡ 32 };

    // A text of bytes has a digest of bytes.
    ghost bytes: { (text : List ℕ) → All IsByte text → All IsByte (digest text) };
}

/// SHA-256 (FIPS 180-4, section 6.2).
#[derive(Clone, Copy, Debug)]
pub struct Sha;

impl Hash32 for Sha {
    ghost digest = { sha256 };

    ghost size = { sha256_size };

    ghost bytes = { sha256_bytes };

    fn hash3(a: &[u8], b: &[u8], c: &[u8]) -> Digest {
        let mut hasher = Sha256::new();
        hasher.update(a);
        hasher.update(b);
        hasher.update(c);
        hasher.finalize()
    }

    fn digest_pieces(prefix: u8, content: &[u8], size: usize, out: &mut [u8]) {
        wal_lanes::digest_pieces(prefix, content, size, out);
    }

    fn digest_strips<P: Pieces>(
        alloc: Global,
        prefix: u8,
        pieces: &mut P,
        count: usize,
        size: usize,
        width: usize,
        out: &mut [u8],
    ) -> Result<(), AllocError> {
        wal_lanes::digest_strips(alloc, prefix, pieces, count, size, width, out)
    }
}

/// A toy digest that can be worked out by hand: byte k is the exclusive or of the text's bytes at
/// the positions that leave k modulo 32. It resists nothing.
#[derive(Clone, Copy, Debug)]
pub struct Toy32;

impl Hash32 for Toy32 {
    ghost digest = { toy32 };

    ghost size = { toy32_size };

    ghost bytes = { toy32_bytes };

    fn hash3(a: &[u8], b: &[u8], c: &[u8]) -> Digest {
        let mut sums = [0; 32];
        let after_a = add_to_lanes(&mut sums, 0, a);
        let after_b = add_to_lanes(&mut sums, after_a, b);
        add_to_lanes(&mut sums, after_b, c);
        sums
    }
}

// Adds each byte to the lane of its position, where the first stands at `start`, and says in which
// lane the next text begins.
fn add_to_lanes(sums: &mut Digest, start: usize, text: &[u8]) -> usize
    requires { start < 32 }
    ensures lanes { (k : ℕ) → k < 32
        → slice_index sums.new k ≡ bit_xor (slice_index sums.old k) (lane_sum k start text.now) }
    ensures next { result ≡ (start + length text.now) % 32 }
{
    for (index, byte) in text.iter().enumerate() {
        sums[(start + index) % 32] ^= *byte;
    }
    (start + text.len()) % 32
}
