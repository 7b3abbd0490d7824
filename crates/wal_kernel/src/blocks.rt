//! Sums by vectors of 32 bytes, and blocks of two.

ghost use Rattle.std.specs.Prelude.{◌≡◌, ℕ, ◌+◌, ◌*◌, ◌≤◌, List, length, slice_index};
ghost use Rattle.wal_gf.specs.Field.{times};
ghost use Rattle.wal_kernel.specs.inside.Lanes.{AreProducts};
ghost use Rattle.wal_kernel.specs.inside.Region.{scaled_byte, IsSumBelow};

use crate::lanes;
use crate::products::{NibbleTables, tables_of};
use wal_gf::Gf;

/// Adds the source by vectors of 32 bytes, and tells how many bytes that covers.
pub(crate) fn add_vectors(dst: &mut [u8], src: &[u8]) -> usize
    requires { length src.now ≡ length dst.old }
    ensures within { result ≤ length dst.old }
    ensures sum { IsSumBelow (λ k. slice_index src.now k) dst.old result dst.new }
{
    let vectors = dst.len() / 32;
    for vector in 0..vectors {
        lanes::add(dst, 32 * vector, lanes::load(src, 32 * vector));
    }
    32 * vectors
}

/// Adds c times the source by blocks of 32 words; what is left past the whole ones is padded to one
/// more.
pub(crate) fn add_scaled_blocks(dst: &mut [u8], c: Gf, src: &[u8])
    requires { length src.now ≡ length dst.old }
    ensures { IsSumBelow (scaled_byte c.0 src.now) dst.old (length dst.old) dst.new }
{
    let tables = tables_of(c);
    let blocks = dst.len() / 64;
    for block in 0..blocks {
        add_scaled_block(dst, block, &tables, src);
    }
    if dst.len() % 64 > 0 {
        add_scaled_rest(dst, blocks, &tables, src);
    }
}

/// Adds the products of the words from a block's first one on, of which there are 32 at most.
fn add_scaled_rest(dst: &mut [u8], block: usize, tables: &NibbleTables, src: &[u8])
    requires equal { length src.now ≡ length dst.old }
    requires starts { 64 * block ≤ length dst.old }
    requires ends { length dst.old ≤ 64 * block + 64 }
    ensures { (c : ℕ) (old : List ℕ) → AreProducts c tables.now
        → IsSumBelow (scaled_byte c src.now) old (64 * block) dst.old
        → IsSumBelow (scaled_byte c src.now) old (length dst.old) dst.new }
{
    let at = 64 * block;
    let words = padded(src, at);
    let mut sums = padded(dst, at);
    add_scaled_block(&mut sums, 0, tables, &words);
    let rest = dst.len() - at;
    dst[at..].copy_from_slice(&sums[..rest]);
}

/// The bytes from `at` on, and zero bytes after them.
fn padded(bytes: &[u8], at: usize) -> [u8; 64]
    requires starts { at ≤ length bytes.now }
    requires ends { length bytes.now ≤ at + 64 }
    ensures long { length result ≡ 64 }
    ensures bytes { (k : ℕ) → slice_index result k ≡ slice_index bytes.now (at + k) }
{
    let mut block = [0; 64];
    block[..bytes.len() - at].copy_from_slice(&bytes[at..]);
    block
}

/// Adds the products of the 32 words of one block.
#[inline(always)]
fn add_scaled_block(dst: &mut [u8], block: usize, tables: &NibbleTables, src: &[u8])
    requires equal { length src.now ≡ length dst.old }
    requires within { 64 * block + 64 ≤ length dst.old }
    ensures { (c : ℕ) (old : List ℕ) → AreProducts c tables.now
        → IsSumBelow (scaled_byte c src.now) old (64 * block) dst.old
        → IsSumBelow (scaled_byte c src.now) old (64 * block + 64) dst.new }
{
    let at = 64 * block;
    let (high, low) = lanes::split(src, at);
    let t3 = tables.nibble3;
    let t2 = tables.nibble2;
    let t1 = tables.nibble1;
    let t0 = tables.nibble0;
    let high_bytes = lanes::looked_up(t3.high, t2.high, t1.high, t0.high, high, low);
    let low_bytes = lanes::looked_up(t3.low, t2.low, t1.low, t0.low, high, low);
    lanes::add_merged(dst, at, high_bytes, low_bytes);
}
