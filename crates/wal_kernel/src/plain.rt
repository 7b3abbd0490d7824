//! Sums word by word and byte by byte.

ghost use Rattle.std.specs.Prelude.{◌≡◌, ℕ, ◌+◌, ◌*◌, ◌/◌, ◌%◌, ◌<◌, ◌≤◌, List, length};
ghost use Rattle.std.specs.Prelude.{slice_index};
ghost use Rattle.wal_kernel.specs.Region.{word_at, IsScaledSum};
ghost use Rattle.wal_kernel.specs.inside.Region.{IsSumBelow};

use wal_gf::Gf;

/// Adds c times each word of the source.
pub(crate) fn add_scaled(dst: &mut [u8], c: Gf, src: &[u8])
    requires equal { length src.now ≡ length dst.old }
    requires even { length dst.old % 2 ≡ 0 }
    ensures { IsScaledSum c.0 dst.old src.now dst.new }
{
    for i in 0..dst.len() / 2 {
        add_word(dst, i, c.mul(word(src, i)));
    }
}

/// Adds the source from the byte `start` on.
pub(crate) fn add_from(dst: &mut [u8], src: &[u8], start: usize)
    requires equal { length src.now ≡ length dst.old }
    requires within { start ≤ length dst.old }
    ensures { (old : List ℕ) → IsSumBelow (λ k. slice_index src.now k) old start dst.old
        → IsSumBelow (λ k. slice_index src.now k) old (length dst.old) dst.new }
{
    for k in start..dst.len() {
        dst[k] ^= src[k];
    }
}

/// Word i of the bytes.
fn word(bytes: &[u8], i: usize) -> Gf
    requires { 2 * i + 1 < length bytes.now }
    ensures { result.0 ≡ word_at bytes.now i }
{
    Gf(u16::from_be_bytes([bytes[2 * i], bytes[2 * i + 1]]))
}

/// Adds to word i.
fn add_word(dst: &mut [u8], i: usize, word: Gf)
    requires { 2 * i + 1 < length dst.old }
    ensures { (f : ℕ → ℕ) (old : List ℕ) → f (2 * i) ≡ word.0 / 256 → f (2 * i + 1) ≡ word.0 % 256
        → IsSumBelow f old (2 * i) dst.old → IsSumBelow f old (2 * i + 2) dst.new }
{
    let [high, low] = word.0.to_be_bytes();
    dst[2 * i] ^= high;
    dst[2 * i + 1] ^= low;
}
