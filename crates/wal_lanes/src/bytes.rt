//! Parts of byte slices.

ghost use Rattle.std.specs.Prelude.{◌≡◌, ◌+◌, ◌≤◌, ◌*◌, length, take, drop};
ghost use Rattle.sha2.specs.Sha256.{digest_bytes};
ghost use Rattle.wal_lanes.specs.inside.Lanes.{put_at};

/// The `size` bytes from `at` on.
#[inline(always)]
pub(crate) fn part(content: &[u8], at: usize, size: usize) -> &[u8]
    requires { at + size ≤ length content.now }
    ensures part { result.now ≡ take size (drop at content.now) }
    ensures long { length result.now ≡ size }
{
    &content[at..at + size]
}

/// The pieces of `size` bytes from the one at the place `first` on, `count` of them.
pub(crate) fn pieces(content: &[u8], size: usize, first: usize, count: usize) -> &[u8]
    requires { (first + count) * size ≤ length content.now }
    ensures pieces { result.now ≡ take (count * size) (drop (first * size) content.now) }
    ensures long { length result.now ≡ count * size }
{
    part(content, first * size, count * size)
}

/// Puts the bytes in place of those from `at` on.
#[inline(always)]
pub(crate) fn put(out: &mut [u8], at: usize, bytes: &[u8])
    requires { at + length bytes.now ≤ length out.old }
    ensures { out.new ≡ put_at at out.old bytes.now }
{
    out[at..at + bytes.len()].copy_from_slice(bytes);
}

/// Puts the eight words, each high byte first, in place of the bytes from `at` on.
pub(crate) fn put_words(out: &mut [u8], at: usize, words: &[u32; 8])
    requires { at + 32 ≤ length out.old }
    ensures { out.new ≡ put_at at out.old (digest_bytes words.now 8) }
{
    'each: for word in 0..8 {
        put(out, at + 4 * word, &words[word].to_be_bytes());
    }
}
