//! Sums over the words from a place on.

ghost use Rattle.std.specs.Prelude.{◌≡◌, ◌+◌, ◌*◌, ◌%◌, ◌≤◌, length};
ghost use Rattle.wal_kernel.specs.Region.{word_at};
ghost use Rattle.wal_fft.specs.Transform.{WasAdded, scaled};

use wal_gf::Gf;
use wal_kernel::{add_region, add_scaled};

/// Adds c times each word of the source, from the word `from` on.
pub fn add_product(target: &mut [u8], c: Gf, source: &[u8], from: usize)
    requires equal { length source.now ≡ length target.old }
    requires even { length target.old % 2 ≡ 0 }
    requires within { 2 * from ≤ length target.old }
    ensures { WasAdded (scaled c.0 source.now) from target.old target.new }
{
    if c.0 != 0 {
        add_scaled(&mut target[2 * from..], c, &source[2 * from..]);
    }
}

/// Adds each word of the source, from the word `from` on.
pub(crate) fn add_words(target: &mut [u8], source: &[u8], from: usize)
    requires equal { length source.now ≡ length target.old }
    requires even { length target.old % 2 ≡ 0 }
    requires within { 2 * from ≤ length target.old }
    ensures { WasAdded (word_at source.now) from target.old target.new }
{
    add_region(&mut target[2 * from..], &source[2 * from..]);
}
