//! Sums over regions: slices of bytes that are read as words of the field of 65536 elements, each
//! word two bytes with the most significant first.
#![tactic(auto)]

ghost use Rattle.std.specs.Prelude.{◌≡◌, ◌%◌, length};
ghost use Rattle.wal_kernel.specs.Region.{IsScaledSum, IsSum};

mod blocks;
mod lanes;
mod plain;
mod products;

use wal_gf::Gf;

/// Below this length in bytes, products word by word take less time than making tables for them.
const SHORT: usize = 4;

/// Adds c times each word of the source to the word at the same place of the target.
///
/// The products come from nibble tables by byte shuffles (Plank, Greenan, Miller: "Screaming fast
/// Galois field arithmetic using Intel SIMD instructions", 2013), but in short regions word by
/// word.
pub fn add_scaled(dst: &mut [u8], c: Gf, src: &[u8])
    requires equal { length src.now ≡ length dst.old }
    requires even { length dst.old % 2 ≡ 0 }
    ensures { IsScaledSum c.0 dst.old src.now dst.new }
{
    if dst.len() < SHORT {
        plain::add_scaled(dst, c, src);
    } else {
        blocks::add_scaled_blocks(dst, c, src);
    }
}

/// Adds each word of the source to the word at the same place of the target.
pub fn add_region(dst: &mut [u8], src: &[u8])
    requires equal { length src.now ≡ length dst.old }
    requires even { length dst.old % 2 ≡ 0 }
    ensures { IsSum dst.old src.now dst.new }
{
    let start = blocks::add_vectors(dst, src);
    plain::add_from(dst, src, start);
}
