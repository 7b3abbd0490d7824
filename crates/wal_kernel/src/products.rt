//! Tables of the products of one element.

ghost use Rattle.std.specs.Prelude.{◌≡◌, ℕ, ◌/◌, ◌%◌, ◌<◌};
ghost use Rattle.wal_gf.specs.Field.{times};
ghost use Rattle.wal_kernel.specs.inside.Lanes.{AreMultiples, AreProducts};

use crate::lanes;
use std::simd::prelude::*;
use wal_gf::Gf;

/// The bytes of the products of one element and the sixteen polynomials of degree below 4, twice.
#[derive(Clone, Copy)]
pub(crate) struct Multiples {
    pub(crate) high: u8x32,
    pub(crate) low: u8x32,
}

/// The multiples of one element by each nibble of a word, the lowest nibble's first.
#[derive(Clone, Copy)]
pub(crate) struct NibbleTables {
    pub(crate) nibble0: Multiples,
    pub(crate) nibble1: Multiples,
    pub(crate) nibble2: Multiples,
    pub(crate) nibble3: Multiples,
}

/// The tables by which c times a word is the sum of four entries.
pub(crate) fn tables_of(c: Gf) -> NibbleTables
    ensures { AreProducts c.0 result }
{
    let nibble0 = multiples_of(c);
    let nibble1 = times_sixteen(nibble0);
    let nibble2 = times_sixteen(nibble1);
    let nibble3 = times_sixteen(nibble2);
    NibbleTables {
        nibble0,
        nibble1,
        nibble2,
        nibble3,
    }
}

/// Each product is the sum of those of c and the powers of x that the number has.
#[inline(always)]
fn multiples_of(c: Gf) -> Multiples
    ensures { AreMultiples c.0 result }
{
    let [high_1, low_1] = c.0.to_be_bytes();
    let by_2 = doubled(c.0);
    let [high_2, low_2] = by_2.to_be_bytes();
    let by_4 = doubled(by_2);
    let [high_4, low_4] = by_4.to_be_bytes();
    let [high_8, low_8] = doubled(by_4).to_be_bytes();
    Multiples {
        high: lanes::spanned(high_1, high_2, high_4, high_8),
        low: lanes::spanned(low_1, low_2, low_4, low_8),
    }
}

/// The multiples of x^4 times an element, from its own.
#[inline(always)]
fn times_sixteen(multiples: Multiples) -> Multiples
    ensures { (c : ℕ) → AreMultiples c multiples → AreMultiples (times c 16) result }
{
    let high = multiples.high;
    let low = multiples.low;
    Multiples {
        high: lanes::high_times_sixteen(high, low),
        low: lanes::low_times_sixteen(high, low),
    }
}

/// x times a word: where it had the term of degree 15, the modulus is taken from it.
#[inline(always)]
fn doubled(word: u16) -> u16
    ensures { result ≡ times word 2 }
{
    (word << 1) ^ ((word >> 15) * 0x100B)
}
