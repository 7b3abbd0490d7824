//! The skews: additive polynomials at the points below 1024.

ghost use Rattle.std.specs.Prelude.{◌≡◌, ◌<◌};
ghost use Rattle.std.specs.Int.{bit_at};
ghost use Rattle.wal_fft.specs.Transform.{entry, skew};

use wal_gf::Gf;

/// Row j has the values of the j-th skew at the points 1, 2, 4, .., 512.
const TABLE: [u16; 100] = [
    1, 2, 4, 8, 16, 32, 64, 128, 256, 512, 0, 1, 6, 28, 120, 496, 2016, 8128, 32640, 61195, 0, 0,
    1, 22, 380, 6072, 27259, 49258, 55572, 16063, 0, 0, 0, 1, 278, 1911, 4233, 62400, 50830, 61466,
    0, 0, 0, 0, 1, 4381, 30643, 46236, 10498, 26502, 0, 0, 0, 0, 0, 1, 2787, 52915, 10027, 29273,
    0, 0, 0, 0, 0, 0, 1, 22215, 57265, 34140, 0, 0, 0, 0, 0, 0, 0, 1, 45184, 2176, 0, 0, 0, 0, 0,
    0, 0, 0, 1, 48047, 0, 0, 0, 0, 0, 0, 0, 0, 0, 1,
];

/// The skew of this row at a power of two.
fn entry(row: usize, place: usize) -> u16
    requires row { row < 10 }
    requires place { place < 10 }
    ensures { result ≡ entry row place }
{
    TABLE[10 * row + place]
}

/// One bit of a point.
fn bit(point: u16, place: u16) -> u16
    requires { place < 10 }
    ensures { result ≡ bit_at point place }
{
    point >> place & 1
}

/// The skew of this row at a point.
pub fn skew(row: usize, point: usize) -> Gf
    requires row { row < 10 }
    requires point { point < 1024 }
    ensures { result.0 ≡ skew row point }
{
    let mut sum = 0;
    for place in 0..10 {
        sum ^= bit(point as u16, place as u16) * entry(row, place);
    }
    Gf(sum)
}
