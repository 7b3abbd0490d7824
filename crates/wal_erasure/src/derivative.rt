//! The derivative, on runs of words.

ghost use Rattle.std.specs.Prelude.{◌≡◌, ◌-◌, ◌*◌, ◌^◌, ◌<◌, ◌≤◌, length};
ghost use Rattle.wal_erasure.specs.inside.Derivative.{rate, AreDerived};

use wal_fft::{add_product, half};
use wal_gf::Gf;

/// The derivative of each skew.
const RATES: [u16; 10] = [
    1, 30723, 36712, 29482, 58012, 5937, 24386, 13416, 28363, 5433,
];

/// The derivative of the skew of this row.
fn rate(row: usize) -> Gf
    requires { row < 10 }
    ensures { result.0 ≡ rate row }
{
    Gf(RATES[row])
}

/// Replaces the coefficients of polynomials by those of their derivatives.
pub(crate) fn derive(buffer: &mut [u8], width: usize, level: usize)
    requires long { length buffer.old ≡ 2 ^ level * (2 * width) }
    requires few { level ≤ 10 }
    ensures { AreDerived width level buffer.old buffer.new }
{
    if level == 0 {
        buffer.fill(0);
        return;
    }
    let points = half(level);
    let (low, high) = buffer.split_at_mut(points * 2 * width);
    derive(low, width, level - 1);
    add_product(low, rate(level - 1), high, 0);
    derive(high, width, level - 1);
}
