//! The transform and its inverse, on runs of words: run k has a word of each of many polynomials,
//! at the same place of each run.

ghost use Rattle.std.specs.Prelude.{◌≡◌, ◌+◌, ◌-◌, ◌*◌, ◌^◌, ◌<◌, ◌≤◌, length};
ghost use Rattle.wal_fft.specs.Transform.{AreValues, AreCoefficients};

use crate::levels::half;
use crate::skews::skew;
use crate::sums::{add_product, add_words};

/// The points from one to below another.
#[derive(Clone, Copy)]
pub struct PointRange {
    /// The first point.
    pub from: usize,
    /// The point behind the last one.
    pub to: usize,
}

/// Replaces the coefficients of polynomials by their values at the points of a block, the wanted
/// ones alone. What the runs at the other points then have is not told.
pub fn evaluate(buffer: &mut [u8], width: usize, level: usize, index: usize, wanted: PointRange)
    requires long { length buffer.old ≡ 2 ^ level * (2 * width) }
    requires few { level ≤ 10 }
    requires points { (index + 1) * 2 ^ level ≤ 1024 }
    ensures { AreValues width level index wanted.from wanted.to buffer.old buffer.new }
{
    if level == 0 {
        return;
    }
    let points = half(level);
    let start = 2 * index * points;
    if start + 2 * points <= wanted.from || wanted.to <= start {
        return;
    }
    let (low, high) = buffer.split_at_mut(points * 2 * width);
    add_product(low, skew(level - 1, start), high, 0);
    add_words(high, low, 0);
    evaluate(low, width, level - 1, 2 * index, wanted);
    evaluate(high, width, level - 1, 2 * index + 1, wanted);
}

/// Replaces the values of polynomials at the first `known` points of a block by their first
/// coefficients, of which the runs from `known` on have the others. It undoes `evaluate`, if all
/// points are known.
pub fn restore(buffer: &mut [u8], width: usize, level: usize, index: usize, known: usize)
    requires long { length buffer.old ≡ 2 ^ level * (2 * width) }
    requires few { level ≤ 10 }
    requires points { (index + 1) * 2 ^ level ≤ 1024 }
    requires known { known ≤ 2 ^ level }
    ensures { AreCoefficients width level index known buffer.old buffer.new }
{
    if level == 0 {
        return;
    }
    if known == 0 {
        return;
    }
    let points = half(level);
    let factor = skew(level - 1, 2 * index * points);
    let (low, high) = buffer.split_at_mut(points * 2 * width);
    if known <= points {
        add_product(low, factor, high, width * known);
        restore(low, width, level - 1, 2 * index, known);
        add_product(low, factor, high, 0);
    } else {
        restore(low, width, level - 1, 2 * index, points);
        add_words(high, low, width * (known - points));
        restore(high, width, level - 1, 2 * index + 1, known - points);
        add_words(high, low, 0);
        add_product(low, factor, high, 0);
    }
}
