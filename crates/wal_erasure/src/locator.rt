//! The products of differences from the missing points.

ghost use Rattle.std.specs.Prelude.{◌≡◌, ◌≢◌, ◌<◌, ◌≤◌, cond, length};
ghost use Rattle.wal_gf.specs.Field.{inverse};
ghost use Rattle.wal_erasure.specs.inside.Locator.{is_known, others, AreMarks, AreFactors};

use wal_gf::Gf;

/// The most points of a transform.
pub(crate) const ALL_POINTS: usize = 1024;

/// Whether a point is known.
fn is_among(known: &[u16], point: u16) -> bool
    ensures { result ≡ is_known known.now point }
{
    for q in known {
        if *q == point {
            return true;
        }
    }
    false
}

/// Marks the known points.
fn mark(known: &[u16], marks: &mut [bool])
    requires { length marks.old ≤ 1024 }
    ensures { AreMarks known.now (length marks.old) marks.new }
{
    for point in 0..marks.len() {
        marks[point] = is_among(known, point as u16);
    }
}

/// The product of a point's differences from the missing ones other than itself.
fn product_of_others(known: &[u16], marks: &[bool], point: u16) -> Gf
    requires few { length marks.now ≤ 1024 }
    requires marks { AreMarks known.now (length marks.now) marks.now }
    ensures value { result.0 ≡ others known.now (length marks.now) point }
    ensures nonzero { result.0 ≢ 0 }
{
    let mut product = Gf(1);
    for place in 0..marks.len() {
        let other = place as u16;
        if other != point && !marks[place] {
            product = Gf(point ^ other).mul(product);
        }
    }
    product
}

/// The factor of a point.
fn factor(known: &[u16], marks: &[bool], point: usize) -> Gf
    requires few { length marks.now ≤ 1024 }
    requires marks { AreMarks known.now (length marks.now) marks.now }
    requires point { point < length marks.now }
    ensures { result.0 ≡ cond (is_known known.now point) (others known.now (length marks.now) point)
        (inverse (others known.now (length marks.now) point)) }
{
    let product = product_of_others(known, marks, point as u16);
    if marks[point] { product } else { product.inv() }
}

/// Fills the factor of each of so many points.
pub(crate) fn fill_factors(known: &[u16], count: usize, factors: &mut [Gf])
    requires few { count ≤ 1024 }
    requires factors { length factors.old ≡ count }
    ensures { AreFactors known.now count count factors.new }
{
    let mut room = [false; ALL_POINTS];
    let marks = &mut room[..count];
    mark(known, marks);
    for point in 0..count {
        factors[point] = factor(known, marks, point);
    }
}
