//! The coefficients by which the values at known points give the value at a wanted point.

ghost use Rattle.std.specs.Prelude.{◌≡◌, ◌≢◌, ℕ, ◌<◌, ◌≤◌, length, slice_index, take, All};
ghost use Rattle.wal_gf.specs.Field.{times, inverse, xor_below};
ghost use Rattle.wal_code.specs.Codeword.{Distinct, coefficient, Interpolates};
ghost use Rattle.wal_code.specs.Weights.{product_of_others, AreScales, AreWeights, element_at};
ghost use Rattle.wal_code.specs.inside.Weights.{product_of_all};

use wal_gf::Gf;

/// The most points that a codeword has.
pub(crate) const MAX_POINTS: usize = 1000;

/// The coefficient of the known index at `place` for the wanted index: the product of (w + q) /
/// (p + q) over the points q of the other known indices, where p and w are the points of these two
/// (Lagrange's interpolation). A polynomial of degree below the number of known indices has at w
/// the sum of these coefficients times its values at the known points.
pub fn coefficient(known: &[u16], place: u16, wanted: u16) -> Gf
    requires distinct { Distinct known.now }
    requires some { 1 ≤ length known.now }
    requires most { length known.now ≤ 1000 }
    requires below { All (λ p. p < 1000) known.now }
    requires place_below { place < length known.now }
    requires wanted_below { wanted < 1000 }
    ensures value { result.0 ≡ coefficient known.now (slice_index known.now place) wanted }
    ensures meaning { Interpolates known.now wanted }
{
    let point = known[place as usize];
    let scale = product_of_others(known, point, point).inv();
    product_of_others(known, point, wanted).mul(scale)
}

/// The product of `wanted + q` over the known points q other than `point`.
fn product_of_others(known: &[u16], point: u16, wanted: u16) -> Gf
    ensures value { result.0 ≡ product_of_others known.now point wanted }
    ensures nonzero { wanted ≡ point → result.0 ≢ 0 }
{
    let mut product = Gf(1);
    for q in known {
        if *q != point {
            product = product.mul(Gf(wanted ^ *q));
        }
    }
    product
}

/// Fills the inverse of the product of each known point's differences from the others.
pub fn fill_scales(known: &[u16], scales: &mut [Gf])
    requires { length scales.old ≡ length known.now }
    ensures { AreScales known.now scales.new }
{
    for (place, point) in known.iter().enumerate() {
        scales[place] = product_of_others(known, *point, *point).inv();
    }
}

/// Fills the coefficient of each known point for the wanted point, by four products a point: that
/// over the points before it, that over the points after it, and its scale.
pub fn fill_weights(known: &[u16], scales: &[Gf], wanted: u16, weights: &mut [Gf])
    requires distinct { Distinct known.now }
    requires scales { length scales.now ≡ length known.now }
    requires made { AreScales known.now scales.now }
    requires weights { length weights.old ≡ length known.now }
    ensures { AreWeights known.now wanted weights.new }
{
    fill_products_before(known, wanted, weights);
    let mut after = Gf(1);
    for place in (0..known.len()).rev() {
        weights[place] = weights[place].mul(after).mul(scales[place]);
        after = Gf(wanted ^ known[place]).mul(after);
    }
}

/// Fills the product of `wanted + q` over the points q before each place.
fn fill_products_before(known: &[u16], wanted: u16, products: &mut [Gf])
    requires { length products.old ≡ length known.now }
    ensures { (i : ℕ) → i < length known.now
        → element_at products.new i ≡ product_of_all (take i known.now) wanted }
{
    let mut before = Gf(1);
    for (place, point) in known.iter().enumerate() {
        products[place] = before;
        before = before.mul(Gf(wanted ^ *point));
    }
}

/// The sum of the weights times the values.
pub fn weighted_sum(weights: &[Gf], values: &[u16]) -> u16
    requires { length weights.now ≡ length values.now }
    ensures { result
        ≡ xor_below (length values.now)
        (λ i. times (element_at weights.now i) (slice_index values.now i)) }
{
    let mut sum = 0;
    for (place, value) in values.iter().enumerate() {
        sum ^= weights[place].mul(Gf(*value)).0;
    }
    sum
}
