//! Polynomials over the field: their values, and the one polynomial through given values.

ghost use Rattle.std.specs.Prelude.{◌≡◌, ◌≢◌, ℕ, ◌+◌, ◌≤◌, List, [], ◌∷◌, length, All, AllPairs};
ghost use Rattle.std.specs.Prelude.{IfOk, bit_xor};
ghost use Rattle.wal_gf.specs.Field.{IsWord, times};
ghost use Rattle.wal_gf.specs.Polynomial.{evaluate};
ghost use Rattle.wal_gf.specs.Interpolation.{words_of, HasValues, IsOnlyWithValues};

use crate::Gf;
use std::alloc::{AllocError, Global};
use std::marker::Model;

/// A polynomial over the field. Contracts see the list of its coefficients, the constant first.
#[derive(Drop)]
pub struct Poly {
    coefficients: Vec<Gf>,
}

impl Model for Poly {
    ghost Value = { List ℕ };

    ghost view = { λ p. words_of p.coefficients.items };

    ghost invariant = { λ p. All IsWord (words_of p.coefficients.items) };
}

impl Poly {
    /// The coefficients, the constant first.
    pub fn coefficients(&self) -> &[Gf]
        ensures { words_of result.now ≡ self.now }
    {
        &self.coefficients
    }

    /// The value at `x`, by Horner's rule.
    pub fn eval(&self, x: Gf) -> Gf
        ensures { result.0 ≡ evaluate self.now x.0 }
    {
        let mut value = Gf(0);
        for place in (0..self.coefficients.len()).rev() {
            value = self.coefficients[place].add(x.mul(value));
        }
        value
    }

    /// The polynomial of degree below the number of points that has the i-th value at the i-th
    /// point. It has as many coefficients as there are points. By Newton's interpolation: each
    /// point adds a multiple of the polynomial whose roots are the points before it.
    pub fn interpolate(alloc: Global, points: &[Gf], values: &[Gf]) -> Result<Poly, AllocError>
        requires same_length { length points.now ≡ length values.now }
        requires distinct { AllPairs (λ p q. p ≢ q) (words_of points.now) }
        ensures words { IfOk result (λ p. All IsWord p) }
        ensures size { IfOk result (λ p. length p ≡ length points.now) }
        ensures values { IfOk result
            (λ p. HasValues p (words_of points.now) (words_of values.now)) }
        ensures only { IfOk result
            (λ p. IsOnlyWithValues p (words_of points.now) (words_of values.now)) }
    {
        let mut found = Poly {
            coefficients: Vec::new(alloc),
        };
        let mut vanishing = Poly::one(alloc)?;
        for i in 0..points.len() {
            let slope = slope_at(&found, &vanishing, points[i], values[i]);
            found.add_multiple(slope, &vanishing)?;
            vanishing = vanishing.times_root(alloc, points[i])?;
        }
        Ok(found)
    }

    /// The constant 1.
    fn one(alloc: Global) -> Result<Poly, AllocError>
        ensures { IfOk result (λ p. p ≡ 1 ∷ []) }
    {
        let mut coefficients = Vec::new(alloc);
        coefficients.push(Gf(1))?;
        Ok(Poly { coefficients })
    }

    /// Adds a multiple of a polynomial with one coefficient more.
    fn add_multiple(&mut self, factor: Gf, other: &Poly) -> Result<(), AllocError>
        requires { length other.now ≡ length self.old + 1 }
        ensures words { IfOk result (λ _. All IsWord self.new) }
        ensures size { IfOk result (λ _. length self.new ≡ length other.now) }
        ensures value { IfOk result (λ _. (x : ℕ)
            → evaluate self.new x
            ≡ bit_xor (evaluate self.old x) (times factor.0 (evaluate other.now x))) }
    {
        self.coefficients.push(Gf(0))?;
        add_scaled(&mut self.coefficients, factor, &other.coefficients);
        Ok(())
    }

    /// The product with x + `root`, whose roots are this polynomial's and `root`.
    fn times_root(&self, alloc: Global, root: Gf) -> Result<Poly, AllocError>
        ensures words { IfOk result (λ p. All IsWord p) }
        ensures size { IfOk result (λ p. length p ≡ length self.now + 1) }
        ensures value { IfOk result
            (λ p. (x : ℕ) → evaluate p x ≡ times (bit_xor x root.0) (evaluate self.now x)) }
    {
        let mut coefficients = Vec::with_capacity(alloc, self.coefficients.len() + 1)?;
        coefficients.push(Gf(0))?;
        coefficients.extend_from_slice(&self.coefficients)?;
        add_scaled(&mut coefficients, root, &self.coefficients);
        Ok(Poly { coefficients })
    }
}

/// The multiple of `vanishing` that brings `found` to `value` at the point.
fn slope_at(found: &Poly, vanishing: &Poly, point: Gf, value: Gf) -> Gf
    requires { IsWord point.0 → evaluate vanishing.now point.0 ≢ 0 }
    ensures word { IsWord point.0 }
    ensures reached { bit_xor (evaluate found.now point.0)
        (times result.0 (evaluate vanishing.now point.0))
        ≡ value.0 }
{
    let missing = found.eval(point).add(value);
    missing.mul(vanishing.eval(point).inv())
}

/// Adds a multiple of the polynomial `other`, which has no more coefficients.
fn add_scaled(target: &mut [Gf], factor: Gf, other: &[Gf])
    requires fits { length other.now ≤ length target.old }
    requires words { All IsWord (words_of target.old) }
    requires other_words { All IsWord (words_of other.now) }
    ensures words { All IsWord (words_of target.new) }
    ensures value { (x : ℕ) → evaluate (words_of target.new) x
        ≡ bit_xor (evaluate (words_of target.old) x)
        (times factor.0 (evaluate (words_of other.now) x)) }
{
    for place in 0..other.len() {
        target[place] = target[place].add(factor.mul(other[place]));
    }
}
