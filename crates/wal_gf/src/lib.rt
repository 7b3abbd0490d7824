//! The field of 65536 elements: polynomials over GF(2) modulo x^16 + x^12 + x^3 + x + 1, which is
//! also the field of the Parity Volume Set Specification 2.0. Reed-Solomon codes are built on its
//! polynomials.
#![tactic(auto)]

ghost use Rattle.std.specs.Prelude.{◌≡◌, ◌≢◌, ℕ, ◌+◌, ◌^◌, ◌<◌, ◌≤◌, bit_xor};
ghost use Rattle.wal_gf.specs.Field.{remainder, times, power, inverse};

pub mod laws;
mod polynomial;

pub use polynomial::Poly;

/// An element of the field. Bit i is the coefficient of x^i in a polynomial over GF(2) of degree
/// below 16.
#[derive(Clone, Copy, PartialEq, Eq, Debug)]
pub struct Gf(pub u16);

impl Gf {
    /// The sum, which is the difference too: each element is its own negative.
    pub fn add(self, o: Gf) -> Gf
        ensures { result.0 ≡ bit_xor self.0 o.0 }
    {
        Gf(self.0 ^ o.0)
    }

    /// The product, by shift and add: the sum of `o` times x^i for each bit i of this element, and
    /// its remainder. Four folds bring a degree of at most 30 below 16.
    pub fn mul(self, o: Gf) -> Gf
        ensures { result.0 ≡ times self.0 o.0 }
    {
        let left = u32::from(self.0);
        let right = u32::from(o.0);
        let mut product = 0;
        for i in 0..16_u32 {
            product ^= (left & (1 << i)) * right;
        }
        Gf(fold(fold(fold(fold(product)))) as u16)
    }

    /// The element whose product with this one is 1. The nonzero elements are a group of order
    /// 65535, so it is the power 65534.
    pub fn inv(self) -> Gf
        requires { self.0 ≢ 0 }
        ensures { result.0 ≡ inverse self.0 }
    {
        self.pow(65534)
    }

    /// The product of `e` times this element, by squaring; 1 if `e` is 0.
    pub fn pow(self, e: u32) -> Gf
        ensures { result.0 ≡ power self.0 e }
    {
        let mut result = Gf(1);
        let mut square = self;
        let mut rest = e;
        while rest > 0 {
            if rest % 2 == 1 {
                result = result.mul(square);
            }
            square = square.mul(square);
            rest /= 2;
        }
        result
    }
}

/// A polynomial with the same remainder and a degree that is less by 4, if it is not below 16: each
/// x^16 is replaced by x^12 + x^3 + x + 1.
fn fold(polynomial: u32) -> u32
    ensures same_remainder { remainder 16 result ≡ remainder 16 polynomial }
    ensures shorter { (n : ℕ) → 16 ≤ n → polynomial < 2 ^ (n + 4) → result < 2 ^ n }
{
    let high = polynomial >> 16;
    (polynomial & 0xFFFF) ^ high ^ (high << 1) ^ (high << 3) ^ (high << 12)
}
