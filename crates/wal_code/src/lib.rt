//! Reed-Solomon codes over the field of words, by evaluation (Reed and Solomon, 1960): the point of
//! an index is the element whose bits are the index, and a codeword of dimension k has the values
//! of a polynomial of degree below k at the points from 0 on. Words are filled by Lagrange's
//! coefficients, and no polynomial is made.
#![tactic(auto)]

mod codewords;
mod coefficients;
mod weights;

pub use codewords::{extend_words, solve_words};
pub use coefficients::Coeffs;
pub use weights::{coefficient, fill_scales, fill_weights};
