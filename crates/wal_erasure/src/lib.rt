//! Codewords from any known places (Lin, Al-Naffouri, Han, Chung: "Novel polynomial basis with fast
//! Fourier transform and its application to Reed-Solomon erasure codes", 2016): the known words
//! times the locator of the missing points are the values of a polynomial, and the value of its
//! derivative at a missing point is the missing word times a constant of that point. So n log n
//! products do what a table of coefficients does with n k.
#![tactic(auto)]

mod derivative;
mod locator;
mod runs;
mod solution;

pub use solution::solve_regions;
