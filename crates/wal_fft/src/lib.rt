//! Codewords extended by the additive Fourier transform (Lin, Chung, Han: "Novel polynomial basis
//! and its application to Reed-Solomon erasure codes", 2014): from the values at the first points
//! the coefficients, and from these the values at the others, in n log n products where a table of
//! coefficients takes n k.
#![tactic(auto)]

mod extension;
mod levels;
mod skews;
mod strips;
mod sums;
mod transform;

pub use extension::{extend_regions, scratch_size};
pub use levels::{half, level_of, points};
pub use skews::skew;
pub use strips::{Strip, strip_width};
pub use sums::add_product;
pub use transform::{PointRange, evaluate, restore};
