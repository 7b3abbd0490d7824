//! Codewords of words: extended from their first places, or solved from any places.

ghost use Rattle.std.specs.Prelude.{◌≡◌, ℕ, ◌<◌, ◌≤◌, List, length, slice_index, All};
ghost use Rattle.wal_gf.specs.Polynomial.{evaluate};
ghost use Rattle.wal_code.specs.Codeword.{Distinct, IsExtension, PassesThrough};

use crate::weights::{MAX_POINTS, fill_scales, fill_weights, weighted_sum};
use wal_gf::Gf;

/// Fills the codeword that begins with these words. Its dimension is the number of the words, and
/// it is the only one.
pub fn extend_words(words: &[u16], out: &mut [u16])
    requires some { 1 ≤ length words.now }
    requires room { length words.now ≤ length out.old }
    requires most { length out.old ≤ 1000 }
    ensures extension { IsExtension words.now (length out.old) out.new }
    ensures only { (other : List ℕ) → IsExtension words.now (length out.old) other
        → out.new ≡ other }
{
    let mut places = [0; MAX_POINTS];
    for (place, point) in places.iter_mut().enumerate() {
        *point = place as u16;
    }
    solve_words(&places[..words.len()], words, out);
}

/// Fills the places from 0 on with the codeword that has these values at the known indices. Its
/// dimension is the number of the known indices, and it is the only one. A known index may lie
/// beyond the places that are filled.
pub fn solve_words(known: &[u16], values: &[u16], out: &mut [u16])
    requires distinct { Distinct known.now }
    requires some { 1 ≤ length known.now }
    requires most { length known.now ≤ 1000 }
    requires below { All (λ p. p < 1000) known.now }
    requires values { length values.now ≡ length known.now }
    requires room { length out.old ≤ 1000 }
    ensures solved { (coefficients : List ℕ) × PassesThrough known.now values.now coefficients
        × ((i : ℕ) → i < length out.new → slice_index out.new i ≡ evaluate coefficients i) }
    ensures only { (coefficients : List ℕ) → PassesThrough known.now values.now coefficients
        → (i : ℕ) → i < length out.new → slice_index out.new i ≡ evaluate coefficients i }
{
    let mut scale_room = [Gf(0); MAX_POINTS];
    let mut weight_room = [Gf(0); MAX_POINTS];
    let scales = &mut scale_room[..known.len()];
    let weights = &mut weight_room[..known.len()];
    fill_scales(known, scales);
    for (place, word) in out.iter_mut().enumerate() {
        fill_weights(known, scales, place as u16, weights);
        *word = weighted_sum(weights, values);
    }
}
