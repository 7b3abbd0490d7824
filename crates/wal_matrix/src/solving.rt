//! The codeword through symbols at any known indices.

ghost use Rattle.std.specs.Prelude.{◌≡◌, ℕ, ◌*◌, ◌%◌, ◌<◌, ◌≤◌, List, length, All, slice_index};
ghost use Rattle.wal_code.specs.Codeword.{Distinct, coefficient};
ghost use Rattle.wal_code.specs.Weights.{AreWeights};
ghost use Rattle.wal_kernel.specs.Region.{region, IsScaledSum};
ghost use Rattle.wal_matrix.specs.inside.Sum.{IsWeightedSum};
ghost use Rattle.wal_matrix.specs.Word.{PassesCodeword};

use crate::transposition::region;
use wal_code::{fill_scales, fill_weights};
use wal_erasure::solve_regions;
use wal_gf::Gf;
use wal_kernel::add_scaled;

/// Up to this many known indices, sums by coefficients take less time than transforms.
const FEW: usize = 16;

/// Adds the source times this weight. A weight of 0 takes no time.
fn add_weighted(target: &mut [u8], weight: Gf, source: &[u8])
    requires equal { length source.now ≡ length target.old }
    requires even { length target.old % 2 ≡ 0 }
    ensures { IsScaledSum weight.0 target.old source.now target.new }
{
    if weight.0 != 0 {
        add_scaled(target, weight, source);
    }
}

/// Makes the target the sum of the sources, each times the coefficient of its known index for the
/// wanted one.
fn combine_weighted(
    known: &[u16],
    wanted: u16,
    weights: &[Gf],
    size: usize,
    sources: &[u8],
    target: &mut [u8],
)
    requires weights { AreWeights known.now wanted weights.now }
    requires count { length weights.now ≡ length known.now }
    requires even { size % 2 ≡ 0 }
    requires from { length sources.now ≡ length known.now * size }
    requires into { length target.old ≡ size }
    ensures { IsWeightedSum
        (λ k. coefficient known.now (slice_index known.now k) wanted) size sources.now
        (length known.now) target.new }
{
    target.fill(0);
    for k in 0..known.len() {
        add_weighted(target, weights[k], region(sources, size, k));
    }
}

/// Fills the first regions by the coefficients of few known indices.
fn solve_few(known: &[u16], wanted: u16, size: usize, sources: &[u8], targets: &mut [u8])
    requires distinct { Distinct known.now }
    requires most { length known.now ≤ 16 }
    requires even { size % 2 ≡ 0 }
    requires sources { length sources.now ≡ length known.now * size }
    requires targets { length targets.old ≡ wanted * size }
    ensures { (x : ℕ) → x < wanted
        → IsWeightedSum (λ k. coefficient known.now (slice_index known.now k) x) size sources.now
        (length known.now) (region size targets.new x) }
{
    let mut scale_room = [Gf(0); FEW];
    let mut weight_room = [Gf(0); FEW];
    let scales = &mut scale_room[..known.len()];
    let weights = &mut weight_room[..known.len()];
    fill_scales(known, scales);
    for place in 0..wanted {
        fill_weights(known, scales, place, weights);
        let start = size * place as usize;
        let target = &mut targets[start..start + size];
        combine_weighted(known, place, weights, size, sources, target);
    }
}

/// Fills the first `wanted` regions of the codeword that has these regions at the known indices: by
/// coefficients where these are few, and else by the transform.
pub(crate) fn solve_first(
    known: &[u16],
    total: u16,
    wanted: u16,
    size: usize,
    sources: &[u8],
    targets: &mut [u8],
    scratch: &mut [u8],
)
    requires distinct { Distinct known.now }
    requires below { All (λ p. p < total) known.now }
    requires few { total ≤ 1000 }
    requires enough { wanted ≤ total }
    requires even { size % 2 ≡ 0 }
    requires sources { length sources.now ≡ length known.now * size }
    requires targets { length targets.old ≡ wanted * size }
    requires room { 2048 ≤ length scratch.old }
    ensures bytes { (i : ℕ) → slice_index targets.new i < 256 }
    ensures sums { (x : ℕ) → x < wanted
        → IsWeightedSum (λ k. coefficient known.now (slice_index known.now k) x) size sources.now
        (length known.now) (region size targets.new x) }
{
    if known.len() <= FEW {
        solve_few(known, wanted, size, sources, targets);
    } else {
        solve_regions(known, total, wanted, size, sources, targets, scratch);
    }
}

/// Fills the codeword that has the loaded symbols at the known indices.
pub(crate) fn solve_symbols(
    known: &[u16],
    total: u16,
    size: usize,
    loaded: &[u8],
    symbols: &mut [u8],
    scratch: &mut [u8],
)
    requires distinct { Distinct known.now }
    requires below { All (λ i. i < total) known.now }
    requires few { total ≤ 1000 }
    requires even { size % 2 ≡ 0 }
    requires filled { 0 < size }
    requires loaded { length loaded.now ≡ length known.now * size }
    requires room { length symbols.old ≡ total * size }
    requires scratch { 2048 ≤ length scratch.old }
    ensures word { PassesCodeword (length known.now) total size known.now loaded.now symbols.new }
    ensures only { (other : List ℕ)
        → PassesCodeword (length known.now) total size known.now loaded.now other
        → other ≡ symbols.new }
{
    solve_first(known, total, total, size, loaded, symbols, scratch);
}
