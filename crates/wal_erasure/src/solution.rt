//! The words at wanted places from those at any known places.

ghost use Rattle.std.specs.Prelude.{◌≡◌, ℕ, ◌+◌, ◌*◌, ◌%◌, ◌^◌, ◌<◌, ◌≤◌, All, length};
ghost use Rattle.wal_code.specs.Codeword.{Distinct, combination};
ghost use Rattle.wal_kernel.specs.Region.{region, word_at};
ghost use Rattle.wal_erasure.specs.inside.Locator.{AreFactors};
ghost use Rattle.wal_erasure.specs.inside.Run.{AreSolved};

use crate::derivative::derive;
use crate::locator::{ALL_POINTS, fill_factors};
use crate::runs::{copy_known, put_known, take_wanted};
use wal_fft::{PointRange, Strip, evaluate, level_of, points, restore, strip_width};
use wal_gf::Gf;

/// Solves the strip's words of the missing regions, in runs of them.
fn solve_strip(
    known: &[u16],
    factors: &[Gf],
    level: usize,
    wanted: usize,
    strip: Strip,
    sources: &[u8],
    targets: &mut [u8],
    runs: &mut [u8],
)
    requires distinct { Distinct known.now }
    requires below { All (λ p. p < 2 ^ level) known.now }
    requires level { level ≤ 10 }
    requires count { length factors.now ≡ 2 ^ level }
    requires factors { AreFactors known.now (2 ^ level) (2 ^ level) factors.now }
    requires enough { wanted ≤ 2 ^ level }
    requires sources { length sources.now ≡ length known.now * (2 * strip.words) }
    requires targets { length targets.old ≡ wanted * (2 * strip.words) }
    requires within { strip.start + strip.width ≤ strip.words }
    requires runs { length runs.old ≡ 2 ^ level * (2 * strip.width) }
    ensures { AreSolved strip.words strip.start (strip.start + strip.width) wanted
        known.now sources.now targets.old targets.new }
{
    put_known(known, factors, sources, strip, runs);
    restore(runs, strip.width, level, 0, points(level));
    derive(runs, strip.width, level);
    let first = PointRange {
        from: 0,
        to: wanted,
    };
    evaluate(runs, strip.width, level, 0, first);
    take_wanted(runs, factors, strip, wanted, targets);
}

/// Solves the missing regions, a strip of all of them at a time.
fn solve_missing(
    known: &[u16],
    level: usize,
    wanted: usize,
    words: usize,
    sources: &[u8],
    targets: &mut [u8],
    scratch: &mut [u8],
)
    requires distinct { Distinct known.now }
    requires below { All (λ p. p < 2 ^ level) known.now }
    requires level { level ≤ 10 }
    requires enough { wanted ≤ 2 ^ level }
    requires sources { length sources.now ≡ length known.now * (2 * words) }
    requires targets { length targets.old ≡ wanted * (2 * words) }
    requires room { 2048 ≤ length scratch.old }
    ensures { AreSolved words 0 words wanted known.now sources.now targets.old targets.new }
{
    let mut factor_room = [Gf(0); ALL_POINTS];
    let count = points(level);
    let factors = &mut factor_room[..count];
    fill_factors(known, count, factors);
    let room = scratch.len();
    let mut start = 0;
    while start < words {
        let width = strip_width(room, count, words - start);
        let runs = &mut scratch[..count * (2 * width)];
        let strip = Strip {
            words,
            start,
            width,
        };
        solve_strip(known, factors, level, wanted, strip, sources, targets, runs);
        start += width;
    }
}

/// Fills the first `wanted` regions of the codeword that has these regions at the known places. Its
/// dimension is the number of the known places. The scratch is room for strips of all regions.
pub fn solve_regions(
    known: &[u16],
    total: u16,
    wanted: u16,
    size: usize,
    sources: &[u8],
    targets: &mut [u8],
    scratch: &mut [u8],
)
    requires distinct { Distinct known.now }
    requires below { All (λ p. p < total) known.now }
    requires few { total ≤ 1000 }
    requires enough { wanted ≤ total }
    requires even { size % 2 ≡ 0 }
    requires sources { length sources.now ≡ length known.now * size }
    requires targets { length targets.old ≡ wanted * size }
    requires room { 2048 ≤ length scratch.old }
    ensures { (w : ℕ) → 2 * w < size → (x : ℕ) → x < wanted
        → word_at (region size targets.new x) w
        ≡ combination known.now (λ k. word_at (region size sources.now k) w) x }
{
    let wanted = wanted as usize;
    let words = size / 2;
    let level = level_of(total as usize);
    solve_missing(known, level, wanted, words, sources, targets, scratch);
    copy_known(known, words, wanted, sources, targets);
}
