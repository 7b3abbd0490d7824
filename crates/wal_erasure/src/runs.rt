//! Runs of words, put at points and taken from them.

ghost use Rattle.std.specs.Prelude.{◌≡◌, ◌+◌, ◌*◌, ◌%◌, ◌<◌, ◌≤◌, All, length};
ghost use Rattle.wal_code.specs.Codeword.{Distinct};
ghost use Rattle.wal_erasure.specs.inside.Run.{IsProduct, IsCopy, ArePut, AreTaken, AreCopied};

use wal_fft::Strip;
use wal_gf::Gf;
use wal_kernel::add_scaled;

/// Makes the target c times the source.
fn put_product(target: &mut [u8], c: Gf, source: &[u8])
    requires equal { length source.now ≡ length target.old }
    requires even { length target.old % 2 ≡ 0 }
    ensures { IsProduct c.0 source.now target.new }
{
    target.fill(0);
    add_scaled(target, c, source);
}

/// Puts at each known point the strip's words of its region, times the point's factor, and zeros at
/// all others.
pub(crate) fn put_known(
    known: &[u16],
    factors: &[Gf],
    regions: &[u8],
    strip: Strip,
    runs: &mut [u8],
)
    requires distinct { Distinct known.now }
    requires below { All (λ p. p < length factors.now) known.now }
    requires regions { length known.now * (2 * strip.words) ≤ length regions.now }
    requires within { strip.start + strip.width ≤ strip.words }
    requires runs { length factors.now * (2 * strip.width) ≤ length runs.old }
    ensures { ArePut strip.words strip.start strip.width known.now
        (length known.now) factors.now regions.now runs.new }
{
    runs.fill(0);
    for place in 0..known.len() {
        let point = known[place] as usize;
        let from = 2 * (strip.words * place + strip.start);
        let at = 2 * strip.width * point;
        let source = &regions[from..from + 2 * strip.width];
        put_product(&mut runs[at..at + 2 * strip.width], factors[point], source);
    }
}

/// Makes the strip's words of the first regions those of the runs, times the point's factor.
pub(crate) fn take_wanted(
    runs: &[u8],
    factors: &[Gf],
    strip: Strip,
    wanted: usize,
    regions: &mut [u8],
)
    requires factors { wanted ≤ length factors.now }
    requires regions { wanted * (2 * strip.words) ≤ length regions.old }
    requires within { strip.start + strip.width ≤ strip.words }
    requires runs { wanted * (2 * strip.width) ≤ length runs.now }
    ensures { AreTaken strip.words strip.start strip.width wanted
        factors.now runs.now regions.old regions.new }
{
    for place in 0..wanted {
        let to = 2 * (strip.words * place + strip.start);
        let at = 2 * strip.width * place;
        let target = &mut regions[to..to + 2 * strip.width];
        put_product(target, factors[place], &runs[at..at + 2 * strip.width]);
    }
}

/// Copies one region.
fn copy_region(words: usize, from: usize, sources: &[u8], to: usize, targets: &mut [u8])
    requires sources { from * (2 * words) + 2 * words ≤ length sources.now }
    requires targets { to * (2 * words) + 2 * words ≤ length targets.old }
    ensures { IsCopy words from to sources.now targets.old targets.new }
{
    let at = 2 * words * from;
    let start = 2 * words * to;
    targets[start..start + 2 * words].copy_from_slice(&sources[at..at + 2 * words]);
}

/// Copies the regions of the known points below `wanted`.
pub(crate) fn copy_known(
    known: &[u16],
    words: usize,
    wanted: usize,
    sources: &[u8],
    targets: &mut [u8],
)
    requires distinct { Distinct known.now }
    requires sources { length known.now * (2 * words) ≤ length sources.now }
    requires targets { wanted * (2 * words) ≤ length targets.old }
    ensures { AreCopied words wanted known.now
        (length known.now) sources.now targets.old targets.new }
{
    for place in 0..known.len() {
        let point = known[place] as usize;
        if point < wanted {
            copy_region(words, place, sources, point, targets);
        }
    }
}
