//! The redundant regions of a codeword from its first regions.

ghost use Rattle.std.specs.Prelude.{◌≡◌, ℕ, ◌+◌, ◌*◌, ◌%◌, ◌^◌, ◌<◌, ◌≤◌, length, take};
ghost use Rattle.wal_code.specs.Codeword.{IsCodeword};
ghost use Rattle.wal_kernel.specs.Region.{region, word_at};
ghost use Rattle.wal_fft.specs.inside.Strip.{IsExtendedStrip};

use crate::levels::{level_of, points};
use crate::strips::{Strip, gather, scatter, strip_width};
use crate::transform::{PointRange, evaluate, restore};

/// A size of scratch for so many regions of `size` bytes: 256 bytes of each, and no less than 32
/// KiB, but no more than the regions have.
pub fn scratch_size(total: u16, size: usize) -> usize
    requires few { total ≤ 1000 }
    ensures { 2048 ≤ result }
{
    let level = level_of(total as usize);
    let fast = (points(level) * 256).max(32768);
    fast.min(points(level) * size.min(32768)).max(2048)
}

/// Extends the strip's words of the regions, in runs of them.
fn extend_strip(
    known: usize,
    total: usize,
    level: usize,
    strip: Strip,
    regions: &mut [u8],
    runs: &mut [u8],
)
    requires fewer { known ≤ total }
    requires level { level ≤ 10 }
    requires enough { total ≤ 2 ^ level }
    requires regions { length regions.old ≡ total * (2 * strip.words) }
    requires within { strip.start + strip.width ≤ strip.words }
    requires runs { length runs.old ≡ 2 ^ level * (2 * strip.width) }
    ensures { IsExtendedStrip strip.words strip.start (strip.start + strip.width) known total
        regions.old regions.new }
{
    gather(regions, strip, known, runs);
    restore(runs, strip.width, level, 0, known);
    let others = PointRange {
        from: known,
        to: total,
    };
    evaluate(runs, strip.width, level, 0, others);
    scatter(runs, strip, known, total, regions);
}

/// Fills the regions from `known` on, so that the words at each place of the regions are a
/// codeword. It works on a strip of all regions at a time, in the scratch.
pub fn extend_regions(known: u16, total: u16, size: usize, buffer: &mut [u8], scratch: &mut [u8])
    requires fewer { known ≤ total }
    requires few { total ≤ 1000 }
    requires even { size % 2 ≡ 0 }
    requires regions { length buffer.old ≡ total * size }
    requires room { 2048 ≤ length scratch.old }
    ensures same { take (known * size) buffer.new ≡ take (known * size) buffer.old }
    ensures codeword { (w : ℕ) → 2 * w < size
        → IsCodeword known total (λ i. word_at (region size buffer.new i) w) }
{
    let known = known as usize;
    let total = total as usize;
    let words = size / 2;
    let level = level_of(total);
    let count = points(level);
    let room = scratch.len();
    let mut start = 0;
    while start < words {
        let width = strip_width(room, count, words - start);
        let runs = &mut scratch[..count * (2 * width)];
        let strip = Strip {
            words,
            start,
            width,
        };
        extend_strip(known, total, level, strip, buffer, runs);
        start += width;
    }
}
