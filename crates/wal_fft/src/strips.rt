//! Strips: some words of each region, copied side by side and back.

ghost use Rattle.std.specs.Prelude.{◌≡◌, ◌+◌, ◌*◌, ◌/◌, ◌≤◌, length, min};
ghost use Rattle.wal_fft.specs.inside.Strip.{IsGathered, IsScattered};

/// The words that a strip has of each region.
#[derive(Clone, Copy)]
pub struct Strip {
    /// The words of a region.
    pub words: usize,
    /// The first word of the strip, counted from the region's first.
    pub start: usize,
    /// The number of its words.
    pub width: usize,
}

/// The words that the next strip has of each of so many regions: no more than are left, nor than
/// the scratch has room for.
pub fn strip_width(room: usize, regions: usize, left: usize) -> usize
    requires some { 1 ≤ regions }
    requires few { regions ≤ 1024 }
    requires room { 2048 ≤ room }
    requires left { 1 ≤ left }
    ensures exact { result ≡ min (room / (2 * regions)) left }
    // Each strip is a step forward, and has room.
    ensures some { 1 ≤ result }
    ensures most { result ≤ left }
    ensures fits { regions * (2 * result) ≤ room }
{
    let widest = room / (2 * regions);
    widest.min(left)
}

/// Copies the strip's words of each of the first `known` regions, a run of each, and fills the
/// other runs with zeros.
pub(crate) fn gather(regions: &[u8], strip: Strip, known: usize, runs: &mut [u8])
    requires regions { known * (2 * strip.words) ≤ length regions.now }
    requires within { strip.start + strip.width ≤ strip.words }
    requires room { known * (2 * strip.width) ≤ length runs.old }
    ensures { IsGathered strip.words strip.start strip.width known regions.now runs.new }
{
    runs.fill(0);
    for place in 0..known {
        let from = 2 * (strip.words * place + strip.start);
        let at = 2 * strip.width * place;
        runs[at..at + 2 * strip.width].copy_from_slice(&regions[from..from + 2 * strip.width]);
    }
}

/// Copies the runs from `known` to below `total` to the strip's words of their regions.
pub(crate) fn scatter(runs: &[u8], strip: Strip, known: usize, total: usize, regions: &mut [u8])
    requires fewer { known ≤ total }
    requires regions { total * (2 * strip.words) ≤ length regions.old }
    requires within { strip.start + strip.width ≤ strip.words }
    requires runs { total * (2 * strip.width) ≤ length runs.now }
    ensures { IsScattered strip.words strip.start strip.width known total
        runs.now regions.old regions.new }
{
    for place in known..total {
        let to = 2 * (strip.words * place + strip.start);
        let at = 2 * strip.width * place;
        regions[to..to + 2 * strip.width].copy_from_slice(&runs[at..at + 2 * strip.width]);
    }
}
