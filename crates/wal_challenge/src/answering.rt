//! What a shard answers.

ghost use Rattle.std.specs.Prelude.{◌≡◌, ℕ, ◌<◌, ◌≤◌, List, IfOk, Some, slice_get};
ghost use Rattle.wal_shape.specs.declared.opening.Opening.{Opening};
ghost use Rattle.wal_shape.specs.MetaRef.{metadata_shown};
ghost use Rattle.wal_shape.specs.Metadata.{IsMetadata};
ghost use Rattle.wal_shape.specs.Shape.{crossing, shard_count};
ghost use Rattle.wal_commit.specs.Held.{HoldsOpening};
ghost use Rattle.wal_challenge.specs.Answer.{AreAnswers, AreWordsOf, HoldsBoth, ShowsDrawn, among};
ghost use Rattle.wal_challenge.specs.Answer.{draw_of};

use crate::beacon::draw;
use crate::drawing::Draw;
use crate::line::{Line, line_of, open_line};
use std::alloc::{AllocError, Global};
use std::marker::{Model, PhantomData};
use wal_commit::identify;
use wal_matrix::Work;
use wal_shape::{Axis, MetaRef, Opening, Openings};
use wal_tree::{Digest, Hash32};

/// The line of an axis, of a row and a column.
fn line_among<'a>(axis: Axis, row: &'a Line, column: &'a Line) -> &'a Line
    ensures { result.now ≡ among axis row.now column.now }
{
    match axis {
        Axis::Primary => row,
        Axis::Secondary => column,
    }
}

/// The two slivers of a shard, extended and hashed once, from which it opens what is drawn.
#[derive(Drop)]
pub struct Answerer<H: Hash32> {
    size: u32,
    row: Line,
    column: Line,
    digest: PhantomData<H>,
}

impl<H: Hash32> Model for Answerer<H> {
    ghost use Rattle.wal_challenge.specs.Answer.{OwnWords};
    ghost use Rattle.wal_challenge.specs.inside.Levels.{AreLevels};

    ghost Value = { OwnWords };

    ghost view = { λ a. record { size = a.size; row = a.row.symbols; column = a.column.symbols } };

    ghost invariant = { λ a. AreLevels H.digest a.size a.row.symbols a.row.levels
        × AreLevels H.digest a.size a.column.symbols a.column.levels };
}

impl<H: Hash32> Answerer<H> {
    /// Extends and hashes both slivers.
    pub fn create(
        alloc: Global,
        work: &mut Work,
        m: MetaRef<'_>,
        shard: u16,
        primary: &[u8],
        secondary: &[u8],
    ) -> Result<Answerer<H>, AllocError>
        requires f { work.old.f ≡ (metadata_shown m).f }
        requires slivers { HoldsBoth H.digest (metadata_shown m) shard primary.now secondary.now }
        ensures words { IfOk result
            (AreWordsOf (metadata_shown m.entry) primary.now secondary.now) }
        ensures f { work.new.f ≡ work.old.f }
        // The reference shows a metadata.
        ensures fit { IsMetadata (metadata_shown m.entry) }
    {
        let row = line_of::<H>(alloc, work, m, Axis::Primary, primary)?;
        let column = line_of::<H>(alloc, work, m, Axis::Secondary, secondary)?;
        Ok(Answerer {
            size: m.shape().symbol_size(),
            row,
            column,
            digest: PhantomData,
        })
    }

    /// The opening that shows what was drawn, in memory of its own.
    pub fn open(
        &self,
        alloc: Global,
        m: MetaRef<'_>,
        shard: u16,
        draw: Draw,
    ) -> Result<Opening, AllocError>
        requires shard { shard < shard_count (metadata_shown m).f }
        requires place { draw.place < shard_count (metadata_shown m).f }
        requires words { (primary : List ℕ) × (secondary : List ℕ)
            × AreWordsOf (metadata_shown m) primary secondary self.now }
        ensures { IfOk result (λ o. (primary secondary : List ℕ)
            → AreWordsOf (metadata_shown m.entry) primary secondary self.now
            → ShowsDrawn H.digest (metadata_shown m.entry) shard primary secondary draw o) }
    {
        let shape = m.shape();
        let n = shape.n() as u16;
        let size = shape.symbol_size();
        let line = line_among(draw.axis, &self.row, &self.column);
        let cross = m.held(draw.axis, shard);
        open_line::<H>(alloc, line, n, size, draw.place, cross)
    }
}

/// The openings that show what was drawn.
fn open_all<H: Hash32>(
    alloc: Global,
    m: MetaRef<'_>,
    shard: u16,
    beacon: &Digest,
    count: u16,
    answerer: &Answerer<H>,
) -> Result<Vec<Opening>, AllocError>
    requires shard { shard < shard_count (metadata_shown m).f }
    requires words { (primary : List ℕ) × (secondary : List ℕ)
        × AreWordsOf (metadata_shown m) primary secondary answerer.now }
    ensures { IfOk result (λ v. (primary secondary : List ℕ)
        → AreWordsOf (metadata_shown m.entry) primary secondary answerer.now
        → AreAnswers H.digest (metadata_shown m.entry)
        beacon.now shard count primary secondary v.items) }
{
    let id = identify::<H>(m);
    let n = m.shape().n() as u16;
    let mut openings = Vec::with_capacity(alloc, usize::from(count))?;
    'each: for d in 0..count {
        let draw = draw::<H>(beacon, &id, n, shard, d);
        openings.push(answerer.open(alloc, m, shard, draw)?)?;
    }
    Ok(openings)
}

/// What a shard answers to the first `count` draws of a beacon: for each draw in order the opening
/// of the target that [`draw`] names by its place and the crossing axis, from the shard's own
/// primary and secondary sliver.
pub fn answer<H: Hash32>(
    alloc: Global,
    work: &mut Work,
    m: MetaRef<'_>,
    shard: u16,
    beacon: &Digest,
    count: u16,
    primary: &[u8],
    secondary: &[u8],
) -> Result<Openings, AllocError>
    requires f { work.old.f ≡ (metadata_shown m).f }
    requires shard { shard < shard_count (metadata_shown m).f }
    requires least { 1 ≤ count }
    requires most { count ≤ 1000 }
    requires slivers { HoldsBoth H.digest (metadata_shown m) shard primary.now secondary.now }
    ensures answers { IfOk result (AreAnswers H.digest (metadata_shown m.entry)
        beacon.now shard count primary.now secondary.now) }
    // There is no other answer.
    ensures only { IfOk result (λ os. (other : List Opening)
        → AreAnswers H.digest (metadata_shown m.entry)
        beacon.now shard count primary.now secondary.now other
        → other ≡ os) }
    // Each opening is one of its draw's target, which the metadata commits.
    ensures held { IfOk result (λ os. (d : ℕ) (o : Opening) → slice_get os d ≡ Some o
        → HoldsOpening H.digest (metadata_shown m.entry)
        (crossing (draw_of H.digest (metadata_shown m.entry) beacon.now shard d).axis)
        (draw_of H.digest (metadata_shown m.entry) beacon.now shard d).place o) }
    ensures f { work.new.f ≡ work.old.f }
{
    let answerer = Answerer::<H>::create(alloc, work, m, shard, primary, secondary)?;
    let openings = open_all(alloc, m, shard, beacon, count, &answerer)?;
    Ok(Openings::from_vec(openings))
}
