//! What a shard's claims come to.

ghost use Rattle.std.specs.Prelude.{◌≡◌, ℕ, ◌<◌, ◌≤◌, ◌↔◌, List, IfSome, IfNone, IsTrue, length};
ghost use Rattle.wal_shape.specs.declared.opening.Opening.{Opening};
ghost use Rattle.wal_shape.specs.Metadata.{BlobMetadata, IsMetadata};
ghost use Rattle.wal_shape.specs.MetaRef.{metadata_shown};
ghost use Rattle.wal_shape.specs.Shape.{shard_count};
ghost use Rattle.wal_evidence.specs.Evidence.{CommitsMatrix};
ghost use Rattle.wal_challenge.specs.declared.checking.AnswerVerdict.{AnswerVerdict};
ghost use Rattle.wal_challenge.specs.declared.checking.AnswerVerdict.TheVariants as told;
ghost use Rattle.wal_challenge.specs.Answer.{AreAnswers, HoldsBoth};
ghost use Rattle.wal_challenge.specs.Verdict.{AnswersDraw, AreOwnOrFalse, AnswersComeTo};
ghost use Rattle.wal_challenge.specs.Verdict.{FirstAnswer, IsFirstWrong, claims_from};

use crate::beacon::draw;
use crate::drawing::Draw;
use wal_commit::{identify, opening_holds};
use wal_shape::{Claim, Claims, MetaRef};
use wal_tree::{Digest, Hash32};

/// What the claims of a shard come to: the first case that applies.
#[derive(Clone, Copy, Debug, PartialEq, Eq)]
pub enum AnswerVerdict {
    /// There are so many claims, and not as many as draws.
    WrongCount(usize),
    /// The claim at this place, from 0, is the first that does not answer its draw: its target or
    /// its cross is another, or it does not hold.
    Wrong(u16),
    /// Each claim answers its draw.
    Accepted,
}

/// Whether a claim answers a draw. Nothing is hashed where its target or its cross is another.
fn answers_draw<H: Hash32>(m: MetaRef<'_>, shard: u16, draw: Draw, claim: &Claim) -> bool
    requires { shard < shard_count (metadata_shown m).f }
    ensures { IsTrue result ↔ AnswersDraw H.digest (metadata_shown m.entry) shard draw claim.now }
{
    claim.axis == draw.axis.crossing()
        && claim.index == draw.place
        && claim.opening.cross == m.held(draw.axis, shard)
        && opening_holds::<H>(m, claim.axis, claim.index, &claim.opening.view())
}

/// The place of the first claim that does not answer its draw.
fn first_wrong<H: Hash32>(
    m: MetaRef<'_>,
    shard: u16,
    beacon: &Digest,
    claims: &[Claim],
) -> Option<u16>
    requires shard { shard < shard_count (metadata_shown m).f }
    requires few { length claims.now ≤ 1000 }
    ensures some { IfSome result
        (IsFirstWrong H.digest (metadata_shown m.entry) beacon.now shard claims.now) }
    ensures none { IfNone result (FirstAnswer H.digest (metadata_shown m.entry)
        beacon.now shard claims.now (length claims.now)) }
{
    let id = identify::<H>(m);
    let n = m.shape().n() as u16;
    'each: for d in 0..claims.len() as u16 {
        let draw = draw::<H>(beacon, &id, n, shard, d);
        if !answers_draw::<H>(m, shard, draw, &claims[d as usize]) {
            return Some(d);
        }
    }
    None
}

/// Checks the claims that a shard answers the first `count` draws of a beacon with, in order, for
/// the blob that the metadata identifies. A claim answers its draw if its target is the sliver
/// of the crossing axis whose index is the drawn place, its cross is the index of the shard's own
/// sliver of the drawn axis, and the metadata commits it. Takes no memory.
pub fn check_answer<H: Hash32>(
    m: MetaRef<'_>,
    shard: u16,
    beacon: &Digest,
    count: u16,
    claims: &Claims,
) -> AnswerVerdict
    requires shard { shard < shard_count (metadata_shown m).f }
    requires least { 1 ≤ count }
    requires most { count ≤ 1000 }
    ensures verdict { AnswersComeTo H.digest (metadata_shown m.entry)
        beacon.now shard count claims.now result }
    // There is no other verdict.
    ensures only { (other : AnswerVerdict)
        → AnswersComeTo H.digest (metadata_shown m.entry) beacon.now shard count claims.now other
        → other ≡ result }
    // Of a committed blob, claims that are accepted show what was drawn of its matrix, or
    // `claim_collision` gives two texts.
    ensures own { result ≡ told.Accepted → (blob matrix : List ℕ)
        → CommitsMatrix H.digest (metadata_shown m.entry) blob matrix
        → AreOwnOrFalse H.digest (metadata_shown m.entry) beacon.now shard claims.now blob matrix }
{
    let claims = claims.as_slice();
    if claims.len() != usize::from(count) {
        return AnswerVerdict::WrongCount(claims.len());
    }
    match first_wrong::<H>(m, shard, beacon, claims) {
        Some(d) => AnswerVerdict::Wrong(d),
        None => AnswerVerdict::Accepted,
    }
}

/// What [`answer`](crate::answer) gives is accepted: the openings, each with the target of its
/// draw, are as many as the draws and answer them. Computes nothing.
pub fn answers_are_accepted<H: Hash32>()
    ensures { (m : BlobMetadata) (beacon : List ℕ) (shard count : ℕ)
        (primary secondary : List ℕ) (openings : List Opening)
        → IsMetadata m → shard < shard_count m.f → HoldsBoth H.digest m shard primary secondary
        → AreAnswers H.digest m beacon shard count primary secondary openings
        → AnswersComeTo H.digest m beacon shard count
        (claims_from H.digest m beacon shard 0 openings) told.Accepted }
{}
