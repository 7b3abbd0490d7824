//! Checking proofs of bad encoding.

ghost use Rattle.std.specs.Prelude.{◌≡◌, ◌↔◌, ℕ, ◌*◌, ◌<◌, ◌≤◌, List, length, take, All, IsTrue};
ghost use Rattle.std.specs.Prelude.{IfSome, IfNone, Some, slice_get};
ghost use Rattle.wal_code.specs.Codeword.{Distinct};
ghost use Rattle.wal_shape.specs.declared.opening.Opening.{Opening};
ghost use Rattle.wal_shape.specs.Shape.{sliver_symbols, symbol_size};
ghost use Rattle.wal_shape.specs.MetaRef.{metadata_shown};
ghost use Rattle.wal_shape.specs.ProofRef.{proof_shown};
ghost use Rattle.wal_commit.specs.Held.{HoldsOpening};
ghost use Rattle.wal_evidence.specs.BadProof.{Checks, IsBadProof, IsFirstBad, crosses_of};
ghost use Rattle.wal_evidence.specs.BadProof.{symbols_of};
ghost use Rattle.wal_evidence.specs.declared.proof.ProofVerdict.{ProofVerdict};
ghost use Rattle.wal_evidence.specs.declared.proof.ProofVerdict.TheVariants.{Inconsistent};

use crate::codeword::{root_holds, symbol_count};
use crate::crosses::{MOST_SHARDS, are_distinct, copy_crosses};
use wal_commit::opening_holds;
use wal_matrix::{Work, solve};
use wal_shape::{MetaRef, ProofRef};
use wal_tree::Hash32;

/// What a check of a proof comes to: the first case that applies.
#[derive(Clone, Copy, Debug, PartialEq, Eq)]
pub enum ProofVerdict {
    /// There are not as many openings as a sliver of the axis has symbols.
    WrongCount,
    /// Two openings have one cross.
    Repeated,
    /// The opening at this place, from 0, is the first that does not hold.
    BadOpening(u16),
    /// The codeword through the openings has the metadata's root of the sliver.
    Consistent,
    /// It has another root: the blob's writer encoded wrongly.
    Inconsistent,
}

/// Copies the symbols one after the other, up to the first opening that does not hold, whose place
/// is the answer.
fn copy_symbols<H: Hash32>(m: MetaRef<'_>, p: &ProofRef<'_>, symbols: &mut [u8]) -> Option<u16>
    requires { length symbols.old
        ≡ length (proof_shown p.now).openings
        * symbol_size (metadata_shown m).f (metadata_shown m).length }
    ensures some { IfSome result
        (λ place. IsFirstBad H.digest (metadata_shown m.entry) (proof_shown p.now) place) }
    ensures held { IfNone result (All
        (HoldsOpening H.digest (metadata_shown m.entry)
        (proof_shown p.now).axis (proof_shown p.now).index)
        (proof_shown p.now).openings) }
    ensures copied { IfNone result (symbols.new ≡ symbols_of (proof_shown p.now).openings) }
{
    let size = m.shape().symbol_size() as usize;
    for place in 0..p.count() {
        let opening = p.opening(place);
        if !opening_holds::<H>(m, p.axis(), p.index(), &opening) {
            return Some(place);
        }
        let start = place as usize * size;
        symbols[start..start + size].copy_from_slice(opening.symbol);
    }
    None
}

/// Loads the symbols, up to the first opening that does not hold, whose place is the answer.
fn load_symbols<H: Hash32>(work: &mut Work, m: MetaRef<'_>, p: &ProofRef<'_>) -> Option<u16>
    requires f { work.old.f ≡ (metadata_shown m).f }
    requires count { length (proof_shown p.now).openings
        ≡ sliver_symbols (proof_shown p.now).axis (metadata_shown m).f }
    ensures some { IfSome result
        (λ place. IsFirstBad H.digest (metadata_shown m.entry) (proof_shown p.now) place) }
    ensures held { IfNone result (All
        (HoldsOpening H.digest (metadata_shown m.entry)
        (proof_shown p.now).axis (proof_shown p.now).index)
        (proof_shown p.now).openings) }
    ensures loaded { IfNone result (work.new.loaded ≡ symbols_of (proof_shown p.now).openings) }
    ensures f { work.new.f ≡ work.old.f }
{
    let size = m.shape().symbol_size() * u32::from(p.count());
    copy_symbols::<H>(m, p, work.load(size))
}

/// The verdict on a proof with the right number of openings, of these crosses.
fn check_openings<H: Hash32>(
    work: &mut Work,
    m: MetaRef<'_>,
    p: &ProofRef<'_>,
    crosses: &[u16],
) -> ProofVerdict
    requires f { work.old.f ≡ (metadata_shown m).f }
    requires count { length (proof_shown p.now).openings
        ≡ sliver_symbols (proof_shown p.now).axis (metadata_shown m).f }
    requires crosses { crosses.now ≡ crosses_of (proof_shown p.now).openings }
    requires distinct { Distinct crosses.now }
    ensures checks { Checks H.digest (metadata_shown m.entry) (proof_shown p.now) result }
    ensures f { work.new.f ≡ work.old.f }
{
    if let Some(place) = load_symbols::<H>(work, m, p) {
        return ProofVerdict::BadOpening(place);
    }
    let word = solve(work, &m.shape(), p.axis(), crosses);
    if root_holds::<H>(m, p.axis(), p.index(), word) {
        ProofVerdict::Consistent
    } else {
        ProofVerdict::Inconsistent
    }
}

/// Checks a proof of bad encoding against the metadata (the Walrus paper, "Red Stuff", proofs of
/// inconsistency). Takes no memory.
pub fn proof_check<H: Hash32>(work: &mut Work, m: MetaRef<'_>, p: &ProofRef<'_>) -> ProofVerdict
    requires { work.old.f ≡ (metadata_shown m).f }
    ensures checks { Checks H.digest (metadata_shown m.entry) (proof_shown p.now) result }
    // There is no other verdict.
    ensures only { (other : ProofVerdict)
        → Checks H.digest (metadata_shown m.entry) (proof_shown p.now) other → other ≡ result }
    ensures f { work.new.f ≡ work.old.f }
{
    let count = p.count();
    if count != symbol_count(&m.shape(), p.axis()) {
        return ProofVerdict::WrongCount;
    }
    let mut room = [0; MOST_SHARDS];
    let crosses = &mut room[..count as usize];
    copy_crosses(p, crosses);
    if !are_distinct(crosses) {
        return ProofVerdict::Repeated;
    }
    check_openings::<H>(work, m, p, crosses)
}

/// Whether a verdict on a proof says that the blob was encoded wrongly.
fn is_inconsistent(verdict: ProofVerdict) -> bool
    ensures { IsTrue result ↔ (verdict ≡ Inconsistent) }
{
    verdict == ProofVerdict::Inconsistent
}

/// Whether a proof is bad for a metadata. Takes no memory.
pub fn is_bad_proof<H: Hash32>(work: &mut Work, m: MetaRef<'_>, p: &ProofRef<'_>) -> bool
    requires { work.old.f ≡ (metadata_shown m).f }
    ensures bad { IsTrue result ↔ IsBadProof H.digest (metadata_shown m.entry) (proof_shown p.now) }
    ensures f { work.new.f ≡ work.old.f }
{
    is_inconsistent(proof_check::<H>(work, m, p))
}
