//! The crosses of a proof's openings.

ghost use Rattle.std.specs.Prelude.{◌≡◌, ◌↔◌, ◌<◌, length, All, IsTrue};
ghost use Rattle.wal_code.specs.Codeword.{Distinct};
ghost use Rattle.wal_shape.specs.ProofRef.{proof_shown};
ghost use Rattle.wal_evidence.specs.BadProof.{crosses_of};

use wal_shape::ProofRef;

/// The most shards.
pub(crate) const MOST_SHARDS: usize = 1000;

/// Copies the cross of each opening.
pub(crate) fn copy_crosses(p: &ProofRef<'_>, crosses: &mut [u16])
    requires { length crosses.old ≡ length (proof_shown p.now).openings }
    ensures copied { crosses.new ≡ crosses_of (proof_shown p.now).openings }
    ensures below { All (λ i. i < 1000) crosses.new }
{
    for place in 0..p.count() {
        crosses[place as usize] = p.opening(place).cross;
    }
}

/// Whether no number stands twice. A flag for each number is kept in place.
pub(crate) fn are_distinct(numbers: &[u16]) -> bool
    requires { All (λ i. i < 1000) numbers.now }
    ensures { IsTrue result ↔ Distinct numbers.now }
{
    let mut seen = [false; MOST_SHARDS];
    for number in numbers {
        if seen[*number as usize] {
            return false;
        }
        seen[*number as usize] = true;
    }
    true
}
