//! The longest payloads that can still matter.

ghost use Rattle.std.specs.Prelude.{◌≡◌, ◌≤◌, ◌<◌, ◌^◌, ◌++◌, ◌∷◌, ℕ, List, [], length, All};
ghost use Rattle.wal_shape.specs.MetaRef.{metadata_shown};
ghost use Rattle.wal_reader.specs.Heard.{HasKept, HasKnown, IsEnough, IsSettledKept};
ghost use Rattle.wal_reader.specs.inside.Longest.{longest_part};

use crate::kept::Kept;
use crate::known::{Known, has_enough};
use wal_shape::MetaRef;

/// The bytes of the longest frame of a metadata: that of the second format for the most faults.
pub(crate) const LONGEST_METADATA: u64 = 64_012;

/// More than a payload has bytes.
const NO_LIMIT: u64 = 4_294_967_296;

/// The bytes of the longest frame of a sliver that is held or of a proof that is bad.
fn longest_part(m: MetaRef<'_>) -> u64
    ensures { result ≡ longest_part (metadata_shown m.entry) }
{
    let shape = m.shape();
    38 + u64::from(shape.cols()) * (u64::from(shape.symbol_size()) + 327)
}

/// The bytes of the longest payload that can matter beside what is held for a metadata.
fn longest_beside(known: &Known) -> u64
    ensures least { 64012 ≤ result }
    ensures enough { IsEnough known.now → result ≡ 64012 }
    ensures past { (digest : List ℕ → List ℕ) (id : List ℕ)
        (payloads : List (List ℕ)) (payload : List ℕ)
        → HasKnown digest id known.now payloads
        → All (λ b. b < 256) payload → result < length payload
        → HasKnown digest id known.now (payloads ++ payload ∷ []) }
{
    if has_enough(known) {
        return LONGEST_METADATA;
    }
    longest_part(known.metadata.view()).max(LONGEST_METADATA)
}

/// A length above which no payload changes what is kept.
pub(crate) fn most(kept: &Kept) -> u64
    ensures least { 64012 ≤ result }
    ensures settled { IsSettledKept kept.now → result ≡ 64012 }
    ensures past { (digest : List ℕ → List ℕ) (id : List ℕ)
        (payloads : List (List ℕ)) (payload : List ℕ)
        → HasKept digest id kept.now payloads
        → All (λ b. b < 256) payload → length payload < 2 ^ 32 → result < length payload
        → HasKept digest id kept.now (payloads ++ payload ∷ []) }
{
    match kept {
        Kept::Waiting(_) => NO_LIMIT,
        Kept::One(known) => longest_beside(known),
        Kept::Two(_) => LONGEST_METADATA,
    }
}
