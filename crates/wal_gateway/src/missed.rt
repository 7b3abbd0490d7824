//! What a get answers where the blob is not in the list.

ghost use Rattle.std.specs.Prelude.{◌≡◌, ℕ, List, Some, false, IsSome};
ghost use Rattle.wal_evidence.specs.declared.evidence.Evidence.{Evidence as EvidenceOf};
ghost use Rattle.wal_reader.specs.declared.outcome.Outcome.TheVariants as read;
ghost use Rattle.wal_gateway.specs.Getting.{found_of};

use crate::answer::{Found, GetAnswer};
use wal_evidence::Evidence;
use wal_reader::Outcome;
use wal_shape::Shape;

/// The answer where a read gives no bytes.
pub(crate) fn missed(outcome: Outcome) -> GetAnswer
    requires { (bytes : List ℕ) → outcome ≡ read.Bytes bytes → ⊥ }
    ensures { (from size : ℕ)
        → result ≡ record { hit = false; found = found_of from size outcome } }
{
    let found = match outcome {
        Outcome::Bytes(_) => unreachable!(),
        Outcome::Reject => Found::Reject,
        Outcome::Short { have, need } => Found::Short { have, need },
        Outcome::NoMetadata => Found::NoMetadata,
        Outcome::Collision(clash) => Found::Collision(clash),
    };
    GetAnswer { hit: false, found }
}

/// The shape of the metadata that the evidence of a read has.
pub(crate) fn shape_in(evidence: &Option<Evidence>) -> Shape
    requires { IsSome evidence.now }
    ensures { (e : EvidenceOf) → evidence.now ≡ Some e
        → result
        ≡ record { format = e.metadata.format; f = e.metadata.f; length = e.metadata.length } }
{
    match evidence {
        Some(e) => e.metadata.view().shape(),
        None => unreachable!(),
    }
}
