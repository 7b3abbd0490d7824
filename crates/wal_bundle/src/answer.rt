//! What bundling and reading a member come to.

use std::alloc::AllocError;
use wal_shape::{Bytes, MetaClash};

/// Why there is no bundle.
#[derive(Clone, Copy, Debug, PartialEq, Eq)]
pub enum BundleError {
    /// The number of faults is not from 1 to 333.
    BadFaults,
    /// There are more than `2f` members.
    TooMany,
    /// The bundle would be longer than 16,777,216 bytes (16 MiB).
    TooLong,
    /// Memory ran out.
    Memory,
}

impl From<AllocError> for BundleError {
    ghost use Rattle.std.specs.Prelude.{◌≡◌};
    ghost use Rattle.wal_bundle.specs.declared.answer.BundleError.TheVariants.{Memory};

    ghost from_gives = { λ _ e. e ≡ Memory };

    fn from(_: AllocError) -> BundleError {
        BundleError::Memory
    }
}

/// What payloads tell of a member.
#[derive(Debug, Drop)]
pub enum MemberAnswer {
    /// Two texts with one digest, from two metadata of the identifier.
    Collision(MetaClash),
    /// No payload is a metadata of the identifier.
    NoMetadata,
    /// The first column that is needed and missing.
    Missing(u32),
    /// The blob has no index of a bundle.
    BadIndex,
    /// The number of members, where it is not above the number of the member.
    NoMember(u32),
    /// The member's bytes.
    Member(Bytes),
}
