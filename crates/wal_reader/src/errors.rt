//! Why a stream is refused.

ghost use Rattle.std.specs.Prelude.{◌≡◌};
ghost use Rattle.wal_reader.specs.Standing.{finish_error};

use std::alloc::AllocError;

/// Why a piece of a stream is refused.
#[derive(Clone, Copy, Debug, PartialEq, Eq)]
pub enum FeedError {
    /// At this place of the stream a byte begins no envelope.
    Malformed(u64),
    /// The stream is longer than 134,217,728 bytes (128 MiB).
    TooLong,
    /// Memory ran out.
    Memory,
}

/// Why a stream has no answer.
#[derive(Clone, Copy, Debug, PartialEq, Eq)]
pub enum FinishError {
    /// At this place of the stream no whole envelope begins.
    Malformed(u64),
    /// The stream is longer than 134,217,728 bytes (128 MiB).
    TooLong,
    /// Memory ran out.
    Memory,
}

impl From<AllocError> for FeedError {
    ghost use Rattle.std.specs.Prelude.{◌≡◌};
    ghost use Rattle.wal_reader.specs.declared.errors.FeedError.TheVariants.{Memory};

    ghost from_gives = { λ _ e. e ≡ Memory };

    fn from(_: AllocError) -> FeedError {
        FeedError::Memory
    }
}

/// The error of a stream of which a piece was refused.
pub(crate) fn finish_error(error: FeedError) -> FinishError
    ensures { result ≡ finish_error error }
{
    match error {
        FeedError::Malformed(place) => FinishError::Malformed(place),
        FeedError::TooLong => FinishError::TooLong,
        FeedError::Memory => FinishError::Memory,
    }
}
