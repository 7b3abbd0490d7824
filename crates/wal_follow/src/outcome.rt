//! What comes of an entry.

ghost use Rattle.std.specs.Prelude.{◌≡◌};
ghost use Rattle.wal_follow.specs.Outcomes.{claimed, readied, registered};
ghost use Rattle.wal_record.specs.declared.outcome.Said.TheVariants.{Quorum};

use wal_ledger::{Kind, ReadyAnswer, RegisterAnswer};
use wal_record::Said;

/// What comes of an entry: the words of a report of `walrus replay`.
#[derive(Clone, Copy, Debug, PartialEq, Eq)]
pub enum Outcome {
    /// The blob is registered, now until this epoch.
    Until(u32),
    /// So many shards have said so in this epoch, which is no quorum yet.
    Counted(u32),
    /// So many shards have acknowledged the blob in this epoch, which is a quorum.
    Certified(u32),
    /// So many shards have attested in this epoch that the blob is invalid, which is a quorum.
    Invalid(u32),
    /// The epoch begins to change to this one, or this one has begun.
    Epoch(u32),
    /// The same stands in the ledger.
    Already,
    /// The blob is not live.
    Unregistered,
    /// The blob is not kept beyond the writing epoch.
    Expires,
    /// The registration does not exceed the writing epoch.
    RefusedPast,
    /// The epoch is changing.
    RefusedMoving,
    /// The epoch is not changing.
    RefusedNotMoving,
    /// There is no later epoch.
    RefusedLastEpoch,
    /// Only so many shards of the next committee are ready, which is no quorum.
    Waiting(u32),
}

/// What comes of a registration. These rules have room for each.
pub(crate) fn registered(answer: RegisterAnswer) -> Outcome
    ensures { result ≡ registered answer }
{
    match answer {
        RegisterAnswer::Registered(until) => Outcome::Until(until),
        RegisterAnswer::MovingExtension => Outcome::RefusedMoving,
        RegisterAnswer::Past | RegisterAnswer::NoRoom => Outcome::RefusedPast,
    }
}

/// What comes of a claim that makes a quorum.
fn quorum(kind: Kind, count: u32) -> Outcome
    ensures { result ≡ claimed kind (Quorum count) }
{
    match kind {
        Kind::Holds => Outcome::Certified(count),
        Kind::Denies => Outcome::Invalid(count),
    }
}

/// What comes of a claim.
pub(crate) fn claimed(kind: Kind, said: Said) -> Outcome
    ensures { result ≡ claimed kind said }
{
    match said {
        Said::Counted(count) => Outcome::Counted(count),
        Said::Quorum(count) => quorum(kind, count),
        Said::Already => Outcome::Already,
        Said::Unregistered => Outcome::Unregistered,
        Said::Expires => Outcome::Expires,
    }
}

/// What comes of it that a shard is ready. These rules have room for each.
pub(crate) fn readied(answer: ReadyAnswer) -> Outcome
    ensures { result ≡ readied answer }
{
    match answer {
        ReadyAnswer::Counted(count) => Outcome::Counted(count),
        ReadyAnswer::Already | ReadyAnswer::NoRoom => Outcome::Already,
    }
}
