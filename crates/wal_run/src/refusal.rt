//! Why a command has no answer for the input that was taken.

ghost use Rattle.std.specs.Prelude.{◌≡◌, ◌++◌, IfOk, OnOk};
ghost use Rattle.wal_run.specs.Checking.{verdict_text};
ghost use Rattle.wal_run.specs.declared.refusal.Refusal.TheVariants.{DiskFull, WrongCount};
ghost use Rattle.wal_run.specs.inside.Checking.{verdict_status};
ghost use Rattle.wal_run.specs.inside.Refusals.{refusal_status, refusal_text};

use crate::finish::{COLLISION, MALFORMED, NO_MEMORY, REJECTED, SHORT};
use crate::lines::{add_collision, add_number, add_numbers, add_short};
use std::alloc::{AllocError, Global};
use wal_evidence::ProofVerdict;
use wal_shape::{Collision, MetaClash};

/// Why a command has no answer. Each has a status, and a line that tells it.
#[derive(Drop)]
pub enum Refusal {
    /// The blob was encoded badly, which the payloads show.
    Reject,
    /// The blob has no index of a bundle.
    BadIndex,
    /// The opening at this place does not answer its draw.
    Wrong(u16),
    /// What the proof shows, if only that it shows nothing.
    Checked(ProofVerdict),
    /// No payload is a metadata of the identifier.
    NoMetadata,
    /// No payload is a proof of the identifier.
    NoProof,
    /// The blob has no such shard.
    NoShard,
    /// The shard's primary sliver is missing.
    NoPrimary,
    /// The shard's secondary sliver is missing.
    NoSecondary,
    /// So many parts are held, and so many needed.
    Short { have: u32, need: u32 },
    /// There are so many openings, and another number of draws.
    WrongCount { have: usize, draws: u16 },
    /// A column that is needed is missing.
    MissingColumn(u32),
    /// The bundle has so many members, and not the one that was asked for.
    NoMember(u32),
    /// A bundle has fewer members.
    TooManyMembers,
    /// The bundle would be longer than a blob.
    BundleTooLong,
    /// A record needs more bytes than the disk has free.
    DiskFull { needed: u64, free: u64 },
    /// Memory ran out. No line tells it.
    Memory,
    /// At this place no whole envelope, or no record, begins.
    Malformed(u64),
    /// The input is not JSON.
    NotJson,
    /// The input is JSON, and no schedule.
    BadSchedule,
    /// The schedule has too many events.
    TooManyEvents,
    /// The event of this number is none.
    BadEvent(u32),
    /// Two metadata of the identifier differ, and these texts have one digest.
    MetadataClash(MetaClash),
    /// A run ended with two texts that have one digest.
    Collision(Collision),
}

impl From<AllocError> for Refusal {
    ghost use Rattle.std.specs.Prelude.{◌≡◌};
    ghost use Rattle.wal_run.specs.declared.refusal.Refusal.TheVariants.{Memory};

    ghost from_gives = { λ _ r. r ≡ Memory };

    fn from(_e: AllocError) -> Refusal {
        Refusal::Memory
    }
}

/// The status of a verdict on a proof.
fn verdict_status(verdict: ProofVerdict) -> u8
    ensures { result ≡ verdict_status verdict }
{
    match verdict {
        ProofVerdict::Inconsistent => REJECTED,
        ProofVerdict::WrongCount
        | ProofVerdict::Repeated
        | ProofVerdict::BadOpening(_)
        | ProofVerdict::Consistent => SHORT,
    }
}

/// Appends the line of a verdict on a proof.
fn add_verdict(line: &mut Vec<u8>, verdict: ProofVerdict) -> Result<(), AllocError>
    ensures { OnOk result (line.new.items ≡ line.old.items ++ verdict_text verdict) }
{
    match verdict {
        ProofVerdict::WrongCount => line.extend_from_slice(b"wrong count\n"),
        ProofVerdict::Repeated => line.extend_from_slice(b"repeated\n"),
        ProofVerdict::BadOpening(place) => add_number(line, b"bad opening ", u64::from(place)),
        ProofVerdict::Consistent => line.extend_from_slice(b"consistent\n"),
        ProofVerdict::Inconsistent => line.extend_from_slice(b"inconsistent\n"),
    }
}

/// The status that tells a refusal.
pub fn status_of(refusal: &Refusal) -> u8
    ensures { result ≡ refusal_status refusal.now }
{
    match refusal {
        Refusal::Reject | Refusal::BadIndex | Refusal::Wrong(_) => REJECTED,
        Refusal::Checked(verdict) => verdict_status(*verdict),
        Refusal::NoMetadata
        | Refusal::NoProof
        | Refusal::NoShard
        | Refusal::NoPrimary
        | Refusal::NoSecondary
        | Refusal::Short { .. }
        | Refusal::WrongCount { .. }
        | Refusal::MissingColumn(_)
        | Refusal::NoMember(_)
        | Refusal::TooManyMembers
        | Refusal::BundleTooLong
        | Refusal::DiskFull { .. } => SHORT,
        Refusal::Memory => NO_MEMORY,
        Refusal::Malformed(_)
        | Refusal::NotJson
        | Refusal::BadSchedule
        | Refusal::TooManyEvents
        | Refusal::BadEvent(_) => MALFORMED,
        Refusal::MetadataClash(_) | Refusal::Collision(_) => COLLISION,
    }
}

/// Appends how many answers there were, and for how many draws.
fn add_wrong_count(line: &mut Vec<u8>, have: usize, draws: u16) -> Result<(), AllocError>
    ensures { OnOk result (line.new.items
        ≡ line.old.items ++ refusal_text (WrongCount have draws)) }
{
    add_numbers(
        line,
        b"wrong count ",
        have as u64,
        b" of ",
        u64::from(draws),
    )
}

/// Appends how many bytes were needed on a disk, and how many are free.
fn add_disk_full(line: &mut Vec<u8>, needed: u64, free: u64) -> Result<(), AllocError>
    ensures { OnOk result (line.new.items
        ≡ line.old.items ++ refusal_text (DiskFull needed free)) }
{
    add_numbers(line, b"disk full needed ", needed, b" free ", free)
}

/// Appends the line of a refusal.
fn add_refusal(alloc: Global, line: &mut Vec<u8>, refusal: &Refusal) -> Result<(), AllocError>
    ensures { OnOk result (line.new.items ≡ line.old.items ++ refusal_text refusal.now) }
{
    match refusal {
        Refusal::Reject => line.extend_from_slice(b"reject\n"),
        Refusal::BadIndex => line.extend_from_slice(b"bad index\n"),
        Refusal::Wrong(place) => add_number(line, b"wrong ", u64::from(*place)),
        Refusal::Checked(verdict) => add_verdict(line, *verdict),
        Refusal::NoMetadata => line.extend_from_slice(b"no metadata\n"),
        Refusal::NoProof => line.extend_from_slice(b"no proof\n"),
        Refusal::NoShard => line.extend_from_slice(b"no shard\n"),
        Refusal::NoPrimary => line.extend_from_slice(b"no primary\n"),
        Refusal::NoSecondary => line.extend_from_slice(b"no secondary\n"),
        Refusal::Short { have, need } => add_short(line, *have, *need),
        Refusal::WrongCount { have, draws } => add_wrong_count(line, *have, *draws),
        Refusal::MissingColumn(j) => add_number(line, b"missing column ", u64::from(*j)),
        Refusal::NoMember(count) => add_number(line, b"no member of ", u64::from(*count)),
        Refusal::TooManyMembers => line.extend_from_slice(b"too many members\n"),
        Refusal::BundleTooLong => line.extend_from_slice(b"bundle too long\n"),
        Refusal::DiskFull { needed, free } => add_disk_full(line, *needed, *free),
        Refusal::Memory => Ok(()),
        Refusal::Malformed(place) => add_number(line, b"malformed at ", *place),
        Refusal::NotJson => line.extend_from_slice(b"not json\n"),
        Refusal::BadSchedule => line.extend_from_slice(b"bad schedule\n"),
        Refusal::TooManyEvents => line.extend_from_slice(b"too many events\n"),
        Refusal::BadEvent(number) => add_number(line, b"bad event ", u64::from(*number)),
        Refusal::MetadataClash(clash) => add_collision(
            alloc,
            line,
            clash.left.bytes(),
            clash.right.bytes(),
        ),
        Refusal::Collision(clash) => add_collision(
            alloc,
            line,
            clash.left.as_slice(),
            clash.right.as_slice(),
        ),
    }
}

/// The line that tells a refusal.
pub fn refusal_line(alloc: Global, refusal: &Refusal) -> Result<Vec<u8>, AllocError>
    ensures { IfOk result (λ line. line.items ≡ refusal_text refusal.now) }
{
    let mut line = Vec::new(alloc);
    add_refusal(alloc, &mut line, refusal)?;
    Ok(line)
}
