//! Reading a frame.

ghost use Rattle.std.specs.Prelude.{◌≡◌, ℕ, ◌≤◌, List, [], ◌++◌, length, IfOk, IfErr, Ok};
ghost use Rattle.wal_shape.specs.MetadataReading.{spelled_metadata};
ghost use Rattle.wal_shape.specs.Opening.{IsBody, opening_shown};
ghost use Rattle.wal_shape.specs.Spelling.{body_text};
ghost use Rattle.wal_frame.specs.Frame.{Frame, Metadata, IsFrame, frame_text};
ghost use Rattle.wal_frame.specs.Shown.{frame_shown, IsLentKind};
ghost use Rattle.wal_shape.specs.FieldReading.{Gives};
ghost use Rattle.wal_frame.specs.Reading.{IsPlaceBelow, roots_at, version_at, metadata_at};
ghost use Rattle.wal_frame.specs.Reading.{metadata2_at, sliver_at, opened_at, bodies_at, proof_at};
ghost use Rattle.wal_frame.specs.Reading.{ended, name_at, symbol_at, answer_at, clash_at};
ghost use Rattle.wal_frame.specs.Reading.{register_at, entry_at, request_at, fields_at, read_of};

use crate::fields::{MOST_INDEX, Target, faults_of, id_of, opening_of, target_of, text_of};
use crate::frame::{FrameError, FrameRef};
use wal_shape::{
    BlobId, MOST_BYTES, MetaRef, OpeningRef, ProofRef, SliverRef, bytes_of, u8_at, u16_at, u32_at,
    u64_at,
};

/// The kinds of frames.
pub(crate) const METADATA: u8 = 0x10;

pub(crate) const SLIVER: u8 = 0x11;

pub(crate) const OPENING: u8 = 0x12;

pub(crate) const PROOF: u8 = 0x13;

pub(crate) const METADATA2: u8 = 0x14;

pub(crate) const READ: u8 = 0x20;

pub(crate) const SYMBOL: u8 = 0x21;

pub(crate) const ACK: u8 = 0x22;

pub(crate) const ATTEST: u8 = 0x23;

pub(crate) const FORGET: u8 = 0x24;

pub(crate) const ANSWER: u8 = 0x30;

pub(crate) const CLASH: u8 = 0x31;

pub(crate) const REGISTER_ENTRY: u8 = 0x40;

pub(crate) const ACK_ENTRY: u8 = 0x41;

pub(crate) const ATTEST_ENTRY: u8 = 0x42;

/// The version of the second format of metadata.
const VERSION: u8 = 2;

/// The most bytes of a sliver.
const MOST_SLIVER: u32 = MOST_BYTES as u32;

/// The most openings of a proof.
const MOST_OPENINGS: u16 = 1000;

/// The greatest code of an answer.
const MOST_CODE: u8 = 15;

/// The last epoch's end.
const MOST_UNTIL: u32 = 65536;

/// The number of bytes of an identifier.
const ID_SIZE: usize = 32;

/// The number of bytes of the two roots of a shard.
const PAIR_SIZE: usize = 64;

/// The frame, if no byte is left behind it.
fn ended<'a>(frame: FrameRef<'a>, rest: &[u8]) -> Result<FrameRef<'a>, FrameError>
    ensures { Gives frame_shown result (ended (frame_shown frame.entry) rest.now) }
{
    if rest.is_empty() {
        Ok(frame)
    } else {
        Err(FrameError::Trailing)
    }
}

/// The bytes after f, the length and the pairs of roots.
#[tactic(auto, unfolding(crate::specs::Reading::roots_at))]
fn after_roots(bytes: &[u8], place: u32) -> Result<&[u8], FrameError>
    requires { place ≤ 2 }
    ensures { Gives (λ rest. rest.now) result (roots_at place bytes.now) }
{
    let (f, rest) = faults_of(bytes, place)?;
    let (_, rest) = u64_at(rest, place + 2, MOST_BYTES)?;
    let (_, rest) = bytes_of(rest, PAIR_SIZE * (3 * usize::from(f) + 1))?;
    Ok(rest)
}

/// Whether the bytes behind the kind are metadata of the first format, the whole of them.
#[tactic(auto, unfolding(crate::specs::Reading::metadata_at))]
fn check_metadata(bytes: &[u8]) -> Result<(), FrameError>
    ensures { Gives (λ _. Metadata (spelled_metadata bytes.now)) result (metadata_at bytes.now) }
{
    let rest = after_roots(bytes, 1)?;
    if !rest.is_empty() {
        return Err(FrameError::Trailing);
    }
    Ok(())
}

/// The metadata of the first format behind the kind.
fn metadata_of(bytes: &[u8]) -> Result<FrameRef<'_>, FrameError>
    ensures frame { Gives frame_shown result (metadata_at bytes.now) }
    ensures kind { IfOk result IsLentKind }
{
    check_metadata(bytes)?;
    match MetaRef::new(bytes) {
        Some(metadata) => Ok(FrameRef::Metadata(metadata)),
        None => unreachable!(),
    }
}

/// The bytes after the version of the second format.
#[tactic(auto, unfolding(crate::specs::Reading::version_at))]
fn after_version(bytes: &[u8]) -> Result<(u8, &[u8]), FrameError>
    ensures { Gives (λ x. (x.0, x.1.now)) result (version_at bytes.now) }
{
    let (version, rest) = u8_at(bytes, 1, VERSION)?;
    if version != VERSION {
        return Err(FrameError::BadField(1));
    }
    Ok((version, rest))
}

/// Whether the bytes behind the kind are metadata of the second format, the whole of them.
#[tactic(auto, unfolding(crate::specs::Reading::metadata2_at))]
fn check_metadata2(bytes: &[u8]) -> Result<(), FrameError>
    ensures { Gives (λ _. Metadata (spelled_metadata bytes.now)) result (metadata2_at bytes.now) }
{
    let (_, rest) = after_version(bytes)?;
    let rest = after_roots(rest, 2)?;
    if !rest.is_empty() {
        return Err(FrameError::Trailing);
    }
    Ok(())
}

/// The metadata of the second format behind the kind.
fn metadata2_of(bytes: &[u8]) -> Result<FrameRef<'_>, FrameError>
    ensures frame { Gives frame_shown result (metadata2_at bytes.now) }
    ensures kind { IfOk result IsLentKind }
{
    check_metadata2(bytes)?;
    match MetaRef::new(bytes) {
        Some(metadata) => Ok(FrameRef::Metadata2(metadata)),
        None => unreachable!(),
    }
}

/// The sliver behind the kind.
#[tactic(auto, unfolding(crate::specs::Reading::sliver_at))]
fn sliver_of(bytes: &[u8]) -> Result<FrameRef<'_>, FrameError>
    ensures frame { Gives frame_shown result (sliver_at bytes.now) }
    ensures kind { IfOk result IsLentKind }
{
    let (target, rest) = target_of(bytes)?;
    let (size, rest) = u32_at(rest, 36, MOST_SLIVER)?;
    let (content, rest) = bytes_of(rest, size as usize)?;
    let sliver = SliverRef {
        axis: target.axis,
        index: target.index,
        bytes: content,
    };
    let id = target.id;
    ended(FrameRef::Sliver { id, sliver }, rest)
}

/// The opening behind the kind.
#[tactic(auto, unfolding(crate::specs::Reading::opened_at))]
fn opened_of(bytes: &[u8]) -> Result<FrameRef<'_>, FrameError>
    ensures frame { Gives frame_shown result (opened_at bytes.now) }
    ensures kind { IfOk result IsLentKind }
{
    let (Target { id, axis, index }, rest) = target_of(bytes)?;
    let (opening, rest) = opening_of(rest, 36)?;
    let frame = FrameRef::Opening {
        id,
        axis,
        index,
        opening,
    };
    ended(frame, rest)
}

/// The bytes after so many opening bodies.
fn after_bodies(bytes: &[u8], count: u16) -> Result<&[u8], FrameError>
    requires { count ≤ 1000 }
    ensures { Gives (λ rest. rest.now) result (bodies_at count 38 bytes.now) }
{
    let mut rest = bytes;
    let mut place = 38;
    for _ in 0..count {
        match opening_of(rest, place) {
            Ok((opening, after)) => {
                place += body_size(opening);
                rest = after;
            }
            Err(fault) => return Err(fault),
        }
    }
    Ok(rest)
}

/// The number of bytes of an opening's body.
fn body_size(opening: OpeningRef<'_>) -> u64
    requires { IsBody (opening_shown opening) }
    ensures size { result ≡ length (body_text (opening_shown opening.entry)) }
    ensures most { result ≤ 16777543 }
{
    7 + (opening.symbol.len() + opening.path.len()) as u64
}

/// The proof behind the kind.
#[tactic(auto, unfolding(crate::specs::Reading::proof_at))]
fn proof_of(bytes: &[u8]) -> Result<FrameRef<'_>, FrameError>
    ensures frame { Gives frame_shown result (proof_at bytes.now) }
    ensures kind { IfOk result IsLentKind }
{
    let (target, rest) = target_of(bytes)?;
    let (count, rest) = u16_at(rest, 36, MOST_OPENINGS)?;
    let rest = after_bodies(rest, count)?;
    if !rest.is_empty() {
        return Err(FrameError::Trailing);
    }
    let id = target.id;
    let (_, body) = bytes.split_at(ID_SIZE);
    match ProofRef::new(body) {
        Some(body) => Ok(FrameRef::Proof { id, body }),
        None => unreachable!(),
    }
}

/// The identifier behind the kind, and nothing else.
#[tactic(auto, unfolding(crate::specs::Reading::name_at))]
fn name_of(bytes: &[u8]) -> Result<BlobId, FrameError>
    ensures { Gives (λ id. id.0) result (name_at bytes.now) }
{
    let (id, rest) = id_of(bytes)?;
    if !rest.is_empty() {
        return Err(FrameError::Trailing);
    }
    Ok(id)
}

/// The sliver whose symbols are asked for, behind the kind.
#[tactic(auto, unfolding(crate::specs::Reading::symbol_at))]
fn symbol_of(bytes: &[u8]) -> Result<FrameRef<'_>, FrameError>
    ensures frame { Gives frame_shown result (symbol_at bytes.now) }
    ensures kind { IfOk result IsLentKind }
{
    let (Target { id, axis, index }, rest) = target_of(bytes)?;
    ended(FrameRef::Symbol { id, axis, index }, rest)
}

/// The answer behind the kind.
#[tactic(auto, unfolding(crate::specs::Reading::answer_at))]
fn answer_of(bytes: &[u8]) -> Result<FrameRef<'_>, FrameError>
    ensures frame { Gives frame_shown result (answer_at bytes.now) }
    ensures kind { IfOk result IsLentKind }
{
    let (code, rest) = u8_at(bytes, 1, MOST_CODE)?;
    let (a, rest) = u32_at(rest, 2, u32::MAX)?;
    let (b, rest) = u32_at(rest, 6, u32::MAX)?;
    ended(FrameRef::Answer { code, a, b }, rest)
}

/// The two texts behind the kind.
#[tactic(auto, unfolding(crate::specs::Reading::clash_at))]
fn clash_of(bytes: &[u8]) -> Result<FrameRef<'_>, FrameError>
    ensures frame { Gives frame_shown result (clash_at bytes.now) }
    ensures kind { IfOk result IsLentKind }
{
    let (left, rest) = text_of(bytes, 1)?;
    let (right, rest) = text_of(rest, 2 + left.len() as u32)?;
    ended(FrameRef::Clash { left, right }, rest)
}

/// The registration behind the kind.
#[tactic(auto, unfolding(crate::specs::Reading::register_at))]
fn register_of(bytes: &[u8]) -> Result<FrameRef<'_>, FrameError>
    ensures frame { Gives frame_shown result (register_at bytes.now) }
    ensures kind { IfOk result IsLentKind }
{
    let (id, rest) = id_of(bytes)?;
    let (until, rest) = u32_at(rest, 33, MOST_UNTIL)?;
    ended(FrameRef::RegisterEntry { id, until }, rest)
}

/// The shard and the identifier behind the kind, and nothing else.
#[tactic(auto, unfolding(crate::specs::Reading::entry_at))]
fn entry_of(bytes: &[u8]) -> Result<(u16, BlobId), FrameError>
    ensures { Gives (λ e. (e.0, e.1.0)) result (entry_at bytes.now) }
{
    let (shard, rest) = u16_at(bytes, 1, MOST_INDEX)?;
    let (id, rest) = id_of(rest)?;
    if !rest.is_empty() {
        return Err(FrameError::Trailing);
    }
    Ok((shard, id))
}

/// The request or entry of this kind.
#[tactic(auto, unfolding(crate::specs::Reading::request_at))]
fn request_of(kind: u8, bytes: &[u8]) -> Result<FrameRef<'_>, FrameError>
    ensures frame { Gives frame_shown result (request_at kind bytes.now) }
    ensures kind { IfOk result IsLentKind }
{
    match kind {
        READ => Ok(FrameRef::Read {
            id: name_of(bytes)?,
        }),
        SYMBOL => symbol_of(bytes),
        ACK => Ok(FrameRef::Ack {
            id: name_of(bytes)?,
        }),
        ATTEST => Ok(FrameRef::Attest {
            id: name_of(bytes)?,
        }),
        FORGET => Ok(FrameRef::Forget {
            id: name_of(bytes)?,
        }),
        ANSWER => answer_of(bytes),
        CLASH => clash_of(bytes),
        REGISTER_ENTRY => register_of(bytes),
        ACK_ENTRY => {
            let (shard, id) = entry_of(bytes)?;
            Ok(FrameRef::AckEntry { shard, id })
        }
        ATTEST_ENTRY => {
            let (shard, id) = entry_of(bytes)?;
            Ok(FrameRef::AttestEntry { shard, id })
        }
        _ => Err(FrameError::BadKind),
    }
}

/// The frame of this kind.
#[tactic(auto, unfolding(crate::specs::Reading::fields_at))]
fn fields_of(kind: u8, bytes: &[u8]) -> Result<FrameRef<'_>, FrameError>
    ensures frame { Gives frame_shown result (fields_at kind bytes.now) }
    ensures kind { IfOk result IsLentKind }
{
    match kind {
        METADATA => metadata_of(bytes),
        SLIVER => sliver_of(bytes),
        OPENING => opened_of(bytes),
        PROOF => proof_of(bytes),
        METADATA2 => metadata2_of(bytes),
        _ => request_of(kind, bytes),
    }
}

/// The frame that the bytes spell, or the first fault.
#[tactic(auto, unfolding(crate::specs::Reading::read_of))]
fn frame_of(bytes: &[u8]) -> Result<FrameRef<'_>, FrameError>
    ensures frame { Gives frame_shown result (read_of bytes.now) }
    ensures kind { IfOk result IsLentKind }
{
    match bytes {
        [] => Err(FrameError::Truncated),
        [kind, rest @ ..] => fields_of(*kind, rest),
    }
}

/// Reads a frame, the whole of the bytes.
///
/// A frame is a kind (one byte) and its fields, numbers most significant byte first:
///
/// | Kind | Frame | Fields behind the kind |
/// |---|---|---|
/// | `10` | metadata | `f` (two bytes), length (eight), a primary and a secondary root a shard |
/// | `11` | sliver | identifier (32), axis (one), index (two), size (four), that many bytes |
/// | `12` | opening | identifier, axis, index, an opening body |
/// | `13` | proof | identifier, axis, index, the number of bodies (two), that many opening bodies |
/// | `14` | metadata, second format | 2 (one), then as `10` |
/// | `20` | read | identifier |
/// | `21` | symbol | identifier, axis, index |
/// | `22` `23` `24` | ack, attest, forget | identifier |
/// | `30` | answer | code (one), two numbers (four each) |
/// | `31` | clash | two texts, each behind its size (one) |
/// | `40` | register entry | identifier, until (four) |
/// | `41` `42` | ack entry, attest entry | shard (two), identifier |
///
/// An axis is 0 for primary and 1 for secondary. The first fault from the left is answered; a range
/// is checked once the field is read, before what it announces. `f` is from 1 to 333, an index or a
/// shard at most 999, a length or size at most 16,777,216, a number of bodies at most 1000, a code
/// at most 15, a text's size at most 65, and until at most 65,536.
pub fn read_frame(bytes: &[u8]) -> Result<FrameRef<'_>, FrameError>
    // What is read is in the ranges.
    ensures frame { IfOk result (λ frame. IsFrame (frame_shown frame)) }
    // A metadata is read in the variant of its format.
    ensures kind { IfOk result IsLentKind }
    // What is read is spelled so.
    ensures spelled { IfOk result (λ frame. bytes.now ≡ frame_text (frame_shown frame)) }
    // What is spelled so is read.
    ensures only { (x : Frame) → IsFrame x → bytes.now ≡ frame_text x
        → Gives frame_shown result (Ok x) }
    // No spelling begins another: a frame that the bytes begin with is what is read.
    ensures alone { IfOk result
        (λ frame. (x : Frame) (rest : List ℕ) → IsFrame x → bytes.now ≡ frame_text x ++ rest
        → (x ≡ frame_shown frame) × (rest ≡ [])) }
    // Which fault it is.
    ensures exact { Gives frame_shown result (read_of bytes.now) }
    // The place of a bad field is that of one of the bytes.
    ensures place { IfErr result (IsPlaceBelow (length bytes.now)) }
{
    frame_of(bytes)
}
