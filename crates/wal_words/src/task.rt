//! The commands, and the words that ask for each.

ghost use Rattle.std.specs.Prelude.{◌≡◌, ℕ, List, [], ◌∷◌, map, string_bytes, IfOk, IfSome, IfNone};
ghost use Rattle.std.specs.Prelude.{Option, Some, None, option_map, codes};
ghost use Rattle.wal_words.specs.declared.task.Audit.{Audit};
ghost use Rattle.wal_words.specs.declared.task.Options.{Options};
ghost use Rattle.wal_words.specs.declared.task.Task.{Task};
ghost use Rattle.wal_words.specs.CommandLine.{values_in, option_in};
ghost use Rattle.wal_words.specs.Task.{HasFormat, HasNumber, HasOptions, IsAudit, IsRow, IsTask};
ghost use Rattle.wal_words.specs.Task.{NoTask};
ghost use Rattle.wal_words.specs.inside.Task.{FoundAsks};
ghost use Rattle.clap.specs.Words.{first_value, found_of};

use crate::command_line::command;
use crate::number::{
    read_axis, read_beacon, read_format, read_identifier, read_number, read_short, read_small,
};
use clap::ArgMatches;
use clap::error::ErrorKind;
use std::alloc::{AllocError, Global};
use wal_shape::{Axis, BlobId, Format};

/// A shard that serves, by its values and options.
#[derive(Clone, Copy, Debug, PartialEq, Eq, Drop)]
pub struct Service {
    /// The bound on the faulty shards of its committee.
    pub faults: u32,
    /// The shard's number.
    pub shard: u16,
    /// For how many blobs the ledger has room, two entries each.
    pub blobs: u32,
    /// How many pages it may fill.
    pub pages: u32,
}

/// A storage challenge of one shard, as it is made, answered and checked.
#[derive(Clone, Copy, Debug, PartialEq, Eq, Drop)]
pub struct Audit {
    /// The blob whose symbols are asked for.
    pub id: BlobId,
    /// The number of the shard that is challenged.
    pub shard: u16,
    /// The 32 bytes that the draws come from.
    pub beacon: [u8; 32],
    /// How many symbols are drawn.
    pub count: u16,
}

/// A command that takes its whole input at once and then answers, with its values in range.
#[derive(Clone, Copy, Debug, PartialEq, Eq, Drop)]
pub enum WholeTask {
    /// Write the identifier of the blob that is read, at this bound on the faulty shards.
    Identify(u32, Format),
    /// Write the metadata and all slivers of the blob that is read.
    Encode(u32, Format),
    /// Write the sliver of this axis and index, or a proof that it was encoded badly, from
    /// openings.
    Recover(BlobId, Axis, u16),
    /// Say what the first proof of this identifier shows.
    Check(BlobId),
    /// Write the report of the schedule that is read.
    Replay,
    /// Write the image of a disk of this many bytes, with the envelopes that are read as its
    /// records.
    Image(u32),
    /// Write a line for each part that the image of a disk has, which is read.
    Unpack,
    /// Write the bundle of the blobs that are read, at this bound on the faulty shards.
    Bundle(u32),
    /// Write the member of this number of the bundle of this identifier.
    Member(BlobId, u16),
    /// Write the answer of a shard to this storage challenge, as openings.
    Challenge(Audit),
    /// Say whether the openings that are read answer this storage challenge.
    Verify(Audit),
    /// Answer gets with a cache of this many blobs.
    Gateway(u32),
}

/// One command, with its values in range, by how it takes its input.
#[derive(Clone, Copy, Debug, PartialEq, Eq, Drop)]
pub enum Task {
    /// Take the whole input at once, and then answer.
    Whole(WholeTask),
    /// Take envelopes in pieces, and write the blob of this identifier.
    Read(BlobId),
    /// Take requests, and answer each before the next one is taken.
    Serve(Service),
    /// Take nothing, and write a summary of the run of the sample schedule of this number.
    Sample(u64),
}

/// What the options of the command line say.
#[derive(Clone, Copy, Debug, Drop)]
pub(crate) struct Options {
    blobs: u32,
    pages: u32,
    format: Format,
}

/// The number of an option, where it is in its range.
fn option_number(given: Option<&str>, missing: u32, least: u32, most: u32) -> Option<u32>
    ensures found { IfSome result
        (λ n. HasNumber missing least most (option_map (λ w. w.now) given.entry) n) }
    ensures none { IfNone result
        ((n : ℕ) → HasNumber missing least most (option_map (λ w. w.now) given.entry) n → ⊥) }
{
    match given {
        None => Some(missing),
        Some(word) => read_small(word, least, most),
    }
}

/// The format of an option.
fn option_format(given: Option<&str>) -> Option<Format>
    ensures found { IfSome result
        (λ format. HasFormat (option_map (λ w. w.now) given.entry) format) }
    ensures none { IfNone result
        ((format : Format) → HasFormat (option_map (λ w. w.now) given.entry) format → ⊥) }
{
    match given {
        None => Some(Format::One),
        Some(word) => read_format(word),
    }
}

/// The options, where each is in its range.
fn options_of(matches: &ArgMatches<'_>) -> Option<Options>
    ensures found { IfSome result (HasOptions (first_value (found_of matches.now) (codes "blobs"))
        (first_value (found_of matches.now) (codes "pages"))
        (first_value (found_of matches.now) (codes "format"))) }
    ensures none { IfNone result ((o : Options)
        → HasOptions (first_value (found_of matches.now) (codes "blobs"))
        (first_value (found_of matches.now) (codes "pages"))
        (first_value (found_of matches.now) (codes "format")) o
        → ⊥) }
{
    let blobs = option_number(matches.get_str("blobs"), 1024, 1, 65_536)?;
    let pages = option_number(matches.get_str("pages"), 16_384, 1, 262_144)?;
    let format = option_format(matches.get_str("format"))?;
    Some(Options {
        blobs,
        pages,
        format,
    })
}

/// The task of one value.
fn single_task(command: &str, options: &Options) -> Option<Task>
    ensures found { IfSome result (λ t. IsRow options.now (command.now ∷ []) t) }
    ensures none { IfNone result ((t : Task) → IsRow options.now (command.now ∷ []) t → ⊥) }
{
    match command {
        "replay" => Some(Task::Whole(WholeTask::Replay)),
        "unpack" => Some(Task::Whole(WholeTask::Unpack)),
        _ => None,
    }
}

/// The task of two values.
fn pair_task(command: &str, value: &str, options: &Options) -> Option<Task>
    ensures found { IfSome result (λ t. IsRow options.now (command.now ∷ value.now ∷ []) t) }
    ensures none { IfNone result
        ((t : Task) → IsRow options.now (command.now ∷ value.now ∷ []) t → ⊥) }
{
    match command {
        "id" => Some(Task::Whole(WholeTask::Identify(read_small(value, 1, 333)?, options.format))),
        "encode" => Some(Task::Whole(WholeTask::Encode(
            read_small(value, 1, 333)?,
            options.format,
        ))),
        "read" => Some(Task::Read(read_identifier(value)?)),
        "check" => Some(Task::Whole(WholeTask::Check(read_identifier(value)?))),
        "sample" => Some(Task::Sample(read_number(value, 0, u64::MAX)?)),
        "image" => Some(Task::Whole(WholeTask::Image(read_small(value, 1, 134_217_728)?))),
        "bundle" => Some(Task::Whole(WholeTask::Bundle(read_small(value, 1, 333)?))),
        "gateway" => Some(Task::Whole(WholeTask::Gateway(read_small(value, 1, 64)?))),
        _ => None,
    }
}

/// The task of three values.
fn triple_task(command: &str, first: &str, second: &str, options: &Options) -> Option<Task>
    ensures found { IfSome result
        (λ t. IsRow options.now (command.now ∷ first.now ∷ second.now ∷ []) t) }
    ensures none { IfNone result
        ((t : Task) → IsRow options.now (command.now ∷ first.now ∷ second.now ∷ []) t → ⊥) }
{
    match command {
        "serve" => serve_task(first, second, options),
        "member" => member_task(first, second, options),
        _ => None,
    }
}

/// The task of a shard that serves.
fn serve_task(first: &str, second: &str, options: &Options) -> Option<Task>
    ensures found { IfSome result
        (λ t. IsRow options.now (codes "serve" ∷ first.now ∷ second.now ∷ []) t) }
    ensures none { IfNone result
        ((t : Task) → IsRow options.now (codes "serve" ∷ first.now ∷ second.now ∷ []) t → ⊥) }
{
    let faults = read_small(first, 1, 333)?;
    let shard = read_short(second, 0, 3 * faults as u16)?;
    Some(Task::Serve(Service {
        faults,
        shard,
        blobs: options.blobs,
        pages: options.pages,
    }))
}

/// The task of a bundle's member.
fn member_task(first: &str, second: &str, options: &Options) -> Option<Task>
    ensures found { IfSome result
        (λ t. IsRow options.now (codes "member" ∷ first.now ∷ second.now ∷ []) t) }
    ensures none { IfNone result
        ((t : Task) → IsRow options.now (codes "member" ∷ first.now ∷ second.now ∷ []) t → ⊥) }
{
    let id = read_identifier(first)?;
    let number = read_short(second, 0, u16::MAX)?;
    Some(Task::Whole(WholeTask::Member(id, number)))
}

/// The task of four values.
fn quadruple_task(
    command: &str,
    first: &str,
    second: &str,
    third: &str,
    options: &Options,
) -> Option<Task>
    ensures found { IfSome result
        (λ t. IsRow options.now (command.now ∷ first.now ∷ second.now ∷ third.now ∷ []) t) }
    ensures none { IfNone result ((t : Task)
        → IsRow options.now (command.now ∷ first.now ∷ second.now ∷ third.now ∷ []) t → ⊥) }
{
    if command != "recover" {
        return None;
    }
    let id = read_identifier(first)?;
    let axis = read_axis(second)?;
    let index = read_short(third, 0, 999)?;
    Some(Task::Whole(WholeTask::Recover(id, axis, index)))
}

/// The storage challenge that the four values name.
fn read_audit(first: &str, second: &str, third: &str, fourth: &str) -> Option<Audit>
    ensures found { IfSome result (IsAudit first.now second.now third.now fourth.now) }
    ensures none { IfNone result
        ((a : Audit) → IsAudit first.now second.now third.now fourth.now a → ⊥) }
{
    let id = read_identifier(first)?;
    let shard = read_short(second, 0, 999)?;
    let beacon = read_beacon(third)?;
    let count = read_short(fourth, 1, 1000)?;
    Some(Audit {
        id,
        shard,
        beacon,
        count,
    })
}

/// The task of five values.
fn quintuple_task(
    command: &str,
    first: &str,
    second: &str,
    third: &str,
    fourth: &str,
    options: &Options,
) -> Option<Task>
    ensures found { IfSome result (λ t.
        IsRow options.now (command.now ∷ first.now ∷ second.now ∷ third.now ∷ fourth.now ∷ []) t) }
    ensures none { IfNone result ((t : Task)
        → IsRow options.now (command.now ∷ first.now ∷ second.now ∷ third.now ∷ fourth.now ∷ []) t
        → ⊥) }
{
    match command {
        "challenge" => Some(Task::Whole(WholeTask::Challenge(read_audit(
            first, second, third, fourth,
        )?))),
        "verify" => Some(Task::Whole(WholeTask::Verify(read_audit(first, second, third, fourth)?))),
        _ => None,
    }
}

/// The task that the values ask for.
fn task_of(values: &[&str], options: &Options) -> Option<Task>
    ensures found { IfSome result (λ t. IsRow options.now (map (λ v. v.now) values.now) t) }
    ensures none { IfNone result
        ((t : Task) → IsRow options.now (map (λ v. v.now) values.now) t → ⊥) }
{
    match values {
        [command] => single_task(command, options),
        [command, value] => pair_task(command, value, options),
        [command, first, second] => triple_task(command, first, second, options),
        [command, first, second, third] => quadruple_task(command, first, second, third, options),
        [command, first, second, third, fourth] => {
            quintuple_task(command, first, second, third, fourth, options)
        }
        _ => None,
    }
}

/// The task that clap's reading of the words asks for.
fn task_in(matches: &ArgMatches<'_>) -> Option<Task>
    ensures found { IfSome result (FoundAsks (found_of matches.now)) }
    ensures none { IfNone result ((t : Task) → FoundAsks (found_of matches.now) t → ⊥) }
{
    let options = options_of(matches)?;
    let values = matches.get_strs("words").unwrap_or(&[]);
    task_of(values, &options)
}

/// The task that the words ask for, the program's own name left out: `None` if they ask for
/// nothing.
pub fn read_task(alloc: Global, words: &Vec<String>) -> Result<Option<Task>, AllocError>
    ensures found { IfOk result (λ o. IfSome o (λ t. IsTask (map string_bytes words.now.items) t)) }
    ensures none { IfOk result (λ o. IfNone o (NoTask (map string_bytes words.now.items))) }
    // Words ask for one task.
    ensures only { IfOk result (λ o. IfSome o (λ t. (other : Task)
        → IsTask (map string_bytes words.now.items) other → other ≡ t)) }
{
    let command = command(alloc)?;
    match command.try_get_matches_from(words.as_slice()) {
        Ok(matches) => Ok(task_in(&matches)),
        Err(e) => {
            if e.kind() == ErrorKind::OutOfMemory {
                Err(AllocError)
            } else {
                Ok(None)
            }
        }
    }
}
