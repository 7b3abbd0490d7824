//! Reading a schedule.

ghost use Rattle.std.specs.Prelude.{◌≡◌, ◌≤◌, length, IfOk};
ghost use Rattle.std.specs.List.{AllByRecursion};
ghost use Rattle.serde_json.specs.View.{view, items_view};
ghost use Rattle.wal_shape.specs.Shape.{shard_count};
ghost use Rattle.wal_event.specs.Event.{IsSchedule, IsEventWithin};
ghost use Rattle.wal_schedule.specs.Grammar as grammar;
ghost use Rattle.wal_schedule.specs.Grammar.{IsRead};
ghost use Rattle.wal_schedule.specs.inside.Grammar as parts;
ghost use Rattle.wal_schedule.specs.inside.Grammar.{IsHead, Tells, TellsEvents};
ghost use Rattle.wal_schedule.specs.inside.Reading.{Gives, Reads};

use crate::fault::Fault;
use crate::field::{has, items_at, key_count, list_at, whole_at};
use crate::spelled::{count_with, event_in, owners_at};
use serde_json::Value;
use std::alloc::{AllocError, AllocFailed, Global};
use wal_event::{Event, Events, Schedule};
use wal_shape::{Format, Shards, is_committee};

/// The most events of a schedule.
const MOST_EVENTS: usize = 65_536;

/// The most faulty shards.
const MOST_FAULTS: u64 = 333;

/// The last epoch.
const LAST_EPOCH: u64 = 65_535;

/// Why a text is not read as a schedule, in the order in which the causes are looked at.
#[derive(Clone, Copy, Debug, PartialEq, Eq, Drop)]
pub enum ScheduleError {
    /// The text is not JSON.
    NotJson,
    /// The value is no object with the keys of a schedule and fit values, or `events` is no list of
    /// objects.
    BadSchedule,
    /// There are more than 65,536 events.
    TooMany,
    /// The first event that is none, counted from 1.
    BadEvent(u32),
    /// Memory ran out.
    Memory,
}

impl From<AllocError> for ScheduleError {
    ghost use Rattle.std.specs.Prelude.{◌≡◌};
    ghost use Rattle.wal_schedule.specs.declared.read.ScheduleError.TheVariants.{Memory};

    ghost from_gives = { λ _ e. e ≡ Memory };

    fn from(_e: AllocError) -> ScheduleError {
        ScheduleError::Memory
    }
}

impl<T: Drop> From<AllocFailed<T>> for ScheduleError {
    ghost use Rattle.std.specs.Prelude.{◌≡◌};
    ghost use Rattle.wal_schedule.specs.declared.read.ScheduleError.TheVariants.{Memory};

    ghost from_gives = { λ _ e. e ≡ Memory };

    fn from(_e: AllocFailed<T>) -> ScheduleError {
        ScheduleError::Memory
    }
}

/// What a schedule says besides its events.
#[derive(Drop)]
struct Head {
    f: u32,
    epoch: u32,
    format: Format,
    owners: Shards,
    faulty: Shards,
}

/// The number of the format, which is 1 where it is missing.
fn format_number(value: &Value) -> Result<u64, Fault>
    ensures { Reads result (grammar.format_number (view value.now)) }
{
    if has(value, "format") {
        whole_at(value, "format", 2)
    } else {
        Ok(1)
    }
}

/// The format in which blobs are written.
fn format_at(value: &Value) -> Result<Format, Fault>
    ensures { Reads result (grammar.format_at (view value.now)) }
{
    let number = format_number(value)?;
    if number == 1 {
        return Ok(Format::One);
    }
    if number == 2 {
        return Ok(Format::Two);
    }
    Err(Fault::Bad)
}

/// What a schedule says besides its events.
#[tactic(auto, unfolding(crate::specs::Grammar::head_of))]
fn head_in(alloc: Global, value: &Value) -> Result<Head, Fault>
    ensures read { Reads result (grammar.head_of (view value.now)) }
    ensures range { IfOk result IsHead }
{
    let f = whole_at(value, "f", MOST_FAULTS)? as u32;
    let epoch = whole_at(value, "epoch", LAST_EPOCH)? as u32;
    let format = format_at(value)?;
    head_with(alloc, value, f, epoch, format)
}

/// The head of these numbers, with the lists that the schedule has.
fn head_with(
    alloc: Global,
    value: &Value,
    f: u32,
    epoch: u32,
    format: Format,
) -> Result<Head, Fault>
    requires f { f ≤ 333 }
    requires epoch { epoch ≤ 65535 }
    ensures read { Reads result (parts.head_with f epoch format (view value.now)) }
    ensures range { IfOk result IsHead }
{
    let owners = owners_at(alloc, value, (3 * f + 1) as u16)?;
    let faulty = list_at(alloc, value, "faulty")?;
    if f < 1 || !is_committee(&owners, &faulty, 3 * f + 1) {
        return Err(Fault::Bad);
    }
    if key_count(value) != count_with(value, "owners", count_with(value, "format", 4)) {
        return Err(Fault::Bad);
    }
    Ok(Head {
        f,
        epoch,
        format,
        owners,
        faulty,
    })
}

/// Whether all values are objects.
fn all_objects(items: &[Value]) -> bool
    ensures { result ≡ grammar.all_objects (items_view items.now) }
{
    for item in items {
        if !item.is_object() {
            return false;
        }
    }
    true
}

/// The list of objects under `events`.
fn objects_at(value: &Value) -> Result<&[Value], Fault>
    ensures { Gives (λ items. items_view items.now) result (grammar.objects_at (view value.now)) }
{
    let items = items_at(value, "events")?;
    if all_objects(items) {
        Ok(items)
    } else {
        Err(Fault::Bad)
    }
}

/// The events that the values are, or the number of the first value that is none.
fn events_in(alloc: Global, items: &[Value], f: u32) -> Result<Events, ScheduleError>
    requires count { length items.now ≤ 65536 }
    requires faults { f ≤ 333 }
    ensures read { TellsEvents result (grammar.events_of f 1 (items_view items.now)) }
    ensures range { IfOk result (AllByRecursion (IsEventWithin (shard_count f))) }
    ensures count { IfOk result (λ events. length events ≤ 65536) }
{
    let mut events = Vec::with_capacity(alloc, items.len())?;
    for item in items {
        match event_in(alloc, item, f) {
            Ok(event) => events.push(event)?,
            Err(Fault::Bad) => return Err(ScheduleError::BadEvent(events.len() as u32 + 1)),
            Err(Fault::Memory) => return Err(ScheduleError::Memory),
        }
    }
    Ok(Events::from_vec(events))
}

/// The head and the events' values, or why the value is no schedule.
fn parts_in(alloc: Global, value: &Value) -> Result<(Head, &[Value]), Fault>
    ensures read { Gives (λ p. (p.0, items_view p.1.now))
        result (grammar.parts_of (view value.now)) }
    ensures range { IfOk result (λ p. IsHead p.0) }
{
    let head = head_in(alloc, value)?;
    let items = objects_at(value)?;
    Ok((head, items))
}

/// The schedule that a value is.
#[tactic(auto, unfolding(crate::specs::Grammar::schedule_of))]
fn schedule_in(alloc: Global, value: &Value) -> Result<Schedule, ScheduleError>
    ensures read { Tells result (grammar.schedule_of (view value.now)) }
    ensures range { IfOk result IsSchedule }
{
    let (head, items) = match parts_in(alloc, value) {
        Ok(parts) => parts,
        Err(Fault::Bad) => return Err(ScheduleError::BadSchedule),
        Err(Fault::Memory) => return Err(ScheduleError::Memory),
    };
    if items.len() > MOST_EVENTS {
        return Err(ScheduleError::TooMany);
    }
    let events = match events_in(alloc, items, head.f) {
        Ok(events) => events,
        Err(error) => return Err(error),
    };
    Ok(Schedule {
        f: head.f,
        epoch: head.epoch,
        format: head.format,
        owners: head.owners,
        faulty: head.faulty,
        events,
    })
}

/// Reads a schedule.
///
/// It is a JSON object with the keys `f` (1 to 333), `epoch` (0 to 65,535), `faulty` (the faulty
/// shards, ascending), `events` (a list of objects), and possibly `format` (1 or 2, and 1 if it
/// is missing) and `owners` (the node of each of the `3f + 1` shards, and the shard's own number
/// if it is missing). With a faulty shard every shard of its node is faulty. A key that is
/// repeated has its last value. Of several causes of a refusal the first in the order of
/// `ScheduleError` is told.
pub fn read_schedule(alloc: Global, text: &[u8]) -> Result<Schedule, ScheduleError>
    ensures read { IsRead text.now result }
    ensures range { IfOk result IsSchedule }
{
    let value = match Value::from_slice(alloc, text) {
        Ok(value) => value,
        Err(e) => {
            if e.is_memory() {
                return Err(ScheduleError::Memory);
            }
            return Err(ScheduleError::NotJson);
        }
    };
    schedule_in(alloc, &value)
}
