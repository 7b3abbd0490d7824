//! Writing a schedule.

ghost use Rattle.std.specs.Prelude.{◌≡◌, [], IfOk, OnOk, Ok, codes, string_bytes};
ghost use Rattle.std.specs.List.{AllByRecursion};
ghost use Rattle.hex.specs.Hex.{IsBytes};
ghost use Rattle.serde_json.specs.Data.{string, object, member, no_members};
ghost use Rattle.serde_json.specs.View.{view, members_view};
ghost use Rattle.serde_json.specs.Written.{compact_text};
ghost use Rattle.wal_event.specs.declared.event.Event.TheVariants as kind;
ghost use Rattle.wal_event.specs.Event.{IsSchedule};
ghost use Rattle.wal_schedule.specs.Grammar.{IsRead};
ghost use Rattle.wal_schedule.specs.Writing as json_of;
ghost use Rattle.wal_schedule.specs.Writing.{HasBytes, HasReplyBytes, IsId};
ghost use Rattle.wal_schedule.specs.inside.Writing.{IsPut};

use serde_json::{Map, Value, push, put};
use std::alloc::{AllocError, Global};
use wal_event::{Event, Reply, Schedule};
use wal_shape::{Axis, BlobId, Format, Side};

/// Puts a text under a key.
fn put_text(
    map: &mut Map<String, Value>,
    alloc: Global,
    key: &str,
    text: &str,
) -> Result<(), AllocError>
    ensures { OnOk result (IsPut key.now (string text.now) map.old.entries map.new.entries) }
{
    let value = Value::try_from_str(alloc, text)?;
    put(map, alloc, key, value)
}

/// Puts a number under a key.
fn put_number(
    map: &mut Map<String, Value>,
    alloc: Global,
    key: &str,
    number: u32,
) -> Result<(), AllocError>
    ensures { OnOk result
        (IsPut key.now (json_of.number_data number) map.old.entries map.new.entries) }
{
    put(map, alloc, key, Value::from(number))
}

/// Puts bytes under a key, in lower-case digits.
fn put_bytes(
    map: &mut Map<String, Value>,
    alloc: Global,
    key: &str,
    bytes: &[u8],
) -> Result<(), AllocError>
    ensures value { OnOk result
        (IsPut key.now (json_of.bytes_data bytes.now) map.old.entries map.new.entries) }
    ensures bytes { IsBytes bytes.now }
{
    let digits = hex::encode(alloc, bytes)?;
    put(map, alloc, key, Value::from(digits))
}

/// A list of numbers.
fn list_value(alloc: Global, numbers: &[u16]) -> Result<Value, AllocError>
    ensures { IfOk result (λ v. view v ≡ json_of.list_data numbers.now) }
{
    let mut list = Vec::with_capacity(alloc, numbers.len())?;
    for number in numbers {
        push(&mut list, Value::from(*number))?;
    }
    Ok(Value::from(list))
}

/// Puts a list of numbers under a key.
fn put_list(
    map: &mut Map<String, Value>,
    alloc: Global,
    key: &str,
    numbers: &[u16],
) -> Result<(), AllocError>
    ensures { OnOk result
        (IsPut key.now (json_of.list_data numbers.now) map.old.entries map.new.entries) }
{
    let list = list_value(alloc, numbers)?;
    put(map, alloc, key, list)
}

/// Puts a shard under its key.
fn put_shard(map: &mut Map<String, Value>, alloc: Global, shard: u16) -> Result<(), AllocError>
    ensures { OnOk result
        (IsPut (codes "shard") (json_of.number_data shard) map.old.entries map.new.entries) }
{
    put_number(map, alloc, "shard", u32::from(shard))
}

/// Puts an identifier under its key.
fn put_id(map: &mut Map<String, Value>, alloc: Global, id: BlobId) -> Result<(), AllocError>
    ensures value { OnOk result
        (IsPut (codes "id") (json_of.id_data id) map.old.entries map.new.entries) }
    ensures bytes { IsId id }
{
    put_bytes(map, alloc, "id", &id.0)
}

/// Puts the name of a side under its key.
fn put_side(map: &mut Map<String, Value>, alloc: Global, side: Side) -> Result<(), AllocError>
    ensures { OnOk result
        (IsPut (codes "at") (json_of.side_data side) map.old.entries map.new.entries) }
{
    match side {
        Side::Now => put_text(map, alloc, "at", "now"),
        Side::Next => put_text(map, alloc, "at", "next"),
    }
}

/// Puts the name of an axis under its key.
fn put_axis(map: &mut Map<String, Value>, alloc: Global, axis: Axis) -> Result<(), AllocError>
    ensures { OnOk result
        (IsPut (codes "axis") (json_of.axis_data axis) map.old.entries map.new.entries) }
{
    match axis {
        Axis::Primary => put_text(map, alloc, "axis", "primary"),
        Axis::Secondary => put_text(map, alloc, "axis", "secondary"),
    }
}

/// The number of a format.
fn format_value(format: Format) -> Value
    ensures { view result ≡ json_of.format_data format }
{
    match format {
        Format::One => Value::from(1u16),
        Format::Two => Value::from(2u16),
    }
}

/// Puts what a reply has into an object that has nothing.
fn put_reply(map: &mut Map<String, Value>, alloc: Global, reply: &Reply) -> Result<(), AllocError>
    requires { map.old.entries ≡ [] }
    ensures value { OnOk result
        (object (members_view map.new.entries) ≡ json_of.reply_data reply.now) }
    ensures bytes { OnOk result (HasReplyBytes reply.now) }
{
    match reply {
        Reply::True { side, shard } => {
            put_side(map, alloc, *side)?;
            put_number(map, alloc, "true", u32::from(*shard))
        }
        Reply::Bytes(bytes) => put_bytes(map, alloc, "bytes", bytes.as_slice()),
    }
}

/// A reply.
fn reply_value(alloc: Global, reply: &Reply) -> Result<Value, AllocError>
    ensures value { IfOk result (λ v. view v ≡ json_of.reply_data reply.now) }
    ensures bytes { IfOk result (λ _. HasReplyBytes reply.now) }
{
    let mut map = Map::new(alloc);
    put_reply(&mut map, alloc, reply)?;
    Ok(Value::from(map))
}

/// Replies.
fn replies_value(alloc: Global, replies: &[Reply]) -> Result<Value, AllocError>
    ensures value { IfOk result (λ v. view v ≡ json_of.replies_data replies.now) }
    ensures bytes { IfOk result (λ _. AllByRecursion HasReplyBytes replies.now) }
{
    let mut list = Vec::with_capacity(alloc, replies.len())?;
    for reply in replies {
        let value = reply_value(alloc, reply)?;
        push(&mut list, value)?;
    }
    Ok(Value::from(list))
}

/// Puts replies under their key.
fn put_replies(
    map: &mut Map<String, Value>,
    alloc: Global,
    replies: &[Reply],
) -> Result<(), AllocError>
    ensures value { OnOk result
        (IsPut (codes "replies") (json_of.replies_data replies.now)
        map.old.entries map.new.entries) }
    ensures bytes { OnOk result (AllByRecursion HasReplyBytes replies.now) }
{
    let list = replies_value(alloc, replies)?;
    put(map, alloc, "replies", list)
}

/// Puts the name of an event and an identifier into an object that has nothing.
fn put_about(
    map: &mut Map<String, Value>,
    alloc: Global,
    name: &str,
    id: BlobId,
) -> Result<(), AllocError>
    requires { map.old.entries ≡ [] }
    ensures value { OnOk result (members_view map.new.entries
        ≡ member (codes "do") (string name.now)
        (member (codes "id") (json_of.id_data id) no_members)) }
    ensures bytes { OnOk result (IsId id) }
{
    put_text(map, alloc, "do", name)?;
    put_id(map, alloc, id)
}

/// Puts the name of an event, an identifier and a shard into an object that has nothing.
fn put_signed(
    map: &mut Map<String, Value>,
    alloc: Global,
    name: &str,
    id: BlobId,
    shard: u16,
) -> Result<(), AllocError>
    requires { map.old.entries ≡ [] }
    ensures value { OnOk result
        (object (members_view map.new.entries)
        ≡ json_of.about name.now id (json_of.of_shard shard)) }
    ensures bytes { OnOk result (IsId id) }
{
    put_about(map, alloc, name, id)?;
    put_shard(map, alloc, shard)
}

/// A registration.
fn put_register(
    map: &mut Map<String, Value>,
    alloc: Global,
    id: BlobId,
    until: u32,
) -> Result<(), AllocError>
    requires { map.old.entries ≡ [] }
    ensures value { OnOk result
        (object (members_view map.new.entries) ≡ json_of.event_data (kind.Register id until)) }
    ensures bytes { OnOk result (HasBytes (kind.Register id until)) }
{
    put_about(map, alloc, "register", id)?;
    put_number(map, alloc, "until", until)
}

/// A write.
fn put_write(
    map: &mut Map<String, Value>,
    alloc: Global,
    blob: &[u8],
    to: &[u16],
) -> Result<(), AllocError>
    requires { map.old.entries ≡ [] }
    ensures value { OnOk result
        (object (members_view map.new.entries) ≡ json_of.event_data (kind.Write blob.now to.now)) }
    ensures bytes { OnOk result (HasBytes (kind.Write blob.now to.now)) }
{
    put_bytes(map, alloc, "blob", blob)?;
    put_text(map, alloc, "do", "write")?;
    put_list(map, alloc, "to", to)
}

/// A message that is sent.
fn put_send(
    map: &mut Map<String, Value>,
    alloc: Global,
    at: Side,
    shard: u16,
    bytes: &[u8],
) -> Result<(), AllocError>
    requires { map.old.entries ≡ [] }
    ensures value { OnOk result
        (object (members_view map.new.entries)
        ≡ json_of.event_data (kind.Send at shard bytes.now)) }
    ensures bytes { OnOk result (HasBytes (kind.Send at shard bytes.now)) }
{
    put_side(map, alloc, at)?;
    put_bytes(map, alloc, "bytes", bytes)?;
    put_text(map, alloc, "do", "send")?;
    put_shard(map, alloc, shard)
}

/// A read.
fn put_read(
    map: &mut Map<String, Value>,
    alloc: Global,
    id: BlobId,
    replies: &[Reply],
) -> Result<(), AllocError>
    requires { map.old.entries ≡ [] }
    ensures value { OnOk result
        (object (members_view map.new.entries) ≡ json_of.event_data (kind.Read id replies.now)) }
    ensures bytes { OnOk result (HasBytes (kind.Read id replies.now)) }
{
    put_about(map, alloc, "read", id)?;
    put_replies(map, alloc, replies)
}

/// A recovery.
fn put_recover(
    map: &mut Map<String, Value>,
    alloc: Global,
    at: Side,
    shard: u16,
    axis: Axis,
    id: BlobId,
    replies: &[Reply],
) -> Result<(), AllocError>
    requires { map.old.entries ≡ [] }
    ensures value { OnOk result
        (object (members_view map.new.entries)
        ≡ json_of.event_data (kind.Recover at shard axis id replies.now)) }
    ensures bytes { OnOk result (HasBytes (kind.Recover at shard axis id replies.now)) }
{
    put_about(map, alloc, "recover", id)?;
    put_side(map, alloc, at)?;
    put_axis(map, alloc, axis)?;
    put_replies(map, alloc, replies)?;
    put_shard(map, alloc, shard)
}

/// A shard that forgets.
fn put_forget(
    map: &mut Map<String, Value>,
    alloc: Global,
    at: Side,
    shard: u16,
    id: BlobId,
) -> Result<(), AllocError>
    requires { map.old.entries ≡ [] }
    ensures value { OnOk result
        (object (members_view map.new.entries) ≡ json_of.event_data (kind.Forget at shard id)) }
    ensures bytes { OnOk result (HasBytes (kind.Forget at shard id)) }
{
    put_about(map, alloc, "forget", id)?;
    put_side(map, alloc, at)?;
    put_shard(map, alloc, shard)
}

/// The beginning of a change of epochs.
fn put_begin(
    map: &mut Map<String, Value>,
    alloc: Global,
    owners: &[u16],
    faulty: &[u16],
    stays: &[u16],
) -> Result<(), AllocError>
    requires { map.old.entries ≡ [] }
    ensures value { OnOk result
        (object (members_view map.new.entries)
        ≡ json_of.event_data (kind.Begin owners.now faulty.now stays.now)) }
    ensures bytes { OnOk result (HasBytes (kind.Begin owners.now faulty.now stays.now)) }
{
    put_text(map, alloc, "do", "begin")?;
    put_list(map, alloc, "faulty", faulty)?;
    put_list(map, alloc, "owners", owners)?;
    put_list(map, alloc, "stays", stays)
}

/// A shard that is ready.
fn put_ready(map: &mut Map<String, Value>, alloc: Global, shard: u16) -> Result<(), AllocError>
    requires { map.old.entries ≡ [] }
    ensures value { OnOk result
        (object (members_view map.new.entries) ≡ json_of.event_data (kind.Ready shard)) }
    ensures bytes { OnOk result (HasBytes (kind.Ready shard)) }
{
    put_text(map, alloc, "do", "ready")?;
    put_shard(map, alloc, shard)
}

/// Puts what an event has into an object that has nothing.
fn put_event(map: &mut Map<String, Value>, alloc: Global, event: &Event) -> Result<(), AllocError>
    requires { map.old.entries ≡ [] }
    ensures value { OnOk result
        (object (members_view map.new.entries) ≡ json_of.event_data event.now) }
    ensures bytes { OnOk result (HasBytes event.now) }
{
    match event {
        Event::Register { id, until } => put_register(map, alloc, *id, *until),
        Event::Write { blob, to } => put_write(map, alloc, blob.as_slice(), to.as_slice()),
        Event::Send { at, shard, bytes } => put_send(map, alloc, *at, *shard, bytes.as_slice()),
        Event::Ack { shard, id } => put_signed(map, alloc, "ack", *id, *shard),
        Event::Attest { shard, id } => put_signed(map, alloc, "attest", *id, *shard),
        Event::Read { id, replies } => put_read(map, alloc, *id, replies.as_slice()),
        Event::Recover {
            at,
            shard,
            axis,
            id,
            replies,
        } => put_recover(map, alloc, *at, *shard, *axis, *id, replies.as_slice()),
        Event::Forget { at, shard, id } => put_forget(map, alloc, *at, *shard, *id),
        Event::Begin {
            owners,
            faulty,
            stays,
        } => put_begin(
            map,
            alloc,
            owners.as_slice(),
            faulty.as_slice(),
            stays.as_slice(),
        ),
        Event::Ready { shard } => put_ready(map, alloc, *shard),
        Event::Finish => put_text(map, alloc, "do", "finish"),
        Event::Certificate { id } => put_about(map, alloc, "certificate", *id),
        Event::Holders { id } => put_about(map, alloc, "holders", *id),
    }
}

/// An event.
fn event_value(alloc: Global, event: &Event) -> Result<Value, AllocError>
    ensures value { IfOk result (λ v. view v ≡ json_of.event_data event.now) }
    ensures bytes { IfOk result (λ _. HasBytes event.now) }
{
    let mut map = Map::new(alloc);
    put_event(&mut map, alloc, event)?;
    Ok(Value::from(map))
}

/// Events.
fn events_value(alloc: Global, events: &[Event]) -> Result<Value, AllocError>
    ensures value { IfOk result (λ v. view v ≡ json_of.events_data events.now) }
    ensures bytes { IfOk result (λ _. AllByRecursion HasBytes events.now) }
{
    let mut list = Vec::with_capacity(alloc, events.len())?;
    for event in events {
        let value = event_value(alloc, event)?;
        push(&mut list, value)?;
    }
    Ok(Value::from(list))
}

/// Puts what a schedule has into an object that has nothing.
fn put_schedule(
    map: &mut Map<String, Value>,
    alloc: Global,
    schedule: &Schedule,
) -> Result<(), AllocError>
    requires { map.old.entries ≡ [] }
    ensures value { OnOk result
        (object (members_view map.new.entries) ≡ json_of.schedule_data schedule.now) }
    ensures bytes { OnOk result (AllByRecursion HasBytes schedule.now.events) }
{
    put_number(map, alloc, "epoch", schedule.epoch)?;
    let events = events_value(alloc, schedule.events.as_slice())?;
    put(map, alloc, "events", events)?;
    put_number(map, alloc, "f", schedule.f)?;
    put_list(map, alloc, "faulty", schedule.faulty.as_slice())?;
    put(map, alloc, "format", format_value(schedule.format))?;
    put_list(map, alloc, "owners", schedule.owners.as_slice())
}

/// The value of a schedule.
fn schedule_value(alloc: Global, schedule: &Schedule) -> Result<Value, AllocError>
    ensures value { IfOk result (λ v. view v ≡ json_of.schedule_data schedule.now) }
    ensures bytes { IfOk result (λ _. AllByRecursion HasBytes schedule.now.events) }
{
    let mut map = Map::new(alloc);
    put_schedule(&mut map, alloc, schedule)?;
    Ok(Value::from(map))
}

/// Writes a schedule as a JSON text, which `read_schedule` reads as the same schedule.
///
/// The keys of an object are in the order of their bytes, there is no space, digits are lower-case,
/// and `format` and `owners` are always there.
pub fn write_schedule(alloc: Global, schedule: &Schedule) -> Result<String, AllocError>
    requires { IsSchedule schedule.now }
    ensures read { IfOk result (λ text. IsRead (string_bytes text) (Ok schedule.now)) }
    ensures text { IfOk result
        (λ text. string_bytes text ≡ compact_text (json_of.schedule_data schedule.now)) }
{
    schedule_value(alloc, schedule)?.to_string(alloc)
}
