//! Events as JSON objects.

ghost use Rattle.std.specs.Prelude.{◌≡◌, ◌+◌, ◌<◌, ◌≤◌, Some, IfOk};
ghost use Rattle.std.specs.List.{range_with_len};
ghost use Rattle.wal_event.specs.Event.{Fits, event_fits};
ghost use Rattle.serde_json.specs.View.{view, items_view};
ghost use Rattle.wal_schedule.specs.Reading.{given, with_keys};
ghost use Rattle.wal_schedule.specs.Grammar as grammar;
ghost use Rattle.wal_schedule.specs.inside.Grammar as parts;
ghost use Rattle.wal_schedule.specs.inside.Reading.{Reads};

use crate::fault::Fault;
use crate::field::{
    axis_at, bytes_at, has, id_at, items_at, key_count, list_at, number_at, shard_at, side_at,
    text_at, whole_at,
};
use serde_json::Value;
use std::alloc::Global;
use wal_event::{Event, Replies, Reply, fits};
use wal_shape::Shards;

/// The greatest number of 32 bits.
const MOST_32: u64 = 4_294_967_295;

/// The event, where the object has this number of keys.
fn event_with(value: &Value, count: usize, event: Event) -> Result<Event, Fault>
    ensures { Reads result (with_keys count (view value.now) event) }
{
    if key_count(value) == count {
        Ok(event)
    } else {
        Err(Fault::Bad)
    }
}

/// The reply, where the object has this number of keys.
fn reply_with(value: &Value, count: usize, reply: Reply) -> Result<Reply, Fault>
    ensures { Reads result (with_keys count (view value.now) reply) }
{
    if key_count(value) == count {
        Ok(reply)
    } else {
        Err(Fault::Bad)
    }
}

/// A true reply.
fn true_reply(value: &Value) -> Result<Reply, Fault>
    ensures { Reads result (grammar.true_reply_of (view value.now)) }
{
    let shard = number_at(value, "true")?;
    let side = side_at(value)?;
    reply_with(value, 2, Reply::True { side, shard })
}

/// A reply of bytes.
fn bytes_reply(alloc: Global, value: &Value) -> Result<Reply, Fault>
    ensures { Reads result (grammar.bytes_reply_of (view value.now)) }
{
    let bytes = bytes_at(alloc, value, "bytes")?;
    reply_with(value, 1, Reply::Bytes(bytes))
}

/// A reply.
fn reply_in(alloc: Global, value: &Value) -> Result<Reply, Fault>
    ensures { Reads result (grammar.reply_of (view value.now)) }
{
    if has(value, "true") {
        true_reply(value)
    } else {
        bytes_reply(alloc, value)
    }
}

/// Replies.
fn replies_in(alloc: Global, items: &[Value]) -> Result<Replies, Fault>
    ensures { Reads result (grammar.replies_of (items_view items.now)) }
{
    let mut replies = Vec::with_capacity(alloc, items.len())?;
    for item in items {
        let reply = reply_in(alloc, item)?;
        replies.push(reply)?;
    }
    Ok(Replies::from_vec(replies))
}

/// The replies under their key.
fn replies_at(alloc: Global, value: &Value) -> Result<Replies, Fault>
    ensures { Reads result (grammar.replies_at (view value.now)) }
{
    replies_in(alloc, items_at(value, "replies")?)
}

/// The number of each of n shards.
fn own_numbers(alloc: Global, n: u16) -> Result<Shards, Fault>
    ensures { Reads result (Some (range_with_len 0 n)) }
{
    let mut numbers = Vec::with_capacity(alloc, usize::from(n))?;
    for number in 0..n {
        numbers.push(number)?;
    }
    Ok(Shards::from_vec(numbers))
}

/// The owners under their key, and where it is missing the number of each of n shards.
pub(crate) fn owners_at(alloc: Global, value: &Value, n: u16) -> Result<Shards, Fault>
    ensures { Reads result (grammar.owners_at n (view value.now)) }
{
    if has(value, "owners") {
        list_at(alloc, value, "owners")
    } else {
        own_numbers(alloc, n)
    }
}

/// A registration.
#[tactic(auto, unfolding(crate::specs::Grammar::register_of))]
fn register_in(value: &Value) -> Result<Event, Fault>
    ensures { Reads result (grammar.register_of (view value.now)) }
{
    let id = id_at(value)?;
    let until = whole_at(value, "until", MOST_32)? as u32;
    event_with(value, 3, Event::Register { id, until })
}

/// A write.
#[tactic(auto, unfolding(crate::specs::Grammar::write_of))]
fn write_in(alloc: Global, value: &Value) -> Result<Event, Fault>
    ensures { Reads result (grammar.write_of (view value.now)) }
{
    let blob = bytes_at(alloc, value, "blob")?;
    let to = list_at(alloc, value, "to")?;
    event_with(value, 3, Event::Write { blob, to })
}

/// A message that is sent.
#[tactic(auto, unfolding(crate::specs::Grammar::send_of))]
fn send_in(alloc: Global, value: &Value) -> Result<Event, Fault>
    ensures { Reads result (grammar.send_of (view value.now)) }
{
    let at = side_at(value)?;
    let shard = shard_at(value)?;
    let bytes = bytes_at(alloc, value, "bytes")?;
    event_with(value, 4, Event::Send { at, shard, bytes })
}

/// An acknowledgement.
#[tactic(auto, unfolding(crate::specs::Grammar::ack_of))]
fn ack_in(value: &Value) -> Result<Event, Fault>
    ensures { Reads result (grammar.ack_of (view value.now)) }
{
    let shard = shard_at(value)?;
    let id = id_at(value)?;
    event_with(value, 3, Event::Ack { shard, id })
}

/// An attestation.
#[tactic(auto, unfolding(crate::specs::Grammar::attest_of))]
fn attest_in(value: &Value) -> Result<Event, Fault>
    ensures { Reads result (grammar.attest_of (view value.now)) }
{
    let shard = shard_at(value)?;
    let id = id_at(value)?;
    event_with(value, 3, Event::Attest { shard, id })
}

/// A read.
#[tactic(auto, unfolding(crate::specs::Grammar::read_of))]
fn read_in(alloc: Global, value: &Value) -> Result<Event, Fault>
    ensures { Reads result (grammar.read_of (view value.now)) }
{
    let id = id_at(value)?;
    let replies = replies_at(alloc, value)?;
    event_with(value, 3, Event::Read { id, replies })
}

/// A recovery.
#[tactic(auto, unfolding(crate::specs::Grammar::recover_of))]
fn recover_in(alloc: Global, value: &Value) -> Result<Event, Fault>
    ensures { Reads result (grammar.recover_of (view value.now)) }
{
    let at = side_at(value)?;
    let shard = shard_at(value)?;
    let axis = axis_at(value)?;
    let id = id_at(value)?;
    let replies = replies_at(alloc, value)?;
    let event = Event::Recover {
        at,
        shard,
        axis,
        id,
        replies,
    };
    event_with(value, 6, event)
}

/// A shard that forgets.
#[tactic(auto, unfolding(crate::specs::Grammar::forget_of))]
fn forget_in(value: &Value) -> Result<Event, Fault>
    ensures { Reads result (grammar.forget_of (view value.now)) }
{
    let at = side_at(value)?;
    let shard = shard_at(value)?;
    let id = id_at(value)?;
    event_with(value, 4, Event::Forget { at, shard, id })
}

/// The number of keys, where one more is there.
pub(crate) fn count_with(value: &Value, key: &str, count: usize) -> usize
    requires { count < 1000 }
    ensures { result ≡ count + grammar.one_if_has key.now (view value.now) }
{
    if has(value, key) { count + 1 } else { count }
}

/// The beginning of a change of epochs.
#[tactic(auto, unfolding(crate::specs::Grammar::begin_of))]
fn begin_in(alloc: Global, value: &Value, n: u16) -> Result<Event, Fault>
    ensures { Reads result (grammar.begin_of n (view value.now)) }
{
    let owners = owners_at(alloc, value, n)?;
    let faulty = list_at(alloc, value, "faulty")?;
    let stays = list_at(alloc, value, "stays")?;
    let event = Event::Begin {
        owners,
        faulty,
        stays,
    };
    event_with(value, count_with(value, "owners", 3), event)
}

/// A shard that is ready.
#[tactic(auto, unfolding(crate::specs::Grammar::ready_of))]
fn ready_in(value: &Value) -> Result<Event, Fault>
    ensures { Reads result (grammar.ready_of (view value.now)) }
{
    let shard = shard_at(value)?;
    event_with(value, 2, Event::Ready { shard })
}

/// The end of a change of epochs.
#[tactic(auto, unfolding(crate::specs::Grammar::finish_of))]
fn finish_in(value: &Value) -> Result<Event, Fault>
    ensures { Reads result (grammar.finish_of (view value.now)) }
{
    event_with(value, 1, Event::Finish)
}

/// A request for a certificate.
#[tactic(auto, unfolding(crate::specs::Grammar::certificate_of))]
fn certificate_in(value: &Value) -> Result<Event, Fault>
    ensures { Reads result (grammar.certificate_of (view value.now)) }
{
    let id = id_at(value)?;
    event_with(value, 2, Event::Certificate { id })
}

/// A count of holders.
#[tactic(auto, unfolding(crate::specs::Grammar::holders_of))]
fn holders_in(value: &Value) -> Result<Event, Fault>
    ensures { Reads result (grammar.holders_of (view value.now)) }
{
    let id = id_at(value)?;
    event_with(value, 2, Event::Holders { id })
}

/// The event of a name that comes with an epoch's change or asks a question.
fn later_named(alloc: Global, value: &Value, n: u16, name: &str) -> Result<Event, Fault>
    ensures { Reads result (grammar.later_named n (view value.now) name.now) }
{
    if name == "begin" {
        return begin_in(alloc, value, n);
    }
    if name == "ready" {
        return ready_in(value);
    }
    if name == "finish" {
        return finish_in(value);
    }
    if name == "certificate" {
        return certificate_in(value);
    }
    if name == "holders" {
        return holders_in(value);
    }
    Err(Fault::Bad)
}

/// The event of a name, where it is none of the first four.
fn held_named(alloc: Global, value: &Value, n: u16, name: &str) -> Result<Event, Fault>
    ensures { Reads result (parts.held_named n (view value.now) name.now) }
{
    if name == "attest" {
        return attest_in(value);
    }
    if name == "read" {
        return read_in(alloc, value);
    }
    if name == "recover" {
        return recover_in(alloc, value);
    }
    if name == "forget" {
        return forget_in(value);
    }
    later_named(alloc, value, n, name)
}

/// The event of a name.
fn event_named(alloc: Global, value: &Value, n: u16, name: &str) -> Result<Event, Fault>
    ensures { Reads result (grammar.event_named n (view value.now) name.now) }
{
    if name == "register" {
        return register_in(value);
    }
    if name == "write" {
        return write_in(alloc, value);
    }
    if name == "send" {
        return send_in(alloc, value);
    }
    if name == "ack" {
        return ack_in(value);
    }
    held_named(alloc, value, n, name)
}

/// The event, where its numbers and lists are in range.
fn fitting(event: Event, f: u32) -> Result<Event, Fault>
    ensures read { Reads result (given (event_fits f event) event) }
    ensures fits { IfOk result (λ e. Fits f e) }
{
    if fits(&event, f) {
        Ok(event)
    } else {
        Err(Fault::Bad)
    }
}

/// The event that a value is, where its numbers and lists are in range.
#[tactic(auto, unfolding(crate::specs::Grammar::event_of))]
pub(crate) fn event_in(alloc: Global, value: &Value, f: u32) -> Result<Event, Fault>
    requires { f ≤ 333 }
    ensures read { Reads result (grammar.event_of f (view value.now)) }
    ensures fits { IfOk result (λ event. Fits f event) }
{
    let name = text_at(value, "do")?;
    fitting(event_named(alloc, value, (3 * f + 1) as u16, name)?, f)
}
