//! Whether the numbers and the lists of an event are in range.

ghost use Rattle.std.specs.Prelude.{◌≡◌, ◌↔◌, ◌≤◌, IsTrue};
ghost use Rattle.std.specs.List.{AllByRecursion, list_all};
ghost use Rattle.wal_event.specs.Event.{AreRepliesWithin, Fits, IsReply, IsEventWithin, event_fits};
ghost use Rattle.wal_event.specs.Event.{replies_within, reply_within, within};

use crate::event::{Event, Replies, Reply};
use wal_shape::{MOST_BYTES, is_ascending, is_committee};

/// The most replies of one reader.
const MOST_REPLIES: usize = 4096;

/// The most faulty shards.
const MOST_FAULTS: u32 = 333;

/// The latest epoch until which a blob may be kept.
const LAST_UNTIL: u32 = 65_536;

/// Whether a reply is of one of n shards.
fn is_reply(reply: &Reply, n: u32) -> bool
    ensures exact { IsTrue result ↔ IsReply n reply.now }
    ensures test { result ≡ reply_within n reply.now }
{
    match reply {
        Reply::True { shard, .. } => u32::from(*shard) < n,
        Reply::Bytes(_) => true,
    }
}

/// Whether each reply is of one of n shards.
fn each_is_reply(replies: &[Reply], n: u32) -> bool
    ensures exact { IsTrue result ↔ AllByRecursion (IsReply n) replies.now }
    ensures test { result ≡ list_all (reply_within n) replies.now }
{
    replies.iter().all(|reply| is_reply(reply, n))
}

/// Whether there are at most 4,096 replies, of n shards.
fn are_replies(replies: &Replies, n: u32) -> bool
    ensures exact { IsTrue result ↔ AreRepliesWithin n replies.now }
    ensures test { result ≡ replies_within n replies.now }
{
    let replies = replies.as_slice();
    replies.len() <= MOST_REPLIES && each_is_reply(replies, n)
}

/// Whether the numbers and the lists of an event are in range for n shards.
pub(crate) fn is_within(event: &Event, n: u32) -> bool
    requires { n ≤ 1000 }
    ensures exact { IsTrue result ↔ IsEventWithin n event.now }
    ensures test { result ≡ within n event.now }
{
    match event {
        Event::Register { until, .. } => *until <= LAST_UNTIL,
        Event::Write { blob, to } => {
            blob.as_slice().len() as u64 <= MOST_BYTES && is_ascending(to, n)
        }
        Event::Send { shard, .. }
        | Event::Ack { shard, .. }
        | Event::Attest { shard, .. }
        | Event::Forget { shard, .. }
        | Event::Ready { shard } => u32::from(*shard) < n,
        Event::Read { replies, .. } => are_replies(replies, n),
        Event::Recover { shard, replies, .. } => u32::from(*shard) < n && are_replies(replies, n),
        Event::Begin {
            owners,
            faulty,
            stays,
        } => is_committee(owners, faulty, n) && is_ascending(stays, n),
        Event::Finish | Event::Certificate { .. } | Event::Holders { .. } => true,
    }
}

/// Whether the event is in range for a committee of `3f + 1` shards, of which at most f are faulty:
/// f is from 1 to 333; each shard is below `3f + 1`; lists of shards ascend strictly; owners are
/// one node for each shard, each below `3f + 1`, and the faulty shards of a new committee are
/// closed by them; a blob has at most 16,777,216 bytes; `until` is at most 65,536; a reader has at
/// most 4,096 replies.
pub fn fits(event: &Event, f: u32) -> bool
    ensures exact { IsTrue result ↔ Fits f event.now }
    ensures test { result ≡ event_fits f event.now }
{
    (1..=MOST_FAULTS).contains(&f) && is_within(event, 3 * f + 1)
}
