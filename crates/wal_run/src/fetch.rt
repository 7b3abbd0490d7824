//! The command that answers requests for ranges of blobs.

ghost use Rattle.std.specs.Prelude.{◌≡◌, ℕ, ◌≤◌, ◌++◌, List, None, codes, cond, IfOk, IfSome, OnOk};
ghost use Rattle.std.specs.Prelude.{length};
ghost use Rattle.wal_port.specs.Faults.{Rose};
ghost use Rattle.wal_frame.specs.Stream.{IsMalformed, IsStream};
ghost use Rattle.wal_gateway.specs.Requests.{no_blobs};
ghost use Rattle.wal_run.specs.Command.{IsResult, MayLeave, MayOwe};
ghost use Rattle.wal_run.specs.inside.Writing.{Does, DoesTold, PutsPiece};
ghost use Rattle.wal_run.specs.Fetching.{answer_text, fetching, found_text, is_collision};

use crate::answer::refuse;
use crate::finish::{COLLISION, NO_MEMORY, PutError, status_of};
use crate::lines::{add_collision, add_digits, add_number, add_short};
use crate::refusal::Refusal;
use std::alloc::{AllocError, Global};
use wal_frame::{Envelope, envelope};
use wal_gateway::{Found, Gateway, GetAnswer, first_request};
use wal_port::{Sink, put_all};
use wal_tree::Hash32;

/// Appends what was found, and a newline.
fn add_found(alloc: Global, text: &mut Vec<u8>, found: &Found) -> Result<(), AllocError>
    ensures { OnOk result (text.new.items ≡ text.old.items ++ found_text found.now) }
{
    match found {
        Found::Range(bytes) => {
            text.extend_from_slice(b"range ")?;
            add_digits(alloc, text, bytes.as_slice())?;
            text.extend_from_slice(b"\n")
        }
        Found::OutOfRange(length) => add_number(text, b"out of range ", u64::from(*length)),
        Found::Reject => text.extend_from_slice(b"reject\n"),
        Found::Short { have, need } => add_short(text, *have, *need),
        Found::NoMetadata => text.extend_from_slice(b"no metadata\n"),
        Found::Collision(clash) => add_collision(
            alloc,
            text,
            clash.left.bytes(),
            clash.right.bytes(),
        ),
    }
}

/// Whether two metadata collide.
fn is_clash(found: &Found) -> bool
    ensures { result ≡ is_collision found.now }
{
    matches!(found, Found::Collision(_))
}

/// Whether the blob was kept.
fn add_hit(text: &mut Vec<u8>, hit: bool) -> Result<(), AllocError>
    ensures { OnOk result
        (text.new.items ≡ text.old.items ++ cond hit (codes "hit ") (codes "miss ")) }
{
    if hit {
        text.extend_from_slice(b"hit ")
    } else {
        text.extend_from_slice(b"miss ")
    }
}

/// The line of an answer.
fn answer_line(alloc: Global, answer: &GetAnswer) -> Result<Vec<u8>, AllocError>
    ensures { IfOk result (λ line. line.items ≡ answer_text answer.now) }
{
    let mut line = Vec::new(alloc);
    if !is_clash(&answer.found) {
        add_hit(&mut line, answer.hit)?;
    }
    add_found(alloc, &mut line, &answer.found)?;
    Ok(line)
}

/// Writes the line of an answer, in memory of its own.
fn put_answer<K: Sink>(alloc: Global, answer: &GetAnswer, sink: &mut K) -> Result<(), PutError>
    ensures puts { PutsPiece (λ t. t ≡ answer_text answer.now) (K.written sink.old)
        (K.written sink.new) (Rose (K.faults sink.old) (K.faults sink.new)) result }
    ensures later { K.faults sink.old ≤ K.faults sink.new }
{
    let line = answer_line(alloc, answer)?;
    put_all(sink, &line)?;
    Ok(())
}

/// Answers the requests of a stream one after the other, up to a collision, and writes each line
/// before the next.
fn put_answers<H: Hash32, K: Sink>(
    alloc: Global,
    gateway: &mut Gateway<H>,
    stream: &[u8],
    sink: &mut K,
) -> u8
    requires few { length stream.now ≤ 134217728 }
    requires stream { (payloads : List (List ℕ)) × IsStream payloads stream.now }
    ensures does { (capacity : ℕ) → gateway.old ≡ no_blobs capacity → (payloads : List (List ℕ))
        → IsStream payloads stream.now
        → DoesTold H.digest (fetching H.digest capacity) payloads (K.written sink.old)
        (K.written sink.new) (Rose (K.faults sink.old) (K.faults sink.new)) result }
    ensures later { K.faults sink.old ≤ K.faults sink.new }
{
    let mut rest = stream;
    while let Some(asked) = first_request(rest) {
        let request = asked.request;
        match gateway.get_sent(alloc, &request.id, request.from, request.size, asked.sent) {
            Ok(answer) => {
                if let Err(error) = put_answer(alloc, &answer, sink) {
                    return status_of(error);
                }
                if is_clash(&answer.found) {
                    return COLLISION;
                }
            }
            Err(_) => return NO_MEMORY,
        }
        rest = asked.rest;
    }
    0
}

/// Answers the requests of a stream with a cache of so many blobs.
fn put_fetched<H: Hash32, K: Sink>(alloc: Global, capacity: u32, stream: &[u8], sink: &mut K) -> u8
    requires some { 1 ≤ capacity }
    requires most { capacity ≤ 64 }
    requires few { length stream.now ≤ 134217728 }
    requires stream { (payloads : List (List ℕ)) × IsStream payloads stream.now }
    ensures does { (payloads : List (List ℕ)) → IsStream payloads stream.now
        → DoesTold H.digest (fetching H.digest capacity) payloads (K.written sink.old)
        (K.written sink.new) (Rose (K.faults sink.old) (K.faults sink.new)) result }
    ensures later { K.faults sink.old ≤ K.faults sink.new }
{
    match Gateway::<H>::create(alloc, capacity) {
        Ok(mut gateway) => put_answers(alloc, &mut gateway, stream, sink),
        Err(_) => NO_MEMORY,
    }
}

/// The place where a stream is malformed, if it is. Takes no memory.
fn malformed_at(stream: &[u8]) -> Option<u64>
    ensures malformed { IfSome result (λ place. IsMalformed place stream.now) }
    ensures whole { result ≡ None → (payloads : List (List ℕ)) × IsStream payloads stream.now }
{
    let mut rest = stream;
    while !rest.is_empty() {
        match envelope(rest) {
            Envelope::Whole { rest: later, .. } => rest = later,
            _ => return Some((stream.len() - rest.len()) as u64),
        }
    }
    None
}

/// Answers the requests for ranges among the envelopes of the stream, with a cache of so many
/// blobs, and writes a line for each. No payload is copied, but for what a read keeps while it
/// works.
pub fn fetch_ranges<H: Hash32, K: Sink>(
    alloc: Global,
    capacity: u32,
    stream: &[u8],
    sink: &mut K,
) -> u8
    requires some { 1 ≤ capacity }
    requires most { capacity ≤ 64 }
    requires few { length stream.now ≤ 134217728 }
    ensures does { Does (IsResult H.digest (fetching H.digest capacity) stream.now)
        (MayLeave H.digest (fetching H.digest capacity) stream.now)
        (MayOwe H.digest (fetching H.digest capacity) stream.now) (K.written sink.old)
        (K.written sink.new) (Rose (K.faults sink.old) (K.faults sink.new)) result }
    ensures later { K.faults sink.old ≤ K.faults sink.new }
{
    match malformed_at(stream) {
        None => put_fetched::<H, K>(alloc, capacity, stream, sink),
        Some(place) => refuse(alloc, &Refusal::Malformed(place), sink),
    }
}
