//! Schedules as text: what is read is written in one form.

use std::alloc::{AllocError, Global};
use std::test::Fail;
use wal_schedule::{read_schedule, sample, write_schedule};
use wal_tree::Toy32;
/// One event of each kind, with each kind of reply, each side and each axis, and numbers at their
/// limits.
const EACH: &str = r#"{"f":1,"epoch":65535,"format":2,"owners":[0,0,1,2],"faulty":[0,1],"events":[
{"do":"register","id":"02000100000000000000000c010000000000000000000000000000000000000f","until":65536},
{"do":"write","blob":"00fF","to":[0,3]},
{"do":"send","at":"next","shard":3,"bytes":""},
{"shard":0,"do":"ack","id":"02000100000000000000000C0100000000000000000000000000000000000000"},
{"do":"attest","shard":1,"id":"02000100000000000000000c0100000000000000000000000000000000000000"},
{"do":"read","id":"02000100000000000000000c0100000000000000000000000000000000000000","replies":[{"true":3,"at":"now"},{"bytes":"10"}]},
{"do":"recover","at":"next","shard":2,"axis":"primary","id":"02000100000000000000000c0100000000000000000000000000000000000000","replies":[]},
{"do":"recover","at":"now","shard":2,"axis":"secondary","id":"02000100000000000000000c0100000000000000000000000000000000000000","replies":[]},
{"do":"forget","at":"now","shard":2,"id":"02000100000000000000000c0100000000000000000000000000000000000000"},
{"do":"begin","faulty":[2],"stays":[0,1]},
{"do":"begin","owners":[3,3,3,3],"faulty":[],"stays":[]},
{"do":"ready","shard":0},
{"do":"finish","do":"finish"},
{"do":"certificate","id":"02000100000000000000000c0100000000000000000000000000000000000000"},
{"do":"holders","id":"02000100000000000000000c0100000000000000000000000000000000000000"}]}"#;

/// The same schedule as it is written.
const WRITTEN: &str =
    r#"{"epoch":65535,"events":[{"do":"register","id":"02000100000000000000000c010000000000000000000000000000000000000f","until":65536},{"blob":"00ff","do":"write","to":[0,3]},{"at":"next","bytes":"","do":"send","shard":3},{"do":"ack","id":"02000100000000000000000c0100000000000000000000000000000000000000","shard":0},{"do":"attest","id":"02000100000000000000000c0100000000000000000000000000000000000000","shard":1},{"do":"read","id":"02000100000000000000000c0100000000000000000000000000000000000000","replies":[{"at":"now","true":3},{"bytes":"10"}]},{"at":"next","axis":"primary","do":"recover","id":"02000100000000000000000c0100000000000000000000000000000000000000","replies":[],"shard":2},{"at":"now","axis":"secondary","do":"recover","id":"02000100000000000000000c0100000000000000000000000000000000000000","replies":[],"shard":2},{"at":"now","do":"forget","id":"02000100000000000000000c0100000000000000000000000000000000000000","shard":2},{"do":"begin","faulty":[2],"owners":[0,1,2,3],"stays":[0,1]},{"do":"begin","faulty":[],"owners":[3,3,3,3],"stays":[]},{"do":"ready","shard":0},{"do":"finish"},{"do":"certificate","id":"02000100000000000000000c0100000000000000000000000000000000000000"},{"do":"holders","id":"02000100000000000000000c0100000000000000000000000000000000000000"}],"f":1,"faulty":[0,1],"format":2,"owners":[0,0,1,2]}"#;

/// Whether a schedule of this text is written so.
fn is_written(alloc: Global, text: &str, written: &str) -> Result<bool, AllocError> {
    match read_schedule(alloc, text.as_bytes()) {
        Ok(schedule) => Ok(write_schedule(alloc, &schedule)?.as_str() == written),
        Err(_) => Ok(false),
    }
}

#[test]
fn written_and_read_back(rt: HostRuntime) -> Result<(), Fail> {
    assert!(rt;
        is_written(rt.alloc(), EACH, WRITTEN)? && is_written(rt.alloc(), WRITTEN, WRITTEN)?
    );
    Ok(())
}

#[test]
fn a_sample(rt: HostRuntime) -> Result<(), Fail> {
    let schedule = sample::<Toy32>(rt.alloc(), 1)?;
    assert!(rt; schedule.events.as_slice().len() == 841);
    Ok(())
}
