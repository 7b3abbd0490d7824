//! A run over slices.

ghost use Rattle.std.specs.Prelude.{◌≡◌, ◌<◌, ◌≤◌, map, string_bytes};
ghost use Rattle.sha2.specs.Sha256.{sha256};
ghost use Rattle.walrus_c.specs.inside.Running.{Ran};

use std::alloc::Global;
use wal_port::{SliceSink, SliceSource};
use wal_run::{NO_MEMORY, SINK_FAILED, run};
use wal_tree::Sha;

/// How a run ended: its status, and how many bytes its text has.
#[derive(Clone, Copy)]
pub struct Ended {
    pub status: u8,
    pub count: u64,
}

/// Does what the words ask for, and keeps the front of the text in the room.
pub fn run_over(alloc: Global, words: &Vec<String>, input: &[u8], room: &mut [u8]) -> Ended
    ensures { Ran sha256 (map string_bytes words.now.items)
        input.now room.old room.new result.status result.count }
{
    let mut source = SliceSource::create(input);
    let mut sink = SliceSink::create(room);
    let status = run::<Sha, _, _>(alloc, words, &mut source, &mut sink);
    Ended {
        status,
        count: sink.count(),
    }
}

/// The status of a call: that of the run, if its text has room or memory ran out.
pub fn status_told(status: u8, count: u64, room: u64) -> u8
    ensures fits { count ≤ room → result ≡ status }
    ensures no_room { room < count → (status ≡ 5 → ⊥) → result ≡ 7 }
    ensures no_memory { status ≡ 5 → result ≡ 5 }
{
    if count <= room || status == NO_MEMORY {
        status
    } else {
        SINK_FAILED
    }
}
