//! How many bytes of room suffice for the text of a call.

ghost use Rattle.std.specs.Prelude.{◌≡◌, ◌⊎◌, ℕ, List, ◌+◌, ◌*◌, ◌≤◌, map, min, string_bytes};
ghost use Rattle.wal_shape.specs.Shape.{most_bytes, shard_count};
ghost use Rattle.wal_shape.specs.Spelling.{text_size};
ghost use Rattle.walrus_c.specs.Room.{IsRoom, encoded_bytes, room_of, whole_room};
ghost use Rattle.walrus_c.specs.Words.{AreNoWords, AreWords};
ghost use Rattle.walrus_c.specs.inside.Ranges.{InRange, WholeInRange};

use std::alloc::Global;
use wal_run::NO_MEMORY;
use wal_shape::{Axis, Format, MOST_BYTES, Shape};
use wal_words::{Task, WholeTask, read_task};

/// The number that says that no room is given.
const NONE_GIVEN: u64 = u64::MAX;

/// The number that says that memory ran out before the words were read.
const NO_MEMORY_TOLD: u64 = u64::MAX - 1;

/// The bytes of the usage.
const USAGE_LENGTH: u64 = 248;

/// The bytes of an identifier's line.
const NAME_LINE: u64 = 65;

/// The most bytes of a line.
const ONE_LINE: u64 = 272;

/// What is told for words and an input of so many bytes.
pub fn room_for(alloc: Global, words: &Vec<String>, count: u64) -> u64
    ensures { (text : List ℕ) → AreWords (map string_bytes words.now.items) text
        → IsRoom text count result }
{
    match read_task(alloc, words) {
        Ok(Some(task)) => task_room(&task, count),
        Ok(None) => USAGE_LENGTH,
        Err(_) => NO_MEMORY_TOLD,
    }
}

/// What is told if there are no words, by the status that tells why.
pub fn untold(status: u8) -> u64
    ensures { (text : List ℕ) (count : ℕ) → (status ≡ 5) ⊎ ((status ≡ 11) × AreNoWords text)
        → IsRoom text count result }
{
    if status == NO_MEMORY {
        NO_MEMORY_TOLD
    } else {
        NONE_GIVEN
    }
}

// By the command of a task.
fn task_room(task: &Task, count: u64) -> u64
    ensures { InRange task.now → result ≡ room_of task.now count }
{
    match task {
        Task::Whole(task) => whole_task_room(task, count),
        Task::Read(_) => count.min(MOST_BYTES).max(ONE_LINE),
        _ => NONE_GIVEN,
    }
}

// By the command of a task that takes its whole input at once.
fn whole_task_room(task: &WholeTask, count: u64) -> u64
    ensures { WholeInRange task.now → result ≡ whole_room task.now count }
{
    match task {
        WholeTask::Identify(..) => NAME_LINE,
        WholeTask::Encode(faults, format) => encoded_room(*faults, *format, count.min(MOST_BYTES)),
        WholeTask::Check(_) | WholeTask::Verify(_) => ONE_LINE,
        _ => NONE_GIVEN,
    }
}

// That of all envelopes of a blob of so many bytes.
fn encoded_room(faults: u32, format: Format, length: u64) -> u64
    ensures { (1 ≤ faults) × (faults ≤ 333) → length ≤ most_bytes
        → result ≡ encoded_bytes faults format length }
{
    match Shape::new(faults, length) {
        Ok(shape) => {
            let n = shape.n();
            let primary = shape.sliver_len(Axis::Primary);
            let secondary = shape.sliver_len(Axis::Secondary);
            metadata_envelope(format, n) + sliver_envelopes(n, primary, secondary)
        }
        Err(_) => NONE_GIVEN,
    }
}

// The bytes of the envelope of a metadata for so many shards.
fn metadata_envelope(format: Format, n: u32) -> u64
    requires few { n ≤ 1000 }
    ensures bytes { (f : ℕ) → n ≡ shard_count f → result ≡ 8 + text_size format f }
    ensures most { result ≤ 64019 }
{
    let roots = 64 * u64::from(n);
    match format {
        Format::One => 18 + roots,
        Format::Two => 19 + roots,
    }
}

// The bytes of the envelopes of the slivers of so many shards.
fn sliver_envelopes(n: u32, primary: u32, secondary: u32) -> u64
    requires few { n ≤ 1000 }
    ensures bytes { result ≡ n * (94 + (primary + secondary)) }
    ensures most { result ≤ 9000000000000 }
{
    let shard = 94 + (u64::from(primary) + u64::from(secondary));
    u64::from(n) * shard
}
