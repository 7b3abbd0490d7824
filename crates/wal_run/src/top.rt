//! The top call: all that the program does.

ghost use Rattle.std.specs.Prelude.{◌≡◌, ◌≤◌, ℕ, List, map, length, string_bytes};
ghost use Rattle.wal_port.specs.Faults.{Rose};
ghost use Rattle.wal_words.specs.declared.task.Task.TheVariants.{Whole};
ghost use Rattle.wal_words.specs.Task.{IsTask};
ghost use Rattle.wal_run.specs.Around.{seen};
ghost use Rattle.wal_run.specs.Answers.{Ends};
ghost use Rattle.wal_run.specs.Causes.{Causes, HasOneAnswer, IsComplete, IsExact, IsUsage};
ghost use Rattle.wal_run.specs.Command.{IsResult, MayLeave, MayOwe};
ghost use Rattle.wal_run.specs.Headline.{Headline};
ghost use Rattle.wal_run.specs.Commands.{whole_command};
ghost use Rattle.wal_run.specs.inside.Commands.{IsInRange, IsWholeInRange};
ghost use Rattle.wal_run.specs.inside.Writing.{Does};

use crate::answer::write_answer;
use crate::bundle::bundle_members;
use crate::challenge::challenge_shard;
use crate::check::check_proof;
use crate::encode::encode;
use crate::fetch::fetch_ranges;
use crate::finish::{NO_MEMORY, SOURCE_FAILED, TOO_LONG, USAGE, finish};
use crate::identify::identify;
use crate::image::image_parts;
use crate::member::read_member;
use crate::read::read_stream;
use crate::recover::recover_sliver;
use crate::replay::replay_schedule;
use crate::sample::sum_up;
use crate::serve::serve_shard;
use crate::unpack::unpack_image;
use crate::verify::verify_answer;
use std::alloc::Global;
use wal_port::{Sink, Source, TakeError, take_all};
use wal_shape::MOST_BYTES;
use wal_tree::Hash32;
use wal_words::{Task, WholeTask, read_task};

/// The most bytes of an input that is a blob, and of a schedule.
const MOST_INPUT: u64 = MOST_BYTES;

/// The most bytes of a task's input.
fn limit_of(task: &WholeTask) -> u64
    ensures limit { (digest : List ℕ → List ℕ) → result ≡ (whole_command digest task.now).limit }
    ensures few { result ≤ 134217728 }
{
    match task {
        WholeTask::Identify(..) | WholeTask::Encode(..) | WholeTask::Replay => MOST_INPUT,
        WholeTask::Recover(..)
        | WholeTask::Check(_)
        | WholeTask::Image(_)
        | WholeTask::Unpack
        | WholeTask::Bundle(_)
        | WholeTask::Member(..)
        | WholeTask::Challenge(_)
        | WholeTask::Verify(_)
        | WholeTask::Gateway(_) => 134_217_728,
    }
}

/// The words of all commands.
const USAGE_TEXT: &[u8] =
    b"usage: walrus id F | encode F | read ID | recover ID AXIS INDEX | check ID | serve F SHARD | replay | sample NUMBER | image BYTES | unpack | bundle F | member ID K | challenge ID SHARD BEACON COUNT | verify ID SHARD BEACON COUNT | gateway CAPACITY\n";

/// Does what the words ask for, with the source as the input, and writes the answer to the sink.
///
/// The words are those of the command line without the program's own name. The answer is the exit
/// status, and every text, those of refusals too, goes to the sink.
pub fn run<H: Hash32, S: Source, K: Sink>(
    alloc: Global,
    words: &Vec<String>,
    source: &mut S,
    sink: &mut K,
) -> u8
    // `ends` says what was taken, what was written, and what the status is.
    ensures ends { Ends H.digest (map string_bytes words.now.items)
        (seen S.Source source.old source.new K.Sink sink.old sink.new) result }
    // The counts of faults never fall.
    ensures later_source { S.faults source.old ≤ S.faults source.new }
    ensures later_sink { K.faults sink.old ≤ K.faults sink.new }

    // The clauses below follow from `ends`.
    // THE HEADLINE: a schedule is replayed as a safe run, whatever faulty shards and writers send.
    ensures headline { Headline H.digest (map string_bytes words.now.items)
        (seen S.Source source.old source.new K.Sink sink.old sink.new) result }
    // The table of causes says what the status shows.
    ensures causes { Causes H.digest (map string_bytes words.now.items)
        (seen S.Source source.old source.new K.Sink sink.old sink.new) result }
    // If the source tells its bytes, whatever answer they have was told, or a prefix of the answer
    // for want of memory or because of a fault. The two texts of a collision are not compared, but
    // what stands before them is.
    ensures exact { IsExact H.digest (map string_bytes words.now.items)
        (seen S.Source source.old source.new K.Sink sink.old sink.new) result }
    // Words that ask for nothing have the status of usage, whatever bytes the source has, but for
    // want of memory and a sink that failed.
    ensures nothing_asked { IsUsage (map string_bytes words.now.items)
        (seen S.Source source.old source.new K.Sink sink.old sink.new) result }
    // If neither count of faults rose, the whole answer was written, or memory ran out.
    ensures complete { IsComplete H.digest (map string_bytes words.now.items)
        (seen S.Source source.old source.new K.Sink sink.old sink.new) result }
    // The words and the bytes of a source have at most one answer. The two texts of a collision are
    // not compared.
    ensures only { HasOneAnswer H.digest (map string_bytes words.now.items) }
{
    answer::<H, S, K>(alloc, words, source, sink)
}

fn answer<H: Hash32, S: Source, K: Sink>(
    alloc: Global,
    words: &Vec<String>,
    source: &mut S,
    sink: &mut K,
) -> u8
    ensures ends { Ends H.digest (map string_bytes words.now.items)
        (seen S.Source source.old source.new K.Sink sink.old sink.new) result }
    ensures later_source { S.faults source.old ≤ S.faults source.new }
    ensures later_sink { K.faults sink.old ≤ K.faults sink.new }
{
    match read_task(alloc, words) {
        Ok(Some(task)) => answer_task::<H, S, K>(alloc, &task, source, sink),
        Ok(None) => finish(sink, USAGE_TEXT, USAGE),
        Err(_) => NO_MEMORY,
    }
}

/// Does the task.
fn answer_task<H: Hash32, S: Source, K: Sink>(
    alloc: Global,
    task: &Task,
    source: &mut S,
    sink: &mut K,
) -> u8
    requires range { IsInRange task.now }
    ensures ends { (words : List (List ℕ)) → IsTask words task.now → Ends H.digest words
        (seen S.Source source.old source.new K.Sink sink.old sink.new) result }
    ensures later_source { S.faults source.old ≤ S.faults source.new }
    ensures later_sink { K.faults sink.old ≤ K.faults sink.new }
{
    match task {
        Task::Whole(task) => answer_input::<H, S, K>(alloc, task, source, sink),
        Task::Read(id) => read_stream::<H, S, K>(alloc, id, source, sink),
        Task::Serve(service) => serve_shard::<H, S, K>(alloc, service, source, sink),
        Task::Sample(number) => write_answer(alloc, sum_up::<H>(alloc, *number), sink),
    }
}

/// Does a task that takes its whole input at once, with the source as the input.
fn answer_input<H: Hash32, S: Source, K: Sink>(
    alloc: Global,
    task: &WholeTask,
    source: &mut S,
    sink: &mut K,
) -> u8
    requires range { IsWholeInRange task.now }
    ensures ends { (words : List (List ℕ)) → IsTask words (Whole task.now) → Ends H.digest words
        (seen S.Source source.old source.new K.Sink sink.old sink.new) result }
    ensures later_source { S.faults source.old ≤ S.faults source.new }
    ensures later_sink { K.faults sink.old ≤ K.faults sink.new }
{
    let limit = limit_of(task);
    match take_all(alloc, source, limit) {
        Ok(input) => perform::<H, K>(alloc, task, &input, sink),
        Err(TakeError::ReadFault) => SOURCE_FAILED,
        Err(TakeError::TooLong) => finish(sink, b"too long\n", TOO_LONG),
        Err(TakeError::Memory) => NO_MEMORY,
    }
}

/// Writes the result of the task for its whole input.
fn perform<H: Hash32, K: Sink>(alloc: Global, task: &WholeTask, input: &[u8], sink: &mut K) -> u8
    requires range { IsWholeInRange task.now }
    requires small { length input.now ≤ (whole_command H.digest task.now).limit }
    ensures does { Does (IsResult H.digest (whole_command H.digest task.now) input.now)
        (MayLeave H.digest (whole_command H.digest task.now) input.now)
        (MayOwe H.digest (whole_command H.digest task.now) input.now)
        (K.written sink.old) (K.written sink.new)
        (Rose (K.faults sink.old) (K.faults sink.new)) result }
    ensures later { K.faults sink.old ≤ K.faults sink.new }
{
    match task {
        WholeTask::Identify(faults, format) => write_answer(
            alloc,
            identify::<H>(alloc, *faults, *format, input),
            sink,
        ),
        WholeTask::Encode(faults, format) => encode::<H, K>(alloc, *faults, *format, input, sink),
        WholeTask::Recover(id, axis, index) => write_answer(
            alloc,
            recover_sliver::<H>(alloc, id, *axis, *index, input),
            sink,
        ),
        WholeTask::Check(id) => write_answer(alloc, check_proof::<H>(alloc, id, input), sink),
        WholeTask::Replay => replay_schedule::<H, K>(alloc, input, sink),
        WholeTask::Image(size) => write_answer(alloc, image_parts::<H>(alloc, *size, input), sink),
        WholeTask::Unpack => write_answer(alloc, unpack_image::<H>(alloc, input), sink),
        WholeTask::Bundle(faults) => write_answer(
            alloc,
            bundle_members::<H>(alloc, *faults, input),
            sink,
        ),
        WholeTask::Member(id, k) => write_answer(
            alloc,
            read_member::<H>(alloc, id, *k, input),
            sink,
        ),
        WholeTask::Challenge(audit) => challenge_shard::<H, K>(alloc, audit, input, sink),
        WholeTask::Verify(audit) => write_answer(
            alloc,
            verify_answer::<H>(alloc, audit, input),
            sink,
        ),
        WholeTask::Gateway(capacity) => fetch_ranges::<H, K>(alloc, *capacity, input, sink),
    }
}
