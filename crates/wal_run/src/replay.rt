//! The command that replays a schedule.

ghost use Rattle.std.specs.Prelude.{◌≡◌, ℕ, ◌≤◌, List, Ok};
ghost use Rattle.wal_event.specs.Event.{IsSchedule};
ghost use Rattle.wal_port.specs.Faults.{Rose};
ghost use Rattle.wal_schedule.specs.Grammar.{IsRead};
ghost use Rattle.wal_run.specs.inside.Writing.{Does};
ghost use Rattle.wal_run.specs.Command.{IsFault, IsResult, MayLeave, MayOwe};
ghost use Rattle.wal_run.specs.Replaying.{replaying};
ghost use Rattle.wal_run.specs.inside.Answers.{Refuses};

use crate::answer::refuse;
use crate::finish::{COLLISION, NO_MEMORY, SINK_FAILED};
use crate::refusal::Refusal;
use std::alloc::Global;
use wal_event::Schedule;
use wal_port::Sink;
use wal_schedule::{ScheduleError, read_schedule};
use wal_tree::Hash32;
use wal_world::{ReplayEnd, ReplayError, replay};

/// What is wrong with an input that is no schedule.
fn refusal_of(error: ScheduleError) -> Refusal
    ensures { Refuses result (λ s text. (s ≡ 8) × IsFault error text) }
{
    match error {
        ScheduleError::NotJson => Refusal::NotJson,
        ScheduleError::BadSchedule => Refusal::BadSchedule,
        ScheduleError::TooMany => Refusal::TooManyEvents,
        ScheduleError::BadEvent(number) => Refusal::BadEvent(number),
        ScheduleError::Memory => Refusal::Memory,
    }
}

/// Writes the lines of a schedule.
fn put_lines<H: Hash32, K: Sink>(alloc: Global, schedule: &Schedule, sink: &mut K) -> u8
    requires { IsSchedule schedule.now }
    ensures does { (input : List ℕ) → IsRead input (Ok schedule.now)
        → Does (IsResult H.digest (replaying H.digest) input)
        (MayLeave H.digest (replaying H.digest) input)
        (MayOwe H.digest (replaying H.digest) input) (K.written sink.old)
        (K.written sink.new) (Rose (K.faults sink.old) (K.faults sink.new)) result }
    ensures later { K.faults sink.old ≤ K.faults sink.new }
{
    match replay::<H, K>(alloc, schedule, sink) {
        Ok(ReplayEnd::Whole) => 0,
        Ok(ReplayEnd::Collision) => COLLISION,
        Err(ReplayError::Memory) => NO_MEMORY,
        Err(ReplayError::WriteFault) => SINK_FAILED,
    }
}

/// Writes the lines of the schedule that the input spells, or why it spells none.
pub fn replay_schedule<H: Hash32, K: Sink>(alloc: Global, input: &[u8], sink: &mut K) -> u8
    ensures does { Does (IsResult H.digest (replaying H.digest) input.now)
        (MayLeave H.digest (replaying H.digest) input.now)
        (MayOwe H.digest (replaying H.digest) input.now) (K.written sink.old)
        (K.written sink.new) (Rose (K.faults sink.old) (K.faults sink.new)) result }
    ensures later { K.faults sink.old ≤ K.faults sink.new }
{
    match read_schedule(alloc, input) {
        Ok(schedule) => put_lines::<H, K>(alloc, &schedule, sink),
        Err(error) => refuse(alloc, &refusal_of(error), sink),
    }
}
