//! The run of a schedule.

ghost use Rattle.std.specs.Prelude.{◌≡◌, ◌<◌, ◌≤◌, ◌+◌, false, length, IfOk, OnOk};
ghost use Rattle.wal_event.specs.Event.{IsSchedule, IsEventWithin};
ghost use Rattle.wal_ledger.specs.Shards.{committee_size};
ghost use Rattle.wal_port.specs.Faults.{Rose};
ghost use Rattle.wal_world.specs.Ending.{Replays};
ghost use Rattle.wal_world.specs.inside.Ending.{Takes};
ghost use Rattle.wal_theorem.specs.Instance.{rules_of};
ghost use Rattle.wal_protocol.specs.Run.{first_state};

use crate::world::{World, is_collision};
use std::alloc::{AllocError, Global};
use wal_event::{Event, Schedule, line_text};
use wal_port::{Sink, WriteFault, put_all};
use wal_tree::Hash32;

/// How a replay ends.
#[derive(Clone, Copy, Drop)]
pub enum ReplayEnd {
    /// Every event was taken.
    Whole,
    /// The last line is a collision.
    Collision,
}

/// Why a replay broke off.
#[derive(Clone, Copy, Drop)]
pub enum ReplayError {
    /// A write failed.
    WriteFault,
    /// There is no memory.
    Memory,
}

impl From<WriteFault> for ReplayError {
    ghost use Rattle.wal_world.specs.declared.run.ReplayError.TheVariants.{WriteFault};

    ghost from_gives = { λ _ e. e ≡ WriteFault };

    fn from(_e: WriteFault) -> ReplayError {
        ReplayError::WriteFault
    }
}

impl From<AllocError> for ReplayError {
    ghost use Rattle.wal_world.specs.declared.run.ReplayError.TheVariants.{Memory};

    ghost from_gives = { λ _ e. e ≡ Memory };

    fn from(_e: AllocError) -> ReplayError {
        ReplayError::Memory
    }
}

/// The world before the first event, with room for all events.
pub(crate) fn world_before<H: Hash32>(
    alloc: Global,
    schedule: &Schedule,
) -> Result<World<H>, AllocError>
    requires { IsSchedule schedule.now }
    ensures first { IfOk result (λ w. w.state ≡ first_state schedule.now) }
    ensures room { IfOk result (λ w. w.room ≡ length schedule.now.events) }
    ensures alive { IfOk result (λ w. w.dead ≡ false) }
    ensures goes_on { IfOk result (λ w. w.ended ≡ false) }
{
    let owners = schedule.owners.duplicate(alloc)?;
    let faulty = schedule.faulty.duplicate(alloc)?;
    let room = schedule.events.as_slice().len() as u32;
    match World::create(
        alloc,
        schedule.f,
        schedule.epoch,
        schedule.format,
        owners,
        faulty,
        room,
    ) {
        Ok(world) => Ok(world),
        Err(_) => Err(AllocError),
    }
}

/// Takes an event and writes its line. Whether the line is a collision.
fn take_event<H: Hash32, K: Sink>(
    alloc: Global,
    world: &mut World<H>,
    event: &Event,
    sink: &mut K,
) -> Result<bool, ReplayError>
    requires goes_on { world.old.ended ≡ false }
    requires fits { IsEventWithin (committee_size world.old.state.log.f) event.now }
    requires room { 0 < world.old.room }
    ensures takes { Takes (rules_of H.digest world.old.state.log.f) world.old.state
        event.now world.new.state (K.written sink.old) (K.written sink.new)
        (Rose (K.faults sink.old) (K.faults sink.new)) result }
    ensures f { OnOk result (world.new.state.log.f ≡ world.old.state.log.f) }
    ensures room { OnOk result (world.old.room ≤ world.new.room + 1) }
    ensures ended { IfOk result (λ stops. world.new.ended ≡ stops) }
    ensures later { K.faults sink.old ≤ K.faults sink.new }
{
    let line = world.step(alloc, event)?;
    let text = line_text(alloc, &line)?;
    put_all(sink, text.as_bytes())?;
    Ok(is_collision(&line))
}

/// Takes the events of a schedule from its first state on, and writes the line of each as it comes.
/// After a line that is a collision no further event is taken.
fn take_events<H: Hash32, K: Sink>(
    alloc: Global,
    world: &mut World<H>,
    schedule: &Schedule,
    sink: &mut K,
) -> Result<ReplayEnd, ReplayError>
    requires schedule { IsSchedule schedule.now }
    requires goes_on { world.old.ended ≡ false }
    requires first { world.old.state ≡ first_state schedule.now }
    requires room { world.old.room ≡ length schedule.now.events }
    ensures replays { Replays H.digest schedule.now (K.written sink.old)
        (K.written sink.new) (Rose (K.faults sink.old) (K.faults sink.new)) result }
    ensures later { K.faults sink.old ≤ K.faults sink.new }
{
    for event in schedule.events.as_slice() {
        if take_event(alloc, world, event, sink)? {
            return Ok(ReplayEnd::Collision);
        }
    }
    Ok(ReplayEnd::Whole)
}

/// Runs a schedule from its first state, and writes the line of each event as it comes. After a
/// line that is a collision no further event is taken.
///
/// `WriteFault` comes only if the sink's count of faults rose, and `Memory` only if memory ran
/// out. What was written then is a prefix of the report.
pub fn replay<H: Hash32, K: Sink>(
    alloc: Global,
    schedule: &Schedule,
    sink: &mut K,
) -> Result<ReplayEnd, ReplayError>
    requires { IsSchedule schedule.now }
    ensures replays { Replays H.digest schedule.now (K.written sink.old)
        (K.written sink.new) (Rose (K.faults sink.old) (K.faults sink.new)) result }
    ensures later { K.faults sink.old ≤ K.faults sink.new }
{
    let mut world = world_before::<H>(alloc, schedule)?;
    let end = take_events(alloc, &mut world, schedule, sink);
    drop(world);
    end
}
