//! What the run of a schedule comes to.

ghost use Rattle.std.specs.Prelude.{◌≡◌, ◌<◌, ◌≤◌, ◌+◌, [], false, is_some, length, IfOk, OnOk};
ghost use Rattle.wal_event.specs.Event.{IsSchedule, IsEventWithin};
ghost use Rattle.wal_ledger.specs.Shards.{committee_size};
ghost use Rattle.wal_protocol.specs.Run.{first_state};
ghost use Rattle.wal_theorem.specs.Instance.{rules_of};
ghost use Rattle.wal_world.specs.Summary.{IsSummed};
ghost use Rattle.wal_world.specs.inside.Tally.{IsTallied, IsTally};

use crate::run::world_before;
use crate::tally::{Tally, collision_of};
use crate::world::World;
use std::alloc::{AllocError, Global};
use wal_event::{Event, Schedule};
use wal_shape::Collision;
use wal_tree::Hash32;

/// How often each thing was told in a run.
#[derive(Clone, Copy, Drop)]
pub struct Summary {
    /// The number of events.
    pub events: u32,
    /// The number of identifiers of which a line says that they are certified.
    pub certified: u32,
    /// The number of lines that tell the bytes of a read.
    pub reads: u32,
    /// The sum of their bytes, or the last number of 64 bits where the sum is greater.
    pub bytes: u64,
    /// The number of lines that tell a recovered sliver.
    pub recovered: u32,
    /// The least number of holders that a line tells, and 0 where none does.
    pub least_holders: u32,
}

/// What a run comes to.
#[derive(Drop)]
pub enum Summed {
    /// Every event was taken.
    Whole(Summary),
    /// The last line is this collision.
    Collision(Collision),
}

/// Takes an event, and counts its line. The two texts, where the line is a collision.
fn tally_event<H: Hash32>(
    alloc: Global,
    world: &mut World<H>,
    event: &Event,
    tally: &mut Tally,
) -> Result<Option<Collision>, AllocError>
    requires goes_on { world.old.ended ≡ false }
    requires fits { IsEventWithin (committee_size world.old.state.log.f) event.now }
    requires room { 0 < world.old.room }
    requires events { tally.old.events < 65536 }
    requires reads { tally.old.reads < 65536 }
    requires recovered { tally.old.recovered < 65536 }
    ensures tallied { IfOk result (IsTallied (rules_of H.digest world.old.state.log.f)
        world.old.state event.now world.new.state tally.old tally.new) }
    ensures f { OnOk result (world.new.state.log.f ≡ world.old.state.log.f) }
    ensures room { OnOk result (world.old.room ≤ world.new.room + 1) }
    ensures ended { IfOk result (λ o. world.new.ended ≡ is_some o) }
{
    let line = world.step(alloc, event)?;
    tally.add(&line)?;
    Ok(collision_of(line))
}

/// Takes the events of a schedule from its first state on, and sums up their lines. After a line
/// that is a collision no further event is taken.
fn sum_events<H: Hash32>(
    alloc: Global,
    world: &mut World<H>,
    schedule: &Schedule,
    tally: &mut Tally,
) -> Result<Summed, AllocError>
    requires schedule { IsSchedule schedule.now }
    requires goes_on { world.old.ended ≡ false }
    requires first { world.old.state ≡ first_state schedule.now }
    requires room { world.old.room ≡ length schedule.now.events }
    requires tally { IsTally [] tally.old }
    ensures { IfOk result (IsSummed H.digest schedule.now) }
{
    for event in schedule.events.as_slice() {
        match tally_event(alloc, world, event, tally)? {
            Some(collision) => return Ok(Summed::Collision(collision)),
            None => {}
        }
    }
    Ok(Summed::Whole(tally.summary()))
}

/// Runs a schedule from its first state, and sums up its lines. After a line that is a collision no
/// further event is taken.
pub fn summarize<H: Hash32>(alloc: Global, schedule: &Schedule) -> Result<Summed, AllocError>
    requires { IsSchedule schedule.now }
    ensures { IfOk result (IsSummed H.digest schedule.now) }
{
    let mut world = world_before::<H>(alloc, schedule)?;
    let mut tally = Tally::create(alloc);
    let summed = sum_events(alloc, &mut world, schedule, &mut tally);
    drop(world);
    summed
}
