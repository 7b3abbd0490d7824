//! The world: a state of the network, and what each event makes of it.

ghost use Rattle.std.specs.Prelude.{◌≡◌, ◌<◌, ◌≤◌, ◌+◌, false, true, length, Err, IfErr, IfOk};
ghost use Rattle.std.specs.Prelude.{IsErr, OnErr, OnOk};
ghost use Rattle.wal_epoch.specs.Moves.{Creates, IsFit};
ghost use Rattle.wal_event.specs.Event.{IsEventWithin};
ghost use Rattle.wal_ledger.specs.Shards.{committee_size};
ghost use Rattle.wal_world.specs.Creating.{first_of};
ghost use Rattle.wal_theorem.specs.Instance.{rules_of};
ghost use Rattle.wal_protocol.specs.Facts.{Facts};
ghost use Rattle.wal_protocol.specs.Run.{is_collision};
ghost use Rattle.wal_protocol.specs.State.{holders};
ghost use Rattle.wal_protocol.specs.Step.{Steps};
ghost use Rattle.wal_shape.specs.Owners.{is_committee};

use crate::network::Network;
use std::alloc::{AllocError, Global};
use std::marker::Model;
use wal_epoch::CreateError;
use wal_event::{Event, Line};
use wal_shape::{BlobId, Format, Shards};
use wal_tree::Hash32;

/// All that the network is at one moment: the ledger, what each correct shard holds, and the first
/// completed answer for each blob.
///
/// Once a call wanted memory the world is dead, and every later step wants memory too. Once a line
/// was a collision the world has ended, and takes no further event.
#[derive(Drop)]
pub struct World<H: Hash32> {
    network: Network<H>,
    dead: bool,
    ended: bool,
}

impl<H: Hash32> Model for World<H> {
    ghost use Rattle.wal_world.specs.inside.Network.{spare_of, world_of};
    ghost use Rattle.wal_world.specs.World.{WorldState};
    ghost use Rattle.wal_world.specs.inside.World.{IsWorld, world_code};

    ghost Value = { WorldState };

    ghost coded = { world_code };

    ghost view = { λ w. record {
      state = world_of w.network;
      room = spare_of w.network;
      dead = w.dead;
      ended = w.ended;
    } };

    ghost invariant = { λ w. IsWorld H.digest w.network w.dead };
}

/// Whether a line is a collision.
pub(crate) fn is_collision(line: &Line) -> bool
    ensures { result ≡ is_collision line.now }
{
    match line {
        Line::Collision { .. } => true,
        _ => false,
    }
}

impl<H: Hash32> World<H> {
    /// The first state in this epoch: no blob is registered and nothing is held. `owners` is the
    /// node that runs each of the `3f + 1` shards, and `faulty` lists the faulty ones. There is
    /// room for `room` entries of the ledger.
    ///
    /// The first that applies: `BadFaults`, `BadEpoch`, `BadCommittee`, `Memory`.
    pub fn create(
        alloc: Global,
        f: u32,
        epoch: u32,
        format: Format,
        owners: Shards,
        faulty: Shards,
        room: u32,
    ) -> Result<World<H>, CreateError>
        ensures first { IfOk result (λ w. w.state ≡ first_of format f epoch owners faulty) }
        ensures room { IfOk result (λ w. w.room ≡ room) }
        ensures alive { IfOk result (λ w. w.dead ≡ false) }
        ensures goes_on { IfOk result (λ w. w.ended ≡ false) }
        ensures facts { IfOk result (λ w. Facts (rules_of H.digest w.state.log.f) w.state) }
        ensures fit { OnOk result (IsFit f epoch) }
        ensures committee { OnOk result (is_committee (committee_size f) owners faulty ≡ true) }
        ensures refused { IfErr result (λ e. Creates f epoch owners faulty room (Err e)) }
    {
        let network = Network::create(alloc, f, epoch, format, owners, faulty, room)?;
        Ok(World {
            network,
            dead: false,
            ended: false,
        })
    }

    /// Takes an event, and tells its line. One entry of the ledger must be spare, and the event in
    /// range for the committee, unless the world is dead.
    ///
    /// After `AllocError` every later step answers it too, whatever the event.
    pub fn step(&mut self, alloc: Global, event: &Event) -> Result<Line, AllocError>
        requires goes_on { self.old.ended ≡ false }
        requires fits { self.old.dead ≡ false
            → IsEventWithin (committee_size self.old.state.log.f) event.now }
        requires room { self.old.dead ≡ false → 0 < self.old.room }
        ensures step { IfOk result
            (λ line. Steps (rules_of H.digest self.old.state.log.f)
            self.old.state event.now line self.new.state) }
        ensures f { OnOk result (self.new.state.log.f ≡ self.old.state.log.f) }
        ensures facts { OnOk result
            (Facts (rules_of H.digest self.new.state.log.f) self.new.state) }
        ensures room { OnOk result (self.old.room ≤ self.new.room + 1) }
        ensures capacity { OnOk result (self.new.room + length self.new.state.log.entries
            ≡ self.old.room + length self.old.state.log.entries) }
        ensures ended { IfOk result (λ line. self.new.ended ≡ is_collision line) }
        ensures alive { OnOk result (self.new.dead ≡ false) }
        ensures dies { OnErr result (self.new.dead ≡ true) }
        ensures stays { OnErr result (self.new.ended ≡ false) }
        ensures dead { self.old.dead ≡ true → IsErr result }
    {
        if self.dead {
            return Err(AllocError);
        }
        match self.network.take(alloc, event) {
            Ok(line) => {
                self.ended = is_collision(&line);
                Ok(line)
            }
            Err(error) => {
                self.dead = true;
                Err(error)
            }
        }
    }

    /// How many correct shards of its home committee are settled for a blob; 0 in a dead world.
    pub fn holders(&self, id: &BlobId) -> u32
        ensures alive { self.now.dead ≡ false → result ≡ holders self.now.state id.now }
        ensures dead { self.now.dead ≡ true → result ≡ 0 }
    {
        if self.dead {
            return 0;
        }
        self.network.holders(id)
    }
}
