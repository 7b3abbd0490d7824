//! The change of the epoch: its beginning, the shards that are ready, and its end.

ghost use Rattle.std.specs.Prelude.{◌≡◌, ◌↔◌, ℕ, ◌+◌, ◌<◌, ◌≤◌, IfOk, IsTrue, None, OnOk, true};
ghost use Rattle.std.specs.Prelude.{false, [], ◌&&◌, cond, length, map, nat_le};
ghost use Rattle.std.specs.FinMap as finmap;
ghost use Rattle.wal_epoch.specs.Moves.{MayBegin};
ghost use Rattle.wal_ledger.specs.Ledger.{is_moving, reading};
ghost use Rattle.wal_ledger.specs.Shards.{committee_size};
ghost use Rattle.wal_shape.specs.Owners.{among, is_ascending, is_committee, node_of};
ghost use Rattle.wal_shape.specs.declared.axis.Side.TheVariants.{Now};
ghost use Rattle.wal_world.specs.inside.Books.{AreBooks, IsBegun, IsFinished, ledger_of};
ghost use Rattle.wal_world.specs.inside.Network.{IsNetwork, capacity_of, dropped, shard_with};
ghost use Rattle.wal_world.specs.inside.Network.{shards_with, spare_of, world_of};
ghost use Rattle.wal_protocol.specs.State.{contents_of, side_of};
ghost use Rattle.wal_protocol.specs.Step.{BeginStep, FinishStep, HoldsAll, IsUnready, MayBeReady};
ghost use Rattle.wal_protocol.specs.Step.{ReadyStep, is_carried_over};

use crate::books::{begin_in, finish_in, ledger_in, ready_in};
use crate::members::Members;
use crate::network::Network;
use std::alloc::{AllocError, Global};
use std::mem;
use wal_epoch::{Committee, FinishError};
use wal_event::{BeginWord, FinishWord, ReadyWord};
use wal_ledger::{Ledger, ReadyAnswer};
use wal_shape::{Shards, Side, node_of};
use wal_shard::Shard;
use wal_store::MapKeep;
use wal_tree::Hash32;

/// The last epoch.
const LAST_EPOCH: u32 = 65535;

/// Whether a list has a shard.
fn among(shards: &Shards, shard: u16) -> bool
    ensures { result ≡ among shards.now shard }
{
    shards.as_slice().iter().any(|s| *s == shard)
}

/// A committee of these lists, in memory of its own.
fn committee_of(
    alloc: Global,
    owners: &Shards,
    faulty: &Shards,
    stays: &Shards,
) -> Result<Committee, AllocError>
    ensures { IfOk result
        (λ made. made ≡ record { owners = owners.now; faulty = faulty.now; stays = stays.now }) }
{
    Ok(Committee {
        owners: owners.duplicate(alloc)?,
        faulty: faulty.duplicate(alloc)?,
        stays: stays.duplicate(alloc)?,
    })
}

/// Each shard drops what is no longer live.
fn expire_all<H: Hash32>(shards: &mut [Shard<H, MapKeep>], ledger: &Ledger)
    ensures { shards.new ≡ map (dropped ledger.now.log) shards.old }
{
    for place in 0..shards.len() {
        shards[place].expire(ledger);
    }
}

impl<H: Hash32> Network<H> {
    /// Whether a shard takes what it holds into the next committee.
    fn carries(&self, committee: &Committee, shard: u16) -> bool
        requires network { IsNetwork self.now }
        requires shard { shard < committee_size (world_of self.now).log.f }
        ensures { result
            ≡ is_carried_over (world_of self.now) committee.now.owners
            committee.now.faulty committee.now.stays shard }
    {
        if !among(&committee.stays, shard) || self.faulty(Side::Now, shard) {
            return false;
        }
        !among(&committee.faulty, shard)
            && self.ledger().node(Side::Now, shard) == node_of(committee.owners.as_slice(), shard)
    }

    /// A shard of the next committee: with what it holds, if it is carried, and else with nothing.
    fn next_shard(
        &self,
        alloc: Global,
        committee: &Committee,
        shard: u16,
    ) -> Result<Shard<H, MapKeep>, AllocError>
        requires network { IsNetwork self.now }
        requires shard { shard < committee_size (world_of self.now).log.f }
        ensures { IfOk result (λ made. made ≡ shard_with (world_of self.now).log.f
            (λ s. cond
            (is_carried_over (world_of self.now) committee.now.owners
            committee.now.faulty committee.now.stays s)
            (contents_of (side_of Now (world_of self.now)) s) finmap.empty)
            shard) }
    {
        if self.carries(committee, shard) {
            self.shard(Side::Now, shard).duplicate(alloc)
        } else {
            Ok(Shard::create(self.f(), shard, MapKeep::create(alloc, None)?))
        }
    }

    /// The shards of the next committee.
    fn next_shards(
        &self,
        alloc: Global,
        committee: &Committee,
    ) -> Result<Vec<Shard<H, MapKeep>>, AllocError>
        requires { IsNetwork self.now }
        ensures { IfOk result (λ made. made.items ≡ shards_with (world_of self.now).log.f
            (λ s. cond
            (is_carried_over (world_of self.now) committee.now.owners
            committee.now.faulty committee.now.stays s)
            (contents_of (side_of Now (world_of self.now)) s) finmap.empty)) }
    {
        let size = self.size();
        let mut shards = Vec::with_capacity(alloc, usize::from(size))?;
        for shard in 0..size {
            shards.push(self.next_shard(alloc, committee, shard)?)?;
        }
        Ok(shards)
    }

    /// Whether each committee, with one more that has these faulty shards, has at most f faulty
    /// shards.
    fn few_with(&self, faulty: &Shards) -> bool
        requires { IsNetwork self.now }
        ensures { result ≡ (self.now.few && nat_le (length faulty.now) (world_of self.now).log.f) }
    {
        self.few && faulty.as_slice().len() <= self.f() as usize
    }

    /// Enters that the epoch begins to change, to a committee with these shards.
    fn enter_begin(&mut self, committee: Committee, shards: Vec<Shard<H, MapKeep>>)
        requires network { IsNetwork self.old }
        requires may { MayBegin (world_of self.old).log
            committee.owners committee.faulty committee.stays }
        requires serving { is_moving (world_of self.old).log ≡ false }
        requires room { 0 < spare_of self.old }
        requires shards { shards.items ≡ shards_with (world_of self.old).log.f
            (λ s. cond
            (is_carried_over (world_of self.old)
            committee.owners committee.faulty committee.stays s)
            (contents_of (side_of Now (world_of self.old)) s) finmap.empty) }
        ensures step { BeginStep (world_of self.old) committee.owners committee.faulty
            committee.stays (BeginWord.Epoch (reading (world_of self.old).log + 1))
            (world_of self.new) }
        ensures network { IsNetwork self.new }
        ensures spare { spare_of self.old ≤ spare_of self.new + 1 }
        ensures capacity { capacity_of self.new ≡ capacity_of self.old }
    {
        let few = self.few_with(&committee.faulty);
        match begin_in(&mut self.books, committee) {
            Ok(()) => (),
            Err(_) => unreachable!(),
        }
        self.few = few;
        self.sides.next = Members { shards };
    }

    /// The epoch begins to change, to a next committee with these owners and faulty shards, in
    /// which these shards stay.
    ///
    /// A refusal of memory changes nothing.
    pub(crate) fn begin(
        &mut self,
        alloc: Global,
        owners: &Shards,
        faulty: &Shards,
        stays: &Shards,
    ) -> Result<BeginWord, AllocError>
        requires network { IsNetwork self.old }
        requires room { 0 < spare_of self.old }
        requires committee { IsTrue
            (is_committee (committee_size (world_of self.old).log.f) owners.now faulty.now) }
        requires stays { IsTrue
            (is_ascending (committee_size (world_of self.old).log.f) stays.now) }
        ensures step { IfOk result
            (λ word. BeginStep (world_of self.old) owners.now
            faulty.now stays.now word (world_of self.new)) }
        ensures network { IsNetwork self.new }
        ensures spare { spare_of self.old ≤ spare_of self.new + 1 }
        ensures capacity { capacity_of self.new ≡ capacity_of self.old }
    {
        if self.ledger().moving() {
            return Ok(BeginWord::RefusedMoving);
        }
        let epoch = self.ledger().epoch();
        if epoch >= LAST_EPOCH {
            return Ok(BeginWord::RefusedLastEpoch);
        }
        let committee = committee_of(alloc, owners, faulty, stays)?;
        let shards = self.next_shards(alloc, &committee)?;
        self.enter_begin(committee, shards);
        Ok(BeginWord::Epoch(epoch + 1))
    }

    /// Whether a shard of the next committee holds all that it must.
    fn holds_all(&self, shard: u16) -> bool
        requires network { IsNetwork self.now }
        requires moving { is_moving (world_of self.now).log ≡ true }
        requires shard { shard < committee_size (world_of self.now).log.f }
        ensures { IsTrue result ↔ HoldsAll (world_of self.now) shard }
    {
        self.shard(Side::Next, shard).ready(self.ledger())
    }

    /// Whether the node of a shard may say that it is ready: the shard is faulty, or each shard of
    /// the node holds all that it must.
    fn may_be_ready(&self, shard: u16) -> bool
        requires network { IsNetwork self.now }
        requires moving { is_moving (world_of self.now).log ≡ true }
        requires shard { shard < committee_size (world_of self.now).log.f }
        ensures may { result ≡ true → MayBeReady (world_of self.now) shard }
        ensures unready { result ≡ false → IsUnready (world_of self.now) shard }
    {
        if !self.correct(Side::Next, shard) {
            return true;
        }
        for other in 0..self.size() {
            if self.writes_with(shard, other) && !self.holds_all(other) {
                return false;
            }
        }
        true
    }

    /// Enters that a shard's node is ready, if it has not said so.
    #[tactic(auto, using(crate::proofs::Entering::entered_is, crate::proofs::Entering::entered_world, crate::proofs::Entering::same_world, crate::proofs::Entering::room_taken))]
    fn enter_ready(&mut self, shard: u16) -> ReadyWord
        requires network { IsNetwork self.old }
        requires moving { is_moving (world_of self.old).log ≡ true }
        requires room { 0 < spare_of self.old }
        requires shard { shard < committee_size (world_of self.old).log.f }
        requires may { MayBeReady (world_of self.old) shard }
        ensures step { ReadyStep (world_of self.old) shard result (world_of self.new) }
        ensures network { IsNetwork self.new }
        ensures spare { spare_of self.old ≤ spare_of self.new + 1 }
        ensures capacity { capacity_of self.new ≡ capacity_of self.old }
    {
        match ready_in(&mut self.books, shard) {
            ReadyAnswer::Already => ReadyWord::Already,
            ReadyAnswer::Counted(count) => ReadyWord::Counted(count),
            ReadyAnswer::NoRoom => unreachable!(),
        }
    }

    /// A shard of the next committee is ready.
    pub(crate) fn ready(&mut self, shard: u16) -> ReadyWord
        requires network { IsNetwork self.old }
        requires room { 0 < spare_of self.old }
        requires shard { shard < committee_size (world_of self.old).log.f }
        ensures step { ReadyStep (world_of self.old) shard result (world_of self.new) }
        ensures network { IsNetwork self.new }
        ensures spare { spare_of self.old ≤ spare_of self.new + 1 }
        ensures capacity { capacity_of self.new ≡ capacity_of self.old }
    {
        if !self.ledger().moving() {
            return ReadyWord::RefusedNotMoving;
        }
        if !self.may_be_ready(shard) {
            return ReadyWord::Declined;
        }
        self.enter_ready(shard)
    }

    /// The next committee, of which the books say that it serves, takes the place of the one before
    /// it, and drops what is no longer live.
    fn follow(&mut self, alloc: Global)
        requires { AreBooks self.old.books }
        ensures now { self.new.sides.serving.shards.items
            ≡ map (dropped (ledger_of self.old.books).log) self.old.sides.next.shards.items }
        ensures next { self.new.sides.next.shards.items ≡ [] }
        ensures rest { self.new ≡ record self.old { sides = self.new.sides } }
    {
        let none = Members {
            shards: Vec::new(alloc),
        };
        self.sides.serving = mem::replace(&mut self.sides.next, none);
        expire_all(&mut self.sides.serving.shards, ledger_in(&self.books));
    }

    /// The next epoch begins, once enough shards are ready.
    pub(crate) fn finish(&mut self, alloc: Global) -> FinishWord
        requires network { IsNetwork self.old }
        requires room { 0 < spare_of self.old }
        ensures step { FinishStep (world_of self.old) result (world_of self.new) }
        ensures network { IsNetwork self.new }
        ensures spare { spare_of self.old ≤ spare_of self.new + 1 }
        ensures capacity { capacity_of self.new ≡ capacity_of self.old }
    {
        if !self.ledger().moving() {
            return FinishWord::RefusedNotMoving;
        }
        let epoch = self.ledger().writing_epoch();
        match finish_in(&mut self.books) {
            Ok(()) => {
                self.follow(alloc);
                FinishWord::Epoch(epoch)
            }
            Err(FinishError::Waiting(count)) => FinishWord::Waiting(count),
            Err(FinishError::NoRoom) => unreachable!(),
        }
    }
}
