//! What entries change.

ghost use Rattle.std.specs.Prelude.{◌≡◌, ◌<◌, ◌≤◌, true, All, length, map, take, []};
ghost use Rattle.std.specs.Prelude.{IfOk, OnOk, OnErr};
ghost use Rattle.wal_ledger.specs.Shards.{committee_size};
ghost use Rattle.wal_shape.specs.Owners.{are_owners};
ghost use Rattle.wal_follow.specs.Enter.{IsOf, begins, blob_at, entered, entered_all, finished};
ghost use Rattle.wal_follow.specs.Enter.{put_blob};
ghost use Rattle.wal_follow.specs.Enter.{begun, claimed_at, readied_by, registered_at};
ghost use Rattle.wal_follow.specs.Told.{kept_told};
ghost use Rattle.wal_record.specs.Told.{IsFit, context_told, record_told};

use crate::item::Item;
use crate::outcome::{Outcome, claimed, readied, registered};
use std::alloc::{AllocError, Global};
use wal_ledger::Kind;
use wal_record::{Epoch, Row};
use wal_shape::Shards;

/// The record at a place.
fn blob_at(rows: &[Row], place: u32) -> Row
    requires { place < length rows.now }
    ensures { record_told result ≡ blob_at (map record_told rows.now) place }
{
    rows[place as usize]
}

/// Puts a record at a place.
fn put_blob(rows: &mut [Row], place: u32, row: Row)
    requires { place < length rows.old }
    ensures told { map record_told rows.new
        ≡ put_blob (map record_told rows.old) place (record_told row) }
    ensures rows { length rows.new ≡ length rows.old }
{
    rows[place as usize] = row;
}

/// Registers the blob at a place until an epoch, or extends its registration.
fn register_at(epoch: &Epoch, rows: &mut [Row], place: u32, until: u32) -> Outcome
    requires fit { IsFit epoch.now }
    requires place { place < length rows.old }
    ensures told { (result, kept_told epoch.now rows.new)
        ≡ registered_at (kept_told epoch.now rows.old) place until }
    ensures rows { length rows.new ≡ length rows.old }
{
    let mut row = blob_at(rows, place);
    let outcome = registered(row.register(epoch, until));
    put_blob(rows, place, row);
    outcome
}

/// Enters what a shard says of the blob at a place.
fn claim_at(epoch: &Epoch, rows: &mut [Row], kind: Kind, place: u32, shard: u16) -> Outcome
    requires fit { IsFit epoch.now }
    requires place { place < length rows.old }
    requires shard { shard < committee_size epoch.now.f }
    ensures told { (result, kept_told epoch.now rows.new)
        ≡ claimed_at kind (kept_told epoch.now rows.old) place shard }
    ensures rows { length rows.new ≡ length rows.old }
{
    let mut row = blob_at(rows, place);
    let outcome = claimed(kind, row.claim(epoch, kind, shard));
    put_blob(rows, place, row);
    outcome
}

/// Enters that a shard of the next committee is ready.
fn enter_ready(epoch: &mut Epoch, shard: u16) -> Outcome
    requires fit { IsFit epoch.old }
    requires shard { shard < committee_size epoch.old.f }
    ensures told { (result, context_told epoch.new) ≡ readied_by (context_told epoch.old) shard }
    ensures fits { IsFit epoch.new }
    ensures committee { epoch.new.f ≡ epoch.old.f }
{
    if epoch.moving {
        readied(epoch.enter_ready(shard))
    } else {
        Outcome::RefusedNotMoving
    }
}

/// Begins to change the epoch, if it is not the last one.
fn begin(epoch: &mut Epoch, owners: Shards) -> Outcome
    requires fit { IsFit epoch.old }
    requires owners { are_owners (committee_size epoch.old.f) owners ≡ true }
    ensures told { (result, context_told epoch.new) ≡ begun (context_told epoch.old) owners }
    ensures fits { IsFit epoch.new }
    ensures committee { epoch.new.f ≡ epoch.old.f }
{
    if epoch.moving {
        return Outcome::RefusedMoving;
    }
    if epoch.epoch >= 65535 {
        return Outcome::RefusedLastEpoch;
    }
    epoch.begin(owners);
    Outcome::Epoch(epoch.writing())
}

/// Ends the change, if a quorum of the next committee is ready.
fn finish(alloc: Global, epoch: &mut Epoch) -> Outcome
    requires { IsFit epoch.old }
    ensures told { (result, context_told epoch.new) ≡ finished (context_told epoch.old) }
    ensures fits { IsFit epoch.new }
    ensures committee { epoch.new.f ≡ epoch.old.f }
{
    if !epoch.moving {
        return Outcome::RefusedNotMoving;
    }
    let ready = epoch.ready_count();
    if ready < 2 * epoch.f + 1 {
        return Outcome::Waiting(ready);
    }
    epoch.finish(alloc);
    Outcome::Epoch(epoch.epoch)
}

/// Enters an entry, by the context and the records of the blobs. It takes memory where the epoch
/// begins to change; if there is none, nothing is entered.
pub fn enter(
    alloc: Global,
    epoch: &mut Epoch,
    rows: &mut [Row],
    item: &Item,
) -> Result<Outcome, AllocError>
    requires fit { IsFit epoch.old }
    requires item { IsOf (committee_size epoch.old.f) (length rows.old) item.now }
    ensures entered { IfOk result (λ outcome. (outcome, kept_told epoch.new rows.new)
        ≡ entered (kept_told epoch.old rows.old) item.now) }
    ensures begins { OnErr result (begins item.now ≡ true) }
    ensures kept { OnErr result ((epoch.new ≡ epoch.old) × (rows.new ≡ rows.old)) }
    ensures fits { IsFit epoch.new }
    ensures committee { epoch.new.f ≡ epoch.old.f }
    ensures rows { length rows.new ≡ length rows.old }
{
    match item {
        Item::Register { blob, until } => Ok(register_at(epoch, rows, *blob, *until)),
        Item::Ack { blob, shard } => Ok(claim_at(epoch, rows, Kind::Holds, *blob, *shard)),
        Item::Attest { blob, shard } => Ok(claim_at(epoch, rows, Kind::Denies, *blob, *shard)),
        Item::Ready { shard } => Ok(enter_ready(epoch, *shard)),
        Item::Begin { owners } => Ok(begin(epoch, owners.duplicate(alloc)?)),
        Item::Finish => Ok(finish(alloc, epoch)),
    }
}

/// Enters entries one after the other, and puts what comes of each into `outcomes`, which is empty
/// before. Without memory it stops: those with an outcome are entered, and no others.
pub fn enter_all(
    alloc: Global,
    epoch: &mut Epoch,
    rows: &mut [Row],
    items: &[Item],
    outcomes: &mut Vec<Outcome>,
) -> Result<(), AllocError>
    requires fit { IsFit epoch.old }
    requires items { All (IsOf (committee_size epoch.old.f) (length rows.old)) items.now }
    requires none { outcomes.old.items ≡ [] }
    ensures entered { (outcomes.new.items, kept_told epoch.new rows.new)
        ≡ entered_all (kept_told epoch.old rows.old) (take (length outcomes.new.items) items.now) }
    ensures all { OnOk result (length outcomes.new.items ≡ length items.now) }
    ensures some { OnErr result (length outcomes.new.items < length items.now) }
    ensures fits { IsFit epoch.new }
{
    for item in items {
        outcomes.reserve(1)?;
        let outcome = enter(alloc, epoch, rows, item)?;
        outcomes.push(outcome)?;
    }
    Ok(())
}
