//! Rows of what is kept of each blob, where they were put, and the order of the identifiers beside
//! them.

ghost use Rattle.std.specs.Prelude.{◌≡◌, ℕ, ◌+◌, ◌-◌, ◌^◌, ◌<◌, ◌≤◌, List, [], cond, filter};
ghost use Rattle.std.specs.Prelude.{nat_lt, Some, length, slice_get, IfOk, vec_len, vec_capacity};
ghost use Rattle.std.specs.Prelude.{Contains, ◌++◌, ◌∷◌};
ghost use Rattle.std.specs.List.{insert};
ghost use Rattle.std.specs.BTreeSet.{insert_key};
ghost use Rattle.wal_shape.specs.Identifiers.{id_eq, id_cmp};
ghost use Rattle.wal_ledger.specs.inside.Rows.{row_of};

use crate::entry::Kind;
use crate::numbers::{number_of, place_in};
use crate::tally::Tally;
use std::alloc::{AllocError, Global};
use std::marker::Model;
use wal_shape::BlobId;

/// What is kept of one blob.
#[derive(Clone, Copy, Debug)]
pub(crate) struct Row {
    /// The greatest `until` of its own entries.
    pub(crate) until: u32,
    /// The shards that hold their slivers.
    pub(crate) holds: Tally,
    /// The shards that attested that it is invalid.
    pub(crate) denies: Tally,
}

impl Row {
    ghost use Rattle.wal_ledger.specs.inside.Rows.{no_row, row_registered, tally_of, with_tally};

    /// The row of a blob that was registered until this epoch, and of which no shard has said a
    /// thing.
    pub(crate) fn until(until: u32) -> Row
        ensures { result ≡ record no_row { until = until } }
    {
        Row {
            until,
            holds: Tally::none(),
            denies: Tally::none(),
        }
    }

    /// The row after a registration in a reading epoch.
    pub(crate) fn registered(self, epoch: u32, until: u32) -> Row
        ensures { result ≡ row_registered epoch until self }
    {
        if self.until <= epoch {
            Row::until(until)
        } else {
            Row {
                until: self.until.max(until),
                ..self
            }
        }
    }

    /// The tally of one kind.
    pub(crate) fn tally(&self, kind: Kind) -> Tally
        ensures { result ≡ tally_of kind self.now }
    {
        match kind {
            Kind::Holds => self.holds,
            Kind::Denies => self.denies,
        }
    }

    /// The same row with another tally of one kind.
    pub(crate) fn with(self, kind: Kind, tally: Tally) -> Row
        ensures { result ≡ with_tally kind tally self }
    {
        match kind {
            Kind::Holds => Row {
                holds: tally,
                ..self
            },
            Kind::Denies => Row {
                denies: tally,
                ..self
            },
        }
    }
}

/// Identifiers with their rows, in room that was reserved for them.
///
/// None of them moves: what a new one moves are numbers.
#[derive(Debug, Drop)]
pub(crate) struct Table {
    /// The identifiers, each where it was put.
    ids: Vec<BlobId>,
    /// Their rows.
    rows: Vec<Row>,
    /// The numbers of the identifiers, in ascending order of the identifiers.
    order: Vec<u32>,
    /// The numbers of those that are live, in the same order.
    live: Vec<u32>,
    room: u32,
}

impl Model for Table {
    ghost use Rattle.std.specs.Prelude.{◌≡◌, ℕ, ◌-◌, ◌^◌, ◌<◌, ◌≤◌, length, map, vec_len};
    ghost use Rattle.std.specs.Prelude.{vec_capacity};
    ghost use Rattle.wal_ledger.specs.inside.Rows.{Rows, IsTable, ids_of, row_of};

    ghost Value = { Rows };

    ghost view = { λ t. record {
      ids = ids_of t.ids.items t.order.items;
      rows = map (row_of t.rows.items) t.order.items;
      live = ids_of t.ids.items t.live.items;
      spare = t.room - vec_len t.ids;
    } };

    ghost invariant = { λ t. IsTable t.ids.items t.rows.items t.order.items t.live.items
        × (vec_len t.ids ≤ t.room) × (t.room < 2 ^ 32) × (t.room ≤ vec_capacity t.ids)
        × (t.room ≤ vec_capacity t.rows) × (t.room ≤ vec_capacity t.order)
        × (t.room ≤ vec_capacity t.live) };
}

impl Table {
    ghost use Rattle.wal_ledger.specs.inside.Rows.{row_in};

    /// An empty table with this room.
    pub(crate) fn create(alloc: Global, room: u32) -> Result<Table, AllocError>
        ensures { IfOk result
            (λ table. table ≡ record { ids = []; rows = []; live = []; spare = room }) }
    {
        Ok(Table {
            ids: Vec::with_capacity(alloc, room as usize)?,
            rows: Vec::with_capacity(alloc, room as usize)?,
            order: Vec::with_capacity(alloc, room as usize)?,
            live: Vec::with_capacity(alloc, room as usize)?,
            room,
        })
    }

    /// How many identifiers are live.
    pub(crate) fn live_len(&self) -> u32
        ensures { result ≡ length self.now.live }
    {
        self.live.len() as u32
    }

    /// The live identifier at a place.
    pub(crate) fn live_at(&self, place: usize) -> BlobId
        requires { place < length self.now.live }
        ensures { slice_get self.now.live place ≡ Some result }
    {
        self.ids[self.live[place] as usize]
    }

    /// The row of an identifier.
    pub(crate) fn find(&self, id: &BlobId) -> Row
        ensures { result ≡ row_in self.now id.now }
    {
        match place_in(&self.ids, &self.order, id) {
            Ok(place) => self.rows[self.order[place] as usize],
            Err(_) => Row::until(0),
        }
    }

    /// Keeps the row of an identifier, in place of the one that it has.
    fn keep(&mut self, id: &BlobId, row: Row)
        requires { 0 < self.old.spare }
        ensures ids { self.new.ids ≡ insert_key id_cmp self.old.ids id.now }
        ensures rows { (q : BlobId)
            → row_in self.new q ≡ cond (id_eq id.now q) row (row_in self.old q) }
        ensures live { self.new.live ≡ self.old.live }
        ensures spare { self.old.spare ≤ self.new.spare + 1 }
    {
        match place_in(&self.ids, &self.order, id) {
            Ok(place) => {
                let number = self.order[place] as usize;
                self.rows[number] = row;
            }
            Err(place) => {
                let number = self.ids.len() as u32;
                append(&mut self.ids, *id);
                append(&mut self.rows, row);
                insert(&mut self.order, place, number);
            }
        }
    }

    /// Puts an identifier among the live ones.
    fn wake(&mut self, id: &BlobId)
        requires { Contains self.old.ids id.now }
        ensures { self.new ≡ record self.old { live = insert_key id_cmp self.old.live id.now } }
    {
        let number = number_of(&self.ids, &self.order, id);
        match place_in(&self.ids, &self.live, id) {
            Ok(_) => (),
            Err(place) => insert(&mut self.live, place, number),
        }
    }

    /// Puts the row of an identifier at its place, in place of the one that stands there. The
    /// identifier is live.
    pub(crate) fn put(&mut self, id: &BlobId, row: Row)
        requires { 0 < self.old.spare }
        ensures ids { self.new.ids ≡ insert_key id_cmp self.old.ids id.now }
        ensures rows { (q : BlobId)
            → row_in self.new q ≡ cond (id_eq id.now q) row (row_in self.old q) }
        ensures live { self.new.live ≡ insert_key id_cmp self.old.live id.now }
        ensures spare { self.old.spare ≤ self.new.spare + 1 }
    {
        self.keep(id, row);
        self.wake(id);
    }

    /// Changes the row of an identifier that has one.
    pub(crate) fn set(&mut self, id: &BlobId, row: Row)
        requires { 0 < (row_in self.old id.now).until }
        ensures ids { self.new.ids ≡ self.old.ids }
        ensures rows { (q : BlobId)
            → row_in self.new q ≡ cond (id_eq id.now q) row (row_in self.old q) }
        ensures live { self.new.live ≡ self.old.live }
        ensures spare { self.new.spare ≡ self.old.spare }
    {
        match place_in(&self.ids, &self.order, id) {
            Ok(place) => {
                let number = self.order[place] as usize;
                self.rows[number] = row;
            }
            Err(_) => unreachable!(),
        }
    }

    /// Drops from the live ones those whose `until` is not after the reading epoch.
    pub(crate) fn retire(&mut self, epoch: u32)
        ensures { self.new ≡ record self.old {
          live = filter (λ q. nat_lt epoch (row_in self.old q).until) self.old.live;
        } }
    {
        let rows = self.rows.as_slice();
        self.live.retain(|number| until_of(rows, *number) > epoch);
    }
}

/// The `until` of the row of a number.
fn until_of(rows: &[Row], number: u32) -> u32
    ensures { result ≡ (row_of rows.now number).until }
{
    match rows.get(number as usize) {
        Some(row) => row.until,
        None => 0,
    }
}

/// Appends within the capacity.
fn append<T: Drop>(list: &mut Vec<T>, item: T)
    requires { vec_len list.old < vec_capacity list.old }
    ensures items { list.new.items ≡ list.old.items ++ item ∷ [] }
    ensures len { vec_len list.new ≡ vec_len list.old + 1 }
    ensures capacity { vec_capacity list.old ≤ vec_capacity list.new }
{
    match list.push(item) {
        Ok(()) => (),
        Err(_) => unreachable!(),
    }
}

/// Puts a number at a place, within the capacity.
fn insert(list: &mut Vec<u32>, place: usize, number: u32)
    requires room { vec_len list.old < vec_capacity list.old }
    requires place { place ≤ length list.old.items }
    ensures items { list.new.items ≡ insert list.old.items place number }
    ensures capacity { vec_capacity list.old ≤ vec_capacity list.new }
{
    match list.insert(place, number) {
        Ok(()) => (),
        Err(_) => unreachable!(),
    }
}
