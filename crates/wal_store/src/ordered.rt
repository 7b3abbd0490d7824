//! Rows that stay where they were written, and their order as a list of numbers.

ghost use Rattle.std.specs.Prelude.{◌≡◌, ℕ, ◌<◌, ◌≤◌, List, [], Some, IfOk, IfErr, filter, length};
ghost use Rattle.std.specs.Prelude.{slice_get, slice_set, slice_index_or, vec_len, vec_capacity};
ghost use Rattle.std.specs.List.{insert, remove, range_with_len};
ghost use Rattle.std.specs.List.Sorted.{IsStrictlySortedBy};
ghost use Rattle.wal_shape.specs.Identifiers.{id_cmp};
ghost use Rattle.wal_store.specs.inside.Rows.{ids_of, IsGap};
ghost use Rattle.wal_store.specs.inside.Ordered.{RowList, row_of, rows_at};
ghost use Rattle.wal_store.specs.Places.{is_past};

use crate::rows::Row;
use std::alloc::{AllocError, Global};
use std::cmp::Ordering;
use std::marker::Model;
use wal_shape::BlobId;

/// Rows in order, with room for a fixed number of them. Contracts see the list of the rows.
///
/// A row stays where it was written: what moves when another one comes or goes is its number alone,
/// of four bytes.
#[derive(Drop)]
pub struct OrderedRows {
    slots: Vec<Row>,
    order: Vec<u32>,
    unused: Vec<u32>,
    room: u32,
}

impl Model for OrderedRows {
    ghost use Rattle.std.specs.Prelude.{◌≡◌, ◌≤◌, length, vec_capacity};
    ghost use Rattle.wal_store.specs.inside.Ordered.{RowList, rows_at, IsOrder};

    ghost Value = { RowList };

    ghost view = { λ r. record { items = rows_at r.slots.items r.order.items; room = r.room } };

    ghost invariant = { λ r. IsOrder r.slots.items r.order.items r.unused.items
        × (length r.slots.items ≡ r.room)
        × (r.room ≤ 262144)
        × (r.room ≤ vec_capacity r.order)
        × (r.room ≤ vec_capacity r.unused) };
}

impl OrderedRows {
    /// No row, and room for so many.
    pub fn create(alloc: Global, room: u32) -> Result<OrderedRows, AllocError>
        requires { room ≤ 262144 }
        ensures { IfOk result (λ rows. rows ≡ record { items = []; room = room }) }
    {
        let order = Vec::with_capacity(alloc, room as usize)?;
        let unused = numbers_below(alloc, room)?;
        let slots = vec![in alloc; Row::empty(BlobId([0; 32]), 0); room as usize]?;
        Ok(OrderedRows {
            slots,
            order,
            unused,
            room,
        })
    }

    /// How many rows there are.
    pub fn len(&self) -> usize
        ensures { result ≡ length self.now.items }
    {
        self.order.len()
    }

    /// The row at a place.
    pub fn row(&self, place: usize) -> &Row
        requires { place < length self.now.items }
        ensures { result.now ≡ slice_index_or self.now.items place result.now }
    {
        let number = self.order[place];
        &self.slots[number as usize]
    }

    /// The place of an identifier, or where it belongs.
    pub fn place(&self, id: &BlobId) -> Result<usize, usize>
        requires { IsStrictlySortedBy id_cmp (ids_of self.now.items) }
        ensures found { IfOk result
            (λ place. slice_get (ids_of self.now.items) place ≡ Some id.now) }
        ensures within { IfOk result (λ place. place < length self.now.items) }
        ensures gap { IfErr result (IsGap id.now (ids_of self.now.items)) }
    {
        place_in(&self.slots, &self.order, id)
    }

    /// Writes over the row at a place.
    pub fn set(&mut self, place: usize, row: Row)
        requires { place < length self.old.items }
        ensures items { self.new.items ≡ slice_set self.old.items place row }
        ensures room { self.new.room ≡ self.old.room }
    {
        let number = self.order[place];
        self.slots[number as usize] = row;
    }

    /// Puts a row before the one at a place.
    pub fn insert(&mut self, place: usize, row: Row)
        requires place { place ≤ length self.old.items }
        requires room { length self.old.items < self.old.room }
        ensures items { self.new.items ≡ insert self.old.items place row }
        ensures room { self.new.room ≡ self.old.room }
    {
        let Some(number) = self.unused.pop() else {
            unreachable!();
        };
        self.slots[number as usize] = row;
        match self.order.insert(place, number) {
            Ok(()) => (),
            Err(_) => unreachable!(),
        }
    }

    /// Takes the row at a place out.
    pub fn remove(&mut self, place: usize) -> Row
        requires { place < length self.old.items }
        ensures value { result ≡ slice_index_or self.old.items place result }
        ensures items { self.new.items ≡ remove self.old.items place }
        ensures room { self.new.room ≡ self.old.room }
    {
        let number = self.order.remove(place);
        match self.unused.push(number) {
            Ok(()) => (),
            Err(_) => unreachable!(),
        }
        self.slots[number as usize]
    }
}

/// The numbers from 0 on.
fn numbers_below(alloc: Global, count: u32) -> Result<Vec<u32>, AllocError>
    ensures items { IfOk result (λ numbers. numbers.items ≡ range_with_len 0 count) }
    ensures capacity { IfOk result (λ numbers. count ≤ vec_capacity numbers) }
{
    let mut numbers = Vec::with_capacity(alloc, count as usize)?;
    for number in 0..count {
        match numbers.push(number) {
            Ok(()) => (),
            Err(_) => unreachable!(),
        }
    }
    Ok(numbers)
}

/// How the identifier in a slot compares to another one.
fn compare(slots: &[Row], number: u32, id: &BlobId) -> Ordering
    ensures { result ≡ id_cmp (row_of slots.now number).id id.now }
{
    match slots.get(number as usize) {
        Some(row) => row.id.cmp(id),
        None => BlobId([0; 32]).cmp(id),
    }
}

/// The place of an identifier among the rows with these numbers, or where it belongs.
fn place_in(slots: &[Row], numbers: &[u32], id: &BlobId) -> Result<usize, usize>
    requires { IsStrictlySortedBy id_cmp (ids_of (rows_at slots.now numbers.now)) }
    ensures found { IfOk result
        (λ place. slice_get (ids_of (rows_at slots.now numbers.now)) place ≡ Some id.now) }
    ensures gap { IfErr result (IsGap id.now (ids_of (rows_at slots.now numbers.now))) }
{
    numbers.binary_search_by(|number| compare(slots, *number, id))
}

/// The first identifier past this one, or the first of all.
pub fn id_past(rows: &OrderedRows, last: Option<BlobId>) -> Option<BlobId>
    requires { IsStrictlySortedBy id_cmp (ids_of rows.now.items) }
    ensures { result ≡ slice_get (filter (is_past last) (ids_of rows.now.items)) 0 }
{
    match last {
        Some(id) => id_behind(rows, &id),
        None => id_from(rows, 0),
    }
}

/// The first identifier past this one.
fn id_behind(rows: &OrderedRows, id: &BlobId) -> Option<BlobId>
    requires { IsStrictlySortedBy id_cmp (ids_of rows.now.items) }
    ensures { result ≡ slice_get (filter (is_past (Some id.now)) (ids_of rows.now.items)) 0 }
{
    let count = rows.len();
    match rows.place(id) {
        Ok(place) => {
            prove!(place < count);
            id_from(rows, place + 1)
        }
        Err(place) => id_from(rows, place),
    }
}

/// The identifier at a place, if there is one.
fn id_from(rows: &OrderedRows, place: usize) -> Option<BlobId>
    ensures { result ≡ slice_get (ids_of rows.now.items) place }
{
    if place < rows.len() {
        Some(rows.row(place).id)
    } else {
        None
    }
}
