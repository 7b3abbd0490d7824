//! A keep over std's ordered map.

ghost use Rattle.std.specs.Prelude.{◌≡◌, true, false, ℕ, ◌+◌, ◌-◌, ◌^◌, ◌<◌, ◌≤◌, Bool, List};
ghost use Rattle.std.specs.Prelude.{Option, Some, None, Ok, Err, IsTrue, IsSome, slice_get, IfOk};
ghost use Rattle.std.specs.Prelude.{IfSome, OnOk, OnErr, length};
ghost use Rattle.std.specs.Option.{option_map, ForSome};
ghost use Rattle.std.specs.FinMap as map;
ghost use Rattle.std.specs.BTreeMap.{IsOrdered, is_at, insert_entry};
ghost use Rattle.std.specs.Map.{keys_of, remove_entry};
ghost use Rattle.wal_shape.specs.Shape.{most_bytes};
ghost use Rattle.wal_shape.specs.Identifiers.{id_cmp};
ghost use Rattle.wal_store.specs.Parts.{Parts, is_empty, is_fit, no_parts, part_of, with_part};
ghost use Rattle.wal_store.specs.Parts.{part_cost, cost_of, pages_for};
ghost use Rattle.wal_store.specs.Contents.{Contents, StoreState, part_at, cost};
ghost use Rattle.wal_store.specs.declared.map_keep.Budget.{Budget};
ghost use Rattle.wal_store.specs.Entries.{key_past};
ghost use Rattle.wal_store.specs.inside.Entries.{parts_in, found_in, cost_in, cost_at, needed_in};
ghost use Rattle.wal_store.specs.inside.Entries.{changed_in, freed_in, InBudget, past_bound};
ghost use Rattle.wal_store.specs.inside.Entries.{room_answer};

use crate::contract::{Keep, KeepError};
use crate::holding::{Holding, pages_for};
use std::alloc::{AllocError, Global};
use std::collections::BTreeMap;
use std::marker::Model;
use std::ops::Bound;
use wal_shape::{BlobId, Bytes, Part};

/// The holdings, by their identifiers.
type Holdings = BTreeMap<BlobId, Holding>;

/// A limit in pages, and how many the holdings cost.
#[derive(Clone, Copy, Drop)]
struct Budget {
    limit: u32,
    used: u32,
}

/// A keep over std's ordered map. It takes memory when a part is put.
#[derive(Drop)]
pub struct MapKeep {
    alloc: Global,
    holdings: Holdings,
    budget: Option<Budget>,
}

impl Model for MapKeep {
    ghost use Rattle.wal_store.specs.Contents.{StoreState};
    ghost use Rattle.wal_store.specs.inside.Contents.{store_code};

    ghost Value = { StoreState };

    ghost coded = { store_code };

    ghost use Rattle.std.specs.Prelude.{ℕ, ◌^◌, ◌<◌, length};
    ghost use Rattle.std.specs.Option.{option_map};
    ghost use Rattle.std.specs.FinMap.{from_sorted};
    ghost use Rattle.std.specs.BTreeMap.{IsOrdered};
    ghost use Rattle.wal_shape.specs.Identifiers.{id_cmp};
    ghost use Rattle.wal_store.specs.inside.Entries.{cost_in, AreKept, InBudget};

    ghost view = { λ k. record {
      contents = from_sorted k.holdings.entries;
      limit = option_map (λ b. b.limit) k.budget;
    } };

    ghost invariant = { λ k. IsOrdered id_cmp k.holdings
        × (length k.holdings.entries < 2 ^ 32)
        × InBudget k.budget (cost_in k.holdings.entries)
        × AreKept k.holdings.entries };
}

impl MapKeep {
    /// An empty keep of at most so many pages, or without a limit.
    pub fn create(alloc: Global, limit: Option<u32>) -> Result<MapKeep, AllocError>
        ensures { IfOk result (λ keep. keep ≡ record { contents = map.empty; limit = limit }) }
    {
        Ok(MapKeep {
            alloc,
            holdings: BTreeMap::new(alloc),
            budget: unused(limit),
        })
    }

    /// A keep of the same holdings, in memory of its own.
    pub fn duplicate(&self, alloc: Global) -> Result<MapKeep, AllocError>
        ensures { IfOk result (λ copy. copy ≡ self.now) }
    {
        Ok(MapKeep {
            alloc,
            holdings: duplicate_all(alloc, &self.holdings)?,
            budget: self.budget,
        })
    }
}

impl Keep for MapKeep {
    ghost contents = { λ k. k.contents };

    ghost limit = { λ k. k.limit };

    ghost may_want = { true };

    fn put(&mut self, id: &BlobId, part: Part, bytes: &[u8]) -> Result<(), KeepError> {
        let needed = needed(&self.holdings, id, bytes.len() as u32);
        match room(self.budget, needed) {
            Err(full) => return Err(full),
            Ok(()) => (),
        }
        if self.holdings.len() >= u32::MAX as usize {
            return Err(KeepError::Memory);
        }
        let Ok(copy) = Vec::from_slice(self.alloc, bytes) else {
            return Err(KeepError::Memory);
        };
        match store(&mut self.holdings, id, part, Bytes::from_vec(copy)) {
            Err(_) => Err(KeepError::Memory),
            Ok(()) => {
                self.budget = recharged(self.budget, 0, needed);
                Ok(())
            }
        }
    }

    fn size(&self, id: &BlobId, part: Part) -> Option<u32> {
        size_under(&self.holdings, id, part)
    }

    fn copy(&self, id: &BlobId, part: Part, at: u32, out: &mut [u8]) {
        let start = at as usize;
        let end = start + out.len();
        out.copy_from_slice(&bytes_under(&self.holdings, id, part)[start..end]);
    }

    fn drop_part(&mut self, id: &BlobId, part: Part) {
        let freed = freed(&self.holdings, id, part);
        clear(&mut self.holdings, id, part);
        self.budget = recharged(self.budget, freed, 0);
    }

    fn drop_id(&mut self, id: &BlobId) {
        let freed = cost_under(&self.holdings, id);
        forget(&mut self.holdings, id);
        self.budget = recharged(self.budget, freed, 0);
    }

    fn count(&self) -> u32 {
        self.holdings.len() as u32
    }

    fn id_at(&self, place: u32) -> BlobId {
        key_at(&self.holdings, place as usize)
    }

    fn next_id(&self, last: Option<BlobId>) -> Option<BlobId> {
        key_past(&self.holdings, last)
    }
}

/// The number of bytes of a part.
fn size_under(holdings: &Holdings, id: &BlobId, part: Part) -> Option<u32>
    ensures value { result
        ≡ option_map length (part_of (parts_in holdings.now.entries id.now) part) }
    ensures range { IfSome result (λ n. (1 ≤ n) × (n ≤ most_bytes)) }
{
    match holdings.get(id) {
        Some(holding) => holding.size(part),
        None => None,
    }
}

/// The bytes of a part.
fn bytes_under<'a>(holdings: &'a Holdings, id: &BlobId, part: Part) -> &'a [u8]
    requires { IsSome (part_of (parts_in holdings.now.entries id.now) part) }
    ensures { part_of (parts_in holdings.now.entries id.now) part ≡ Some result.now }
{
    match holdings.get(id) {
        Some(holding) => match holding.part(part) {
            Some(bytes) => bytes.as_slice(),
            None => unreachable!(),
        },
        None => unreachable!(),
    }
}

/// The identifier at a place.
fn key_at(holdings: &Holdings, place: usize) -> BlobId
    requires { place < length holdings.now.entries }
    ensures { slice_get (keys_of holdings.now.entries) place ≡ Some result }
{
    match holdings.keys().nth(place) {
        Some(id) => *id,
        None => unreachable!(),
    }
}

/// The keys past an identifier begin here.
fn start_past(last: Option<BlobId>) -> Bound<BlobId>
    ensures { result ≡ past_bound last }
{
    match last {
        Some(id) => Bound::Excluded(id),
        None => Bound::Unbounded,
    }
}

/// The first identifier past this one.
fn key_past(holdings: &Holdings, last: Option<BlobId>) -> Option<BlobId>
    ensures { result ≡ key_past holdings.now.entries last }
{
    let mut past = holdings.range((start_past(last), Bound::Unbounded));
    match past.next() {
        Some((id, _)) => Some(*id),
        None => None,
    }
}

/// Lets a holding go.
fn forget(holdings: &mut Holdings, id: &BlobId)
    ensures gone { holdings.new.entries
        ≡ remove_entry (is_at (id_cmp id.now)) holdings.old.entries }
    ensures ordered { IsOrdered id_cmp holdings.new }
    ensures fewer { length holdings.new.entries ≤ length holdings.old.entries }
{
    holdings.remove(id);
}

/// A budget of which nothing is used.
fn unused(limit: Option<u32>) -> Option<Budget>
    ensures { result ≡ option_map {T = ℕ} (λ most. record { limit = most; used = 0 }) limit }
{
    match limit {
        Some(limit) => Some(Budget { limit, used: 0 }),
        None => None,
    }
}

/// Whether so many pages are free.
fn room(budget: Option<Budget>, needed: u32) -> Result<(), KeepError>
    requires { ForSome budget (λ b. b.used ≤ b.limit) }
    ensures { result ≡ room_answer budget needed }
{
    match budget {
        Some(Budget { limit, used }) if limit - used < needed => Err(KeepError::Full {
            needed,
            free: limit - used,
        }),
        _ => Ok(()),
    }
}

/// The budget after holdings went that cost so many pages, and others came.
fn recharged(budget: Option<Budget>, gone: u32, more: u32) -> Option<Budget>
    requires { ForSome budget (λ b. (gone ≤ b.used) × (b.used - gone + more ≤ b.limit)) }
    ensures { result
        ≡ option_map {T = Budget} (λ b. record b { used = b.used - gone + more }) budget }
{
    match budget {
        Some(Budget { limit, used }) => Some(Budget {
            limit,
            used: used - gone + more,
        }),
        None => None,
    }
}

/// The pages that one more part takes.
fn needed(holdings: &Holdings, id: &BlobId, size: u32) -> u32
    requires { size ≤ most_bytes }
    ensures value { result ≡ needed_in holdings.now.entries id.now size }
    ensures most { result ≤ 4097 }
{
    let first = if holdings.contains_key(id) { 0 } else { 1 };
    first + pages_for(size)
}

/// The pages of the holding under an identifier.
fn cost_under(holdings: &Holdings, id: &BlobId) -> u32
    ensures value { result ≡ cost_at holdings.now.entries id.now }
    ensures most { result ≤ 16385 }
{
    match holdings.get(id) {
        Some(holding) => holding.cost(),
        None => 0,
    }
}

/// The pages of a part.
fn cost_of_part(holdings: &Holdings, id: &BlobId, part: Part) -> u32
    ensures value { result ≡ part_cost (part_of (parts_in holdings.now.entries id.now) part) }
    ensures most { result ≤ 4096 }
{
    match holdings.get(id) {
        Some(holding) => holding.cost_of(part),
        None => 0,
    }
}

/// The pages that a part frees when it goes.
fn freed(holdings: &Holdings, id: &BlobId, part: Part) -> u32
    ensures { result ≡ freed_in holdings.now.entries id.now part }
{
    if is_last(holdings, id, part) {
        cost_under(holdings, id)
    } else {
        cost_of_part(holdings, id, part)
    }
}

/// Puts a holding in its place.
fn add(holdings: &mut Holdings, id: &BlobId, holding: Holding) -> Result<(), AllocError>
    ensures added { OnOk result (holdings.new.entries
        ≡ insert_entry id_cmp holdings.old.entries id.now holding) }
    ensures refused { OnErr result (holdings.new.entries ≡ holdings.old.entries) }
    ensures ordered { IsOrdered id_cmp holdings.new }
    ensures more { length holdings.new.entries ≤ length holdings.old.entries + 1 }
{
    holdings.insert(*id, holding)?;
    Ok(())
}

/// Stores the bytes of a part.
fn store(holdings: &mut Holdings, id: &BlobId, part: Part, bytes: Bytes) -> Result<(), AllocError>
    requires { IsTrue (is_fit (Some bytes)) }
    ensures stored { OnOk result (holdings.new.entries ≡ insert_entry id_cmp holdings.old.entries
        id.now (with_part (parts_in holdings.old.entries id.now) part (Some bytes))) }
    ensures refused { OnErr result (holdings.new.entries ≡ holdings.old.entries) }
    ensures ordered { IsOrdered id_cmp holdings.new }
    ensures more { length holdings.new.entries ≤ length holdings.old.entries + 1 }
{
    match holdings.get_mut(id) {
        Some(holding) => {
            holding.set(part, Some(bytes));
            Ok(())
        }
        None => {
            let mut holding = Holding::empty();
            holding.set(part, Some(bytes));
            add(holdings, id, holding)
        }
    }
}

/// Whether nothing else is held than this part.
fn is_last(holdings: &Holdings, id: &BlobId, part: Part) -> bool
    ensures { result ≡ is_empty (with_part (parts_in holdings.now.entries id.now) part None) }
{
    match holdings.get(id) {
        Some(holding) => holding.is_empty_without(part),
        None => true,
    }
}

/// Lets one of several parts go.
fn unset(holdings: &mut Holdings, id: &BlobId, part: Part)
    requires { is_empty (with_part (parts_in holdings.old.entries id.now) part None) ≡ false }
    ensures unset { holdings.new.entries ≡ insert_entry id_cmp holdings.old.entries id.now
        (with_part (parts_in holdings.old.entries id.now) part None) }
    ensures ordered { IsOrdered id_cmp holdings.new }
    ensures as_many { length holdings.new.entries ≡ length holdings.old.entries }
{
    match holdings.get_mut(id) {
        Some(holding) => holding.set(part, None),
        None => unreachable!(),
    }
}

/// Lets a part go.
fn clear(holdings: &mut Holdings, id: &BlobId, part: Part)
    ensures cleared { holdings.new.entries ≡ changed_in holdings.old.entries id.now
        (with_part (parts_in holdings.old.entries id.now) part None) }
    ensures ordered { IsOrdered id_cmp holdings.new }
    ensures fewer { length holdings.new.entries ≤ length holdings.old.entries }
{
    if is_last(holdings, id, part) {
        forget(holdings, id);
    } else {
        unset(holdings, id, part);
    }
}

/// Equal holdings, in memory of their own.
fn duplicate_all(alloc: Global, holdings: &Holdings) -> Result<Holdings, AllocError>
    ensures same { IfOk result (λ copy. copy.entries ≡ holdings.now.entries) }
    ensures ordered { IfOk result (IsOrdered id_cmp) }
{
    let mut copy = BTreeMap::new(alloc);
    for (id, holding) in holdings.iter() {
        add(&mut copy, id, holding.duplicate(alloc)?)?;
    }
    Ok(copy)
}
