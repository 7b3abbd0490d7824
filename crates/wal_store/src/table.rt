//! The rows of a keep and the chains of pages that they own, changed together.

ghost use Rattle.std.specs.Prelude.{◌≡◌, ℕ, ◌+◌, ◌<◌, ◌≤◌, List, Some, None, length, slice_get};
ghost use Rattle.std.specs.Prelude.{slice_set, count_by};
ghost use Rattle.std.specs.List.{insert, remove};
ghost use Rattle.wal_pool.specs.Pages.{is_free};
ghost use Rattle.wal_shape.specs.Shape.{most_bytes};
ghost use Rattle.wal_store.specs.Parts.{no_parts, with_part, pages_for};
ghost use Rattle.wal_store.specs.inside.Chain.{Linked, links};
ghost use Rattle.wal_store.specs.inside.Rows.{slot_of, with_slot, no_slots, slot_links, slot_cost};
ghost use Rattle.wal_store.specs.inside.Rows.{parts_of, ids_of, entries_of, Owns, IsGap};
ghost use Rattle.wal_store.specs.inside.Table.{all_pages};
ghost use Rattle.wal_store.specs.declared.rows.Row.{Row};
ghost use Rattle.wal_store.specs.declared.rows.Slot.{Slot};

use crate::chains::Chains;
use crate::holding::pages_for;
use crate::ordered::OrderedRows;
use crate::rows::{Row, Slot};
use crate::stored::{discard, store};
use wal_shape::{BlobId, Part};

/// Stores the bytes of a part in the row at a place.
pub fn fill(chains: &mut Chains, rows: &mut OrderedRows, place: usize, part: Part, bytes: &[u8])
    requires owns { Owns chains.old rows.old.items }
    requires place { place < length rows.old.items }
    requires absent { (r : Row) → slice_get rows.old.items place ≡ Some r → slot_of r part ≡ None }
    requires some { 1 ≤ length bytes.now }
    requires most { length bytes.now ≤ most_bytes }
    requires room { pages_for (length bytes.now) ≤ count_by is_free chains.old.states }
    ensures owns { Owns chains.new rows.new.items }
    ensures entries { (r : Row) → slice_get rows.old.items place ≡ Some r
        → entries_of chains.new rows.new.items ≡ slice_set (entries_of chains.old rows.old.items)
        place (r.id, with_part (parts_of chains.old r) part (Some bytes.now)) }
    ensures pages { all_pages chains.new rows.new.items ≡ all_pages chains.old rows.old.items }
    ensures ids { ids_of rows.new.items ≡ ids_of rows.old.items }
    ensures room { rows.old.room ≤ rows.new.room }
{
    let first = store(chains, bytes);
    let slot = Slot {
        first,
        size: bytes.len() as u32,
    };
    let row = rows.row(place).with(part, Some(slot));
    rows.set(place, row);
}

/// Puts a row without parts at a place.
pub fn add_row(chains: &mut Chains, rows: &mut OrderedRows, place: usize, id: &BlobId)
    requires owns { Owns chains.old rows.old.items }
    requires gap { IsGap id.now (ids_of rows.old.items) place }
    requires room { length rows.old.items < rows.old.room }
    requires free { 0 < count_by is_free chains.old.states }
    ensures owns { Owns chains.new rows.new.items }
    ensures entries { entries_of chains.new rows.new.items
        ≡ insert (entries_of chains.old rows.old.items) place (id.now, no_parts) }
    ensures pages { all_pages chains.new rows.new.items ≡ all_pages chains.old rows.old.items }
    ensures ids { ids_of rows.new.items ≡ insert (ids_of rows.old.items) place id.now }
    ensures room { rows.old.room ≤ rows.new.room }
    ensures free { count_by is_free chains.new.states + 1 ≡ count_by is_free chains.old.states }
{
    let home = chains.prepend(0, &id.0);
    rows.insert(place, Row::empty(*id, home));
}

/// Lets the row at a place go, which has no parts.
pub fn remove_row(chains: &mut Chains, rows: &mut OrderedRows, place: usize)
    requires owns { Owns chains.old rows.old.items }
    requires place { place < length rows.old.items }
    requires bare { (r : Row) → slice_get rows.old.items place ≡ Some r → r ≡ no_slots r.id r.home }
    ensures owns { Owns chains.new rows.new.items }
    ensures entries { entries_of chains.new rows.new.items
        ≡ remove (entries_of chains.old rows.old.items) place }
    ensures pages { all_pages chains.new rows.new.items ≡ all_pages chains.old rows.old.items }
    ensures room { rows.old.room ≤ rows.new.room }
{
    let row = rows.remove(place);
    chains.remove(row.home);
}

/// The first page of a part, and how many it has.
fn extent(slot: Option<Slot>) -> (u32, u32)
    requires { (s : Slot) → slot ≡ Some s → s.size ≤ most_bytes }
    ensures links { (next : List ℕ) → links next result.1 result.0 ≡ slot_links next slot }
    ensures cost { result.1 ≡ slot_cost slot }
{
    match slot {
        Some(slot) => (slot.first, pages_for(slot.size)),
        None => (0, 0),
    }
}

/// Lets a part of the row at a place go.
pub fn clear(chains: &mut Chains, rows: &mut OrderedRows, place: usize, part: Part)
    requires owns { Owns chains.old rows.old.items }
    requires place { place < length rows.old.items }
    ensures owns { Owns chains.new rows.new.items }
    ensures entries { (r : Row) → slice_get rows.old.items place ≡ Some r
        → entries_of chains.new rows.new.items ≡ slice_set (entries_of chains.old rows.old.items)
        place (r.id, with_part (parts_of chains.old r) part None) }
    ensures row { (r : Row) → slice_get rows.old.items place ≡ Some r
        → rows.new.items ≡ slice_set rows.old.items place (with_slot r part None) }
    ensures pages { all_pages chains.new rows.new.items ≡ all_pages chains.old rows.old.items }
    ensures ids { ids_of rows.new.items ≡ ids_of rows.old.items }
    ensures room { rows.old.room ≤ rows.new.room }
{
    let row = *rows.row(place);
    let (first, count) = extent(row.slot(part));
    discard(chains, first, count);
    rows.set(place, row.with(part, None));
}
