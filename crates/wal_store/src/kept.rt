//! The holdings of a table of rows, by their identifiers.

ghost use Rattle.std.specs.Prelude.{◌≡◌, false, ℕ, ◌+◌, ◌<◌, ◌≤◌, List, [], Option, Some, None};
ghost use Rattle.std.specs.Prelude.{is_some, if◌then◌else◌, IsSome, IfSome, IfOk, IfErr, OnOk};
ghost use Rattle.std.specs.Prelude.{OnErr, length, take, drop, unwrap_or, slice_get, count_by};
ghost use Rattle.std.specs.Option.{option_map};
ghost use Rattle.std.specs.BTreeMap.{is_at, insert_entry};
ghost use Rattle.std.specs.Map.{remove_entry};
ghost use Rattle.wal_pool.specs.Pages.{is_free};
ghost use Rattle.wal_shape.specs.Shape.{most_bytes};
ghost use Rattle.wal_shape.specs.Identifiers.{id_cmp};
ghost use Rattle.wal_store.specs.Parts.{Parts, no_parts, part_of, with_part, pages_for};
ghost use Rattle.wal_store.specs.inside.Entries.{found_in, parts_in, needed_in, changed_in};
ghost use Rattle.wal_store.specs.inside.Chain.{Linked};
ghost use Rattle.wal_store.specs.inside.Rows.{ids_of, entries_of, Owns};
ghost use Rattle.wal_store.specs.inside.Table.{all_pages};

use crate::chains::Chains;
use crate::holding::pages_for;
use crate::ordered::OrderedRows;
use crate::stored::read;
use crate::table::{add_row, clear, fill, remove_row};
use wal_shape::{BlobId, Part};

/// The pages that one more part takes.
pub fn needed_by(chains: &Chains, rows: &OrderedRows, id: &BlobId, size: u32) -> u32
    requires owns { Owns chains.now rows.now.items }
    requires most { size ≤ most_bytes }
    ensures { result ≡ needed_in (entries_of chains.now rows.now.items) id.now size }
{
    match rows.place(id) {
        Ok(_) => pages_for(size),
        Err(_) => 1 + pages_for(size),
    }
}

/// The place of an identifier's row, which is made where there is none.
fn row_for(chains: &mut Chains, rows: &mut OrderedRows, id: &BlobId) -> usize
    requires owns { Owns chains.old rows.old.items }
    requires room { length rows.old.items < rows.old.room }
    requires free { found_in (entries_of chains.old rows.old.items) id.now ≡ None
        → 0 < count_by is_free chains.old.states }
    ensures owns { Owns chains.new rows.new.items }
    ensures place { slice_get (ids_of rows.new.items) result ≡ Some id.now }
    ensures parts { parts_in (entries_of chains.new rows.new.items) id.now
        ≡ parts_in (entries_of chains.old rows.old.items) id.now }
    ensures entries { (p : Parts)
        → insert_entry id_cmp (entries_of chains.new rows.new.items) id.now p
        ≡ insert_entry id_cmp (entries_of chains.old rows.old.items) id.now p }
    ensures pages { all_pages chains.new rows.new.items ≡ all_pages chains.old rows.old.items }
    ensures room { rows.old.room ≤ rows.new.room }
    ensures free { count_by is_free chains.new.states
        + (if is_some (found_in (entries_of chains.old rows.old.items) id.now) then 0 else 1)
        ≡ count_by is_free chains.old.states }
{
    match rows.place(id) {
        Ok(place) => place,
        Err(place) => {
            add_row(chains, rows, place, id);
            place
        }
    }
}

/// Stores a part for which there is room.
pub fn put_part(chains: &mut Chains, rows: &mut OrderedRows, id: &BlobId, part: Part, bytes: &[u8])
    requires owns { Owns chains.old rows.old.items }
    requires absent { part_of (parts_in (entries_of chains.old rows.old.items) id.now) part ≡ None }
    requires some { 1 ≤ length bytes.now }
    requires most { length bytes.now ≤ most_bytes }
    requires capacity { length rows.old.items < rows.old.room }
    requires room { needed_in (entries_of chains.old rows.old.items) id.now (length bytes.now)
        ≤ count_by is_free chains.old.states }
    ensures owns { Owns chains.new rows.new.items }
    ensures entries { entries_of chains.new rows.new.items ≡ insert_entry id_cmp
        (entries_of chains.old rows.old.items) id.now
        (with_part (parts_in (entries_of chains.old rows.old.items) id.now) part (Some bytes.now)) }
    ensures pages { all_pages chains.new rows.new.items ≡ all_pages chains.old rows.old.items }
    ensures capacity { rows.old.room ≤ rows.new.room }
{
    let place = row_for(chains, rows, id);
    fill(chains, rows, place, part, bytes);
}

/// The number of bytes of a part.
pub fn size_of(chains: &Chains, rows: &OrderedRows, id: &BlobId, part: Part) -> Option<u32>
    requires { Owns chains.now rows.now.items }
    ensures value { result
        ≡ option_map length
        (part_of (parts_in (entries_of chains.now rows.now.items) id.now) part) }
    ensures range { IfSome result (λ n. (1 ≤ n) × (n ≤ most_bytes)) }
{
    match rows.place(id) {
        Ok(place) => match rows.row(place).slot(part) {
            Some(slot) => Some(slot.size),
            None => None,
        },
        Err(_) => None,
    }
}

/// Lets a part go, and the row with the last one.
pub fn drop_one(chains: &mut Chains, rows: &mut OrderedRows, id: &BlobId, part: Part)
    requires { Owns chains.old rows.old.items }
    ensures owns { Owns chains.new rows.new.items }
    ensures entries { entries_of chains.new rows.new.items ≡ changed_in
        (entries_of chains.old rows.old.items) id.now
        (with_part (parts_in (entries_of chains.old rows.old.items) id.now) part None) }
    ensures pages { all_pages chains.new rows.new.items ≡ all_pages chains.old rows.old.items }
    ensures capacity { rows.old.room ≤ rows.new.room }
{
    match rows.place(id) {
        Ok(place) => {
            clear(chains, rows, place, part);
            if rows.row(place).is_bare() {
                remove_row(chains, rows, place);
            }
        }
        Err(_) => (),
    }
}

/// Lets all parts of an identifier go, and its row.
pub fn drop_all(chains: &mut Chains, rows: &mut OrderedRows, id: &BlobId)
    requires { Owns chains.old rows.old.items }
    ensures owns { Owns chains.new rows.new.items }
    ensures entries { entries_of chains.new rows.new.items
        ≡ remove_entry (is_at (id_cmp id.now)) (entries_of chains.old rows.old.items) }
    ensures pages { all_pages chains.new rows.new.items ≡ all_pages chains.old rows.old.items }
    ensures capacity { rows.old.room ≤ rows.new.room }
{
    drop_one(chains, rows, id, Part::Metadata);
    drop_one(chains, rows, id, Part::Primary);
    drop_one(chains, rows, id, Part::Secondary);
    drop_one(chains, rows, id, Part::Proof);
}

/// Copies the bytes of a part that stand from a place on.
pub fn copy_part(
    chains: &Chains,
    rows: &OrderedRows,
    id: &BlobId,
    part: Part,
    at: u32,
    out: &mut [u8],
)
    requires owns { Owns chains.now rows.now.items }
    requires held { IsSome (part_of (parts_in (entries_of chains.now rows.now.items) id.now) part) }
    requires range { at + length out.old ≤ length (unwrap_or
        (part_of (parts_in (entries_of chains.now rows.now.items) id.now) part) []) }
    ensures { out.new ≡ take (length out.old) (drop at (unwrap_or
        (part_of (parts_in (entries_of chains.now rows.now.items) id.now) part) [])) }
{
    match rows.place(id) {
        Ok(place) => match rows.row(place).slot(part) {
            Some(slot) => read(chains, slot.first, pages_for(slot.size), at as usize, out),
            None => unreachable!(),
        },
        Err(_) => unreachable!(),
    }
}
