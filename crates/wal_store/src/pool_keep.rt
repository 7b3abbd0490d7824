//! A keep over a pool of pages.

ghost use Rattle.std.specs.Prelude.{◌≡◌, false, ℕ, ◌≤◌, Some, IfOk};
ghost use Rattle.std.specs.FinMap as map;
ghost use Rattle.wal_store.specs.inside.Rows.{Owns};

use crate::chains::Chains;
use crate::contract::{Keep, KeepError};
use crate::kept::{copy_part, drop_all, drop_one, needed_by, put_part, size_of};
use crate::ordered::{OrderedRows, id_past};
use std::alloc::{AllocError, Global};
use std::marker::Model;
use wal_shape::{BlobId, Part};

/// A keep over a fixed number of pages. It takes all of its memory when it is made.
///
/// A holding costs a page of its own, and a part stands in a chain of pages that are full of its
/// bytes, the last one perhaps in part. The rows stay where they were written, and the order of
/// their identifiers is a list of numbers.
pub struct PoolKeep {
    chains: Chains,
    rows: OrderedRows,
    pages: u32,
}

impl Model for PoolKeep {
    ghost use Rattle.wal_store.specs.Contents.{StoreState};
    ghost use Rattle.wal_store.specs.inside.Contents.{store_code};

    ghost Value = { StoreState };

    ghost coded = { store_code };

    ghost use Rattle.std.specs.Prelude.{◌≡◌, ℕ, ◌≤◌, Some};
    ghost use Rattle.std.specs.FinMap.{from_sorted};
    ghost use Rattle.wal_shape.specs.Identifiers.{id_cmp};
    ghost use Rattle.wal_store.specs.inside.Rows.{entries_of, Owns};
    ghost use Rattle.wal_store.specs.inside.Entries.{AreKept};
    ghost use Rattle.wal_store.specs.inside.Table.{all_pages};

    ghost view = { λ k. record {
      contents = from_sorted (entries_of k.chains k.rows.items);
      limit = Some k.pages;
    } };

    ghost invariant = { λ k. Owns k.chains k.rows.items
        × (all_pages k.chains k.rows.items ≡ k.pages)
        × (k.pages ≤ 262144)
        × (k.pages ≤ k.rows.room)
        × AreKept (entries_of k.chains k.rows.items) };
}

impl PoolKeep {
    /// An empty keep of so many pages.
    pub fn create(alloc: Global, pages: u32) -> Result<PoolKeep, AllocError>
        requires one { 1 ≤ pages }
        requires most { pages ≤ 262144 }
        ensures { IfOk result (λ keep. keep ≡ record { contents = map.empty; limit = Some pages }) }
    {
        let rows = OrderedRows::create(alloc, pages)?;
        Ok(PoolKeep {
            chains: Chains::create(alloc, pages)?,
            rows,
            pages,
        })
    }

    /// Lets the keep go, with all that it holds. Each page is given back to the pool.
    pub fn close(self) {
        let PoolKeep {
            chains,
            rows,
            pages: _pages,
        } = self;
        empty(chains, rows);
    }
}

/// Gives all pages back.
fn empty(chains: Chains, rows: OrderedRows)
    requires { Owns chains rows.items }
{
    let mut chains = chains;
    let mut rows = rows;
    while rows.len() > 0 {
        let id = rows.row(0).id;
        drop_all(&mut chains, &mut rows, &id);
    }
    chains.close();
}

impl Keep for PoolKeep {
    ghost contents = { λ k. k.contents };

    ghost limit = { λ k. k.limit };

    ghost may_want = { false };

    fn put(&mut self, id: &BlobId, part: Part, bytes: &[u8]) -> Result<(), KeepError> {
        let needed = needed_by(&self.chains, &self.rows, id, bytes.len() as u32);
        let free = self.chains.free();
        if free < needed {
            return Err(KeepError::Full { needed, free });
        }
        put_part(&mut self.chains, &mut self.rows, id, part, bytes);
        Ok(())
    }

    fn size(&self, id: &BlobId, part: Part) -> Option<u32> {
        size_of(&self.chains, &self.rows, id, part)
    }

    fn copy(&self, id: &BlobId, part: Part, at: u32, out: &mut [u8]) {
        copy_part(&self.chains, &self.rows, id, part, at, out);
    }

    fn drop_part(&mut self, id: &BlobId, part: Part) {
        drop_one(&mut self.chains, &mut self.rows, id, part);
    }

    fn drop_id(&mut self, id: &BlobId) {
        drop_all(&mut self.chains, &mut self.rows, id);
    }

    fn count(&self) -> u32 {
        self.rows.len() as u32
    }

    fn id_at(&self, place: u32) -> BlobId {
        self.rows.row(place as usize).id
    }

    fn next_id(&self, last: Option<BlobId>) -> Option<BlobId> {
        id_past(&self.rows, last)
    }
}
