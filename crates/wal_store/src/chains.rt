//! Bytes in chains of pages.

ghost use Rattle.std.specs.Prelude.{◌≡◌, ℕ, ◌+◌, ◌-◌, ◌*◌, ◌<◌, ◌≤◌, List, [], ◌∷◌, Some, None};
ghost use Rattle.std.specs.Prelude.{length, take, drop, replicate, slice_get, slice_set};
ghost use Rattle.std.specs.Prelude.{slice_index, IfOk, All, count_by};
ghost use Rattle.wal_pool.specs.Pages.{PageState, Free, Taken, is_free, page_bytes, IsTakenPage};
ghost use Rattle.wal_pool.specs.Pages.{AreWhole};
ghost use Rattle.wal_store.specs.Parts.{pages_for};
ghost use Rattle.wal_store.specs.inside.Chain.{Linked, links, joined, uses, taken_at, Adds, Frees};

use crate::holding::pages_for;
use crate::shelf::Shelf;
use std::alloc::{AllocError, Global};
use std::marker::Model;

/// Pages, and a table with the successor of each page in its chain.
pub struct Chains {
    shelf: Shelf,
    next: Vec<u32>,
}

impl Model for Chains {
    ghost Value = { Linked };

    ghost view = { λ c. record { states = c.shelf; next = c.next.items } };

    ghost invariant = { λ c. (length c.next.items ≡ length c.shelf) × (length c.shelf ≤ 262144)
        × AreWhole 4096 c.shelf };
}

impl Chains {
    /// So many pages, all free. Takes the pages and the table.
    pub fn create(alloc: Global, pages: u32) -> Result<Chains, AllocError>
        requires one { 1 ≤ pages }
        requires most { pages ≤ 262144 }
        ensures { IfOk result (λ chains. chains.states ≡ replicate pages Free) }
    {
        let next = vec![in alloc; 0u32; pages as usize]?;
        Ok(Chains {
            shelf: Shelf::create(alloc, pages)?,
            next,
        })
    }

    /// Puts a page with these bytes at its front before a chain.
    pub fn prepend(&mut self, first: u32, bytes: &[u8]) -> u32
        requires free { 0 < count_by is_free self.old.states }
        requires room { length bytes.now ≤ 4096 }
        ensures adds { Adds self.old self.new (result ∷ []) }
        ensures next { slice_index self.new.next result ≡ first }
        ensures front { take (length bytes.now) (page_bytes self.new.states result) ≡ bytes.now }
        ensures size { length (page_bytes self.new.states result) ≡ 4096 }
        ensures free { count_by is_free self.new.states + 1 ≡ count_by is_free self.old.states }
    {
        let page = self.shelf.take(bytes);
        self.next[page as usize] = first;
        page
    }

    /// Gives a page back, and answers its successor.
    pub fn remove(&mut self, page: u32) -> u32
        requires { taken_at self.old.states page ≡ 1 }
        ensures frees { Frees self.old self.new (page ∷ []) }
        ensures next { result ≡ slice_index self.old.next page }
        ensures free { count_by is_free self.new.states ≡ count_by is_free self.old.states + 1 }
    {
        self.shelf.give(page);
        self.next[page as usize]
    }

    /// The successor of a page.
    pub fn after(&self, page: u32) -> u32
        requires { taken_at self.now.states page ≡ 1 }
        ensures next { result ≡ slice_index self.now.next page }
        ensures size { length (page_bytes self.now.states page) ≡ 4096 }
    {
        self.next[page as usize]
    }

    /// Lends the bytes of a page.
    pub fn bytes(&self, page: u32) -> &[u8]
        requires { taken_at self.now.states page ≡ 1 }
        ensures held { result.now ≡ page_bytes self.now.states page }
        ensures size { length result.now ≡ 4096 }
    {
        self.shelf.bytes(page)
    }

    /// How many pages are free.
    pub fn free(&self) -> u32
        ensures { result ≡ count_by is_free self.now.states }
    {
        self.shelf.free()
    }

    /// Lets all pages go, which have been given back before.
    pub fn close(self)
        requires { (k : ℕ) → taken_at self.states k ≡ 0 }
    {
        let Chains { shelf, next: _next } = self;
        shelf.close();
    }
}
