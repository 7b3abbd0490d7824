//! A fixed number of pages in one region of memory. The region is taken when the pool is made, and
//! no later call takes memory.
#![tactic(auto)]

ghost use Rattle.std.specs.Prelude.{◌≡◌, ℕ, ◌+◌, ◌*◌, ◌≤◌, List, Some, length, replicate};
ghost use Rattle.std.specs.Prelude.{slice_get, slice_set, IfOk, OnErr, IsTrue, count_by, All};
ghost use Rattle.wal_pool.specs.inside.FreeList.{page_of, next, chain, is_free_list, states};
ghost use Rattle.wal_pool.specs.Pages.{PageState, Free, Taken, is_free, page_bytes, IsTakenPage};
ghost use Rattle.wal_pool.specs.Pages.{AreWhole, overwrite};

use std::alloc::{AllocError, Global};
use std::marker::Model;

/// The bytes of a page.
pub const PAGE_SIZE: usize = 4096;

/// No page is free.
#[derive(Clone, Copy, Debug, Drop)]
pub struct NoPage;

/// The right to a page that was taken. It is spent by [`Pool::give`], and in no other way.
/// Contracts see the page's number in its pool, from 0.
pub struct Page {
    number: u32,
}

impl Model for Page {
    ghost Value = { ℕ };

    ghost view = { λ p. p.number };
}

impl Page {
    /// The page's number in its pool, from 0.
    pub fn number(&self) -> u32
        ensures { result ≡ self.now }
    {
        self.number
    }
}

/// Pages of 4,096 bytes, each free or taken. Contracts see the list of their states, and each call
/// but `close` says that a page which is taken has all its bytes.
///
/// The free pages form a list in the region itself: each begins with the number of the next, four
/// bytes with the most significant first.
pub struct Pool {
    region: Vec<u8>,
    pages: u32,
    first: u32,
    free: u32,
}

impl Model for Pool {
    ghost Value = { List PageState };

    ghost view = { λ p.
        states 4096 p.pages p.region.items (chain 4096 p.region.items p.free p.first) };

    ghost invariant = { λ p.
        (length p.region.items ≡ 4096 * p.pages)
        × (p.pages ≤ 262144)
        × IsTrue (is_free_list p.pages (chain 4096 p.region.items p.free p.first))
        × (p.free ≡ count_by is_free
        (states 4096 p.pages p.region.items (chain 4096 p.region.items p.free p.first))) };
}

impl Pool {
    /// A pool of so many pages, all free. Takes one region of 4,096 bytes a page, and nothing else
    /// in this crate takes memory.
    pub fn create(alloc: Global, pages: u32) -> Result<Pool, AllocError>
        requires one { 1 ≤ pages }
        requires most { pages ≤ 262144 }
        ensures free { IfOk result (λ pool. pool ≡ replicate pages Free) }
        ensures pages { IfOk result (λ pool. length pool ≡ pages) }
        ensures whole { IfOk result (AreWhole 4096) }
    {
        let region = vec![in alloc; 0u8; PAGE_SIZE * pages as usize]?;
        let mut pool = Pool {
            region,
            pages,
            first: 0,
            free: 0,
        };
        for number in 0..pages {
            pool.link(number);
        }
        Ok(pool)
    }

    /// Takes a free page. Its bytes are whatever the page held before.
    pub fn take(&mut self) -> Result<Page, NoPage>
        ensures found { IfOk result (λ page. slice_get self.old page ≡ Some Free) }
        ensures taken { IfOk result (λ page.
            self.new ≡ slice_set self.old page (Taken (page_bytes self.new page))) }
        ensures own { IfOk result (λ page. IsTakenPage self.new page) }
        ensures size { IfOk result (λ page. length (page_bytes self.new page) ≡ 4096) }
        ensures none { OnErr result (count_by is_free self.old ≡ 0) }
        ensures same { OnErr result (self.new ≡ self.old) }
        ensures pages { length self.new ≡ length self.old }
        ensures whole { AreWhole 4096 self.new }
    {
        if self.free == 0 {
            return Err(NoPage);
        }
        let number = self.first;
        self.first = number_at(&self.region, number);
        self.free -= 1;
        Ok(Page { number })
    }

    /// Gives a page back, and spends the right to it.
    pub fn give(&mut self, page: Page)
        requires { IsTakenPage self.old page }
        ensures free { self.new ≡ slice_set self.old page Free }
        ensures pages { length self.new ≡ length self.old }
        ensures whole { AreWhole 4096 self.new }
    {
        let Page { number } = page;
        self.link(number);
    }

    /// Writes these bytes into the page, from a place on.
    pub fn write(&mut self, page: &Page, at: u32, bytes: &[u8])
        requires taken { IsTakenPage self.old page.now }
        requires room { at + length bytes.now ≤ 4096 }
        ensures written { self.new ≡ slice_set self.old page.now
            (Taken (overwrite (page_bytes self.old page.now) at bytes.now)) }
        ensures pages { length self.new ≡ length self.old }
        ensures whole { AreWhole 4096 self.new }
    {
        put(
            &mut self.region,
            PAGE_SIZE * page.number as usize + at as usize,
            bytes,
        );
    }

    /// Lends the bytes of the page, all 4,096.
    pub fn bytes(&self, page: &Page) -> &[u8]
        requires { IsTakenPage self.now page.now }
        ensures content { slice_get self.now page.now ≡ Some (Taken result.now) }
        ensures held { result.now ≡ page_bytes self.now page.now }
        ensures size { length result.now ≡ 4096 }
        ensures whole { AreWhole 4096 self.now }
    {
        page_in(&self.region, page.number)
    }

    /// How many pages are free.
    pub fn free(&self) -> u32
        ensures value { result ≡ count_by is_free self.now }
        ensures whole { AreWhole 4096 self.now }
    {
        self.free
    }

    /// Lets the region go. Every page has been given back before.
    pub fn close(self)
        requires { All (λ s. s ≡ Free) self }
    {
        let Pool {
            region: _region,
            pages: _pages,
            first: _first,
            free: _free,
        } = self;
    }

    /// Makes a page that is taken the first of the free ones.
    fn link(&mut self, number: u32)
        requires { IsTakenPage self.old number }
        ensures free { self.new ≡ slice_set self.old number Free }
        ensures whole { AreWhole 4096 self.new }
    {
        put(
            &mut self.region,
            PAGE_SIZE * number as usize,
            &self.first.to_be_bytes(),
        );
        self.first = number;
        self.free += 1;
    }
}

/// The bytes of the page with this number.
fn page_in(region: &[u8], number: u32) -> &[u8]
    requires { 4096 * number + 4096 ≤ length region.now }
    ensures value { result.now ≡ page_of 4096 region.now number }
    ensures size { length result.now ≡ 4096 }
{
    let start = PAGE_SIZE * number as usize;
    &region[start..start + PAGE_SIZE]
}

/// The number with which the page begins.
fn number_at(region: &[u8], number: u32) -> u32
    requires { 4096 * number + 4096 ≤ length region.now }
    ensures { result ≡ next 4096 region.now number }
{
    let page = page_in(region, number);
    u32::from_be_bytes([page[0], page[1], page[2], page[3]])
}

/// Writes the bytes from a place on.
fn put(region: &mut [u8], start: usize, bytes: &[u8])
    requires { start + length bytes.now ≤ length region.old }
    ensures { region.new ≡ overwrite region.old start bytes.now }
{
    region[start..start + bytes.len()].copy_from_slice(bytes);
}
