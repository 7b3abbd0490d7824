//! A pool whose pages are named by their numbers.

ghost use Rattle.std.specs.Prelude.{◌≡◌, ℕ, ◌+◌, ◌<◌, ◌≤◌, List, Some, None, length, take};
ghost use Rattle.std.specs.Prelude.{replicate, slice_get, slice_set, IfOk, All, count_by};
ghost use Rattle.wal_pool.specs.Pages.{PageState, Free, Taken, is_free, page_bytes, IsTakenPage};
ghost use Rattle.wal_pool.specs.Pages.{AreWhole, overwrite};
ghost use Rattle.wal_store.specs.inside.Shelf.{tokens_of};

use std::alloc::{AllocError, Global};
use std::marker::Model;
use wal_pool::{Page, Pool};

/// A pool, with the right to each page that is taken.
pub struct Shelf {
    pool: Pool,
    tokens: Vec<Option<Page>>,
}

impl Model for Shelf {
    ghost Value = { List PageState };

    ghost view = { λ s. s.pool };

    ghost invariant = { λ s. (s.tokens.items ≡ tokens_of 0 s.pool) × AreWhole 4096 s.pool };
}

impl Shelf {
    /// So many pages, all free.
    pub fn create(alloc: Global, pages: u32) -> Result<Shelf, AllocError>
        requires one { 1 ≤ pages }
        requires most { pages ≤ 262144 }
        ensures free { IfOk result (λ shelf. shelf ≡ replicate pages Free) }
        ensures whole { IfOk result (AreWhole 4096) }
    {
        let pool = Pool::create(alloc, pages)?;
        match no_tokens(alloc, pages as usize) {
            Ok(tokens) => Ok(Shelf { pool, tokens }),
            Err(error) => {
                pool.close();
                Err(error)
            }
        }
    }

    /// Takes a free page, and writes these bytes at its front.
    pub fn take(&mut self, bytes: &[u8]) -> u32
        requires free { 0 < count_by is_free self.old }
        requires room { length bytes.now ≤ 4096 }
        ensures free { slice_get self.old result ≡ Some Free }
        ensures taken { self.new ≡ slice_set self.old result (Taken (page_bytes self.new result)) }
        ensures front { take (length bytes.now) (page_bytes self.new result) ≡ bytes.now }
        ensures size { length (page_bytes self.new result) ≡ 4096 }
        ensures whole { AreWhole 4096 self.new }
    {
        let Ok(page) = self.pool.take() else {
            unreachable!();
        };
        self.pool.write(&page, 0, bytes);
        let number = page.number();
        match self.tokens[number as usize].replace(page) {
            None => (),
            Some(_) => unreachable!(),
        }
        number
    }

    /// Gives a page back.
    pub fn give(&mut self, number: u32)
        requires { IsTakenPage self.old number }
        ensures free { self.new ≡ slice_set self.old number Free }
        ensures whole { AreWhole 4096 self.new }
    {
        match self.tokens[number as usize].take() {
            Some(page) => self.pool.give(page),
            None => unreachable!(),
        }
    }

    /// Lends the bytes of a page.
    pub fn bytes(&self, number: u32) -> &[u8]
        requires { IsTakenPage self.now number }
        ensures held { result.now ≡ page_bytes self.now number }
        ensures size { length result.now ≡ 4096 }
    {
        match &self.tokens[number as usize] {
            Some(page) => self.pool.bytes(page),
            None => unreachable!(),
        }
    }

    /// How many pages are free.
    pub fn free(&self) -> u32
        ensures { result ≡ count_by is_free self.now }
    {
        self.pool.free()
    }

    /// Lets all pages go, which have been given back before.
    pub fn close(self)
        requires { All (λ s. s ≡ Free) self }
    {
        let Shelf { pool, tokens } = self;
        pool.close();
        spend(tokens);
    }
}

/// No right to any of so many pages.
fn no_tokens(alloc: Global, pages: usize) -> Result<Vec<Option<Page>>, AllocError>
    ensures { IfOk result (λ tokens. tokens.items ≡ tokens_of 0 (replicate pages Free)) }
{
    let mut tokens = Vec::with_capacity(alloc, pages)?;
    for _ in 0..pages {
        match tokens.push(None) {
            Ok(()) => (),
            Err(_) => unreachable!(),
        }
    }
    Ok(tokens)
}

/// Lets a table go that has no right to a page.
fn spend(tokens: Vec<Option<Page>>)
    requires { All (λ token. token ≡ None) tokens.items }
{
    let mut tokens = tokens;
    while let Some(token) = tokens.pop() {
        match token {
            None => (),
            Some(_) => unreachable!(),
        }
    }
    tokens.destroy_empty();
}
