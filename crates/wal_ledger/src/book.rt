//! Entries and the links between them, in room that was reserved for them.

ghost use Rattle.std.specs.Prelude.{◌≡◌, ℕ, ◌+◌, ◌-◌, ◌<◌, ◌≤◌, List, [], ◌∷◌, ◌++◌, length, IfOk};
ghost use Rattle.std.specs.Prelude.{◌^◌, vec_len, vec_capacity};
ghost use Rattle.wal_ledger.specs.inside.Book.{BookState};

use crate::entry::Entry;
use std::alloc::{AllocError, Global};
use std::marker::Model;

/// A list of entries, each with a link, that grows to `room` entries and takes no memory to do so.
#[derive(Debug, Drop)]
pub(crate) struct Book {
    entries: Vec<Entry>,
    links: Vec<u32>,
    room: u32,
}

impl Model for Book {
    ghost Value = { BookState };

    ghost view = { λ b. record {
      entries = b.entries.items;
      links = b.links.items;
      spare = b.room - vec_len b.entries;
    } };

    ghost invariant = { λ b. (vec_len b.entries ≤ b.room) × (b.room ≤ vec_capacity b.entries)
        × (b.room < 2 ^ 32) × (vec_len b.links ≡ vec_len b.entries)
        × (b.room ≤ vec_capacity b.links) };
}

impl Book {
    /// An empty list with this room.
    pub(crate) fn create(alloc: Global, room: u32) -> Result<Book, AllocError>
        ensures { IfOk result (λ book. book ≡ record { entries = []; links = []; spare = room }) }
    {
        Ok(Book {
            entries: Vec::with_capacity(alloc, room as usize)?,
            links: Vec::with_capacity(alloc, room as usize)?,
            room,
        })
    }

    /// How many more entries fit.
    pub(crate) fn spare(&self) -> u32
        ensures value { result ≡ self.now.spare }
        ensures fit { length self.now.entries + self.now.spare < 2 ^ 32 }
    {
        self.room - self.entries.len() as u32
    }

    /// Lends the entries.
    pub(crate) fn entries(&self) -> &[Entry]
        ensures value { result.now ≡ self.now.entries }
        ensures fit { length self.now.entries + self.now.spare < 2 ^ 32 }
    {
        &self.entries
    }

    /// Lends the links.
    pub(crate) fn links(&self) -> &[u32]
        ensures value { result.now ≡ self.now.links }
        ensures each { length self.now.links ≡ length self.now.entries }
    {
        &self.links
    }

    /// Appends an entry with its link.
    pub(crate) fn push(&mut self, entry: Entry, link: u32)
        requires { 0 < self.old.spare }
        ensures { self.new ≡ record {
          entries = self.old.entries ++ entry ∷ [];
          links = self.old.links ++ link ∷ [];
          spare = self.old.spare - 1;
        } }
    {
        match self.entries.push(entry) {
            Ok(()) => (),
            Err(_) => unreachable!(),
        }
        match self.links.push(link) {
            Ok(()) => (),
            Err(_) => unreachable!(),
        }
    }
}
