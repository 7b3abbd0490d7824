//! The memory for a payload.

ghost use Rattle.std.specs.Prelude.{◌≡◌, ℕ, ◌^◌, ◌<◌, ◌≤◌, List, [], length, IfOk};
ghost use Rattle.wal_port.specs.Faults.{Rose};
ghost use Rattle.wal_serve.specs.declared.taking.Took.TheVariants.{Whole};
ghost use Rattle.wal_serve.specs.inside.Taking.{Takes};

use crate::taking::{Took, fill, skip};
use std::alloc::{AllocError, Global};
use std::marker::Model;
use wal_port::Source;

/// The most bytes that are read at once of a payload of which none are kept.
const PIECE: u32 = 65_536;

/// Memory for a payload, all of which is taken when it is made. Only so much of it is cleared as a
/// payload needed.
#[derive(Drop)]
pub(crate) struct Payload {
    bytes: Vec<u8>,
    size: u32,
    room: u32,
}

impl Model for Payload {
    ghost use Rattle.std.specs.Prelude.{◌≤◌, take, vec_len, vec_capacity};
    ghost use Rattle.wal_serve.specs.inside.Payload.{PayloadRoom};

    ghost Value = { PayloadRoom };

    ghost view = { λ p. record { bytes = take p.size p.bytes.items; room = p.room } };

    ghost invariant = { λ p. (p.size ≤ vec_len p.bytes) × (p.room ≤ vec_capacity p.bytes) };
}

impl Payload {
    /// No payload, and room for one of so many bytes.
    pub(crate) fn create(alloc: Global, room: u32) -> Result<Payload, AllocError>
        ensures { IfOk result (λ p. p ≡ record { bytes = []; room = room }) }
    {
        let bytes = Vec::with_capacity(alloc, room as usize)?;
        Ok(Payload {
            bytes,
            size: 0,
            room,
        })
    }

    /// The size of the longest payload for which there is room.
    pub(crate) fn room(&self) -> u32
        ensures { result ≡ self.now.room }
    {
        self.room
    }

    /// Lends the payload that was taken last.
    pub(crate) fn bytes(&self) -> &[u8]
        ensures value { result.now ≡ self.now.bytes }
        ensures few { length result.now < 2 ^ 32 }
    {
        &self.bytes[..self.size as usize]
    }

    /// Makes place for a payload of this size. What was not needed before is cleared.
    fn place(&mut self, size: u32)
        requires { size ≤ self.old.room }
        ensures size { length self.new.bytes ≡ size }
        ensures room { self.new.room ≡ self.old.room }
    {
        if self.bytes.len() < size as usize {
            match self.bytes.resize(size as usize, 0) {
                Ok(()) => {}
                Err(_) => unreachable!(),
            }
        }
        self.size = size;
    }

    /// Takes a payload for which there is room, of which at most `most` bytes may be taken.
    pub(crate) fn fill<S: Source>(&mut self, source: &mut S, size: u32, most: u64) -> Took
        requires { size ≤ self.old.room }
        ensures takes { (got : List ℕ)
            × Takes (S.left source.old) (S.left source.new)
            (Rose (S.faults source.old) (S.faults source.new)) size most result got
            × (result ≡ Whole → self.new.bytes ≡ got) }
        ensures room { self.new.room ≡ self.old.room }
        ensures later { S.faults source.old ≤ S.faults source.new }
    {
        self.place(size);
        fill(source, self.bytes.slice_mut(..self.size as usize), most)
    }

    /// Takes a payload and keeps none of it, of which at most `most` bytes may be taken.
    pub(crate) fn skip<S: Source>(&mut self, source: &mut S, size: u32, most: u64) -> Took
        requires { 0 < self.old.room }
        ensures takes { (got : List ℕ)
            × Takes (S.left source.old) (S.left source.new)
            (Rose (S.faults source.old) (S.faults source.new)) size most result got }
        ensures room { self.new.room ≡ self.old.room }
        ensures later { S.faults source.old ≤ S.faults source.new }
    {
        self.place(self.room.min(PIECE));
        skip(
            source,
            self.bytes.slice_mut(..self.size as usize),
            u64::from(size),
            most,
        )
    }
}
