//! Buffers with room for a number of bytes that is fixed when they are made.

ghost use Rattle.std.specs.Prelude.{◌≡◌, ◌+◌, ◌-◌, ◌<◌, ◌≤◌, ◌^◌, [], ◌∷◌, ◌++◌, length, drop};
ghost use Rattle.std.specs.Prelude.{replicate, IfOk};
ghost use Rattle.std.specs.Borrow.{sem};
ghost use Rattle.std.specs.Int.{w16, w32};
ghost use Rattle.wal_shape.specs.Spelling.{number_text};
ghost use Rattle.wal_frame.specs.Buffer.{Buffer, appended};
ghost use Rattle.wal_frame.specs.Frame.{IsFrame, frame_text};
ghost use Rattle.wal_frame.specs.Lending.{LendsTail, LendsPayload, with_zeros};
ghost use Rattle.wal_frame.specs.inside.Lending.{LendsLast};
ghost use Rattle.wal_frame.specs.Shown.{frame_shown, IsLentKind};

use crate::frame::FrameRef;
use crate::stream::ENVELOPE;
use crate::writing::put_frame;
use std::alloc::{AllocError, Global};
use std::marker::Model;
use wal_shape::Bytes;

/// Bytes with room for more, all of which is taken when it is made.
#[derive(Debug, Drop)]
pub(crate) struct Room {
    bytes: Vec<u8>,
    room: usize,
}

impl Model for Room {
    ghost use Rattle.std.specs.Prelude.{◌-◌, ◌≤◌, vec_len, vec_capacity};
    ghost use Rattle.wal_frame.specs.Buffer.{Buffer};

    ghost Value = { Buffer };

    ghost view = { λ b. record { bytes = b.bytes.items; spare = b.room - vec_len b.bytes } };

    ghost invariant = { λ b. (vec_len b.bytes ≤ b.room) × (b.room ≤ vec_capacity b.bytes) };
}

impl Room {
    /// No bytes, and room for so many.
    pub(crate) fn create(alloc: Global, room: usize) -> Result<Room, AllocError>
        ensures { IfOk result (λ b. b ≡ record { bytes = []; spare = room }) }
    {
        let bytes = Vec::with_capacity(alloc, room)?;
        Ok(Room { bytes, room })
    }

    /// Lends what was written.
    fn bytes(&self) -> &[u8]
        ensures { result.now ≡ self.now.bytes }
    {
        &self.bytes
    }

    /// What was written. Takes no memory.
    pub(crate) fn into_bytes(self) -> Bytes
        ensures { result ≡ self.bytes }
    {
        let Room { bytes, room: _ } = self;
        Bytes::from_vec(bytes)
    }

    /// The number of bytes for which room is left.
    fn spare(&self) -> usize
        ensures { result ≡ self.now.spare }
    {
        self.room - self.bytes.len()
    }

    /// Empties the buffer, whose room stays.
    fn clear(&mut self)
        ensures bytes { self.new.bytes ≡ [] }
        ensures spare { self.new.spare ≡ self.old.spare + length self.old.bytes }
    {
        self.bytes.clear();
    }

    /// Appends zero bytes for which there is room.
    fn put_zeros(&mut self, size: usize)
        requires { size ≤ self.old.spare }
        ensures { self.new ≡ appended self.old (replicate size 0) }
    {
        match self.bytes.resize(self.bytes.len() + size, 0) {
            Ok(()) => {}
            Err(_) => unreachable!(),
        }
    }

    /// Lends the last bytes for writing.
    fn lend_last(&mut self, size: usize) -> &mut [u8]
        requires { size ≤ length self.old.bytes }
        ensures* writes_back { sem 𝓛 (LendsLast self.entry size result) }
        ensures value { result.now ≡ drop (length self.old.bytes - size) self.old.bytes }
    {
        let start = self.bytes.len() - size;
        self.bytes.slice_mut(start..)
    }

    /// Appends bytes for which there is room.
    pub(crate) fn put(&mut self, more: &[u8])
        requires { length more.now ≤ self.old.spare }
        ensures { self.new ≡ appended self.old more.now }
    {
        let Ok(()) = self.bytes.extend_from_slice(more) else {
            unreachable!()
        };
    }
}

/// A buffer with room for a fixed number of bytes, taken when it is made.
#[derive(Debug, Drop)]
pub struct OutBuf {
    text: Room,
}

impl Model for OutBuf {
    ghost use Rattle.std.specs.Prelude.{◌+◌, ◌<◌, ◌^◌, length};
    ghost use Rattle.wal_frame.specs.Buffer.{Buffer};

    ghost Value = { Buffer };

    ghost view = { λ b. b.text };

    ghost invariant = { λ b. length b.text.bytes + b.text.spare < 2 ^ 32 };
}

impl OutBuf {
    /// An empty buffer with room for so many bytes.
    pub fn create(alloc: Global, room: u32) -> Result<OutBuf, AllocError>
        ensures { IfOk result (λ b. b ≡ record { bytes = []; spare = room }) }
    {
        let text = Room::create(alloc, room as usize)?;
        Ok(OutBuf { text })
    }

    /// Lends what was written.
    pub fn bytes(&self) -> &[u8]
        ensures { result.now ≡ self.now.bytes }
    {
        self.text.bytes()
    }

    /// The number of bytes for which room is left.
    pub fn spare(&self) -> u32
        ensures { result ≡ self.now.spare }
    {
        self.text.spare() as u32
    }

    /// Empties the buffer, whose room stays.
    pub fn clear(&mut self)
        ensures bytes { self.new.bytes ≡ [] }
        ensures spare { self.new.spare ≡ self.old.spare + length self.old.bytes }
    {
        self.text.clear();
    }

    /// Appends bytes for which there is room.
    pub fn put(&mut self, more: &[u8])
        requires { length more.now ≤ self.old.spare }
        ensures { self.new ≡ appended self.old more.now }
    {
        self.text.put(more);
    }

    /// Writes what stands before the payload in an envelope.
    pub(crate) fn put_head(&mut self, sender: u16, size: usize)
        requires { 7 + size ≤ self.old.spare }
        ensures text { self.new
            ≡ appended self.old (0x57 ∷ (number_text w16 sender ++ number_text w32 size)) }
        ensures room { self.new.spare ≡ self.old.spare - 7 }
        ensures fits { size < 2 ^ 32 }
    {
        self.text.put(&[ENVELOPE]);
        self.text.put(&sender.to_be_bytes());
        self.text.put(&(size as u32).to_be_bytes());
    }

    /// Writes an envelope whose payload is zero bytes.
    fn put_zeros(&mut self, sender: u16, size: u32)
        requires { 7 + size ≤ self.old.spare }
        ensures { self.new ≡ with_zeros self.old sender size }
    {
        self.put_head(sender, size as usize);
        self.text.put_zeros(size as usize);
    }

    /// Lends the last bytes for writing.
    fn lend_last(&mut self, size: u32) -> &mut [u8]
        requires { size ≤ length self.old.bytes }
        ensures* writes_back { sem 𝓛 (LendsTail self.entry size result) }
        ensures value { result.now ≡ drop (length self.old.bytes - size) self.old.bytes }
    {
        self.text.lend_last(size as usize)
    }

    /// Appends a frame.
    pub(crate) fn put_frame(&mut self, frame: &FrameRef<'_>)
        requires frame { IsFrame (frame_shown frame.now) }
        requires kind { IsLentKind frame.now }
        requires room { length (frame_text (frame_shown frame.now)) ≤ self.old.spare }
        ensures { self.new ≡ appended self.old (frame_text (frame_shown frame.now)) }
    {
        put_frame(&mut self.text, frame);
    }
}

/// Appends an envelope whose payload is so many zero bytes, and lends the payload for writing.
/// Takes no memory.
pub fn write_payload(out: &mut OutBuf, sender: u16, size: u32) -> &mut [u8]
    requires { 7 + size ≤ out.old.spare }
    // What is written is the payload.
    ensures* writes_back { sem 𝓛 (LendsPayload out.entry sender size result) }
    ensures zeros { result.now ≡ replicate size 0 }
{
    out.put_zeros(sender, size);
    out.lend_last(size)
}
