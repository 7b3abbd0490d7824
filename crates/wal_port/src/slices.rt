//! A source and a sink over slices of the caller's.

ghost use Rattle.std.specs.Prelude.{◌≡◌, ◌+◌, ◌-◌, ◌^◌, ◌<◌, ◌≤◌, ◌++◌, min, length, take, drop};

use crate::noted::Noted;
use crate::ports::{Failed, Sink, Source};

/// The bytes of a slice, given as fast as there is room for them. It does not fail.
#[derive(Drop)]
pub struct SliceSource<'a> {
    left: &'a [u8],
}

impl<'a> SliceSource<'a> {
    ghost use Rattle.wal_port.specs.Slices.{slice_left};

    /// A source of `bytes`.
    pub fn create(bytes: &'a [u8]) -> SliceSource<'a>
        ensures left { slice_left result ≡ bytes.now }
    {
        SliceSource { left: bytes }
    }
}

impl Source for SliceSource<'_> {
    ghost use Rattle.std.specs.Prelude.{min, length, Ok, OnErr, Some};
    ghost use Rattle.std.specs.Io.{ReadsAtMost};
    ghost use Rattle.std.specs.Io.KnownBytes.{ReadConsumes};
    ghost use Rattle.wal_port.specs.Faults.{Rose};
    ghost use Rattle.wal_port.specs.Slices.{slice_left};

    ghost left = { λ s. Some (slice_left s) };

    ghost faults = { λ _. 0 };

    fn read(&mut self, into: &mut [u8]) -> Result<usize, Failed>
        ensures bound { ReadsAtMost result into.new }
        ensures bytes { ReadConsumes (Some (slice_left self.old))
            (Some (slice_left self.new)) result into.new }
        ensures failed { OnErr result (Rose 0 0) }
        ensures later { 0 ≤ 0 }

        // It gives as much as there is, where there is room.
        ensures given { result ≡ Ok (min (length into.new) (length (slice_left self.old))) }
    {
        let all = self.left;
        let count = into.len().min(all.len());
        into[..count].copy_from_slice(&all[..count]);
        self.left = &all[count..];
        Ok(count)
    }
}

/// Room for a text: it takes all bytes, keeps in the room those of its front that have room there,
/// and counts all. What stands in the room behind the text stays as it was. It does not fail and
/// takes no memory.
///
/// As written it tells a mark and then its text. A call that is generic in its sink says of the
/// sink that it leaves nothing but what was written, and the mark is what shows whoever handed out
/// the room that it is the same one.
#[derive(Drop)]
pub struct SliceSink<'a> {
    room: &'a mut [u8],
    count: u64,
    first: Noted,
    beyond: Noted,
    ghost whole: { length first.bytes ≡ length room.now },
    ghost counted: { count ≡ min (min count (length room.now) + length beyond.bytes) (2 ^ 64 - 1) },
    ghost untouched: { drop count room.now ≡ drop count first.bytes },
}

impl<'a> SliceSink<'a> {
    ghost use Rattle.std.specs.Prelude.{[], ◌∷◌, ◌++◌, take};
    ghost use Rattle.wal_port.specs.Slices.{slice_text, slice_mark};

    /// A sink over `room`, in which nothing is written yet.
    pub fn create(room: &'a mut [u8]) -> SliceSink<'a>
        ensures same_reference { result.room.ghost_name ≡ room.entry.ghost_name }
        ensures room { result.room.now ≡ room.old }
        ensures mark { slice_mark result ≡ room.entry.ghost_name ∷ length room.old ∷ room.old }
        ensures text { slice_text result ≡ [] }
    {
        let mut first = Noted::new();
        first.add(room);
        SliceSink {
            room,
            count: 0,
            first,
            beyond: Noted::new(),
        }
    }

    /// How many bytes were taken, up to 2 ^ 64 - 1.
    pub fn count(&self) -> u64
        ensures { result ≡ min (length (slice_text self.now)) (2 ^ 64 - 1) }
    {
        self.count
    }
}

impl Sink for SliceSink<'_> {
    ghost use Rattle.std.specs.Prelude.{◌<◌, ◌++◌, length, Ok, IfOk, OnErr, Some};
    ghost use Rattle.std.specs.Io.{WritesAtMost};
    ghost use Rattle.std.specs.Io.KnownBytes.{WriteAppends};
    ghost use Rattle.wal_port.specs.Faults.{Rose};
    ghost use Rattle.wal_port.specs.Slices.{slice_text, slice_mark};

    ghost written = { λ s. Some (slice_mark s ++ slice_text s) };

    ghost faults = { λ _. 0 };

    fn write(&mut self, piece: &[u8]) -> Result<usize, Failed>
        requires { 0 < length piece.now }
        ensures bound { WritesAtMost result piece.now }
        ensures some { IfOk result (λ k. 0 < k) }
        ensures bytes { WriteAppends (Some (slice_mark self.old ++ slice_text self.old))
            (Some (slice_mark self.new ++ slice_text self.new)) result piece.now }
        ensures failed { OnErr result (Rose 0 0) }
        ensures later { 0 ≤ 0 }

        // All of it is taken, whatever the room.
        ensures taken { result ≡ Ok (length piece.now) }
    {
        let start = kept_of(self.count, self.room.len());
        let kept = piece.len().min(self.room.len() - start);
        self.beyond.add(&piece[kept..]);
        self.count = self.count.saturating_add(piece.len() as u64);
        put_at(self.room, start, &piece[..kept]);
        Ok(piece.len())
    }
}

// How many of `count` bytes have room.
fn kept_of(count: u64, room: usize) -> usize
    ensures kept { result ≡ min count room }
    ensures fits { room < 2 ^ 64 }
{
    if count < room as u64 {
        count as usize
    } else {
        room
    }
}

// Puts `bytes` at this place.
fn put_at(room: &mut [u8], start: usize, bytes: &[u8])
    requires { start + length bytes.now ≤ length room.old }
    ensures { room.new
        ≡ take start room.old ++ bytes.now ++ drop (start + length bytes.now) room.old }
{
    room[start..start + bytes.len()].copy_from_slice(bytes);
}
