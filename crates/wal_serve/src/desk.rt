//! The memory of serving.

ghost use Rattle.std.specs.Prelude.{◌≡◌, ℕ, ◌<◌, ◌≤◌, List, length, IfOk};
ghost use Rattle.wal_shape.specs.Metadata.{BlobMetadata, IsMetadata};
ghost use Rattle.wal_frame.specs.Frame.{Frame, IsFrame, Metadata, frame_text};
ghost use Rattle.wal_serve.specs.Room.{AsksOnly, MayVerify, desk_room};

use crate::payload::Payload;
use std::alloc::{AllocError, Global};
use std::marker::Model;
use wal_frame::OutBuf;
use wal_shape::{MOST_BYTES, Shape};
use wal_shard::reply_room;

/// The number of bytes of the longest proof of bad encoding in a frame.
fn longest_frame(f: u32) -> u32
    requires some { 1 ≤ f }
    requires few { f ≤ 333 }
    ensures { result ≡ desk_room f }
{
    let Ok(shape) = Shape::new(f, MOST_BYTES) else {
        unreachable!()
    };
    38 + shape.cols() * (shape.symbol_size() + 327)
}

/// The longest payload that is looked at.
pub fn desk_room(f: u32) -> u32
    requires some { 1 ≤ f }
    requires few { f ≤ 333 }
    ensures room { result ≡ desk_room f }
    // Every frame that can verify has room.
    ensures enough { (digest : List ℕ → List ℕ) (x : Frame) → IsFrame x → MayVerify digest f x
        → length (frame_text x) ≤ result }
    // A metadata, of whatever f, is shorter, and so is every request that carries no part of a
    // blob.
    ensures metadata { (m : BlobMetadata) → IsMetadata m
        → length (frame_text (Metadata m)) < result }
    ensures asks { (x : Frame) → IsFrame x → AsksOnly x → length (frame_text x) < result }
{
    longest_frame(f)
}

/// The memory of serving: a buffer for a payload, and one for an answer.
#[derive(Drop)]
pub struct Desk {
    pub(crate) f: u32,
    pub(crate) payload: Payload,
    pub(crate) out: OutBuf,
}

impl Model for Desk {
    ghost use Rattle.std.specs.Prelude.{ℕ, ◌≡◌, ◌≤◌};
    ghost use Rattle.wal_serve.specs.Room.{desk_room};
    ghost use Rattle.wal_serve.specs.inside.Room.{answer_room, room_in};

    ghost Value = { ℕ };

    ghost view = { λ d. d.f };

    ghost invariant = { λ d. (d.payload.room ≡ desk_room d.f) × (answer_room d.f ≤ room_in d.out) };
}

impl Desk {
    /// Takes the memory for serving shards of committees of this number of faults.
    pub fn create(alloc: Global, f: u32) -> Result<Desk, AllocError>
        requires some { 1 ≤ f }
        requires few { f ≤ 333 }
        ensures { IfOk result (λ d. d ≡ f) }
    {
        let payload = Payload::create(alloc, desk_room(f))?;
        let out = OutBuf::create(alloc, reply_room(f) + 17)?;
        Ok(Desk { f, payload, out })
    }
}
