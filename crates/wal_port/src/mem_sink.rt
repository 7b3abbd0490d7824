//! A sink into memory.

ghost use Rattle.std.specs.Prelude.{◌≡◌, ◌<◌, ◌≤◌, vec_len, vec_capacity};

use crate::plan::is_next_planned;
use crate::ports::{Failed, Sink};
use std::alloc::{AllocError, Global};

/// Memory that takes bytes in pieces of a fixed length until it is full, with calls that fail by
/// plan. Its room is reserved when it is made, so that no write takes memory.
#[derive(Drop)]
pub struct MemSink {
    bytes: Vec<u8>,
    room: u32,
    piece: u32,
    fails: Vec<u32>,
    calls: u64,
    faults: u64,
    ghost some: { 0 < piece },
    ghost within: { vec_len bytes ≤ room },
    ghost reserved: { room ≤ vec_capacity bytes },
}

impl MemSink {
    ghost use Rattle.std.specs.Prelude.{[], IfOk};
    ghost use Rattle.wal_port.specs.MemSink.{sink_written, sink_room, sink_piece, sink_fails};
    ghost use Rattle.wal_port.specs.MemSink.{sink_calls, sink_faults};

    /// A sink that takes `room` bytes in all and at most `piece` of them at a call, and fails at
    /// the calls whose numbers stand in `fails` and at each call once it is full. The first call
    /// has the number 1.
    pub fn create(
        alloc: Global,
        room: u32,
        piece: u32,
        fails: Vec<u32>,
    ) -> Result<MemSink, AllocError>
        requires { 1 ≤ piece }
        ensures written { IfOk result (λ sink. sink_written sink ≡ []) }
        ensures room { IfOk result (λ sink. sink_room sink ≡ room) }
        ensures piece { IfOk result (λ sink. sink_piece sink ≡ piece) }
        ensures fails { IfOk result (λ sink. sink_fails sink ≡ fails.items) }
        ensures calls { IfOk result (λ sink. sink_calls sink ≡ 0) }
        ensures faults { IfOk result (λ sink. sink_faults sink ≡ 0) }
    {
        let bytes = Vec::with_capacity(alloc, room as usize)?;
        Ok(MemSink {
            bytes,
            room,
            piece,
            fails,
            calls: 0,
            faults: 0,
        })
    }

    /// The bytes that were written so far.
    pub fn bytes(&self) -> &[u8]
        ensures { result.now ≡ sink_written self.now }
    {
        &self.bytes
    }

    /// How many calls failed so far.
    pub fn faults(&self) -> u64
        ensures { result ≡ sink_faults self.now }
    {
        self.faults
    }
}

impl Sink for MemSink {
    ghost use Rattle.std.specs.Prelude.{◌+◌, ◌-◌, ◌↔◌, ◌⊎◌, if◌then◌else◌, min, length, is_ok};
    ghost use Rattle.std.specs.Prelude.{IsErr, IfOk, OnErr, Some};
    ghost use Rattle.wal_port.specs.Plan.{FailsAt};
    ghost use Rattle.std.specs.Io.{WritesAtMost};
    ghost use Rattle.std.specs.Io.KnownBytes.{WriteAppends};
    ghost use Rattle.wal_port.specs.Faults.{Rose, count_up};
    ghost use Rattle.wal_port.specs.MemSink.{sink_written, sink_room, sink_piece, sink_fails};
    ghost use Rattle.wal_port.specs.MemSink.{sink_calls, sink_faults};

    ghost written = { λ s. Some (sink_written s) };

    ghost faults = { sink_faults };

    fn write(&mut self, piece: &[u8]) -> Result<usize, Failed>
        requires { 0 < length piece.now }
        ensures bound { WritesAtMost result piece.now }
        ensures some { IfOk result (λ k. 0 < k) }
        ensures bytes { WriteAppends (Some (sink_written self.old)) (Some (sink_written self.new))
            result piece.now }
        ensures failed { OnErr result (Rose (sink_faults self.old) (sink_faults self.new)) }
        ensures later { sink_faults self.old ≤ sink_faults self.new }

        // Which calls fail, how much the others take, and what is counted.
        ensures planned { IsErr result ↔ (FailsAt (sink_fails self.old) (sink_calls self.old + 1)
            ⊎ (length (sink_written self.old) ≡ sink_room self.old)) }
        ensures taken { IfOk result (λ k. k ≡ min (sink_piece self.old)
            (min (length piece.now) (sink_room self.old - length (sink_written self.old)))) }
        ensures faults { sink_faults self.new ≡
            (if is_ok result then sink_faults self.old else count_up (sink_faults self.old)) }
        ensures calls { sink_calls self.new ≡ count_up (sink_calls self.old) }
        ensures room { sink_room self.new ≡ sink_room self.old }
        ensures piece { sink_piece self.new ≡ sink_piece self.old }
        ensures fails { sink_fails self.new ≡ sink_fails self.old }
    {
        let planned = is_next_planned(&self.fails, self.calls);
        self.calls = self.calls.saturating_add(1);
        let free = self.room as usize - self.bytes.len();
        if planned || free == 0 {
            self.faults = self.faults.saturating_add(1);
            return Err(Failed);
        }
        let count = (self.piece as usize).min(piece.len()).min(free);
        let Ok(()) = self.bytes.extend_from_slice(&piece[..count]) else {
            unreachable!()
        };
        Ok(count)
    }
}
