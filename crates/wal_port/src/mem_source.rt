//! A source over bytes in memory.

ghost use Rattle.std.specs.Prelude.{◌≡◌, ◌<◌, ◌≤◌, vec_len, min, length, take};

use crate::plan::is_next_planned;
use crate::ports::{Failed, Source};

/// Bytes in memory, given in pieces of a fixed length, with calls that fail by plan.
#[derive(Drop)]
pub struct MemSource {
    bytes: Vec<u8>,
    given: usize,
    piece: u32,
    fails: Vec<u32>,
    calls: u64,
    faults: u64,
    ghost some: { 0 < piece },
    ghost within: { given ≤ vec_len bytes },
    ghost counted: { faults ≤ calls },
}

impl MemSource {
    ghost use Rattle.std.specs.Prelude.{[]};
    ghost use Rattle.wal_port.specs.MemSource.{source_left, source_piece, source_fails};
    ghost use Rattle.wal_port.specs.MemSource.{source_calls, source_faults};

    /// A source of `bytes` that gives at most `piece` of them at a call, and fails at the calls
    /// whose numbers stand in `fails`. The first call has the number 1.
    pub fn create(bytes: Vec<u8>, piece: u32, fails: Vec<u32>) -> MemSource
        requires { 1 ≤ piece }
        ensures left { source_left result ≡ bytes.items }
        ensures piece { source_piece result ≡ piece }
        ensures fails { source_fails result ≡ fails.items }
        ensures calls { source_calls result ≡ 0 }
        ensures faults { source_faults result ≡ 0 }
    {
        MemSource {
            bytes,
            given: 0,
            piece,
            fails,
            calls: 0,
            faults: 0,
        }
    }

    /// How many calls failed so far.
    pub fn faults(&self) -> u64
        ensures { result ≡ source_faults self.now }
    {
        self.faults
    }
}

impl Source for MemSource {
    ghost use Rattle.std.specs.Prelude.{◌+◌, ◌↔◌, if◌then◌else◌, min, length, is_ok, IsErr, IfOk};
    ghost use Rattle.std.specs.Prelude.{OnErr, Some};
    ghost use Rattle.wal_port.specs.Plan.{FailsAt};
    ghost use Rattle.std.specs.Io.{ReadsAtMost};
    ghost use Rattle.std.specs.Io.KnownBytes.{ReadConsumes};
    ghost use Rattle.wal_port.specs.Faults.{Rose, count_up};
    ghost use Rattle.wal_port.specs.MemSource.{source_left, source_piece, source_fails};
    ghost use Rattle.wal_port.specs.MemSource.{source_calls, source_faults};

    ghost left = { λ s. Some (source_left s) };

    ghost faults = { source_faults };

    fn read(&mut self, into: &mut [u8]) -> Result<usize, Failed>
        ensures bound { ReadsAtMost result into.new }
        ensures bytes { ReadConsumes (Some (source_left self.old)) (Some (source_left self.new))
            result into.new }
        ensures failed { OnErr result (Rose (source_faults self.old) (source_faults self.new)) }
        ensures later { source_faults self.old ≤ source_faults self.new }

        // Which calls fail, how much the others give, and what is counted.
        ensures planned { IsErr result
            ↔ FailsAt (source_fails self.old) (source_calls self.old + 1) }
        ensures given { IfOk result (λ k. k ≡
            min (source_piece self.old) (min (length into.new) (length (source_left self.old)))) }
        ensures faults { source_faults self.new ≡
            (if is_ok result then source_faults self.old else source_faults self.old + 1) }
        ensures calls { source_calls self.new ≡ count_up (source_calls self.old) }
        ensures piece { source_piece self.new ≡ source_piece self.old }
        ensures fails { source_fails self.new ≡ source_fails self.old }
    {
        let planned = is_next_planned(&self.fails, self.calls);
        self.calls = self.calls.saturating_add(1);
        if planned {
            self.faults += 1;
            return Err(Failed);
        }
        let count = copy_front(&self.bytes[self.given..], self.piece as usize, into);
        self.given += count;
        Ok(count)
    }
}

// Copies the front of `from` to the front of `into`: as much as there is, as has room, and as
// `most` allows.
fn copy_front(from: &[u8], most: usize, into: &mut [u8]) -> usize
    ensures count { result ≡ min most (min (length into.new) (length from.now)) }
    ensures bytes { take result into.new ≡ take result from.now }
{
    let count = most.min(into.len()).min(from.len());
    into[..count].copy_from_slice(&from[..count]);
    count
}
