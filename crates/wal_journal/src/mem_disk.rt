//! A disk in memory that tells what a crash may have left, with calls that fail by plan.

ghost use Rattle.std.specs.Prelude.{◌≡◌, ℕ, ◌+◌, ◌*◌, ◌<◌, ◌≤◌, ◌++◌, true, List, [], ◌∷◌, vec_len};
ghost use Rattle.std.specs.Prelude.{vec_capacity, length};
ghost use Rattle.wal_journal.specs.Disk.{put_at};

use crate::disk::Disk;
use std::alloc::{AllocError, Global};
use wal_port::{Failed, is_next_planned};

// What a call did that changed the bytes, or what is pending.
#[derive(Clone, Copy, Debug, PartialEq, Eq, Drop)]
enum Step {
    // A write, from a place on, of so many bytes.
    Written(u64, u64),
    Synced,
}

// Which calls fail, and how many there were and failed.
#[derive(Drop)]
struct Plan {
    fails: Vec<u32>,
    most: u32,
    calls: u64,
    faults: u64,
}

impl Plan {
    ghost use Rattle.std.specs.Prelude.{IsTrue, ◌↔◌, ◌⊎◌, if◌then◌else◌};
    ghost use Rattle.wal_port.specs.Plan.{FailsAt};
    ghost use Rattle.wal_port.specs.Faults.{Rose, count_up};

    // Counts a call, and says whether it fails.
    fn next_fails(&mut self) -> bool
        ensures planned { IsTrue result
            ↔ (FailsAt self.old.fails.items (self.old.calls + 1)
            ⊎ (self.old.most ≤ self.old.calls)) }
        ensures faults { self.new.faults
            ≡ (if result then count_up self.old.faults else self.old.faults) }
        ensures rose { IsTrue result → Rose self.old.faults self.new.faults }
        ensures later { self.old.faults ≤ self.new.faults }
        ensures calls { self.new.calls ≡ count_up self.old.calls }
        ensures within { (IsTrue result → ⊥) → self.new.calls ≤ self.old.most }
        ensures counted { (IsTrue result → ⊥) → self.new.calls ≡ self.old.calls + 1 }
        ensures grows { self.old.calls ≤ self.new.calls }
        ensures fails { self.new.fails.items ≡ self.old.fails.items }
        ensures most { self.new.most ≡ self.old.most }
    {
        let fails = is_next_planned(&self.fails, self.calls) || self.calls >= u64::from(self.most);
        self.calls = self.calls.saturating_add(1);
        if fails {
            self.faults = self.faults.saturating_add(1);
        }
        fails
    }
}

// Keeps the bytes that stood before a step, in room that is there.
fn keep(past: &mut Vec<u8>, steps: &mut Vec<Step>, bytes: &[u8], step: Step)
    requires past { vec_len past.old + length bytes.now ≤ vec_capacity past.old }
    requires steps { vec_len steps.old < vec_capacity steps.old }
    ensures past { past.new.items ≡ past.old.items ++ bytes.now }
    ensures steps { steps.new.items ≡ steps.old.items ++ step ∷ [] }
    ensures len { vec_len past.new ≡ vec_len past.old + length bytes.now }
    ensures len_steps { vec_len steps.new ≡ vec_len steps.old + 1 }
    ensures room { vec_capacity past.old ≤ vec_capacity past.new }
    ensures room_steps { vec_capacity steps.old ≤ vec_capacity steps.new }
{
    let Ok(()) = past.extend_from_slice(bytes) else {
        unreachable!()
    };
    let Ok(()) = steps.push(step) else {
        unreachable!()
    };
}

// Writes over the bytes from a place on.
fn overwrite(bytes: &mut Vec<u8>, at: usize, text: &[u8])
    requires { at + length text.now ≤ vec_len bytes.old }
    ensures put { bytes.new.items ≡ put_at at text.now bytes.old.items }
    ensures len { vec_len bytes.new ≡ vec_len bytes.old }
{
    bytes[at..at + text.len()].copy_from_slice(text);
}

/// Bytes in memory, with all that was on the disk before each step. Its room is taken when it is
/// made.
#[derive(Drop)]
pub struct MemDisk {
    bytes: Vec<u8>,
    // The bytes before each step, one after the other.
    past: Vec<u8>,
    steps: Vec<Step>,
    plan: Plan,
    ghost some: { 1 ≤ vec_len bytes },
    ghost kept: { vec_len past ≡ vec_len steps * vec_len bytes },
    ghost counted: { vec_len steps ≤ plan.calls },
    ghost within: { vec_len steps ≤ plan.most },
    ghost room: { plan.most * vec_len bytes ≤ vec_capacity past },
    ghost room_steps: { plan.most ≤ vec_capacity steps },
}

impl MemDisk {
    ghost use Rattle.std.specs.Prelude.{IfOk};
    ghost use Rattle.wal_journal.specs.MemDisk.{disk_bytes, disk_fails, disk_most, disk_calls};
    ghost use Rattle.wal_journal.specs.MemDisk.{disk_faults, disk_pending, disk_clock, most_past};

    /// A disk with these bytes, of which none is pending. The calls whose numbers stand in `fails`,
    /// from 1 over `read`, `write_at` and `sync` together, fail, and so does each call past the
    /// first `calls`.
    pub fn create(
        alloc: Global,
        bytes: Vec<u8>,
        calls: u32,
        fails: Vec<u32>,
    ) -> Result<MemDisk, AllocError>
        requires some { 1 ≤ vec_len bytes }
        requires room { calls * vec_len bytes ≤ most_past }
        ensures bytes { IfOk result (λ disk. disk_bytes disk ≡ bytes.items) }
        ensures fails { IfOk result (λ disk. disk_fails disk ≡ fails.items) }
        ensures most { IfOk result (λ disk. disk_most disk ≡ calls) }
        ensures calls { IfOk result (λ disk. disk_calls disk ≡ 0) }
        ensures faults { IfOk result (λ disk. disk_faults disk ≡ 0) }
        ensures pending { IfOk result (λ disk. disk_pending disk ≡ []) }
        ensures clock { IfOk result (λ disk. disk_clock disk ≡ 0) }
    {
        let past = Vec::with_capacity(alloc, calls as usize * bytes.len())?;
        let steps = Vec::with_capacity(alloc, calls as usize)?;
        Ok(MemDisk {
            bytes,
            past,
            steps,
            plan: Plan {
                fails,
                most: calls,
                calls: 0,
                faults: 0,
            },
        })
    }

    /// The bytes on it.
    pub fn bytes(&self) -> &[u8]
        ensures { result.now ≡ disk_bytes self.now }
    {
        &self.bytes
    }

    /// How many calls failed so far.
    pub fn faults(&self) -> u64
        ensures { result ≡ disk_faults self.now }
    {
        self.plan.faults
    }
}

impl Disk for MemDisk {
    ghost use Rattle.std.specs.Prelude.{◌↔◌, ◌⊎◌, if◌then◌else◌, take, drop, is_ok, IsErr, OnOk};
    ghost use Rattle.std.specs.Prelude.{OnErr};
    ghost use Rattle.wal_port.specs.Plan.{FailsAt};
    ghost use Rattle.wal_port.specs.Faults.{Rose, count_up};
    ghost use Rattle.std.proofs.Common.{inl};
    ghost use Rattle.wal_journal.specs.Disk.{Agrees, Elapses, Writes, Syncs};
    ghost use Rattle.wal_journal.specs.MemDisk.{disk_bytes, disk_fails, disk_most, disk_calls};
    ghost use Rattle.wal_journal.specs.MemDisk.{disk_faults, disk_pending, disk_clock, disk_since};
    ghost use Rattle.wal_journal.specs.MemDisk.{since_earlier, since_now};

    ghost now = { disk_bytes };

    ghost faults = { disk_faults };

    ghost tells = { true };

    ghost pending = { disk_pending };

    ghost clock = { disk_clock };

    ghost since = { disk_since };

    ghost counts_now = { λ told d image t le agrees. inl (le, agrees) };

    ghost earlier = { λ told d image t later le left.
        since_earlier d.steps.items d.past.items d.bytes.items image t later le left };

    ghost only_now = { λ told d image left.
        since_now d.steps.items d.past.items d.bytes.items image left };

    fn len(&self) -> u64
        ensures value { result ≡ length (disk_bytes self.now) }
        ensures some { 1 ≤ result }
    {
        self.bytes.len() as u64
    }

    fn read(&mut self, at: u64, into: &mut [u8]) -> Result<(), Failed>
        requires { at + length into.old ≤ length (disk_bytes self.old) }
        ensures bytes { OnOk result
            (into.new ≡ take (length into.old) (drop at (disk_bytes self.old))) }
        ensures now { disk_bytes self.new ≡ disk_bytes self.old }
        ensures told { true ≡ true → disk_pending self.new ≡ disk_pending self.old }
        ensures time { true ≡ true → Elapses (disk_clock self.old) (disk_clock self.new)
            (disk_since self.old) (disk_since self.new)
            (Agrees (disk_pending self.new) (disk_bytes self.new)) }
        ensures failed { OnErr result (Rose (disk_faults self.old) (disk_faults self.new)) }
        ensures later { disk_faults self.old ≤ disk_faults self.new }

        // Which calls fail, and what is counted.
        ensures planned { IsErr result ↔ (FailsAt (disk_fails self.old) (disk_calls self.old + 1)
            ⊎ (disk_most self.old ≤ disk_calls self.old)) }
        ensures faults { disk_faults self.new
            ≡ (if is_ok result then disk_faults self.old else count_up (disk_faults self.old)) }
        ensures quiet { OnErr result ((disk_pending self.new ≡ disk_pending self.old)
            × (disk_clock self.new ≡ disk_clock self.old)) }
        ensures calls { disk_calls self.new ≡ count_up (disk_calls self.old) }
        ensures fails { disk_fails self.new ≡ disk_fails self.old }
        ensures most { disk_most self.new ≡ disk_most self.old }
    {
        if self.plan.next_fails() {
            return Err(Failed);
        }
        let from = at as usize;
        into.copy_from_slice(&self.bytes[from..from + into.len()]);
        Ok(())
    }

    fn write_at(&mut self, at: u64, bytes: &[u8]) -> Result<(), Failed>
        requires { at + length bytes.now ≤ length (disk_bytes self.old) }
        ensures written { OnOk result
            (disk_bytes self.new ≡ put_at at bytes.now (disk_bytes self.old)) }
        ensures torn { OnErr result
            (Agrees ((at, length bytes.now) ∷ []) (disk_bytes self.old) (disk_bytes self.new)) }
        ensures told { true ≡ true → Writes at (length bytes.now) result
            (disk_bytes self.old) (disk_bytes self.new)
            (disk_pending self.old) (disk_pending self.new)
            (disk_clock self.old) (disk_clock self.new) }
        ensures time { true ≡ true → Elapses (disk_clock self.old) (disk_clock self.new)
            (disk_since self.old) (disk_since self.new)
            (Agrees (disk_pending self.new) (disk_bytes self.new)) }
        ensures failed { OnErr result (Rose (disk_faults self.old) (disk_faults self.new)) }
        ensures later { disk_faults self.old ≤ disk_faults self.new }

        // Which calls fail, and what is counted. A failed write changes no byte.
        ensures planned { IsErr result ↔ (FailsAt (disk_fails self.old) (disk_calls self.old + 1)
            ⊎ (disk_most self.old ≤ disk_calls self.old)) }
        ensures unchanged { OnErr result (disk_bytes self.new ≡ disk_bytes self.old) }
        ensures faults { disk_faults self.new
            ≡ (if is_ok result then disk_faults self.old else count_up (disk_faults self.old)) }
        ensures quiet { OnErr result ((disk_pending self.new ≡ disk_pending self.old)
            × (disk_clock self.new ≡ disk_clock self.old)) }
        ensures calls { disk_calls self.new ≡ count_up (disk_calls self.old) }
        ensures fails { disk_fails self.new ≡ disk_fails self.old }
        ensures most { disk_most self.new ≡ disk_most self.old }
    {
        if self.plan.next_fails() {
            return Err(Failed);
        }
        let from = at as usize;
        let step = Step::Written(at, bytes.len() as u64);
        keep(&mut self.past, &mut self.steps, &self.bytes, step);
        overwrite(&mut self.bytes, from, bytes);
        Ok(())
    }

    fn sync(&mut self) -> Result<(), Failed>
        ensures now { disk_bytes self.new ≡ disk_bytes self.old }
        ensures told { true ≡ true → Syncs result (disk_pending self.old) (disk_pending self.new)
            (disk_clock self.old) (disk_clock self.new) }
        ensures time { true ≡ true → Elapses (disk_clock self.old) (disk_clock self.new)
            (disk_since self.old) (disk_since self.new)
            (Agrees (disk_pending self.new) (disk_bytes self.new)) }
        ensures failed { OnErr result (Rose (disk_faults self.old) (disk_faults self.new)) }
        ensures later { disk_faults self.old ≤ disk_faults self.new }

        // Which calls fail, and what is counted.
        ensures planned { IsErr result ↔ (FailsAt (disk_fails self.old) (disk_calls self.old + 1)
            ⊎ (disk_most self.old ≤ disk_calls self.old)) }
        ensures faults { disk_faults self.new
            ≡ (if is_ok result then disk_faults self.old else count_up (disk_faults self.old)) }
        ensures quiet { OnErr result ((disk_pending self.new ≡ disk_pending self.old)
            × (disk_clock self.new ≡ disk_clock self.old)) }
        ensures calls { disk_calls self.new ≡ count_up (disk_calls self.old) }
        ensures fails { disk_fails self.new ≡ disk_fails self.old }
        ensures most { disk_most self.new ≡ disk_most self.old }
    {
        if self.plan.next_fails() {
            return Err(Failed);
        }
        keep(&mut self.past, &mut self.steps, &self.bytes, Step::Synced);
        Ok(())
    }
}
