//! A disk in memory that never fails and tells nothing of crashes.

ghost use Rattle.std.specs.Prelude.{◌≡◌, ℕ, ◌+◌, ◌<◌, ◌≤◌, false, List, [], vec_len, length, take};
ghost use Rattle.std.specs.Prelude.{drop};

use crate::disk::Disk;
use wal_port::Failed;

/// Bytes in memory. No call fails.
#[derive(Drop)]
pub struct FlatDisk {
    bytes: Vec<u8>,
    ghost some: { 1 ≤ vec_len bytes },
}

impl FlatDisk {
    ghost use Rattle.wal_journal.specs.FlatDisk.{flat_bytes};

    /// A disk with these bytes.
    pub fn create(bytes: Vec<u8>) -> FlatDisk
        requires { 1 ≤ vec_len bytes }
        ensures { flat_bytes result ≡ bytes.items }
    {
        FlatDisk { bytes }
    }

    /// The bytes on it.
    pub fn bytes(&self) -> &[u8]
        ensures { result.now ≡ flat_bytes self.now }
    {
        &self.bytes
    }
}

impl Disk for FlatDisk {
    ghost use Rattle.std.specs.Prelude.{IsOk, OnOk};
    ghost use Rattle.std.proofs.lemmas.Bool.{false≢true};
    ghost use Rattle.wal_journal.specs.Disk.{put_at};
    ghost use Rattle.wal_journal.specs.FlatDisk.{flat_bytes};

    ghost now = { flat_bytes };

    ghost faults = { λ d. 0 };

    ghost tells = { false };

    ghost pending = { λ d. [] };

    ghost clock = { λ d. 0 };

    ghost since = { λ d t image. ⊥ };

    ghost counts_now = { λ told. absurd (false≢true told) };

    ghost earlier = { λ told. absurd (false≢true told) };

    ghost only_now = { λ told. absurd (false≢true told) };

    fn len(&self) -> u64
        ensures value { result ≡ length (flat_bytes self.now) }
        ensures some { 1 ≤ result }
    {
        self.bytes.len() as u64
    }

    fn read(&mut self, at: u64, into: &mut [u8]) -> Result<(), Failed>
        requires { at + length into.old ≤ length (flat_bytes self.old) }
        ensures never { IsOk result }
        ensures bytes { into.new ≡ take (length into.old) (drop at (flat_bytes self.old)) }
        ensures now { flat_bytes self.new ≡ flat_bytes self.old }
    {
        let from = at as usize;
        into.copy_from_slice(&self.bytes[from..from + into.len()]);
        Ok(())
    }

    fn write_at(&mut self, at: u64, bytes: &[u8]) -> Result<(), Failed>
        requires { at + length bytes.now ≤ length (flat_bytes self.old) }
        ensures never { IsOk result }
        ensures written { flat_bytes self.new ≡ put_at at bytes.now (flat_bytes self.old) }
    {
        let from = at as usize;
        self.bytes[from..from + bytes.len()].copy_from_slice(bytes);
        Ok(())
    }

    fn sync(&mut self) -> Result<(), Failed>
        ensures never { IsOk result }
        ensures now { flat_bytes self.new ≡ flat_bytes self.old }
    {
        Ok(())
    }
}
