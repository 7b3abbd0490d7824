//! The front of a disk.

ghost use Rattle.std.specs.Prelude.{◌≡◌, ◌≤◌, length, take};
ghost use Rattle.wal_journal.specs.FlatDisk.{flat_bytes};

use wal_journal::FlatDisk;

/// A disk, and how many of its bytes are meant.
#[derive(Drop)]
pub struct Front {
    disk: FlatDisk,
    size: u64,
    ghost within: { size ≤ length (flat_bytes disk) },
}

impl Front {
    /// So many bytes of a disk.
    pub fn create(disk: FlatDisk, size: u64) -> Front
        requires { size ≤ length (flat_bytes disk) }
        ensures disk { result.disk ≡ disk }
        ensures size { result.size ≡ size }
    {
        Front { disk, size }
    }

    /// Lends the bytes.
    pub fn bytes(&self) -> &[u8]
        ensures { result.now ≡ take self.now.size (flat_bytes self.now.disk) }
    {
        &self.disk.bytes()[..self.size as usize]
    }
}
