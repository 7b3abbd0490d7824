ghost use Rattle.std.specs.Prelude.{◌≡◌, ℕ, ◌+◌, ◌≤◌, [], ◌++◌, List, length, take};

use crate::hash::Digest;
use std::marker::Model;

// The levels above 1000 leaves, and so the digests of the longest path.
const LEVELS: usize = 10;

/// The digests of a path, one after the other, in place. It has room for the ten digests of a tree
/// of 1000 leaves.
#[derive(Drop)]
pub struct PathBuf {
    room: [u8; 32 * LEVELS],
    used: usize,
}

// Clauses see the bytes in use.
impl Model for PathBuf {
    ghost Value = { List ℕ };

    ghost view = { λ p. take p.used p.room };

    ghost invariant = { λ p. p.used ≤ 320 };
}

impl PathBuf {
    /// A path with no digest.
    pub fn create() -> PathBuf
        ensures { result ≡ [] }
    {
        PathBuf {
            room: [0; 32 * LEVELS],
            used: 0,
        }
    }

    /// The digests, one after the other, from the leaf upwards.
    pub fn bytes(&self) -> &[u8]
        ensures { result.now ≡ self.now }
    {
        &self.room[..self.used]
    }

    /// Forgets the digests.
    pub(crate) fn clear(&mut self)
        ensures { self.new ≡ [] }
    {
        self.used = 0;
    }

    /// Adds one digest.
    pub(crate) fn push(&mut self, digest: &Digest)
        requires { length self.old + 32 ≤ 320 }
        ensures appended { self.new ≡ self.old ++ digest.now }
        ensures grows { length self.new ≡ length self.old + 32 }
    {
        self.room[self.used..self.used + 32].copy_from_slice(digest);
        self.used += 32;
    }
}
