//! What the journal asks of a disk.

ghost use Rattle.std.specs.Prelude.{◌≡◌, ℕ, ◌+◌, ◌≤◌, Bool, true, List, [], ◌∷◌, length, take};
ghost use Rattle.std.specs.Prelude.{drop, OnOk, OnErr};
ghost use Rattle.wal_journal.specs.Disk.{Agrees, put_at, Elapses, Writes, Syncs};
ghost use Rattle.wal_port.specs.Faults.{Rose};

use wal_port::Failed;

/// A fixed number of bytes that stay over a crash.
///
/// What was written since the last `sync` that answered `Ok` is pending: a crash may leave anything
/// in these ranges, and leaves every other byte as a read gives it. A disk tells its crashes for
/// its whole life or never, and every sentence on a crash holds where they are told.
pub trait Disk {
    // The bytes that a read gives.
    ghost now: { Self → List ℕ };

    // How many calls failed so far.
    ghost faults: { Self → ℕ };

    // Whether what is pending, the clock and what a crash may have left are told.
    ghost tells: { Bool };

    // The start and the length of each range that is pending, the newest first.
    ghost pending: { Self → List (ℕ × ℕ) };

    // The moment, as a number that never falls.
    ghost clock: { Self → ℕ };

    // What a crash at some moment whose clock is at least that may have left, within a call or
    // between two.
    ghost since: { Self → ℕ → List ℕ → Type 0 };

    /// How many bytes it has: at least one, and always as many.
    fn len(&self) -> u64
        ensures value { result ≡ length (now self.now) }
        ensures some { 1 ≤ result };

    /// Fills `into` with the bytes from a place on. After `Failed` it has any value.
    fn read(&mut self, at: u64, into: &mut [u8]) -> Result<(), Failed>
        requires { at + length into.old ≤ length (now self.old) }
        ensures bytes { OnOk result (into.new ≡ take (length into.old) (drop at (now self.old))) }
        ensures now { now self.new ≡ now self.old }
        ensures told { tells ≡ true → pending self.new ≡ pending self.old }
        ensures time { tells ≡ true → Elapses (clock self.old) (clock self.new)
            (since self.old) (since self.new) (Agrees (pending self.new) (now self.new)) }
        ensures failed { OnErr result (Rose (faults self.old) (faults self.new)) }
        ensures later { faults self.old ≤ faults self.new };

    /// Writes over the bytes from a place on. A write that fails may leave any bytes there.
    fn write_at(&mut self, at: u64, bytes: &[u8]) -> Result<(), Failed>
        requires { at + length bytes.now ≤ length (now self.old) }
        ensures written { OnOk result (now self.new ≡ put_at at bytes.now (now self.old)) }
        ensures torn { OnErr result
            (Agrees ((at, length bytes.now) ∷ []) (now self.old) (now self.new)) }
        ensures told { tells ≡ true → Writes at (length bytes.now) result
            (now self.old) (now self.new) (pending self.old) (pending self.new)
            (clock self.old) (clock self.new) }
        ensures time { tells ≡ true → Elapses (clock self.old) (clock self.new)
            (since self.old) (since self.new) (Agrees (pending self.new) (now self.new)) }
        ensures failed { OnErr result (Rose (faults self.old) (faults self.new)) }
        ensures later { faults self.old ≤ faults self.new };

    /// After it nothing is pending. A sync that fails changes nothing but the count of faults.
    fn sync(&mut self) -> Result<(), Failed>
        ensures now { now self.new ≡ now self.old }
        ensures told { tells ≡ true → Syncs result (pending self.old) (pending self.new)
            (clock self.old) (clock self.new) }
        ensures time { tells ≡ true → Elapses (clock self.old) (clock self.new)
            (since self.old) (since self.new) (Agrees (pending self.new) (now self.new)) }
        ensures failed { OnErr result (Rose (faults self.old) (faults self.new)) }
        ensures later { faults self.old ≤ faults self.new };

    // A crash at this moment is one of those since an earlier one.
    ghost counts_now: { tells ≡ true → (disk : Self) (image : List ℕ) (t : ℕ) → t ≤ clock disk
        → Agrees (pending disk) (now disk) image → since disk t image };

    // What may have been left since a moment may have been left since an earlier one.
    ghost earlier: { tells ≡ true → (disk : Self) (image : List ℕ) (t later : ℕ) → t ≤ later
        → since disk later image → since disk t image };

    // Since this moment there is no other.
    ghost only_now: { tells ≡ true → (disk : Self) (image : List ℕ) → since disk (clock disk) image
        → Agrees (pending disk) (now disk) image };
}
