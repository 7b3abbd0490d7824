//! What gives bytes, and what takes them.

ghost use Rattle.std.specs.Prelude.{ℕ, ◌<◌, ◌≤◌, List, Option, length, IfOk, OnErr};
ghost use Rattle.std.specs.Io.{ReadsAtMost, WritesAtMost};
ghost use Rattle.std.specs.Io.KnownBytes.{ReadConsumes, WriteAppends};
ghost use Rattle.wal_port.specs.Faults.{Rose};

/// A call that moved nothing. Which fault it was is not kept: the count of faults rose.
#[derive(Clone, Copy, Debug, PartialEq, Eq)]
pub struct Failed;

/// What gives bytes, a piece at each call, until its end.
pub trait Source {
    // The bytes that are still to come, where they are known.
    ghost left: { Self → Option (List ℕ) };

    // How many calls failed so far.
    ghost faults: { Self → ℕ };

    /// Moves the next bytes to the front of `into`, and says how many: 0 only at the end of the
    /// bytes. Bytes of `into` past that number have any value. After `Failed` no byte is lost.
    fn read(&mut self, into: &mut [u8]) -> Result<usize, Failed>
        requires { 0 < length into.old }
        ensures bound { ReadsAtMost result into.new }
        ensures bytes { ReadConsumes (left self.old) (left self.new) result into.new }
        ensures failed { OnErr result (Rose (faults self.old) (faults self.new)) }
        ensures later { faults self.old ≤ faults self.new };
}

/// What takes bytes, a piece at each call.
pub trait Sink {
    // The bytes that were taken so far, where they are known.
    ghost written: { Self → Option (List ℕ) };

    // How many calls failed so far.
    ghost faults: { Self → ℕ };

    /// Takes bytes from the front of `piece`, and says how many: at least one. After `Failed` none
    /// was taken.
    fn write(&mut self, piece: &[u8]) -> Result<usize, Failed>
        requires { 0 < length piece.now }
        ensures bound { WritesAtMost result piece.now }
        ensures some { IfOk result (λ k. 0 < k) }
        ensures bytes { WriteAppends (written self.old) (written self.new) result piece.now }
        ensures failed { OnErr result (Rose (faults self.old) (faults self.new)) }
        ensures later { faults self.old ≤ faults self.new };
}
