//! Which calls of a source, a sink or a disk in memory fail.

ghost use Rattle.std.specs.Prelude.{◌+◌, ◌↔◌, ◌<◌, ◌^◌, ◌≤◌, IsTrue};
ghost use Rattle.wal_port.specs.Plan.{FailsAt};

/// Whether the call after the first `calls` ones is planned to fail. Calls have the numbers from 1.
pub fn is_next_planned(fails: &[u32], calls: u64) -> bool
    ensures planned { IsTrue result ↔ FailsAt fails.now (calls + 1) }
    ensures early { IsTrue result → calls + 1 < 2 ^ 32 }
{
    fails
        .iter()
        .any(|&number| number != 0 && u64::from(number) - 1 == calls)
}
