//! Numbers of points.

ghost use Rattle.std.specs.Prelude.{◌≡◌, ℕ, ◌-◌, ◌^◌, ◌<◌, ◌≤◌};

/// The number of points of a block.
pub fn points(level: usize) -> usize
    requires { level ≤ 10 }
    ensures value { result ≡ 2 ^ level }
    ensures few { result ≤ 1024 }
{
    1 << level
}

/// The number of points of half a block.
pub fn half(level: usize) -> usize
    requires some { 0 < level }
    requires few { level ≤ 10 }
    ensures { result ≡ 2 ^ (level - 1) }
{
    1 << (level - 1)
}

/// The least level whose block has this many points.
pub fn level_of(total: usize) -> usize
    requires { total ≤ 1024 }
    ensures few { result ≤ 10 }
    ensures enough { total ≤ 2 ^ result }
    ensures least { (level : ℕ) → total ≤ 2 ^ level → result ≤ level }
{
    let mut level = 0;
    while points(level) < total {
        level += 1;
    }
    level
}
