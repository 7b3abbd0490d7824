//! A flag for each number.

ghost use Rattle.std.specs.Prelude.{◌≡◌, ℕ, ◌<◌, ◌≤◌, List, true, false, length, replicate};
ghost use Rattle.std.specs.Prelude.{slice_set, IfOk};
ghost use Rattle.wal_ledger.specs.inside.Flags.{flag_of};

use std::alloc::{AllocError, Global};
use std::marker::Model;

/// A flag for each number below a bound.
#[derive(Debug, Drop)]
pub(crate) struct Flags {
    flags: Vec<bool>,
}

impl Model for Flags {
    ghost use Rattle.std.specs.Prelude.{Bool, List};

    ghost Value = { List Bool };

    ghost view = { λ r. r.flags.items };
}

impl Flags {
    /// So many flags, all down.
    pub(crate) fn create(alloc: Global, size: u32) -> Result<Flags, AllocError>
        ensures { IfOk result (λ flags. flags ≡ replicate size false) }
    {
        Ok(Flags {
            flags: Vec::from_elem(alloc, false, size as usize)?,
        })
    }

    /// Whether the flag of a number is up.
    pub(crate) fn is_up(&self, number: u16) -> bool
        requires { number < length self.now }
        ensures { result ≡ flag_of self.now number }
    {
        self.flags[number as usize]
    }

    /// Puts the flag of a number up.
    pub(crate) fn raise(&mut self, number: u16)
        requires { number < length self.old }
        ensures { self.new ≡ slice_set self.old number true }
    {
        self.flags[number as usize] = true;
    }

    /// Puts all flags down.
    pub(crate) fn clear(&mut self)
        ensures { self.new ≡ replicate (length self.old) false }
    {
        self.flags.fill(false);
    }
}
