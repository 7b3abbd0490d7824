//! Bytes that only clauses read.

ghost use Rattle.std.specs.Prelude.{◌≡◌, ℕ, List, [], ◌++◌};
ghost use Rattle.std.specs.Borrow.{ftrue};

use std::marker::{Model, PhantomData};

/// A text that stands in clauses alone. It takes no memory, and its methods do nothing when they
/// run.
#[derive(Drop)]
pub struct Noted {
    marker: PhantomData<u8>,
    pub ghost bytes: { List ℕ },
}

impl Model for Noted {
    ghost also_owns = { λ _. ftrue };
}

impl Noted {
    /// No bytes.
    pub(crate) fn new() -> Noted
        ensures { result.bytes ≡ [] }
    {
        Noted {
            marker: PhantomData,
        }
    }

    /// Notes `bytes` behind those that were noted.
    pub(crate) fn add(&mut self, _bytes: &[u8])
        ensures { self.new.bytes ≡ self.old.bytes ++ _bytes.now }
    {}
}
