//! What was heard of a blob's payloads, which come one by one.

ghost use Rattle.std.specs.Prelude.{◌≡◌, ◌↔◌, ◌≤◌, ◌<◌, ◌^◌, ◌++◌, ◌∷◌, ℕ, List, [], length, All};
ghost use Rattle.std.specs.Prelude.{IsTrue, IsOk, IfOk, OnOk};
ghost use Rattle.wal_reader.specs.Heard.{HasHeard, IsSettledState};
ghost use Rattle.wal_reader.specs.Outcome.{IsAnswer};
ghost use Rattle.wal_reader.specs.Settled.{IsSettled};

use crate::closing::answer_kept;
use crate::kept::Kept;
use crate::longest::most;
use crate::outcome::ReadAnswer;
use std::alloc::{AllocError, Global};
use std::marker::{Model, PhantomData};
use std::mem;
use wal_shape::BlobId;
use wal_tree::Hash32;

/// What was heard about a blob so far: what can still matter for the answer that `read` gives.
#[derive(Drop)]
pub(crate) struct Heard<H: Hash32> {
    id: BlobId,
    kept: Kept,
    digest: PhantomData<H>,
}

impl<H: Hash32> Model for Heard<H> {
    ghost use Rattle.std.specs.Prelude.{ℕ, List};
    ghost use Rattle.wal_reader.specs.Heard.{HeardState, HasKept};

    ghost Value = { HeardState };

    ghost view = { λ h. record { id = h.id.0; kept = h.kept } };

    ghost invariant = { λ h. (payloads : List (List ℕ)) × HasKept H.digest h.id.0 h.kept payloads };
}

impl<H: Hash32> Heard<H> {
    /// Nothing was heard yet. Takes no memory.
    pub(crate) fn create(alloc: Global, id: &BlobId) -> Heard<H>
        ensures { HasHeard H.digest id.now.0 result [] }
    {
        Heard {
            id: *id,
            kept: Kept::Waiting(Vec::new(alloc)),
            digest: PhantomData,
        }
    }

    /// Hears one payload more. What cannot matter is dropped. Once this is settled, it takes no
    /// memory.
    pub(crate) fn hear(&mut self, alloc: Global, payload: &[u8]) -> Result<(), AllocError>
        ensures heard { (id : List ℕ) (payloads : List (List ℕ))
            → HasHeard H.digest id self.old payloads
            → OnOk result (HasHeard H.digest id self.new (payloads ++ payload.now ∷ [])) }
        ensures memory { IsSettledState self.old → IsOk result × IsSettledState self.new }
    {
        let kept = mem::replace(&mut self.kept, Kept::Waiting(Vec::new(alloc)));
        self.kept = kept.after::<H>(alloc, &self.id, payload)?;
        Ok(())
    }

    /// Whether no payload changes the answer from now on, but for another metadata of the
    /// identifier.
    pub(crate) fn is_settled(&self) -> bool
        ensures value { IsTrue result ↔ IsSettledState self.now }
        ensures settled { (id : List ℕ) (payloads : List (List ℕ))
            → HasHeard H.digest id self.now payloads
            → (IsTrue result ↔ IsSettled H.digest id payloads) }
    {
        self.kept.is_settled()
    }

    /// A length above which no payload changes what was heard.
    pub(crate) fn most(&self) -> u64
        ensures least { 64012 ≤ result }
        ensures settled { IsSettledState self.now → result ≡ 64012 }
        ensures past { (id : List ℕ) (payloads : List (List ℕ)) (payload : List ℕ)
            → HasHeard H.digest id self.now payloads
            → All (λ b. b < 256) payload → length payload < 2 ^ 32 → result < length payload
            → HasHeard H.digest id self.now (payloads ++ payload ∷ []) }
    {
        most(&self.kept)
    }

    /// The answer that `read` gives for the payloads.
    pub(crate) fn answer(self, alloc: Global) -> Result<ReadAnswer, AllocError>
        ensures { (id : List ℕ) (payloads : List (List ℕ)) → HasHeard H.digest id self payloads
            → IfOk result (IsAnswer H.digest id payloads) }
    {
        answer_kept::<H>(alloc, self.kept)
    }
}
