//! What stands in a table for each holding.

ghost use Rattle.std.specs.Prelude.{◌≡◌, List, Option, Some, None};
ghost use Rattle.wal_store.specs.inside.Rows.{slot_of, with_slot, no_slots, is_bare};

use wal_shape::{BlobId, Part};

/// Where the bytes of a part stand: the first page of their chain, and how many they are.
#[derive(Clone, Copy, Drop)]
pub struct Slot {
    /// The first page.
    pub first: u32,
    /// The number of bytes.
    pub size: u32,
}

/// A holding: its identifier, the page that it costs, and its parts.
#[derive(Clone, Copy, Drop)]
pub struct Row {
    /// The identifier.
    pub id: BlobId,
    /// The page of the holding.
    pub home: u32,
    /// The metadata.
    pub metadata: Option<Slot>,
    /// The primary sliver.
    pub primary: Option<Slot>,
    /// The secondary sliver.
    pub secondary: Option<Slot>,
    /// The proof.
    pub proof: Option<Slot>,
}

impl Row {
    /// A holding without parts.
    pub fn empty(id: BlobId, home: u32) -> Row
        ensures { result ≡ no_slots id home }
    {
        Row {
            id,
            home,
            metadata: None,
            primary: None,
            secondary: None,
            proof: None,
        }
    }

    /// A part.
    pub fn slot(&self, part: Part) -> Option<Slot>
        ensures { result ≡ slot_of self.now part }
    {
        match part {
            Part::Metadata => self.metadata,
            Part::Primary => self.primary,
            Part::Secondary => self.secondary,
            Part::Proof => self.proof,
        }
    }

    /// Whether no part is held.
    pub fn is_bare(&self) -> bool
        ensures { result ≡ is_bare self.now }
    {
        self.metadata.is_none()
            && self.primary.is_none()
            && self.secondary.is_none()
            && self.proof.is_none()
    }

    /// The same row, but for one part.
    pub fn with(self, part: Part, slot: Option<Slot>) -> Row
        ensures { result ≡ with_slot self part slot }
    {
        match part {
            Part::Metadata => Row {
                metadata: slot,
                ..self
            },
            Part::Primary => Row {
                primary: slot,
                ..self
            },
            Part::Secondary => Row {
                secondary: slot,
                ..self
            },
            Part::Proof => Row {
                proof: slot,
                ..self
            },
        }
    }
}
