//! What a reader collects for a blob, and what it comes to.

ghost use Rattle.std.specs.Prelude.{◌≡◌, IfOk};

use std::alloc::{AllocError, Global};
use wal_shape::{BadProof, Bytes, Metadata, Shards};

/// What evidence rests on besides the metadata.
#[derive(Debug, Drop)]
pub enum Basis {
    /// Primary slivers: their indices, and their bytes one after the other.
    Slivers { indices: Shards, joined: Bytes },
    /// A proof of bad encoding.
    Proof(BadProof),
}

/// A metadata, and what it is judged by.
#[derive(Debug, Drop)]
pub struct Evidence {
    pub metadata: Metadata,
    pub basis: Basis,
}

/// What the evidence for a blob comes to.
#[derive(Debug, Drop)]
pub enum Verdict {
    /// The blob's bytes.
    Bytes(Bytes),
    /// The slivers belong to no blob that the metadata commits, or a proof shows that there is
    /// none: its writer encoded wrongly.
    Reject,
}

impl Basis {
    /// An equal basis, in memory of its own.
    pub fn duplicate(&self, alloc: Global) -> Result<Basis, AllocError>
        ensures { IfOk result (λ copy. copy ≡ self.now) }
    {
        Ok(match self {
            Basis::Slivers { indices, joined } => Basis::Slivers {
                indices: indices.duplicate(alloc)?,
                joined: joined.duplicate(alloc)?,
            },
            Basis::Proof(p) => Basis::Proof(BadProof::copied(alloc, p.view())?),
        })
    }
}

impl Evidence {
    /// Equal evidence, in memory of its own.
    pub fn duplicate(&self, alloc: Global) -> Result<Evidence, AllocError>
        ensures { IfOk result (λ copy. copy ≡ self.now) }
    {
        Ok(Evidence {
            metadata: Metadata::of(alloc, self.metadata.view())?,
            basis: self.basis.duplicate(alloc)?,
        })
    }
}
