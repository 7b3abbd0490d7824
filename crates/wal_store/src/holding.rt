//! The four parts that are held under one identifier.

ghost use Rattle.std.specs.Prelude.{◌≡◌, ℕ, ◌+◌, ◌<◌, ◌≤◌, List, Option, Some, None, IsTrue, IfOk};
ghost use Rattle.std.specs.Prelude.{IfSome, OnErr, length};
ghost use Rattle.std.specs.Option.{option_map};
ghost use Rattle.wal_shape.specs.Shape.{most_bytes};
ghost use Rattle.wal_store.specs.Parts.{Parts, no_parts, part_of, with_part, is_empty, cost_of};
ghost use Rattle.wal_store.specs.Parts.{part_cost, pages_for, is_fit};

use std::alloc::{AllocError, Global};
use std::marker::Model;
use wal_shape::{Bytes, Part};

/// The bytes of a page.
const PAGE_SIZE: u32 = 4096;

/// The pages that so many bytes fill.
#[tactic(auto, unfolding(crate::specs::Parts::pages_for))]
pub fn pages_for(size: u32) -> u32
    requires { size ≤ most_bytes }
    ensures value { result ≡ pages_for size }
    ensures most { result ≤ 4096 }
{
    size.div_ceil(PAGE_SIZE)
}

/// Up to four parts, each of 1 to 16,777,216 bytes.
#[derive(Drop)]
pub struct Holding {
    metadata: Option<Bytes>,
    primary: Option<Bytes>,
    secondary: Option<Bytes>,
    proof: Option<Bytes>,
}

impl Model for Holding {
    ghost Value = { Parts };

    ghost view = { λ h. record {
      metadata = h.metadata;
      primary = h.primary;
      secondary = h.secondary;
      proof = h.proof;
    } };

    ghost invariant = { λ h. IsTrue (is_fit h.metadata)
        × IsTrue (is_fit h.primary)
        × IsTrue (is_fit h.secondary)
        × IsTrue (is_fit h.proof) };
}

/// The number of bytes of a part.
fn size_of(bytes: &Option<Bytes>) -> Option<u32>
    requires { IsTrue (is_fit bytes.now) }
    ensures value { result ≡ option_map length bytes.now }
    ensures range { IfSome result (λ n. (1 ≤ n) × (n ≤ most_bytes)) }
{
    match bytes {
        Some(bytes) => Some(bytes.as_slice().len() as u32),
        None => None,
    }
}

/// The pages of a part.
fn cost_of_part(bytes: &Option<Bytes>) -> u32
    requires { IsTrue (is_fit bytes.now) }
    ensures value { result ≡ part_cost bytes.now }
    ensures most { result ≤ 4096 }
{
    match bytes {
        Some(bytes) => pages_for(bytes.as_slice().len() as u32),
        None => 0,
    }
}

/// A copy of a part, in memory of its own.
fn copy_of(alloc: Global, bytes: &Option<Bytes>) -> Result<Option<Bytes>, AllocError>
    ensures { IfOk result (λ copy. copy ≡ bytes.now) }
{
    match bytes {
        Some(bytes) => Ok(Some(bytes.duplicate(alloc)?)),
        None => Ok(None),
    }
}

impl Holding {
    /// No part.
    pub fn empty() -> Holding
        ensures { result ≡ no_parts }
    {
        Holding {
            metadata: None,
            primary: None,
            secondary: None,
            proof: None,
        }
    }

    /// A part.
    pub fn part(&self, part: Part) -> &Option<Bytes>
        ensures value { result.now ≡ part_of self.now part }
        ensures fit { IsTrue (is_fit result.now) }
    {
        match part {
            Part::Metadata => &self.metadata,
            Part::Primary => &self.primary,
            Part::Secondary => &self.secondary,
            Part::Proof => &self.proof,
        }
    }

    /// The number of bytes of a part.
    pub fn size(&self, part: Part) -> Option<u32>
        ensures value { result ≡ option_map length (part_of self.now part) }
        ensures range { IfSome result (λ n. (1 ≤ n) × (n ≤ most_bytes)) }
    {
        size_of(self.part(part))
    }

    /// The pages of a part.
    pub fn cost_of(&self, part: Part) -> u32
        ensures value { result ≡ part_cost (part_of self.now part) }
        ensures most { result ≤ 4096 }
    {
        cost_of_part(self.part(part))
    }

    /// Puts these bytes in place of a part.
    pub fn set(&mut self, part: Part, bytes: Option<Bytes>)
        requires { IsTrue (is_fit bytes) }
        ensures { self.new ≡ with_part self.old part bytes }
    {
        match part {
            Part::Metadata => self.metadata = bytes,
            Part::Primary => self.primary = bytes,
            Part::Secondary => self.secondary = bytes,
            Part::Proof => self.proof = bytes,
        }
    }

    /// Whether no part is held but perhaps this one.
    pub fn is_empty_without(&self, part: Part) -> bool
        ensures { result ≡ is_empty (with_part self.now part None) }
    {
        (part == Part::Metadata || self.metadata.is_none())
            && (part == Part::Primary || self.primary.is_none())
            && (part == Part::Secondary || self.secondary.is_none())
            && (part == Part::Proof || self.proof.is_none())
    }

    /// The pages of the holding and its parts.
    pub fn cost(&self) -> u32
        ensures value { result ≡ cost_of self.now }
        ensures most { result ≤ 16385 }
    {
        1 + cost_of_part(&self.metadata)
            + cost_of_part(&self.primary)
            + cost_of_part(&self.secondary)
            + cost_of_part(&self.proof)
    }

    /// An equal holding, in memory of its own.
    pub fn duplicate(&self, alloc: Global) -> Result<Holding, AllocError>
        ensures { IfOk result (λ copy. copy ≡ self.now) }
    {
        Ok(Holding {
            metadata: copy_of(alloc, &self.metadata)?,
            primary: copy_of(alloc, &self.primary)?,
            secondary: copy_of(alloc, &self.secondary)?,
            proof: copy_of(alloc, &self.proof)?,
        })
    }
}
