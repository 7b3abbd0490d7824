//! Openings with their targets.

ghost use Rattle.std.specs.Prelude.{◌≡◌, IfOk};

use crate::axis::Axis;
use crate::opening::Opening;
use std::alloc::{AllocError, Global};
use std::marker::Model;

/// An opening with its target: the sliver that its symbol is in.
#[derive(Debug, Drop)]
pub struct Claim {
    /// The axis of the target.
    pub axis: Axis,
    /// The index of the target.
    pub index: u16,
    pub opening: Opening,
}

impl Claim {
    /// An equal claim, in memory of its own.
    pub fn duplicate(&self, alloc: Global) -> Result<Claim, AllocError>
        ensures { IfOk result (λ copy. copy ≡ self.now) }
    {
        Ok(Claim {
            axis: self.axis,
            index: self.index,
            opening: self.opening.duplicate(alloc)?,
        })
    }
}

/// A list of openings with their targets.
#[derive(Debug, Drop)]
pub struct Claims {
    items: Vec<Claim>,
}

impl Model for Claims {
    ghost use Rattle.std.specs.Prelude.{List};
    ghost use Rattle.wal_shape.specs.declared.claim.Claim.{Claim};

    ghost Value = { List Claim };

    ghost view = { λ c. c.items.items };
}

impl Claims {
    /// The claims of a vector. Takes no memory.
    pub fn from_vec(items: Vec<Claim>) -> Claims
        ensures { result ≡ items.items }
    {
        Claims { items }
    }

    /// The vector that has these claims. Takes no memory.
    pub fn into_vec(self) -> Vec<Claim>
        ensures { result.items ≡ self }
    {
        let Claims { items } = self;
        items
    }

    /// Lends the claims.
    pub fn as_slice(&self) -> &[Claim]
        ensures { result.now ≡ self.now }
    {
        &self.items
    }

    /// An equal list, in memory of its own.
    pub fn duplicate(&self, alloc: Global) -> Result<Claims, AllocError>
        ensures { IfOk result (λ copy. copy ≡ self.now) }
    {
        let mut items = Vec::with_capacity(alloc, self.items.len())?;
        for claim in &self.items {
            items.push(claim.duplicate(alloc)?)?;
        }
        Ok(Claims { items })
    }
}
