//! Slivers and openings.

ghost use Rattle.std.specs.Prelude.{◌≡◌, ◌%◌, length, IfOk};

use crate::axis::Axis;
use crate::lists::{Bytes, Path};
use std::alloc::{AllocError, Global};
use std::marker::Model;

/// A sliver: a row or a column of the matrix without its redundant symbols.
#[derive(Debug, Drop)]
pub struct Sliver {
    pub axis: Axis,
    pub index: u16,
    /// The symbols in order, one after the other.
    pub bytes: Bytes,
}

/// A sliver whose bytes are lent.
#[derive(Clone, Copy, Debug)]
pub struct SliverRef<'a> {
    pub axis: Axis,
    pub index: u16,
    /// The symbols in order, one after the other.
    pub bytes: &'a [u8],
}

impl Sliver {
    /// Lends the sliver.
    pub fn view(&self) -> SliverRef<'_>
        ensures axis { result.axis ≡ self.now.axis }
        ensures index { result.index ≡ self.now.index }
        ensures bytes { result.bytes.now ≡ self.now.bytes }
    {
        SliverRef {
            axis: self.axis,
            index: self.index,
            bytes: self.bytes.as_slice(),
        }
    }
}

/// One symbol of the extended matrix with its path to the root of its own sliver.
#[derive(Debug, Drop)]
pub struct Opening {
    /// The index of the crossing sliver, which has the symbol too, and the symbol's place in the
    /// target. In format two another shard holds the secondary sliver of this index.
    pub cross: u16,
    pub symbol: Bytes,
    /// The sibling digests from the leaf upwards.
    pub path: Path,
}

/// An opening whose bytes are lent.
#[derive(Clone, Copy, Debug)]
pub struct OpeningRef<'a> {
    /// The index of the crossing sliver, which has the symbol too, and the symbol's place in the
    /// target. In format two another shard holds the secondary sliver of this index.
    pub cross: u16,
    pub symbol: &'a [u8],
    /// The sibling digests from the leaf upwards, 32 bytes each.
    pub path: &'a [u8],
}

impl Opening {
    /// Lends the opening.
    pub fn view(&self) -> OpeningRef<'_>
        ensures cross { result.cross ≡ self.now.cross }
        ensures symbol { result.symbol.now ≡ self.now.symbol }
        ensures path { result.path.now ≡ self.now.path }
        ensures whole { length result.path.now % 32 ≡ 0 }
    {
        OpeningRef {
            cross: self.cross,
            symbol: self.symbol.as_slice(),
            path: self.path.as_slice(),
        }
    }

    /// An equal opening, in memory of its own.
    pub fn duplicate(&self, alloc: Global) -> Result<Opening, AllocError>
        ensures { IfOk result (λ copy. copy ≡ self.now) }
    {
        Ok(Opening {
            cross: self.cross,
            symbol: self.symbol.duplicate(alloc)?,
            path: self.path.duplicate(alloc)?,
        })
    }
}

/// A list of openings.
#[derive(Debug, Drop)]
pub struct Openings {
    items: Vec<Opening>,
}

impl Model for Openings {
    ghost use Rattle.std.specs.Prelude.{List};
    ghost use Rattle.wal_shape.specs.declared.opening.Opening.{Opening};

    ghost Value = { List Opening };

    ghost view = { λ o. o.items.items };
}

impl Openings {
    /// The openings of a vector. Takes no memory.
    pub fn from_vec(items: Vec<Opening>) -> Openings
        ensures { result ≡ items.items }
    {
        Openings { items }
    }

    /// The vector that has these openings. Takes no memory.
    pub fn into_vec(self) -> Vec<Opening>
        ensures { result.items ≡ self }
    {
        let Openings { items } = self;
        items
    }

    /// Lends the openings.
    pub fn as_slice(&self) -> &[Opening]
        ensures { result.now ≡ self.now }
    {
        &self.items
    }

    /// An equal list, in memory of its own.
    pub fn duplicate(&self, alloc: Global) -> Result<Openings, AllocError>
        ensures { IfOk result (λ copy. copy ≡ self.now) }
    {
        let mut items = Vec::with_capacity(alloc, self.items.len())?;
        for opening in &self.items {
            items.push(opening.duplicate(alloc)?)?;
        }
        Ok(Openings { items })
    }
}
