//! The two directions of the matrix, and the two committees of a handover.

ghost use Rattle.std.specs.Prelude.{◌≡◌};
ghost use Rattle.wal_shape.specs.Shape.{crossing};
ghost use Rattle.wal_shape.specs.Spelling.{axis_number};

/// The direction of a sliver.
///
/// A primary sliver is a row of the extended matrix and a secondary one a column (RedStuff, in the
/// Walrus paper, section "Red Stuff").
#[derive(Clone, Copy, Debug, PartialEq, Eq)]
pub enum Axis {
    /// A row: `2f + 1` source symbols.
    Primary,
    /// A column: `f + 1` source symbols.
    Secondary,
}

impl Axis {
    /// The axis of the slivers that cross those of this axis.
    pub fn crossing(self) -> Axis
        ensures { result ≡ crossing self }
    {
        match self {
            Axis::Primary => Axis::Secondary,
            Axis::Secondary => Axis::Primary,
        }
    }

    /// The number of the axis in spellings.
    pub fn number(self) -> u8
        ensures { result ≡ axis_number self }
    {
        match self {
            Axis::Primary => 0,
            Axis::Secondary => 1,
        }
    }
}

/// Which of two committees a shard belongs to while an epoch changes.
#[derive(Clone, Copy, Debug, PartialEq, Eq)]
pub enum Side {
    /// The committee of the present epoch.
    Now,
    /// The committee of the next epoch.
    Next,
}
