//! What texts of limits say: boxes, polygons and ranges, in nanounits.

ghost use Rattle.std.specs.Prelude.{◌≡◌};
ghost use Rattle.limits_text.specs.Held.{AreHeld};

use file_devices::Name;
use std::marker::Model;

/// A box with its borders. Each pair is its least and its greatest coordinate, in nanounits.
#[derive(Clone, Copy, Debug, PartialEq, Eq)]
pub struct Box3 {
    /// From west to east.
    pub x: (i64, i64),
    /// From south to north.
    pub y: (i64, i64),
    /// The heights. Without them each height is in the box.
    pub z: Option<(i64, i64)>,
}

/// The corners of a ring in nanounits, each coordinate at most 4 * 10^18 in size, which contracts see as their list.
#[derive(Drop)]
pub struct Polygon {
    corners: Vec<(i64, i64)>,
}

impl Model for Polygon {
    ghost use Rattle.std.specs.Prelude.{List, ℤ};
    ghost use Rattle.limits_text.specs.Held.{AreHeld};

    ghost Value = { List (ℤ × ℤ) };

    ghost view = { λ g. g.corners.items };

    ghost invariant = { λ g. AreHeld g.corners.items };
}

impl Polygon {
    /// The ring of these corners. It takes no memory.
    pub fn new(corners: Vec<(i64, i64)>) -> Self
        requires { AreHeld corners.items }
        ensures { result ≡ corners.items }
    {
        Polygon { corners }
    }

    /// The corners, in their order.
    pub fn as_slice(&self) -> &[(i64, i64)]
        ensures corners { result.now ≡ self.now }
        ensures held { AreHeld result.now }
    {
        self.corners.as_slice()
    }

    /// Gives the corners back. It takes no memory.
    pub fn into_vec(self) -> Vec<(i64, i64)>
        ensures { result.items ≡ self }
    {
        self.corners
    }
}

/// A range of values. An end that is absent doesn't bound.
#[derive(Clone, Copy, Debug, PartialEq, Eq)]
pub struct Interval {
    /// The low end, in nanounits.
    pub low: Option<i64>,
    /// Whether the low end is in the range.
    pub low_in: bool,
    /// The high end, in nanounits.
    pub high: Option<i64>,
    /// Whether the high end is in the range.
    pub high_in: bool,
    /// Whether all values but those of the range are meant.
    pub negated: bool,
}

/// A range of the values of a dimension.
#[derive(Drop)]
pub struct NamedRange {
    /// The name of the dimension, as the text has it.
    pub name: Name,
    /// Its values.
    pub interval: Interval,
}

/// Ranges, which contracts see as their list.
#[derive(Drop)]
pub struct RangeList {
    items: Vec<NamedRange>,
}

impl Model for RangeList {
    ghost use Rattle.std.specs.Prelude.{List};
    ghost use Rattle.limits_text.specs.declared.shapes.NamedRange.{NamedRange};

    ghost Value = { List NamedRange };

    ghost view = { λ l. l.items.items };
}

impl RangeList {
    /// The list of these ranges. It takes no memory.
    pub fn new(ranges: Vec<NamedRange>) -> Self
        ensures { result ≡ ranges.items }
    {
        RangeList { items: ranges }
    }

    /// The ranges, in their order.
    pub fn as_slice(&self) -> &[NamedRange]
        ensures { result.now ≡ self.now }
    {
        self.items.as_slice()
    }

    /// Gives the ranges back. It takes no memory.
    pub fn into_vec(self) -> Vec<NamedRange>
        ensures { result.items ≡ self }
    {
        self.items
    }
}
