//! The box around the corners of a ring.

ghost use Rattle.std.specs.Prelude.{◌≡◌};
ghost use Rattle.geo_tests.specs.Extents.{with_number, with_corner, extent_of};
ghost use Rattle.geo_tests.specs.Tests.{in_extent};

use crate::boxes::in_pair;

/// The least box, its sides along X and Y, that holds all corners of a ring.
#[derive(Clone, Copy)]
pub(crate) struct Extent {
    /// The least and the greatest X coordinate in nanounits.
    pub(crate) x: (i64, i64),
    /// The least and the greatest Y coordinate in nanounits.
    pub(crate) y: (i64, i64),
}

fn with_number(ends: (i64, i64), v: i64) -> (i64, i64)
    ensures { result ≡ with_number ends v }
{
    (ends.0.min(v), ends.1.max(v))
}

impl Extent {
    /// That of the corners of a ring.
    pub(crate) fn of(corners: &[(i64, i64)]) -> Self
        ensures { result ≡ extent_of corners.now }
    {
        let [first, rest @ ..] = corners else {
            return Extent {
                x: (0, 0),
                y: (0, 0),
            };
        };
        let mut extent = Extent {
            x: (first.0, first.0),
            y: (first.1, first.1),
        };
        for corner in rest {
            extent = extent.with_corner(*corner);
        }
        extent
    }

    fn with_corner(self, corner: (i64, i64)) -> Self
        ensures { result ≡ with_corner self corner }
    {
        Extent {
            x: with_number(self.x, corner.0),
            y: with_number(self.y, corner.1),
        }
    }

    /// Whether a point is in it.
    pub(crate) fn holds(&self, x: i64, y: i64) -> bool
        ensures { result ≡ in_extent (x, y) self.now }
    {
        in_pair(x, self.x) && in_pair(y, self.y)
    }
}
