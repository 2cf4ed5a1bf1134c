//! Polygons that many points are held against.

ghost use Rattle.std.specs.Prelude.{◌≡◌, IfOk};
ghost use Rattle.geo_tests.specs.Tests.{in_polygon};

use crate::extents::Extent;
use crate::polygons::in_ring;
use limits_text::Polygon;
use std::alloc::{AllocError, Global};
use std::marker::Model;

/// A polygon with the box around its corners, which contracts see as the list of the corners.
#[derive(Drop)]
pub struct Area {
    ring: Polygon,
    extent: Extent,
}

impl Model for Area {
    ghost use Rattle.std.specs.Prelude.{List, ℤ, ◌≡◌};
    ghost use Rattle.geo_tests.specs.Extents.{extent_of};

    ghost Value = { List (ℤ × ℤ) };

    ghost view = { λ a. a.ring };

    ghost invariant = { λ a. a.extent ≡ extent_of a.ring };
}

impl Area {
    /// The area of a polygon. It takes no memory.
    pub fn new(polygon: Polygon) -> Self
        ensures { result ≡ polygon }
    {
        let extent = Extent::of(polygon.as_slice());
        Area {
            ring: polygon,
            extent,
        }
    }

    /// The same area. Refused only where memory is wanting.
    pub fn try_copy(&self, alloc: Global) -> Result<Self, AllocError>
        ensures { IfOk result (λ copy. copy ≡ self.now) }
    {
        let mut corners = Vec::new(alloc);
        corners.extend_from_slice(self.ring.as_slice())?;
        Ok(Area {
            ring: Polygon::new(corners),
            extent: self.extent,
        })
    }

    /// Whether a point is in it by the even-odd rule; its edges and corners are inside. Any X and Y in nanounits may be asked.
    pub fn holds(&self, x: i64, y: i64) -> bool
        ensures { result ≡ in_polygon (x, y) self.now }
    {
        in_ring(self.ring.as_slice(), &self.extent, x, y)
    }
}
