//! Shapes that limit points.

ghost use Rattle.std.specs.Prelude.{◌≡◌, IfOk};
ghost use Rattle.geo_tests.specs.Tests.{in_shape};

use crate::area::Area;
use crate::boxes::in_box;
use crate::discs::{Disc, in_disc};
use cloud_points::Point;
use limits_text::Box3;
use std::alloc::{AllocError, Global};

/// What limits points in space.
#[derive(Drop)]
pub enum Shape {
    /// A box along the axes, perhaps of all heights.
    Box(Box3),
    /// A polygon, seen from above.
    Polygon(Area),
    /// A disc, seen from above.
    Disc(Disc),
}

impl Shape {
    /// The same shape. Refused only where memory is wanting.
    pub fn try_copy(&self, alloc: Global) -> Result<Shape, AllocError>
        ensures { IfOk result (λ copy. copy ≡ self.now) }
    {
        match self {
            Shape::Box(limits) => Ok(Shape::Box(*limits)),
            Shape::Polygon(area) => Ok(Shape::Polygon(area.try_copy(alloc)?)),
            Shape::Disc(disc) => Ok(Shape::Disc(*disc)),
        }
    }

    /// Whether a point is in it; its borders are inside. Any point may be asked.
    pub fn holds(&self, p: &Point) -> bool
        ensures { result ≡ in_shape p.now self.now }
    {
        match self {
            Shape::Box(limits) => in_box(p, limits),
            Shape::Polygon(area) => area.holds(p.x, p.y),
            Shape::Disc(disc) => in_disc(p.x, p.y, disc),
        }
    }
}
