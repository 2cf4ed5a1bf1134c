//! Polygons.

ghost use Rattle.std.specs.Prelude.{◌≡◌, ◌∷◌, [], true};
ghost use Rattle.limits_text.specs.Held.{AreHeld};
ghost use Rattle.geo_tests.specs.Extents.{extent_of};
ghost use Rattle.geo_tests.specs.Tests.{different, in_extent, in_polygon};

use crate::edges::side_of;
use crate::extents::Extent;
use limits_text::Polygon;

/// With one crossing more, or not.
fn flipped(odd: bool, crosses: bool) -> bool
    ensures { result ≡ different odd crosses }
{
    odd != crosses
}

/// Whether a point is in the ring of these corners, found by all of its edges.
fn walk_round(corners: &[(i64, i64)], p: (i64, i64)) -> bool
    requires { AreHeld (p ∷ corners.now) }
    ensures { result ≡ in_polygon p corners.now }
{
    let Some(last) = corners.last() else {
        return false;
    };
    let mut from = *last;
    let mut odd = false;
    for to in corners {
        let side = side_of(from, *to, p);
        if side.on {
            return true;
        }
        odd = flipped(odd, side.crosses);
        from = *to;
    }
    odd
}

/// Whether a point is in the ring of these corners, whose extent is given: only a point of that is held against the edges.
pub(crate) fn in_ring(corners: &[(i64, i64)], extent: &Extent, x: i64, y: i64) -> bool
    requires held { AreHeld corners.now }
    requires extent { extent.now ≡ extent_of corners.now }
    ensures { result ≡ in_polygon (x, y) corners.now }
{
    if !extent.holds(x, y) {
        return false;
    }
    walk_round(corners, (x, y))
}

/// Whether a point is in a polygon by the even-odd rule; its edges and corners are inside. Any X and Y in nanounits may be asked.
///
/// It works out the extent of the corners first; where many points are asked, an `Area` keeps that.
pub fn in_polygon(x: i64, y: i64, g: &Polygon) -> bool
    ensures { result ≡ in_polygon (x, y) g.now }
{
    let corners = g.as_slice();
    in_ring(corners, &Extent::of(corners), x, y)
}
