//! Laws of polygons.

ghost use Rattle.std.specs.Prelude.{◌≡◌, ◌≤ℤ◌, ℤ, List, [], ◌∷◌, ◌++◌, reverse, false, None};
ghost use Rattle.cloud_points.specs.declared.point.Point.{Point};
ghost use Rattle.limits_text.specs.declared.shapes.Box3.{Box3};
ghost use Rattle.geo_tests.specs.Extents.{extent_of};
ghost use Rattle.geo_tests.specs.Rectangles.{corners_of};
ghost use Rattle.geo_tests.specs.Tests.{in_box, in_extent, in_polygon};

/// What is in a ring doesn't depend on the direction in which its corners are told, nor on the one at which it begins, nor on
/// whether that one stands at its end once more.
pub fn rings_are_round()
    ensures turned { (p : ℤ × ℤ) (corners : List (ℤ × ℤ))
        → in_polygon p (reverse corners) ≡ in_polygon p corners }
    ensures begun_elsewhere { (p : ℤ × ℤ) (front back : List (ℤ × ℤ))
        → in_polygon p (back ++ front) ≡ in_polygon p (front ++ back) }
    ensures closed { (p first : ℤ × ℤ) (rest : List (ℤ × ℤ))
        → in_polygon p (first ∷ (rest ++ first ∷ [])) ≡ in_polygon p (first ∷ rest) }
{}

/// What is in a ring is in the extent of its corners.
pub fn rings_lie_in_their_extent()
    ensures { (p : ℤ × ℤ) (corners : List (ℤ × ℤ))
        → in_extent p (extent_of corners) ≡ false → in_polygon p corners ≡ false }
{}

/// In the ring round a box are just the points of the box.
pub fn rectangles_are_boxes()
    ensures { (p : Point) (b : Box3) → b.x.0 ≤ℤ b.x.1 → b.y.0 ≤ℤ b.y.1 → b.z ≡ None
        → in_polygon (p.x, p.y) (corners_of b) ≡ in_box p b }
{}
