//! Boxes.

ghost use Rattle.std.specs.Prelude.{◌≡◌};
ghost use Rattle.geo_tests.specs.Tests.{in_pair, in_height, in_box};

use cloud_points::Point;
use limits_text::Box3;

/// Whether a number is one of the ends, or between them.
pub(crate) fn in_pair(v: i64, ends: (i64, i64)) -> bool
    ensures { result ≡ in_pair v ends }
{
    ends.0 <= v && v <= ends.1
}

fn in_height(v: i64, ends: Option<(i64, i64)>) -> bool
    ensures { result ≡ in_height v ends }
{
    match ends {
        None => true,
        Some(ends) => in_pair(v, ends),
    }
}

/// Whether a point is in a box, whose borders are inside. Without `z` all heights are. Any point may be asked.
pub fn in_box(p: &Point, b: &Box3) -> bool
    ensures { result ≡ in_box p.now b.now }
{
    in_pair(p.x, b.x) && in_pair(p.y, b.y) && in_height(p.z, b.z)
}
