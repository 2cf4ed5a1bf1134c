//! Discs.

ghost use Rattle.std.specs.Prelude.{◌≡◌, ◌*◌, ◌≤◌, ◌&&◌, ◌+◌, ◌<◌, ◌^◌, nat_le};
ghost use Rattle.geo_tests.specs.Tests.{in_disc, square};

/// A disc in nanounits, seen from above, with its border. A radius below 0 leaves no point in it.
#[derive(Clone, Copy, Debug, PartialEq, Eq)]
pub struct Disc {
    /// X coordinate of the centre.
    pub x: i64,
    /// Y coordinate of the centre.
    pub y: i64,
    /// The distance from the centre to the border.
    pub radius: i64,
}

fn square(n: u64) -> u128
    ensures { result ≡ square n }
{
    n as u128 * n as u128
}

/// Whether a way so far to the east and so far to the north is no longer than the radius.
fn is_within(east: u64, north: u64, radius: u64) -> bool
    requires { radius ≤ 2 ^ 63 }
    ensures { result ≡ nat_le (square east + square north) (square radius) }
{
    if radius < east || radius < north {
        return false;
    }
    square(east) + square(north) <= square(radius)
}

/// Whether a point is in a disc, whose border is inside. Any X and Y in nanounits may be asked.
pub fn in_disc(x: i64, y: i64, d: &Disc) -> bool
    ensures { result ≡ in_disc x y d.now }
{
    if d.radius < 0 {
        return false;
    }
    is_within(x.abs_diff(d.x), y.abs_diff(d.y), d.radius.unsigned_abs())
}
