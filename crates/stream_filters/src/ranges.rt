//! Points that are held against one limit, at once.

ghost use Rattle.std.specs.Prelude.{◌≡◌, ◌≤◌, length};
ghost use Rattle.cloud_points.specs.Points.{get};
ghost use Rattle.geo_tests.specs.Tests.{in_interval};
ghost use Rattle.stream_filters.specs.Masks.{mask_of};

use crate::masks::{PointTest, mask_of};
use cloud_points::{Dim, Point};
use geo_tests::{Ends, Limit};

/// The points whose value in a dimension is in an interval.
#[derive(Drop)]
struct Within {
    dim: Dim,
    ends: Ends,
}

impl PointTest for Within {
    ghost test = { λ w p. in_interval (get p w.dim) w.ends };

    #[inline(always)]
    fn holds(&self, p: &Point) -> bool {
        self.ends.hold(p.get(self.dim))
    }
}

/// The mask of those points whose value in this dimension is in an interval.
#[inline(always)]
fn mask_within(dim: Dim, ends: Ends, points: &[Point]) -> u64
    requires { length points.now ≤ 64 }
    ensures { result ≡ mask_of (λ p. in_interval (get p dim) ends) points.now }
{
    mask_of(&Within { dim, ends }, points)
}

/// The mask of those points that are within a limit.
pub(crate) fn mask_of_limit(limit: &Limit, points: &[Point]) -> u64
    requires { length points.now ≤ 64 }
    ensures { result ≡ mask_of (λ p. in_interval (get p limit.now.dim) limit.now.interval) points.now }
{
    let ends = Ends::of(&limit.interval);
    // Each arm is a loop of its own, which reads one field of the points.
    match limit.dim {
        Dim::X => mask_within(Dim::X, ends, points),
        Dim::Y => mask_within(Dim::Y, ends, points),
        Dim::Z => mask_within(Dim::Z, ends, points),
        Dim::Intensity => mask_within(Dim::Intensity, ends, points),
        Dim::ReturnNumber => mask_within(Dim::ReturnNumber, ends, points),
        Dim::NumberOfReturns => mask_within(Dim::NumberOfReturns, ends, points),
        Dim::ScanDirectionFlag => mask_within(Dim::ScanDirectionFlag, ends, points),
        Dim::EdgeOfFlightLine => mask_within(Dim::EdgeOfFlightLine, ends, points),
        Dim::Classification => mask_within(Dim::Classification, ends, points),
        Dim::Synthetic => mask_within(Dim::Synthetic, ends, points),
        Dim::KeyPoint => mask_within(Dim::KeyPoint, ends, points),
        Dim::Withheld => mask_within(Dim::Withheld, ends, points),
        Dim::Overlap => mask_within(Dim::Overlap, ends, points),
        Dim::ScanChannel => mask_within(Dim::ScanChannel, ends, points),
        Dim::ScanAngleRank => mask_within(Dim::ScanAngleRank, ends, points),
        Dim::UserData => mask_within(Dim::UserData, ends, points),
        Dim::PointSourceId => mask_within(Dim::PointSourceId, ends, points),
        Dim::GpsTime => mask_within(Dim::GpsTime, ends, points),
        Dim::Red => mask_within(Dim::Red, ends, points),
        Dim::Green => mask_within(Dim::Green, ends, points),
        Dim::Blue => mask_within(Dim::Blue, ends, points),
        Dim::Infrared => mask_within(Dim::Infrared, ends, points),
        Dim::Extra(place) => mask_within(Dim::Extra(place), ends, points),
    }
}
