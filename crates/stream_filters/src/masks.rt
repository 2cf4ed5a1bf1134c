//! Points that are judged at once, as a mask.

ghost use Rattle.std.specs.Prelude.{◌≡◌, ◌≤◌, ◌<◌, ◌-◌, ◌^◌, length, take, IsTrue};
ghost use Rattle.stream_filters.specs.Masks.{marked, mask_of};

use crate::judge::move_down;
use cloud_points::Point;

/// A test of points, each by itself.
pub(crate) trait PointTest {
    ghost use Rattle.std.specs.Prelude.{Bool};
    ghost use Rattle.cloud_points.specs.declared.point.Point.{Point};

    ghost test: { Self → Point → Bool };

    /// Whether the point passes.
    fn holds(&self, p: &Point) -> bool
        ensures { result ≡ test self.now p.now };
}

/// The mask of those of at most 64 points that pass; its lowest bit is the first one's.
#[inline(always)]
pub(crate) fn mask_of<T: PointTest>(test: &T, points: &[Point]) -> u64
    requires { length points.now ≤ 64 }
    ensures { result ≡ mask_of (T.test test.now) points.now }
{
    let mut mask = 0;
    for at in 0..points.len() {
        mask = 2 * mask + test.holds(&points[points.len() - 1 - at]) as u64;
    }
    mask
}

/// The mask of so many points.
fn mask_of_all(count: usize) -> u64
    requires some { 0 < count }
    requires most { count ≤ 64 }
    ensures { result ≡ 2 ^ count - 1 }
{
    u64::MAX >> (64 - count)
}

/// Whether a mask names each of so many points, which are at least one.
fn names_all(mask: u64, count: usize) -> bool
    requires { count ≤ 64 }
    ensures { IsTrue result → mask ≡ 2 ^ count - 1 }
{
    0 < count && mask == mask_of_all(count)
}

/// Moves the points that a mask names to the front, in their order, and answers how many they are.
fn move_marked(points: &mut [Point], mask: u64) -> usize
    ensures { take result points.new ≡ marked mask points.old }
{
    let mut kept = 0;
    let mut rest = mask;
    for at in 0..points.len() {
        kept = move_down(points, kept, at, rest % 2 == 1);
        rest /= 2;
    }
    kept
}

/// Has the points that a mask names stand first, and answers how many they are. None is moved where all are named, or none is.
pub(crate) fn keep_marked(points: &mut [Point], mask: u64) -> usize
    requires { length points.old ≤ 64 }
    ensures { take result points.new ≡ marked mask points.old }
{
    if names_all(mask, points.len()) {
        return points.len();
    }
    if mask == 0 {
        return 0;
    }
    move_marked(points, mask)
}
