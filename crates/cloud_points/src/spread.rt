//! The list in which the points of a chunk travel.

ghost use Rattle.std.specs.Prelude.{◌≡◌, ◌≤◌, length};

use crate::Point;
use arrayvec::ArrayVec;

/// The most points of a chunk.
pub const MOST_POINTS: usize = 64;

/// A list with room for the points of one chunk, which never allocates.
pub type Spread = ArrayVec<Point, 64>;

/// Puts `points`, at most 64, in place of what the spread held.
///
/// It writes over the points that are there, so that only the used part is copied.
pub fn put_points(into: &mut Spread, points: &[Point])
    requires { length points.now ≤ 64 }
    ensures { into.new.items ≡ points.now }
{
    into.truncate(points.len());
    let kept = into.len();
    into.as_mut_slice().copy_from_slice(&points[..kept]);
    let _ = into.try_extend_from_slice(&points[kept..]);
}
