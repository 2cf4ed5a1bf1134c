//! Points that go on together.

ghost use Rattle.std.specs.Prelude.{◌≡◌, ◌<◌, ◌≤◌, length};
ghost use Rattle.cloud_points.specs.Chunks.{chunk_of};

use crate::point::Point;
use crate::spread::{Spread, put_points};
use std::marker::Model;

/// At least one point, and at most 64. A clause sees the list of them.
#[derive(Debug, Drop)]
pub struct Chunk {
    points: Spread,
}

impl Model for Chunk {
    ghost use Rattle.std.specs.Prelude.{◌<◌, ◌≤◌, List, length};
    ghost use Rattle.cloud_points.specs.declared.point.Point.{Point};

    ghost Value = { List Point };

    ghost view = { λ c. c.points.items };

    ghost invariant = { λ c. (0 < length c.points.items) × (length c.points.items ≤ 64) };
}

impl Chunk {
    /// The points as a chunk; None exactly where there is none.
    pub fn of(points: &Spread) -> Option<Chunk>
        ensures { result ≡ chunk_of points.now.items }
    {
        if points.is_empty() {
            return None;
        }
        let mut kept = Spread::new();
        put_points(&mut kept, points.as_slice());
        Some(Chunk { points: kept })
    }

    /// The points.
    pub fn points(&self) -> &[Point]
        ensures points { result.now ≡ self.now }
        ensures some { 0 < length result.now }
        ensures most { length result.now ≤ 64 }
    {
        self.points.as_slice()
    }
}
