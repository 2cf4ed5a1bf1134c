//! What points are told apart by.

ghost use Rattle.std.specs.Prelude.{◌≡◌};

use cloud_points::Dim;
use packed_chunk::PackedRows;
use std::hash::Hash;

/// What points are told apart by.
pub trait PointKey {
    ghost use Rattle.std.specs.Prelude.{◌<◌, length, get_or};
    ghost use Rattle.cloud_points.specs.Points.{zero_point};
    ghost use Rattle.cloud_points.specs.declared.point.Point.{Point};

    /// The keys.
    type Key: Eq + Hash + Drop;

    ghost key: { Self → Point → Self.Key };

    /// The key of the point at a place. It should read of its row only what the key needs.
    fn key_at(&self, rows: &PackedRows, k: usize) -> Self::Key
        requires { k < length rows.now.points }
        ensures { result ≡ key self.now (get_or rows.now.points k zero_point) };
}

/// Points are told apart by their keys in a dimension.
#[derive(Clone, Copy)]
pub(crate) struct DimKey(pub(crate) Dim);

impl PointKey for DimKey {
    ghost use Rattle.cloud_points.specs.Points.{key_of};
    ghost use Rattle.packed_chunk.specs.Keys.{short_key};

    type Key = i64;

    ghost key = { λ by p. short_key by.0 (key_of p by.0) };

    #[inline(always)]
    fn key_at(&self, rows: &PackedRows, k: usize) -> i64 {
        rows.short_key(k, self.0)
    }
}
